// What joins satisfy.
ghost use Rattle.std.specs.Prelude.{◌≡◌, [], ◌∷◌, List, filter, map, reverse};
ghost use Rattle.std.specs.List.{AllByRecursion, Contains};
ghost use Rattle.vtl_lists.specs.Perm.{Perm};
ghost use Rattle.vtl_syntax.specs.declared.word_groups.JoinKind.TheVariants as join;
ghost use Rattle.vtl_tree.specs.Columns.{identifiers_of};
ghost use Rattle.vtl_tree.specs.DataSet.{IsDataSet};
ghost use Rattle.vtl_tree.specs.Environment.{DataSet};
ghost use Rattle.vtl_tree.specs.declared.structure.Structure.{Structure};
ghost use Rattle.vtl_meaning.specs.Joined.{Tuple, agreeing, full_tuples, is_whole, join_of, left_tuples, reference_place, structures_of, tuple_point, tuples_of};
ghost use Rattle.vtl_meaning.specs.Made.{IsJoined};
ghost use Rattle.vtl_meaning_laws.specs.Found.{IsFullTuple, IsLeftTuple, begins_whole};

/// A left join as a set of tuples, which knows no look-up: a tuple is in it exactly where its first part is a point of
/// the first operand, and each other part is the point of its operand that agrees with that one, or missing where none
/// does.
pub fn left_joins_are_sets_of_tuples()
    ensures only { (first : DataSet) (others : List DataSet) (s : Structure) → IsJoined join.Left (structures_of (first ∷ others)) s → AllByRecursion (λ d. IsDataSet d.structure d.points) (first ∷ others) → AllByRecursion (IsLeftTuple first others) (left_tuples first (first ∷ others)) }
    ensures all { (first : DataSet) (others : List DataSet) (s : Structure) (t : Tuple) → IsJoined join.Left (structures_of (first ∷ others)) s → AllByRecursion (λ d. IsDataSet d.structure d.points) (first ∷ others) → IsLeftTuple first others t → Contains (left_tuples first (first ∷ others)) t }
{}

/// A full join as a set of tuples: a tuple is in it exactly where each part is the point of its operand with the tuple's
/// identifiers, or missing where the operand has none, and some part is there. The first operand gives no more than the
/// order in which identifiers are written.
pub fn full_joins_are_sets_of_tuples()
    ensures only { (first : DataSet) (others : List DataSet) (s : Structure) → IsJoined join.Full (structures_of (first ∷ others)) s → AllByRecursion (λ d. IsDataSet d.structure d.points) (first ∷ others) → AllByRecursion (IsFullTuple (identifiers_of first.structure) (first ∷ others)) (full_tuples first (first ∷ others)) }
    ensures all { (first : DataSet) (others : List DataSet) (s : Structure) (t : Tuple) → IsJoined join.Full (structures_of (first ∷ others)) s → AllByRecursion (λ d. IsDataSet d.structure d.points) (first ∷ others) → IsFullTuple (identifiers_of first.structure) (first ∷ others) t → Contains (full_tuples first (first ∷ others)) t }
{}

/// An inner join is a left join without the tuples in which a part is missing.
///
/// - `tuples`: from any reference.
/// - `points`: where the reference is the first operand, as in a left join.
pub fn inner_joins_are_whole_left_joins()
    ensures tuples { (reference : DataSet) (operands : List DataSet) → tuples_of join.Inner reference operands ≡ filter is_whole (tuples_of join.Left reference operands) }
    ensures points { (first : DataSet) (others : List DataSet) → reference_place join.Inner (structures_of (first ∷ others)) ≡ 0 → join_of join.Inner (first ∷ others) ≡ map tuple_point (filter is_whole (left_tuples first (first ∷ others))) }
{}

/// A left join is a full join without the tuples in which the first operand's part is missing, where both may be written:
/// where all operands have the same identifiers. The tuples stand in the same order.
pub fn left_joins_are_full_joins_of_first_points()
    ensures { (first : DataSet) (others : List DataSet) (s : Structure) → IsJoined join.Full (structures_of (first ∷ others)) s → AllByRecursion (λ d. IsDataSet d.structure d.points) (first ∷ others) → filter begins_whole (full_tuples first (first ∷ others)) ≡ left_tuples first (first ∷ others) }
{}

/// An inner join of two data sets puts the same points together, whichever stands first: its pairs are those of the other
/// order, turned. So the results differ in their columns alone.
pub fn inner_joins_do_not_see_which_stands_first()
    ensures { (a b : DataSet) → Perm (map reverse (agreeing (a ∷ b ∷ []))) (agreeing (b ∷ a ∷ [])) }
{}
