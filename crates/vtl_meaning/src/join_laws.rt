// Laws of joins.
ghost use Rattle.std.specs.Prelude.{◌≡◌, [], ◌∷◌, ◌++◌, List, None, Some, cond, length, map, option_map};
ghost use Rattle.std.specs.List.{AllByRecursion, flat_map, list_any};
ghost use Rattle.std.specs.Option.{option_and_then};
ghost use Rattle.vtl_decimal.specs.Settings.{Settings};
ghost use Rattle.vtl_lists.specs.Perm.{Perm};
ghost use Rattle.vtl_cell.specs.Row.{Row, same_row};
ghost use Rattle.vtl_syntax.specs.declared.word_groups.JoinKind.{JoinKind};
ghost use Rattle.vtl_syntax.specs.declared.word_groups.JoinKind.TheVariants as join;
ghost use Rattle.vtl_tree.specs.DataSet.{AreOfProfile, IsDataSet, look};
ghost use Rattle.vtl_tree.specs.Environment.{DataSet};
ghost use Rattle.vtl_tree.specs.Structure.{key_width};
ghost use Rattle.vtl_tree.specs.declared.structure.Structure.{Structure};
ghost use Rattle.vtl_tuples.specs.Tuples.{matched_with};
ghost use Rattle.vtl_meaning.specs.Agreement.{key_of, operand_points, points_agree, values_in};
ghost use Rattle.vtl_tree.specs.Columns.{identifiers_of};
ghost use Rattle.vtl_meaning.specs.JoinWords.{IsWithin, agreed_tuple, cross_with, full_with, left_with, looked_tuple, point_with, points_at, whole_point};
ghost use Rattle.vtl_meaning.specs.Joined.{agreeing, cross_tuples, crossed, full_tuples, inner_tuples, join_of, keys_in, left_tuples, present, reference_of, reference_place, structures_of, tuple_at, tuple_beside, tuple_point};
ghost use Rattle.vtl_meaning.specs.Made.{IsJoined};
ghost use Rattle.vtl_meaning.specs.Orders.{SameOperands};

/// A join of data sets is a data set of the structure that typing gives, and its integers are of the profile where
/// those of the operands are.
pub fn joins_keep_data_sets()
    ensures kept { (kind : JoinKind) (ds : List DataSet) (s : Structure) → IsJoined kind (structures_of ds) s → AllByRecursion (λ d. IsDataSet d.structure d.points) ds → IsDataSet s (join_of kind ds) }
    ensures profile { (p : Settings) (kind : JoinKind) (ds : List DataSet) → AllByRecursion (λ d. AreOfProfile p d.points) ds → AreOfProfile p (join_of kind ds) }
{}

/// Operands whose points stand in another order give the same points up to order.
pub fn joins_do_not_see_order()
    ensures { (kind : JoinKind) (ds es : List DataSet) → SameOperands ds es → AllByRecursion (λ d. IsDataSet d.structure d.points) ds → (s : Structure) → IsJoined kind (structures_of ds) s → Perm (join_of kind ds) (join_of kind es) }
{}

/// An inner join is made from the reference, but it is the set of all tuples of points, one of each operand, of which
/// each two agree, and this set knows no reference. The reference may stand anywhere among the operands.
///
/// - `parts`: the parts of its tuples are these points.
/// - `tuples`: its tuples are these points with the identifiers of the reference's one.
/// - `points`: its points are those of these tuples.
pub fn inner_joins_are_all_that_agree()
    ensures parts { (pre : List DataSet) (r : DataSet) (post : List DataSet) → AllByRecursion (IsWithin r.structure) (pre ++ r ∷ post) → Perm (map (map present) (agreeing (pre ++ r ∷ post))) (map (λ t. t.parts) (inner_tuples r (pre ++ r ∷ post))) }
    ensures tuples { (pre : List DataSet) (r : DataSet) (post : List DataSet) → AllByRecursion (IsWithin r.structure) (pre ++ r ∷ post) → Perm (map (agreed_tuple (length pre)) (agreeing (pre ++ r ∷ post))) (inner_tuples r (pre ++ r ∷ post)) }
    ensures points { (ds : List DataSet) (s : Structure) → IsJoined join.Inner (structures_of ds) s → AllByRecursion (λ d. IsDataSet d.structure d.points) ds → Perm (map (λ xs. tuple_point (agreed_tuple (reference_place join.Inner (structures_of ds)) xs)) (agreeing ds)) (join_of join.Inner ds) }
{}

/// Joins are defined over all operands at once. With one more operand `d` behind them they are made from the tuples
/// that were there:
///
/// - inner: each tuple with each point of `d` that agrees with all of its points; this needs no reference;
/// - left: each tuple with the point of `d` that agrees with the first operand's, or with a missing part;
/// - full: each tuple with the point of `d` that has its identifiers, or with a missing part, and then each other
///   point of `d` behind missing parts;
/// - cross: each tuple with each point of `d`.
pub fn joins_grow_operand_by_operand()
    ensures inner { (ds : List DataSet) (d : DataSet) → agreeing (ds ++ d ∷ []) ≡ matched_with points_agree (agreeing ds) (operand_points d) }
    ensures left { (r : DataSet) (ds : List DataSet) (d : DataSet) → IsDataSet r.structure r.points → left_tuples r (r ∷ ds ++ d ∷ []) ≡ left_with (left_tuples r (r ∷ ds)) d }
    ensures full { (r : DataSet) (ds : List DataSet) (d : DataSet) → IsWithin r.structure d → full_tuples r (ds ++ d ∷ []) ≡ full_with (identifiers_of r.structure) ds (full_tuples r ds) d }
    ensures cross { (ds : List DataSet) (d : DataSet) → cross_tuples (ds ++ d ∷ []) ≡ cross_with (cross_tuples ds) d }
{}

/// What a join of data sets gives for a tuple `k` of the result's identifiers.
///
/// - `left_join`: a point where the first operand has one, of the tuple beside that point.
/// - `inner_join`: where the reference has a point, the point of the tuple beside it, if no part of that is missing.
/// - `full_join`: a point where some operand has one with these identifiers, of the tuple of all of them.
/// - `cross_join`: at a tuple of identifiers for each operand, one behind the other, the point of the combination of
///   the operands' points there, if each operand has one.
///
/// The parts of these tuples, beside a point of the reference (`beside`) and of a full join (`at`), are the operands'
/// points at their parts of the identifiers.
pub fn joins_by_look_up()
    ensures left { (r : DataSet) (ds : List DataSet) (s : Structure) (k : Row) → IsJoined join.Left (structures_of (r ∷ ds)) s → AllByRecursion (λ d. IsDataSet d.structure d.points) (r ∷ ds) → look (key_width s) (join_of join.Left (r ∷ ds)) k ≡ option_map (λ q. tuple_point (tuple_beside r.structure (r ∷ ds) q)) (look (key_width r.structure) r.points k) }
    ensures inner { (ds : List DataSet) (r : DataSet) (s : Structure) (k : Row) → IsJoined join.Inner (structures_of ds) s → AllByRecursion (λ d. IsDataSet d.structure d.points) ds → reference_of join.Inner ds ≡ Some r → look (key_width s) (join_of join.Inner ds) k ≡ option_and_then (λ q. whole_point (tuple_beside r.structure ds q)) (look (key_width r.structure) r.points k) }
    ensures full { (r : DataSet) (ds : List DataSet) (s : Structure) (k : Row) → IsJoined join.Full (structures_of (r ∷ ds)) s → AllByRecursion (λ d. IsDataSet d.structure d.points) (r ∷ ds) → look (key_width s) (join_of join.Full (r ∷ ds)) k ≡ cond (list_any (λ j. same_row j k) (flat_map (keys_in (identifiers_of r.structure)) (r ∷ ds))) (Some (tuple_point (tuple_at (identifiers_of r.structure) (r ∷ ds) k))) None }
    ensures cross { (ds : List DataSet) (ks : List Row) (s : Structure) → IsJoined join.Cross (structures_of ds) s → AllByRecursion (λ d. IsDataSet d.structure d.points) ds → map length ks ≡ map (λ d. key_width d.structure) ds → look (key_width s) (join_of join.Cross ds) (flat_map (λ k. k) ks) ≡ option_map (λ xs. tuple_point (crossed xs)) (points_at ds ks) }
    ensures beside { (a : Structure) (ds : List DataSet) (q : Row) → AllByRecursion (IsWithin a) ds → tuple_beside a ds q ≡ looked_tuple a ds (key_of a q) }
    ensures at { (r : DataSet) (ds : List DataSet) (s : Structure) (k : Row) → IsJoined join.Full (structures_of (r ∷ ds)) s → AllByRecursion (λ d. IsDataSet d.structure d.points) (r ∷ ds) → length k ≡ key_width r.structure → tuple_at (identifiers_of r.structure) (r ∷ ds) k ≡ looked_tuple r.structure (r ∷ ds) k }
{}

/// No point is lost where parts may be missing: a left join has a point for each point of the first operand, and a full
/// join for each point of any operand (`full`), of the tuple in which that point is its operand's part (`parts`).
pub fn left_and_full_joins_lose_nothing()
    ensures left { (r : DataSet) (ds : List DataSet) (s : Structure) → IsJoined join.Left (structures_of (r ∷ ds)) s → AllByRecursion (λ d. IsDataSet d.structure d.points) (r ∷ ds) → AllByRecursion (λ q. look (key_width s) (join_of join.Left (r ∷ ds)) (key_of r.structure q) ≡ Some (tuple_point (tuple_beside r.structure (r ∷ ds) q))) r.points }
    ensures full { (r : DataSet) (ds : List DataSet) (s : Structure) → IsJoined join.Full (structures_of (r ∷ ds)) s → AllByRecursion (λ d. IsDataSet d.structure d.points) (r ∷ ds) → AllByRecursion (λ d. AllByRecursion (λ q. look (key_width s) (join_of join.Full (r ∷ ds)) (values_in d.structure (identifiers_of r.structure) q) ≡ Some (tuple_point (tuple_at (identifiers_of r.structure) (r ∷ ds) (values_in d.structure (identifiers_of r.structure) q)))) d.points) (r ∷ ds) }
    ensures parts { (r : DataSet) (ds : List DataSet) (s : Structure) → IsJoined join.Full (structures_of (r ∷ ds)) s → AllByRecursion (λ d. IsDataSet d.structure d.points) (r ∷ ds) → AllByRecursion (λ d. AllByRecursion (λ q. point_with (identifiers_of r.structure) d (values_in d.structure (identifiers_of r.structure) q) ≡ Some q) d.points) (r ∷ ds) }
{}
