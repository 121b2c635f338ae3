// What set operators satisfy.
ghost use Rattle.std.specs.Prelude.{◌≡◌, ℕ, [], ◌∷◌, ◌++◌, List, map, take};
ghost use Rattle.vtl_lists.specs.Perm.{Perm};
ghost use Rattle.vtl_cell.specs.Row.{Row};
ghost use Rattle.vtl_syntax.specs.declared.word_groups.Retain.TheVariants as retain;
ghost use Rattle.vtl_tree.specs.DataSet.{Distinct, IsDataSet};
ghost use Rattle.vtl_tree.specs.Environment.{DataSet};
ghost use Rattle.vtl_tree.specs.Structure.{IsStructure, columns_of, key_width, names_of};
ghost use Rattle.vtl_tree.specs.declared.structure.Structure.{Structure};
ghost use Rattle.vtl_meaning.specs.Made.{IsCombined};
ghost use Rattle.vtl_meaning.specs.Operators.{left_of};
ghost use Rattle.vtl_meaning.specs.Points.{with_points};
ghost use Rattle.vtl_meaning.specs.Sets.{difference_of, existence_of, intersection_of, symmetric_difference_of, union_of, united};

/// A data set with itself: union and intersection are its points without attributes, and neither difference has a point.
///
/// - `plain`: where the result has the operand's columns, so where there are no attributes, its points are the operand's.
pub fn sets_with_themselves()
    ensures union { (d : DataSet) (s : Structure) → IsCombined d.structure (d.structure ∷ []) s → IsDataSet d.structure d.points → union_of (d ∷ d ∷ []) s ≡ left_of d s }
    ensures intersection { (d : DataSet) (s : Structure) → intersection_of (d ∷ d ∷ []) s ≡ left_of d s }
    ensures difference { (d : DataSet) (s : Structure) → difference_of d d s ≡ [] }
    ensures symmetric_difference { (d : DataSet) (s : Structure) → symmetric_difference_of d d s ≡ [] }
    ensures plain { (d : DataSet) (s : Structure) → IsDataSet d.structure d.points → names_of (columns_of d.structure) ≡ names_of (columns_of s) → left_of d s ≡ d.points }
{}

/// The difference and the intersection part the first operand: together they have its points without attributes, each
/// once.
pub fn differences_and_intersections_part_the_whole()
    ensures { (d e : DataSet) (s : Structure) → Perm (difference_of d e s ++ intersection_of (d ∷ e ∷ []) s) (left_of d s) }
{}

/// `exists_in` beside the set operators, where both operands have the same identifiers: with `true` it gives the
/// identifiers of the intersection, with `false` those of the difference, and both together are what `all` gives.
///
/// - `parts`: this holds of any two operands.
pub fn existence_is_intersection_or_difference()
    ensures there { (d e : DataSet) (s : Structure) → IsCombined d.structure (e.structure ∷ []) s → IsDataSet d.structure d.points → IsDataSet e.structure e.points → map (take (key_width s)) (existence_of d e retain.True) ≡ map (take (key_width s)) (intersection_of (d ∷ e ∷ []) s) }
    ensures absent { (d e : DataSet) (s : Structure) → IsCombined d.structure (e.structure ∷ []) s → IsDataSet d.structure d.points → IsDataSet e.structure e.points → map (take (key_width s)) (existence_of d e retain.False) ≡ map (take (key_width s)) (difference_of d e s) }
    ensures parts { (d e : DataSet) → Perm (existence_of d e retain.True ++ existence_of d e retain.False) (existence_of d e retain.All) }
{}

/// A union of three is the same however it is bracketed, point by point in the same order.
///
/// - `lists`: on lists of points.
/// - `sets`: `t` and `u` are the structures of the unions inside, `s` and `r` those of the whole ones.
/// - `structures`: these two are equal, so codes are kept alike.
pub fn unions_are_associative()
    ensures lists { (n : ℕ) (a b c : List Row) → united n (united n (a ∷ b ∷ []) ∷ c ∷ []) ≡ united n (a ∷ united n (b ∷ c ∷ []) ∷ []) }
    ensures sets { (a b c : DataSet) (t u s r : Structure) → IsCombined a.structure (b.structure ∷ []) t → IsCombined b.structure (c.structure ∷ []) u → IsCombined t (c.structure ∷ []) s → IsCombined a.structure (u ∷ []) r → IsDataSet a.structure a.points → IsDataSet b.structure b.points → IsDataSet c.structure c.points → union_of (with_points t (union_of (a ∷ b ∷ []) t) ∷ c ∷ []) s ≡ union_of (a ∷ with_points u (union_of (b ∷ c ∷ []) u) ∷ []) r }
    ensures structures { (a b c t u s r : Structure) → IsCombined a (b ∷ []) t → IsCombined b (c ∷ []) u → IsCombined t (c ∷ []) s → IsCombined a (u ∷ []) r → IsStructure b → IsStructure c → s ≡ r }
{}

/// The symmetric difference is the union of the two differences, point by point in the same order. `s` and `t` are the
/// structures of the differences, `r` that of their union.
pub fn symmetric_differences_are_two_differences()
    ensures { (d e : DataSet) (s t r : Structure) → IsCombined d.structure (e.structure ∷ []) s → IsCombined e.structure (d.structure ∷ []) t → IsCombined s (t ∷ []) r → IsDataSet d.structure d.points → IsDataSet e.structure e.points → symmetric_difference_of d e s ≡ union_of (with_points s (difference_of d e s) ∷ with_points t (difference_of e d t) ∷ []) r }
{}
