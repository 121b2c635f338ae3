// Laws of set operators, of `exists_in`, and of `pivot` and `unpivot`.
ghost use Rattle.std.specs.Prelude.{◌≡◌, ◌≤◌, ℕ, [], ◌∷◌, ◌++◌, List, None, Some, cond, false, is_some, length, map, option_map, true};
ghost use Rattle.std.specs.List.{AllByRecursion, fold, list_all, list_any};
ghost use Rattle.std.specs.Option.{option_and_then, option_map_or, option_or};
ghost use Rattle.vtl_cell.specs.Kinds.{is_null};
ghost use Rattle.vtl_lists.specs.Perm.{Perm};
ghost use Rattle.vtl_cell.specs.Row.{Row, same_row};
ghost use Rattle.vtl_cell.specs.declared.cell.Cell.TheVariants as c;
ghost use Rattle.vtl_syntax.specs.declared.word_groups.Retain.{Retain};
ghost use Rattle.vtl_tree.specs.DataSet.{IsDataSet, look};
ghost use Rattle.vtl_tree.specs.Environment.{DataSet};
ghost use Rattle.vtl_tree.specs.Kept.{kept_row};
ghost use Rattle.vtl_tree.specs.Structure.{IsStructure, columns_of, key_width, names_of};
ghost use Rattle.vtl_tree.specs.declared.structure.Structure.{Structure};
ghost use Rattle.vtl_tree.specs.Names.{is_among};
ghost use Rattle.vtl_meaning.specs.Agreement.{has_agreeing, key_of, values_in};
ghost use Rattle.vtl_tree.specs.Columns.{identifiers_of, measures_of, others_of};
ghost use Rattle.vtl_meaning.specs.Joined.{structures_of};
ghost use Rattle.vtl_meaning.specs.LookUps.{part_for, value_named, values_named};
ghost use Rattle.vtl_meaning.specs.Made.{AreCombined, IsAlternative, IsCombined, IsExistence, IsPivoted, IsUnpivoted};
ghost use Rattle.vtl_meaning.specs.Operators.{left_of};
ghost use Rattle.vtl_meaning.specs.Orders.{SameOperands};
ghost use Rattle.vtl_meaning.specs.Points.{with_points};
ghost use Rattle.vtl_meaning.specs.Sets.{all_left_of, difference_of, existence_of, intersected, intersection_of, is_retained, leftmost, symmetric_difference_of, union_of, united};
ghost use Rattle.vtl_meaning.specs.Turned.{coded_value, named_point, other_identifiers, pivot_of, pivoted_point, unpivot_of};

/// Set operators and `exists_in` give data sets of the structure that typing gives.
pub fn set_operators_keep_data_sets()
    ensures union { (ds : List DataSet) (s : Structure) → AreCombined (structures_of ds) s → AllByRecursion (λ d. IsDataSet d.structure d.points) ds → IsDataSet s (union_of ds s) }
    ensures intersection { (ds : List DataSet) (s : Structure) → AreCombined (structures_of ds) s → AllByRecursion (λ d. IsDataSet d.structure d.points) ds → IsDataSet s (intersection_of ds s) }
    ensures difference { (d e : DataSet) (s : Structure) → IsCombined d.structure (e.structure ∷ []) s → IsDataSet d.structure d.points → IsDataSet e.structure e.points → IsDataSet s (difference_of d e s) }
    ensures symmetric_difference { (d e : DataSet) (s : Structure) → IsCombined d.structure (e.structure ∷ []) s → IsDataSet d.structure d.points → IsDataSet e.structure e.points → IsDataSet s (symmetric_difference_of d e s) }
    ensures existence { (d e : DataSet) (kept : Retain) (s : Structure) → IsExistence d.structure e.structure s → IsDataSet d.structure d.points → IsDataSet s (existence_of d e kept) }
{}

/// Operands whose points stand in another order give the same points up to order.
pub fn set_operators_do_not_see_order()
    ensures union { (ds es : List DataSet) → SameOperands ds es → AllByRecursion (λ d. IsDataSet d.structure d.points) ds → (s : Structure) → AreCombined (structures_of ds) s → Perm (union_of ds s) (union_of es s) }
    ensures intersection { (ds es : List DataSet) → SameOperands ds es → AllByRecursion (λ d. IsDataSet d.structure d.points) ds → (s : Structure) → AreCombined (structures_of ds) s → Perm (intersection_of ds s) (intersection_of es s) }
    ensures difference { (a b s : Structure) (d t e f : List Row) → IsCombined a (b ∷ []) s → IsDataSet a d → IsDataSet b e → Perm d t → Perm e f → Perm (difference_of (with_points a d) (with_points b e) s) (difference_of (with_points a t) (with_points b f) s) }
    ensures symmetric_difference { (a b s : Structure) (d t e f : List Row) → IsCombined a (b ∷ []) s → IsDataSet a d → IsDataSet b e → Perm d t → Perm e f → Perm (symmetric_difference_of (with_points a d) (with_points b e) s) (symmetric_difference_of (with_points a t) (with_points b f) s) }
    ensures existence { (a b : Structure) (d t e f : List Row) (kept : Retain) → Perm d t → Perm e f → Perm (existence_of (with_points a d) (with_points b e) kept) (existence_of (with_points a t) (with_points b f) kept) }
{}

/// What each gives for a tuple `k` of the result's identifiers. An operand is looked at in the result's columns
/// (`left_of`).
///
/// - `operand`: it has a point there where the operand has one at the same values in the order of its own identifiers,
///   with that point's values of the result's measures.
/// - `union`: the point of the leftmost operand that has one.
/// - `intersection`: the first operand's point where every other operand has one.
/// - `difference`: the first operand's point where the second one has none; `symmetric_difference`: the point of the
///   one operand where the other has none.
/// - `existence`: where the first operand has a point and the answer is one that is kept, the answer: whether the
///   second operand has a point with the same values of the identifiers that both have.
pub fn set_operators_by_look_up()
    ensures operand { (d : DataSet) (s : Structure) (k : Row) → IsStructure s → columns_of s ≡ identifiers_of s ++ measures_of s → IsAlternative s d.structure s → IsDataSet d.structure d.points → length k ≡ key_width s → look (key_width s) (left_of d s) k ≡ option_map (λ r. k ++ values_named (columns_of d.structure) (others_of s) r) (look (key_width d.structure) d.points (part_for s d.structure k)) }
    ensures union { (ds : List DataSet) (s : Structure) (k : Row) → look (key_width s) (union_of ds s) k ≡ leftmost (key_width s) (all_left_of ds s) k }
    ensures intersection { (d : DataSet) (es : List DataSet) (s : Structure) (k : Row) → IsCombined d.structure (structures_of es) s → IsDataSet d.structure d.points → look (key_width s) (intersection_of (d ∷ es) s) k ≡ cond (list_all (λ e. is_some (look (key_width s) e k)) (all_left_of es s)) (look (key_width s) (left_of d s) k) None }
    ensures difference { (d e : DataSet) (s : Structure) (k : Row) → IsCombined d.structure (e.structure ∷ []) s → IsDataSet d.structure d.points → IsDataSet e.structure e.points → look (key_width s) (difference_of d e s) k ≡ cond (is_some (look (key_width s) (left_of e s) k)) None (look (key_width s) (left_of d s) k) }
    ensures symmetric_difference { (d e : DataSet) (s : Structure) (k : Row) → IsCombined d.structure (e.structure ∷ []) s → IsDataSet d.structure d.points → IsDataSet e.structure e.points → look (key_width s) (symmetric_difference_of d e s) k ≡ option_or (cond (is_some (look (key_width s) (left_of e s) k)) None (look (key_width s) (left_of d s) k)) (cond (is_some (look (key_width s) (left_of d s) k)) None (look (key_width s) (left_of e s) k)) }
    ensures existence { (d e : DataSet) (kept : Retain) (s : Structure) (k : Row) → IsExistence d.structure e.structure s → IsDataSet d.structure d.points → look (key_width s) (existence_of d e kept) k ≡ option_map (λ r. k ++ c.Bool (has_agreeing d.structure e r) ∷ []) (kept_row (λ r. is_retained kept (has_agreeing d.structure e r)) (look (key_width d.structure) d.points k)) }
{}

/// A union of many operands is the union of two, taken from the left.
///
/// - `lists`: on lists of points.
/// - `sets`: the union of some operands is a data set, and with one more operand it gives the union of all, point by
///   point in the same order. `t` and `s` are the structures that typing gives of both unions.
pub fn unions_are_folds()
    ensures lists { (n : ℕ) (ds : List (List Row)) → united n ds ≡ fold (λ u d. united n (u ∷ d ∷ [])) [] ds }
    ensures sets { (d : DataSet) (ds : List DataSet) (e : DataSet) (t s : Structure) → IsCombined d.structure (structures_of ds) t → IsCombined d.structure (structures_of (ds ++ e ∷ [])) s → AllByRecursion (λ x. IsDataSet x.structure x.points) (d ∷ ds) → union_of (d ∷ ds ++ e ∷ []) s ≡ union_of (with_points t (union_of (d ∷ ds) t) ∷ e ∷ []) s }
{}

/// The same for intersections.
pub fn intersections_are_folds()
    ensures lists { (n : ℕ) (d : List Row) (es : List (List Row)) → intersected n d es ≡ fold (λ u e. intersected n u (e ∷ [])) d es }
    ensures sets { (d : DataSet) (ds : List DataSet) (e : DataSet) (t s : Structure) → IsCombined d.structure (structures_of ds) t → IsCombined d.structure (structures_of (ds ++ e ∷ [])) s → AllByRecursion (λ x. IsDataSet x.structure x.points) (d ∷ ds) → intersection_of (d ∷ ds ++ e ∷ []) s ≡ intersection_of (with_points t (intersection_of (d ∷ ds) t) ∷ e ∷ []) s }
{}

/// `pivot` and `unpivot` give data sets and do not depend on the order of points, and what they give is this:
///
/// - `pivot_at`: for a tuple `k` of the other identifiers a point where the operand has one with these values of
///   them, and no point elsewhere. It has a value for each code.
/// - `pivot_value`: the value at a code is the measure's at the tuple of all identifiers that has this code, or null
///   where the operand has no point there.
/// - `unpivot_at`: for a tuple of identifiers and the name of a measure the measure's value at the operand's point
///   there, unless it is null. `unpivot_only`: and nothing else.
pub fn pivots_and_unpivots()
    ensures pivot_kept { (id m : List ℕ) (d : DataSet) (s : Structure) → IsPivoted id m d.structure s → IsDataSet d.structure d.points → IsDataSet s (pivot_of d id m) }
    ensures unpivot_kept { (id m : List ℕ) (d : DataSet) (s : Structure) → IsUnpivoted id m d.structure s → IsDataSet d.structure d.points → IsDataSet s (unpivot_of d) }
    ensures pivot_order { (id m : List ℕ) (a : Structure) (d e : List Row) → IsDataSet a d → Perm d e → Perm (pivot_of (with_points a d) id m) (pivot_of (with_points a e) id m) }
    ensures unpivot_order { (a : Structure) (d e : List Row) → Perm d e → Perm (unpivot_of (with_points a d)) (unpivot_of (with_points a e)) }
    ensures pivot_at { (id m : List ℕ) (d : DataSet) (s : Structure) (k : Row) → IsPivoted id m d.structure s → IsDataSet d.structure d.points → look (key_width s) (pivot_of d id m) k ≡ cond (list_any (λ r. same_row (values_in d.structure (other_identifiers id d.structure) r) k) d.points) (Some (pivoted_point d id m k)) None }
    ensures pivot_value { (id m : List ℕ) (d : DataSet) (s : Structure) (code : List ℕ) (j : Row) → IsPivoted id m d.structure s → IsDataSet d.structure d.points → length j ≡ key_width d.structure → value_named (identifiers_of d.structure) j id ≡ c.Text code → coded_value d id m (values_named (identifiers_of d.structure) (other_identifiers id d.structure) j) code ≡ option_map_or (λ r. value_named (columns_of d.structure) r m) (look (key_width d.structure) d.points j) c.Null }
    ensures unpivot_at { (id m : List ℕ) (d : DataSet) (s : Structure) (k : Row) (name : List ℕ) → IsUnpivoted id m d.structure s → IsDataSet d.structure d.points → is_among name (names_of (measures_of d.structure)) ≡ true → look (key_width s) (unpivot_of d) (k ++ c.Text name ∷ []) ≡ option_and_then (λ r. named_point d.structure r name (value_named (columns_of d.structure) r name)) (look (key_width d.structure) d.points k) }
    ensures unpivot_only { (id m : List ℕ) (d : DataSet) (s : Structure) (j q : Row) → IsUnpivoted id m d.structure s → IsDataSet d.structure d.points → look (key_width s) (unpivot_of d) j ≡ Some q → (k : Row) × (name : List ℕ) × (is_among name (names_of (measures_of d.structure)) ≡ true) × (j ≡ k ++ c.Text name ∷ []) }
{}

/// Where no measure is null, `pivot` undoes `unpivot`: it gives the identifiers and measures of each point, in the
/// same order, and so the points themselves where there are no attributes.
pub fn pivot_undoes_unpivot()
    ensures values { (id m : List ℕ) (d : DataSet) (s : Structure) → IsUnpivoted id m d.structure s → IsDataSet d.structure d.points → 1 ≤ length (measures_of d.structure) → AllByRecursion (λ r. AllByRecursion (λ x. is_null (value_named (columns_of d.structure) r x.name) ≡ false) (measures_of d.structure)) d.points → pivot_of (with_points s (unpivot_of d)) id m ≡ map (λ r. key_of d.structure r ++ values_in d.structure (measures_of d.structure) r) d.points }
    ensures points { (id m : List ℕ) (d : DataSet) (s : Structure) → IsUnpivoted id m d.structure s → IsDataSet d.structure d.points → 1 ≤ length (measures_of d.structure) → columns_of d.structure ≡ identifiers_of d.structure ++ measures_of d.structure → AllByRecursion (λ r. AllByRecursion (λ x. is_null (value_named (columns_of d.structure) r x.name) ≡ false) (measures_of d.structure)) d.points → pivot_of (with_points s (unpivot_of d)) id m ≡ d.points }
{}
