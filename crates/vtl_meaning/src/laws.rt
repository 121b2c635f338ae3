// Laws of the definitions.
//
// Three ways to make points carry all operators: an expression for each column (`each_point`), chosen columns
// (`shown`), each point beside its partner (`paired`). That keys, widths and kinds are kept is proved once for each
// way.
//
// A value in a list of points is there also where an expression has a fault (`cell_or_null`): then there is no list,
// and no point needs a proof that its values have none.
//
// A typed call has its literals in its condition (`HasLiterals`): a translation writes them as literals, and none is
// out of its interval.
//
// `filter` and `rename` stay on lists of points: `filter_of` is a definition of `vtl_tree`, which knows no operator,
// and `rename` changes no point.
ghost use Rattle.std.specs.Prelude.{◌≡◌, [], ◌∷◌, ◌++◌, IfOk, List, Ok, Some, cond, false, length, map, option_map, true};
ghost use Rattle.std.specs.Option.{option_and_then};
ghost use Rattle.vtl_decimal.specs.Settings.{Settings};
ghost use Rattle.vtl_lists.specs.Perm.{Perm};
ghost use Rattle.vtl_cell.specs.Kinds.{is_of};
ghost use Rattle.vtl_cell.specs.Outcomes.{Same, is_true};
ghost use Rattle.vtl_cell.specs.Row.{Row};
ghost use Rattle.vtl_cell.specs.declared.operator.ScalarOp.{ScalarOp};
ghost use Rattle.vtl_tree.specs.Clauses.{filter_of, kept};
ghost use Rattle.vtl_tree.specs.CompExp.{CompExp};
ghost use Rattle.vtl_tree.specs.DataSet.{IsDataSet, is_point, look};
ghost use Rattle.vtl_tree.specs.Kept.{kept_row};
ghost use Rattle.vtl_tree.specs.Environment.{DataSet};
ghost use Rattle.vtl_tree.specs.Structure.{columns_of, key_width};
ghost use Rattle.vtl_tree.specs.Value.{value};
ghost use Rattle.vtl_tree.specs.declared.structure.Component.{Component};
ghost use Rattle.vtl_tree.specs.declared.structure.Structure.{Structure};
ghost use Rattle.vtl_tree.specs.Trees.{ItemTree, MeasureTree};
ghost use Rattle.vtl_tree.specs.declared.clauses.SubItem.{SubItem};
ghost use Rattle.vtl_tree.specs.Pairs.{contains};
ghost use Rattle.vtl_tree.specs.Kinds.{exp_kind};
ghost use Rattle.vtl_tree.specs.Columns.{others_of};
ghost use Rattle.vtl_meaning.specs.Faults.{unless_any};
ghost use Rattle.vtl_meaning.specs.LookUps.{calculated_at, chosen_at, has_key_values, measured_at, of_both, paired_at, part_for, values_named};
ghost use Rattle.vtl_meaning.specs.Made.{IsCalculated, IsChoice, IsFiltered, IsLeft, IsMeasured, IsPaired, IsRenamed, IsSub, IsTyped};
ghost use Rattle.vtl_meaning.specs.Operators.{calculated_of, choice_of, is_first_chosen, left_of, measured_of, pair_of, sub_of};
ghost use Rattle.vtl_meaning.specs.Points.{each_point, point_of, with_points};

/// The value of a typed expression at a point of its columns is null or of exactly the kind of the expression.
pub fn values_are_of_their_kind()
    ensures { (p : Settings) (xs : List Component) (e : CompExp) (r : Row) → IsTyped p xs e → is_point xs r ≡ true → IfOk (value p e r) (λ v. is_of (exp_kind e) v ≡ true) }
{}

/// Each operator gives a data set of the structure that typing gives: as many cells as columns, each null or of its
/// column's kind, no identifier null, and each tuple of identifiers once.
pub fn operators_keep_data_sets()
    ensures measures { (p : Settings) (m : MeasureTree) (a : DataSet) (s : Structure) (out : List Row) → IsMeasured p m a.structure s → IsDataSet a.structure a.points → measured_of p m a s ≡ Ok out → IsDataSet s out }
    ensures pair { (p : Settings) (o : ScalarOp) (a b : DataSet) (s : Structure) (out : List Row) → IsPaired p o a.structure b.structure s → IsDataSet a.structure a.points → IsDataSet b.structure b.points → pair_of p o a b s ≡ Ok out → IsDataSet s out }
    ensures choice { (t a b : DataSet) (s : Structure) → IsChoice t.structure a.structure b.structure s → IsDataSet t.structure t.points → IsDataSet a.structure a.points → IsDataSet b.structure b.points → IsDataSet s (choice_of t a b s) }
    ensures filter { (p : Settings) (e : CompExp) (a : DataSet) (s : Structure) (out : List Row) → IsFiltered p e a.structure s → IsDataSet a.structure a.points → filter_of p e a.points ≡ Ok out → IsDataSet s out }
    ensures calc { (p : Settings) (items : List ItemTree) (a : DataSet) (s : Structure) (out : List Row) → IsCalculated p items a.structure s → IsDataSet a.structure a.points → calculated_of p items a s ≡ Ok out → IsDataSet s out }
    ensures left { (a : DataSet) (s : Structure) → IsLeft a.structure s → IsDataSet a.structure a.points → IsDataSet s (left_of a s) }
    ensures rename { (a : DataSet) (s : Structure) → IsRenamed a.structure s → IsDataSet a.structure a.points → IsDataSet s a.points }
    ensures sub { (items : List SubItem) (a : DataSet) (s : Structure) → IsSub items a.structure s → IsDataSet a.structure a.points → IsDataSet s (sub_of items a s) }
{}

/// What each operator gives for a tuple `k` of the result's identifiers, without a fault. `++` puts the identifiers
/// before the values of the other columns.
///
/// - An operator on the measures of one data set, and `calc`: a point where the operand has one, with the values of the
///   operator, or of the targets, at that point; all targets of `calc` see the operand's values.
/// - An operator on two data sets: a point where both have one, the operand with fewer identifiers at its part of the
///   tuple, with the operator's value on each pair of measures of one name.
/// - `if`: where the condition has a point, the measures of the first operand's point if the condition is true there,
///   otherwise of the second one's, and no point where that operand has none.
/// - `filter`: the operand's point where the condition is true.
/// - `keep`, `drop`, `a#m`: the operand's point with the columns that are left. `rename`: the point unchanged.
/// - `sub`: at what is left of a tuple `j` that has the given values, the operand's point at `j`, and no other point.
pub fn operators_by_look_up()
    ensures measures { (p : Settings) (m : MeasureTree) (a : DataSet) (s : Structure) (out : List Row) (k : Row) → IsMeasured p m a.structure s → IsDataSet a.structure a.points → measured_of p m a s ≡ Ok out → look (key_width s) out k ≡ option_map (λ r. k ++ measured_at p m a.structure s r) (look (key_width a.structure) a.points k) }
    ensures pair_left { (p : Settings) (o : ScalarOp) (a b : DataSet) (s : Structure) (out : List Row) (k : Row) → contains a.structure b.structure ≡ true → IsPaired p o a.structure b.structure s → IsDataSet a.structure a.points → IsDataSet b.structure b.points → pair_of p o a b s ≡ Ok out → look (key_width s) out k ≡ of_both (λ r q. k ++ paired_at p o a.structure b.structure s r q) (look (key_width a.structure) a.points k) (look (key_width b.structure) b.points (part_for a.structure b.structure k)) }
    ensures pair_right { (p : Settings) (o : ScalarOp) (a b : DataSet) (s : Structure) (out : List Row) (k : Row) → contains a.structure b.structure ≡ false → IsPaired p o a.structure b.structure s → IsDataSet a.structure a.points → IsDataSet b.structure b.points → pair_of p o a b s ≡ Ok out → look (key_width s) out k ≡ of_both (λ r q. k ++ paired_at p o a.structure b.structure s r q) (look (key_width a.structure) a.points (part_for b.structure a.structure k)) (look (key_width b.structure) b.points k) }
    ensures choice { (t a b : DataSet) (s : Structure) (k : Row) → IsChoice t.structure a.structure b.structure s → IsDataSet t.structure t.points → IsDataSet a.structure a.points → IsDataSet b.structure b.points → look (key_width s) (choice_of t a b s) k ≡ option_and_then (λ r. cond (is_first_chosen t.structure r) (chosen_at t.structure a s k) (chosen_at t.structure b s k)) (look (key_width t.structure) t.points k) }
    ensures filter { (p : Settings) (e : CompExp) (a : DataSet) (s : Structure) (out : List Row) (k : Row) → IsFiltered p e a.structure s → IsDataSet a.structure a.points → filter_of p e a.points ≡ Ok out → look (key_width s) out k ≡ kept_row (λ r. is_true (value p e r)) (look (key_width a.structure) a.points k) }
    ensures calc { (p : Settings) (items : List ItemTree) (a : DataSet) (s : Structure) (out : List Row) (k : Row) → IsCalculated p items a.structure s → IsDataSet a.structure a.points → calculated_of p items a s ≡ Ok out → look (key_width s) out k ≡ option_map (λ r. k ++ map (calculated_at p items a.structure r) (others_of s)) (look (key_width a.structure) a.points k) }
    ensures left { (a : DataSet) (s : Structure) (k : Row) → IsLeft a.structure s → IsDataSet a.structure a.points → look (key_width s) (left_of a s) k ≡ option_map (λ r. k ++ values_named (columns_of a.structure) (others_of s) r) (look (key_width a.structure) a.points k) }
    ensures rename { (a : DataSet) (s : Structure) (k : Row) → IsRenamed a.structure s → look (key_width s) a.points k ≡ look (key_width a.structure) a.points k }
    ensures sub { (items : List SubItem) (a : DataSet) (s : Structure) (j : Row) → IsSub items a.structure s → IsDataSet a.structure a.points → length j ≡ key_width a.structure → has_key_values a.structure items j ≡ true → look (key_width s) (sub_of items a s) (part_for a.structure s j) ≡ option_map (λ r. part_for a.structure s j ++ values_named (columns_of a.structure) (others_of s) r) (look (key_width a.structure) a.points j) }
    ensures sub_only { (items : List SubItem) (a : DataSet) (s : Structure) (k q : Row) → IsSub items a.structure s → IsDataSet a.structure a.points → look (key_width s) (sub_of items a s) k ≡ Some q → (j : Row) × (length j ≡ key_width a.structure) × (has_key_values a.structure items j ≡ true) × (part_for a.structure s j ≡ k) }
{}

/// The fault of an operator that evaluates expressions at each point is division by zero where any value has it,
/// otherwise out of range where any has it, in whatever order they stand; otherwise there are points.
pub fn faults_are_joined()
    ensures each { (p : Settings) (es : List CompExp) (d : List Row) → each_point p es d ≡ unless_any p es d (map (point_of p es) d) }
    ensures filter { (p : Settings) (e : CompExp) (d : List Row) → filter_of p e d ≡ unless_any p (e ∷ []) d (kept p e d) }
{}

/// Operands whose points stand in another order give the same points up to order, or the same fault.
pub fn operators_do_not_see_order()
    ensures measures { (p : Settings) (m : MeasureTree) (a s : Structure) (d e : List Row) → Perm d e → Same (measured_of p m (with_points a d) s) (measured_of p m (with_points a e) s) }
    ensures pair { (p : Settings) (o : ScalarOp) (a b s : Structure) (d t e f : List Row) → IsDataSet a d → IsDataSet b e → Perm d t → Perm e f → Same (pair_of p o (with_points a d) (with_points b e) s) (pair_of p o (with_points a t) (with_points b f) s) }
    ensures choice { (t a b s : Structure) (tests other d e f g : List Row) → IsDataSet a d → IsDataSet b f → Perm tests other → Perm d e → Perm f g → Perm (choice_of (with_points t tests) (with_points a d) (with_points b f) s) (choice_of (with_points t other) (with_points a e) (with_points b g) s) }
    ensures calc { (p : Settings) (items : List ItemTree) (a s : Structure) (d e : List Row) → Perm d e → Same (calculated_of p items (with_points a d) s) (calculated_of p items (with_points a e) s) }
    ensures left { (a s : Structure) (d e : List Row) → Perm d e → Perm (left_of (with_points a d) s) (left_of (with_points a e) s) }
    ensures sub { (items : List SubItem) (a s : Structure) (d e : List Row) → Perm d e → Perm (sub_of items (with_points a d) s) (sub_of items (with_points a e) s) }
{}
