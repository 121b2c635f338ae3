// Laws of analytic operators.
//
// The place of a point is the number of points of its partition that stand before it, and not its place in a sorted
// list: so it does not depend on the order of points, without reasoning on sorts. That both are one is a law
// (`windows_place_points`).
//
// Points stand by the listed components, then by all identifiers: no two points of a partition have the same
// identifiers, so the order is one. A frame goes by places, cut to the partition, with or without an order.
//
// An operator on a data set and a target of `calc` are one definition: a column is made by the call or the expression
// that its name finds, or stays. An expression among the targets is known by its values (`IsEvaluated`), not by its
// typing; the value of a call is taken as one of its column's kind (`as_kind`), so the default of `lag` and `lead`
// may be an integer beside numbers.
ghost use Rattle.std.specs.Prelude.{◌≡◌, ◌<◌, ℕ, IfOk, [], None, length, slice_index_or, option_map, map};
ghost use Rattle.vtl_cell.specs.Groups.{group_value};
ghost use Rattle.vtl_cell.specs.Outcomes.{Same};
ghost use Rattle.vtl_lists.specs.Perm.{Perm};
ghost use Rattle.vtl_cell.specs.Row.{Row};
ghost use Rattle.vtl_decimal.specs.Settings.{Settings};
ghost use Rattle.vtl_cell.specs.declared.cell.Cell.{Cell};
ghost use Rattle.vtl_cell.specs.declared.operator.AggKind.{AggKind};
ghost use Rattle.vtl_tree.specs.DataSet.{AreOfProfile, IsDataSet, look};
ghost use Rattle.vtl_tree.specs.Environment.{DataSet};
ghost use Rattle.vtl_tree.specs.Structure.{columns_of, key_width};
ghost use Rattle.vtl_tree.specs.declared.structure.Structure.{Structure};
ghost use Rattle.vtl_tree.specs.Trees.{AnalyticTree};
ghost use Rattle.vtl_tree.specs.declared.calls.Window.{Window};
ghost use Rattle.vtl_meaning.specs.Analytics.{analytic_of, made_of, point_of};
ghost use Rattle.vtl_meaning.specs.AnalyticShapes.{IsAnalyzed, IsTypedAnalytic};
ghost use Rattle.vtl_meaning.specs.Windows.{partition_of, seen, stand_of};

/// An analytic operator on a data set gives a data set of the structure that typing gives, and its integers are of the
/// profile where those of the operand are.
pub fn analytics_keep_data_sets()
    ensures kept { (p : Settings) (spec : AnalyticTree) (d : DataSet) (s : Structure) → IsAnalyzed p spec d.structure s → IsDataSet d.structure d.points → IfOk (analytic_of p spec d s) (IsDataSet s) }
    ensures profile { (p : Settings) (spec : AnalyticTree) (d : DataSet) (s : Structure) → IsAnalyzed p spec d.structure s → AreOfProfile p d.points → IfOk (analytic_of p spec d s) (AreOfProfile p) }
{}

/// An operand whose points stand in another order gives the same points up to order, or the same fault.
pub fn analytics_do_not_see_order()
    ensures { (p : Settings) (spec : AnalyticTree) (d e : DataSet) (s : Structure) → d.structure ≡ e.structure → Perm d.points e.points → Same (analytic_of p spec d s) (analytic_of p spec e s) }
{}

/// What an analytic operator gives for a tuple `k` of identifiers: the values at the point of the operand that has these
/// identifiers, where there is one.
pub fn analytics_by_look_up()
    ensures { (p : Settings) (spec : AnalyticTree) (d : DataSet) (s : Structure) (k : Row) → IsAnalyzed p spec d.structure s → IsDataSet d.structure d.points → IfOk (analytic_of p spec d s) (λ out. look (key_width s) out k ≡ option_map (point_of (made_of p spec d) (columns_of s)) (look (key_width d.structure) d.points k)) }
{}

/// The point at each place of a partition in order has this place.
pub fn windows_place_points()
    ensures { (d : DataSet) (w : Window) (r : Row) (i : ℕ) → IsDataSet d.structure d.points → i < length (stand_of d w r).ordered → (stand_of d w (slice_index_or (stand_of d w r).ordered i [])).place ≡ i }
{}

/// An aggregate over a window without an order and without a frame is that of the group of the point.
pub fn whole_partitions_are_groups()
    ensures { (p : Settings) (d : DataSet) (w : Window) (f : AggKind) (at : Row → Cell) (r : Row) → w.order ≡ [] → w.frame ≡ None → group_value p f (seen w at (stand_of d w r)) ≡ group_value p f (map at (partition_of d w r)) }
{}

/// The structure that typing gives fits the operand: the same identifiers, and each other column made of the kind that
/// its value has, or left as it is.
pub fn typed_analytics_fit()
    ensures { (p : Settings) (spec : AnalyticTree) (a s : Structure) → IsTypedAnalytic p spec a s → IsAnalyzed p spec a s }
{}
