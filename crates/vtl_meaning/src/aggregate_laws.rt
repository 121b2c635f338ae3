// Laws of aggregates.
//
// A column of the result is made by the aggregate that its name finds: the measure of that name, or the target. So
// both forms of an aggregate are one definition, whatever the order of measures and attributes is.
ghost use Rattle.std.specs.Prelude.{◌≡◌, ◌&&◌, [], ◌∷◌, IfOk, List, None, Some, cond};
ghost use Rattle.vtl_cell.specs.Outcomes.{Same};
ghost use Rattle.vtl_lists.specs.Perm.{Perm};
ghost use Rattle.vtl_cell.specs.Row.{Row};
ghost use Rattle.vtl_decimal.specs.Settings.{Settings};
ghost use Rattle.vtl_tree.specs.DataSet.{AreOfProfile, IsDataSet, look};
ghost use Rattle.vtl_tree.specs.Environment.{DataSet};
ghost use Rattle.vtl_tree.specs.Structure.{columns_of, key_width};
ghost use Rattle.vtl_tree.specs.declared.structure.Structure.{Structure};
ghost use Rattle.vtl_tree.specs.Trees.{AggTree};
ghost use Rattle.vtl_tree.specs.Columns.{others_of};
ghost use Rattle.vtl_meaning.specs.Aggregates.{aggregate_of, condition_of, group_point, is_kept, made_of};
ghost use Rattle.vtl_meaning.specs.Groups.{has_group, keys_by, places_named, points_with};
ghost use Rattle.vtl_meaning.specs.AggregateShapes.{IsAggregated, IsTypedAggregate};

/// An aggregate of a data set is a data set of the structure that typing gives, and its integers are of the profile
/// where those of the operand are.
pub fn aggregates_keep_data_sets()
    ensures kept { (p : Settings) (spec : AggTree) (d : DataSet) (s : Structure) → IsAggregated spec d.structure s → IsDataSet d.structure d.points → IfOk (aggregate_of p spec d s) (IsDataSet s) }
    ensures profile { (p : Settings) (spec : AggTree) (d : DataSet) (s : Structure) → AreOfProfile p d.points → IfOk (aggregate_of p spec d s) (AreOfProfile p) }
{}

/// An operand whose points stand in another order gives the same points up to order, or the same fault.
pub fn aggregates_do_not_see_order()
    ensures { (p : Settings) (spec : AggTree) (d e : DataSet) (s : Structure) → d.structure ≡ e.structure → Perm d.points e.points → Same (aggregate_of p spec d s) (aggregate_of p spec e s) }
{}

/// What an aggregate gives for a tuple `k` of the result's identifiers: the point of the group `k`, where some point of
/// the operand has these values and `having` is true there.
pub fn aggregates_by_look_up()
    ensures { (p : Settings) (spec : AggTree) (d : DataSet) (s : Structure) (k : Row) → IsAggregated spec d.structure s → IsDataSet d.structure d.points → IfOk (aggregate_of p spec d s) (λ out. look (key_width s) out k ≡ cond (has_group (places_named spec.grouping (columns_of d.structure)) d.points k && is_kept (condition_of p spec (columns_of d.structure) d.points) spec.having k) (Some (group_point (made_of p spec (columns_of d.structure) d.points) (others_of s) k)) None) }
{}

/// Points that are not grouped are one group of all of them, whose key is empty, and no points are no group.
pub fn points_without_grouping_are_one_group()
    ensures none { keys_by [] [] ≡ [] }
    ensures one { (r : Row) (d : List Row) → keys_by [] (r ∷ d) ≡ [] ∷ [] }
    ensures all { (d : List Row) → points_with [] d [] ≡ d }
{}

/// The structure that typing gives fits the operand: the grouping identifiers as the operand has them, and each other
/// column of the kind that its aggregate gives.
pub fn typed_aggregates_fit()
    ensures { (spec : AggTree) (a s : Structure) → IsTypedAggregate spec a s → IsAggregated spec a s }
{}
