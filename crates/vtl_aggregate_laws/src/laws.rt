// What the groups of points give together.
ghost use Rattle.std.specs.Prelude.{◌≡◌, ◌<◌, ℕ, IfOk, List, None, Ok, Option, Some, length};
ghost use Rattle.std.specs.List.{flat_map};
ghost use Rattle.vtl_cell.specs.Groups.{count_of_points, group_value};
ghost use Rattle.vtl_cell.specs.Outcome.{after};
ghost use Rattle.vtl_lists.specs.Perm.{Perm};
ghost use Rattle.vtl_cell.specs.Row.{Row};
ghost use Rattle.vtl_decimal.specs.Settings.{Settings};
ghost use Rattle.vtl_cell.specs.declared.operator.AggKind.{AggKind};
ghost use Rattle.vtl_cell.specs.declared.operator.AggKind.TheVariants.{Count, Max, Min, Sum};
ghost use Rattle.vtl_tree.specs.Choices.{chosen};
ghost use Rattle.vtl_tree.specs.Clauses.{filter_of};
ghost use Rattle.vtl_tree.specs.Columns.{identifiers_of};
ghost use Rattle.vtl_tree.specs.CompExp.{CompExp};
ghost use Rattle.vtl_tree.specs.DataSet.{IsDataSet};
ghost use Rattle.vtl_tree.specs.Environment.{DataSet};
ghost use Rattle.vtl_tree.specs.Structure.{names_of};
ghost use Rattle.vtl_tree.specs.declared.choices.Choice.TheVariants as choice;
ghost use Rattle.vtl_tree.specs.declared.specifications.AggTarget.{AggTarget};
ghost use Rattle.vtl_tree.specs.declared.structure.Component.{Component};
ghost use Rattle.vtl_tree.specs.declared.structure.Structure.{Structure};
ghost use Rattle.vtl_meaning.specs.Aggregates.{aggregate_of};
ghost use Rattle.vtl_meaning.specs.Groups.{keys_by, points_with};
ghost use Rattle.vtl_meaning.specs.AggregateShapes.{IsAggregated};
ghost use Rattle.vtl_meaning.specs.Operators.{left_of};
ghost use Rattle.vtl_aggregate_laws.specs.Filters.{IsFilterOf, targets_where};
ghost use Rattle.vtl_aggregate_laws.specs.Parts.{gathered_by, grouped, of_column, of_groups};
ghost use Rattle.vtl_aggregate_laws.specs.Targets.{of_all_measures, of_own_targets};

/// Each point is in one group and no other: the points of all groups are the points, up to order.
pub fn groups_part_the_points()
    ensures { (places : List ℕ) (d : List Row) → Perm (flat_map (points_with places d) (keys_by places d)) d }
{}

/// Where each group has a sum, the sum of these sums is the sum over all points: the same value, or out of range where
/// that is out of range. Nulls count in neither, nor does a group of nulls alone.
pub fn sums_add_up_to_the_sum()
    ensures { (p : Settings) (places : List ℕ) (i : ℕ) (d : List Row) → IfOk (of_groups (of_column p Sum i) places d) (λ sums. group_value p Sum sums ≡ of_column p Sum i d) }
{}

/// The counts of groups add up to the count of all, of points and of the values of a column: to the same integer, or
/// both are out of range. Without points there is no group, and counts of none add up to null.
pub fn counts_add_up_to_the_count()
    ensures points { (p : Settings) (places : List ℕ) (d : List Row) → 0 < length d → after (of_groups (count_of_points p) places d) (group_value p Sum) ≡ count_of_points p d }
    ensures values { (p : Settings) (places : List ℕ) (i : ℕ) (d : List Row) → 0 < length d → after (of_groups (of_column p Count i) places d) (group_value p Sum) ≡ of_column p Count i d }
{}

/// The least of the least values of groups is the least of all, and likewise the greatest.
pub fn least_and_greatest_of_groups_are_those_of_all()
    ensures least { (p : Settings) (places : List ℕ) (i : ℕ) (d : List Row) → after (of_groups (of_column p Min i) places d) (group_value p Min) ≡ of_column p Min i d }
    ensures greatest { (p : Settings) (places : List ℕ) (i : ℕ) (d : List Row) → after (of_groups (of_column p Max i) places d) (group_value p Max) ≡ of_column p Max i d }
{}

/// An aggregate of what an aggregate gave is the aggregate of the operand at once, where the second gathers the first
/// (`gathered_by`) and groups by some of its identifiers: `sum(sum(ds group by year, place) group by year)` is
/// `sum(ds group by year)`, and `sum(count(ds group by year))` is `count(ds)`. The points are the same in the same
/// order, or the fault is the same; where the first has a fault, nothing is said.
pub fn aggregates_of_aggregates_are_those_of_all()
    ensures { (p : Settings) (f g : AggKind) (fine coarse : List (List ℕ)) (d : DataSet) (middle s : Structure) → gathered_by f ≡ Some g → IsAggregated (grouped f fine) d.structure middle → IsAggregated (grouped g coarse) middle s → IfOk (aggregate_of p (grouped f fine) d middle) (λ points. aggregate_of p (grouped g coarse) (record { structure = middle; points = points }) s ≡ aggregate_of p (grouped f coarse) d s) }
{}

/// An aggregate of a data set is `aggr` with a target for each measure: `sum(ds group by year)` is
/// `ds[aggr m := sum(m), .. group by year]`, and `count(ds group by year)` is `ds[aggr int_var := count() group by year]`,
/// with the same condition behind `having`, if there is one.
pub fn aggregates_of_data_sets_are_aggr()
    ensures { (p : Settings) (f : AggKind) (names : List (List ℕ)) (having : Option CompExp) (d : DataSet) (s : Structure) → IsAggregated (of_all_measures f names having) d.structure s → aggregate_of p (of_own_targets f d.structure names having) d s ≡ aggregate_of p (of_all_measures f names having) d s }
{}

/// By all identifiers each point is a group of its own: the least and the greatest value of each measure are its values,
/// so the operand comes back without its attributes. So does the sum, unless a value of its own is out of range.
pub fn aggregates_by_all_identifiers_keep_points()
    ensures least { (p : Settings) (d : DataSet) (s : Structure) → IsAggregated (grouped Min (names_of (identifiers_of d.structure))) d.structure s → IsDataSet d.structure d.points → aggregate_of p (grouped Min (names_of (identifiers_of d.structure))) d s ≡ Ok (left_of d s) }
    ensures sum { (p : Settings) (d : DataSet) (s : Structure) → IsAggregated (grouped Sum (names_of (identifiers_of d.structure))) d.structure s → IsDataSet d.structure d.points → IfOk (aggregate_of p (grouped Sum (names_of (identifiers_of d.structure))) d s) (λ out. out ≡ left_of d s) }
    ensures greatest { (p : Settings) (d : DataSet) (s : Structure) → IsAggregated (grouped Max (names_of (identifiers_of d.structure))) d.structure s → IsDataSet d.structure d.points → aggregate_of p (grouped Max (names_of (identifiers_of d.structure))) d s ≡ Ok (left_of d s) }
{}

/// `group except` some identifiers is `group by` the others.
pub fn grouping_except_is_grouping_by_the_others()
    ensures { (names : List (List ℕ)) (xs : List Component) → chosen choice.By (names_of (chosen choice.Except names xs)) xs ≡ chosen choice.Except names xs }
{}

/// `having c` is a filter of the same aggregates: where they have no fault, `ds[aggr .. group by g having c]` gives the
/// points, or the fault, that `ds[aggr .. group by g][filter c]` gives, where each aggregate in `c` is one of the targets
/// and is written there by its name.
pub fn having_is_a_filter()
    ensures { (p : Settings) (targets : List AggTarget) (names : List (List ℕ)) (condition filter : CompExp) (d : DataSet) (s : Structure) → IsAggregated (targets_where targets names None) d.structure s → IsFilterOf targets s condition filter → IsDataSet d.structure d.points → IfOk (aggregate_of p (targets_where targets names None) d s) (λ out. aggregate_of p (targets_where targets names (Some condition)) d s ≡ filter_of p filter out) }
{}
