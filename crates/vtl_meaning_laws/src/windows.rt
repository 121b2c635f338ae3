// What windows satisfy.
ghost use Rattle.std.specs.Prelude.{◌≡◌, ◌≤◌, ◌<◌, ◌+◌, ℕ, suc, [], ◌∷◌, ◌++◌, IfOk, List, Ok, Some, drop, length, map, option_map, pos, reverse, slice_index_or};
ghost use Rattle.std.specs.List.{AllByRecursion, Contains};
ghost use Rattle.std.specs.declared.cmp.Ordering.TheVariants.{Equal};
ghost use Rattle.vtl_decimal.specs.Range.{fit_integer};
ghost use Rattle.vtl_decimal.specs.Settings.{Settings};
ghost use Rattle.vtl_cell.specs.Groups.{group_value};
ghost use Rattle.vtl_cell.specs.Outcome.{fault_in};
ghost use Rattle.vtl_cell.specs.Row.{Row};
ghost use Rattle.vtl_cell.specs.ScalarArithmetic.{integer};
ghost use Rattle.vtl_cell.specs.Sorted.{by_keys};
ghost use Rattle.vtl_cell.specs.declared.cell.Cell.{Cell};
ghost use Rattle.vtl_cell.specs.declared.operator.AggKind.{AggKind};
ghost use Rattle.vtl_rows.specs.Tables.{cells_at};
ghost use Rattle.vtl_tree.specs.DataSet.{IsDataSet, look};
ghost use Rattle.vtl_tree.specs.Environment.{DataSet};
ghost use Rattle.vtl_tree.specs.Structure.{columns_of, key_width};
ghost use Rattle.vtl_tree.specs.declared.calls.AnalyticOp.{AnalyticOp};
ghost use Rattle.vtl_tree.specs.declared.calls.AnalyticOp.TheVariants as op;
ghost use Rattle.vtl_tree.specs.declared.calls.Window.{Window};
ghost use Rattle.vtl_tree.specs.declared.structure.Component.{Component};
ghost use Rattle.vtl_tree.specs.declared.structure.Structure.{Structure};
ghost use Rattle.vtl_meaning.specs.Agreement.{key_of};
ghost use Rattle.vtl_meaning.specs.Aggregates.{aggregate_of};
ghost use Rattle.vtl_meaning.specs.AggregateShapes.{IsAggregated};
ghost use Rattle.vtl_meaning.specs.AnalyticShapes.{IsAnalyzed};
ghost use Rattle.vtl_meaning.specs.Analytics.{analytic_of};
ghost use Rattle.vtl_meaning.specs.Groups.{places_named};
ghost use Rattle.vtl_meaning.specs.Windows.{frame_in, keys_in, op_value, partition_of, seen, stand_of};
ghost use Rattle.vtl_meaning_laws.specs.Overs.{by_groups, over_of, over_partitions};
ghost use Rattle.vtl_meaning_laws.specs.Frames.{from_first_to_current, of_current_alone, turned_round};

/// Each point of a data set stands at its place in its partition in order.
pub fn points_stand_at_their_places()
    ensures within { (d : DataSet) (w : Window) (r : Row) → IsDataSet d.structure d.points → Contains d.points r → (stand_of d w r).place < length (stand_of d w r).ordered }
    ensures itself { (d : DataSet) (w : Window) (r : Row) → IsDataSet d.structure d.points → Contains d.points r → slice_index_or (stand_of d w r).ordered (stand_of d w r).place [] ≡ r }
{}

/// A running aggregate, over the points from the first to the current one, is at the last point of a partition the
/// aggregate of the point's group.
pub fn running_aggregates_end_at_the_group()
    ensures { (p : Settings) (d : DataSet) (w : Window) (f : AggKind) (at : Row → Cell) (r : Row) → frame_in w ≡ from_first_to_current → suc (stand_of d w r).place ≡ length (stand_of d w r).ordered → group_value p f (seen w at (stand_of d w r)) ≡ group_value p f (map at (partition_of d w r)) }
{}

/// A frame from and to the current point holds that point alone, so the first and the last value there are its own.
pub fn frames_of_the_current_point_hold_it_alone()
    ensures seen { (d : DataSet) (w : Window) (at : Row → Cell) (r : Row) → IsDataSet d.structure d.points → Contains d.points r → frame_in w ≡ of_current_alone → seen w at (stand_of d w r) ≡ at r ∷ [] }
    ensures first { (p : Settings) (xs : List Component) (d : DataSet) (w : Window) (at : Row → Cell) (r : Row) → IsDataSet d.structure d.points → Contains d.points r → frame_in w ≡ of_current_alone → op_value p xs w at op.FirstValue (stand_of d w r) ≡ Ok (at r) }
    ensures last { (p : Settings) (xs : List Component) (d : DataSet) (w : Window) (at : Row → Cell) (r : Row) → IsDataSet d.structure d.points → Contains d.points r → frame_in w ≡ of_current_alone → op_value p xs w at op.LastValue (stand_of d w r) ≡ Ok (at r) }
{}

/// `lag` and `lead` are inverse to one another: where a point `q` stands `n` places behind a point `r` of its partition,
/// `lag` by `n` has at `q` the value of `r`, and `lead` by `n` has at `r` the value of `q`. By no place at all each has a
/// point's own value.
///
/// - `before`, `behind`: where no point stands so many places before, or behind, there is the default.
pub fn lag_and_lead_are_inverse()
    ensures lag { (p : Settings) (xs : List Component) (d : DataSet) (w : Window) (at : Row → Cell) (n : ℕ) (default : Cell) (r q : Row) → IsDataSet d.structure d.points → Contains d.points r → partition_of d w q ≡ partition_of d w r → (stand_of d w q).place ≡ (stand_of d w r).place + n → op_value p xs w at (op.Lag n default) (stand_of d w q) ≡ Ok (at r) }
    ensures lead { (p : Settings) (xs : List Component) (d : DataSet) (w : Window) (at : Row → Cell) (n : ℕ) (default : Cell) (r q : Row) → IsDataSet d.structure d.points → Contains d.points q → partition_of d w q ≡ partition_of d w r → (stand_of d w q).place ≡ (stand_of d w r).place + n → op_value p xs w at (op.Lead n default) (stand_of d w r) ≡ Ok (at q) }
    ensures own_lag { (p : Settings) (xs : List Component) (d : DataSet) (w : Window) (at : Row → Cell) (default : Cell) (r : Row) → IsDataSet d.structure d.points → Contains d.points r → op_value p xs w at (op.Lag 0 default) (stand_of d w r) ≡ Ok (at r) }
    ensures own_lead { (p : Settings) (xs : List Component) (d : DataSet) (w : Window) (at : Row → Cell) (default : Cell) (r : Row) → IsDataSet d.structure d.points → Contains d.points r → op_value p xs w at (op.Lead 0 default) (stand_of d w r) ≡ Ok (at r) }
    ensures before { (p : Settings) (xs : List Component) (d : DataSet) (w : Window) (at : Row → Cell) (n : ℕ) (default : Cell) (r : Row) → (stand_of d w r).place < n → op_value p xs w at (op.Lag n default) (stand_of d w r) ≡ Ok default }
    ensures behind { (p : Settings) (xs : List Component) (d : DataSet) (w : Window) (at : Row → Cell) (n : ℕ) (default : Cell) (r : Row) → length (stand_of d w r).ordered ≤ (stand_of d w r).place + n → op_value p xs w at (op.Lead n default) (stand_of d w r) ≡ Ok default }
{}

/// Ranks by the listed components.
///
/// - `places`: where no other point of the partition has the same values of them, the rank is one more than the place, as
///   an integer of the profile.
/// - `ties`: two points of one partition with the same values of them have the same rank.
pub fn ranks_without_ties_are_places()
    ensures places { (p : Settings) (d : DataSet) (w : Window) (at : Row → Cell) (r : Row) → AllByRecursion (λ q. by_keys (keys_in (columns_of d.structure) w) q r ≡ Equal → q ≡ r) (partition_of d w r) → op_value p (columns_of d.structure) w at op.Rank (stand_of d w r) ≡ integer (fit_integer p.scale (pos ((stand_of d w r).place + 1))) }
    ensures ties { (p : Settings) (d : DataSet) (w : Window) (at : Row → Cell) (r q : Row) → partition_of d w q ≡ partition_of d w r → by_keys (keys_in (columns_of d.structure) w) q r ≡ Equal → op_value p (columns_of d.structure) w at op.Rank (stand_of d w q) ≡ op_value p (columns_of d.structure) w at op.Rank (stand_of d w r) }
{}

/// An aggregate over whole partitions is that of the groups, on data sets: `sum(ds over (partition by area))` has at each
/// point, behind its identifiers, the measures that `sum(ds group by area)` has at the point's area. The one has a fault
/// exactly where the other has it. So for `sum`, `avg`, `min` and `max`.
pub fn partitions_give_what_groups_give()
    ensures values { (p : Settings) (f : AggKind) (o : AnalyticOp) (names : List (List ℕ)) (d : DataSet) (s t : Structure) → over_of f ≡ Some o → IsAnalyzed p (over_partitions o names) d.structure s → IsAggregated (by_groups f names) d.structure t → IsDataSet d.structure d.points → IfOk (analytic_of p (over_partitions o names) d s) (λ out. IfOk (aggregate_of p (by_groups f names) d t) (λ groups. AllByRecursion (λ r. look (key_width s) out (key_of d.structure r) ≡ option_map (λ q. key_of d.structure r ++ drop (key_width t) q) (look (key_width t) groups (cells_at (places_named names (columns_of d.structure)) r))) d.points)) }
    ensures faults { (p : Settings) (f : AggKind) (o : AnalyticOp) (names : List (List ℕ)) (d : DataSet) (s t : Structure) → over_of f ≡ Some o → IsAnalyzed p (over_partitions o names) d.structure s → IsAggregated (by_groups f names) d.structure t → IsDataSet d.structure d.points → fault_in (analytic_of p (over_partitions o names) d s) ≡ fault_in (aggregate_of p (by_groups f names) d t) }
{}

/// `desc` turns an order round: where no two points of a partition have the same values of the listed components, the
/// partition in the order that has `desc` for each `asc`, and `asc` for each `desc`, is the partition in order from its end.
pub fn falling_orders_are_rising_ones_from_their_end()
    ensures { (d : DataSet) (w : Window) (r : Row) → AllByRecursion (λ x. AllByRecursion (λ y. by_keys (keys_in (columns_of d.structure) w) x y ≡ Equal → x ≡ y) (partition_of d w r)) (partition_of d w r) → (stand_of d (turned_round w) r).ordered ≡ reverse (stand_of d w r).ordered }
{}
