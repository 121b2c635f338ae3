// Laws of the meaning of the time operators.
ghost use Rattle.std.specs.List.{AllByRecursion};
ghost use Rattle.std.specs.Prelude.{◌≡◌, ◌<◌, ◌≤◌, ◌*◌, ◌+ℤ◌, ℕ, ℤ, true, List, Ok};
ghost use Rattle.vtl_cell.specs.Row.{Row};
ghost use Rattle.vtl_decimal.specs.Settings.{Settings};
ghost use Rattle.vtl_meaning.specs.Operators.{left_of};
ghost use Rattle.vtl_meaning.specs.Points.{with_points};
ghost use Rattle.vtl_series.specs.declared.extent.Extent.{Extent};
ghost use Rattle.vtl_time.specs.Periods.{parts_in_year};
ghost use Rattle.vtl_time.specs.declared.periods.Frequency.{Frequency};
ghost use Rattle.vtl_timing.specs.TimeShapes.{AreHeld, IsFlowed};
ghost use Rattle.vtl_timing.specs.Times.{HasTime, fill_of, flow_of, stock_of, timeshift_of};
ghost use Rattle.vtl_tree.specs.DataSet.{AreOfProfile, IsDataSet};
ghost use Rattle.vtl_tree.specs.Environment.{DataSet};
ghost use Rattle.vtl_tree.specs.Structure.{IsStructure};
ghost use Rattle.vtl_tree.specs.declared.structure.Structure.{Structure};
ghost use Rattle.time_laws.specs.Stands.{HasNoNulls, stands_at};

use vtl_series::series_are_whole;

/// A shift by `m` after a shift by `n` that has no fault is the shift by `n + m`, in its points and in its fault.
pub fn shifts_follow_each_other()
    ensures { (n m : ℤ) (d : DataSet) (points : List Row) → IsStructure d.structure → timeshift_of n d ≡ Ok points → timeshift_of m (with_points d.structure points) ≡ timeshift_of (n +ℤ m) d }
{}

/// Between two periods of a filled series each one has a point.
pub fn filled_series_have_no_gap()
    ensures { (e : Extent) (d : DataSet) (key : Row) (f : Frequency) (i j k : ℕ) → HasTime d.structure → IsDataSet d.structure d.points → i ≤ j → j ≤ k → k < 10000 * parts_in_year f → stands_at d.structure (fill_of e d) key f i ≡ true → stands_at d.structure (fill_of e d) key f k ≡ true → stands_at d.structure (fill_of e d) key f j ≡ true }
{
    series_are_whole();
}

/// Filling twice is filling once.
pub fn filled_series_are_filled()
    ensures { (e : Extent) (d : DataSet) → HasTime d.structure → IsDataSet d.structure d.points → fill_of e (with_points d.structure (fill_of e d)) ≡ fill_of e d }
{
    series_are_whole();
}

/// `stock_to_flow` undoes `flow_to_stock`, attributes aside, where no measure is null and no total has a fault.
pub fn flows_undo_stocks()
    ensures { (p : Settings) (d : DataSet) (s t : Structure) (points : List Row) → IsFlowed d.structure s → IsFlowed s t → IsDataSet d.structure d.points → AreOfProfile p d.points → AreHeld d.points → AllByRecursion (HasNoNulls d.structure) d.points → stock_of p d s ≡ Ok points → flow_of p (with_points s points) t ≡ Ok (left_of d t) }
{}
