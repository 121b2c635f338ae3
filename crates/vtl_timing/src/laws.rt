// Laws of the time operators, by the operator that a node has.
ghost use Rattle.std.specs.Prelude.{◌≡◌, IfOk, List, Ok};
ghost use Rattle.vtl_lists.specs.Perm.{Perm};
ghost use Rattle.vtl_decimal.specs.Settings.{Settings};
ghost use Rattle.vtl_cell.specs.Outcomes.{Same};
ghost use Rattle.vtl_cell.specs.Row.{Row};
ghost use Rattle.vtl_meaning.specs.Points.{with_points};
ghost use Rattle.vtl_timing.specs.Timed.{IsTimed, timed_of};
ghost use Rattle.vtl_tree.specs.DataSet.{AreOfProfile, IsDataSet};
ghost use Rattle.vtl_tree.specs.Environment.{DataSet};
ghost use Rattle.vtl_tree.specs.declared.calls.TimeOp.{TimeOp};
ghost use Rattle.vtl_tree.specs.declared.structure.Structure.{Structure};

/// A time operator makes a data set of a data set, and its integers are of the profile where those of the operand are.
pub fn time_operators_keep_data_sets()
    ensures kept { (p : Settings) (o : TimeOp) (d : DataSet) (s : Structure) (out : List Row) → IsTimed o d.structure s → IsDataSet d.structure d.points → timed_of p o d s ≡ Ok out → IsDataSet s out }
    ensures profile { (p : Settings) (o : TimeOp) (d : DataSet) (s : Structure) → IsTimed o d.structure s → AreOfProfile p d.points → IfOk (timed_of p o d s) (AreOfProfile p) }
{}

/// The order of points is not seen.
pub fn time_operators_do_not_see_order()
    ensures { (p : Settings) (o : TimeOp) (a : Structure) (us vs : List Row) (s : Structure) → IsTimed o a s → IsDataSet a us → Perm us vs → Same (timed_of p o (with_points a us) s) (timed_of p o (with_points a vs) s) }
{}
