// Time operators on a data set.
ghost use Rattle.std.specs.Prelude.{◌≡◌, Ok};
ghost use Rattle.vtl_scalar.specs.Answers.{Answers};
ghost use Rattle.vtl_sets.specs.DataSets.{data_set, with_structure};
ghost use Rattle.vtl_timing.specs.Timed.{IsTimed, extent_of, timed_of};
ghost use Rattle.vtl_timing.specs.Times.{HasTime, fill_of};

use std::alloc::Global;
use vtl_decimal::Profile;
use vtl_scalar::ScalarErr;
use vtl_series::Extent;
use vtl_sets::DataSet;
use vtl_syntax::Filling;
use vtl_times::{fill_time_series, flow_to_stock, stock_to_flow, timeshift};
use vtl_tree::{Structure, TimeOp};

// From where to where a series is filled.
fn extent(filling: Filling) -> Extent
    ensures { result ≡ extent_of filling }
{
    match filling {
        Filling::Single => Extent::Single,
        Filling::All => Extent::All,
    }
}

// A point for each period.
fn filled(alloc: Global, a: &DataSet, filling: Filling) -> Result<DataSet, ScalarErr>
    requires { HasTime a.now.structure }
    ensures { Answers result (Ok (data_set a.now.structure (fill_of (extent_of filling) a.now))) }
{
    Ok(fill_time_series(alloc, a, extent(filling))?)
}

/// A time operator on a data set.
pub(crate) fn timed(
    alloc: Global,
    a: &DataSet,
    op: &TimeOp,
    made: &Structure,
    p: &Profile,
) -> Result<DataSet, ScalarErr>
    requires { IsTimed op.now a.now.structure made.now }
    ensures { Answers result (with_structure made.now (timed_of p.now op.now a.now made.now)) }
{
    match op {
        TimeOp::Shift(periods) => timeshift(alloc, a, *periods, p),
        TimeOp::Fill(filling) => filled(alloc, a, *filling),
        TimeOp::FlowToStock => flow_to_stock(alloc, a, made, p),
        TimeOp::StockToFlow => stock_to_flow(alloc, a, made, p),
    }
}
