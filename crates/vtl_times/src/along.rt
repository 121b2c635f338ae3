// Values along series, put back at their points.
ghost use Rattle.std.specs.Prelude.{◌≡◌, ◌<◌, ◌++◌, ℕ, All, IfOk, OnOk, length, map, slice_set};
ghost use Rattle.std.specs.List.{AllByRecursion};
ghost use Rattle.vtl_cell.specs.Outcome.{Outcome};
ghost use Rattle.vtl_cell.specs.declared.cell.Cell as cell;
ghost use Rattle.vtl_frames.specs.Framed.{at_each};
ghost use Rattle.vtl_frames.specs.Lanes.{lane_cells};
ghost use Rattle.vtl_rows.specs.Places.{row_at};
ghost use Rattle.vtl_times.specs.Along.{value_along, value_at};
ghost use Rattle.vtl_times.specs.InOrder.{AreSeries, IsSeries};
ghost use Rattle.vtl_times.specs.Lists.{IsWhole, lists_of};
ghost use Rattle.vtl_times.specs.Put.{put_each};

use crate::column::Outcomes;
use crate::lists::Lists;
use std::alloc::{AllocError, Global};
use vtl_cell::{AggKind, Cell};
use vtl_decimal::{Fault, Profile};
use vtl_frames::{Bound, Frame, Lane, Shift, push_aggregates, push_shifted};
use vtl_rows::Table;
use vtl_sets::DataSet;

/// What is made at each place of a series.
#[derive(Clone, Copy, Debug, PartialEq, Eq)]
pub(crate) enum Along {
    /// The total of the cells up to the place.
    Totals,
    /// The cell before the place, or zero at the first one.
    Previous,
}

// Puts what is made at each place of a series behind other values.
fn push_along(
    alloc: Global,
    out: &mut Outcomes,
    table: &Table,
    run: &[usize],
    column: usize,
    along: Along,
    p: &Profile,
) -> Result<(), AllocError>
    ensures { OnOk result (out.new.items ≡ out.old.items ++ at_each (λ i. value_along p.now along i (lane_cells table.now.rows run.now column)) (lane_cells table.now.rows run.now column)) }
{
    let null = Cell::Null;
    let lane = Lane::of(table, run, column, &null);
    match along {
        Along::Totals => {
            let frame = Frame {
                first: Bound::UnboundedPreceding,
                last: Bound::Current,
            };
            push_aggregates(alloc, out, &lane, frame, AggKind::Sum, p)
        }
        Along::Previous => push_shifted(out, &lane, Shift::Lag, 1, &Cell::Int(0)),
    }
}

// So many values that are null.
fn nulls(alloc: Global, count: usize) -> Result<Outcomes, AllocError>
    ensures { IfOk result (λ v. length v.items ≡ count) }
{
    let mut values = Vec::with_capacity(alloc, count)?;
    for _ in 0..count {
        values.push(Ok(Cell::Null))?;
    }
    Ok(values)
}

// Puts a value at a place.
fn put(values: &mut Outcomes, place: usize, value: Result<Cell, Fault>)
    requires { place < length values.old.items }
    ensures { values.new.items ≡ slice_set values.old.items place value }
{
    values[place] = value;
}

// Puts the values of a series at its points.
fn put_back(values: &mut Outcomes, run: &[usize], made: Outcomes)
    requires { AllByRecursion (λ k. k < length values.old.items) run.now }
    ensures { (f : ℕ → Outcome cell.Cell) → made.items ≡ map f run.now → values.new.items ≡ put_each f run.now values.old.items }
{
    let mut rest = made.into_iter();
    for place in run {
        put(values, *place, rest.next().unwrap_or(Ok(Cell::Null)));
    }
}

// Makes the values of each series, one series behind the other.
fn made_along(
    alloc: Global,
    a: &DataSet,
    series: &Lists,
    column: usize,
    along: Along,
    p: &Profile,
) -> Result<Outcomes, AllocError>
    requires whole { IsWhole series.now }
    requires series { AllByRecursion (IsSeries a.now) (lists_of series.now) }
    ensures { IfOk result (λ v. v.items ≡ map (λ k. value_at p.now along column a.now (row_at a.now.points k)) series.now.numbers.items) }
{
    let mut made = Vec::with_capacity(alloc, series.numbers.len())?;
    let mut start = 0;
    for count in &series.counts {
        let run = &series.numbers[start..start + *count];
        push_along(alloc, &mut made, a.table(), run, column, along, p)?;
        start += *count;
    }
    Ok(made)
}

/// What is made of a column at each point, in the order of the points, by the series. It fails only if memory runs out.
pub(crate) fn values_along(
    alloc: Global,
    a: &DataSet,
    series: &Lists,
    column: usize,
    along: Along,
    p: &Profile,
) -> Result<Outcomes, AllocError>
    requires whole { IsWhole series.now }
    requires series { AreSeries a.now (lists_of series.now) }
    ensures { IfOk result (λ v. v.items ≡ map (value_at p.now along column a.now) a.now.points) }
{
    let made = made_along(alloc, a, series, column, along, p)?;
    let mut values = nulls(alloc, a.table().len())?;
    put_back(&mut values, &series.numbers, made);
    Ok(values)
}
