// The values of a call over a partition.
ghost use Rattle.std.specs.Prelude.{◌≡◌, ◌++◌, map, Ok, OnOk};
ghost use Rattle.vtl_cell.specs.Row.{column_of};
ghost use Rattle.vtl_frames.specs.Framed.{at_each};
ghost use Rattle.vtl_frames.specs.Lent.{cells_in};
ghost use Rattle.vtl_frames.specs.Ranked.{AreInOrder};
ghost use Rattle.vtl_rows.specs.Keys.{key_of};
ghost use Rattle.sql_tree.specs.declared.windows.WindowCall.TheVariants as call;
ghost use Rattle.sql_from.specs.Standing.{sight_of};
ghost use Rattle.sql_meaning.specs.Windows.{count_of, default_cell, keys_of, shifted, value_in};
ghost use Rattle.sql_window.specs.Runs.{run_values, shift_in};

use crate::frames::{count_of, default_of, frame_of};
use sql_eval::Names;
use sql_from::Sources;
use sql_tree::{Column, Frame, Literal, Over, ShiftFunction, ValueFunction, Window, WindowCall};
use std::alloc::{AllocError, Global};
use vtl_cell::{AggKind, Cell};
use vtl_decimal::{Fault, Profile};
use vtl_frames::{
    End, Lane, Shift, push_aggregates, push_ends, push_ranks, push_ratios, push_shifted,
};
use vtl_rows::{SortKey, Table};
use vtl_text::Txt;

// The values so far, each an outcome.
pub(crate) type Outcomes = Vec<Result<Cell, Fault>>;

// An aggregate over frames.
fn push_aggregate(
    alloc: Global,
    out: &mut Outcomes,
    sources: &Sources<'_>,
    table: &Table,
    run: &[usize],
    function: AggKind,
    column: &Column,
    over: &Over,
    p: &Profile,
) -> Result<(), AllocError>
    ensures { OnOk result (out.new.items ≡ out.old.items ++ run_values (sight_of p.now sources.now) (call.Aggregate function column.now) over.now table.now.rows run.now) }
{
    let null = Cell::Null;
    let lane = Lane::of(table, run, sources.place(column), &null);
    push_aggregates(alloc, out, &lane, frame_of(&over.frame, p), function, p)
}

// A cell at an end of frames, or the share of the total.
fn push_value(
    out: &mut Outcomes,
    lane: &Lane<'_>,
    frame: &Option<Frame>,
    function: ValueFunction,
    p: &Profile,
) -> Result<(), AllocError>
    ensures { OnOk result (out.new.items ≡ out.old.items ++ at_each (λ i. value_in p.now frame.now function (column_of i (cells_in lane.now)) i (cells_in lane.now)) (cells_in lane.now)) }
{
    match function {
        ValueFunction::FirstValue => push_ends(out, lane, frame_of(frame, p), End::First),
        ValueFunction::LastValue => push_ends(out, lane, frame_of(frame, p), End::Last),
        ValueFunction::RatioToReport => push_ratios(out, lane, p),
    }
}

// To which side a function of shifts looks.
fn shift_of(function: ShiftFunction) -> Shift
    ensures { result ≡ shift_in function }
{
    match function {
        ShiftFunction::Lag => Shift::Lag,
        ShiftFunction::Lead => Shift::Lead,
    }
}

// A cell some rows before or behind, or the default.
fn push_shift(
    alloc: Global,
    out: &mut Outcomes,
    lane: &Lane<'_>,
    function: ShiftFunction,
    rows: &Txt,
    default: &Option<Literal>,
    p: &Profile,
) -> Result<(), AllocError>
    ensures { OnOk result (out.new.items ≡ out.old.items ++ at_each (λ i. Ok (shifted function (count_of p.now rows.now) (default_cell p.now default.now) i (cells_in lane.now))) (cells_in lane.now)) }
{
    let default = default_of(alloc, default, p)?;
    push_shifted(out, lane, shift_of(function), count_of(rows, p), &default)
}

/// Puts the values of a call at the rows of a partition, which stand in order, behind other values. It fails only if
/// memory runs out.
pub(crate) fn push_call(
    alloc: Global,
    out: &mut Outcomes,
    sources: &Sources<'_>,
    table: &Table,
    run: &[usize],
    window: &Window,
    keys: &[SortKey],
    p: &Profile,
) -> Result<(), AllocError>
    requires keys { map key_of keys.now ≡ keys_of (sight_of p.now sources.now) window.now.over }
    requires order { AreInOrder keys.now table.now.rows run.now }
    ensures { OnOk result (out.new.items ≡ out.old.items ++ run_values (sight_of p.now sources.now) window.now.call window.now.over table.now.rows run.now) }
{
    let over = &window.over;
    match &window.call {
        WindowCall::Aggregate { function, column } => {
            push_aggregate(alloc, out, sources, table, run, *function, column, over, p)
        }
        WindowCall::Value { function, column } => {
            let null = Cell::Null;
            let lane = Lane::of(table, run, sources.place(column), &null);
            push_value(out, &lane, &over.frame, *function, p)
        }
        WindowCall::Shift {
            function,
            column,
            rows,
            default,
        } => {
            let null = Cell::Null;
            let lane = Lane::of(table, run, sources.place(column), &null);
            push_shift(alloc, out, &lane, *function, rows, default, p)
        }
        WindowCall::Rank => push_ranks(alloc, out, table, run, keys, p),
    }
}
