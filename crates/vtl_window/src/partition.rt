// The values of a call over a partition.
ghost use Rattle.std.specs.Prelude.{◌≡◌, ◌++◌, ℕ, map, option_map, OnOk};
ghost use Rattle.vtl_cell.specs.Row.{column_of};
ghost use Rattle.vtl_rows.specs.Keys.{key_of};
ghost use Rattle.vtl_rows.specs.Places.{row_at};
ghost use Rattle.vtl_tree.specs.Structure.{columns_of};
ghost use Rattle.vtl_meaning.specs.Windows.{argument, keys_in};
ghost use Rattle.vtl_window.specs.Calls.{lent};
ghost use Rattle.vtl_frames.specs.Ranked.{AreInOrder};
ghost use Rattle.vtl_window.specs.Runs.{run_values};

use crate::call::Call;
use crate::frames::frame_of;
use std::alloc::{AllocError, Global};
use vtl_cell::{AggKind, Cell};
use vtl_decimal::{Fault, Profile};
use vtl_frames::{
    End, Lane, Shift, push_aggregates, push_ends, push_ranks, push_ratios, push_shifted,
};
use vtl_rows::SortKey;
use vtl_sets::DataSet;
use vtl_tree::AnalyticOp;

/// The values so far, each an outcome.
pub(crate) type Outcomes = Vec<Result<Cell, Fault>>;

/// Puts the values of a call at the rows of a partition, which stand in order, behind other values; `column` is the
/// place of its component. It fails only if memory runs out.
pub(crate) fn push_call(
    alloc: Global,
    out: &mut Outcomes,
    a: &DataSet,
    run: &[usize],
    call: Call<'_>,
    column: usize,
    keys: &[SortKey],
    p: &Profile,
) -> Result<(), AllocError>
    requires column { (k : ℕ) → column_of column (row_at a.now.points k) ≡ argument (columns_of a.now.structure) (option_map (λ name. name.now) call.component) (row_at a.now.points k) }
    requires keys { map key_of keys.now ≡ keys_in (columns_of a.now.structure) call.window.now }
    requires order { AreInOrder keys.now a.now.points run.now }
    ensures { OnOk result (out.new.items ≡ out.old.items ++ run_values p.now (columns_of a.now.structure) (lent call.entry) a.now.points run.now) }
{
    let table = a.table();
    let null = Cell::Null;
    let lane = Lane::of(table, run, column, &null);
    let frame = frame_of(call.window);
    match call.op {
        AnalyticOp::Sum => push_aggregates(alloc, out, &lane, frame, AggKind::Sum, p),
        AnalyticOp::Avg => push_aggregates(alloc, out, &lane, frame, AggKind::Avg, p),
        AnalyticOp::Count => push_aggregates(alloc, out, &lane, frame, AggKind::Count, p),
        AnalyticOp::Min => push_aggregates(alloc, out, &lane, frame, AggKind::Min, p),
        AnalyticOp::Max => push_aggregates(alloc, out, &lane, frame, AggKind::Max, p),
        AnalyticOp::FirstValue => push_ends(out, &lane, frame, End::First),
        AnalyticOp::LastValue => push_ends(out, &lane, frame, End::Last),
        AnalyticOp::Rank => push_ranks(alloc, out, table, run, keys, p),
        AnalyticOp::RatioToReport => push_ratios(out, &lane, p),
        AnalyticOp::Lag { offset, default } => {
            push_shifted(out, &lane, Shift::Lag, *offset as usize, default)
        }
        AnalyticOp::Lead { offset, default } => {
            push_shifted(out, &lane, Shift::Lead, *offset as usize, default)
        }
    }
}
