// The window of an analytic call.
ghost use Rattle.std.specs.Prelude.{◌≡◌, IfOk};
ghost use Rattle.groups_to_sql.specs.Windowed.{over_to_sql};
ghost use Rattle.groups_to_sql.specs.WindowItems.{window_of};

use crate::window_calls::call;
use crate::window_frames::framed;
use crate::window_orders::order;
use selects_to_sql::{Writer, group_columns};
use sql_tree::{Column, Over, Window};
use std::alloc::{AllocError, Global};
use vtl_text::List;
use vtl_tree::{AnalyticOp, Structure, Window as Seen};

// The rows that a call sees.
fn over(
    alloc: Global,
    writer: &Writer,
    a: &Structure,
    op: &AnalyticOp,
    seen: &Seen,
) -> Result<Over, AllocError>
    ensures { IfOk result (λ o. o ≡ over_to_sql a.now op.now seen.now) }
{
    let partition = group_columns(alloc, writer, seen.partition.as_slice())?;
    let order = order(alloc, writer, a, op, seen)?;
    Ok(Over {
        partition: List::of(partition),
        order: List::of(order),
        frame: framed(alloc, op, seen)?,
    })
}

/// The window of an operator on a column, with the points of a structure that it sees. It fails only if memory runs
/// out.
pub(crate) fn window(
    alloc: Global,
    writer: &Writer,
    a: &Structure,
    op: &AnalyticOp,
    column: Column,
    seen: &Seen,
) -> Result<Window, AllocError>
    ensures { IfOk result (λ w. w ≡ window_of writer.now a.now op.now column seen.now) }
{
    Ok(Window {
        call: call(alloc, writer, op, column)?,
        over: over(alloc, writer, a, op, seen)?,
    })
}
