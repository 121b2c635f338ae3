// An analytic call: its operator, on a column.
ghost use Rattle.std.specs.Fmt.{decimal};
ghost use Rattle.std.specs.Prelude.{◌≡◌, IfOk};
ghost use Rattle.sql_tree.specs.declared.windows.WindowCall.TheVariants as call;
ghost use Rattle.groups_to_sql.specs.Windowed.{argument_of, call_to_sql, default_to_sql};

use crate::window_frames::count_digits;
use selects_to_sql::Writer;
use sql_tree::{Column, Literal, ShiftFunction, ValueFunction, WindowCall};
use std::alloc::{AllocError, Global};
use vtl_cell::{AggKind, Cell};
use vtl_text::Txt;
use vtl_tree::AnalyticOp;

// The default of `lag` and `lead`; a null is no literal.
fn default_value(
    alloc: Global,
    writer: &Writer,
    default: &Cell,
) -> Result<Option<Literal>, AllocError>
    ensures { IfOk result (λ l. l ≡ default_to_sql writer.now default.now) }
{
    match default {
        Cell::Null => Ok(None),
        _ => Ok(Some(writer.literal(alloc, default)?)),
    }
}

// The value of another row.
fn shift(
    alloc: Global,
    writer: &Writer,
    function: ShiftFunction,
    column: Column,
    offset: u32,
    default: &Cell,
) -> Result<WindowCall, AllocError>
    ensures { IfOk result (λ x. x ≡ call.Shift function column (decimal offset) (default_to_sql writer.now default.now)) }
{
    let rows = count_digits(alloc, offset)?;
    let default = default_value(alloc, writer, default)?;
    Ok(WindowCall::Shift {
        function,
        column,
        rows,
        default,
    })
}

fn aggregate(function: AggKind, column: Column) -> WindowCall
    ensures { result ≡ call.Aggregate function column }
{
    WindowCall::Aggregate { function, column }
}

fn value(function: ValueFunction, column: Column) -> WindowCall
    ensures { result ≡ call.Value function column }
{
    WindowCall::Value { function, column }
}

/// The call of an operator on a column. It fails only if memory runs out.
pub(crate) fn call(
    alloc: Global,
    writer: &Writer,
    op: &AnalyticOp,
    column: Column,
) -> Result<WindowCall, AllocError>
    ensures { IfOk result (λ x. x ≡ call_to_sql writer.now op.now column) }
{
    match op {
        AnalyticOp::Sum => Ok(aggregate(AggKind::Sum, column)),
        AnalyticOp::Avg => Ok(aggregate(AggKind::Avg, column)),
        AnalyticOp::Count => Ok(aggregate(AggKind::Count, column)),
        AnalyticOp::Min => Ok(aggregate(AggKind::Min, column)),
        AnalyticOp::Max => Ok(aggregate(AggKind::Max, column)),
        AnalyticOp::FirstValue => Ok(value(ValueFunction::FirstValue, column)),
        AnalyticOp::LastValue => Ok(value(ValueFunction::LastValue, column)),
        AnalyticOp::RatioToReport => Ok(value(ValueFunction::RatioToReport, column)),
        AnalyticOp::Lag { offset, default } => {
            shift(alloc, writer, ShiftFunction::Lag, column, *offset, default)
        }
        AnalyticOp::Lead { offset, default } => {
            shift(alloc, writer, ShiftFunction::Lead, column, *offset, default)
        }
        AnalyticOp::Rank => Ok(WindowCall::Rank),
    }
}

/// The column of a call. `rank` has none: the column that it is given here is not written. It fails only if memory runs
/// out.
pub(crate) fn argument(
    alloc: Global,
    writer: &Writer,
    component: &Option<Txt>,
) -> Result<Column, AllocError>
    ensures { IfOk result (λ x. x ≡ argument_of component.now) }
{
    match component {
        Some(name) => writer.first(name),
        None => writer.first(&Txt::new(alloc, "")?),
    }
}
