// The query of `timeshift`.
ghost use Rattle.std.specs.Prelude.{◌≡◌, map, IfOk};
ghost use Rattle.vtl_tree.specs.Structure.{columns_of};
ghost use Rattle.sql_tree.specs.View.{expr_tree, item_tree, query_tree};
ghost use Rattle.times_to_sql.specs.Shifts.{later, shift_query, shifted_column, shifted_item};

use selects_to_sql::{Writer, from_table, push_item};
use sql_tree::{Item, Query, SqlExpr};
use std::alloc::{AllocError, Global};
use vtl_cell::{Cell, ScalarOp};
use vtl_text::Txt;
use vtl_tree::{Component, Structure, is_time};

// A column so many periods later.
fn later(alloc: Global, writer: &Writer, periods: &Cell, name: &Txt) -> Result<SqlExpr, AllocError>
    ensures { IfOk result (λ e. expr_tree e ≡ later writer.now periods.now name.now) }
{
    let mut operands = Vec::with_capacity(alloc, 2)?;
    operands.push(writer.column(name)?)?;
    operands.push(writer.constant(alloc, periods)?)?;
    Ok(SqlExpr::Call {
        function: ScalarOp::PeriodShift,
        operands,
    })
}

// The time shifted, another column as it is.
fn shifted_column(
    alloc: Global,
    writer: &Writer,
    periods: &Cell,
    column: &Component,
) -> Result<SqlExpr, AllocError>
    ensures { IfOk result (λ e. expr_tree e ≡ shifted_column writer.now periods.now column.now) }
{
    if is_time(column) {
        later(alloc, writer, periods, &column.name)
    } else {
        writer.column(&column.name)
    }
}

// All columns of a structure.
fn shifted_items(
    alloc: Global,
    writer: &Writer,
    periods: &Cell,
    a: &Structure,
) -> Result<Vec<Item>, AllocError>
    ensures { IfOk result (λ v. map item_tree v.items ≡ map (shifted_item writer.now periods.now) (columns_of a.now)) }
{
    let columns = a.columns(alloc)?;
    let mut items = Vec::with_capacity(alloc, columns.len())?;
    for column in &columns {
        let value = shifted_column(alloc, writer, periods, column)?;
        push_item(&mut items, value, &column.name)?;
    }
    Ok(items)
}

/// Each point of a table with its time so many periods later. It fails only if memory runs out.
pub(crate) fn shift_query(
    alloc: Global,
    writer: &Writer,
    periods: i64,
    a: &Structure,
    table: &Txt,
) -> Result<Query, AllocError>
    ensures { IfOk result (λ q. query_tree q ≡ shift_query writer.now periods a.now table.now) }
{
    let items = shifted_items(alloc, writer, &Cell::Int(periods), a)?;
    from_table(alloc, writer, items, None, table)
}
