// EXISTS, by a walk over the rows of its table.
//
// EXISTS in an ON goes by look-ups of its own, made for the join over the sources up to it: they are wanted wherever
// the select may look up at all, and an ON that is listed has no EXISTS.
ghost use Rattle.std.specs.List.{list_all, list_any};
ghost use Rattle.std.specs.Prelude.{◌≡◌, IfOk, Some};
ghost use Rattle.vtl_cell.specs.declared.cell.Cell.TheVariants.{Null};
ghost use Rattle.vtl_rows.specs.Places.{row_at};
ghost use Rattle.sql_eval.specs.Origins.{rows_by};
ghost use Rattle.sql_eval.specs.Placed.{has_partner, is_tied, side_cell};
ghost use Rattle.sql_from.specs.Held.{rows_held};

use crate::series_table::table_of_series;
use crate::{Given, HeldTable, OuterRow};
use sql_eval::{Existence, SeriesPlaces, Side, Tie};
use std::alloc::{AllocError, Global};
use vtl_cell::{Cell, ScalarOp};
use vtl_decimal::Profile;
use vtl_rows::Table;
use vtl_scalar::{ScalarErr, apply_two};

// The cell on a side of an equality; past the last one of the inner row the null that is lent.
fn side_cell<'r, R: OuterRow>(
    side: Side,
    inner: &'r [Cell],
    outer: &'r R,
    null: &'r Cell,
) -> &'r Cell
    requires { null.now ≡ Null }
    ensures { result.now ≡ side_cell (R.lends outer.now) inner.now side }
{
    match side {
        Side::Inner(place) => match inner.get(place) {
            Some(cell) => cell,
            None => null,
        },
        Side::Outer(place) => outer.lent(place),
    }
}

// Whether an equality is true.
fn is_tied<R: OuterRow>(
    alloc: Global,
    tie: &Tie,
    inner: &[Cell],
    outer: &R,
    p: &Profile,
) -> Result<bool, AllocError>
    ensures { IfOk result (λ b. b ≡ is_tied p.now (R.lends outer.now) inner.now tie.now) }
{
    let null = Cell::Null;
    let left = side_cell(tie.left, inner, outer, &null);
    let right = side_cell(tie.right, inner, outer, &null);
    match apply_two(alloc, ScalarOp::Equal, left, right, p) {
        Ok(Cell::Bool(is_equal)) => Ok(is_equal),
        Err(ScalarErr::OutOfMemory) => Err(AllocError),
        _ => Ok(false),
    }
}

// Whether every equality is true.
fn all_tied<R: OuterRow>(
    alloc: Global,
    ties: &[Tie],
    inner: &[Cell],
    outer: &R,
    p: &Profile,
) -> Result<bool, AllocError>
    ensures { IfOk result (λ b. b ≡ list_all (is_tied p.now (R.lends outer.now) inner.now) ties.now) }
{
    for tie in ties {
        if !is_tied(alloc, tie, inner, outer, p)? {
            return Ok(false);
        }
    }
    Ok(true)
}

// The row of a table of this number; no cells where it has no such row.
fn row_of(table: &Table, number: usize) -> &[Cell]
    ensures { result.now ≡ row_at table.now.rows number }
{
    if number < table.len() {
        table.row(number)
    } else {
        &[]
    }
}

/// Whether one of the rows of these numbers of a table makes every equality with a row true. It fails only if memory runs
/// out.
pub(crate) fn is_among<R: OuterRow>(
    alloc: Global,
    table: &Table,
    numbers: &[usize],
    ties: &[Tie],
    outer: &R,
    p: &Profile,
) -> Result<bool, AllocError>
    ensures { IfOk result (λ b. b ≡ list_any (λ n. list_all (is_tied p.now (R.lends outer.now) (row_at table.now.rows n)) ties.now) numbers.now) }
{
    for number in numbers {
        if all_tied(alloc, ties, row_of(table, *number), outer, p)? {
            return Ok(true);
        }
    }
    Ok(false)
}

// Whether some row of a table makes every equality with a row true.
fn has_tied<R: OuterRow>(
    alloc: Global,
    table: &Table,
    ties: &[Tie],
    outer: &R,
    p: &Profile,
) -> Result<bool, AllocError>
    ensures { IfOk result (λ b. b ≡ list_any (λ inner. list_all (is_tied p.now (R.lends outer.now) inner) ties.now) table.now.rows) }
{
    for i in 0..table.len() {
        if all_tied(alloc, ties, table.row(i), outer, p)? {
            return Ok(true);
        }
    }
    Ok(false)
}

// The same of a SERIES over a table, which is made to be walked over once.
fn has_tied_in_series<R: OuterRow>(
    alloc: Global,
    table: &HeldTable,
    series: &SeriesPlaces,
    ties: &[Tie],
    outer: &R,
    p: &Profile,
) -> Result<bool, AllocError>
    ensures { IfOk result (λ b. b ≡ list_any (λ inner. list_all (is_tied p.now (R.lends outer.now) inner) ties.now) (rows_by (Some series.now) table.now.rows)) }
{
    let made = table_of_series(alloc, table, series)?;
    has_tied(alloc, made.table(), ties, outer, p)
}

/// Whether some row of the table of EXISTS makes every equality with a row true, by a walk over its rows. It fails only if
/// memory runs out.
pub fn has_partner<R: OuterRow>(
    alloc: Global,
    tables: &Given<'_>,
    test: &Existence,
    outer: &R,
    p: &Profile,
) -> Result<bool, AllocError>
    ensures { IfOk result (λ b. b ≡ has_partner p.now (rows_held tables.now) test.now.table test.now.ties.items (R.lends outer.now)) }
{
    let Some(table) = tables.held().held(&test.table.table) else {
        return Ok(false);
    };
    let Some(series) = &test.table.series else {
        return has_tied(alloc, table.table(), &test.ties, outer, p);
    };
    match tables.series(&test.table) {
        Some(made) => has_tied(alloc, made.table(), &test.ties, outer, p),
        None => has_tied_in_series(alloc, table, series, &test.ties, outer, p),
    }
}
