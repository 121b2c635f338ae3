// Items that are columns: their cells are gathered for all rows of FROM at once.
//
// Where all items are columns of their own kinds the cells are gathered by the row numbers of the tuples
// (`TupleRows::gathered`), and no expression is resolved. Such items have no fault: a cell of its column's kind stays
// as it is (`AreColumnsAt`). A column of integers below numbers goes by the loop. The gathered table takes the place
// of one without rows, so its cells are copied once.
ghost use Rattle.std.specs.Prelude.{◌≡◌, ◌<◌, length, map, zip, All, IfOk, IfSome, Ok, OnOk};
ghost use Rattle.vtl_rows.specs.Tables.{cells_at, column_kinds};
ghost use Rattle.sql_tree.specs.View.{item_tree};
ghost use Rattle.sql_from.specs.Columns.{kinds_at};
ghost use Rattle.sql_check_parts.specs.Scopes.{row_of};
ghost use Rattle.sql_from.specs.Sources.{scope_held};
ghost use Rattle.sql_from.specs.Standing.{rows_for};
ghost use Rattle.sql_exec.specs.Gathered.{AreColumnsAt, IsColumnAt};
ghost use Rattle.sql_exec.specs.Outputs.{Adds};

use crate::output::Output;
use sql_eval::Names;
use sql_from::TupleRows;
use sql_tree::{Item, ItemValue, SqlExpr};
use std::alloc::{AllocError, Global};
use vtl_cell::{Kind, is_same_kind};
use vtl_rows::{Column, Table, are_all};

/// The place of the cells of an item in the rows of FROM, if it is a column of this kind.
pub(crate) fn column_place<N: Names>(names: &N, item: &Item, kind: Kind) -> Option<usize>
    ensures { IfSome result (IsColumnAt (N.scope names.now) (item_tree item.now, kind)) }
{
    let ItemValue::Expr(value) = &item.value else {
        return None;
    };
    let SqlExpr::Column(column) = value else {
        return None;
    };
    if is_same_kind(names.kind(column)?, kind) {
        Some(names.place(column))
    } else {
        None
    }
}

/// The places of the cells of items in the rows of FROM, if each item is a column whose cells are of the item's kind as
/// they stand. It fails only if memory runs out.
pub(crate) fn column_places<N: Names>(
    alloc: Global,
    names: &N,
    items: &[Item],
    kinds: &[Kind],
) -> Result<Option<Vec<usize>>, AllocError>
    requires { length kinds.now ≡ length items.now }
    ensures { IfOk result (λ found. IfSome found (λ v. AreColumnsAt (N.scope names.now) (zip (map item_tree items.now) kinds.now) v.items)) }
{
    let mut places = Vec::with_capacity(alloc, items.len())?;
    for i in 0..items.len() {
        let Some(place) = column_place(names, &items[i], kinds[i]) else {
            return Ok(None);
        };
        places.push(place)?;
    }
    Ok(Some(places))
}

// Equal columns.
fn copied_columns(alloc: Global, columns: &[Column]) -> Result<Vec<Column>, AllocError>
    ensures { IfOk result (λ copy. copy.items ≡ columns.now) }
{
    let mut copy = Vec::with_capacity(alloc, columns.len())?;
    for column in columns {
        copy.push(Column {
            name: column.name.share()?,
            kind: column.kind,
        })?;
    }
    Ok(copy)
}

// The table of the only source, if its rows are these and the places are those of all its columns, in order.
fn whole_source<'a>(rows: &'a TupleRows<'a>, places: &[usize]) -> Option<&'a Table>
    ensures kinds { IfSome result (λ t. column_kinds t.now.columns ≡ kinds_at places.now (row_of (scope_held rows.now.sources.sources))) }
    ensures rows { IfSome result (λ t. t.now.rows ≡ map (cells_at places.now) (rows_for rows.now.sources rows.now.tuples)) }
{
    let table = rows.lent_table()?;
    if are_all(places, table.columns().len()) {
        Some(table)
    } else {
        None
    }
}

/// Adds a row of the cells at these places for each row of FROM. No cell is copied where these are all cells of the only
/// source, which has the same rows. It fails only if memory runs out.
pub(crate) fn add_gathered(
    alloc: Global,
    out: &mut Output,
    rows: &TupleRows<'_>,
    places: &[usize],
) -> Result<(), AllocError>
    requires within { All (λ i. i < length (row_of (scope_held rows.now.sources.sources))) places.now }
    requires kinds { column_kinds out.old.table.columns ≡ kinds_at places.now (row_of (scope_held rows.now.sources.sources)) }
    ensures { OnOk result (Adds (Ok (map (cells_at places.now) (rows_for rows.now.sources rows.now.tuples))) out.old out.new) }
{
    let columns = copied_columns(alloc, out.table.columns())?;
    let table = match whole_source(rows, places) {
        Some(table) => table.share()?.with_columns(columns),
        None => rows.gathered(alloc, places, columns)?,
    };
    out.add_table(table)
}
