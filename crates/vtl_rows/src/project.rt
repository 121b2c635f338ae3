// Columns chosen from others, and the cells below them.
//
// Columns of a table that is given away are moved to narrower pages (`into_projected`), where its cells have no other
// owner and the columns keep their order: nothing is copied. Whoever owns a table gives it.
ghost use Rattle.std.specs.Prelude.{◌≡◌, ◌<◌, ◌++◌, length, map, All, IfOk, OnOk};
ghost use Rattle.std.specs.Bool.{OnTrue};
ghost use Rattle.std.specs.List.{range_with_len};
ghost use Rattle.vtl_cell.specs.Row.{column_of};
ghost use Rattle.vtl_pages.specs.Chosen.{AreRising};
ghost use Rattle.vtl_rows.specs.Tables.{cells_at, column_at};

use crate::Column;
use std::alloc::{AllocError, Global};
use vtl_cell::{Cell, clone_cell};

// The columns at places.
pub(crate) fn chosen_columns(
    alloc: Global,
    columns: &[Column],
    places: &[usize],
) -> Result<Vec<Column>, AllocError>
    requires { All (λ i. i < length columns.now) places.now }
    ensures { IfOk result (λ chosen. chosen.items ≡ map (column_at columns.now) places.now) }
{
    let mut chosen = Vec::with_capacity(alloc, places.len())?;
    for i in places {
        chosen.push(copy_column(&columns[*i])?)?;
    }
    Ok(chosen)
}

fn copy_column(column: &Column) -> Result<Column, AllocError>
    ensures { IfOk result (λ copy. copy ≡ column.now) }
{
    Ok(Column {
        name: column.name.share()?,
        kind: column.kind,
    })
}

// Equal columns.
pub(crate) fn copied_columns(alloc: Global, columns: &[Column]) -> Result<Vec<Column>, AllocError>
    ensures { IfOk result (λ copy. copy.items ≡ columns.now) }
{
    let mut copy = Vec::with_capacity(alloc, columns.len())?;
    for column in columns {
        copy.push(copy_column(column)?)?;
    }
    Ok(copy)
}

// Puts the cells at places of a row after others.
pub(crate) fn append_chosen(
    cells: &mut Vec<Cell>,
    row: &[Cell],
    places: &[usize],
) -> Result<(), AllocError>
    ensures { OnOk result (cells.new.items ≡ cells.old.items ++ cells_at places.now row.now) }
{
    for place in places {
        cells.push(copy_at(row, *place)?)?;
    }
    Ok(())
}

// A cell equal to the one at a place, or null after the last one.
pub(crate) fn copy_at(row: &[Cell], place: usize) -> Result<Cell, AllocError>
    ensures { IfOk result (λ copy. copy ≡ column_of place row.now) }
{
    match row.get(place) {
        Some(cell) => clone_cell(cell),
        None => Ok(Cell::Null),
    }
}

/// Whether places are all those below a count, each once and in order.
pub fn are_all(places: &[usize], count: usize) -> bool
    ensures { OnTrue result (places.now ≡ range_with_len 0 count) }
{
    if places.len() != count {
        return false;
    }
    for i in 0..count {
        if places[i] != i {
            return false;
        }
    }
    true
}

// Whether each place is greater than the one before it.
pub(crate) fn are_rising(places: &[usize]) -> bool
    ensures { OnTrue result (AreRising places.now) }
{
    for i in 0..places.len().saturating_sub(1) {
        if places[i + 1] <= places[i] {
            return false;
        }
    }
    true
}
