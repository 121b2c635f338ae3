// Rows gathered from one table or from several.
//
// Rows are put together by tuples of row numbers and a list of which cell comes from where (`gather_beside`): a
// number past the last row is a missing part, whose cells are null without a case, since a row past the end has no
// cells.
ghost use Rattle.std.specs.Prelude.{◌≡◌, ◌<◌, ◌++◌, length, map, All, IfOk, OnOk};
ghost use Rattle.vtl_rows.specs.Gathered.{picked, picked_cell, picked_kind, pieces};
ghost use Rattle.vtl_rows.specs.Places.{row_at};
ghost use Rattle.vtl_rows.specs.Tables.{AllFit, column_kinds, listed};

use crate::copies::append_copies;
use crate::order::{AHEAD, begins_block, row_or_none};
use crate::project::{copied_columns, copy_at};
use crate::{Column, Table};
use std::alloc::{AllocError, Global};
use vtl_cell::Cell;

/// Where a cell of a row that is put together comes from.
#[derive(Clone, Copy, Debug, PartialEq, Eq)]
pub struct Pick {
    /// The place of the part.
    pub part: usize,
    /// The place of the column in it.
    pub column: usize,
}

impl Table {
    /// The rows at these places, in this order, below the same columns; texts are shared. It fails only if memory runs
    /// out.
    pub fn gather(&self, alloc: Global, rows: &[usize]) -> Result<Table, AllocError>
        requires { All (λ i. i < length self.now.rows) rows.now }
        ensures columns { IfOk result (λ t. t.columns ≡ self.now.columns) }
        ensures rows { IfOk result (λ t. t.rows ≡ map (row_at self.now.rows) rows.now) }
    {
        let mut gathered = Table::new(alloc, copied_columns(alloc, self.columns())?);
        gathered.reserve_rows(rows.len())?;
        let mut row = Vec::new(alloc);
        for i in 0..rows.len() {
            fetch_ahead(&mut row, self, rows, i)?;
            append_copies(&mut row, self.row(rows[i]))?;
            gathered.push_moved(&mut row)?;
        }
        Ok(gathered)
    }
}

// Fetches the next rows where a block of them begins. Their sum is looked at so that they are fetched; it never is so
// much that room is made.
fn fetch_ahead(
    cells: &mut Vec<Cell>,
    table: &Table,
    places: &[usize],
    i: usize,
) -> Result<(), AllocError>
    requires { i < length places.now }
    ensures { cells.new.items ≡ cells.old.items }
{
    if begins_block(i) && whole_rows_fetched(table, &places[i..]) == usize::MAX {
        cells.reserve(1)?;
    }
    Ok(())
}

// Something of every cell of the first rows at these places, as in `fetched`.
fn whole_rows_fetched(table: &Table, places: &[usize]) -> usize {
    let mut sum = 0usize;
    for place in &places[..places.len().min(AHEAD)] {
        for cell in row_or_none(table, *place) {
            sum = sum.saturating_add(length_of(cell));
        }
    }
    sum
}

// The length of a text, which stands where its owners are counted; another cell counts as one.
fn length_of(cell: &Cell) -> usize {
    match cell {
        Cell::Text(text) => text.as_str().len(),
        _ => 1,
    }
}

/// Rows that are put together from rows of several tables, the parts: for each tuple of row numbers, one for each part,
/// the cells that are picked. The tuples stand one after the other; numbers left at their end are no tuple. A number
/// past a part's last row stands for a missing part, whose cells are null, as are those past a part's last column. Each
/// cell is copied once, texts are shared. It fails only if memory runs out.
pub fn gather_beside(
    alloc: Global,
    parts: &[&Table],
    tuples: &[usize],
    picks: &[Pick],
    columns: Vec<Column>,
) -> Result<Table, AllocError>
    requires some { 0 < length columns.items }
    requires within { All (λ p. p.part < length parts.now) picks.now }
    requires kinds { column_kinds columns.items ≡ map (picked_kind (map (λ t. listed t.now) parts.now)) picks.now }
    ensures columns { IfOk result (λ t. t.columns ≡ columns.items) }
    ensures rows { IfOk result (λ t. t.rows ≡ map (picked (map (λ t. listed t.now) parts.now) picks.now) (pieces (length parts.now) tuples.now)) }
{
    parts_fit(parts);
    let mut table = Table::new(alloc, columns);
    table.reserve_rows(tuples.len() / parts.len())?;
    let mut row = Vec::new(alloc);
    for tuple in tuples.chunks_exact(parts.len()) {
        append_picked(&mut row, parts, tuple, picks)?;
        table.push_moved(&mut row)?;
    }
    Ok(table)
}

// The rows of every part fit its columns, as each part tells of itself.
fn parts_fit(parts: &[&Table])
    ensures { All (λ t. AllFit t.columns t.rows) (map (λ t. listed t.now) parts.now) }
{
    for part in parts {
        part.columns();
    }
}

// Puts the cells that are picked for a tuple after others.
fn append_picked(
    cells: &mut Vec<Cell>,
    parts: &[&Table],
    tuple: &[usize],
    picks: &[Pick],
) -> Result<(), AllocError>
    requires whole { length tuple.now ≡ length parts.now }
    requires within { All (λ p. p.part < length parts.now) picks.now }
    ensures { OnOk result (cells.new.items ≡ cells.old.items ++ picked (map (λ t. listed t.now) parts.now) picks.now tuple.now) }
{
    for pick in picks {
        cells.push(picked_cell(parts, tuple, *pick)?)?;
    }
    Ok(())
}

// A cell equal to the one that is picked for a tuple.
fn picked_cell(parts: &[&Table], tuple: &[usize], pick: Pick) -> Result<Cell, AllocError>
    requires part { pick.part < length parts.now }
    requires number { pick.part < length tuple.now }
    ensures { IfOk result (λ cell. cell ≡ picked_cell (map (λ t. listed t.now) parts.now) tuple.now pick) }
{
    let row = row_or_none(parts[pick.part], tuple[pick.part]);
    copy_at(row, pick.column)
}
