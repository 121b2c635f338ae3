// What the selects of a query gave so far.
//
// A row is put into the table only while no fault was seen. Its cells fit the columns by the kinds of its items
// alone, whatever other rows have: the law that a typed query's rows fit says nothing where a later row has a fault.
//
// Each outcome is told by what it adds (`Adds`): the columns stay, its fault joins the one that was seen, and its
// rows stand behind the others unless one was. Rows of a select and selects of a union go by the one relation and the
// one lemma (`added_more`).
ghost use Rattle.std.specs.Prelude.{◌≡◌, ◌<◌, ◌++◌, ◌∷◌, [], true, List, drop, length, map, None, Ok, IfErr, OnOk};
ghost use Rattle.vtl_cell.specs.Row.{Row};
ghost use Rattle.vtl_cell.specs.Outcome.{unless};
ghost use Rattle.vtl_rows.specs.Tables.{fits};
ghost use Rattle.sql_meaning.specs.Outcomes.{row_at, row_fault};
ghost use Rattle.vtl_scalar.specs.Seen.{answer_of};
ghost use Rattle.sql_exec.specs.ItemCells.{next_value, values_in};
ghost use Rattle.sql_exec.specs.Items.{made_at_row};
ghost use Rattle.sql_exec.specs.Outputs.{Adds, Sees, fault_seen};

use crate::item_cells::{ItemCells, push_across};
use crate::items::{RowItem, push_items};
use sql_eval::Cells;
use std::alloc::{AllocError, Global};
use vtl_cell::Cell;
use vtl_decimal::Profile;
use vtl_rows::{Column, Table};
use vtl_scalar::{ScalarErr, Seen};

// For so many rows room is made at once.
const ROWS_AHEAD: usize = 1024;

/// A table of the rows so far, the list in which the next one is made, and the fault that was seen. Once there is one,
/// no further rows are put into the table.
pub(crate) struct Output {
    pub(crate) table: Table,
    pub(crate) cells: Vec<Cell>,
    pub(crate) seen: Seen,
}

// Written out, so that each owner sees one call and not the drop of each part.
impl Drop for Output {
    fn drop(self) {
        let Output {
            table: _table,
            cells: _cells,
            seen: _seen,
        } = self;
    }
}

impl Output {
    /// No rows.
    pub(crate) fn new(alloc: Global, columns: Vec<Column>) -> Output
        requires { 0 < length columns.items }
        ensures columns { result.table.columns ≡ columns.items }
        ensures rows { result.table.rows ≡ [] }
        ensures fault { fault_seen result ≡ None }
    {
        Output {
            table: Table::new(alloc, columns),
            cells: Vec::new(alloc),
            seen: Seen::Nothing,
        }
    }

    // Moves the row that is made behind the others.
    fn push_made(&mut self) -> Result<(), AllocError>
        requires { fits self.old.table.columns self.old.cells.items ≡ true }
        ensures columns { self.new.table.columns ≡ self.old.table.columns }
        ensures rows { OnOk result (self.new.table.rows ≡ self.old.table.rows ++ self.old.cells.items ∷ []) }
        ensures seen { self.new.seen ≡ self.old.seen }
    {
        if self.table.spare_rows() == 0 {
            self.table.reserve_rows(ROWS_AHEAD)?;
        }
        self.table.push_cells(&mut self.cells);
        Ok(())
    }

    /// Adds the row of the values of items at a row of FROM of this number.
    pub(crate) fn add_row<R: Cells>(
        &mut self,
        alloc: Global,
        items: &[RowItem],
        at: &R,
        number: usize,
        p: &Profile,
    ) -> Result<(), ScalarErr>
        requires row { R.group at.now ≡ [] }
        requires fits { row_fault (made_at_row p.now (R.tables at.now)) items.now (R.cells at.now, number) ≡ None → fits self.old.table.columns (row_at (made_at_row p.now (R.tables at.now)) items.now (R.cells at.now, number)) ≡ true }
        ensures adds { OnOk result (Adds (unless (row_fault (made_at_row p.now (R.tables at.now)) items.now (R.cells at.now, number)) (row_at (made_at_row p.now (R.tables at.now)) items.now (R.cells at.now, number) ∷ [])) self.old self.new) }
        ensures err { IfErr result (λ e. e ≡ ScalarErr.OutOfMemory) }
    {
        self.cells.clear();
        self.seen = push_items(alloc, &mut self.cells, self.seen, items, at, number, p)?;
        if let Seen::Nothing = self.seen {
            self.push_made()?;
        }
        Ok(())
    }

    /// Adds the row of the values of items at the next row of FROM, which is this one.
    pub(crate) fn add_across(
        &mut self,
        items: &mut [ItemCells],
        row: &[Cell],
        p: &Profile,
    ) -> Result<(), ScalarErr>
        requires { row_fault (next_value p.now) items.old row.now ≡ None → fits self.old.table.columns (row_at (next_value p.now) items.old row.now) ≡ true }
        ensures adds { OnOk result (Adds (unless (row_fault (next_value p.now) items.old row.now) (row_at (next_value p.now) items.old row.now ∷ [])) self.old self.new) }
        ensures others { OnOk result ((rows : List Row) → map (values_in p.now rows) items.new ≡ map (λ x. drop 1 (values_in p.now (row.now ∷ rows) x)) items.old) }
        ensures err { IfErr result (λ e. e ≡ ScalarErr.OutOfMemory) }
    {
        self.cells.clear();
        self.seen = push_across(&mut self.cells, self.seen, items, row, p)?;
        if let Seen::Nothing = self.seen {
            self.push_made()?;
        }
        Ok(())
    }

    /// Adds the rows of a table below the same columns. It takes the place of a table of no rows, and else its cells are
    /// moved. It fails only if memory runs out.
    pub(crate) fn add_table(&mut self, table: Table) -> Result<(), AllocError>
        requires { table.columns ≡ self.old.table.columns }
        ensures { OnOk result (Adds (Ok table.rows) self.old self.new) }
    {
        let Seen::Nothing = self.seen else {
            return Ok(());
        };
        if self.table.len() == 0 {
            self.table = table;
            return Ok(());
        }
        self.table.append(table)
    }

    /// Sees a fault. That memory ran out is no such fault, and is passed on.
    pub(crate) fn see(&mut self, error: ScalarErr) -> Result<(), ScalarErr>
        ensures table { self.new.table ≡ self.old.table }
        ensures fault { OnOk result (Sees error self.old self.new) }
        ensures err { IfErr result (λ e. e ≡ ScalarErr.OutOfMemory) }
    {
        self.seen = self.seen.and(error)?;
        Ok(())
    }

    /// The table, unless a fault was seen.
    pub(crate) fn finish(self) -> Result<Table, ScalarErr>
        ensures { result ≡ answer_of (unless (fault_seen self) self.table) }
    {
        let Output {
            table,
            cells: _cells,
            seen,
        } = self;
        seen.unless(table)
    }
}
