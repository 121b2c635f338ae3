// Tables with several owners.
//
// A table with several owners has columns of its own above cells that are shared (`SharedTable`): what reads an input
// holds it and copies nothing, `rename` and a `keep` of all columns share the cells below other names, and cells are
// copied only where a table with other owners is changed.
ghost use Rattle.std.specs.Prelude.{◌≡◌, ◌<◌, length, map, All, IfOk};
ghost use Rattle.vtl_rows.specs.Tables.{cells_at, column_at, column_kinds, listed};

use crate::{Column, Table};
use std::alloc::{AllocError, Global};
use std::marker::Model;

/// A table whose rows may have several owners, each with columns of its own. A contract sees the table.
pub struct SharedTable {
    table: Table,
}

// Written out, so that a proof above sees one call and not the drop of each part.
impl Drop for SharedTable {
    fn drop(self) {
        let SharedTable { table: _table } = self;
    }
}

impl Model for SharedTable {
    ghost use Rattle.vtl_rows.specs.Tables.{Listed, listed};

    ghost Value = { Listed };

    ghost view = { λ t. listed t.table };
}

impl SharedTable {
    /// A table with one owner. It fails only if memory runs out.
    pub fn of(alloc: Global, table: Table) -> Result<SharedTable, AllocError>
        ensures { IfOk result (λ t. t ≡ listed table) }
    {
        Ok(SharedTable {
            table: table.into_shared(alloc)?,
        })
    }

    // A table with one owner, whose rows are copied for another one. It takes no memory.
    pub(crate) fn holding(table: Table) -> SharedTable
        ensures { result ≡ listed table }
    {
        SharedTable { table }
    }

    // The table itself, whose rows may have other owners. It takes no memory.
    pub(crate) fn into_held(self) -> Table
        ensures { listed result ≡ self }
    {
        let SharedTable { table } = self;
        table
    }

    /// One more owner of the rows. It fails only if memory runs out.
    pub fn share(&self) -> Result<SharedTable, AllocError>
        ensures { IfOk result (λ t. t ≡ self.now) }
    {
        Ok(SharedTable {
            table: self.table.share()?,
        })
    }

    /// The table.
    pub fn table(&self) -> &Table
        ensures { listed result.now ≡ self.now }
    {
        &self.table
    }

    /// The table itself: its rows are copied where they have other owners. It fails only if memory runs out.
    pub fn into_table(self, alloc: Global) -> Result<Table, AllocError>
        ensures { IfOk result (λ t. listed t ≡ self) }
    {
        let SharedTable { table } = self;
        table.into_own(alloc)
    }

    /// The columns at these places, as `Table::into_projected` gives them. It fails only if memory runs out.
    pub fn into_projected(self, alloc: Global, columns: &[usize]) -> Result<SharedTable, AllocError>
        requires some { 0 < length columns.now }
        requires within { All (λ i. i < length self.columns) columns.now }
        ensures columns { IfOk result (λ t. t.columns ≡ map (column_at self.columns) columns.now) }
        ensures rows { IfOk result (λ t. t.rows ≡ map (cells_at columns.now) self.rows) }
    {
        let SharedTable { table } = self;
        let table = table.into_projected(alloc, columns)?;
        SharedTable::of(alloc, table)
    }

    /// The same rows below other columns, of the same kinds as before: no cell is copied. It takes no memory.
    pub fn with_columns(self, columns: Vec<Column>) -> SharedTable
        requires { column_kinds columns.items ≡ column_kinds self.columns }
        ensures columns { result.columns ≡ columns.items }
        ensures rows { result.rows ≡ self.rows }
    {
        let SharedTable { table } = self;
        SharedTable {
            table: table.with_columns(columns),
        }
    }
}
