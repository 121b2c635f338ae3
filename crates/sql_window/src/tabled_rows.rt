// Rows of FROM with a table of them.
//
// The sort is that of tables: windows go over a table of the rows of FROM (`TabledRows`), so that the sorts of
// `vtl_rows` serve, which go by ranks and which no choice of cells makes slow. Where the table of the only source is
// lent, no cell is copied; else a table is made, whose texts are shared.
ghost use Rattle.std.specs.Prelude.{◌≡◌, ◌<◌, length, slice_index_or, IfOk};
ghost use Rattle.sql_check_parts.specs.Scopes.{row_of};
ghost use Rattle.sql_from.specs.Sources.{scope_held};
ghost use Rattle.sql_from.specs.Standing.{rows_for};
ghost use Rattle.sql_window.specs.TabledRows.{table_in};

use sql_from::{Sources, TupleRows};
use std::alloc::{AllocError, Global};
use vtl_cell::Cell;
use vtl_rows::Table;

// A table of rows of FROM.
pub(crate) enum RowTable<'a> {
    // The table of the only source, of which each row is there once, in order.
    Lent(&'a Table),
    // One that is made of the rows.
    Made(Table),
}

// Written out, so that an owner sees one call.
impl Drop for RowTable<'_> {
    fn drop(self) {
        match self {
            RowTable::Lent(_) => {}
            RowTable::Made(_table) => {}
        }
    }
}

impl<'a> RowTable<'a> {
    // The table.
    fn table(&self) -> &Table
        ensures { result.now ≡ table_in self.now }
    {
        match self {
            RowTable::Lent(table) => table,
            RowTable::Made(table) => table,
        }
    }
}

/// Rows of FROM with a table of them, over which windows go.
pub struct TabledRows<'a> {
    rows: &'a TupleRows<'a>,
    table: RowTable<'a>,
    ghost is_wide: { length (table_in table).columns ≡ length (row_of (scope_held rows.now.sources.sources)) },
    ghost is_of: { (table_in table).rows ≡ rows_for rows.now.sources rows.now.tuples },
}

// Written out, so that a proof above sees one call and not the drop of each part.
impl Drop for TabledRows<'_> {
    fn drop(self) {
        let TabledRows {
            rows: _,
            table: _table,
        } = self;
    }
}

// A table of these rows.
fn row_table<'a>(alloc: Global, rows: &'a TupleRows<'a>) -> Result<RowTable<'a>, AllocError>
    ensures wide { IfOk result (λ t. length (table_in t).columns ≡ length (row_of (scope_held rows.now.sources.sources))) }
    ensures rows { IfOk result (λ t. (table_in t).rows ≡ rows_for rows.now.sources rows.now.tuples) }
{
    match rows.lent_table() {
        Some(table) => Ok(RowTable::Lent(table)),
        None => Ok(RowTable::Made(rows.table(alloc)?)),
    }
}

impl<'a> TabledRows<'a> {
    /// These rows. The table of their only source is lent, where each of its rows is there once, in order; else a table
    /// is made, whose texts are shared. It fails only if memory runs out.
    pub fn of(alloc: Global, rows: &'a TupleRows<'a>) -> Result<TabledRows<'a>, AllocError>
        ensures { IfOk result (λ t. t.rows.now ≡ rows.now) }
    {
        Ok(TabledRows {
            rows,
            table: row_table(alloc, rows)?,
        })
    }

    /// The sources.
    pub(crate) fn sources(&self) -> &Sources<'a>
        ensures { result.now ≡ self.now.rows.now.sources }
    {
        &self.rows.sources
    }

    /// The table.
    pub(crate) fn table(&self) -> &Table
        ensures wide { length result.now.columns ≡ length (row_of (scope_held self.now.rows.now.sources.sources)) }
        ensures rows { result.now.rows ≡ rows_for self.now.rows.now.sources self.now.rows.now.tuples }
    {
        self.table.table()
    }

    /// How many rows there are.
    pub fn len(&self) -> usize
        ensures { result ≡ length (rows_for self.now.rows.now.sources self.now.rows.now.tuples) }
    {
        self.table().len()
    }

    /// The cells of a row.
    pub fn row(&self, i: usize) -> &[Cell]
        requires { i < length (rows_for self.now.rows.now.sources self.now.rows.now.tuples) }
        ensures { result.now ≡ slice_index_or (rows_for self.now.rows.now.sources self.now.rows.now.tuples) i result.now }
    {
        self.table().row(i)
    }
}
