// Rows of FROM as tuples of row numbers.
ghost use Rattle.std.proofs.Props.{props};
ghost use Rattle.std.specs.Prelude.{◌≡◌, ◌<◌, ◌∷◌, ◌++◌, [], length, map, slice_index_or, All, IfOk, IfSome};
ghost use Rattle.vtl_cell.specs.Row.{column_of};
ghost use Rattle.vtl_rows.specs.Tables.{cells_at, column_kinds};
ghost use Rattle.sql_check_parts.specs.Scopes.{row_of};
ghost use Rattle.sql_from.specs.Columns.{kinds_at, source_columns};
ghost use Rattle.sql_from.specs.Rows.{combined, pick_for};
ghost use Rattle.sql_from.specs.Sources.{parts_of, scope_held};
ghost use Rattle.sql_from.specs.Standing.{rows_for};

use crate::lent_table::lent_table;
use crate::{PartneredRow, Partners, Sources, TupleRow, Tuples};
use std::alloc::{AllocError, Global};
use vtl_cell::Cell;
use vtl_rows::{Column, Pick, Table, gather_beside};

/// Rows of FROM: the sources of the select, and for each row a tuple with the number of a row of each source. Where these
/// are the rows of the only source, each once and in order, cells are read in its table, and no tuple is.
pub struct TupleRows<'a> {
    /// The sources.
    pub sources: Sources<'a>,
    /// The tuples, with a number for each source.
    pub tuples: Tuples,
    lent: Option<&'a Table>,
    ghost is_whole: { tuples.width ≡ length sources.sources },
    ghost lends_kinds: { IfSome lent (λ t. column_kinds t.now.columns ≡ row_of (scope_held sources.sources)) } by { Prim.hlevel props },
    ghost lends_rows: { IfSome lent (λ t. t.now.rows ≡ rows_for sources tuples) } by { Prim.hlevel props },
}

// Written out, so that a proof above sees one call and not the drop of each part.
impl Drop for TupleRows<'_> {
    fn drop(self) {
        let TupleRows {
            sources: _sources,
            tuples: _tuples,
            lent: _,
        } = self;
    }
}

impl<'a> TupleRows<'a> {
    /// The rows of these tuples.
    pub(crate) fn of(sources: Sources<'a>, tuples: Tuples) -> TupleRows<'a>
        requires { tuples.width ≡ length sources.sources }
        ensures sources { result.sources ≡ sources.entry }
        ensures tuples { result.tuples ≡ tuples }
    {
        let lent = lent_table(&sources, &tuples);
        TupleRows {
            sources,
            tuples,
            lent,
        }
    }

    /// How many rows there are.
    pub fn len(&self) -> usize
        ensures tuples { result ≡ length self.now.tuples.tuples }
        ensures rows { result ≡ length (rows_for self.now.sources self.now.tuples) }
    {
        self.tuples.len()
    }

    /// The row at a place.
    pub fn row(&self, i: usize) -> TupleRow<'_>
        requires { i < length self.now.tuples.tuples }
        ensures sources { result.sources.now ≡ self.now.sources }
        ensures tuple { result.front.now ++ result.last ∷ [] ≡ slice_index_or self.now.tuples.tuples i [] }
        ensures row { combined (parts_of result.sources.now.sources) (result.front.now ++ result.last ∷ []) ≡ slice_index_or (rows_for self.now.sources self.now.tuples) i [] }
    {
        TupleRow::whole(&self.sources, self.tuples.tuple(i))
    }

    /// The cell at a place of a row; past its last cell a null.
    pub fn cell(&self, i: usize, place: usize) -> &Cell
        requires { i < length self.now.tuples.tuples }
        ensures { result.now ≡ column_of place (slice_index_or (rows_for self.now.sources self.now.tuples) i []) }
    {
        match self.lent {
            Some(table) => self.sources.cell_in(table, i, place),
            None => {
                let row = self.row(i);
                row.sources.cell(row.front, row.last, place)
            }
        }
    }

    /// The table of the only source, if these are its rows, each once and in order.
    pub fn lent_table(&self) -> Option<&'a Table>
        ensures kinds { IfSome result (λ t. column_kinds t.now.columns ≡ row_of (scope_held self.now.sources.sources)) }
        ensures rows { IfSome result (λ t. t.now.rows ≡ rows_for self.now.sources self.now.tuples) }
    {
        self.lent
    }

    /// The row at a place, with look-ups for the EXISTS that are asked at it.
    pub fn partnered<'p>(&'p self, i: usize, partners: &'p Partners<'p>) -> PartneredRow<'p>
        requires place { i < length self.now.tuples.tuples }
        requires same { partners.now ≡ self.now.sources }
        ensures sources { result.row.sources.now ≡ self.now.sources }
        ensures row { combined (parts_of result.row.sources.now.sources) (result.row.front.now ++ result.row.last ∷ []) ≡ slice_index_or (rows_for self.now.sources self.now.tuples) i [] }
    {
        PartneredRow::at(self.row(i), partners)
    }

    /// A table of these rows: the columns of the sources in order, each named by the alias, a line feed and its name.
    /// Each cell is copied once, texts are shared. It fails only if memory runs out.
    pub fn table(&self, alloc: Global) -> Result<Table, AllocError>
        ensures columns { IfOk result (λ t. t.columns ≡ source_columns (scope_held self.now.sources.sources)) }
        ensures rows { IfOk result (λ t. t.rows ≡ rows_for self.now.sources self.now.tuples) }
    {
        let tables = self.sources.tables(alloc)?;
        let columns = self.sources.columns(alloc)?;
        gather_beside(
            alloc,
            &tables,
            self.tuples.numbers(),
            self.sources.picks(),
            columns,
        )
    }

    /// A table of the cells at these places of each of these rows, below columns of their kinds. Each cell is copied
    /// once, texts are shared. It fails only if memory runs out.
    pub fn gathered(
        &self,
        alloc: Global,
        places: &[usize],
        columns: Vec<Column>,
    ) -> Result<Table, AllocError>
        requires some { 0 < length columns.items }
        requires within { All (λ i. i < length (row_of (scope_held self.now.sources.sources))) places.now }
        requires kinds { column_kinds columns.items ≡ kinds_at places.now (row_of (scope_held self.now.sources.sources)) }
        ensures columns { IfOk result (λ t. t.columns ≡ columns.items) }
        ensures rows { IfOk result (λ t. t.rows ≡ map (cells_at places.now) (rows_for self.now.sources self.now.tuples)) }
    {
        let tables = self.sources.tables(alloc)?;
        let picks = chosen_picks(alloc, self.sources.picks(), places)?;
        gather_beside(alloc, &tables, self.tuples.numbers(), &picks, columns)
    }
}

// The picks at these places.
fn chosen_picks(alloc: Global, picks: &[Pick], places: &[usize]) -> Result<Vec<Pick>, AllocError>
    requires { All (λ i. i < length picks.now) places.now }
    ensures { IfOk result (λ chosen. chosen.items ≡ map (pick_for picks.now) places.now) }
{
    let mut chosen = Vec::with_capacity(alloc, places.len())?;
    for place in places {
        chosen.push(picks[*place])?;
    }
    Ok(chosen)
}
