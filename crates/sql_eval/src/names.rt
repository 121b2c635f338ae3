// Where the cells of columns stand.
ghost use Rattle.std.specs.Prelude.{◌≡◌, IfOk};
ghost use Rattle.sql_check_parts.specs.Exists.{inner_of};
ghost use Rattle.sql_check_parts.specs.Scopes.{Scope, Tables, found};
ghost use Rattle.sql_meaning.specs.Tables.{columns_named};
ghost use Rattle.sql_meaning.specs.Values.{inner_scope, place_in};
ghost use Rattle.sql_eval.specs.Origins.{IsSeriesOf};
ghost use Rattle.sql_eval.specs.Resolves.{place_at};

use crate::{GroupColumns, SeriesPlaces};
use sql_tree::{Column, Series, Source};
use std::alloc::{AllocError, Global};
use vtl_cell::Kind;
use vtl_text::Txt;

/// The tables before a statement, and the sources of a select: which kinds the columns have, and where their cells
/// stand.
pub trait Names {
    ghost tables: { Self → Tables };

    ghost scope: { Self → Scope };

    /// The kind of a column of the sources, if there is such a one.
    fn kind(&self, column: &Column) -> Option<Kind>
        ensures { result ≡ found (scope self.now) column.now };

    /// The place of a column in a row of FROM; of one that no source has, past the last cell.
    fn place(&self, column: &Column) -> usize
        ensures { result ≡ place_in (scope self.now) column.now };

    /// The place of a column in a row of the source of EXISTS; of one that it has not, past the last cell. It fails only
    /// if memory runs out.
    fn inner_place(
        &self,
        alloc: Global,
        source: &Source,
        column: &Column,
    ) -> Result<usize, AllocError>
        ensures { IfOk result (λ place. place ≡ place_in (inner_scope (inner_of (tables self.now) source.now)) column.now) };

    /// The places of the columns of a SERIES in a row of its table; of one that it has not, past the last cell. It fails
    /// only if memory runs out.
    fn series_places(
        &self,
        alloc: Global,
        table: &Txt,
        series: &Series,
    ) -> Result<SeriesPlaces, AllocError>
        ensures { IfOk result (IsSeriesOf (columns_named (tables self.now) table.now) series.now) };
}

/// What an expression stands at.
#[derive(Clone, Copy)]
pub enum Level<'a> {
    /// Rows of FROM.
    Rows,
    /// Groups, by the columns of GROUP BY: a row holds their cells.
    Groups(&'a GroupColumns<'a>),
}

/// The place of a column in the row that an expression sees.
pub(crate) fn place_at<N: Names>(names: &N, level: &Level<'_>, column: &Column) -> usize
    ensures { result ≡ place_at (N.scope names.now) level.now column.now }
{
    match level {
        Level::Rows => names.place(column),
        Level::Groups(columns) => columns.place(column),
    }
}
