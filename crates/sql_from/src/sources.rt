// The sources of a select.
//
// Where each cell stands is a list of picks (`picks_from`), as `vtl_rows` puts rows together: the same list serves a
// look-up by place and the table that is made at the end.
ghost use Rattle.std.specs.List.{AllByRecursion};
ghost use Rattle.std.specs.Option.{option_copied, option_map};
ghost use Rattle.std.specs.Prelude.{◌≡◌, ◌+◌, ◌<◌, ◌≤◌, ◌^◌, ◌++◌, ◌∷◌, [], length, map, slice_get, Some, IfOk, IfSome, OnOk};
ghost use Rattle.vtl_cell.specs.Row.{column_of};
ghost use Rattle.vtl_cell.specs.declared.cell.Cell.TheVariants.{Null};
ghost use Rattle.vtl_rows.specs.Places.{row_at};
ghost use Rattle.vtl_rows.specs.Tables.{listed};
ghost use Rattle.sql_check_parts.specs.Scopes.{found, placed};
ghost use Rattle.sql_check_laws.specs.Selects.{IsSourceTyped};
ghost use Rattle.sql_meaning.specs.Tables.{column_entry};
ghost use Rattle.sql_from.specs.Columns.{columns_below, line_feed, source_columns};
ghost use Rattle.sql_from.specs.FromTables.{maybe_given};
ghost use Rattle.sql_from.specs.Held.{IsHeld, tables_held};
ghost use Rattle.sql_from.specs.Joins.{marks_of};
ghost use Rattle.sql_from.specs.Keys.{IsSpot, last_of, spot_of};
ghost use Rattle.sql_from.specs.Partners.{IsPickOf};
ghost use Rattle.sql_from.specs.Rows.{combined, picks_at, picks_from, width_of};
ghost use Rattle.sql_from.specs.Sources.{IsWide, parts_of, scope_held, table_given};

use crate::columns::ColumnAt;
use crate::series_names::{place_in_series, place_in_table};
use crate::series_places::series_places;
use crate::{Given, HeldTable};
use sql_eval::{Names, SeriesPlaces};
use sql_tree::{Column, Series, Source};
use std::alloc::{AllocError, Global};
use std::marker::Model;
use vtl_cell::{Cell, Kind};
use vtl_rows::{Column as TableColumn, Pick, Table};
use vtl_text::{ByName, Txt, concat};

// A table that is a source, and where the cell of its first column stands in a row of FROM.
pub(crate) struct SourceTable<'a> {
    pub(crate) table: &'a HeldTable,
    pub(crate) first: usize,
}

// Written out, so that a proof sees one call and not the drop of each part.
impl Drop for SourceTable<'_> {
    fn drop(self) {
        let SourceTable { table: _, first: _ } = self;
    }
}

/// All tables that are given, and the sources of a select from the left, each an alias with its table. Where
/// the cell of each column stands is worked out once for a select. A contract sees the tables by name, and the sources
/// by alias.
pub struct Sources<'a> {
    held: &'a Given<'a>,
    sources: ByName<SourceTable<'a>>,
    picks: Vec<Pick>,
    null: Cell,
}

// Written out, so that a proof above sees one call and not the drop of each part.
impl Drop for Sources<'_> {
    fn drop(self) {
        let Sources {
            held: _,
            sources: _sources,
            picks: _picks,
            null: _null,
        } = self;
    }
}

impl<'a> Model for Sources<'a> {
    ghost use Rattle.std.specs.Prelude.{map};
    ghost use Rattle.sql_from.specs.Sources.{AreSources, Sourced, source_of};

    ghost Value = { Sourced };

    ghost view = { λ s. record { held = s.held.now; sources = map source_of s.sources } };

    ghost invariant = { λ s. AreSources s.held.now s.sources s.picks.items s.null };
}

// Puts the places of the columns of a source behind others.
fn push_picks(picks: &mut Vec<Pick>, part: usize, count: usize) -> Result<(), AllocError>
    ensures { OnOk result (picks.new.items ≡ picks.old.items ++ picks_at part count) }
{
    for column in 0..count {
        picks.push(Pick { part, column })?;
    }
    Ok(())
}

fn with_line_feed(alloc: Global, alias: &Txt) -> Result<Txt, AllocError>
    ensures { IfOk result (λ t. t ≡ alias.now ++ line_feed ∷ []) }
{
    concat(alloc, alias.as_str(), "\n")
}

// Puts the columns of a source behind others, each named by the alias, a line feed and its name.
fn push_columns(
    alloc: Global,
    columns: &mut Vec<TableColumn>,
    alias: &Txt,
    own: &[TableColumn],
) -> Result<(), AllocError>
    ensures { OnOk result (columns.new.items ≡ columns.old.items ++ columns_below alias.now (map column_entry own.now)) }
{
    let above = with_line_feed(alloc, alias)?;
    for column in own {
        columns.push(TableColumn {
            name: concat(alloc, above.as_str(), column.name.as_str())?,
            kind: column.kind,
        })?;
    }
    Ok(())
}

impl<'a> Sources<'a> {
    /// No sources, over the tables that are given.
    pub fn over(alloc: Global, held: &'a Given<'a>) -> Sources<'a>
        ensures held { result.held ≡ held.now }
        ensures sources { result.sources ≡ [] }
    {
        Sources {
            held,
            sources: ByName::new(alloc),
            picks: Vec::new(alloc),
            null: Cell::Null,
        }
    }

    /// With one source more, whose table is there and whose alias is new. It fails only if memory runs out.
    pub fn with(
        self,
        source: &Source,
        table: Option<&'a HeldTable>,
    ) -> Result<Sources<'a>, AllocError>
        requires typed { IsSourceTyped (tables_held self.held) (scope_held self.sources) source.now }
        requires table { option_copied table ≡ maybe_given self.held source.now }
        ensures held { IfOk result (λ s. s.held ≡ self.entry.held) }
        ensures wide { IfOk result (λ s. AllByRecursion IsWide (parts_of s.sources)) }
        ensures sources { IfOk result (λ s. s.sources ≡ self.entry.sources ++ (source.now.alias, table_given self.entry.held source.now) ∷ []) }
    {
        let Sources {
            held,
            sources,
            picks,
            null,
        } = self;
        let mut sources = sources;
        let mut picks = picks;
        let table = table.unwrap();
        let first = picks.len();
        push_picks(&mut picks, sources.len(), table.table().columns().len())?;
        sources.put(source.alias.share()?, SourceTable { table, first })?;
        Ok(Sources {
            held,
            sources,
            picks,
            null,
        })
    }

    /// The tables that are given.
    pub fn held(&self) -> &'a Given<'a>
        ensures { result.now ≡ self.now.held }
    {
        self.held
    }

    /// How many sources there are.
    pub fn len(&self) -> usize
        ensures count { result ≡ length self.now.sources }
        ensures held { AllByRecursion (IsHeld self.now.held) (parts_of self.now.sources) }
    {
        self.sources.len()
    }

    /// The table of the source at a place. Its integers are of the profile where those of all tables are.
    pub fn table(&self, i: usize) -> &'a Table
        requires { i < length self.now.sources }
        ensures source { slice_get (parts_of self.now.sources) i ≡ Some (listed result.now) }
        ensures held { IsHeld self.now.held (listed result.now) }
    {
        let (_, source) = self.sources.at(i);
        source.table.table()
    }

    // How many rows the table of the last source has.
    pub(crate) fn last_count(&self) -> usize
        requires { 0 < length self.now.sources }
        ensures { result ≡ length (last_of self.now).rows }
    {
        self.table(self.len() - 1).len()
    }

    // The numbers of missing parts, one for each source.
    pub(crate) fn marks(&self, alloc: Global) -> Result<Vec<usize>, AllocError>
        ensures { IfOk result (λ v. v.items ≡ marks_of (parts_of self.now.sources)) }
    {
        let mut marks = Vec::with_capacity(alloc, self.len())?;
        for i in 0..self.len() {
            marks.push(self.table(i).len())?;
        }
        Ok(marks)
    }

    // The tables of the sources.
    pub(crate) fn tables(&self, alloc: Global) -> Result<Vec<&'a Table>, AllocError>
        ensures { IfOk result (λ v. map (λ t. listed t.now) v.items ≡ parts_of self.now.sources) }
    {
        let mut tables = Vec::with_capacity(alloc, self.len())?;
        for i in 0..self.len() {
            tables.push(self.table(i))?;
        }
        Ok(tables)
    }

    // Where the cells of a row stand: the place of a source, and that of a column of its table.
    pub(crate) fn picks(&self) -> &[Pick]
        ensures { result.now ≡ picks_from 0 (parts_of self.now.sources) }
    {
        self.picks.as_slice()
    }

    // The columns of the sources, each named by the alias, a line feed and its name.
    pub(crate) fn columns(&self, alloc: Global) -> Result<Vec<TableColumn>, AllocError>
        ensures columns { IfOk result (λ v. v.items ≡ source_columns (scope_held self.now.sources)) }
        ensures some { IfOk result (λ v. length self.now.sources ≤ length v.items) }
    {
        let mut columns = Vec::with_capacity(alloc, self.picks.len())?;
        for i in 0..self.len() {
            let (alias, source) = self.sources.at(i);
            let own = source.table.table().columns();
            push_columns(alloc, &mut columns, alias, own)?;
        }
        Ok(columns)
    }

    // What is known of a column.
    fn column(&self, column: &Column) -> Option<ColumnAt>
        ensures kind { option_map (λ c. c.kind) result ≡ found (scope_held self.now.sources) column.now }
        ensures place { option_map (λ c. c.place) result ≡ found (placed (scope_held self.now.sources)) column.now }
    {
        let source = self.sources.get(&column.source)?;
        let own = source.table.column(&column.name)?;
        Some(ColumnAt {
            place: source.first + own.place,
            kind: own.kind,
        })
    }

    // Where the cell of a column stands: the place of its source, and that of the column in its table.
    pub(crate) fn spot(&self, column: &Column) -> Option<Pick>
        ensures spot { result ≡ spot_of self.now column.now }
        ensures cell { IfSome result (IsSpot self.now column.now) }
    {
        self.picks.get(self.place(column)).copied()
    }

    // Where the cell at a place of a row of FROM stands.
    pub(crate) fn pick(&self, place: usize) -> Option<Pick>
        ensures { IfSome result (IsPickOf self.now place) }
    {
        self.picks.get(place).copied()
    }

    /// The cell at a place of the row that a tuple of row numbers stands for, whose last number is given apart; past the
    /// last cell a null.
    pub fn cell(&self, front: &[usize], last: usize, place: usize) -> &Cell
        requires { length front.now + 1 ≡ length self.now.sources }
        ensures { result.now ≡ column_of place (combined (parts_of self.now.sources) (front.now ++ last ∷ [])) }
    {
        match self.picks.get(place) {
            Some(pick) => {
                let number = if pick.part < front.len() {
                    front[pick.part]
                } else {
                    last
                };
                cell_of(self.table(pick.part), number, pick.column, &self.null)
            }
            None => &self.null,
        }
    }

    // The cell of a column in a row of a table; a null where it has no such row, and past the row's last cell.
    pub(crate) fn cell_in<'r>(&'r self, table: &'r Table, number: usize, column: usize) -> &'r Cell
        ensures { result.now ≡ column_of column (row_at table.now.rows number) }
    {
        cell_of(table, number, column, &self.null)
    }
}

// The cell of a column in a row of a table; the null that is lent where it has no such row.
fn cell_of<'r>(table: &'r Table, number: usize, column: usize, null: &'r Cell) -> &'r Cell
    requires { null.now ≡ Null }
    ensures { result.now ≡ column_of column (row_at table.now.rows number) }
{
    if number < table.len() {
        match table.row(number).get(column) {
            Some(cell) => cell,
            None => null,
        }
    } else {
        null
    }
}

impl<'a> Names for Sources<'a> {
    ghost use Rattle.sql_from.specs.Held.{tables_held};
    ghost use Rattle.sql_from.specs.Sources.{scope_held};

    ghost tables = { λ s. tables_held s.held };

    ghost scope = { λ s. scope_held s.sources };

    fn kind(&self, column: &Column) -> Option<Kind> {
        Some(self.column(column)?.kind)
    }

    fn place(&self, column: &Column) -> usize {
        match self.column(column) {
            Some(known) => known.place,
            None => self.picks.len(),
        }
    }

    fn inner_place(
        &self,
        alloc: Global,
        source: &Source,
        column: &Column,
    ) -> Result<usize, AllocError> {
        let Some(table) = self.held.held().held(&source.table) else {
            return Ok(0);
        };
        let is_own = column.source == source.alias;
        match &source.series {
            Some(series) => place_in_series(alloc, series, &column.name, is_own),
            None => Ok(place_in_table(table, &column.name, is_own)),
        }
    }

    fn series_places(
        &self,
        alloc: Global,
        table: &Txt,
        series: &Series,
    ) -> Result<SeriesPlaces, AllocError> {
        series_places(alloc, self.held.held().held(table), series)
    }
}
