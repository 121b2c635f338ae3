// The rows of series, from groups of rows.
ghost use Rattle.std.specs.Prelude.{◌≡◌, ◌<◌, ◌++◌, [], ◌∷◌, true, Some, length, map, All, IfOk, IfSome, OnOk};
ghost use Rattle.std.specs.List.{flat_map};
ghost use Rattle.vtl_cell.specs.Row.{column_of};
ghost use Rattle.vtl_cell.specs.declared.kind.Kind.TheVariants as k;
ghost use Rattle.vtl_index.specs.Groups.{firsts};
ghost use Rattle.vtl_index.specs.Leads.{leads_of};
ghost use Rattle.vtl_rows.specs.Places.{row_at};
ghost use Rattle.vtl_rows.specs.Tables.{AllFit, cells_at, column_at, fits};
ghost use Rattle.vtl_series.specs.Kept.{AreWithin, FitsDated, IsWithin, chosen, dated_in, numbers_of_span, span_at, spans_of};
ghost use Rattle.vtl_series.specs.Series.{dated, frequencies, keys_by, series_rows, tuple_rows};

use crate::Extent;
use crate::columns::{are_periods, series_columns};
use crate::spans::{Span, Spans, chosen};
use std::alloc::{AllocError, Global};
use vtl_cell::{Cell, clone_cell};
use vtl_index::Groups;
use vtl_rows::{Column, Table};
use vtl_time::{Frequency, Period};

// The spans of all rows of a table.
fn spans_of_table(table: &Table, on: usize) -> Spans
    ensures value { result ≡ spans_of on table.now.rows }
    ensures within { AreWithin result }
{
    let mut spans = Spans::new();
    for i in 0..table.len() {
        spans.meet(table.row(i), on);
    }
    spans
}

// The spans of the rows at places.
fn spans_of_rows(table: &Table, on: usize, places: &[usize]) -> Spans
    requires { All (λ i. i < length table.now.rows) places.now }
    ensures value { result ≡ spans_of on (map (row_at table.now.rows) places.now) }
    ensures within { AreWithin result }
{
    let mut spans = Spans::new();
    for place in places {
        spans.meet(table.row(*place), on);
    }
    spans
}

// How many rows a series of this span has. Nothing is proved of it: room is asked for by it, and no row depends on it.
fn count_in(span: Option<Span>) -> usize {
    match span {
        None => 0,
        Some(span) => span.last.saturating_sub(span.first).saturating_add(1) as usize,
    }
}

// The span of a series of a frequency, from those of its group and those of all rows.
fn chosen_at(extent: Extent, own: &Spans, all: &Spans, frequency: Frequency) -> Option<Span>
    requires own { AreWithin own.now }
    requires all { AreWithin all.now }
    ensures value { result ≡ chosen extent (span_at own.now frequency) (span_at all.now frequency) }
    ensures within { IfSome result (IsWithin frequency) }
{
    chosen(extent, own.at(frequency), all.at(frequency))
}

// How many rows a group has in all series, from its own spans and those of all rows.
fn count_of(extent: Extent, own: &Spans, all: &Spans) -> usize
    requires own { AreWithin own.now }
    requires all { AreWithin all.now }
{
    count_in(chosen_at(extent, own, all, Frequency::Annual))
        .saturating_add(count_in(chosen_at(extent, own, all, Frequency::Semester)))
        .saturating_add(count_in(chosen_at(extent, own, all, Frequency::Quarter)))
        .saturating_add(count_in(chosen_at(extent, own, all, Frequency::Month)))
}

// How many rows there are in all. A sum that no number holds is more than memory holds.
#[tactic(auto, using(crate::proofs::GroupLemmas::led_below))]
fn count_all(table: &Table, on: usize, extent: Extent, groups: &Groups, all: &Spans) -> usize
    requires groups { length groups.now ≡ length table.now.rows }
    requires all { AreWithin all.now }
{
    let mut count = 0usize;
    for group in 0..groups.len() {
        let own = spans_of_rows(table, on, groups.rows(group));
        count = count.saturating_add(count_of(extent, &own, all));
    }
    count
}

// Puts a row for one period behind the others, by way of an empty list whose room is used again.
fn push_dated(
    rows: &mut Table,
    room: &mut Vec<Cell>,
    key: &[Cell],
    period: Period,
) -> Result<(), AllocError>
    requires fits { fits rows.old.columns (key.now ++ Cell.Period period ∷ []) ≡ true }
    requires empty { room.old.items ≡ [] }
    ensures columns { rows.new.columns ≡ rows.old.columns }
    ensures rows { OnOk result (rows.new.rows ≡ rows.old.rows ++ (key.now ++ Cell.Period period ∷ []) ∷ []) }
    ensures empty { OnOk result (room.new.items ≡ []) }
{
    for cell in key {
        room.push(clone_cell(cell)?)?;
    }
    room.push(Cell::Period(period))?;
    rows.push_moved(room)
}

// Puts a row for each period from the first to the last of a span behind the others.
fn push_periods(
    rows: &mut Table,
    room: &mut Vec<Cell>,
    key: &[Cell],
    frequency: Frequency,
    span: Span,
) -> Result<(), AllocError>
    requires within { IsWithin frequency span }
    requires fits { FitsDated rows.old.columns key.now }
    requires empty { room.old.items ≡ [] }
    ensures columns { rows.new.columns ≡ rows.old.columns }
    ensures rows { OnOk result (rows.new.rows ≡ rows.old.rows ++ map (dated frequency key.now) (numbers_of_span (Some span))) }
    ensures empty { OnOk result (room.new.items ≡ []) }
{
    for index in span.first..span.last + 1 {
        push_dated(rows, room, key, Period::at_index(frequency, index))?;
    }
    Ok(())
}

// The same for a span that may not be there.
fn push_span(
    rows: &mut Table,
    room: &mut Vec<Cell>,
    key: &[Cell],
    frequency: Frequency,
    span: Option<Span>,
) -> Result<(), AllocError>
    requires within { IfSome span (IsWithin frequency) }
    requires fits { FitsDated rows.old.columns key.now }
    requires empty { room.old.items ≡ [] }
    ensures columns { rows.new.columns ≡ rows.old.columns }
    ensures rows { OnOk result (rows.new.rows ≡ rows.old.rows ++ map (dated frequency key.now) (numbers_of_span span)) }
    ensures empty { OnOk result (room.new.items ≡ []) }
{
    match span {
        None => Ok(()),
        Some(span) => push_periods(rows, room, key, frequency, span),
    }
}

// Puts the rows of a group's series behind the others, those of one frequency after the other.
fn push_group(
    rows: &mut Table,
    room: &mut Vec<Cell>,
    key: &[Cell],
    extent: Extent,
    own: &Spans,
    all: &Spans,
) -> Result<(), AllocError>
    requires own { AreWithin own.now }
    requires all { AreWithin all.now }
    requires fits { FitsDated rows.old.columns key.now }
    requires empty { room.old.items ≡ [] }
    ensures columns { rows.new.columns ≡ rows.old.columns }
    ensures rows { OnOk result (rows.new.rows ≡ rows.old.rows ++ flat_map (dated_in extent key.now own.now all.now) frequencies) }
    ensures empty { OnOk result (room.new.items ≡ []) }
{
    let years = chosen_at(extent, own, all, Frequency::Annual);
    push_span(rows, room, key, Frequency::Annual, years)?;
    let halves = chosen_at(extent, own, all, Frequency::Semester);
    push_span(rows, room, key, Frequency::Semester, halves)?;
    let quarters = chosen_at(extent, own, all, Frequency::Quarter);
    push_span(rows, room, key, Frequency::Quarter, quarters)?;
    let months = chosen_at(extent, own, all, Frequency::Month);
    push_span(rows, room, key, Frequency::Month, months)
}

// A cell equal to the one at a place, or null past the last one.
fn copy_at(row: &[Cell], place: usize) -> Result<Cell, AllocError>
    ensures { IfOk result (λ copy. copy ≡ column_of place row.now) }
{
    match row.get(place) {
        Some(cell) => clone_cell(cell),
        None => Ok(Cell::Null),
    }
}

// Puts copies of the cells of a row at places in the place of what the list held.
fn put_key(key: &mut Vec<Cell>, row: &[Cell], by: &[usize]) -> Result<(), AllocError>
    ensures { OnOk result (key.new.items ≡ cells_at by.now row.now) }
{
    key.clear();
    for place in by {
        key.push(copy_at(row, *place)?)?;
    }
    Ok(())
}

// Puts the rows of the series of one tuple behind the others, from the group of its rows.
fn push_one_group(
    rows: &mut Table,
    room: &mut Vec<Cell>,
    key: &mut Vec<Cell>,
    table: &Table,
    on: usize,
    by: &[usize],
    extent: Extent,
    groups: &Groups,
    group: usize,
    all: &Spans,
) -> Result<(), AllocError>
    requires periods { (column_at table.now.columns on).kind ≡ k.Period }
    requires fit { AllFit table.now.columns table.now.rows }
    requires columns { rows.old.columns ≡ map (column_at table.now.columns) (by.now ++ on ∷ []) }
    requires groups { groups.now ≡ leads_of (cells_at by.now) table.now.rows }
    requires group { group < length (firsts groups.now) }
    requires all { all.now ≡ spans_of on table.now.rows }
    requires within { AreWithin all.now }
    requires empty { room.old.items ≡ [] }
    ensures columns { rows.new.columns ≡ rows.old.columns }
    ensures rows { OnOk result (rows.new.rows ≡ rows.old.rows ++ tuple_rows extent on by.now table.now.rows (row_at (keys_by by.now table.now.rows) group)) }
    ensures empty { OnOk result (room.new.items ≡ []) }
{
    let places = groups.rows(group);
    put_key(key, table.row(places[0]), by)?;
    let own = spans_of_rows(table, on, places);
    push_group(rows, room, key, extent, &own, all)
}

// The rows of all series, below their columns, where the periods are of their kind.
fn filled(
    alloc: Global,
    columns: Vec<Column>,
    table: &Table,
    on: usize,
    by: &[usize],
    extent: Extent,
) -> Result<Table, AllocError>
    requires periods { (column_at table.now.columns on).kind ≡ k.Period }
    requires fit { AllFit table.now.columns table.now.rows }
    requires columns { columns.items ≡ map (column_at table.now.columns) (by.now ++ on ∷ []) }
    requires some { 0 < length columns.items }
    ensures columns { IfOk result (λ t. t.columns ≡ columns.items) }
    ensures rows { IfOk result (λ t. t.rows ≡ series_rows extent on by.now table.now.rows) }
{
    let groups = Groups::by(alloc, table, by)?;
    let all = spans_of_table(table, on);
    let mut rows = Table::new(alloc, columns);
    rows.reserve_rows(count_all(table, on, extent, &groups, &all))?;
    let mut key = Vec::with_capacity(alloc, by.len())?;
    let mut room = Vec::with_capacity(alloc, by.len().saturating_add(1))?;
    for group in 0..groups.len() {
        push_one_group(
            &mut rows, &mut room, &mut key, table, on, by, extent, &groups, group, &all,
        )?;
    }
    Ok(rows)
}

/// The rows of the series of a table's rows, below the columns at the places `by` and behind them the column `on` of the
/// periods: two rows are in one series where they agree in the columns at `by`, null being equal to null, and their
/// periods have one frequency, and for each series there is a row for each period from its first to its last, or to the
/// last of all rows of its frequency. A row whose period is null is in no series; where the column at `on` is not of
/// periods there is none, and so there are no rows. At a place past the last column each row counts as null.
///
/// It takes time that is linear in the rows of the table and those that it gives, whatever the cells are, and asks for
/// room for all that it gives at once. It fails only if memory runs out.
pub fn rows_of_series(
    alloc: Global,
    table: &Table,
    on: usize,
    by: &[usize],
    extent: Extent,
) -> Result<Table, AllocError>
    ensures columns { IfOk result (λ t. t.columns ≡ map (column_at table.now.columns) (by.now ++ on ∷ [])) }
    ensures rows { IfOk result (λ t. t.rows ≡ series_rows extent on by.now table.now.rows) }
{
    let own = table.columns();
    let columns = series_columns(alloc, own, on, by)?;
    if !are_periods(own, on) {
        return Ok(Table::new(alloc, columns));
    }
    filled(alloc, columns, table, on, by, extent)
}
