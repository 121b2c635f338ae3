// The CSV text of a table.
//
// Rows are written where they lie, by places in order: a sorted copy would take as much memory as the table.
ghost use Rattle.std.specs.Prelude.{◌≡◌, ◌<◌, ◌++◌, ◌∷◌, [], length, map, All, IfOk, OnOk};
ghost use Rattle.std.specs.List.{range_with_len};
ghost use Rattle.csv.specs.Records.{fields_of, partial_of};
ghost use Rattle.csv.specs.Writing.{default_writer, row_text};
ghost use Rattle.vtl_cell.specs.Sorted.{rising};
ghost use Rattle.vtl_rows.specs.Keys.{key_of, ordered};
ghost use Rattle.vtl_rows.specs.Places.{row_at};
ghost use Rattle.vtl_rows.specs.Tables.{listed};
ghost use Rattle.vtl_tree.specs.Structure.{key_width};
ghost use Rattle.vtl_sets.specs.TableOf.{IsTableOf};
ghost use Rattle.vtl_csv.specs.CsvText.{csv_of};
ghost use Rattle.vtl_csv.specs.TableText.{names_written, rows_text, table_text};

use crate::record_text::push_record;
use crate::row_text::RowWriter;
use csv::ByteRecord;
use std::alloc::{AllocError, Global};
use vtl_cell::Cell;
use vtl_decimal::Profile;
use vtl_rows::{Column, SortKey, Table};
use vtl_tree::Structure;

// Room for the texts of so many rows is made at once.
const AHEAD: usize = 32;

/// The CSV text of a table: a header of the names of its columns, and a record for each row. The rows stand in order by
/// the columns at the places in `order`, and, where these tie, by all columns from the left. Null and the empty text
/// are empty fields. It fails only if memory runs out.
pub fn write_table(
    alloc: Global,
    table: &Table,
    order: &[usize],
    profile: &Profile,
) -> Result<Vec<u8>, AllocError>
    requires { All (λ i. i < length table.now.columns) order.now }
    ensures { IfOk result (λ text. text.items ≡ table_text profile.now order.now (listed table.now)) }
{
    let keys = keys_of(alloc, order, table.columns().len())?;
    sorted_text(alloc, table, &keys, profile)
}

/// The CSV text of a data set whose points the table holds: a header of the names of its components in column order,
/// and a record for each point, in order of the identifiers. It fails only if memory runs out.
pub fn write_dataset(
    alloc: Global,
    table: &Table,
    structure: &Structure,
    profile: &Profile,
) -> Result<Vec<u8>, AllocError>
    requires { IsTableOf structure.now (listed table.now) }
    ensures { IfOk result (λ text. text.items ≡ csv_of profile.now structure.now table.now.rows) }
{
    let count = number_of_identifiers(alloc, structure)?;
    let keys = keys_of(alloc, &[], count)?;
    sorted_text(alloc, table, &keys, profile)
}

/// The CSV text of a table whose rows stand in the order in which they are written: a header of the names of its
/// columns, and a record for each row. Null and the empty text are empty fields. It fails only if memory runs out.
pub fn write_rows(alloc: Global, table: &Table, profile: &Profile) -> Result<Vec<u8>, AllocError>
    ensures { IfOk result (λ text. text.items ≡ rows_text profile.now table.now.columns table.now.rows) }
{
    let mut text = header_text(alloc, table.columns())?;
    for place in 0..table.len() {
        if place % AHEAD == 0 {
            text.reserve(bytes_from(table, place))?;
        }
        push_record(&mut text, row_at(table, place), profile)?;
    }
    Ok(text)
}

fn number_of_identifiers(alloc: Global, structure: &Structure) -> Result<usize, AllocError>
    ensures { IfOk result (λ count. count ≡ key_width structure.now) }
{
    Ok(structure.key_width())
}

// Keys that rise by listed columns, and then by the first ones.
fn keys_of(alloc: Global, leading: &[usize], count: usize) -> Result<Vec<SortKey>, AllocError>
    ensures { IfOk result (λ keys. map key_of keys.items ≡ map rising (leading.now ++ range_with_len 0 count)) }
{
    let mut keys = Vec::new(alloc);
    push_listed(&mut keys, leading)?;
    push_first(&mut keys, count)?;
    Ok(keys)
}

// Adds columns as keys that rise.
fn push_listed(keys: &mut Vec<SortKey>, columns: &[usize]) -> Result<(), AllocError>
    ensures { OnOk result (map key_of keys.new.items ≡ map key_of keys.old.items ++ map rising columns.now) }
{
    for column in columns {
        push_rising(keys, *column)?;
    }
    Ok(())
}

// Adds the first columns as keys that rise.
fn push_first(keys: &mut Vec<SortKey>, count: usize) -> Result<(), AllocError>
    ensures { OnOk result (map key_of keys.new.items ≡ map key_of keys.old.items ++ map rising (range_with_len 0 count)) }
{
    for column in 0..count {
        push_rising(keys, column)?;
    }
    Ok(())
}

fn push_rising(keys: &mut Vec<SortKey>, column: usize) -> Result<(), AllocError>
    ensures { OnOk result (map key_of keys.new.items ≡ map key_of keys.old.items ++ map rising (column ∷ [])) }
{
    keys.push(SortKey {
        column,
        falling: false,
    })?;
    Ok(())
}

// The text of a table, its rows in the order of the keys.
fn sorted_text(
    alloc: Global,
    table: &Table,
    keys: &[SortKey],
    profile: &Profile,
) -> Result<Vec<u8>, AllocError>
    requires { All (λ k. k.column < length table.now.columns) keys.now }
    ensures { IfOk result (λ text. text.items ≡ rows_text profile.now table.now.columns (ordered keys.now table.now.rows)) }
{
    let places = table.places_by_columns(alloc, keys)?;
    text_at(alloc, table, &places, profile)
}

// The text of a table, of the rows at these places.
fn text_at(
    alloc: Global,
    table: &Table,
    places: &[usize],
    profile: &Profile,
) -> Result<Vec<u8>, AllocError>
    requires { All (λ i. i < length table.now.rows) places.now }
    ensures { IfOk result (λ text. text.items ≡ rows_text profile.now table.now.columns (map (row_at table.now.rows) places.now)) }
{
    let mut text = header_text(alloc, table.columns())?;
    for i in 0..places.len() {
        if i % AHEAD == 0 {
            text.reserve(bytes_ahead(table, &places[i..]))?;
        }
        push_record(&mut text, row_at(table, places[i]), profile)?;
    }
    Ok(text)
}

// How many bytes the texts of the first of these rows have, in all. Their rows and texts lie anywhere in memory, and are
// fetched side by side here rather than one after the other where they are written.
fn bytes_ahead(table: &Table, places: &[usize]) -> usize
    requires { All (λ i. i < length table.now.rows) places.now }
{
    let mut bytes = 0usize;
    for place in &places[..places.len().min(AHEAD)] {
        bytes = bytes.saturating_add(text_bytes(row_at(table, *place)));
    }
    bytes
}

// The same of the rows that lie from a place on.
fn bytes_from(table: &Table, place: usize) -> usize {
    let mut bytes = 0usize;
    for i in place..table.len().min(place.saturating_add(AHEAD)) {
        bytes = bytes.saturating_add(text_bytes(row_at(table, i)));
    }
    bytes
}

// How many bytes the texts of a row have, in all.
fn text_bytes(row: &[Cell]) -> usize {
    let mut bytes = 0usize;
    for cell in row {
        if let Cell::Text(text) = cell {
            bytes = bytes.saturating_add(text.as_str().len());
        }
    }
    bytes
}

// The text of a header.
fn header_text(alloc: Global, columns: &[Column]) -> Result<Vec<u8>, AllocError>
    ensures { IfOk result (λ text. text.items ≡ row_text default_writer (names_written columns.now)) }
{
    let mut writer = RowWriter::new(alloc);
    let mut fields = ByteRecord::new(alloc);
    push_column_names(&mut fields, columns)?;
    writer.write(&fields)?;
    writer.into_bytes()
}

// Adds the names of the columns to an empty record.
fn push_column_names(fields: &mut ByteRecord, columns: &[Column]) -> Result<(), AllocError>
    requires none { fields_of fields.old ≡ [] }
    requires whole { partial_of fields.old ≡ [] }
    ensures { OnOk result (fields_of fields.new ≡ names_written columns.now) }
{
    for column in columns {
        fields.push_field(column.name.as_str().as_bytes())?;
    }
    Ok(())
}

fn row_at(table: &Table, place: usize) -> &[Cell]
    requires { place < length table.now.rows }
    ensures row { result.now ≡ row_at table.now.rows place }
    ensures width { length result.now ≡ length table.now.columns }
{
    table.row(place)
}
