// The data set that a CSV file holds.
//
// The cells of a line are read into one list, which is used again, and move to the table's pages. Room for them is
// reserved at once, by the length of the lines at the front of the file.
ghost use Rattle.std.specs.Prelude.{◌≡◌, ◌<◌, ◌≤◌, [], length, map, take, option_map, All, IfOk, IfSome, Ok};
ghost use Rattle.vtl_rows.specs.Tables.{listed, listed_in};
ghost use Rattle.vtl_tree.specs.DataSet.{AreOfProfile};
ghost use Rattle.vtl_tree.specs.Structure.{IsStructure, key_width};
ghost use Rattle.vtl_sets.specs.TableOf.{IsTableOf, column_for};
ghost use Rattle.vtl_csv.specs.InputFields.{components_in};
ghost use Rattle.vtl_csv.specs.InputFile.{Reads, dataset_rows, rows_below, rows_with};
ghost use Rattle.vtl_csv.specs.InputSteps.{Answers, IsLayout, fault_among, fault_of, flaw_of, layout_seen, rows_outcome, taken, taken_with};

use crate::fields::Fields;
use crate::file_column::{FileColumn, file_columns};
use crate::header::{Layout, read_layout};
use crate::input::{Fault, Flaw, InputErr, InputKind};
use crate::input_fields::{MOST_POINTS, fill_row};
use crate::records::RecordReader;
use crate::repeats::first_repeat;
use crate::text_pool::pools;
use std::alloc::{AllocError, Global};
use vtl_decimal::Profile;
use vtl_rows::{Column, Table};
use vtl_sets::table_column;
use vtl_text::Txt;
use vtl_tree::Structure;

// So many bytes at the front of a file tell how long its lines are.
const FRONT: usize = 65_536;

// About how many rows a file has, by the lines at its front; mostly there are some fewer.
fn expected_rows(text: &[u8]) -> usize {
    let front = &text[..text.len().min(FRONT)];
    let mut lines = 0usize;
    for byte in front {
        if *byte == b'\n' {
            lines = lines.saturating_add(1);
        }
    }
    let rows = lines.saturating_mul(text.len()) / front.len().max(1);
    rows.saturating_add(rows / 32).min(MOST_POINTS)
}

// The columns of a file's table.
fn columns_for(alloc: Global, file: &[FileColumn]) -> Result<Vec<Column>, AllocError>
    ensures { IfOk result (λ columns. columns.items ≡ map column_for (components_in file.now)) }
{
    let mut columns = Vec::with_capacity(alloc, file.len())?;
    for column in file {
        columns.push(table_column(column.component())?)?;
    }
    Ok(columns)
}

// Puts the rows of the records that are left into a table of no rows, up to the first flaw, which is the answer.
fn add_rows<'a>(
    alloc: Global,
    table: &mut Table,
    columns: &[FileColumn],
    reader: &mut RecordReader<'a>,
    fields: &mut Fields<'a>,
    profile: &Profile,
) -> Result<Option<Flaw>, AllocError>
    requires columns { table.old.columns ≡ map column_for (components_in columns.now) }
    requires none { table.old.rows ≡ [] }
    ensures columns { IfOk result (λ _. table.new.columns ≡ map column_for (components_in columns.now)) }
    ensures rows { IfOk result (λ flaw. taken table.new.rows (option_map flaw_of flaw) ≡ taken_with profile.now columns.now [] reader.old) }
{
    let mut pools = pools(alloc, columns.len())?;
    let mut cells = Vec::with_capacity(alloc, columns.len())?;
    while reader.next(fields)? {
        let count = table.len();
        match fill_row(
            alloc, columns, &mut pools, count, fields, profile, &mut cells,
        )? {
            None => table.push_moved(&mut cells)?,
            Some(flaw) => return Ok(Some(flaw)),
        }
    }
    Ok(None)
}

// A table of the records that are left, about so many, up to the first flaw, and that flaw, if there is one.
fn take_rows<'a>(
    alloc: Global,
    columns: &[FileColumn],
    expected: usize,
    reader: &mut RecordReader<'a>,
    fields: &mut Fields<'a>,
    profile: &Profile,
) -> Result<(Table, Option<Flaw>), AllocError>
    requires { 0 < length columns.now }
    ensures columns { IfOk result (λ r. r.0.columns ≡ map column_for (components_in columns.now)) }
    ensures rows { IfOk result (λ r. taken r.0.rows (option_map flaw_of r.1) ≡ taken_with profile.now columns.now [] reader.old) }
{
    let mut table = Table::new(alloc, columns_for(alloc, columns)?);
    // Without this room the table grows as it is filled.
    let _has_room = table.reserve_rows(expected).is_ok();
    let flaw = add_rows(alloc, &mut table, columns, reader, fields, profile)?;
    Ok((table, flaw))
}

// The first fault of a file with the rows of a table: the first repeat of identifiers, otherwise the flaw after the
// rows.
fn first_fault(table: &Table, repeat: Option<usize>, flaw: Option<Flaw>) -> Option<Fault>
    requires { IfSome repeat (λ place. place < length table.now.rows) }
    ensures { option_map fault_of result ≡ fault_among (length table.now.rows) repeat (option_map flaw_of flaw) }
{
    let rows = table.len();
    if let Some(place) = repeat {
        return Some(Fault {
            line: place as u64 + 2,
            flaw: Flaw {
                column: 1,
                kind: InputKind::DuplicateKey,
            },
        });
    }
    match flaw {
        Some(flaw) => Some(Fault {
            line: rows as u64 + 2,
            flaw,
        }),
        None => None,
    }
}

// A table of the records that are left, about so many, up to the first flaw, and the first fault, if there is one; the
// identifiers stand at the places `keys`.
fn read_rows<'a>(
    alloc: Global,
    columns: &[FileColumn],
    keys: &[usize],
    expected: usize,
    reader: &mut RecordReader<'a>,
    fields: &mut Fields<'a>,
    profile: &Profile,
) -> Result<(Table, Option<Fault>), AllocError>
    requires some { 0 < length columns.now }
    requires keys { All (λ i. i < length columns.now) keys.now }
    ensures columns { IfOk result (λ r. r.0.columns ≡ map column_for (components_in columns.now)) }
    ensures rows { IfOk result (λ r. rows_outcome r.0.rows (option_map fault_of r.1) ≡ rows_with profile.now columns.now keys.now [] reader.old) }
{
    let (table, flaw) = take_rows(alloc, columns, expected, reader, fields, profile)?;
    let repeat = first_repeat(alloc, &table, keys)?;
    let fault = first_fault(&table, repeat, flaw);
    Ok((table, fault))
}

fn bad_header(column: u64) -> Fault
    ensures { fault_of result ≡ (1, (column, InputKind.BadHeader)) }
{
    let kind = InputKind::BadHeader;
    Fault {
        line: 1,
        flaw: Flaw { column, kind },
    }
}

// The places of the identifiers, which stand first.
fn key_places<'a>(
    alloc: Global,
    structure: &Structure,
    places: &'a [usize],
) -> Result<&'a [usize], AllocError>
    requires { key_width structure.now ≤ length places.now }
    ensures { IfOk result (λ keys. keys.now ≡ take (key_width structure.now) places.now) }
{
    Ok(&places[..structure.key_width()])
}

// The data set whose records are left after a header with this layout, about so many.
fn read_table<'a>(
    alloc: Global,
    structure: &Structure,
    not_null: &[Txt],
    layout: &Layout,
    expected: usize,
    reader: &mut RecordReader<'a>,
    fields: &mut Fields<'a>,
    profile: &Profile,
) -> Result<Result<Table, Fault>, AllocError>
    requires structure { IsStructure structure.now }
    requires layout { IsLayout structure.now (layout_seen layout.now) }
    ensures { IfOk result (λ r. Answers structure.now r (rows_below profile.now structure.now not_null.now (layout_seen layout.now) reader.old)) }
{
    let keys = key_places(alloc, structure, &layout.places)?;
    let columns = file_columns(alloc, &layout.columns, not_null)?;
    let (table, fault) = read_rows(alloc, &columns, keys, expected, reader, fields, profile)?;
    match fault {
        Some(fault) => Ok(Err(fault)),
        None => Ok(Ok(table.into_projected(alloc, &layout.places)?)),
    }
}

// The data set of a file or its first fault.
fn read_text(
    alloc: Global,
    text: &[u8],
    structure: &Structure,
    not_null: &[Txt],
    profile: &Profile,
) -> Result<Result<Table, Fault>, AllocError>
    requires { IsStructure structure.now }
    ensures { IfOk result (λ r. Answers structure.now r (dataset_rows profile.now structure.now not_null.now text.now)) }
{
    let mut reader = RecordReader::new(alloc, text);
    let mut fields = Fields::new(alloc);
    if !reader.next(&mut fields)? {
        return Ok(Err(bad_header(1)));
    }
    match read_layout(alloc, structure, &fields)? {
        Ok(layout) => {
            let expected = expected_rows(text);
            read_table(
                alloc,
                structure,
                not_null,
                &layout,
                expected,
                &mut reader,
                &mut fields,
                profile,
            )
        }
        Err(column) => Ok(Err(bad_header(column))),
    }
}

/// The data set of the structure that a CSV file holds: a table of its points in the order of the file, with the
/// components as columns, identifiers first, then measures, then attributes. Otherwise the first fault by line, and
/// within a line in the order: too many rows, a wrong width, the fields by column, a repeat of identifiers. The
/// components of the names `not_null` have no empty field. Integers are of the profile. It otherwise fails only if
/// memory runs out.
pub fn read_dataset(
    alloc: Global,
    text: &[u8],
    structure: &Structure,
    not_null: &[Txt],
    profile: &Profile,
) -> Result<Table, InputErr>
    requires { IsStructure structure.now }
    ensures rows { Reads structure.now (listed_in result) (dataset_rows profile.now structure.now not_null.now text.now) }
    ensures points { IfOk result (λ t. IsTableOf structure.now (listed t)) }
    ensures profile { IfOk result (λ t. AreOfProfile profile.now t.rows) }
{
    match read_text(alloc, text, structure, not_null, profile) {
        Ok(Ok(table)) => Ok(table),
        Ok(Err(fault)) => Err(InputErr::Fault {
            line: fault.line,
            column: fault.flaw.column,
            kind: fault.flaw.kind,
        }),
        Err(_) => Err(InputErr::OutOfMemory),
    }
}
