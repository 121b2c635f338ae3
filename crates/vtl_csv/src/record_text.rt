// The CSV text of a row, appended to other text.
ghost use Rattle.std.specs.Prelude.{◌==◌, ◌&&◌, ◌≡◌, ◌≤◌, ◌<◌, ◌++◌, ◌∷◌, [], length, map, take, drop, OnOk, if◌then◌else◌};
ghost use Rattle.csv.specs.Quoting.{needs_byte};
ghost use Rattle.csv.specs.Writing.{default_writer, escaped, field_text, needs_quotes, next_sep, quoted, row_body, row_text};
ghost use Rattle.vtl_cell.specs.Writing.{text_of};

use std::alloc::AllocError;
use vtl_cell::{Cell, write_cell};
use vtl_decimal::Profile;

/// Appends the record of a row's cells to a text, as `csv` writes it: fields between commas, in quotes where they need
/// them, and a line feed.
pub fn push_record(text: &mut Vec<u8>, row: &[Cell], profile: &Profile) -> Result<(), AllocError>
    requires { 0 < length row.now }
    ensures { OnOk result (text.new.items ≡ text.old.items ++ row_text default_writer (map (text_of profile.now) row.now)) }
{
    let start = text.len();
    push_body(text, row, profile)?;
    push_end(text, is_blank(row.len(), start, text.len()))?;
    Ok(())
}

// Whether a record of this many fields has no byte between these places.
fn is_blank(count: usize, start: usize, end: usize) -> bool
    ensures { result ≡ ((count == 1) && (end == start)) }
{
    count == 1 && end == start
}

// Appends the end of a record to a text; a record without any byte gets two quotes.
fn push_end(text: &mut Vec<u8>, is_blank: bool) -> Result<(), AllocError>
    ensures { OnOk result (text.new.items ≡ text.old.items ++ ((if is_blank then 34 ∷ 34 ∷ [] else []) ++ 10 ∷ [])) }
{
    if is_blank {
        text.push(b'"')?;
        text.push(b'"')?;
    }
    text.push(b'\n')?;
    Ok(())
}

// Appends the fields of cells to a text, with commas between them.
fn push_body(text: &mut Vec<u8>, row: &[Cell], profile: &Profile) -> Result<(), AllocError>
    ensures { OnOk result (text.new.items ≡ text.old.items ++ row_body default_writer (map (text_of profile.now) row.now)) }
{
    for i in 0..row.len() {
        push_separator(text, i)?;
        push_cell_text(text, &row[i], profile)?;
    }
    Ok(())
}

// Appends a comma to a text, if a field stands before it.
fn push_separator(text: &mut Vec<u8>, i: usize) -> Result<(), AllocError>
    ensures { OnOk result (text.new.items ≡ text.old.items ++ next_sep default_writer i) }
{
    if i > 0 {
        text.push(b',')?;
    }
    Ok(())
}

// Appends the field of a cell to a text.
fn push_cell_text(text: &mut Vec<u8>, cell: &Cell, profile: &Profile) -> Result<(), AllocError>
    ensures { OnOk result (text.new.items ≡ text.old.items ++ field_text default_writer (text_of profile.now cell.now)) }
{
    let start = text.len();
    write_cell(cell, profile, text)?;
    if needs_quotes(&text[start..]) {
        quote_from(text, start)?;
    }
    Ok(())
}

// Puts quotes around what stands from a place on.
fn quote_from(text: &mut Vec<u8>, start: usize) -> Result<(), AllocError>
    requires { start ≤ length text.old.items }
    ensures { OnOk result (text.new.items ≡ take start text.old.items ++ quoted default_writer (drop start text.old.items)) }
{
    let field = text.split_off(start)?;
    push_quoted(text, &field)
}

fn push_quoted(text: &mut Vec<u8>, field: &[u8]) -> Result<(), AllocError>
    ensures { OnOk result (text.new.items ≡ text.old.items ++ quoted default_writer field.now) }
{
    text.push(b'"')?;
    push_escaped(text, field)?;
    text.push(b'"')?;
    Ok(())
}

// Appends bytes to a text, each quote twice.
fn push_escaped(text: &mut Vec<u8>, field: &[u8]) -> Result<(), AllocError>
    ensures { OnOk result (text.new.items ≡ text.old.items ++ escaped default_writer field.now) }
{
    for byte in field {
        push_doubled(text, *byte)?;
    }
    Ok(())
}

// Appends a byte to a text, a quote twice.
#[tactic(auto, unfolding(csv::specs::Writing::escaped))]
fn push_doubled(text: &mut Vec<u8>, byte: u8) -> Result<(), AllocError>
    ensures { OnOk result (text.new.items ≡ text.old.items ++ escaped default_writer (byte ∷ [])) }
{
    if byte == b'"' {
        text.push(b'"')?;
    }
    text.push(byte)?;
    Ok(())
}

// Whether a field needs quotes.
fn needs_quotes(field: &[u8]) -> bool
    ensures { result ≡ needs_quotes default_writer field.now }
{
    for byte in field {
        if is_mark(*byte) {
            return true;
        }
    }
    false
}

// Whether a byte is a comma, a quote or an end of a line.
pub fn is_mark(byte: u8) -> bool
    ensures { result ≡ needs_byte default_writer byte }
{
    byte == b',' || byte == b'"' || byte == b'\r' || byte == b'\n'
}
