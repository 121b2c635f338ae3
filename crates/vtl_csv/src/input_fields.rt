// The cells that the fields of a record spell in their columns.
ghost use Rattle.std.specs.Prelude.{◌≡◌, ◌<◌, [], IfOk, Some, Ok, Err, length, option_map, if◌then◌else◌};
ghost use Rattle.vtl_decimal.specs.Settings.{Settings};
ghost use Rattle.vtl_cell.specs.declared.cell.Cell.TheVariants as cell;
ghost use Rattle.vtl_cell.specs.declared.kind.Kind.TheVariants as kind;
ghost use Rattle.vtl_csv.specs.InputFields.{coded_cell, empty_cell, field_cell, record_row, row_with};
ghost use Rattle.vtl_csv.specs.InputSteps.{AddsRow, Goes, flaw_of};
ghost use Rattle.vtl_csv.specs.StructuresFile.{is_identifier};
ghost use Rattle.vtl_csv.specs.declared.input.InputKind.TheVariants as input;
ghost use Rattle.std.specs.List.{zip};

use crate::fields::Fields;
use crate::file_column::FileColumn;
use crate::input::{Flaw, InputKind};
use crate::plain_integers::plain_integer;
use crate::text_pool::TextPool;
use std::alloc::{AllocError, Global};
use std::str;
use vtl_cell::{Cell, Kind, read_cell};
use vtl_decimal::Profile;
use vtl_tree::Role;

/// The most points that a file may hold.
pub const MOST_POINTS: usize = 1_000_000;

// Puts a cell behind others. A call of its own would cost more than that.
#[inline(always)]
fn push_cell(cells: &mut Vec<Cell>, cell: Cell) -> Result<Option<InputKind>, AllocError>
    ensures { IfOk result (λ flaw. Goes cells.old.items cells.new.items flaw (Ok cell)) }
{
    cells.push(cell)?;
    Ok(None)
}

// Puts the cell of an empty field behind others: null, which no identifier is and no not-null component.
fn push_empty(column: &FileColumn, cells: &mut Vec<Cell>) -> Result<Option<InputKind>, AllocError>
    ensures { IfOk result (λ flaw. Goes cells.old.items cells.new.items flaw (empty_cell column.now)) }
{
    match column.component().role {
        Role::Identifier => Ok(Some(InputKind::NullIdentifier)),
        Role::Measure | Role::Attribute if column.is_not_null() => Ok(Some(InputKind::NotNull)),
        Role::Measure | Role::Attribute => push_cell(cells, Cell::Null),
    }
}

// Puts a cell that is read behind others, if it is among the codes of its column.
fn push_coded(
    column: &FileColumn,
    cell: Cell,
    cells: &mut Vec<Cell>,
) -> Result<Option<InputKind>, AllocError>
    ensures { IfOk result (λ flaw. Goes cells.old.items cells.new.items flaw (coded_cell column.now.component (Some cell))) }
{
    if column.is_coded(&cell) {
        push_cell(cells, cell)
    } else {
        Ok(Some(InputKind::NotInCodes))
    }
}

// Puts the cell of a field that is not empty behind others, in a column of any kind.
fn push_read(
    alloc: Global,
    column: &FileColumn,
    field: &[u8],
    profile: &Profile,
    cells: &mut Vec<Cell>,
) -> Result<Option<InputKind>, AllocError>
    requires { 0 < length field.now }
    ensures { IfOk result (λ flaw. Goes cells.old.items cells.new.items flaw (field_cell profile.now column.now field.now)) }
{
    let text = match str::from_utf8(field) {
        Ok(text) => text,
        Err(_) => return Ok(Some(InputKind::NotText)),
    };
    match read_cell(alloc, column.component().kind, text, profile)? {
        Some(cell) => push_coded(column, cell, cells),
        None => Ok(Some(InputKind::BadValue)),
    }
}

// Puts the cell of a field that is not empty behind others, in a column of integers.
fn push_integer(
    alloc: Global,
    column: &FileColumn,
    field: &[u8],
    profile: &Profile,
    cells: &mut Vec<Cell>,
) -> Result<Option<InputKind>, AllocError>
    requires some { 0 < length field.now }
    requires integers { column.now.component.kind ≡ kind.Int }
    ensures { IfOk result (λ flaw. Goes cells.old.items cells.new.items flaw (field_cell profile.now column.now field.now)) }
{
    match plain_integer(field, profile) {
        Some(n) => push_cell(cells, Cell::Int(n)),
        None => push_read(alloc, column, field, profile, cells),
    }
}

// Puts the cell of a field that is not empty behind others, in a column of texts. Its text is shared with an
// equal one of the pool.
fn push_text(
    alloc: Global,
    column: &FileColumn,
    pool: &mut TextPool,
    field: &[u8],
    cells: &mut Vec<Cell>,
) -> Result<Option<InputKind>, AllocError>
    requires some { 0 < length field.now }
    requires texts { column.now.component.kind ≡ kind.Text }
    ensures { IfOk result (λ flaw. (p : Settings) → Goes cells.old.items cells.new.items flaw (field_cell p column.now field.now)) }
{
    match pool.text(alloc, field)? {
        Some(text) if column.lists_codes() => push_coded(column, Cell::Text(text), cells),
        Some(text) => push_cell(cells, Cell::Text(text)),
        None => Ok(Some(InputKind::NotText)),
    }
}

// Puts the cell of a field in its column behind others. Where the field has none its flaw is the answer, and the cells
// are as before.
fn push_field(
    alloc: Global,
    column: &FileColumn,
    pool: &mut TextPool,
    field: &[u8],
    profile: &Profile,
    cells: &mut Vec<Cell>,
) -> Result<Option<InputKind>, AllocError>
    ensures { IfOk result (λ flaw. Goes cells.old.items cells.new.items flaw (field_cell profile.now column.now field.now)) }
{
    if field.is_empty() {
        return push_empty(column, cells);
    }
    match column.component().kind {
        Kind::Int => push_integer(alloc, column, field, profile, cells),
        Kind::Text => push_text(alloc, column, pool, field, cells),
        _ => push_read(alloc, column, field, profile, cells),
    }
}

// Puts the cells of as many fields as columns behind others, up to the first flaw, which is the answer.
fn fill(
    alloc: Global,
    columns: &[FileColumn],
    pools: &mut [TextPool],
    fields: &Fields,
    profile: &Profile,
    cells: &mut Vec<Cell>,
) -> Result<Option<Flaw>, AllocError>
    requires fields { length fields.now ≡ length columns.now }
    requires pools { length pools.old ≡ length columns.now }
    ensures { IfOk result (λ o. AddsRow cells.old.items cells.new.items (option_map flaw_of o) (row_with profile.now [] (zip columns.now fields.now))) }
{
    for i in 0..columns.len() {
        let field = fields.field(i);
        if let Some(kind) = push_field(alloc, &columns[i], &mut pools[i], field, profile, cells)? {
            let column = i as u64 + 1;
            return Ok(Some(Flaw { column, kind }));
        }
    }
    Ok(None)
}

/// Puts the cells of a record after `count` rows behind others, up to the first flaw of the record, which is the
/// answer. The pools are those of the columns.
pub fn fill_row(
    alloc: Global,
    columns: &[FileColumn],
    pools: &mut [TextPool],
    count: usize,
    fields: &Fields,
    profile: &Profile,
    cells: &mut Vec<Cell>,
) -> Result<Option<Flaw>, AllocError>
    requires pools { length pools.old ≡ length columns.now }
    ensures { IfOk result (λ o. AddsRow cells.old.items cells.new.items (option_map flaw_of o) (record_row profile.now columns.now count fields.now)) }
{
    if count >= MOST_POINTS {
        let kind = InputKind::TooManyRows;
        return Ok(Some(Flaw { column: 1, kind }));
    }
    if fields.len() == columns.len() {
        return fill(alloc, columns, pools, fields, profile, cells);
    }
    let column = fields.len().min(columns.len()) as u64 + 1;
    let kind = InputKind::WrongWidth;
    Ok(Some(Flaw { column, kind }))
}
