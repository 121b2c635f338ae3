// The columns of the rows of series, of which one is of periods or may be of another kind.
ghost use Rattle.std.specs.Prelude.{◌≡◌, ◌++◌, [], ◌∷◌, map, IfOk};
ghost use Rattle.vtl_cell.specs.Kinds.{same_kind};
ghost use Rattle.vtl_cell.specs.declared.kind.Kind.TheVariants as k;
ghost use Rattle.vtl_rows.specs.Tables.{column_at};

use std::alloc::{AllocError, Global};
use vtl_cell::{Kind, is_same_kind};
use vtl_rows::Column;
use vtl_text::Txt;

// A column without a name, of the kind of null alone.
fn no_column(alloc: Global) -> Result<Column, AllocError>
    ensures { IfOk result (λ none. none ≡ record { name = []; kind = k.Null }) }
{
    Ok(Column {
        name: Txt::new(alloc, "")?,
        kind: Kind::Null,
    })
}

// A column equal to the one at a place; past the last one a column without a name.
fn copy_column(alloc: Global, columns: &[Column], place: usize) -> Result<Column, AllocError>
    ensures { IfOk result (λ copy. copy ≡ column_at columns.now place) }
{
    match columns.get(place) {
        Some(column) => Ok(Column {
            name: column.name.share()?,
            kind: column.kind,
        }),
        None => no_column(alloc),
    }
}

// The columns of a series' rows: the others as they are listed, and behind them that of the periods.
pub(crate) fn series_columns(
    alloc: Global,
    columns: &[Column],
    on: usize,
    by: &[usize],
) -> Result<Vec<Column>, AllocError>
    ensures { IfOk result (λ made. made.items ≡ map (column_at columns.now) (by.now ++ on ∷ [])) }
{
    let mut made = Vec::with_capacity(alloc, by.len().saturating_add(1))?;
    for place in by {
        made.push(copy_column(alloc, columns, *place)?)?;
    }
    made.push(copy_column(alloc, columns, on)?)?;
    Ok(made)
}

// The kind of the column at a place: past the last one that of null alone.
fn kind_at(columns: &[Column], place: usize) -> Kind
    ensures { result ≡ (column_at columns.now place).kind }
{
    match columns.get(place) {
        Some(column) => column.kind,
        None => Kind::Null,
    }
}

// Whether the column at a place is of periods.
pub(crate) fn are_periods(columns: &[Column], place: usize) -> bool
    ensures { result ≡ same_kind (column_at columns.now place).kind k.Period }
{
    is_same_kind(kind_at(columns, place), Kind::Period)
}
