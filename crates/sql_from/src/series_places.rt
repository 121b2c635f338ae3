// The places of the columns of a SERIES in its table.
ghost use Rattle.std.specs.Option.{option_copied};
ghost use Rattle.std.specs.Prelude.{◌≡◌, IfOk, map};
ghost use Rattle.sql_meaning.specs.Tables.{extent_of, place_among};
ghost use Rattle.sql_eval.specs.Origins.{IsSeriesOf};
ghost use Rattle.sql_from.specs.Held.{columns_held};
ghost use Rattle.sql_from.specs.Sources.{or_nothing};

use crate::HeldTable;
use sql_eval::SeriesPlaces;
use sql_tree::{Series, Span};
use std::alloc::{AllocError, Global};
use vtl_series::Extent;
use vtl_text::Txt;

/// The place of a column in a table; of one that it has not, past the last one.
pub(crate) fn place_of(table: &HeldTable, name: &Txt) -> usize
    ensures { result ≡ place_among (columns_held table.now) name.now }
{
    match table.column(name) {
        Some(known) => known.place,
        None => table.table().columns().len(),
    }
}

// The same, where there may be no table, which has no column.
fn place_in(table: Option<&HeldTable>, name: &Txt) -> usize
    ensures { result ≡ place_among (columns_held (or_nothing (option_copied table.entry))) name.now }
{
    match table {
        Some(table) => place_of(table, name),
        None => 0,
    }
}

fn places_in(
    alloc: Global,
    table: Option<&HeldTable>,
    names: &[Txt],
) -> Result<Vec<usize>, AllocError>
    ensures { IfOk result (λ v. v.items ≡ map (place_among (columns_held (or_nothing (option_copied table.entry)))) names.now) }
{
    let mut places = Vec::with_capacity(alloc, names.len())?;
    for name in names {
        places.push(place_in(table, name))?;
    }
    Ok(places)
}

fn extent_of(span: Span) -> Extent
    ensures { result ≡ extent_of span }
{
    match span {
        Span::Single => Extent::Single,
        Span::All => Extent::All,
    }
}

/// A SERIES over a table, with places in place of names. It fails only if memory runs out.
pub(crate) fn series_places(
    alloc: Global,
    table: Option<&HeldTable>,
    series: &Series,
) -> Result<SeriesPlaces, AllocError>
    ensures { IfOk result (IsSeriesOf (columns_held (or_nothing (option_copied table.entry))) series.now) }
{
    Ok(SeriesPlaces {
        extent: extent_of(series.span),
        on: place_in(table, &series.on),
        by: places_in(alloc, table, series.by.as_slice())?,
    })
}
