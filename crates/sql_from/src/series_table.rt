// The table of a SERIES.
ghost use Rattle.std.specs.Prelude.{◌≡◌, IfOk};
ghost use Rattle.sql_from.specs.Given.{filled};

use crate::HeldTable;
use sql_eval::SeriesPlaces;
use std::alloc::{AllocError, Global};
use vtl_series::rows_of_series;

/// The table of a SERIES over a table. It takes room for all its rows at once, and time for the rows of both. It fails only
/// if memory runs out.
pub(crate) fn table_of_series(
    alloc: Global,
    table: &HeldTable,
    series: &SeriesPlaces,
) -> Result<HeldTable, AllocError>
    ensures { IfOk result (λ t. t ≡ filled series.now table.now) }
{
    let made = rows_of_series(alloc, table.table(), series.on, &series.by, series.extent)?;
    HeldTable::of(alloc, made)
}
