// The columns of a source: those of its table, or those that a SERIES over it names.
ghost use Rattle.std.specs.Option.{is_none};
ghost use Rattle.std.specs.Prelude.{◌≡◌, IfOk, option_map};
ghost use Rattle.sql_check_parts.specs.Given.{columns_given};
ghost use Rattle.sql_check_parts.specs.Scopes.{columns_from, lacks_names, misnames_series, value_among};

use crate::{Columns, Tables};
use sql_tree::Source;
use std::alloc::{AllocError, Global};
use vtl_cell::Kind;
use vtl_text::Txt;

/// The columns of a source.
#[derive(Drop)]
pub enum GivenColumns<'a> {
    /// All columns of a table.
    OfTable(&'a Columns),
    /// Those that a SERIES names.
    OfSeries(Columns),
}

impl<'a> GivenColumns<'a> {
    /// The kind of a column.
    pub(crate) fn kind(&self, name: &Txt) -> Option<Kind>
        ensures { result ≡ value_among (columns_given self.now) name.now }
    {
        match self {
            GivenColumns::OfTable(columns) => columns.kind(name),
            GivenColumns::OfSeries(columns) => columns.kind(name),
        }
    }
}

/// The columns of a source, where its table is there. It fails only if memory runs out.
pub fn columns_from<'a>(
    alloc: Global,
    tables: &'a Tables,
    source: &Source,
) -> Result<Option<GivenColumns<'a>>, AllocError>
    ensures { IfOk result (λ columns. option_map columns_given columns ≡ columns_from tables.now source.now) }
{
    let Some(columns) = tables.columns(&source.table) else {
        return Ok(None);
    };
    match &source.series {
        None => Ok(Some(GivenColumns::OfTable(columns))),
        Some(series) => Ok(Some(GivenColumns::OfSeries(columns.of_series(alloc, series)?))),
    }
}

/// Whether a source is a SERIES that does not fit its table; over a table that is not there none fits. It fails only if
/// memory runs out.
pub fn misnames_series(alloc: Global, tables: &Tables, source: &Source) -> Result<bool, AllocError>
    ensures { IfOk result (λ b. b ≡ misnames_series tables.now source.now) }
{
    let Some(series) = &source.series else {
        return Ok(false);
    };
    match tables.columns(&source.table) {
        Some(columns) => Ok(!columns.fits(alloc, series)?),
        None => Ok(true),
    }
}

/// Whether a source is a SERIES that names what its table does not have; a table that is not there has nothing.
pub fn lacks_names(tables: &Tables, source: &Source) -> bool
    ensures { result ≡ lacks_names tables.now source.now }
{
    let Some(series) = &source.series else {
        return false;
    };
    match tables.columns(&source.table) {
        Some(columns) => !columns.has_names(series),
        None => true,
    }
}
