// The columns of a table by name.
//
// Names are found as in a list (`AreFound`): of two columns of one name the first counts, so nothing is asked of a
// table.
ghost use Rattle.std.specs.Prelude.{map, IfOk};
ghost use Rattle.sql_meaning.specs.Tables.{column_entry};
ghost use Rattle.sql_from.specs.Columns.{AreFound};

use std::alloc::{AllocError, Global};
use vtl_cell::Kind;
use vtl_rows::Column;
use vtl_text::ByName;

/// What is known of a column.
#[derive(Clone, Copy)]
pub(crate) struct ColumnAt {
    /// Where its cell stands in a row.
    pub(crate) place: usize,
    /// The kind of its cells.
    pub(crate) kind: Kind,
}

/// The columns of a table, each with its place there. Of two of one name the first counts. It fails only if memory runs
/// out.
pub(crate) fn columns_by_name(
    alloc: Global,
    columns: &[Column],
) -> Result<ByName<ColumnAt>, AllocError>
    ensures { IfOk result (AreFound (map column_entry columns.now)) }
{
    let mut named = ByName::new(alloc);
    for place in 0..columns.len() {
        let column = &columns[place];
        if !named.has(&column.name) {
            let at = ColumnAt {
                place,
                kind: column.kind,
            };
            named.put(column.name.share()?, at)?;
        }
    }
    Ok(named)
}
