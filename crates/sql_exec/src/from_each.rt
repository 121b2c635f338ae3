// The tables of FROM, for each select of a query.
ghost use Rattle.std.specs.Prelude.{◌≡◌, IfOk, map};
ghost use Rattle.sql_tree.specs.View.{select_tree};
ghost use Rattle.sql_from.specs.FromTables.{from_given};

use sql_from::{FromTables, HeldTables};
use sql_tree::Select;
use std::alloc::{AllocError, Global};

/// The tables of the sources of each select, in order. It takes time for the rows of the tables of SERIES and for those
/// that they give. It fails only if memory runs out.
pub(crate) fn from_each<'a>(
    alloc: Global,
    tables: &'a HeldTables,
    selects: &[Select],
) -> Result<Vec<FromTables<'a>>, AllocError>
    ensures { IfOk result (λ v. v.items ≡ map (from_given tables.now) (map select_tree selects.now)) }
{
    let mut all = Vec::with_capacity(alloc, selects.len())?;
    for select in selects {
        all.push(FromTables::of(alloc, tables, select)?)?;
    }
    Ok(all)
}
