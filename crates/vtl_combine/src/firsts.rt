// The first rows of groups.
//
// A look-up is asked for all rows of an operand at once (`firsts`): a list of numbers costs less than to wait for
// memory row by row.
ghost use Rattle.std.specs.Prelude.{◌≡◌, ◌≤◌, length, IfOk};
ghost use Rattle.std.specs.List.{AllByRecursion};
ghost use Rattle.vtl_cell.specs.Row.{same_key};
ghost use Rattle.vtl_index.specs.Groups.{AreLeads, firsts};
ghost use Rattle.vtl_tuples.specs.Keys.{each_once};

use crate::rows::numbers;
use std::alloc::{AllocError, Global};
use vtl_index::Groups;
use vtl_rows::Table;

// The number of the first row of each group.
pub(crate) fn first_rows(alloc: Global, groups: &Groups) -> Result<Vec<usize>, AllocError>
    requires { AreLeads groups.now }
    ensures { IfOk result (λ v. v.items ≡ firsts groups.now) }
{
    let mut first_rows = Vec::with_capacity(alloc, groups.len())?;
    for group in 0..groups.len() {
        first_rows.push(groups.rows(group)[0])?;
    }
    Ok(first_rows)
}

// The rows of a table whose first cells, of which there are so many, no row before has. It is the same table where all
// rows are such.
pub(crate) fn once_by_key(alloc: Global, table: Table, width: usize) -> Result<Table, AllocError>
    requires { AllByRecursion (λ r. width ≤ length r) table.rows }
    ensures columns { IfOk result (λ t. t.columns ≡ table.columns) }
    ensures rows { IfOk result (λ t. t.rows ≡ each_once (same_key width) table.rows) }
{
    let key = numbers(alloc, width)?;
    let groups = Groups::by(alloc, &table, &key)?;
    if groups.len() == table.len() {
        return Ok(table);
    }
    let rows = first_rows(alloc, &groups)?;
    table.gather(alloc, &rows)
}
