// The table of the only source of a select, where the rows of FROM are its rows.
//
// Where the rows are those of the only source, each once and in order, its table is lent (`lent_table`). That is seen
// from the tuples, and not from how the select is written. So groups, windows and whole columns go over that table,
// and its cells are read without the tuples.
ghost use Rattle.std.specs.Prelude.{◌≡◌, ◌∷◌, [], length, true, IfSome};
ghost use Rattle.vtl_rows.specs.Tables.{column_kinds, listed};
ghost use Rattle.sql_check_parts.specs.Scopes.{row_of};
ghost use Rattle.sql_from.specs.Joins.{singles};
ghost use Rattle.sql_from.specs.Sources.{parts_of, scope_held};
ghost use Rattle.sql_from.specs.Standing.{rows_for};

use crate::{Sources, Tuples};
use vtl_rows::Table;

// Whether the tuples are the numbers of so many rows of one source, each once and in order.
fn counts_up(tuples: &Tuples, count: usize) -> bool
    requires { tuples.now.width ≡ 1 }
    ensures { result ≡ true → tuples.now.tuples ≡ singles count }
{
    if tuples.len() != count {
        return false;
    }
    for i in 0..count {
        let tuple = tuples.tuple(i);
        if tuple[0] != i {
            return false;
        }
    }
    true
}

// Whether the tuples stand for the rows of this table, which is that of the only source.
fn are_all(sources: &Sources<'_>, tuples: &Tuples, table: &Table) -> bool
    requires width { tuples.now.width ≡ length sources.now.sources }
    requires only { parts_of sources.now.sources ≡ listed table.now ∷ [] }
    ensures { result ≡ true → table.now.rows ≡ rows_for sources.now tuples.now }
{
    let _columns = table.columns();
    counts_up(tuples, table.len())
}

/// The table of the only source, if the tuples stand for its rows, each once and in order.
pub(crate) fn lent_table<'a>(sources: &Sources<'a>, tuples: &Tuples) -> Option<&'a Table>
    requires { tuples.now.width ≡ length sources.now.sources }
    ensures kinds { IfSome result (λ t. column_kinds t.now.columns ≡ row_of (scope_held sources.now.sources)) }
    ensures rows { IfSome result (λ t. t.now.rows ≡ rows_for sources.now tuples.now) }
{
    if sources.len() != 1 {
        return None;
    }
    let table = sources.table(0);
    if are_all(sources, tuples, table) {
        Some(table)
    } else {
        None
    }
}
