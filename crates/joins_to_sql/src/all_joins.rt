// Joins of all kinds: one query over the tables of the operands, and for a full join tables of identifiers before it.
ghost use Rattle.std.specs.Prelude.{◌≡◌, ◌++◌, length, map, IfOk, OnOk};
ghost use Rattle.vtl_tree.specs.Shown.{shown};
ghost use Rattle.sql_tree.specs.View.{query_tree, statement_tree};
ghost use Rattle.selects_to_sql.specs.Tables.{create_for, by_names};
ghost use Rattle.joins_to_sql.specs.FilteredJoins.{condition_of, filtered_by};
ghost use Rattle.joins_to_sql.specs.JoinTables.{full_made, join_made};

use crate::full_joins::{full_query, key_structure, keys_query, once_query};
use crate::join_operands::reference_place;
use crate::join_queries::{cross_query, reference_query};
use selects_to_sql::{Draft, Writer, no_query};
use sql_tree::{JoinKind, Query};
use std::alloc::{AllocError, Global};
use vtl_syntax::JoinKind as JoinOf;
use vtl_text::Txt;
use vtl_tree::{CompExpr, Structure};

// `full_join`: first a table of the identifiers of all operands is made, and one of each tuple of them once.
fn full_join(
    alloc: Global,
    writer: &Writer,
    structures: &[&Structure],
    tables: &[Txt],
    s: &Structure,
    condition: Option<&CompExpr>,
    target: &Txt,
    draft: &mut Draft,
) -> Result<Query, AllocError>
    requires { length tables.now ≡ length structures.now }
    ensures query { IfOk result (λ q. query_tree q ≡ filtered_by writer.now (condition_of condition.entry) (full_made writer.now target.now (shown structures.now) s.now (by_names tables.now draft.old.next)).query) }
    ensures tables { OnOk result (map statement_tree draft.new.statements.items ≡ map statement_tree draft.old.statements.items ++ map create_for (full_made writer.now target.now (shown structures.now) s.now (by_names tables.now draft.old.next)).tables) }
    ensures next { OnOk result (draft.new.next ≡ (full_made writer.now target.now (shown structures.now) s.now (by_names tables.now draft.old.next)).next) }
{
    let [reference, ..] = structures else {
        return Ok(no_query(alloc));
    };
    let keys = key_structure(alloc, reference)?;
    let all = draft.store(alloc, target, keys_query(alloc, writer, reference, tables)?)?;
    let once = draft.store(alloc, target, once_query(alloc, writer, &keys, &all)?)?;
    full_query(
        alloc, writer, &keys, structures, tables, s, &once, condition,
    )
}

/// A join over the tables of its operands, and of its points those at which a condition over them is true, where there is
/// one: the last select of the join asks it, so that no point is held that is left out. It fails only if memory runs out.
pub fn filtered_join_query(
    alloc: Global,
    writer: &Writer,
    kind: JoinOf,
    structures: &[&Structure],
    tables: &[Txt],
    s: &Structure,
    condition: Option<&CompExpr>,
    target: &Txt,
    draft: &mut Draft,
) -> Result<Query, AllocError>
    requires { length tables.now ≡ length structures.now }
    ensures query { IfOk result (λ q. query_tree q ≡ filtered_by writer.now (condition_of condition.entry) (join_made writer.now target.now kind (shown structures.now) s.now (by_names tables.now draft.old.next)).query) }
    ensures tables { OnOk result (map statement_tree draft.new.statements.items ≡ map statement_tree draft.old.statements.items ++ map create_for (join_made writer.now target.now kind (shown structures.now) s.now (by_names tables.now draft.old.next)).tables) }
    ensures next { OnOk result (draft.new.next ≡ (join_made writer.now target.now kind (shown structures.now) s.now (by_names tables.now draft.old.next)).next) }
{
    let place = reference_place(kind, structures);
    match kind {
        JoinOf::Inner => {
            let kind = JoinKind::Inner;
            reference_query(alloc, writer, kind, place, structures, tables, s, condition)
        }
        JoinOf::Left => {
            let kind = JoinKind::Left;
            reference_query(alloc, writer, kind, place, structures, tables, s, condition)
        }
        JoinOf::Cross => cross_query(alloc, writer, structures, tables, s, condition),
        JoinOf::Full => full_join(
            alloc, writer, structures, tables, s, condition, target, draft,
        ),
    }
}

/// A join over the tables of its operands. It fails only if memory runs out.
pub fn join_query(
    alloc: Global,
    writer: &Writer,
    kind: JoinOf,
    structures: &[&Structure],
    tables: &[Txt],
    s: &Structure,
    target: &Txt,
    draft: &mut Draft,
) -> Result<Query, AllocError>
    requires { length tables.now ≡ length structures.now }
    ensures query { IfOk result (λ q. query_tree q ≡ (join_made writer.now target.now kind (shown structures.now) s.now (by_names tables.now draft.old.next)).query) }
    ensures tables { OnOk result (map statement_tree draft.new.statements.items ≡ map statement_tree draft.old.statements.items ++ map create_for (join_made writer.now target.now kind (shown structures.now) s.now (by_names tables.now draft.old.next)).tables) }
    ensures next { OnOk result (draft.new.next ≡ (join_made writer.now target.now kind (shown structures.now) s.now (by_names tables.now draft.old.next)).next) }
{
    filtered_join_query(
        alloc, writer, kind, structures, tables, s, None, target, draft,
    )
}
