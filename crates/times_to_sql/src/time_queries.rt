// The query of each time operator, for which tables are made first.
ghost use Rattle.std.specs.Prelude.{◌≡◌, ◌++◌, ◌∷◌, [], map, IfOk, OnOk};
ghost use Rattle.sql_tree.specs.View.{query_tree, statement_tree};
ghost use Rattle.selects_to_sql.specs.Tables.{by_names, create_for};
ghost use Rattle.times_to_sql.specs.TimeTables.{fill_made, time_made};

use crate::fill_queries::{fill_keys_query, fill_query};
use crate::flow_queries::{flowed, stocked};
use crate::shift_queries::shift_query;
use selects_to_sql::{Draft, Operand, Writer};
use sql_tree::Query;
use std::alloc::{AllocError, Global};
use vtl_syntax::Filling;
use vtl_text::Txt;
use vtl_tree::{Structure, TimeOp};

// `fill_time_series`: the identifiers of the filled series get a table of their own.
fn filled(
    alloc: Global,
    writer: &Writer,
    filling: Filling,
    a: &Operand<'_>,
    s: &Structure,
    target: &Txt,
    draft: &mut Draft,
) -> Result<Query, AllocError>
    ensures query { IfOk result (λ q. query_tree q ≡ (fill_made writer.now target.now filling a.now.structure.now s.now (by_names (a.now.table.now ∷ []) draft.old.next)).query) }
    ensures tables { OnOk result (map statement_tree draft.new.statements.items ≡ map statement_tree draft.old.statements.items ++ map create_for (fill_made writer.now target.now filling a.now.structure.now s.now (by_names (a.now.table.now ∷ []) draft.old.next)).tables) }
    ensures next { OnOk result (draft.new.next ≡ (fill_made writer.now target.now filling a.now.structure.now s.now (by_names (a.now.table.now ∷ []) draft.old.next)).next) }
{
    let keys = fill_keys_query(alloc, writer, filling, a.structure, a.table)?;
    let keys = draft.store(alloc, target, keys)?;
    fill_query(alloc, writer, a.structure, s, &keys, a.table)
}

/// The query of a time operator over the table of its operand. Its tables but the last are made first. It fails only if
/// memory runs out.
pub fn time_query(
    alloc: Global,
    writer: &Writer,
    op: &TimeOp,
    a: &Operand<'_>,
    s: &Structure,
    target: &Txt,
    draft: &mut Draft,
) -> Result<Query, AllocError>
    ensures query { IfOk result (λ q. query_tree q ≡ (time_made writer.now target.now op.now a.now.structure.now s.now (by_names (a.now.table.now ∷ []) draft.old.next)).query) }
    ensures tables { OnOk result (map statement_tree draft.new.statements.items ≡ map statement_tree draft.old.statements.items ++ map create_for (time_made writer.now target.now op.now a.now.structure.now s.now (by_names (a.now.table.now ∷ []) draft.old.next)).tables) }
    ensures next { OnOk result (draft.new.next ≡ (time_made writer.now target.now op.now a.now.structure.now s.now (by_names (a.now.table.now ∷ []) draft.old.next)).next) }
{
    match op {
        TimeOp::Shift(n) => shift_query(alloc, writer, *n, a.structure, a.table),
        TimeOp::Fill(filling) => filled(alloc, writer, *filling, a, s, target, draft),
        TimeOp::FlowToStock => stocked(alloc, writer, a, s, target, draft),
        TimeOp::StockToFlow => flowed(alloc, writer, a, s, target, draft),
    }
}
