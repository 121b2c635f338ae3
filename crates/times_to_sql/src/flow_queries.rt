// The queries of `flow_to_stock` and `stock_to_flow`, for which a table is made first.
ghost use Rattle.std.specs.Prelude.{◌≡◌, ◌++◌, ◌∷◌, [], map, IfOk, OnOk};
ghost use Rattle.sql_tree.specs.View.{query_tree, statement_tree};
ghost use Rattle.selects_to_sql.specs.Tables.{by_names, create_for};
ghost use Rattle.times_to_sql.specs.Flows.{flow_made, stock_made};

use crate::parts_queries::parts_query;
use crate::stock_queries::stock_query;
use selects_to_sql::{Draft, Operand, Writer, pair_query};
use sql_tree::Query;
use std::alloc::{AllocError, Global};
use vtl_cell::{Cell, ScalarOp};
use vtl_text::Txt;
use vtl_tree::{AnalyticOp, Structure};

/// `flow_to_stock`: the totals along the series get a table of their own. It fails only if memory runs out.
pub(crate) fn stocked(
    alloc: Global,
    writer: &Writer,
    a: &Operand<'_>,
    s: &Structure,
    target: &Txt,
    draft: &mut Draft,
) -> Result<Query, AllocError>
    ensures query { IfOk result (λ q. query_tree q ≡ (stock_made writer.now target.now a.now.structure.now s.now (by_names (a.now.table.now ∷ []) draft.old.next)).query) }
    ensures tables { OnOk result (map statement_tree draft.new.statements.items ≡ map statement_tree draft.old.statements.items ++ map create_for (stock_made writer.now target.now a.now.structure.now s.now (by_names (a.now.table.now ∷ []) draft.old.next)).tables) }
    ensures next { OnOk result (draft.new.next ≡ (stock_made writer.now target.now a.now.structure.now s.now (by_names (a.now.table.now ∷ []) draft.old.next)).next) }
{
    let query = parts_query(alloc, writer, AnalyticOp::Sum, a, s)?;
    let totals = draft.store(alloc, target, query)?;
    stock_query(alloc, writer, a, s, &totals)
}

/// `stock_to_flow`: the previous values along the series get a table of their own. It fails only if memory runs out.
pub(crate) fn flowed(
    alloc: Global,
    writer: &Writer,
    a: &Operand<'_>,
    s: &Structure,
    target: &Txt,
    draft: &mut Draft,
) -> Result<Query, AllocError>
    ensures query { IfOk result (λ q. query_tree q ≡ (flow_made writer.now target.now a.now.structure.now s.now (by_names (a.now.table.now ∷ []) draft.old.next)).query) }
    ensures tables { OnOk result (map statement_tree draft.new.statements.items ≡ map statement_tree draft.old.statements.items ++ map create_for (flow_made writer.now target.now a.now.structure.now s.now (by_names (a.now.table.now ∷ []) draft.old.next)).tables) }
    ensures next { OnOk result (draft.new.next ≡ (flow_made writer.now target.now a.now.structure.now s.now (by_names (a.now.table.now ∷ []) draft.old.next)).next) }
{
    let previous = AnalyticOp::Lag {
        offset: 1,
        default: Cell::Int(0),
    };
    let query = parts_query(alloc, writer, previous, a, s)?;
    let table = draft.store(alloc, target, query)?;
    let values = Operand {
        structure: s,
        table: &table,
    };
    pair_query(alloc, writer, ScalarOp::Subtract, a, &values, s)
}
