// The query of each form under hierarchical rules, over the table of its operand.
ghost use Rattle.std.specs.Prelude.{◌≡◌, ◌+◌, ◌++◌, ◌∷◌, [], map, IfOk, OnOk};
ghost use Rattle.vtl_tree.specs.NodeView.{form_tree};
ghost use Rattle.vtl_tree.specs.declared.structure.Structure.{Structure as StructureOf};
ghost use Rattle.vtl_rulings.specs.Ordered.{places_or_none};
ghost use Rattle.sql_tree.specs.View.{query_tree, statement_tree};
ghost use Rattle.selects_to_sql.specs.Tables.{by_name, create_for, numbered, table_of};
ghost use Rattle.vtl_to_sql.specs.Hierarchies.{ruled_made};
ghost use Rattle.vtl_to_sql.specs.Sets.{union_query};

use crate::form_queries::operand;
use crate::set_operators::SetOperator;
use crate::set_queries::set_query;
use hierarchies_to_sql::{check_hierarchy_query, computed_points_query};
use selects_to_sql::{Draft, Writer, no_query};
use sql_tree::Query;
use std::alloc::{AllocError, Global};
use vtl_syntax::HierOut;
use vtl_text::Txt;
use vtl_tree::{HierRules, NodeForm, Structure};

// The places of the rules that define an item, in the order that typing gave them.
fn places(rules: &HierRules) -> &[usize]
    ensures { result.now ≡ places_or_none rules.now.order }
{
    match &rules.order {
        Some(places) => places.as_slice(),
        None => &[],
    }
}

// The computed points in a table of their own, and behind them the operand's points that are not computed.
fn with_others(
    alloc: Global,
    writer: &Writer,
    computed: Query,
    s: &Structure,
    table: &Txt,
    target: &Txt,
    draft: &mut Draft,
) -> Result<Query, AllocError>
    ensures query { IfOk result (λ q. (a b : StructureOf) → query_tree q ≡ union_query writer.now a b s.now (numbered target.now draft.old.next) table.now) }
    ensures tables { OnOk result (map statement_tree draft.new.statements.items ≡ map statement_tree draft.old.statements.items ++ create_for (table_of (numbered target.now draft.old.next) (query_tree computed)) ∷ []) }
    ensures next { OnOk result (draft.new.next ≡ draft.old.next + 1) }
{
    let points = draft.store(alloc, target, computed)?;
    set_query(alloc, writer, SetOperator::Union, s, &points, table)
}

/// The query of a form under hierarchical rules, for which tables are made first, and none of any other form. It fails
/// only if memory runs out.
#[tactic(auto, unfolding(crate::specs::Hierarchies::ruled_made))]
pub(crate) fn ruled_query(
    alloc: Global,
    writer: &Writer,
    form: &NodeForm,
    s: &Structure,
    table: &Txt,
    target: &Txt,
    draft: &mut Draft,
) -> Result<Query, AllocError>
    ensures query { IfOk result (λ q. query_tree q ≡ (ruled_made writer.now target.now (form_tree form.now) s.now (by_name table.now draft.old.next)).query) }
    ensures tables { OnOk result (map statement_tree draft.new.statements.items ≡ map statement_tree draft.old.statements.items ++ map create_for (ruled_made writer.now target.now (form_tree form.now) s.now (by_name table.now draft.old.next)).tables) }
    ensures next { OnOk result (draft.new.next ≡ (ruled_made writer.now target.now (form_tree form.now) s.now (by_name table.now draft.old.next)).next) }
{
    match form {
        NodeForm::CheckHierarchy {
            a,
            rules,
            mode,
            out,
        } => {
            let a = operand(a, table);
            let p = writer.profile();
            check_hierarchy_query(alloc, writer, p, rules, *mode, *out, &a, s, target, draft)
        }
        NodeForm::Hierarchy {
            a,
            rules,
            mode,
            input,
            out,
        } => {
            let a = operand(a, table);
            let order = places(rules);
            let computed = computed_points_query(
                alloc, writer, rules, order, *mode, *input, &a, s, target, draft,
            )?;
            match out {
                HierOut::Computed => Ok(computed),
                HierOut::All => with_others(alloc, writer, computed, s, table, target, draft),
            }
        }
        _ => Ok(no_query(alloc)),
    }
}
