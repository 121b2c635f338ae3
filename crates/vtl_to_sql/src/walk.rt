// The tables of an expression on data sets.
ghost use Rattle.std.specs.Prelude.{◌≡◌, ◌++◌, ◌∷◌, [], length, map, IfOk, OnOk};
ghost use Rattle.vtl_tree.specs.NodeView.{form_tree, node_tree, operand_tree};
ghost use Rattle.sql_tree.specs.View.{query_tree, statement_tree};
ghost use Rattle.joins_to_sql.specs.FilteredJoins.{condition_of, filtered_by};
ghost use Rattle.selects_to_sql.specs.Tables.{create_for};
ghost use Rattle.vtl_tree.specs.Trees.{join, operands_of};
ghost use Rattle.vtl_tree.specs.View.{comp_exp_of};
ghost use Rattle.vtl_tree.specs.Shown.{shown};
ghost use Rattle.vtl_tree.specs.Joins.{structures_of};
ghost use Rattle.vtl_scripts.specs.Made.{operands_in};
ghost use Rattle.vtl_to_sql.specs.Combined.{combined_made};
ghost use Rattle.vtl_to_sql.specs.Tables.{made_of_filter, made_of_form, operands_of as joined_sources, sources_of};

use crate::form_queries::{operand, query_of_one, query_of_three, query_of_two};
use crate::ruled_queries::ruled_query;
use crate::set_operators::SetOperator;
use crate::set_queries::set_query;
use joins_to_sql::filtered_join_query;
use selects_to_sql::{Draft, Writer, filter_query, left_query, no_query};
use sql_tree::Query;
use std::alloc::{AllocError, Global};
use times_to_sql::time_query;
use vtl_text::Txt;
use vtl_tree::{CompExpr, JoinOperand, JoinSpec, Node, NodeForm, Structure};

/// The name of a table that stands for an operand, for which tables are made first where it is more than a name.
#[cycle(made)]
pub(crate) fn source(
    alloc: Global,
    writer: &Writer,
    node: &Node,
    target: &Txt,
    draft: &mut Draft,
) -> Result<Txt, AllocError>
    ensures name { IfOk result (λ t. t ∷ [] ≡ (sources_of writer.now target.now (node_tree node.now) draft.old.next).names) }
    ensures tables { OnOk result (map statement_tree draft.new.statements.items ≡ map statement_tree draft.old.statements.items ++ map create_for (sources_of writer.now target.now (node_tree node.now) draft.old.next).tables) }
    ensures next { OnOk result (draft.new.next ≡ (sources_of writer.now target.now (node_tree node.now) draft.old.next).next) }
{
    match &node.form {
        NodeForm::Named(name) => name.share(),
        form => {
            let query = query(alloc, writer, form, &node.structure, target, draft)?;
            draft.store(alloc, target, query)
        }
    }
}

// The structures of the operands of a join.
fn joined_structures(alloc: Global, operands: &[JoinOperand]) -> Result<Vec<&Structure>, AllocError>
    ensures structures { IfOk result (λ v. shown v.items ≡ structures_of (operands_in (operands_of (map operand_tree operands.now)))) }
    ensures many { IfOk result (λ v. length v.items ≡ length operands.now) }
{
    let mut structures = Vec::with_capacity(alloc, operands.len())?;
    for operand in operands {
        structures.push(&operand.node.structure)?;
    }
    Ok(structures)
}

// The names of the tables that stand for the operands of a join, for which tables are made first.
#[cycle(made)]
fn joined_sources(
    alloc: Global,
    writer: &Writer,
    operands: &[JoinOperand],
    target: &Txt,
    draft: &mut Draft,
) -> Result<Vec<Txt>, AllocError>
    ensures names { IfOk result (λ v. v.items ≡ (joined_sources writer.now target.now (operands_of (map operand_tree operands.now)) draft.old.next).names) }
    ensures many { IfOk result (λ v. length v.items ≡ length operands.now) }
    ensures tables { OnOk result (map statement_tree draft.new.statements.items ≡ map statement_tree draft.old.statements.items ++ map create_for (joined_sources writer.now target.now (operands_of (map operand_tree operands.now)) draft.old.next).tables) }
    ensures next { OnOk result (draft.new.next ≡ (joined_sources writer.now target.now (operands_of (map operand_tree operands.now)) draft.old.next).next) }
{
    let mut tables = Vec::with_capacity(alloc, operands.len())?;
    for operand in operands {
        tables.push(source(alloc, writer, &operand.node, target, draft)?)?;
    }
    Ok(tables)
}

// Operands one after the other: what there is and the next operand are in a table of their own, until the last one comes.
#[cycle(made)]
fn combined(
    alloc: Global,
    writer: &Writer,
    operator: SetOperator,
    nodes: &[Node],
    s: &Structure,
    target: &Txt,
    draft: &mut Draft,
) -> Result<Query, AllocError>
    ensures query { IfOk result (λ q. query_tree q ≡ (combined_made operator writer.now target.now s.now (map node_tree nodes.now) draft.old.next).query) }
    ensures tables { OnOk result (map statement_tree draft.new.statements.items ≡ map statement_tree draft.old.statements.items ++ map create_for (combined_made operator writer.now target.now s.now (map node_tree nodes.now) draft.old.next).tables) }
    ensures next { OnOk result (draft.new.next ≡ (combined_made operator writer.now target.now s.now (map node_tree nodes.now) draft.old.next).next) }
{
    let [first, others @ ..] = nodes else {
        return Ok(no_query(alloc));
    };
    let mut so_far = source(alloc, writer, first, target, draft)?;
    let [between @ .., last] = others else {
        return left_query(alloc, writer, s, &so_far);
    };
    for node in between {
        let other = source(alloc, writer, node, target, draft)?;
        let query = set_query(alloc, writer, operator, s, &so_far, &other)?;
        so_far = draft.store(alloc, target, query)?;
    }
    let other = source(alloc, writer, last, target, draft)?;
    set_query(alloc, writer, operator, s, &so_far, &other)
}

// A join, and of its points those that its filter leaves, where it has one. The tables that stand for its operands are made
// first.
#[cycle(made)]
fn join(
    alloc: Global,
    writer: &Writer,
    operands: &[JoinOperand],
    spec: &JoinSpec,
    s: &Structure,
    condition: Option<&CompExpr>,
    target: &Txt,
    draft: &mut Draft,
) -> Result<Query, AllocError>
    ensures query { IfOk result (λ q. query_tree q ≡ filtered_by writer.now (condition_of condition.entry) (made_of_form writer.now target.now s.now (join (operands_of (map operand_tree operands.now)) spec.now) draft.old.next).query) }
    ensures tables { OnOk result (map statement_tree draft.new.statements.items ≡ map statement_tree draft.old.statements.items ++ map create_for (made_of_form writer.now target.now s.now (join (operands_of (map operand_tree operands.now)) spec.now) draft.old.next).tables) }
    ensures next { OnOk result (draft.new.next ≡ (made_of_form writer.now target.now s.now (join (operands_of (map operand_tree operands.now)) spec.now) draft.old.next).next) }
{
    let structures = joined_structures(alloc, operands)?;
    let tables = joined_sources(alloc, writer, operands, target, draft)?;
    filtered_join_query(
        alloc,
        writer,
        spec.kind,
        &structures,
        &tables,
        s,
        condition,
        target,
        draft,
    )
}

// A filter. The query of a join has its condition, so that no point is held that the filter leaves out.
#[cycle(made)]
fn filter(
    alloc: Global,
    writer: &Writer,
    operand: &Node,
    condition: &CompExpr,
    s: &Structure,
    target: &Txt,
    draft: &mut Draft,
) -> Result<Query, AllocError>
    ensures query { IfOk result (λ q. query_tree q ≡ (made_of_filter writer.now target.now s.now (node_tree operand.now) (comp_exp_of condition.now) draft.old.next).query) }
    ensures tables { OnOk result (map statement_tree draft.new.statements.items ≡ map statement_tree draft.old.statements.items ++ map create_for (made_of_filter writer.now target.now s.now (node_tree operand.now) (comp_exp_of condition.now) draft.old.next).tables) }
    ensures next { OnOk result (draft.new.next ≡ (made_of_filter writer.now target.now s.now (node_tree operand.now) (comp_exp_of condition.now) draft.old.next).next) }
{
    match &operand.form {
        NodeForm::Join { operands, spec } => {
            let s = &operand.structure;
            let condition = Some(condition);
            join(alloc, writer, operands, spec, s, condition, target, draft)
        }
        _ => {
            let table = source(alloc, writer, operand, target, draft)?;
            filter_query(alloc, writer, condition, s, &table)
        }
    }
}

/// The query of an expression of a structure. The tables that stand for its operands are made first.
#[cycle(made)]
pub(crate) fn query(
    alloc: Global,
    writer: &Writer,
    form: &NodeForm,
    s: &Structure,
    target: &Txt,
    draft: &mut Draft,
) -> Result<Query, AllocError>
    ensures query { IfOk result (λ q. query_tree q ≡ (made_of_form writer.now target.now s.now (form_tree form.now) draft.old.next).query) }
    ensures tables { OnOk result (map statement_tree draft.new.statements.items ≡ map statement_tree draft.old.statements.items ++ map create_for (made_of_form writer.now target.now s.now (form_tree form.now) draft.old.next).tables) }
    ensures next { OnOk result (draft.new.next ≡ (made_of_form writer.now target.now s.now (form_tree form.now) draft.old.next).next) }
{
    match form {
        NodeForm::Named(name) => left_query(alloc, writer, s, name),
        NodeForm::Measures { a, .. }
        | NodeForm::Calc { a, .. }
        | NodeForm::Sub { a, .. }
        | NodeForm::Pivot { a, .. }
        | NodeForm::Aggregate { a, .. }
        | NodeForm::Analytic { a, .. }
        | NodeForm::Unpivot { a, .. }
        | NodeForm::Member { a, .. }
        | NodeForm::Keep { a, .. }
        | NodeForm::DropNamed { a, .. }
        | NodeForm::CheckDatapoint { a, .. } => {
            let table = source(alloc, writer, a, target, draft)?;
            query_of_one(alloc, writer, form, s, &table)
        }
        NodeForm::Pair { a, b, .. }
        | NodeForm::SetDiff { a, b }
        | NodeForm::SymDiff { a, b }
        | NodeForm::ExistsIn { a, b, .. } => {
            let first = source(alloc, writer, a, target, draft)?;
            let second = source(alloc, writer, b, target, draft)?;
            query_of_two(alloc, writer, form, s, &first, &second)
        }
        NodeForm::Check { a, imbalance, .. } => {
            let first = source(alloc, writer, a, target, draft)?;
            let Some(imbalance) = imbalance else {
                return query_of_one(alloc, writer, form, s, &first);
            };
            let second = source(alloc, writer, imbalance, target, draft)?;
            query_of_two(alloc, writer, form, s, &first, &second)
        }
        NodeForm::Choose { c, a, b } => {
            let first = source(alloc, writer, c, target, draft)?;
            let second = source(alloc, writer, a, target, draft)?;
            let third = source(alloc, writer, b, target, draft)?;
            query_of_three(alloc, writer, form, s, &first, &second, &third)
        }
        NodeForm::Rename { a, pairs } => match pairs.as_slice() {
            // A naming that renames nothing is its operand.
            [] => query(alloc, writer, &a.form, &a.structure, target, draft),
            [_, ..] => {
                let operand = source(alloc, writer, a, target, draft)?;
                query_of_one(alloc, writer, form, s, &operand)
            }
        },
        NodeForm::Join { operands, spec } => {
            join(alloc, writer, operands, spec, s, None, target, draft)
        }
        NodeForm::Union(nodes) => {
            combined(alloc, writer, SetOperator::Union, nodes, s, target, draft)
        }
        NodeForm::Intersect(nodes) => {
            let operator = SetOperator::Intersection;
            combined(alloc, writer, operator, nodes, s, target, draft)
        }
        NodeForm::Time { a, op } => {
            let table = source(alloc, writer, a, target, draft)?;
            time_query(alloc, writer, op, &operand(a, &table), s, target, draft)
        }
        NodeForm::CheckHierarchy { a, .. } | NodeForm::Hierarchy { a, .. } => {
            let operand = source(alloc, writer, a, target, draft)?;
            ruled_query(alloc, writer, form, s, &operand, target, draft)
        }
        NodeForm::Filter { a, c } => filter(alloc, writer, a, c, s, target, draft),
    }
}
