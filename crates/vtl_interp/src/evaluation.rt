// The evaluation of expressions on data sets.
ghost use Rattle.std.specs.Prelude.{map};
ghost use Rattle.vtl_cell.specs.Outcome.{after};
ghost use Rattle.vtl_sets.specs.DataSets.{with_structure};
ghost use Rattle.vtl_tree.specs.Clauses.{filter_of};
ghost use Rattle.vtl_tree.specs.Trees.{nodes_of, operands_of, structure_of};
ghost use Rattle.vtl_tree.specs.View.{comp_exp_of};
ghost use Rattle.vtl_meaning.specs.Made.{IsFiltered};
ghost use Rattle.vtl_tree.specs.NodeView.{node_tree, operand_tree};
ghost use Rattle.vtl_scalar.specs.Answers.{AnswersBy};
ghost use Rattle.vtl_scripts.specs.Made.{AreMade, AreMadeOperands, IsMade, IsMadeMaybe};
ghost use Rattle.vtl_scripts.specs.Meaning.{maybe_value, node_value, nodes_value, operands_value};
ghost use Rattle.vtl_tree.specs.Environment.{known_in};
ghost use Rattle.vtl_interp.specs.Evaluated.{Evaluates};
ghost use Rattle.vtl_interp.specs.Values.{imbalance_tree, maybe_view, value_view, values_view};

use crate::applied::{apply_to_one, apply_to_two};
use crate::checks::check;
use crate::combinations::{choose, filter, filter_join, intersect, join, union};
use crate::held::Known;
use crate::value::Value;
use std::alloc::Global;
use vtl_decimal::Profile;
use vtl_scalar::ScalarErr;
use vtl_tree::{CompExpr, JoinOperand, Node, NodeForm, Structure};

/// The data set of an expression, or the fault of the first of its parts that has one: operands before operators, from
/// left to right. It is made over the data sets that are held.
#[cycle(evaluated)]
pub fn evaluate<'a>(
    alloc: Global,
    known: &'a Known,
    node: &Node,
    p: &Profile,
) -> Result<Value<'a>, ScalarErr>
    requires made { IsMade p.now (known_in known.now.entries) (node_tree node.now) }
    ensures { Evaluates value_view p.now known.now.entries (node_tree node.now) result }
{
    match &node.form {
        NodeForm::Named(name) => match known.get(name) {
            Some(set) => Ok(Value::Lent(set)),
            None => unreachable!(),
        },
        NodeForm::Measures { a, .. }
        | NodeForm::Member { a, .. }
        | NodeForm::Calc { a, .. }
        | NodeForm::Keep { a, .. }
        | NodeForm::DropNamed { a, .. }
        | NodeForm::Rename { a, .. }
        | NodeForm::Sub { a, .. }
        | NodeForm::Pivot { a, .. }
        | NodeForm::Unpivot { a, .. }
        | NodeForm::Aggregate { a, .. }
        | NodeForm::Analytic { a, .. }
        | NodeForm::Time { a, .. }
        | NodeForm::CheckDatapoint { a, .. }
        | NodeForm::CheckHierarchy { a, .. }
        | NodeForm::Hierarchy { a, .. } => {
            apply_to_one(alloc, node, evaluate(alloc, known, a, p)?, p)
        }
        NodeForm::Filter { a, c } => evaluate_filter(alloc, known, a, c, &node.structure, p),
        NodeForm::Pair { a, b, .. }
        | NodeForm::SetDiff { a, b }
        | NodeForm::SymDiff { a, b }
        | NodeForm::ExistsIn { a, b, .. } => {
            let left = evaluate(alloc, known, a, p)?;
            let right = evaluate(alloc, known, b, p)?;
            apply_to_two(alloc, node, left, right, p)
        }
        NodeForm::Choose { c, a, b } => {
            let condition = evaluate(alloc, known, c, p)?;
            let first = evaluate(alloc, known, a, p)?;
            let second = evaluate(alloc, known, b, p)?;
            choose(alloc, condition, first, second, &node.structure)
        }
        NodeForm::Join { operands, spec } => {
            let sets = evaluate_operands(alloc, known, operands, p)?;
            join(alloc, spec.kind, &sets, operands, &node.structure)
        }
        NodeForm::Union(nodes) => {
            let sets = evaluate_all(alloc, known, nodes, p)?;
            union(alloc, &sets, &node.structure)
        }
        NodeForm::Intersect(nodes) => {
            let sets = evaluate_all(alloc, known, nodes, p)?;
            intersect(alloc, &sets, &node.structure)
        }
        NodeForm::Check { a, imbalance, spec } => {
            let tested = evaluate(alloc, known, a, p)?;
            let other = evaluate_imbalance(alloc, known, imbalance, p)?;
            check(alloc, tested, other, spec, p, &node.structure)
        }
    }
}

// A filter of an expression. Of a join the condition is asked as its points are made.
#[cycle(evaluated)]
fn evaluate_filter<'a>(
    alloc: Global,
    known: &'a Known,
    a: &Node,
    condition: &CompExpr,
    made: &Structure,
    p: &Profile,
) -> Result<Value<'a>, ScalarErr>
    requires made { IsMade p.now (known_in known.now.entries) (node_tree a.now) }
    requires filtered { IsFiltered p.now (comp_exp_of condition.now) (structure_of (node_tree a.now)) made.now }
    ensures { AnswersBy value_view result (with_structure made.now (after (node_value p.now known.now.entries (node_tree a.now)) (filter_of p.now (comp_exp_of condition.now)))) }
{
    match &a.form {
        NodeForm::Join { operands, spec } => {
            let sets = evaluate_operands(alloc, known, operands, p)?;
            filter_join(
                alloc,
                spec.kind,
                &sets,
                operands,
                &a.structure,
                condition,
                made,
                p,
            )
        }
        _ => {
            let set = evaluate(alloc, known, a, p)?;
            filter(alloc, set, condition, made, p)
        }
    }
}

// The data sets of several expressions, one after the other.
#[cycle(evaluated)]
fn evaluate_all<'a>(
    alloc: Global,
    known: &'a Known,
    nodes: &[Node],
    p: &Profile,
) -> Result<Vec<Value<'a>>, ScalarErr>
    requires made { AreMade p.now (known_in known.now.entries) (nodes_of (map node_tree nodes.now)) }
    ensures { AnswersBy values_view result (nodes_value p.now known.now.entries (nodes_of (map node_tree nodes.now))) }
{
    let mut sets = Vec::new(alloc);
    for node in nodes {
        sets.push(evaluate(alloc, known, node, p)?)?;
    }
    Ok(sets)
}

// The data sets of the operands of a join, one after the other.
#[cycle(evaluated)]
fn evaluate_operands<'a>(
    alloc: Global,
    known: &'a Known,
    operands: &[JoinOperand],
    p: &Profile,
) -> Result<Vec<Value<'a>>, ScalarErr>
    requires made { AreMadeOperands p.now (known_in known.now.entries) (operands_of (map operand_tree operands.now)) }
    ensures { AnswersBy values_view result (operands_value p.now known.now.entries (operands_of (map operand_tree operands.now))) }
{
    let mut sets = Vec::new(alloc);
    for operand in operands {
        sets.push(evaluate(alloc, known, &operand.node, p)?)?;
    }
    Ok(sets)
}

// The data set of the imbalance of a check, where one is written.
#[cycle(evaluated)]
fn evaluate_imbalance<'a>(
    alloc: Global,
    known: &'a Known,
    imbalance: &Option<Box<Node>>,
    p: &Profile,
) -> Result<Option<Value<'a>>, ScalarErr>
    requires made { IsMadeMaybe p.now (known_in known.now.entries) (imbalance_tree imbalance.now) }
    ensures { AnswersBy maybe_view result (maybe_value p.now known.now.entries (imbalance_tree imbalance.now)) }
{
    match imbalance {
        Some(node) => Ok(Some(evaluate(alloc, known, node, p)?)),
        None => Ok(None),
    }
}
