// The query of each form of one operand, of two and of three, over the tables of its operands.
ghost use Rattle.std.specs.Prelude.{◌≡◌, IfOk};
ghost use Rattle.vtl_tree.specs.Trees.{structure_of};
ghost use Rattle.vtl_tree.specs.NodeView.{form_tree, node_tree};
ghost use Rattle.sql_tree.specs.View.{query_tree};
ghost use Rattle.vtl_to_sql.specs.FormQueries.{query_of_one, query_of_three, query_of_two};

use crate::existence_queries::existence_query;
use crate::set_operators::SetOperator;
use crate::set_queries::set_query;
use groups_to_sql::{aggregate_query, analytic_query, pivot_query, unpivot_query};
use rules_to_sql::{check_query, datapoint_query, imbalance_query};
use selects_to_sql::{
    Operand, Writer, calc_query, choose_query, left_query, measures_query, no_query, pair_query,
    rename_query, sub_query,
};
use sql_tree::Query;
use std::alloc::{AllocError, Global};
use vtl_text::Txt;
use vtl_tree::{Node, NodeForm, Structure};

/// An operand with the table that stands for it.
pub(crate) fn operand<'a>(node: &'a Node, table: &'a Txt) -> Operand<'a>
    ensures structure { result.structure.now ≡ structure_of (node_tree node.now) }
    ensures table { result.table.now ≡ table.now }
{
    Operand {
        structure: &node.structure,
        table,
    }
}

/// The query of a form of one operand other than a filter, and none of any other form. It fails only if memory runs out.
pub(crate) fn query_of_one(
    alloc: Global,
    writer: &Writer,
    form: &NodeForm,
    s: &Structure,
    table: &Txt,
) -> Result<Query, AllocError>
    ensures { IfOk result (λ q. query_tree q ≡ query_of_one writer.now (form_tree form.now) s.now table.now) }
{
    match form {
        NodeForm::Measures { op, a } => measures_query(alloc, writer, op, &a.structure, s, table),
        NodeForm::Calc { items, .. } => calc_query(alloc, writer, items.as_slice(), s, table),
        NodeForm::Rename { a, .. } => rename_query(alloc, writer, &a.structure, s, table),
        NodeForm::Sub { values, .. } => sub_query(alloc, writer, values.as_slice(), s, table),
        NodeForm::Pivot { a, id, m } => {
            pivot_query(alloc, writer, id, m, &a.structure, s, table)
        }
        NodeForm::Aggregate { spec, .. } => aggregate_query(alloc, writer, spec, s, table),
        NodeForm::Analytic { a, spec } => {
            analytic_query(alloc, writer, spec, &a.structure, s, table)
        }
        NodeForm::Unpivot { a, .. } => unpivot_query(alloc, writer, &a.structure, s, table),
        NodeForm::Member { .. } => left_query(alloc, writer, s, table),
        NodeForm::Keep { .. } => left_query(alloc, writer, s, table),
        NodeForm::DropNamed { .. } => left_query(alloc, writer, s, table),
        NodeForm::Check {
            a,
            imbalance: None,
            spec,
        } => check_query(alloc, writer, spec, &operand(a, table), s),
        NodeForm::CheckDatapoint { a, rules, out } => {
            let rules = rules.rules.as_slice();
            datapoint_query(alloc, writer, rules, *out, &operand(a, table), s)
        }
        _ => Ok(no_query(alloc)),
    }
}

/// The query of a form of two operands that are no list, and none of any other form. It fails only if memory runs out.
pub(crate) fn query_of_two(
    alloc: Global,
    writer: &Writer,
    form: &NodeForm,
    s: &Structure,
    first: &Txt,
    second: &Txt,
) -> Result<Query, AllocError>
    ensures { IfOk result (λ q. query_tree q ≡ query_of_two writer.now (form_tree form.now) s.now first.now second.now) }
{
    match form {
        NodeForm::Pair { op, a, b } => {
            let (a, b) = (operand(a, first), operand(b, second));
            pair_query(alloc, writer, *op, &a, &b, s)
        }
        NodeForm::SetDiff { .. } => {
            set_query(alloc, writer, SetOperator::Difference, s, first, second)
        }
        NodeForm::SymDiff { .. } => {
            let operator = SetOperator::SymmetricDifference;
            set_query(alloc, writer, operator, s, first, second)
        }
        NodeForm::ExistsIn { a, b, retain } => {
            let (a, b) = (operand(a, first), operand(b, second));
            existence_query(alloc, writer, *retain, &a, &b, s)
        }
        NodeForm::Check {
            a,
            imbalance: Some(imbalance),
            spec,
        } => {
            let (a, imbalance) = (operand(a, first), operand(imbalance, second));
            imbalance_query(alloc, writer, spec, &a, &imbalance, s)
        }
        _ => Ok(no_query(alloc)),
    }
}

/// The query of `if` on data sets, and none of any other form. It fails only if memory runs out.
pub(crate) fn query_of_three(
    alloc: Global,
    writer: &Writer,
    form: &NodeForm,
    s: &Structure,
    first: &Txt,
    second: &Txt,
    third: &Txt,
) -> Result<Query, AllocError>
    ensures { IfOk result (λ q. query_tree q ≡ query_of_three writer.now (form_tree form.now) s.now first.now second.now third.now) }
{
    match form {
        NodeForm::Choose { c, a, b } => {
            let (a, b) = (operand(a, second), operand(b, third));
            choose_query(alloc, writer, &operand(c, first), &a, &b, s)
        }
        _ => Ok(no_query(alloc)),
    }
}
