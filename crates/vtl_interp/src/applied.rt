// The operator of a node, on the data sets that its operands give.
ghost use Rattle.std.specs.Prelude.{◌≡◌, IfOk, Ok};
ghost use Rattle.vtl_scalar.specs.Answers.{Answers};
ghost use Rattle.vtl_tree.specs.Environment as sets;
ghost use Rattle.vtl_tree.specs.Environment.{Environment, known_in};
ghost use Rattle.vtl_tree.specs.NodeView.{form_tree, node_tree};
ghost use Rattle.vtl_scripts.specs.Made.{IsMade};
ghost use Rattle.vtl_interp.specs.Evaluated.{Evaluates, GivesOne, GivesTwo};
ghost use Rattle.vtl_interp.specs.Values.{value_view};

use crate::times::timed;
use crate::value::Value;
use std::alloc::{AllocError, Global};
use vtl_clause::{calc, rename, sub};
use vtl_combine::{exists_in, pivot, setdiff, symdiff, unpivot};
use vtl_decimal::Profile;
use vtl_expr::{keep_columns, map_measures, pair_measures};
use vtl_group::aggregate;
use vtl_rules::{check_datapoint, check_hierarchy, hierarchy};
use vtl_scalar::ScalarErr;
use vtl_sets::DataSet;
use vtl_tree::{Node, NodeForm};
use vtl_window::analytic;

// The answer of an operator that has no faults.
fn answered(set: Result<DataSet, AllocError>) -> Result<DataSet, ScalarErr>
    ensures { (d : sets.DataSet) → IfOk set (λ x. x ≡ d) → Answers result (Ok d) }
{
    Ok(set?)
}

// An operator or a clause on one data set.
fn made_of_one(alloc: Global, node: &Node, a: DataSet, p: &Profile) -> Result<DataSet, ScalarErr>
    requires { (env : Environment) × IsMade p.now (known_in env) (node_tree node.now) × GivesOne p.now env (form_tree node.now.form) a }
    ensures { (env : Environment) → IsMade p.now (known_in env) (node_tree node.now) → GivesOne p.now env (form_tree node.now.form) a → Evaluates (λ d. d) p.now env (node_tree node.now) result }
{
    let made = &node.structure;
    match &node.form {
        NodeForm::Measures { op, .. } => map_measures(alloc, op, &a, made, p),
        NodeForm::Member { .. } => answered(keep_columns(alloc, a, made)),
        NodeForm::Keep { .. } => answered(keep_columns(alloc, a, made)),
        NodeForm::DropNamed { .. } => answered(keep_columns(alloc, a, made)),
        NodeForm::Calc { items, .. } => calc(alloc, &a, items.as_slice(), made, p),
        NodeForm::Rename { .. } => answered(rename(alloc, &a, made)),
        NodeForm::Sub { values, .. } => answered(sub(alloc, &a, values.as_slice(), made)),
        NodeForm::Pivot { id, m, .. } => answered(pivot(alloc, &a, id, m, made)),
        NodeForm::Unpivot { .. } => answered(unpivot(alloc, &a, made)),
        NodeForm::Aggregate { spec, .. } => aggregate(alloc, &a, spec, made, p),
        NodeForm::Analytic { spec, .. } => analytic(alloc, &a, spec, made, p),
        NodeForm::Time { op, .. } => timed(alloc, &a, op, made, p),
        NodeForm::CheckDatapoint { rules, out, .. } => {
            check_datapoint(alloc, &a, rules, *out, p, made)
        }
        NodeForm::CheckHierarchy {
            rules,
            mode,
            out,
            ..
        } => check_hierarchy(alloc, &a, rules, *mode, *out, p, made),
        NodeForm::Hierarchy {
            rules,
            mode,
            input,
            out,
            ..
        } => hierarchy(alloc, &a, rules, *mode, *input, *out, p, made),
        _ => unreachable!(),
    }
}

/// An operator or a clause on one data set, which the node's operand gives over some data sets: then it is what the node
/// gives over them.
pub fn apply_to_one<'a>(
    alloc: Global,
    node: &Node,
    a: Value<'a>,
    p: &Profile,
) -> Result<Value<'a>, ScalarErr>
    requires { (env : Environment) × IsMade p.now (known_in env) (node_tree node.now) × GivesOne p.now env (form_tree node.now.form) (value_view a) }
    ensures { (env : Environment) → IsMade p.now (known_in env) (node_tree node.now) → GivesOne p.now env (form_tree node.now.form) (value_view a.entry) → Evaluates value_view p.now env (node_tree node.now) result }
{
    let data = a.into_data(alloc)?;
    Ok(Value::Made(made_of_one(alloc, node, data, p)?))
}

// An operator between two data sets.
fn made_of_two(
    alloc: Global,
    node: &Node,
    a: &DataSet,
    b: &DataSet,
    p: &Profile,
) -> Result<DataSet, ScalarErr>
    requires { (env : Environment) × IsMade p.now (known_in env) (node_tree node.now) × GivesTwo p.now env (form_tree node.now.form) a.now b.now }
    ensures { (env : Environment) → IsMade p.now (known_in env) (node_tree node.now) → GivesTwo p.now env (form_tree node.now.form) a.now b.now → Evaluates (λ d. d) p.now env (node_tree node.now) result }
{
    let made = &node.structure;
    match &node.form {
        NodeForm::Pair { op, .. } => pair_measures(alloc, *op, a, b, made, p),
        NodeForm::SetDiff { .. } => answered(setdiff(alloc, a, b, made)),
        NodeForm::SymDiff { .. } => answered(symdiff(alloc, a, b, made)),
        NodeForm::ExistsIn { retain, .. } => answered(exists_in(alloc, a, b, *retain, made)),
        _ => unreachable!(),
    }
}

/// An operator between two data sets, which the node's operands give over some data sets: then it is what the node gives
/// over them.
pub fn apply_to_two<'a>(
    alloc: Global,
    node: &Node,
    a: Value<'a>,
    b: Value<'a>,
    p: &Profile,
) -> Result<Value<'a>, ScalarErr>
    requires { (env : Environment) × IsMade p.now (known_in env) (node_tree node.now) × GivesTwo p.now env (form_tree node.now.form) (value_view a) (value_view b) }
    ensures { (env : Environment) → IsMade p.now (known_in env) (node_tree node.now) → GivesTwo p.now env (form_tree node.now.form) (value_view a.entry) (value_view b.entry) → Evaluates value_view p.now env (node_tree node.now) result }
{
    Ok(Value::Made(made_of_two(alloc, node, a.data(), b.data(), p)?))
}
