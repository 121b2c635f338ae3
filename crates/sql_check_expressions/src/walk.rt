// The walk over expressions.
ghost use Rattle.std.specs.Prelude.{◌≡◌, ◌++◌, [], IfOk, map};
ghost use Rattle.sql_tree.specs.Trees as tree;
ghost use Rattle.sql_tree.specs.Trees.{branches_of, exps_of};
ghost use Rattle.sql_tree.specs.View.{branch_tree, expr_tree};
ghost use Rattle.vtl_cell.specs.declared.kind.Kind.TheVariants as k;
ghost use Rattle.sql_check_parts.specs.Expressions.{all_break, branches_break, breaks, list_breaks};
ghost use Rattle.sql_check_parts.specs.Kinds.{kind_in, kinds_in, value_kinds};
ghost use Rattle.sql_check_parts.specs.Queries.{condition_at};
ghost use Rattle.sql_check_parts.specs.Rules.{least};
ghost use Rattle.sql_check_parts.specs.Told.{IsTold};
ghost use Rattle.sql_check_expressions.specs.Told.{AreParts, IsToldAt};

use crate::Site;
use crate::operators::{behind, binary, case, count_all, existence, truth};
use crate::parts::Parts;
use sql_check_parts::{
    self, Grouping, SqlRule, Told, column, condition_fault, constant, lesser, list_fault, operator,
};
use sql_tree::{Branch, Literal, SqlExpr};
use std::alloc::{AllocError, Global};
use vtl_cell::{AggKind, ScalarOp};

/// An expression: its kind, and the least of the rules that it breaks. It fails only if memory runs out.
#[cycle(expressions)]
#[tactic(auto, using(crate::proofs::Steps::steps))]
pub fn expression(
    alloc: Global,
    at: &Site,
    group: &Option<Grouping>,
    e: &SqlExpr,
) -> Result<Told, AllocError>
    ensures { IfOk result (IsTold (kind_in at.now.scope (expr_tree e.now)) (breaks at.now group.now (expr_tree e.now))) }
{
    match e {
        SqlExpr::Binary { left, op, right } => {
            let left = expression(alloc, at, group, left)?;
            let right = expression(alloc, at, group, right)?;
            binary(alloc, *op, left, right)
        }
        SqlExpr::Unary { op, operand } => unary(alloc, at, group, *op, operand),
        SqlExpr::IsNull { operand, .. } => {
            let operand = expression(alloc, at, group, operand)?;
            Ok(truth(operand.fault))
        }
        SqlExpr::InList {
            operand,
            literals,
            ..
        } => in_list(alloc, at, group, operand, literals.as_slice()),
        SqlExpr::Constant(value) => constant(alloc, at.profile, value),
        SqlExpr::Column(name) => column(at.scope, group, name),
        SqlExpr::Call { function, operands } => call(alloc, at, group, *function, operands),
        SqlExpr::CountAll => Ok(count_all(group)),
        SqlExpr::Aggregate { function, operand } => aggregate(alloc, at, group, *function, operand),
        SqlExpr::Case { branches, other } => {
            let branches = branch_values(alloc, at, group, branches)?;
            let other = expression(alloc, at, group, other)?;
            case(branches, other)
        }
        SqlExpr::Exists { source, equalities } => {
            existence(alloc, at, group, source, equalities)
        }
    }
}

// `op operand`
#[cycle(expressions)]
#[tactic(auto, using(crate::proofs::Steps::steps))]
fn unary(
    alloc: Global,
    at: &Site,
    group: &Option<Grouping>,
    op: ScalarOp,
    operand: &SqlExpr,
) -> Result<Told, AllocError>
    ensures { IfOk result (IsToldAt at.now group.now (tree.unary op (expr_tree operand.now))) }
{
    let operand = expression(alloc, at, group, operand)?;
    let own = operator(alloc, op, &[operand.kind])?;
    Ok(behind(operand.fault, own))
}

// `operand IN (literals)`
#[cycle(expressions)]
#[tactic(auto, using(crate::proofs::Steps::steps))]
fn in_list(
    alloc: Global,
    at: &Site,
    group: &Option<Grouping>,
    operand: &SqlExpr,
    literals: &[Literal],
) -> Result<Told, AllocError>
    ensures { IfOk result (IsTold k.Bool (breaks at.now group.now (expr_tree operand.now) ++ list_breaks at.now.settings (kind_in at.now.scope (expr_tree operand.now)) literals.now)) }
{
    let operand = expression(alloc, at, group, operand)?;
    let own = list_fault(alloc, at.profile, operand.kind, literals)?;
    Ok(truth(lesser(operand.fault, own)))
}

// `function(operands)`
#[cycle(expressions)]
#[tactic(auto, using(crate::proofs::Steps::steps))]
fn call(
    alloc: Global,
    at: &Site,
    group: &Option<Grouping>,
    function: ScalarOp,
    operands: &[SqlExpr],
) -> Result<Told, AllocError>
    ensures { IfOk result (IsToldAt at.now group.now (tree.call function (exps_of (map expr_tree operands.now)))) }
{
    let parts = all(alloc, at, group, operands)?;
    let own = sql_check_parts::call(alloc, at.profile, function, operands, &parts.kinds)?;
    Ok(behind(parts.fault, own))
}

// An aggregate, whose operand stands at the rows of a group.
#[cycle(expressions)]
#[tactic(auto, using(crate::proofs::Steps::steps))]
fn aggregate(
    alloc: Global,
    at: &Site,
    group: &Option<Grouping>,
    function: AggKind,
    operand: &SqlExpr,
) -> Result<Told, AllocError>
    ensures { IfOk result (IsToldAt at.now group.now (tree.aggregate function (expr_tree operand.now))) }
{
    let rows = None;
    let operand = expression(alloc, at, &rows, operand)?;
    let own = sql_check_parts::aggregate(function, operand.kind, group);
    Ok(behind(operand.fault, own))
}

// The operands of a call.
#[cycle(expressions)]
fn all(
    alloc: Global,
    at: &Site,
    group: &Option<Grouping>,
    operands: &[SqlExpr],
) -> Result<Parts, AllocError>
    ensures { IfOk result (AreParts (kinds_in at.now.scope (exps_of (map expr_tree operands.now))) (all_break at.now group.now (exps_of (map expr_tree operands.now)))) }
{
    let mut parts = Parts::new(alloc);
    for operand in operands {
        parts.put(expression(alloc, at, group, operand)?)?;
    }
    Ok(parts)
}

/// A condition: the least of the rules that it breaks. It fails only if memory runs out.
#[cycle(expressions)]
#[tactic(auto, using(crate::proofs::Steps::steps))]
pub fn condition(
    alloc: Global,
    at: &Site,
    group: &Option<Grouping>,
    e: &SqlExpr,
) -> Result<Option<SqlRule>, AllocError>
    ensures { IfOk result (λ fault. fault ≡ least (condition_at at.now group.now (expr_tree e.now))) }
{
    let value = expression(alloc, at, group, e)?;
    Ok(lesser(value.fault, condition_fault(value.kind)))
}

// A branch of CASE: the kind of its value.
#[cycle(expressions)]
#[tactic(auto, using(crate::proofs::Steps::steps))]
fn branch_value(
    alloc: Global,
    at: &Site,
    group: &Option<Grouping>,
    branch: &Branch,
) -> Result<Told, AllocError>
    ensures { IfOk result (IsTold (kind_in at.now.scope (branch_tree branch.now).1) (condition_at at.now group.now (branch_tree branch.now).0 ++ breaks at.now group.now (branch_tree branch.now).1)) }
{
    let condition = condition(alloc, at, group, &branch.condition)?;
    let value = expression(alloc, at, group, &branch.value)?;
    Ok(behind(condition, value))
}

// The branches of CASE: the kinds of their values.
#[cycle(expressions)]
fn branch_values(
    alloc: Global,
    at: &Site,
    group: &Option<Grouping>,
    branches: &[Branch],
) -> Result<Parts, AllocError>
    ensures { IfOk result (AreParts (value_kinds at.now.scope (branches_of (map branch_tree branches.now)) []) (branches_break at.now group.now (branches_of (map branch_tree branches.now)))) }
{
    let mut parts = Parts::new(alloc);
    for branch in branches {
        parts.put(branch_value(alloc, at, group, branch)?)?;
    }
    Ok(parts)
}
