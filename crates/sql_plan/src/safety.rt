// Whether a select can have a fault before its items.
ghost use Rattle.std.specs.Prelude.{◌≡◌, map};
ghost use Rattle.vtl_scalar.specs.LawOperators.{may_fault};
ghost use Rattle.sql_tree.specs.Trees.{branches_of, exps_of};
ghost use Rattle.sql_tree.specs.View.{branch_tree, expr_tree, join_tree, select_tree};
ghost use Rattle.sql_meaning.specs.Early.{are_safe, have_safe, is_safe, is_safe_join};
ghost use Rattle.sql_plan.specs.EarlyChosen.{is_safe_select};

use sql_tree::{Branch, Join, Select, SqlExpr};
use vtl_cell::ScalarOp;

fn may_fault(op: ScalarOp) -> bool
    ensures { result ≡ may_fault op }
{
    match op {
        ScalarOp::Add
        | ScalarOp::Subtract
        | ScalarOp::Multiply
        | ScalarOp::Divide
        | ScalarOp::Floor
        | ScalarOp::Ceil
        | ScalarOp::Round
        | ScalarOp::Position
        | ScalarOp::Length
        | ScalarOp::PeriodShift => true,
        _ => false,
    }
}

/// Whether an expression holds no operator that may have a fault, and no aggregate. It takes no memory.
#[cycle(safe)]
#[tactic(auto, using(crate::proofs::Views::views))]
pub fn is_safe(expression: &SqlExpr) -> bool
    ensures { result ≡ is_safe (expr_tree expression.now) }
{
    match expression {
        SqlExpr::Binary { left, op, right } => {
            !may_fault(*op) && is_safe(left) && is_safe(right)
        }
        SqlExpr::Unary { op, operand } => !may_fault(*op) && is_safe(operand),
        SqlExpr::IsNull { operand, .. } => is_safe(operand),
        SqlExpr::InList { operand, .. } => is_safe(operand),
        SqlExpr::Call { function, operands } => !may_fault(*function) && are_safe(operands),
        SqlExpr::Case { branches, other } => have_safe(branches) && is_safe(other),
        SqlExpr::Constant(_) | SqlExpr::Column(_) | SqlExpr::Exists { .. } => true,
        SqlExpr::CountAll | SqlExpr::Aggregate { .. } => false,
    }
}

#[cycle(safe)]
fn are_safe(operands: &[SqlExpr]) -> bool
    ensures { result ≡ are_safe (exps_of (map expr_tree operands.now)) }
{
    for operand in operands {
        if !is_safe(operand) {
            return false;
        }
    }
    true
}

#[cycle(safe)]
#[tactic(auto, using(crate::proofs::Views::views))]
fn have_safe(branches: &[Branch]) -> bool
    ensures { result ≡ have_safe (branches_of (map branch_tree branches.now)) }
{
    for branch in branches {
        if !is_safe(&branch.condition) || !is_safe(&branch.value) {
            return false;
        }
    }
    true
}

fn is_safe_join(join: &Join) -> bool
    ensures { result ≡ is_safe_join (join_tree join.now) }
{
    match join {
        Join::On { condition, .. } => is_safe(condition),
        Join::Cross(_) => true,
    }
}

/// Whether nothing that FROM and WHERE of a select evaluate can have a fault. It takes no memory.
pub(crate) fn is_safe_select(select: &Select) -> bool
    ensures { result ≡ is_safe_select (select_tree select.now) }
{
    for join in select.joins.as_slice() {
        if !is_safe_join(join) {
            return false;
        }
    }
    match &select.condition {
        Some(condition) => is_safe(condition),
        None => true,
    }
}
