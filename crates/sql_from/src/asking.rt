// Whether EXISTS is asked.
//
// What asks no EXISTS wants no look-ups (`asks`): that it takes no step is then read from the expression as it is
// written.
ghost use Rattle.std.specs.Prelude.{◌≡◌, map};
ghost use Rattle.sql_tree.specs.Trees.{branches_of, exps_of};
ghost use Rattle.sql_tree.specs.View.{branch_tree, expr_tree};
ghost use Rattle.sql_from.specs.Asking.{asks, branches_ask, some_ask};

use sql_tree::{Branch, SqlExpr};

/// Whether an expression asks EXISTS, itself or in a part. Where it does not, it wants no look-ups.
#[cycle(asking)]
#[tactic(auto, using(crate::proofs::Views::views))]
pub fn asks(e: &SqlExpr) -> bool
    ensures { result ≡ asks (expr_tree e.now) }
{
    match e {
        SqlExpr::Binary { left, right, .. } => asks(left) || asks(right),
        SqlExpr::Unary { operand, .. } => asks(operand),
        SqlExpr::IsNull { operand, .. } => asks(operand),
        SqlExpr::InList { operand, .. } => asks(operand),
        SqlExpr::Call { operands, .. } => some_ask(operands),
        SqlExpr::Aggregate { operand, .. } => asks(operand),
        SqlExpr::Case { branches, other } => branches_ask(branches) || asks(other),
        SqlExpr::Exists { .. } => true,
        SqlExpr::Constant(_) | SqlExpr::Column(_) | SqlExpr::CountAll => false,
    }
}

#[cycle(asking)]
fn some_ask(operands: &[SqlExpr]) -> bool
    ensures { result ≡ some_ask (exps_of (map expr_tree operands.now)) }
{
    for operand in operands {
        if asks(operand) {
            return true;
        }
    }
    false
}

#[cycle(asking)]
#[tactic(auto, using(crate::proofs::Views::views))]
fn branches_ask(branches: &[Branch]) -> bool
    ensures { result ≡ branches_ask (branches_of (map branch_tree branches.now)) }
{
    for branch in branches {
        if asks(&branch.condition) || asks(&branch.value) {
            return true;
        }
    }
    false
}
