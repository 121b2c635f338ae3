// Whether an aggregate stands in an expression.
ghost use Rattle.std.specs.Prelude.{◌≡◌, map};
ghost use Rattle.sql_tree.specs.Trees.{branches_of, exps_of};
ghost use Rattle.sql_tree.specs.View.{branch_tree, expr_tree};
ghost use Rattle.sql_check_parts.specs.Expressions.{branches_aggregate, has_aggregate, some_aggregate};

use sql_tree::{Branch, SqlExpr};

/// Whether an aggregate stands in an expression.
#[cycle(aggregates)]
#[tactic(auto, using(crate::proofs::Views::views))]
pub fn has_aggregate(e: &SqlExpr) -> bool
    ensures { result ≡ has_aggregate (expr_tree e.now) }
{
    match e {
        SqlExpr::Binary { left, right, .. } => has_aggregate(left) || has_aggregate(right),
        SqlExpr::Unary { operand, .. } => has_aggregate(operand),
        SqlExpr::IsNull { operand, .. } => has_aggregate(operand),
        SqlExpr::InList { operand, .. } => has_aggregate(operand),
        SqlExpr::Call { operands, .. } => some_aggregate(operands),
        SqlExpr::CountAll | SqlExpr::Aggregate { .. } => true,
        SqlExpr::Case { branches, other } => branches_aggregate(branches) || has_aggregate(other),
        SqlExpr::Constant(_) | SqlExpr::Column(_) | SqlExpr::Exists { .. } => false,
    }
}

#[cycle(aggregates)]
fn some_aggregate(operands: &[SqlExpr]) -> bool
    ensures { result ≡ some_aggregate (exps_of (map expr_tree operands.now)) }
{
    for operand in operands {
        if has_aggregate(operand) {
            return true;
        }
    }
    false
}

#[cycle(aggregates)]
#[tactic(auto, using(crate::proofs::Views::views))]
fn branches_aggregate(branches: &[Branch]) -> bool
    ensures { result ≡ branches_aggregate (branches_of (map branch_tree branches.now)) }
{
    for branch in branches {
        if has_aggregate(&branch.condition) || has_aggregate(&branch.value) {
            return true;
        }
    }
    false
}
