// Conditions that have no fault at any point.
ghost use Rattle.std.specs.Prelude.{◌≡◌, ◌&&◌, not};
ghost use Rattle.std.specs.List.{list_all};
ghost use Rattle.vtl_cell.specs.Kinds.{same_kind};
ghost use Rattle.vtl_tree.specs.View.{comp_exp_of};
ghost use Rattle.vtl_join_filter.specs.Safety.{is_safe, is_total};

use vtl_cell::{Kind, ScalarOp, is_same_kind};
use vtl_tree::CompExpr;

// Whether an operator has a value at all operands.
fn is_total(op: ScalarOp) -> bool
    ensures { result ≡ is_total op }
{
    matches!(
        op,
        ScalarOp::Equal
            | ScalarOp::NotEqual
            | ScalarOp::Less
            | ScalarOp::LessOrEqual
            | ScalarOp::Greater
            | ScalarOp::GreaterOrEqual
            | ScalarOp::Between
            | ScalarOp::In
            | ScalarOp::NotIn
            | ScalarOp::And
            | ScalarOp::Or
            | ScalarOp::Xor
            | ScalarOp::Not
            | ScalarOp::IsNull
            | ScalarOp::Identity
            | ScalarOp::Trim
            | ScalarOp::TrimLeft
            | ScalarOp::TrimRight
            | ScalarOp::Concat
            | ScalarOp::Substring
            | ScalarOp::Replace
            | ScalarOp::PeriodFrequency
    )
}

// The same where its value is one of this kind: an integer may be no number.
fn is_total_as(op: ScalarOp, kind: Kind) -> bool
    ensures { result ≡ (is_total op && not (same_kind Kind.Num kind)) }
{
    is_total(op) && !is_same_kind(Kind::Num, kind)
}

// Whether a condition is made of columns, constants and such operators: then it has no fault at any point.
#[cycle(safe)]
pub(crate) fn is_safe(condition: &CompExpr) -> bool
    ensures { result ≡ is_safe (comp_exp_of condition.now) }
{
    match condition {
        CompExpr::Column { .. } | CompExpr::Const(_) => true,
        CompExpr::Apply { op, kind, args } => is_total_as(*op, *kind) && are_safe(args),
        CompExpr::Aggregate { .. } => false,
    }
}

#[cycle(safe)]
fn are_safe(conditions: &[CompExpr]) -> bool
    ensures { result ≡ list_all (λ e. is_safe (comp_exp_of e)) conditions.now }
{
    for condition in conditions {
        if !is_safe(condition) {
            return false;
        }
    }
    true
}
