// The kinds that analytic calls take and give.
ghost use Rattle.std.specs.Prelude.{◌≡◌};
ghost use Rattle.vtl_syntax.specs.View.{expr_tree};
ghost use Rattle.check_groups.specs.Windowed.{is_rank, is_unfit_over, over_kind, window_kind};

use crate::kinds::aggregate_kind;
use vtl_cell::{Kind, number_of};
use vtl_syntax::{Expr, ValueWindowName};

fn window_kind(function: ValueWindowName, kind: Kind) -> Option<Kind>
    ensures { result ≡ window_kind function kind }
{
    match function {
        ValueWindowName::FirstValue | ValueWindowName::LastValue => Some(kind),
        ValueWindowName::RatioToReport => number_of(kind),
    }
}

/// The kind that an analytic call gives for values of a kind, where it takes them.
pub(crate) fn over_kind(call: &Expr, kind: Kind) -> Option<Kind>
    ensures { result ≡ over_kind (expr_tree call.now) kind }
{
    match call {
        Expr::AggregateOver { function, .. } => aggregate_kind(*function, kind),
        Expr::ValueWindow { function, .. } => window_kind(*function, kind),
        Expr::Shift { .. } => Some(kind),
        _ => Some(Kind::Int),
    }
}

/// Whether a call is of `rank`, the only one without an operand.
pub(crate) fn is_rank(call: &Expr) -> bool
    ensures { result ≡ is_rank (expr_tree call.now) }
{
    match call {
        Expr::Rank(_) => true,
        _ => false,
    }
}

/// Whether the operand of an analytic call is missing, or its kind does not fit.
pub(crate) fn is_unfit_over(call: &Expr, kind: Option<Kind>) -> bool
    ensures { result ≡ is_unfit_over (expr_tree call.now) kind }
{
    match kind {
        Some(kind) => over_kind(call, kind).is_none(),
        None => !is_rank(call),
    }
}
