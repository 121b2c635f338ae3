// The kinds that aggregates take and give.
ghost use Rattle.std.specs.Prelude.{◌≡◌};
ghost use Rattle.check_groups.specs.Aggregates.{agg_kind, aggregate_kind, count_kind};

use vtl_cell::{AggKind, Kind};
use vtl_syntax::AggregateName;

pub(crate) fn agg_kind(function: AggregateName) -> AggKind
    ensures { result ≡ agg_kind function }
{
    match function {
        AggregateName::Sum => AggKind::Sum,
        AggregateName::Avg => AggKind::Avg,
        AggregateName::Count => AggKind::Count,
        AggregateName::Min => AggKind::Min,
        AggregateName::Max => AggKind::Max,
        AggregateName::Median => AggKind::Median,
    }
}

/// The kind that an aggregate gives for values of a kind, where it takes them.
pub(crate) fn aggregate_kind(function: AggregateName, kind: Kind) -> Option<Kind>
    ensures { result ≡ aggregate_kind function kind }
{
    vtl_cell::aggregate_kind(agg_kind(function), kind)
}

/// The kind that an aggregate without an operand gives: there is only the number of points.
pub(crate) fn count_kind(function: AggregateName) -> Option<Kind>
    ensures { result ≡ count_kind function }
{
    match function {
        AggregateName::Count => Some(Kind::Int),
        _ => None,
    }
}
