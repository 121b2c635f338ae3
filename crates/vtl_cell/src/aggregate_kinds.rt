// The kinds that aggregates take and give.
ghost use Rattle.std.specs.Prelude.{◌≡◌};
ghost use Rattle.vtl_cell.specs.AggregateKinds.{aggregate_kind, is_number, number_of, sum_kind};

use crate::{AggKind, Kind, meets};

/// Whether values of a kind may stand where numbers are wanted.
pub fn is_number(kind: Kind) -> bool
    ensures { result ≡ is_number kind }
{
    meets(Kind::Num, kind)
}

fn sum_kind(kind: Kind) -> Option<Kind>
    ensures { result ≡ sum_kind kind }
{
    if meets(Kind::Int, kind) {
        Some(Kind::Int)
    } else {
        number_of(kind)
    }
}

/// A number, where the kind is one.
pub fn number_of(kind: Kind) -> Option<Kind>
    ensures { result ≡ number_of kind }
{
    if is_number(kind) {
        Some(Kind::Num)
    } else {
        None
    }
}

/// The kind that an aggregate gives for values of a kind, where it takes them.
pub fn aggregate_kind(function: AggKind, kind: Kind) -> Option<Kind>
    ensures { result ≡ aggregate_kind function kind }
{
    match function {
        AggKind::Sum => sum_kind(kind),
        AggKind::Avg | AggKind::Median => number_of(kind),
        AggKind::Count => Some(Kind::Int),
        AggKind::Min | AggKind::Max => Some(kind),
    }
}
