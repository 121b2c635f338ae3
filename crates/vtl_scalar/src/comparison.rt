// The comparisons. None of them takes memory or has a fault.
ghost use Rattle.std.specs.Prelude.{◌≡◌, ◌∷◌, []};
ghost use Rattle.vtl_cell.specs.ScalarComparison.{between_of, member_of, membership_of, order_of, truth};

use crate::operands::units;
use std::cmp::Ordering;
use vtl_cell::Cell;
use vtl_decimal::Profile;

/// A boolean, or null where there is none.
pub fn truth(b: Option<bool>) -> Cell
    ensures { result ≡ truth b }
{
    match b {
        Some(b) => Cell::Bool(b),
        None => Cell::Null,
    }
}

// The order of two values of one kind, or of an integer and a number by value. None with null or for two other kinds.
pub(crate) fn order(a: &Cell, b: &Cell, p: &Profile) -> Option<Ordering>
    ensures { result ≡ order_of p.now a.now b.now }
{
    match (a, b) {
        (Cell::Bool(a), Cell::Bool(b)) => Some(a.cmp(b)),
        (Cell::Int(a), Cell::Int(b)) => Some(a.cmp(b)),
        (Cell::Int(a), Cell::Num(b)) => Some(units(*a, p).cmp(&i128::from(b.k()))),
        (Cell::Num(a), Cell::Int(b)) => Some(i128::from(a.k()).cmp(&units(*b, p))),
        (Cell::Num(a), Cell::Num(b)) => Some(a.cmp(b)),
        (Cell::Text(a), Cell::Text(b)) => Some(a.cmp(b)),
        (Cell::Day(a), Cell::Day(b)) => Some(a.cmp(b)),
        (Cell::Period(a), Cell::Period(b)) => Some(a.cmp(b)),
        _ => None,
    }
}

pub(crate) fn between(a: &Cell, x: &Cell, y: &Cell, p: &Profile) -> Option<bool>
    ensures { result ≡ between_of p.now a.now x.now y.now }
{
    let from = order(a, x, p)?;
    let to = order(a, y, p)?;
    Some(from.is_ge() && to.is_le())
}

// Whether one of the members equals the value.
pub(crate) fn member(a: &Cell, members: &[Cell], p: &Profile) -> Option<bool>
    ensures { result ≡ member_of p.now a.now members.now }
{
    let mut found = false;
    for x in members {
        let is_this = order(a, x, p)?.is_eq();
        found = is_this || found;
    }
    Some(found)
}

// Whether one of two members equals the value.
#[tactic(auto, using(crate::proofs::MemberLemmas::member_of_two))]
pub(crate) fn member_of_two(a: &Cell, x: &Cell, y: &Cell, p: &Profile) -> Option<bool>
    ensures { result ≡ member_of p.now a.now (x.now ∷ y.now ∷ []) }
{
    let is_first = order(a, x, p)?.is_eq();
    let is_second = order(a, y, p)?.is_eq();
    Some(is_first || is_second)
}

// Whether the first operand is one of the others.
pub(crate) fn membership(args: &[Cell], p: &Profile) -> Option<bool>
    ensures { result ≡ membership_of p.now args.now }
{
    match args {
        [a, members @ ..] if !members.is_empty() => member(a, members, p),
        _ => None,
    }
}
