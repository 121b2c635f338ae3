// The values that literals write.
ghost use Rattle.std.specs.Prelude.{◌≡◌, IfOk};
ghost use Rattle.std.specs.Result.{result_ok};
ghost use Rattle.vtl_cell.specs.ScalarArithmetic.{negation_of};
ghost use Rattle.vtl_cell.specs.Literals.{integer_cell, integer_written, is_null_kind, lies_between, number_cell, with_sign, written};

use crate::{Cell, Kind, read_cell};
use std::alloc::{AllocError, Global};
use vtl_decimal::{Profile, neg, read_literal, read_whole_literal, whole};
use vtl_text::Txt;

/// The last place in a text that a literal may name.
pub const LARGEST_PLACE: i64 = 1_000_000_000;

/// How far from a row a frame or an offset may reach, and how far on and back a period may be shifted.
pub const LONGEST_REACH: i64 = 1_000_000;

/// The integer that digits write, where it is in range.
pub fn integer_written(profile: &Profile, digits: &Txt) -> Option<i64>
    ensures { result ≡ integer_written profile.now digits.now }
{
    read_whole_literal(digits.as_str(), profile).ok()
}

/// The integer that digits write, where it is in range.
pub fn integer_cell(profile: &Profile, digits: &Txt) -> Option<Cell>
    ensures { result ≡ integer_cell profile.now digits.now }
{
    integer_written(profile, digits).map(Cell::Int)
}

/// The number that digits with a point write, rounded once, where it is in range.
pub fn number_cell(profile: &Profile, digits: &Txt) -> Option<Cell>
    ensures { result ≡ number_cell profile.now digits.now }
{
    read_literal(digits.as_str(), profile).ok().map(Cell::Num)
}

/// The value of a kind that a text stands for. It fails only if memory runs out.
pub fn written(
    alloc: Global,
    profile: &Profile,
    kind: Kind,
    text: &Txt,
) -> Result<Option<Cell>, AllocError>
    ensures { IfOk result (λ o. o ≡ written profile.now kind text.now) }
{
    read_cell(alloc, kind, text.as_str(), profile)
}

// The negation of a number, where it is in range.
fn negated(profile: &Profile, cell: Cell) -> Option<Cell>
    ensures { result ≡ result_ok (negation_of profile.now cell) }
{
    match cell {
        Cell::Int(n) => match whole(-i128::from(n), profile) {
            Ok(n) => Some(Cell::Int(n)),
            Err(_) => None,
        },
        Cell::Num(k) => Some(Cell::Num(neg(k))),
        _ => Some(Cell::Null),
    }
}

/// A number with its sign.
pub fn with_sign(profile: &Profile, negative: bool, cell: Option<Cell>) -> Option<Cell>
    ensures { result ≡ with_sign profile.now negative cell }
{
    if negative {
        negated(profile, cell?)
    } else {
        cell
    }
}

/// Whether there is an integer, and it lies in this interval.
pub fn lies_between(low: i64, high: i64, n: Option<i64>) -> bool
    ensures { result ≡ lies_between low high n }
{
    match n {
        Some(n) => low <= n && n <= high,
        None => false,
    }
}

/// Whether a kind is that of null alone.
pub fn is_null_kind(kind: Kind) -> bool
    ensures { result ≡ is_null_kind kind }
{
    match kind {
        Kind::Null => true,
        _ => false,
    }
}
