// Operands that are integers or numbers.
//
// Two operands of arithmetic are first made alike (`pair_of`); a comparison is by value, exactly and without a fault,
// also where no number could hold the integer.
ghost use Rattle.std.specs.Prelude.{◌≡◌, ◌<◌, ◌^◌, unsigned_abs};
ghost use Rattle.vtl_cell.specs.ScalarArithmetic.{as_number, digits_in, number_in, pair_of, units};
ghost use Rattle.vtl_scalar.specs.Operands.{pair_outcome};

use vtl_cell::Cell;
use vtl_decimal::{Dec, Fault, Profile};

// Two operands of an operator that takes integers or numbers: an integer with a number becomes a number.
#[derive(Clone, Copy)]
pub(crate) enum Pair {
    Integers(i64, i64),
    Numbers(Dec, Dec),
    Neither,
}

// An integer in units of the number that equals it.
#[tactic(auto, using(crate::proofs::UnitLemmas::unit_fits))]
pub(crate) fn units(n: i64, p: &Profile) -> i128
    ensures { result ≡ units p.now n }
{
    i128::from(n) * i128::from(10_u64.pow(u32::from(p.scale())))
}

// The number that equals an integer.
pub(crate) fn as_number(n: i64, p: &Profile) -> Result<Dec, Fault>
    ensures { result ≡ as_number p.now n }
{
    vtl_decimal::from_whole(n, p)
}

// The number that an operand stands for.
pub(crate) fn number_in(a: &Cell, p: &Profile) -> Result<Option<Dec>, Fault>
    ensures { result ≡ number_in p.now a.now }
{
    match a {
        Cell::Int(n) => Ok(Some(as_number(*n, p)?)),
        Cell::Num(k) => Ok(Some(*k)),
        _ => Ok(None),
    }
}

// The digits that an operand asks for.
pub(crate) fn digits_in(d: &Cell) -> Option<i8>
    ensures { result ≡ digits_in d.now }
{
    match d {
        Cell::Int(d) if -9 <= *d && *d <= 9 => Some(*d as i8),
        _ => None,
    }
}

// Two operands; an integer with a number becomes the number that equals it.
pub(crate) fn alike(a: &Cell, b: &Cell, p: &Profile) -> Result<Pair, Fault>
    ensures { pair_outcome result ≡ pair_of p.now a.now b.now }
{
    match (a, b) {
        (Cell::Int(a), Cell::Int(b)) => Ok(Pair::Integers(*a, *b)),
        (Cell::Int(a), Cell::Num(b)) => Ok(Pair::Numbers(as_number(*a, p)?, *b)),
        (Cell::Num(a), Cell::Int(b)) => Ok(Pair::Numbers(*a, as_number(*b, p)?)),
        (Cell::Num(a), Cell::Num(b)) => Ok(Pair::Numbers(*a, *b)),
        _ => Ok(Pair::Neither),
    }
}
