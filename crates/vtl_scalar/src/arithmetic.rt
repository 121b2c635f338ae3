// The operators on integers and numbers. None of them takes memory.
ghost use Rattle.std.specs.Prelude.{◌≡◌};
ghost use Rattle.vtl_cell.specs.ScalarArithmetic as row;
ghost use Rattle.vtl_decimal.specs.Range.{fit_integer};
ghost use Rattle.vtl_scalar.specs.Operands.{pair_view};

use crate::operands::{Pair, as_number, digits_in, number_in};
use vtl_cell::Cell;
use vtl_decimal::{Dec, Fault, Profile, whole};

// An integer of the profile, of a whole number.
fn integer(n: i128, p: &Profile) -> Result<Cell, Fault>
    ensures { result ≡ row.integer (fit_integer p.now.scale n) }
{
    Ok(Cell::Int(whole(n, p)?))
}

fn number(k: Result<Dec, Fault>) -> Result<Cell, Fault>
    ensures { result ≡ row.number k }
{
    Ok(Cell::Num(k?))
}

pub(crate) fn identity(a: &Cell) -> Cell
    ensures { result ≡ row.identity_of a.now }
{
    match a {
        Cell::Int(n) => Cell::Int(*n),
        Cell::Num(k) => Cell::Num(*k),
        _ => Cell::Null,
    }
}

pub(crate) fn negation(a: &Cell, p: &Profile) -> Result<Cell, Fault>
    ensures { result ≡ row.negation_of p.now a.now }
{
    match a {
        Cell::Int(n) => integer(-i128::from(*n), p),
        Cell::Num(k) => Ok(Cell::Num(vtl_decimal::neg(*k))),
        _ => Ok(Cell::Null),
    }
}

pub(crate) fn absolute(a: &Cell, p: &Profile) -> Result<Cell, Fault>
    ensures { result ≡ row.absolute_of p.now a.now }
{
    match a {
        Cell::Int(n) => integer(i128::from(n.unsigned_abs()), p),
        Cell::Num(k) => Ok(Cell::Num(vtl_decimal::abs(*k))),
        _ => Ok(Cell::Null),
    }
}

pub(crate) fn sum(operands: Pair, p: &Profile) -> Result<Cell, Fault>
    ensures { result ≡ row.sum_of p.now (pair_view operands) }
{
    match operands {
        Pair::Integers(a, b) => integer(i128::from(a) + i128::from(b), p),
        Pair::Numbers(a, b) => number(vtl_decimal::add(a, b)),
        Pair::Neither => Ok(Cell::Null),
    }
}

pub(crate) fn difference(operands: Pair, p: &Profile) -> Result<Cell, Fault>
    ensures { result ≡ row.difference_of p.now (pair_view operands) }
{
    match operands {
        Pair::Integers(a, b) => integer(i128::from(a) - i128::from(b), p),
        Pair::Numbers(a, b) => number(vtl_decimal::sub(a, b)),
        Pair::Neither => Ok(Cell::Null),
    }
}

pub(crate) fn product(operands: Pair, p: &Profile) -> Result<Cell, Fault>
    ensures { result ≡ row.product_of p.now (pair_view operands) }
{
    match operands {
        Pair::Integers(a, b) => integer(i128::from(a) * i128::from(b), p),
        Pair::Numbers(a, b) => number(vtl_decimal::mul(a, b, p)),
        Pair::Neither => Ok(Cell::Null),
    }
}

pub(crate) fn quotient(operands: Pair, p: &Profile) -> Result<Cell, Fault>
    ensures { result ≡ row.quotient_of p.now (pair_view operands) }
{
    match operands {
        Pair::Integers(a, b) => number(vtl_decimal::div(as_number(a, p)?, as_number(b, p)?, p)),
        Pair::Numbers(a, b) => number(vtl_decimal::div(a, b, p)),
        Pair::Neither => Ok(Cell::Null),
    }
}

pub(crate) fn remainder(operands: Pair, p: &Profile) -> Result<Cell, Fault>
    ensures { result ≡ row.remainder_of p.now (pair_view operands) }
{
    match operands {
        Pair::Integers(a, b) => integer(i128::from(vtl_decimal::modulo_whole(a, b)), p),
        Pair::Numbers(a, b) => Ok(Cell::Num(vtl_decimal::modulo(a, b))),
        Pair::Neither => Ok(Cell::Null),
    }
}

pub(crate) fn floor(a: &Cell, p: &Profile) -> Result<Cell, Fault>
    ensures { result ≡ row.whole_below p.now a.now }
{
    match number_in(a, p)? {
        Some(k) => Ok(Cell::Int(vtl_decimal::floor(k, p)?)),
        None => Ok(Cell::Null),
    }
}

pub(crate) fn ceil(a: &Cell, p: &Profile) -> Result<Cell, Fault>
    ensures { result ≡ row.whole_above p.now a.now }
{
    match number_in(a, p)? {
        Some(k) => Ok(Cell::Int(vtl_decimal::ceil(k, p)?)),
        None => Ok(Cell::Null),
    }
}

pub(crate) fn rounded(a: &Cell, d: &Cell, p: &Profile) -> Result<Cell, Fault>
    ensures { result ≡ row.rounded_of p.now a.now d.now }
{
    let Some(digits) = digits_in(d) else {
        return Ok(Cell::Null);
    };
    match number_in(a, p)? {
        Some(k) => number(vtl_decimal::round(k, digits, p)),
        None => Ok(Cell::Null),
    }
}

pub(crate) fn truncated(a: &Cell, d: &Cell, p: &Profile) -> Result<Cell, Fault>
    ensures { result ≡ row.truncated_of p.now a.now d.now }
{
    let Some(digits) = digits_in(d) else {
        return Ok(Cell::Null);
    };
    match number_in(a, p)? {
        Some(k) => Ok(Cell::Num(vtl_decimal::trunc(k, digits, p))),
        None => Ok(Cell::Null),
    }
}
