// Numbers from totals and quotients of any size.
//
// A quotient of 128 bits is rounded here alone (`quotient`), for a mean, a median and a share.
ghost use Rattle.std.specs.Prelude.{◌≡◌, ◌^◌, ◌<◌, ◌≤◌, ◌+ℤ◌, ◌*ℤ◌, pos, unsigned_abs};
ghost use Rattle.vtl_agg.specs.Added.{with_sign};
ghost use Rattle.vtl_agg.specs.Quotients.{has_minus};
ghost use Rattle.vtl_cell.specs.Groups.{units_of};
ghost use Rattle.vtl_cell.specs.ScalarArithmetic.{number};
ghost use Rattle.vtl_decimal.specs.Range.{fit_number};
ghost use Rattle.vtl_decimal.specs.Rounding.{rounds_up, rounded_size, rounded_quotient};

use vtl_cell::Cell;
use vtl_decimal::{Dec, Fault, Profile, Rounding};

// One more than the greatest size of a number, in units.
const LIMIT: u128 = 1_000_000_000_000_000_000;

// Whether a quotient with this rest is rounded up.
fn goes_up(rounding: Rounding, quotient: u128, rest: u128, divisor: u128) -> bool
    requires { rest < 2 ^ 127 }
    ensures { result ≡ rounds_up rounding quotient rest divisor }
{
    match rounding {
        Rounding::HalfUp => divisor <= 2 * rest,
        Rounding::HalfEven => divisor < 2 * rest || (2 * rest == divisor && quotient % 2 == 1),
        Rounding::Down => false,
    }
}

// The size of a quotient, rounded.
fn rounded_size_of(rounding: Rounding, dividend: u128, divisor: u128) -> u128
    requires some { 0 < divisor }
    requires dividend { dividend ≤ 2 ^ 127 }
    requires divisor { divisor ≤ 2 ^ 127 }
    ensures { result ≡ rounded_size rounding dividend divisor }
{
    let quotient = dividend / divisor;
    let rest = dividend % divisor;
    if goes_up(rounding, quotient, rest, divisor) {
        quotient + 1
    } else {
        quotient
    }
}

// The number of this size and sign.
fn signed(is_negative: bool, size: u128) -> Result<Dec, Fault>
    ensures { result ≡ fit_number (with_sign is_negative size) }
{
    if size >= LIMIT {
        return Err(Fault::Range);
    }
    let units = size as i64;
    Dec::from_k(if is_negative { -units } else { units }).ok_or(Fault::Range)
}

/// The number of so many units; a range fault where it is too great.
pub fn fit(units: i128) -> Result<Dec, Fault>
    ensures { result ≡ fit_number units }
{
    signed(units < 0, units.unsigned_abs())
}

// Whether a quotient that is not zero is below it.
fn has_minus(dividend: i128, divisor: i128) -> bool
    ensures { result ≡ has_minus dividend divisor }
{
    if dividend < 0 {
        divisor >= 0
    } else {
        divisor < 0
    }
}

/// A quotient in units, rounded once; a range fault where it is too great.
pub fn quotient(rounding: Rounding, dividend: i128, divisor: i128) -> Result<Dec, Fault>
    requires { 0 < unsigned_abs divisor }
    ensures { result ≡ fit_number (rounded_quotient rounding dividend divisor) }
{
    let size = rounded_size_of(rounding, dividend.unsigned_abs(), divisor.unsigned_abs());
    signed(has_minus(dividend, divisor), size)
}

/// How many units one is.
#[tactic(auto, using(vtl_decimal::proofs::PowerLemmas::power_of_ten_fits))]
pub fn unit(p: &Profile) -> i64
    ensures value { result ≡ pos (10 ^ p.now.scale) }
    ensures bound { unsigned_abs result ≤ 10 ^ 9 }
{
    10_u64.pow(u32::from(p.scale())) as i64
}

// The product of an amount and a factor.
fn product(amount: i64, factor: i64) -> i128
    requires { unsigned_abs factor ≤ 10 ^ 9 }
    ensures value { result ≡ amount *ℤ factor }
    ensures bound { unsigned_abs result ≤ 2 ^ 93 }
{
    i128::from(amount) * i128::from(factor)
}

/// A value in units, an integer standing for the equal number; other values count as zero.
pub fn units(c: &Cell, p: &Profile) -> i128
    ensures value { result ≡ units_of p.now.scale c.now }
    ensures bound { unsigned_abs result ≤ 2 ^ 93 }
{
    match c {
        Cell::Int(n) => product(*n, unit(p)),
        Cell::Num(k) => i128::from(k.k()),
        _ => 0,
    }
}

// Half of a sum, rounded once.
pub(crate) fn half_sum(rounding: Rounding, lower: i128, upper: i128) -> Result<Cell, Fault>
    ensures { result ≡ number (fit_number (rounded_quotient rounding (lower +ℤ upper) (pos 2))) }
{
    match lower.checked_add(upper) {
        Some(sum) => Ok(Cell::Num(quotient(rounding, sum, 2)?)),
        None => Err(Fault::Range),
    }
}
