ghost use Rattle.std.specs.Prelude.{◌≡◌, ◌-◌, ◌^◌, ◌<◌, ◌≤◌, ◌*ℤ◌, ◌≤ℤ◌, ◌<ℤ◌, neg_ℤ, pos, negsuc, unsigned_abs, IfOk};
ghost use Rattle.vtl_decimal.specs.Range.{fit_number, fit_integer};
ghost use Rattle.vtl_decimal.specs.Rounding.{rounded_quotient, floor_quotient, ceil_quotient, IsFloor, IsCeil};
ghost use Rattle.vtl_decimal.specs.Operators.{rounded_at};
ghost use Rattle.vtl_decimal.specs.declared.settings.Rounding.TheVariants.{Down};

use crate::number::{Dec, Fault, fit};
use crate::powers::{exact_product, power_of_ten};
use crate::quotient::rounded;
use crate::settings::{Profile, Rounding};

// The quotient of two numbers of 64 bits, rounded.
fn rounded_narrow(rounding: Rounding, k: i64, step: i64) -> i64
    requires k_in_range { unsigned_abs k < 10 ^ 18 }
    requires step_not_zero { 0 < unsigned_abs step }
    requires step_fits { unsigned_abs step ≤ 10 ^ 18 }
    ensures { result ≡ rounded_quotient rounding k step }
{
    rounded(rounding, i128::from(k), i128::from(step)) as i64
}

// The units of the number with this many digits after the point.
#[tactic(auto, using(std::proofs::lemmas::Int::ints))]
fn rounded_units(rounding: Rounding, scale: u8, digits: i8, a: Dec) -> i128
    requires scale_in_range { scale ≤ 9 }
    requires digits_from { negsuc 8 ≤ℤ digits }
    ensures { result ≡ rounded_at rounding scale digits a }
{
    let scale = scale as i8;
    if digits >= scale {
        i128::from(a.k())
    } else {
        let step = power_of_ten((scale - digits) as u8);
        exact_product(rounded_narrow(rounding, a.k(), step), step)
    }
}

/// The number rounded to `digits` digits after the point, or to tens, hundreds and so on before it
/// where `digits`, from -9 to 9, is negative. It is unchanged where it has no more digits.
///
/// Range where the result has more than 18 digits.
pub fn round(a: Dec, digits: i8, p: &Profile) -> Result<Dec, Fault>
    requires digits_from { negsuc 8 ≤ℤ digits }
    requires digits_to { digits ≤ℤ pos 9 }
    ensures { result ≡ fit_number (rounded_at p.now.rounding p.now.scale digits a) }
{
    fit(rounded_units(p.rounding(), p.scale(), digits, a))
}

/// The number cut toward zero at the place where `round` rounds it, for `digits` from -9 to 9.
pub fn trunc(a: Dec, digits: i8, p: &Profile) -> Dec
    requires digits_from { negsuc 8 ≤ℤ digits }
    requires digits_to { digits ≤ℤ pos 9 }
    ensures { result ≡ rounded_at Down p.now.scale digits a }
{
    Dec::of(rounded_units(Rounding::Down, p.scale(), digits, a) as i64)
}

/// The integer `n`.
///
/// Range where the profile has no such integer: one of more than 18 digits with those after its point.
pub fn whole(n: i128, p: &Profile) -> Result<i64, Fault>
    ensures { result ≡ fit_integer p.now.scale n }
{
    let limit = power_of_ten(18 - p.scale());
    if n.unsigned_abs() < u128::from(limit.unsigned_abs()) {
        Ok(n as i64)
    } else {
        Err(Fault::Range)
    }
}

/// The number that is equal to the integer `n`.
///
/// Range where it has more than 18 digits. An integer of the profile, as `whole` and `read_whole` give it, always has
/// such a number.
pub fn from_whole(n: i64, p: &Profile) -> Result<Dec, Fault>
    ensures { result ≡ fit_number (n *ℤ pos (10 ^ p.now.scale)) }
{
    fit(exact_product(n, power_of_ten(p.scale())))
}

// The least whole number that is at least a quotient by a positive number.
#[tactic(auto, using(crate::proofs::OperatorLemmas::div_euclid_is_floor))]
fn ceil_of(k: i64, unit: i64) -> i64
    requires unit_above_zero { pos 0 <ℤ unit }
    requires k_in_range { unsigned_abs k < 10 ^ 18 }
    ensures { result ≡ ceil_quotient k (unsigned_abs unit) }
{
    -(-k).div_euclid(unit)
}

/// The greatest integer that is at most the number.
///
/// Range where the profile has no such integer.
#[tactic(auto, using(crate::proofs::FloorLemmas::floor_fit))]
pub fn floor(a: Dec, p: &Profile) -> Result<i64, Fault>
    ensures value { result ≡ fit_integer p.now.scale (floor_quotient a (10 ^ p.now.scale)) }
    ensures greatest { IfOk result (IsFloor a (10 ^ p.now.scale)) }
{
    let unit = power_of_ten(p.scale());
    whole(i128::from(a.k().div_euclid(unit)), p)
}

/// The least integer that is at least the number.
///
/// Range where the profile has no such integer.
#[tactic(auto, using(crate::proofs::FloorLemmas::ceil_fit))]
pub fn ceil(a: Dec, p: &Profile) -> Result<i64, Fault>
    ensures value { result ≡ fit_integer p.now.scale (ceil_quotient a (10 ^ p.now.scale)) }
    ensures least { IfOk result (IsCeil a (10 ^ p.now.scale)) }
{
    let unit = power_of_ten(p.scale());
    whole(i128::from(ceil_of(a.k(), unit)), p)
}
