ghost use Rattle.std.specs.Prelude.{◌≡◌, ◌-◌, ◌^◌, ◌<◌, ◌+ℤ◌, ◌-ℤ◌, ◌*ℤ◌, ◌<ℤ◌, ◌≤ℤ◌, neg_ℤ, pos, unsigned_abs, IfOk};
ghost use Rattle.vtl_decimal.specs.Range.{fit_number};
ghost use Rattle.vtl_decimal.specs.Rounding.{IsNear};
ghost use Rattle.vtl_decimal.specs.Operators.{product, quotient, remainder};

use crate::number::{Dec, Fault, fit};
use crate::powers::{exact_product, power_of_ten};
use crate::quotient::rounded;
use crate::settings::Profile;

/// The exact sum.
///
/// Range where it has more than 18 digits.
pub fn add(a: Dec, b: Dec) -> Result<Dec, Fault>
    ensures { result ≡ fit_number (a +ℤ b) }
{
    fit(i128::from(a.k()) + i128::from(b.k()))
}

/// The exact difference.
///
/// Range where it has more than 18 digits.
pub fn sub(a: Dec, b: Dec) -> Result<Dec, Fault>
    ensures { result ≡ fit_number (a -ℤ b) }
{
    fit(i128::from(a.k()) - i128::from(b.k()))
}

/// The number with its sign changed.
pub fn neg(a: Dec) -> Dec
    ensures { result ≡ neg_ℤ a }
{
    Dec::of(-a.k())
}

/// The number without its sign.
pub fn abs(a: Dec) -> Dec
    ensures { result ≡ pos (unsigned_abs a) }
{
    Dec::of(a.k().abs())
}

/// The product, rounded once to the profile's scale.
///
/// Range where it then has more than 18 digits.
pub fn mul(a: Dec, b: Dec, p: &Profile) -> Result<Dec, Fault>
    ensures value { result ≡ product p.now.rounding p.now.scale a b }
    ensures near { IfOk result (IsNear p.now.rounding (a *ℤ b) (pos (10 ^ p.now.scale))) }
{
    let unit = power_of_ten(p.scale());
    fit(rounded(p.rounding(), exact_product(a.k(), b.k()), i128::from(unit)))
}

/// The quotient, rounded once to the profile's scale.
///
/// DivZero where the divisor is zero, and Range where the result has more than 18 digits.
pub fn div(a: Dec, b: Dec, p: &Profile) -> Result<Dec, Fault>
    ensures value { result ≡ quotient p.now.rounding p.now.scale a b }
    ensures near { IfOk result (IsNear p.now.rounding (a *ℤ pos (10 ^ p.now.scale)) b) }
{
    if b.k() == 0 {
        return Err(Fault::DivZero);
    }
    let unit = power_of_ten(p.scale());
    fit(rounded(p.rounding(), exact_product(a.k(), unit), i128::from(b.k())))
}

/// What is left of `a` where `b` is taken away as often as the floor of `a / b` says: zero, or of
/// the sign of `b` and smaller. It is `a` where `b` is zero.
pub fn modulo(a: Dec, b: Dec) -> Dec
    ensures value { result ≡ remainder a b }
    ensures above { pos 0 <ℤ b → (pos 0 ≤ℤ result) × (result <ℤ b) }
    ensures below { b <ℤ pos 0 → (b <ℤ result) × (result ≤ℤ pos 0) }
{
    Dec::of(modulo_whole(a.k(), b.k()))
}

/// The same of two whole numbers.
pub fn modulo_whole(a: i64, b: i64) -> i64
    ensures value { result ≡ remainder a b }
    ensures above { pos 0 <ℤ b → (pos 0 ≤ℤ result) × (result <ℤ b) }
    ensures below { b <ℤ pos 0 → (b <ℤ result) × (result ≤ℤ pos 0) }
{
    if b > 0 {
        a.rem_euclid(b)
    } else if b < 0 {
        modulo_negative(a, b) as i64
    } else {
        a
    }
}

// The same by a number below zero, with room for the opposite of the least number.
fn modulo_negative(a: i64, b: i64) -> i128
    requires { b <ℤ pos 0 }
    ensures value { result ≡ remainder a b }
    ensures low { b <ℤ result }
    ensures high { result ≤ℤ pos 0 }
{
    -(-i128::from(a)).rem_euclid(-i128::from(b))
}
