ghost use Rattle.std.specs.Prelude.{◌≡◌, ◌%◌, ◌==◌, ◌^◌, ◌<◌, ◌≤◌, ℕ, pos, unsigned_abs};
ghost use Rattle.vtl_decimal.specs.Rounding.{rounds_up, rounded_size, rounded_quotient};
ghost use Rattle.vtl_decimal.specs.Divided.{place_of_rest};

use crate::settings::Rounding;

// Where the remainder of a division stands between zero and the divisor.
#[derive(Clone, Copy)]
pub(crate) enum Rest {
    Zero,
    BelowHalf,
    Half,
    AboveHalf,
}

// The units of a quotient, and the remainder that it leaves.
#[derive(Clone, Copy)]
pub(crate) struct Divided {
    pub units: u64,
    pub rest: Rest,
}

// Where a remainder stands.
fn classify(rest: u128, divisor: u128) -> Rest
    requires { rest < 2 ^ 127 }
    ensures { result ≡ place_of_rest rest divisor }
{
    if rest == 0 {
        Rest::Zero
    } else if 2 * rest < divisor {
        Rest::BelowHalf
    } else if 2 * rest == divisor {
        Rest::Half
    } else {
        Rest::AboveHalf
    }
}

// Whether the rounding adds one to a quotient with this remainder.
#[tactic(auto, using(crate::proofs::RoundingLemmas::rounds_up_by_rest))]
pub(crate) fn goes_up(rounding: Rounding, is_odd: bool, rest: Rest) -> bool
    ensures { (z r q : ℕ) → 0 < q → is_odd ≡ (z % 2 == 1) → rest ≡ place_of_rest r q → result ≡ rounds_up rounding z r q }
{
    match rest {
        Rest::Zero | Rest::BelowHalf => false,
        Rest::Half => match rounding {
            Rounding::HalfUp => true,
            Rounding::HalfEven => is_odd,
            Rounding::Down => false,
        },
        Rest::AboveHalf => match rounding {
            Rounding::HalfUp | Rounding::HalfEven => true,
            Rounding::Down => false,
        },
    }
}

// The size of a quotient, rounded.
#[tactic(auto, using(std::proofs::lemmas::Int::ints))]
fn rounded_size_of(rounding: Rounding, dividend: u128, divisor: u128) -> u128
    requires divisor_not_zero { 0 < divisor }
    requires divisor_fits { divisor < 2 ^ 127 }
    ensures value { result ≡ rounded_size rounding dividend divisor }
    ensures bound { result ≤ dividend }
{
    let quotient = dividend / divisor;
    let rest = dividend % divisor;
    if goes_up(rounding, quotient % 2 == 1, classify(rest, divisor)) {
        quotient + 1
    } else {
        quotient
    }
}

// The whole number that the rounding gives for a quotient.
pub(crate) fn rounded(rounding: Rounding, dividend: i128, divisor: i128) -> i128
    requires divisor_not_zero { 0 < unsigned_abs divisor }
    requires dividend_fits { unsigned_abs dividend < 2 ^ 127 }
    requires divisor_fits { unsigned_abs divisor < 2 ^ 127 }
    ensures value { result ≡ rounded_quotient rounding dividend divisor }
    ensures bound { unsigned_abs result ≤ unsigned_abs dividend }
{
    let size = rounded_size_of(rounding, dividend.unsigned_abs(), divisor.unsigned_abs()) as i128;
    if (dividend < 0) == (divisor < 0) {
        size
    } else {
        -size
    }
}
