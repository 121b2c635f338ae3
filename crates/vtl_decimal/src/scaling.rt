ghost use Rattle.std.specs.Prelude.{◌≡◌, pos, ◌+ℤ◌, ◌-ℤ◌, unsigned_abs, ◌≤◌, ◌<◌, ◌+◌, ◌-◌, ◌*◌, ◌/◌, ◌%◌, ◌^◌, ℕ, nat_lt, ◌++◌, List, [], length, IsTrue, MatchOption, IfSome};
ghost use Rattle.std.specs.Str.Parse.{digits_value};
ghost use Rattle.std.specs.Str.{all_ascii_digits};
ghost use Rattle.vtl_decimal.specs.Numeral.{numerator, denominator};
ghost use Rattle.vtl_decimal.specs.Parsed.{numeral_view, IsTakenApart};
ghost use Rattle.vtl_decimal.specs.Divided.{place_of_rest, IsDivided, has_nonzero};

use crate::digits::value_onto;
use crate::number::LIMIT;
use crate::parse::Numeral;
use crate::powers::power_of_ten;
use crate::quotient::{Divided, Rest};

// Whether a digit is not `0`.
fn any_nonzero(digits: &[u8]) -> bool
    ensures { result ≡ has_nonzero digits.now }
{
    digits.iter().any(|digit| *digit != b'0')
}

// Whether a digit of two texts is not `0`.
fn any_nonzero_of(first: &[u8], second: &[u8]) -> bool
    ensures { result ≡ has_nonzero (first.now ++ second.now) }
{
    any_nonzero(first) || any_nonzero(second)
}

// Where the remainder stands that a digit and what follows it write, against one before that digit.
#[tactic(auto, using(crate::proofs::RestLemmas::rest_by_lead))]
fn rest_from_lead(lead: u8, more: bool) -> Rest
    requires digit_from { 48 ≤ lead }
    requires digit_to { lead ≤ 57 }
    ensures { (n t : ℕ) → t < 10 ^ n → more ≡ nat_lt 0 t → result ≡ place_of_rest ((lead - 48) * 10 ^ n + t) (10 ^ n * 10) }
{
    match lead {
        b'0' => { if more { Rest::BelowHalf } else { Rest::Zero } }
        b'1'..=b'4' => Rest::BelowHalf,
        b'5' => { if more { Rest::AboveHalf } else { Rest::Half } }
        _ => Rest::AboveHalf,
    }
}

// Where the remainder stands that the digits write, and those after them, of which one is not `0`
// where `more` says so.
fn rest_with_tail(digits: &[u8], more: bool) -> Rest
    requires digits { IsTrue (all_ascii_digits digits.now) }
    requires some_digit { 0 < length digits.now }
    ensures { (behind : List ℕ) → IsTrue (all_ascii_digits behind) → has_nonzero behind ≡ more → result ≡ place_of_rest (digits_value 10 (digits.now ++ behind)) (10 ^ length (digits.now ++ behind)) }
{
    let more = any_nonzero(&digits[1..]) || more;
    rest_from_lead(digits[0], more)
}

// Where the remainder stands that the digits of two texts write, against one before them.
fn rest_of_digits(first: &[u8], second: &[u8]) -> Rest
    requires first_digits { IsTrue (all_ascii_digits first.now) }
    requires second_digits { IsTrue (all_ascii_digits second.now) }
    ensures { result ≡ place_of_rest (digits_value 10 (first.now ++ second.now)) (10 ^ length (first.now ++ second.now)) }
{
    if !first.is_empty() {
        rest_with_tail(first, any_nonzero(second))
    } else if !second.is_empty() {
        rest_with_tail(second, false)
    } else {
        Rest::Zero
    }
}

// The number that the digits of two texts write, where it has at most 18 digits.
#[tactic(auto, using(crate::proofs::DigitLemmas::joined_digits))]
fn joined_value(first: &[u8], second: &[u8]) -> Option<u64>
    requires first_digits { IsTrue (all_ascii_digits first.now) }
    requires second_digits { IsTrue (all_ascii_digits second.now) }
    ensures value { MatchOption result (10 ^ 18 ≤ digits_value 10 (first.now ++ second.now)) (λ v. v ≡ digits_value 10 (first.now ++ second.now)) }
    ensures bound { IfSome result (λ v. v < 10 ^ 18) }
{
    value_onto(value_onto(0, first)?, second)
}

// The digits of the first two texts divided by the power of ten that makes those of the others its remainder.
fn cut(kept: &[u8], more_kept: &[u8], dropped: &[u8], more_dropped: &[u8]) -> Option<Divided>
    requires kept_digits { IsTrue (all_ascii_digits kept.now) }
    requires more_kept_digits { IsTrue (all_ascii_digits more_kept.now) }
    requires dropped_digits { IsTrue (all_ascii_digits dropped.now) }
    requires more_dropped_digits { IsTrue (all_ascii_digits more_dropped.now) }
    ensures { MatchOption result (10 ^ 18 ≤ digits_value 10 ((kept.now ++ more_kept.now) ++ (dropped.now ++ more_dropped.now)) / 10 ^ length (dropped.now ++ more_dropped.now)) (IsDivided (digits_value 10 ((kept.now ++ more_kept.now) ++ (dropped.now ++ more_dropped.now))) (10 ^ length (dropped.now ++ more_dropped.now))) }
{
    let units = joined_value(kept, more_kept)?;
    let rest = rest_of_digits(dropped, more_dropped);
    Some(Divided { units, rest })
}

// The digits divided by a power of ten that has more places than they have.
fn cut_all(whole: &[u8], fraction: &[u8], dropped: u128) -> Divided
    requires whole_digits { IsTrue (all_ascii_digits whole.now) }
    requires fraction_digits { IsTrue (all_ascii_digits fraction.now) }
    requires more { length whole.now + length fraction.now < dropped }
    ensures { IsDivided (digits_value 10 (whole.now ++ fraction.now)) (10 ^ dropped) result }
{
    let rest = if any_nonzero_of(whole, fraction) {
        Rest::BelowHalf
    } else {
        Rest::Zero
    };
    Divided { units: 0, rest }
}

// The digits divided by a power of ten.
#[tactic(auto, using(crate::proofs::DigitLemmas::digit_parts))]
fn divided_by_power(whole: &[u8], fraction: &[u8], dropped: u128) -> Option<Divided>
    requires whole_digits { IsTrue (all_ascii_digits whole.now) }
    requires fraction_digits { IsTrue (all_ascii_digits fraction.now) }
    ensures { MatchOption result (10 ^ 18 ≤ digits_value 10 (whole.now ++ fraction.now) / 10 ^ dropped) (IsDivided (digits_value 10 (whole.now ++ fraction.now)) (10 ^ dropped)) }
{
    let before_point = whole.len() as u128;
    let count = before_point + fraction.len() as u128;
    if dropped > count {
        return Some(cut_all(whole, fraction, dropped));
    }
    let kept = count - dropped;
    if kept <= before_point {
        let (front, back) = whole.split_at(kept as usize);
        cut(front, &[], back, fraction)
    } else {
        let (front, back) = fraction.split_at((kept - before_point) as usize);
        cut(whole, front, &[], back)
    }
}

// The digits times a power of ten.
fn times_power(whole: &[u8], fraction: &[u8], zeros: u128) -> Option<u64>
    requires whole_digits { IsTrue (all_ascii_digits whole.now) }
    requires fraction_digits { IsTrue (all_ascii_digits fraction.now) }
    ensures value { MatchOption result (10 ^ 18 ≤ digits_value 10 (whole.now ++ fraction.now) * 10 ^ zeros) (λ v. v ≡ digits_value 10 (whole.now ++ fraction.now) * 10 ^ zeros) }
    ensures bound { IfSome result (λ v. v < 10 ^ 18) }
{
    let value = joined_value(whole, fraction)?;
    if value == 0 {
        return Some(0);
    }
    if zeros > 18 {
        return None;
    }
    let units = u128::from(value) * u128::from(10_u64.pow(zeros as u32));
    if units < u128::from(LIMIT) {
        Some(units as u64)
    } else {
        None
    }
}

// How many places the digits move to the left, so that the last one stands at the last place of
// the scale.
fn places_to_left(n: &Numeral, scale: u8) -> i128
    requires scale_in_range { scale ≤ 9 }
    requires parsed { IsTakenApart (numeral_view n.now) }
    ensures { result ≡ (pos scale +ℤ n.now.exponent) -ℤ pos (length n.now.fraction.now) }
{
    i128::from(scale) + i128::from(n.exponent) - n.fraction.len() as i128
}

// The numeral in units of the scale, with the remainder after them.
pub(crate) fn scaled(n: &Numeral, scale: u8) -> Option<Divided>
    requires scale_in_range { scale ≤ 9 }
    requires parsed { IsTakenApart (numeral_view n.now) }
    ensures { MatchOption result (10 ^ 18 ≤ numerator scale (numeral_view n.now) / denominator (numeral_view n.now)) (IsDivided (numerator scale (numeral_view n.now)) (denominator (numeral_view n.now))) }
{
    let shift = places_to_left(n, scale);
    let places = shift.unsigned_abs();
    if shift < 0 {
        return divided_by_power(n.whole, n.fraction, places);
    }
    let units = times_power(n.whole, n.fraction, places)?;
    let rest = Rest::Zero;
    Some(Divided { units, rest })
}
