ghost use Rattle.std.specs.Prelude.{◌≡◌, ◌<◌, ◌≤◌, ◌+◌, ◌*◌, length, drop, pos, unsigned_abs, IsTrue, MatchOption, IfSome};
ghost use Rattle.std.specs.Option.{option_map};
ghost use Rattle.std.specs.Char.{is_ascii_digit};
ghost use Rattle.std.specs.List.{before_first, list_all, position};
ghost use Rattle.std.specs.Str.Parse.{digits_value, starts_with_minus, without_leading_sign};
ghost use Rattle.std.specs.Str.{all_ascii_digits};
ghost use Rattle.vtl_decimal.specs.Numeral.{is_mark, is_decimal_point, from_first, power_of, exponent_of, with_digits, unsigned_numeral_of, numeral_of};
ghost use Rattle.vtl_decimal.specs.Parsed.{numeral_view, IsTakenApart};

use crate::digits::value_onto;

// What a numeral says.
#[derive(Clone, Copy)]
pub(crate) struct Numeral<'a> {
    pub negative: bool,
    pub whole: &'a [u8],
    pub fraction: &'a [u8],
    pub exponent: i16,
}

// Whether every byte is a digit.
fn all_digits(text: &[u8]) -> bool
    ensures { result ≡ all_ascii_digits text.now }
{
    each_is_digit(text)
}

fn each_is_digit(text: &[u8]) -> bool
    ensures { result ≡ list_all is_ascii_digit text.now }
{
    text.iter().all(|byte| byte.is_ascii_digit())
}

// The sign, and what stands after it.
fn split_sign(text: &[u8]) -> (bool, &[u8])
    ensures sign { result.0 ≡ starts_with_minus text.now }
    ensures rest { result.1.now ≡ without_leading_sign text.now }
{
    match text {
        [b'-', rest @ ..] => (true, rest),
        [b'+', rest @ ..] => (false, rest),
        _ => (false, text),
    }
}

// Where the mark of an exponent stands.
fn place_of_mark(text: &[u8]) -> Option<usize>
    ensures { result ≡ position is_mark text.now }
{
    text.iter().position(|byte| *byte == b'e' || *byte == b'E')
}

// What stands before the mark of an exponent, and what from it on.
#[tactic(auto, using(crate::proofs::TextLemmas::text_facts))]
fn split_at_mark(text: &[u8]) -> (&[u8], &[u8])
    ensures before { result.0.now ≡ before_first is_mark text.now }
    ensures rest { result.1.now ≡ from_first is_mark text.now }
{
    text.split_at(place_of_mark(text).unwrap_or(text.len()))
}

// Where the point stands.
fn place_of_point(text: &[u8]) -> Option<usize>
    ensures { result ≡ position is_decimal_point text.now }
{
    text.iter().position(|byte| *byte == b'.')
}

// What stands before the point, and what from it on.
#[tactic(auto, using(crate::proofs::TextLemmas::text_facts))]
fn split_at_point(text: &[u8]) -> (&[u8], &[u8])
    ensures before { result.0.now ≡ before_first is_decimal_point text.now }
    ensures rest { result.1.now ≡ from_first is_decimal_point text.now }
{
    text.split_at(place_of_point(text).unwrap_or(text.len()))
}

// The number that at most three digits write.
#[tactic(auto, using(crate::proofs::DigitLemmas::value_of_three))]
fn small_value(digits: &[u8]) -> i16
    requires digits { IsTrue (all_ascii_digits digits.now) }
    requires few { length digits.now ≤ 3 }
    ensures value { result ≡ pos (digits_value 10 digits.now) }
    ensures bound { unsigned_abs result < 1000 }
{
    value_onto(0, digits).map_or(0, |value| value as i16)
}

// The power of ten after the mark of an exponent, where one to three digits spell it.
fn power(text: &[u8]) -> Option<i16>
    ensures { result ≡ power_of text.now }
{
    let (negative, digits) = split_sign(text);
    if digits.is_empty() || digits.len() > 3 || !all_digits(digits) {
        return None;
    }
    let size = small_value(digits);
    Some(if negative { -size } else { size })
}

// The exponent after the digits, or 0 where there is none.
fn exponent(text: &[u8]) -> Option<i16>
    ensures { result ≡ exponent_of text.now }
{
    match text {
        [] => Some(0),
        [_, rest @ ..] => power(rest),
    }
}

// The numeral of these digits, where they are digits and there is one.
fn with_digits<'a>(
    negative: bool,
    whole: &'a [u8],
    fraction: &'a [u8],
    exponent: i16,
) -> Option<Numeral<'a>>
    ensures { option_map numeral_view result ≡ with_digits negative whole.now fraction.now exponent }
{
    let empty = whole.is_empty() && fraction.is_empty();
    if empty || !all_digits(whole) || !all_digits(fraction) {
        return None;
    }
    Some(Numeral {
        negative,
        whole,
        fraction,
        exponent,
    })
}

// What stands after the point, if it is there.
fn behind_point(text: &[u8]) -> &[u8]
    ensures { result.now ≡ drop 1 text.now }
{
    match text {
        [] => text,
        [_, rest @ ..] => rest,
    }
}

// The numeral of a text without its sign.
#[tactic(auto, using(crate::proofs::NumeralLemmas::unsigned_numeral_some))]
fn unsigned_numeral(negative: bool, text: &[u8]) -> Option<Numeral<'_>>
    ensures { option_map numeral_view result ≡ unsigned_numeral_of negative text.now }
{
    let (mantissa, power) = split_at_mark(text);
    let (whole, rest) = split_at_point(mantissa);
    let exponent = exponent(power)?;
    with_digits(negative, whole, behind_point(rest), exponent)
}

// The numeral that a text of any length spells.
#[tactic(auto, using(crate::proofs::ParsedLemmas::numeral_parsed))]
pub(crate) fn parse_numeral(text: &[u8]) -> Option<Numeral<'_>>
    ensures value { option_map numeral_view result ≡ numeral_of text.now }
    ensures parsed { IfSome result (λ n. IsTakenApart (numeral_view n)) }
{
    let (negative, rest) = split_sign(text);
    unsigned_numeral(negative, rest)
}
