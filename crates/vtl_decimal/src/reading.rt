// A number literal has the value of its digits, however many they are (`read_literal`): the limit of 64 bytes is for
// files.
ghost use Rattle.std.specs.Prelude.{◌≡◌, ◌≤◌, ◌^◌, Some, None, IfOk, OnErr};
ghost use Rattle.std.specs.Result.{result_ok};
ghost use Rattle.vtl_decimal.specs.Numeral.{Numeral as NumeralSpec, SpellsNumeral, IsShort, signed, number_of, integer_of, number_spelled, integer_spelled, number_read, integer_read};
ghost use Rattle.vtl_decimal.specs.Parsed.{numeral_view, IsTakenApart};

use crate::number::{Dec, fit};
use crate::parse::{Numeral, parse_numeral};
use crate::quotient::{Rest, goes_up};
use crate::scaling::scaled;
use crate::settings::Profile;
use crate::wholes::whole;

/// A text that is no number, or no integer, of the profile.
#[derive(Clone, Copy, Debug, PartialEq, Eq)]
pub struct BadNumber;

// The number of this size and sign.
fn with_sign(negative: bool, size: u64) -> i64
    requires { size ≤ 10 ^ 18 }
    ensures { result ≡ signed negative size }
{
    let size = size as i64;
    if negative { -size } else { size }
}

// The number of a numeral, rounded once.
fn number(n: &Numeral, p: &Profile) -> Option<Dec>
    requires { IsTakenApart (numeral_view n.now) }
    ensures { result ≡ number_of p.now (numeral_view n.now) }
{
    let divided = scaled(n, p.scale())?;
    let is_odd = divided.units % 2 == 1;
    let size = divided.units + u64::from(goes_up(p.rounding(), is_odd, divided.rest));
    fit(i128::from(with_sign(n.negative, size))).ok()
}

// The integer of a numeral.
fn integer(n: &Numeral, p: &Profile) -> Option<i64>
    requires { IsTakenApart (numeral_view n.now) }
    ensures { result ≡ integer_of p.now.scale (numeral_view n.now) }
{
    let divided = scaled(n, 0)?;
    match divided.rest {
        Rest::Zero => whole(i128::from(with_sign(n.negative, divided.units)), p).ok(),
        _ => None,
    }
}

// The number of a text, where it has one.
fn number_in(text: &str, p: &Profile) -> Option<Dec>
    ensures { result ≡ number_spelled p.now text.now }
{
    let numeral = parse_numeral(text.as_bytes())?;
    number(&numeral, p)
}

// The integer of a text, where it has one.
fn integer_in(text: &str, p: &Profile) -> Option<i64>
    ensures { result ≡ integer_spelled p.now.scale text.now }
{
    let numeral = parse_numeral(text.as_bytes())?;
    integer(&numeral, p)
}

/// The number that a text of any length spells, rounded once from its exact value.
///
/// A numeral is an optional sign, digits with an optional point (there may be none on one side of
/// it), and optionally `e` or `E`, an optional sign and one to three digits. BadNumber where the
/// text is no numeral, or its rounded value has more than 18 digits.
pub fn read_literal(text: &str, p: &Profile) -> Result<Dec, BadNumber>
    ensures value { result_ok result ≡ number_spelled p.now text.now }
    ensures spelled { IfOk result (λ k. (n : NumeralSpec) × SpellsNumeral text.now n × (number_of p.now n ≡ Some k)) }
    ensures refused { OnErr result ((n : NumeralSpec) → SpellsNumeral text.now n → number_of p.now n ≡ None) }
{
    number_in(text, p).ok_or(BadNumber)
}

/// The integer that a text of any length spells.
///
/// BadNumber where the text is no numeral as for `read_literal`, or its value is not whole, or no
/// integer of the profile.
pub fn read_whole_literal(text: &str, p: &Profile) -> Result<i64, BadNumber>
    ensures value { result_ok result ≡ integer_spelled p.now.scale text.now }
    ensures spelled { IfOk result (λ k. (n : NumeralSpec) × SpellsNumeral text.now n × (integer_of p.now.scale n ≡ Some k)) }
    ensures refused { OnErr result ((n : NumeralSpec) → SpellsNumeral text.now n → integer_of p.now.scale n ≡ None) }
{
    integer_in(text, p).ok_or(BadNumber)
}

// The most bytes of a numeral that is read as a field.
const MOST_BYTES: usize = 64;

/// The number that a text of at most 64 bytes spells, as `read_literal` reads it.
///
/// BadNumber for a longer text too.
pub fn read(text: &str, p: &Profile) -> Result<Dec, BadNumber>
    ensures value { result_ok result ≡ number_read p.now text.now }
    ensures spelled { IfOk result (λ k. (n : NumeralSpec) × SpellsNumeral text.now n × IsShort text.now × (number_of p.now n ≡ Some k)) }
    ensures refused { OnErr result ((n : NumeralSpec) → SpellsNumeral text.now n → IsShort text.now → number_of p.now n ≡ None) }
{
    if text.len() > MOST_BYTES {
        return Err(BadNumber);
    }
    read_literal(text, p)
}

/// The integer that a text of at most 64 bytes spells, as `read_whole_literal` reads it.
///
/// BadNumber for a longer text too.
pub fn read_whole(text: &str, p: &Profile) -> Result<i64, BadNumber>
    ensures value { result_ok result ≡ integer_read p.now.scale text.now }
    ensures spelled { IfOk result (λ k. (n : NumeralSpec) × SpellsNumeral text.now n × IsShort text.now × (integer_of p.now.scale n ≡ Some k)) }
    ensures refused { OnErr result ((n : NumeralSpec) → SpellsNumeral text.now n → IsShort text.now → integer_of p.now.scale n ≡ None) }
{
    if text.len() > MOST_BYTES {
        return Err(BadNumber);
    }
    read_whole_literal(text, p)
}
