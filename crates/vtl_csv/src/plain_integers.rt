// Integers in their shortest spelling, read in one walk over their digits.
//
// A plain integer is read in one walk over its bytes (`plain_integer`: digits without a needless zero, a minus),
// which shows too that they are UTF-8; every other numeral goes by the reader of numerals. Its contract says what it
// gives, and not when, since the other way gives the same.
ghost use Rattle.std.specs.Prelude.{◌≡◌, ◌≤◌, ◌<◌, ◌^◌, ◌∷◌, true, length, slice_index, if◌then◌else◌, unsigned_abs, IfSome, IsFalse, IsUtf8, Some};
ghost use Rattle.std.specs.Char.{is_ascii_digit};
ghost use Rattle.std.specs.Fmt.{decimal, signed_decimal};
ghost use Rattle.std.specs.List.{list_all};
ghost use Rattle.std.specs.Str.Parse.{digits_value};
ghost use Rattle.vtl_cell.specs.Reading.{reads};
ghost use Rattle.vtl_cell.specs.declared.cell.Cell.TheVariants as cell;
ghost use Rattle.vtl_cell.specs.declared.kind.Kind.TheVariants as kind;

use vtl_decimal::Profile;

// The most digits of an integer, with those that a number of the profile has behind its point.
const MOST_DIGITS: usize = 18;

/// The integer that a field spells with no digit that could be left out, where so few digits write it that the profile
/// has it. Such a field is a text. Where this gives None the field may still be an integer's.
pub fn plain_integer(field: &[u8], profile: &Profile) -> Option<i64>
    ensures utf8 { IfSome result (λ n. IsUtf8 field.now) }
    ensures read { IfSome result (λ n. reads profile.now kind.Int field.now ≡ Some (cell.Int n)) }
{
    let most = MOST_DIGITS - usize::from(profile.scale());
    let (is_negative, digits) = split_minus(field);
    let size = plain_size(digits, most)?;
    with_sign(is_negative, size)
}

// Whether a minus begins the field, and what stands behind it.
fn split_minus(field: &[u8]) -> (bool, &[u8])
    ensures { field.now ≡ (if result.0 then 45 ∷ result.1.now else result.1.now) }
{
    match field {
        [b'-', rest @ ..] => (true, rest),
        _ => (false, field),
    }
}

// The integer of this sign and size, or None for a zero with a minus, which no integer is written as.
fn with_sign(is_negative: bool, size: u64) -> Option<i64>
    requires { size < 10 ^ 18 }
    ensures spelled { IfSome result (λ n. signed_decimal n ≡ (if is_negative then 45 ∷ decimal size else decimal size)) }
    ensures size { IfSome result (λ n. unsigned_abs n ≡ size) }
{
    match (is_negative, size as i64) {
        (true, 0) => None,
        (true, size) => Some(-size),
        (false, size) => Some(size),
    }
}

// The number that at most so many digits write, with no needless zero in front.
fn plain_size(digits: &[u8], most: usize) -> Option<u64>
    requires { most ≤ 18 }
    ensures spelled { IfSome result (λ n. decimal n ≡ digits.now) }
    ensures fits { IfSome result (λ n. n < 10 ^ most) }
{
    if digits.is_empty() || digits.len() > most || has_needless_zero(digits) {
        return None;
    }
    value(digits)
}

// Whether a zero stands before other digits.
fn has_needless_zero(digits: &[u8]) -> bool
    requires { 0 < length digits.now }
    ensures { IsFalse result → slice_index digits.now 0 ≡ 48 → length digits.now ≡ 1 }
{
    digits[0] == b'0' && digits.len() > 1
}

// The number that digits write, where they are digits.
fn value(digits: &[u8]) -> Option<u64>
    requires { length digits.now ≤ 18 }
    ensures digits { IfSome result (λ n. list_all is_ascii_digit digits.now ≡ true) }
    ensures value { IfSome result (λ n. n ≡ digits_value 10 digits.now) }
{
    let mut value = 0;
    for digit in digits {
        if !digit.is_ascii_digit() {
            return None;
        }
        value = value * 10 + u64::from(*digit - b'0');
    }
    Some(value)
}
