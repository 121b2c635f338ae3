ghost use Rattle.std.specs.Prelude.{◌≡◌, ◌≤◌, ◌<◌, ◌+◌, ◌^◌, [], ◌++◌, length, Some, OnOk, OnErr};
ghost use Rattle.std.specs.Fmt.{decimal, signed_decimal};
ghost use Rattle.vtl_decimal.specs.Written.{last_digits, shortest_digits, behind_point, number_text, HasNoNeedlessDigit};
ghost use Rattle.vtl_decimal.specs.Numeral.{Numeral, SpellsNumeral, IsShort, number_read};

use crate::line::Line;
use crate::number::Dec;
use crate::powers::power_of_ten;
use crate::settings::Profile;
use std::alloc::AllocError;

// Puts the last digits of a number before a text.
#[tactic(auto, using(crate::proofs::WritingLemmas::written_digits))]
fn push_digits(line: &mut Line, n: u64, width: u8)
    requires { length line.old + width ≤ 32 }
    ensures text { line.new ≡ last_digits width n ++ line.old }
    ensures size { length line.new ≡ width + length line.old }
{
    let mut rest = n;
    for _ in 0..width {
        line.push_front(b'0' + (rest % 10) as u8);
        rest /= 10;
    }
}

// Writes the digits after the point, and the point, where any digit is left.
#[tactic(auto, using(crate::proofs::WritingLemmas::written_digits))]
fn push_fraction(line: &mut Line, fraction: u64, scale: u8)
    requires empty { line.old ≡ [] }
    requires scale_in_range { scale ≤ 9 }
    ensures text { line.new ≡ behind_point (shortest_digits scale fraction) }
    ensures size { length line.new ≤ 10 }
{
    let mut rest = fraction;
    let mut width = scale;
    while width > 0 && rest % 10 == 0 {
        rest /= 10;
        width -= 1;
    }
    if width > 0 {
        push_digits(line, rest, width);
        line.push_front(b'.');
    }
}

// Puts all digits of a number before a text.
#[tactic(auto, using(crate::proofs::WritingLemmas::written_digits))]
fn push_whole(line: &mut Line, n: u64)
    requires room { length line.old ≤ 10 }
    requires fits { n < 10 ^ 19 }
    ensures text { line.new ≡ decimal n ++ line.old }
    ensures size { length line.new ≤ 19 + length line.old }
{
    let mut rest = n;
    while rest >= 10 {
        line.push_front(b'0' + (rest % 10) as u8);
        rest /= 10;
    }
    line.push_front(b'0' + rest as u8);
}

// The text of a number.
#[tactic(auto, using(crate::proofs::WrittenLemmas::written_laws))]
fn text_of(d: Dec, p: &Profile) -> Line
    ensures text { result ≡ number_text p.now.scale d }
    ensures reads_back { number_read p.now (number_text p.now.scale d) ≡ Some d }
    ensures shortest { (n : Numeral) × SpellsNumeral (number_text p.now.scale d) n × IsShort (number_text p.now.scale d) × HasNoNeedlessDigit n }
{
    let k = d.k();
    let unit = power_of_ten(p.scale()).unsigned_abs();
    let size = k.unsigned_abs();
    let mut line = Line::new();
    push_fraction(&mut line, size % unit, p.scale());
    push_whole(&mut line, size / unit);
    if k < 0 {
        line.push_front(b'-');
    }
    line
}

/// Appends the text of the number: `-` where it is negative, no leading zeros, no zeros at the end
/// after the point, and no point where nothing follows it.
///
/// If memory runs out, `out` is as before.
pub fn write(d: Dec, p: &Profile, out: &mut Vec<u8>) -> Result<(), AllocError>
    ensures ok { OnOk result (out.new.items ≡ out.old.items ++ number_text p.now.scale d) }
    ensures reads_back { number_read p.now (number_text p.now.scale d) ≡ Some d }
    ensures shortest { (n : Numeral) × SpellsNumeral (number_text p.now.scale d) n × IsShort (number_text p.now.scale d) × HasNoNeedlessDigit n }
    ensures err { OnErr result (out.new.items ≡ out.old.items) }
{
    out.extend_from_slice(text_of(d, p).as_slice())
}

/// Appends the digits of a whole number, with `-` before them where it is negative.
///
/// If memory runs out, `out` is as before.
pub fn write_whole(n: i64, out: &mut Vec<u8>) -> Result<(), AllocError>
    ensures ok { OnOk result (out.new.items ≡ out.old.items ++ signed_decimal n) }
    ensures err { OnErr result (out.new.items ≡ out.old.items) }
{
    out.extend_from_slice(whole_text(n).as_slice())
}

// The text of a whole number.
fn whole_text(n: i64) -> Line
    ensures { result ≡ signed_decimal n }
{
    let mut line = Line::new();
    push_whole(&mut line, n.unsigned_abs());
    if n < 0 {
        line.push_front(b'-');
    }
    line
}
