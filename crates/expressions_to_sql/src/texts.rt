// The texts of constants.
ghost use Rattle.std.specs.Fmt.{decimal, signed_decimal};
ghost use Rattle.std.specs.Prelude.{◌≡◌, ◌==◌, ◌%◌, ◌^◌, ◌++◌, ◌<◌, ◌≤◌, [], IfOk, IsTrue, OnOk, codes, unsigned_abs, if◌then◌else◌};
ghost use Rattle.std.specs.Str.{IsAscii, all_scalars};
ghost use Rattle.vtl_time.specs.Days.{day_text, is_calendar_day};
ghost use Rattle.vtl_time.specs.Periods.{is_year_part, period_text};
ghost use Rattle.expressions_to_sql.specs.Constants.{decimal_text};

use std::alloc::{AllocError, Global};
use std::str;
use vtl_decimal::{Dec, Profile, abs, write, write_whole};
use vtl_text::Txt;
use vtl_time::{Day, Period, write_day, write_period};

// The text of characters of ASCII.
fn text_of(alloc: Global, bytes: &[u8]) -> Result<Txt, AllocError>
    requires { IsAscii bytes.now }
    ensures { IfOk result (λ t. t ≡ bytes.now) }
{
    match str::from_utf8(bytes) {
        Ok(text) => Txt::new(alloc, text),
        Err(_) => unreachable!(),
    }
}

// What stands behind the sign of an integer, which a negative one has.
fn behind_sign(n: i64, bytes: &[u8]) -> &[u8]
    requires { bytes.now ≡ signed_decimal n }
    ensures { result.now ≡ decimal (unsigned_abs n) }
{
    if n < 0 { &bytes[1..] } else { bytes }
}

/// The digits of an integer, without its sign. It fails only if memory runs out.
pub(crate) fn integer_digits(alloc: Global, n: i64) -> Result<Txt, AllocError>
    ensures { IfOk result (λ t. t ≡ decimal (unsigned_abs n)) }
{
    let mut bytes = Vec::new(alloc);
    write_whole(n, &mut bytes)?;
    text_of(alloc, behind_sign(n, &bytes))
}

// Whether so many units of the scale are a whole number.
#[tactic(auto, using(vtl_decimal::proofs::PowerLemmas::power_of_ten_fits))]
fn is_whole(size: u64, scale: u8) -> bool
    requires { scale ≤ 9 }
    ensures { result ≡ (size % 10 ^ scale == 0) }
{
    size % 10_u64.pow(u32::from(scale)) == 0
}

// Appends a point and a digit to the text of a whole number.
fn push_point(bytes: &mut Vec<u8>, whole: bool) -> Result<(), AllocError>
    ensures { OnOk result (bytes.new.items ≡ bytes.old.items ++ (if whole then codes ".0" else [])) }
{
    if whole {
        bytes.extend_from_slice(b".0")?;
    }
    Ok(())
}

/// The digits of a number, without its sign and with a point. It fails only if memory runs out.
pub(crate) fn number_digits(alloc: Global, d: Dec, p: &Profile) -> Result<Txt, AllocError>
    ensures text { IfOk result (λ t. t ≡ decimal_text p.now.scale (unsigned_abs d)) }
    ensures held { unsigned_abs d < 10 ^ 18 }
{
    let mut bytes = Vec::new(alloc);
    write(abs(d), p, &mut bytes)?;
    let size = d.k().unsigned_abs();
    push_point(&mut bytes, is_whole(size, p.scale()))?;
    text_of(alloc, &bytes)
}

/// The text of a day. It fails only if memory runs out.
pub(crate) fn day_digits(alloc: Global, d: Day) -> Result<Txt, AllocError>
    ensures text { IfOk result (λ t. t ≡ day_text d) }
    ensures held { IsTrue (is_calendar_day d.year d.month d.day) }
{
    let mut bytes = Vec::new(alloc);
    write_day(d, &mut bytes)?;
    text_of(alloc, &bytes)
}

/// The text of a period. It fails only if memory runs out.
pub(crate) fn period_digits(alloc: Global, q: Period) -> Result<Txt, AllocError>
    ensures text { IfOk result (λ t. t ≡ period_text q) }
    ensures held { IsTrue (is_year_part q.frequency q.year q.part) }
{
    let mut bytes = Vec::new(alloc);
    write_period(q, &mut bytes)?;
    text_of(alloc, &bytes)
}

/// The same text, whose characters are Unicode's. It fails only if memory runs out.
pub(crate) fn same_text(t: &Txt) -> Result<Txt, AllocError>
    ensures text { IfOk result (λ copy. copy ≡ t.now) }
    ensures held { IsTrue (all_scalars t.now) }
{
    let _characters = t.as_str();
    t.share()
}
