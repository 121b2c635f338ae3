// Periods of time.
ghost use Rattle.std.specs.Prelude.{◌≡◌, [], ◌∷◌, ◌+◌, ◌*◌, ◌≤◌, ◌<◌, ◌++◌, Some, OnOk, OnErr, IfSome, IsTrue, chars, pos, neg_ℤ};
ghost use Rattle.std.specs.Ordering.{int_cmp};
ghost use Rattle.vtl_time.specs.Numerals.{two_digits, four_digits};

use crate::numerals::{last_digit, number};
use std::alloc::AllocError;
use std::cmp::Ordering;
use std::marker::Model;

// Periods lie in the years 0 to 9999.
const YEARS: u64 = 10_000;

/// How a year is divided: not at all, into halves, quarters or months.
#[derive(Clone, Copy, Debug, PartialEq, Eq, Hash)]
pub enum Frequency {
    /// The whole year, written `A1`.
    Annual,
    /// A half of the year, written `S1` or `S2`.
    Semester,
    /// A quarter of the year, written `Q1` to `Q4`.
    Quarter,
    /// A month, written `M01` to `M12`.
    Month,
}

impl Frequency {
    ghost use Rattle.vtl_time.specs.Periods.{parts_in_year, frequency_rank, letter_of, width_of};

    /// How many periods a year has: 1, 2, 4 or 12.
    pub fn parts(self) -> u8
        ensures { result ≡ parts_in_year self }
    {
        match self {
            Frequency::Annual => 1,
            Frequency::Semester => 2,
            Frequency::Quarter => 4,
            Frequency::Month => 12,
        }
    }

    /// The letter that stands before the number of a part: `A`, `S`, `Q` or `M`.
    pub fn letter(self) -> &'static str
        ensures { chars result.now ≡ letter_of self ∷ [] }
    {
        match self {
            Frequency::Annual => "A",
            Frequency::Semester => "S",
            Frequency::Quarter => "Q",
            Frequency::Month => "M",
        }
    }

    // The place among the frequencies.
    fn rank(self) -> u8
        ensures { result ≡ frequency_rank self }
    {
        self as u8
    }

    // How many digits the number of a part is written with.
    fn width(self) -> usize
        ensures { result ≡ width_of self }
    {
        match self {
            Frequency::Annual | Frequency::Semester | Frequency::Quarter => 1,
            Frequency::Month => 2,
        }
    }
}

/// A period of a year from 0 to 9999. Periods are ordered by frequency (years, halves, quarters, months), then by year,
/// then by part.
#[derive(Clone, Copy, Debug, PartialEq, Eq, Hash)]
pub struct Period {
    frequency: Frequency,
    year: u16,
    part: u8,
}

impl Model for Period {
    ghost use Rattle.std.specs.Prelude.{IsTrue};
    ghost use Rattle.vtl_time.specs.Periods.{YearPart, is_year_part};

    ghost Value = { YearPart };

    ghost view = { λ p. record { frequency = p.frequency; year = p.year; part = p.part } };

    ghost invariant = { λ p. IsTrue (is_year_part p.frequency p.year p.part) };

    ghost inverse = { λ v. record { frequency = v.frequency; year = v.year; part = v.part } };
}

impl PartialOrd for Period {
    ghost use Rattle.std.specs.Cmp.{partial_order_from_own_ties};
    ghost use Rattle.std.specs.Cmp.Rules.{comparing};
    ghost use Rattle.std.specs.Ordering.{as_partial_cmp};
    ghost use Rattle.std.proofs.Common.{rules};
    ghost use Rattle.vtl_time.specs.Periods.{period_cmp};

    ghost partial_cmp = { as_partial_cmp period_cmp };

    ghost laws = { partial_order_from_own_ties (Prim.search (comparing, rules)) (Prim.search (comparing, rules)) };

    fn partial_cmp(&self, other: &Period) -> Option<Ordering> {
        Some(self.cmp(other))
    }
}

impl Ord for Period {
    ghost use Rattle.std.specs.Cmp.Rules.{comparing};
    ghost use Rattle.std.proofs.Common.{rules};
    ghost use Rattle.vtl_time.specs.Periods.{period_cmp};

    ghost cmp = { period_cmp };

    ghost total = { Prim.search (comparing, rules) };

    ghost matches_partial_cmp = { Prim.search (comparing, rules) };

    ghost matches_eq = { Prim.search (comparing, rules) };

    fn cmp(&self, other: &Period) -> Ordering {
        self.frequency
            .rank()
            .cmp(&other.frequency.rank())
            .then(self.year.cmp(&other.year))
            .then(self.part.cmp(&other.part))
    }
}

ghost use Rattle.vtl_time.specs.Periods.{SpellsPeriod, is_year_part, period_of, period_cmp, period_text, numbered_part_of, part_of, behind_year, read_period_of, shift_of};

/// The period that `t` spells: `YYYY-A1`, `YYYY-S1` to `S2`, `YYYY-Q1` to `Q4`, `YYYY-M01` to `M12`, or as `YYYY` a
/// year and as `YYYY-01` to `YYYY-12` a month. `None` for any other text.
pub fn read_period(t: &str) -> Option<Period>
    ensures value { result ≡ read_period_of (chars t.now) }
    ensures text { IfSome result (SpellsPeriod (chars t.now)) }
{
    period_in(t.as_bytes())
}

fn period_in(bytes: &[u8]) -> Option<Period>
    ensures { result ≡ read_period_of bytes.now }
{
    if bytes.len() < 4 {
        return None;
    }
    let year = number(&bytes[..4])?;
    rest_in(year, &bytes[4..])
}

fn rest_in(year: u16, rest: &[u8]) -> Option<Period>
    requires { year ≤ 9999 }
    ensures { result ≡ behind_year year rest.now }
{
    match rest.first() {
        None => make_period(Frequency::Annual, year, 1),
        Some(b'-') => part_in(year, &rest[1..]),
        Some(_) => None,
    }
}

fn part_in(year: u16, part: &[u8]) -> Option<Period>
    requires { year ≤ 9999 }
    ensures { result ≡ part_of year part.now }
{
    match part.first()? {
        b'A' => numbered_part(Frequency::Annual, year, &part[1..]),
        b'S' => numbered_part(Frequency::Semester, year, &part[1..]),
        b'Q' => numbered_part(Frequency::Quarter, year, &part[1..]),
        b'M' => numbered_part(Frequency::Month, year, &part[1..]),
        _ => numbered_part(Frequency::Month, year, part),
    }
}

fn numbered_part(frequency: Frequency, year: u16, digits: &[u8]) -> Option<Period>
    requires { year ≤ 9999 }
    ensures { result ≡ numbered_part_of frequency year digits.now }
{
    if digits.len() != frequency.width() {
        return None;
    }
    make_period(frequency, year, number(digits)?)
}

// The period with these numbers, if there is one.
fn make_period(frequency: Frequency, year: u16, part: u16) -> Option<Period>
    requires { year ≤ 9999 }
    ensures { result ≡ period_of frequency year part }
{
    if part < 1 || part > u16::from(frequency.parts()) {
        return None;
    }
    Some(Period {
        frequency,
        year,
        part: part as u8,
    })
}

impl Period {
    ghost use Rattle.vtl_time.specs.Periods.{parts_in_year, index_of, period_at};

    /// Whether it is a year, a half, a quarter or a month.
    pub fn frequency(self) -> Frequency
        ensures { result ≡ self.frequency }
    {
        self.frequency
    }

    /// How many periods of its frequency come before it from the year 0 on.
    pub fn index(self) -> u64
        ensures value { result ≡ index_of self }
        ensures below { index_of self < 10000 * parts_in_year self.frequency }
        ensures valid { IsTrue (is_year_part self.frequency self.year self.part) }
    {
        u64::from(self.year) * u64::from(self.frequency.parts()) + u64::from(self.part - 1)
    }

    /// The period that has this many of its frequency before it from the year 0 on. One of the year 9999 or before it
    /// has fewer than 10,000 times the parts of a year.
    pub fn at_index(frequency: Frequency, index: u64) -> Period
        requires { index < 10000 * parts_in_year frequency }
        ensures { result ≡ period_at frequency index }
    {
        let parts = u64::from(frequency.parts());
        Period {
            frequency,
            year: (index / parts) as u16,
            part: (index % parts) as u8 + 1,
        }
    }
}

/// The `n`-th period of the same frequency after `p`, or before it for a negative `n`. `None` exactly where its year is
/// not in 0 to 9999.
pub fn shift(p: Period, n: i64) -> Option<Period>
    ensures value { result ≡ shift_of p n }
    ensures back { IfSome result (λ q. shift_of q (neg_ℤ n) ≡ Some p) }
    ensures order { IfSome result (λ q. period_cmp p q ≡ int_cmp (pos 0) n) }
{
    let index = p.index().checked_add_signed(n)?;
    let end = YEARS * u64::from(p.frequency().parts());
    if index < end {
        Some(Period::at_index(p.frequency(), index))
    } else {
        None
    }
}

/// Appends the period to `out`, as `YYYY-A1`, `YYYY-S1`, `YYYY-Q1` or `YYYY-M01`. It fails only if memory runs out, and
/// then leaves `out` as it was.
pub fn write_period(p: Period, out: &mut Vec<u8>) -> Result<(), AllocError>
    ensures ok { OnOk result (out.new.items ≡ out.old.items ++ period_text p) }
    ensures err { OnErr result (out.new.items ≡ out.old.items) }
    ensures reads_back { read_period_of (period_text p) ≡ Some p }
    ensures valid { IsTrue (is_year_part p.frequency p.year p.part) }
{
    match p.frequency {
        Frequency::Annual => out.extend_from_slice(&short_text(p.year, b'A', p.part)),
        Frequency::Semester => out.extend_from_slice(&short_text(p.year, b'S', p.part)),
        Frequency::Quarter => out.extend_from_slice(&short_text(p.year, b'Q', p.part)),
        Frequency::Month => out.extend_from_slice(&month_text(p.year, p.part)),
    }
}

// A year, `-`, a letter and a digit.
fn short_text(year: u16, letter: u8, part: u8) -> [u8; 7]
    requires { part ≤ 9 }
    ensures { result ≡ four_digits year ++ (45 ∷ (letter ∷ ((48 + part) ∷ []))) }
{
    [
        last_digit(year / 1000),
        last_digit(year / 100),
        last_digit(year / 10),
        last_digit(year),
        b'-',
        letter,
        b'0' + part,
    ]
}

// A year, `-M` and the two digits of a month.
fn month_text(year: u16, month: u8) -> [u8; 8]
    ensures { result ≡ four_digits year ++ (45 ∷ (77 ∷ two_digits month)) }
{
    let month = u16::from(month);
    [
        last_digit(year / 1000),
        last_digit(year / 100),
        last_digit(year / 10),
        last_digit(year),
        b'-',
        b'M',
        last_digit(month / 10),
        last_digit(month),
    ]
}
