// Days of the calendar.
ghost use Rattle.std.specs.Prelude.{◌≡◌, ◌+◌, ◌≤◌, ◌++◌, Some, OnOk, OnErr, IfSome, IsTrue, chars};

use crate::numerals::{last_digit, number};
use jiff::civil::Date;
use std::alloc::AllocError;
use std::cmp::Ordering;
use std::marker::Model;

/// A day of the calendar in the years 0 to 9999. Days are ordered by time.
#[derive(Clone, Copy, Debug, PartialEq, Eq, Hash)]
pub struct Day {
    year: u16,
    month: u8,
    day: u8,
}

impl Model for Day {
    ghost use Rattle.std.specs.Prelude.{IsTrue};
    ghost use Rattle.vtl_time.specs.Days.{CalendarDay, is_calendar_day};

    ghost Value = { CalendarDay };

    ghost view = { λ d. record { year = d.year; month = d.month; day = d.day } };

    ghost invariant = { λ d. IsTrue (is_calendar_day d.year d.month d.day) };

    ghost inverse = { λ v. record { year = v.year; month = v.month; day = v.day } };
}

impl PartialOrd for Day {
    ghost use Rattle.std.specs.Cmp.{partial_order_from_own_ties};
    ghost use Rattle.std.specs.Cmp.Rules.{comparing};
    ghost use Rattle.std.specs.Ordering.{as_partial_cmp};
    ghost use Rattle.std.proofs.Common.{rules};
    ghost use Rattle.vtl_time.specs.Days.{day_cmp};

    ghost partial_cmp = { as_partial_cmp day_cmp };

    ghost laws = { partial_order_from_own_ties (Prim.search (comparing, rules)) (Prim.search (comparing, rules)) };

    fn partial_cmp(&self, other: &Day) -> Option<Ordering> {
        Some(self.cmp(other))
    }
}

impl Ord for Day {
    ghost use Rattle.std.specs.Cmp.Rules.{comparing};
    ghost use Rattle.std.proofs.Common.{rules};
    ghost use Rattle.std.specs.Ordering.{nat_cmp};
    ghost use Rattle.std.specs.Prelude.{◌≡◌};
    ghost use Rattle.vtl_time.specs.Days.{day_cmp, day_number};

    ghost cmp = { day_cmp };

    ghost total = { Prim.search (comparing, rules) };

    ghost matches_partial_cmp = { Prim.search (comparing, rules) };

    ghost matches_eq = { Prim.search (comparing, rules) };

    fn cmp(&self, other: &Day) -> Ordering
        ensures fields { result ≡ day_cmp self.now other.now }
        ensures time { result ≡ nat_cmp (day_number self.now) (day_number other.now) }
    {
        self.year
            .cmp(&other.year)
            .then(self.month.cmp(&other.month))
            .then(self.day.cmp(&other.day))
    }
}

ghost use Rattle.vtl_time.specs.Days.{day_of, day_cmp, day_text, is_calendar_day, read_day_of};

/// The day that `t` spells as `YYYY-MM-DD`: exactly ten bytes, and a day that the calendar has. `None` for any other
/// text.
pub fn read_day(t: &str) -> Option<Day>
    ensures value { result ≡ read_day_of (chars t.now) }
    ensures text { IfSome result (λ d. chars t.now ≡ day_text d) }
{
    day_in(t.as_bytes())
}

fn day_in(bytes: &[u8]) -> Option<Day>
    ensures { result ≡ read_day_of bytes.now }
{
    if bytes.len() != 10 || bytes[4] != b'-' || bytes[7] != b'-' {
        return None;
    }
    let year = number(&bytes[..4])?;
    let month = number(&bytes[5..7])?;
    let day = number(&bytes[8..])?;
    make_day(year, month, day)
}

// The day with these numbers, if the calendar has it.
fn make_day(year: u16, month: u16, day: u16) -> Option<Day>
    requires year_in { year ≤ 9999 }
    requires month_in { month ≤ 99 }
    requires day_in { day ≤ 99 }
    ensures { result ≡ day_of year month day }
{
    match Date::new(year as i16, month as i8, day as i8) {
        Ok(_) => Some(Day {
            year,
            month: month as u8,
            day: day as u8,
        }),
        Err(_) => None,
    }
}

/// Appends the day to `out` as `YYYY-MM-DD`. It fails only if memory runs out, and then leaves `out` as it was.
pub fn write_day(d: Day, out: &mut Vec<u8>) -> Result<(), AllocError>
    ensures ok { OnOk result (out.new.items ≡ out.old.items ++ day_text d) }
    ensures err { OnErr result (out.new.items ≡ out.old.items) }
    ensures reads_back { read_day_of (day_text d) ≡ Some d }
    ensures valid { IsTrue (is_calendar_day d.year d.month d.day) }
{
    let (month, day) = (u16::from(d.month), u16::from(d.day));
    out.extend_from_slice(&[
        last_digit(d.year / 1000),
        last_digit(d.year / 100),
        last_digit(d.year / 10),
        last_digit(d.year),
        b'-',
        last_digit(month / 10),
        last_digit(month),
        b'-',
        last_digit(day / 10),
        last_digit(day),
    ])
}
