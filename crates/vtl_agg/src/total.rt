// The exact totals of values, and how many they are.
ghost use Rattle.std.specs.Int.{w128};
ghost use Rattle.std.specs.Prelude.{◌≡◌, ◌&&◌, ◌^◌, ◌<◌, ◌≤◌, ◌+ℤ◌, ◌*ℤ◌, [], FitsSigned, IfNone, IfSome, SomeIff, unsigned_abs};
ghost use Rattle.vtl_agg.specs.Added.{mean_units, rest_of, sum_value, total_value, totals_of, totals_with, units_in};
ghost use Rattle.vtl_cell.specs.Groups.{is_integer, whole_of};
ghost use Rattle.vtl_cell.specs.ScalarArithmetic.{number};
ghost use Rattle.vtl_decimal.specs.Range.{fit_number};

use crate::numbers::{fit, quotient, unit};
use std::marker::Model;
use vtl_cell::{AggKind, Cell};
use vtl_decimal::{Fault, Profile, whole};

// The totals of the integers and of the numbers are kept apart, since an integer has no units before the profile is known.
#[derive(Drop)]
pub(crate) struct Total {
    whole: i128,
    rest: i128,
    count: u64,
    is_whole: bool,
}

impl Model for Total {
    ghost use Rattle.std.specs.Prelude.{◌*◌, ◌^◌, ◌≤◌, unsigned_abs};
    ghost use Rattle.vtl_agg.specs.Added.{Totals};

    ghost Value = { Totals };

    ghost view = { λ s. record { count = s.count; is_whole = s.is_whole; whole = s.whole; rest = s.rest } };

    ghost invariant = { λ s. (s.count ≤ 2 ^ 63) × (unsigned_abs s.whole ≤ s.count * 9223372036854775808) × (unsigned_abs s.rest ≤ s.count * 9223372036854775808) };
}

fn whole_of(c: &Cell) -> i64
    ensures { result ≡ whole_of c.now }
{
    match c {
        Cell::Int(n) => *n,
        _ => 0,
    }
}

fn rest_of(c: &Cell) -> i64
    ensures { result ≡ rest_of c.now }
{
    match c {
        Cell::Num(k) => k.k(),
        _ => 0,
    }
}

fn is_integer(c: &Cell) -> bool
    ensures { result ≡ is_integer c.now }
{
    matches!(c, Cell::Int(_))
}

// Whether values are all integers, with one more.
fn stays_whole(is_whole: bool, c: &Cell) -> bool
    ensures { result ≡ (is_whole && is_integer c.now) }
{
    is_whole && is_integer(c)
}

// One more amount.
fn added(total: i128, amount: i64) -> i128
    requires { unsigned_abs total ≤ 2 ^ 126 }
    ensures { result ≡ total +ℤ amount }
{
    total + i128::from(amount)
}

// A product, None where it does not fit.
fn times(total: i128, factor: i64) -> Option<i128>
    ensures { SomeIff result (FitsSigned w128 (total *ℤ factor)) (total *ℤ factor) }
{
    total.checked_mul(i128::from(factor))
}

// A sum, None where it does not fit.
fn plus(a: i128, b: i128) -> Option<i128>
    ensures { SomeIff result (FitsSigned w128 (a +ℤ b)) (a +ℤ b) }
{
    a.checked_add(b)
}

impl Total {
    pub fn new() -> Total
        ensures { result ≡ totals_of [] }
    {
        Total {
            whole: 0,
            rest: 0,
            count: 0,
            is_whole: true,
        }
    }

    // One more value.
    pub fn add(&mut self, c: &Cell)
        requires { self.old.count < 2 ^ 63 }
        ensures { self.new ≡ totals_with self.old c.now }
    {
        self.whole = added(self.whole, whole_of(c));
        self.rest = added(self.rest, rest_of(c));
        self.is_whole = stays_whole(self.is_whole, c);
        self.count += 1;
    }

    // The total or the mean, null where nothing was added.
    pub fn value(&self, kind: AggKind, p: &Profile) -> Result<Cell, Fault>
        ensures { result ≡ total_value p.now kind self.now }
    {
        if self.count == 0 {
            return Ok(Cell::Null);
        }
        match kind {
            AggKind::Avg => self.mean(p),
            _ => self.sum(p),
        }
    }

    // The total in units, None where it is far out of range.
    fn units(&self, p: &Profile) -> Option<i128>
        ensures some { IfSome result (λ u. u ≡ units_in p.now self.now) }
        ensures none { IfNone result (2 ^ 126 ≤ unsigned_abs (units_in p.now self.now)) }
    {
        plus(times(self.whole, unit(p))?, self.rest)
    }

    // The total: of integers an integer.
    fn sum(&self, p: &Profile) -> Result<Cell, Fault>
        ensures { result ≡ sum_value p.now self.now }
    {
        if self.is_whole {
            return Ok(Cell::Int(whole(self.whole, p)?));
        }
        match self.units(p) {
            Some(units) => Ok(Cell::Num(fit(units)?)),
            None => Err(Fault::Range),
        }
    }

    // The total divided by the count.
    fn mean(&self, p: &Profile) -> Result<Cell, Fault>
        requires { 0 < self.now.count }
        ensures { result ≡ number (fit_number (mean_units p.now self.now)) }
    {
        match self.units(p) {
            Some(units) => Ok(Cell::Num(quotient(p.rounding(), units, i128::from(self.count))?)),
            None => Err(Fault::Range),
        }
    }
}
