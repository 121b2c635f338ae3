// The exact totals of values that come and go.
//
// Totals go back exactly: those of integers and of numbers are exact integers, so a cell that goes is taken away. How
// many of the values are integers is counted, since with the last number the total becomes an integer again.
ghost use Rattle.std.specs.Int.{w128};
ghost use Rattle.std.specs.Prelude.{◌≡◌, ◌^◌, ◌<◌, ◌≤◌, ◌+ℤ◌, ◌*ℤ◌, [], FitsSigned, IfNone, IfSome, SomeIff, unsigned_abs};
ghost use Rattle.vtl_agg.specs.Added.{mean_units, sum_value, units_in};
ghost use Rattle.vtl_cell.specs.ScalarArithmetic.{number};
ghost use Rattle.vtl_decimal.specs.Range.{fit_number};
ghost use Rattle.vtl_frames.specs.Totals.{HasCounted, IsRoomy, IsSmall, joined, left, sums_in, totals_of, value_of};

use vtl_agg::{fit, quotient, unit};
use vtl_cell::{AggKind, Cell};
use vtl_decimal::{Dec, Fault, Profile, whole};

// How many values there are and how many of them are integers, the total of the integers, and that of the numbers in
// units; other values count as zero.
#[derive(Drop)]
pub(crate) struct Totals {
    count: u64,
    integers: u64,
    whole: i128,
    rest: i128,
}

// A product, None where it does not fit.
fn times(total: i128, factor: i64) -> Option<i128>
    ensures { SomeIff result (FitsSigned w128 (total *ℤ factor)) (total *ℤ factor) }
{
    total.checked_mul(i128::from(factor))
}

// A sum, None where it does not fit.
fn plus(a: i128, b: i128) -> Option<i128>
    ensures { SomeIff result (FitsSigned w128 (a +ℤ b)) (a +ℤ b) }
{
    a.checked_add(b)
}

impl Totals {
    // Of no values.
    pub(crate) fn new() -> Totals
        ensures { result ≡ totals_of [] }
    {
        Totals {
            count: 0,
            integers: 0,
            whole: 0,
            rest: 0,
        }
    }

    // One more cell; null is no value.
    pub(crate) fn enter(&mut self, c: &Cell)
        requires { IsRoomy self.old }
        ensures value { self.new ≡ joined self.old c.now }
        ensures small { IsSmall c.now }
    {
        match c {
            Cell::Null => {}
            Cell::Int(n) => {
                self.count += 1;
                self.integers += 1;
                self.whole += i128::from(*n);
            }
            Cell::Num(k) => {
                self.count += 1;
                self.rest += i128::from(k.k());
            }
            _ => self.count += 1,
        }
    }

    // Without a cell that came.
    pub(crate) fn leave(&mut self, c: &Cell)
        requires room { IsRoomy self.old }
        requires counted { HasCounted self.old c.now }
        ensures { self.new ≡ left self.old c.now }
    {
        match c {
            Cell::Null => {}
            Cell::Int(n) => {
                self.count -= 1;
                self.integers -= 1;
                self.whole -= i128::from(*n);
            }
            Cell::Num(k) => {
                self.count -= 1;
                self.rest -= i128::from(k.k());
            }
            _ => self.count -= 1,
        }
    }

    // The total in units, None where it is far out of range.
    fn units(&self, p: &Profile) -> Option<i128>
        requires { IsRoomy self.now }
        ensures some { IfSome result (λ u. u ≡ units_in p.now (sums_in self.now)) }
        ensures none { IfNone result (2 ^ 126 ≤ unsigned_abs (units_in p.now (sums_in self.now))) }
    {
        plus(times(self.whole, unit(p))?, self.rest)
    }

    // The total as a number, an integer standing for the equal one.
    pub(crate) fn total(&self, p: &Profile) -> Result<Dec, Fault>
        requires { IsRoomy self.now }
        ensures { result ≡ fit_number (units_in p.now (sums_in self.now)) }
    {
        match self.units(p) {
            Some(units) => fit(units),
            None => Err(Fault::Range),
        }
    }

    // The total: of integers an integer.
    fn sum(&self, p: &Profile) -> Result<Cell, Fault>
        requires { IsRoomy self.now }
        ensures { result ≡ sum_value p.now (sums_in self.now) }
    {
        if self.integers == self.count {
            return Ok(Cell::Int(whole(self.whole, p)?));
        }
        Ok(Cell::Num(self.total(p)?))
    }

    // The total divided by the count.
    fn mean(&self, p: &Profile) -> Result<Cell, Fault>
        requires room { IsRoomy self.now }
        requires some { 0 < self.now.count }
        ensures { result ≡ number (fit_number (mean_units p.now (sums_in self.now))) }
    {
        match self.units(p) {
            Some(units) => Ok(Cell::Num(quotient(p.rounding(), units, i128::from(self.count))?)),
            None => Err(Fault::Range),
        }
    }

    // The total, the mean or the count of the values.
    pub(crate) fn value(&self, kind: AggKind, p: &Profile) -> Result<Cell, Fault>
        requires { IsRoomy self.now }
        ensures { result ≡ value_of p.now kind self.now }
    {
        match kind {
            AggKind::Count => Ok(Cell::Int(whole(i128::from(self.count), p)?)),
            _ if self.count == 0 => Ok(Cell::Null),
            AggKind::Avg => self.mean(p),
            _ => self.sum(p),
        }
    }
}
