ghost use Rattle.std.specs.Prelude.{◌≡◌, ◌*◌, ◌^◌, ◌<◌, ◌≤◌, unsigned_abs, pos, IfSome, ℤ, List, [], ◌∷◌, ◌++◌};
ghost use Rattle.vtl_decimal.specs.Range.{fit_number};
ghost use Rattle.vtl_decimal.specs.Rounding.{rounded_quotient, IsNear};
ghost use Rattle.vtl_decimal.specs.Tally.{tally_of, tally_with, mean_of};

use crate::number::{Dec, Fault, fit};
use crate::quotient::rounded;
use crate::settings::{Profile, Rounding};
use std::marker::Model;

/// The exact total of the numbers added so far, and how many they are.
#[derive(Clone, Copy, Debug, PartialEq, Eq)]
pub struct Sum {
    total: i128,
    count: u64,
}

impl Model for Sum {
    ghost use Rattle.std.specs.Prelude.{◌*◌, ◌^◌, ◌≤◌, unsigned_abs};
    ghost use Rattle.vtl_decimal.specs.Tally.{Tally};

    ghost Value = { Tally };

    ghost view = { λ s. record { count = s.count; total = s.total } };

    ghost invariant = { λ s. (s.count ≤ 2 ^ 63) × (unsigned_abs s.total ≤ s.count * 999999999999999999) };

    ghost inverse = { λ t. record { total = t.total; count = t.count } };
}

impl Sum {
    /// The total of no numbers.
    pub fn new() -> Sum
        ensures { result ≡ tally_of [] }
    {
        Sum { total: 0, count: 0 }
    }

    /// Adds a number. The total keeps every digit, even where no number of 18 digits could hold it.
    /// A sum takes 2^63 numbers and no more.
    pub fn add(&mut self, d: Dec)
        requires { self.old.count < 2 ^ 63 }
        ensures added { self.new ≡ tally_with self.old d }
        ensures listed { (xs : List ℤ) → self.old ≡ tally_of xs → self.new ≡ tally_of (xs ++ d ∷ []) }
    {
        self.total += i128::from(d.k());
        self.count += 1;
    }

    /// The exact total.
    ///
    /// Range where the total, whatever it was in between, has more than 18 digits.
    pub fn total(&self) -> Result<Dec, Fault>
        ensures { result ≡ fit_number self.now.total }
    {
        fit(self.total)
    }

    /// The exact total divided by the count, rounded once. None where nothing was added.
    pub fn mean(&self, p: &Profile) -> Option<Dec>
        ensures value { result ≡ mean_of p.now.rounding self.now }
        ensures near { IfSome result (IsNear p.now.rounding self.now.total (pos self.now.count)) }
    {
        if self.count == 0 {
            return None;
        }
        Some(Dec::of(mean_units(p.rounding(), self.total, self.count)))
    }
}

// The total divided by the count, rounded, which is no larger than the largest number added.
#[tactic(auto, using(crate::proofs::RoundingLemmas::rounded_quotient_within))]
fn mean_units(rounding: Rounding, total: i128, count: u64) -> i64
    requires some { 0 < count }
    requires countable { count ≤ 2 ^ 63 }
    requires bounded { unsigned_abs total ≤ count * 999999999999999999 }
    ensures value { result ≡ rounded_quotient rounding total (pos count) }
    ensures in_range { unsigned_abs result < 10 ^ 18 }
{
    rounded(rounding, total, i128::from(count)) as i64
}
