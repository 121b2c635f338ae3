// The order, equality and hash of `Dec` are those of its units, which is right within one profile alone.
ghost use Rattle.std.specs.Prelude.{◌≡◌, ◌^◌, ◌<◌, ◌↔◌, IsSome, IfSome, unsigned_abs};
ghost use Rattle.vtl_decimal.specs.Range.{fit_number};

use std::marker::Model;

/// Why an operation has no value.
#[derive(Clone, Copy, Debug, PartialEq, Eq)]
pub enum Fault {
    /// The divisor is zero.
    DivZero,
    /// The result has more than 18 digits, those after its point among them.
    Range,
}

/// One more than the greatest size of a number's `k`.
pub(crate) const LIMIT: u64 = 1_000_000_000_000_000_000;

/// A number of at most 18 digits: it stands for `k` units of the last place of the profile's scale.
#[derive(Clone, Copy, Debug, PartialEq, Eq, Hash, PartialOrd, Ord)]
pub struct Dec {
    k: i64,
}

impl Model for Dec {
    ghost use Rattle.std.specs.Prelude.{ℤ, ◌^◌, ◌<◌, unsigned_abs};

    ghost Value = { ℤ };

    ghost view = { λ d. d.k };

    ghost invariant = { λ d. unsigned_abs d.k < 10 ^ 18 };

    ghost inverse = { λ z. record { k = z } };
}

impl Dec {
    /// The number of `k` units, or None where `k` has more than 18 digits.
    pub fn from_k(k: i64) -> Option<Dec>
        ensures valid { IsSome result ↔ (unsigned_abs k < 10 ^ 18) }
        ensures value { IfSome result (λ d. d ≡ k) }
    {
        if k.unsigned_abs() < LIMIT {
            Some(Dec { k })
        } else {
            None
        }
    }

    /// How many units of the last place the number is.
    pub fn k(&self) -> i64
        ensures value { result ≡ self.now }
        ensures in_range { unsigned_abs result < 10 ^ 18 }
    {
        self.k
    }

    // The number of `k` units, which has at most 18 digits.
    pub(crate) fn of(k: i64) -> Dec
        requires { unsigned_abs k < 10 ^ 18 }
        ensures { result ≡ k }
    {
        Dec { k }
    }
}

// The number of `k` units, where it has at most 18 digits.
pub(crate) fn fit(k: i128) -> Result<Dec, Fault>
    ensures { result ≡ fit_number k }
{
    if k.unsigned_abs() < u128::from(LIMIT) {
        Ok(Dec { k: k as i64 })
    } else {
        Err(Fault::Range)
    }
}
