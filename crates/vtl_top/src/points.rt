// How many points the demonstration is run over.
ghost use Rattle.std.specs.Prelude.{◌≡◌, ◌≤◌, length};
ghost use Rattle.vtl_time.specs.Numerals.{number_in_digits};
ghost use Rattle.vtl_demo.specs.DataSets.{most_points};
ghost use Rattle.vtl_top.specs.Words.{may_be_points, points_in};

use std::marker::Model;
use vtl_demo::MOST_POINTS;

// So many digits has the decimal of the most points.
const MOST_DIGITS: usize = 7;

/// A number of points that the demonstration may have: 1 to `MOST_POINTS`.
#[derive(Clone, Copy)]
pub struct Points {
    count: u64,
}

impl Model for Points {
    ghost use Rattle.std.specs.Prelude.{ℕ, ◌≤◌};
    ghost use Rattle.vtl_demo.specs.DataSets.{most_points};

    ghost Value = { ℕ };

    ghost view = { λ p. p.count };

    ghost invariant = { λ p. p.count ≤ most_points };

    ghost inverse = { λ n. record { count = n } };
}

impl Points {
    /// The number of points that a word is the decimal of.
    pub(crate) fn of(word: &str) -> Option<Points>
        ensures { result ≡ points_in word.now }
    {
        let digits = word.as_bytes();
        match digits {
            [first, ..] if *first != b'0' && digits.len() <= MOST_DIGITS => {
                Points::new(number(digits)?)
            }
            _ => None,
        }
    }

    fn new(count: u64) -> Option<Points>
        ensures { result ≡ may_be_points count }
    {
        if count >= 1 && count <= MOST_POINTS {
            return Some(Points { count });
        }
        None
    }

    /// The number.
    pub fn count(&self) -> u64
        ensures value { result ≡ self.now }
        ensures few { result ≤ most_points }
    {
        self.count
    }
}

// The number that up to seven digits stand for, or None where anything else is among them.
fn number(digits: &[u8]) -> Option<u64>
    requires { length digits.now ≤ 7 }
    ensures { result ≡ number_in_digits digits.now }
{
    let mut value = 0;
    for digit in digits {
        if !digit.is_ascii_digit() {
            return None;
        }
        value = value * 10 + u64::from(*digit - b'0');
    }
    Some(value)
}
