ghost use Rattle.std.specs.Prelude.{◌≡◌, ◌≤◌, ◌<◌, ◌^◌, IsTrue, MatchOption, IfSome};
ghost use Rattle.std.specs.Str.Parse.{digits_value_after};
ghost use Rattle.std.specs.Str.{all_ascii_digits};

use crate::number::LIMIT;

// The number that the digits write after those of `start`, where it has at most 18 digits.
#[tactic(auto, using(crate::proofs::DigitLemmas::digit_facts))]
pub(crate) fn value_onto(start: u64, digits: &[u8]) -> Option<u64>
    requires start_fits { start < 10 ^ 18 }
    requires digits { IsTrue (all_ascii_digits digits.now) }
    ensures value { MatchOption result (10 ^ 18 ≤ digits_value_after 10 start digits.now) (λ v. v ≡ digits_value_after 10 start digits.now) }
    ensures bound { IfSome result (λ v. v < 10 ^ 18) }
{
    let mut value = start;
    for digit in digits {
        value = value * 10 + u64::from(*digit - b'0');
        if value >= LIMIT {
            return None;
        }
    }
    Some(value)
}
