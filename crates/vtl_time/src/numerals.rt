// Numbers in digits.
ghost use Rattle.std.specs.Prelude.{◌≡◌, ◌^◌, ◌+◌, ◌*◌, ◌/◌, ◌%◌, ◌<◌, ◌≤◌, length, IfSome};
ghost use Rattle.vtl_time.specs.Numerals.{number_in_digits};

// The number that up to four digits stand for, or `None` where anything else is among them.
pub(crate) fn number(digits: &[u8]) -> Option<u16>
    requires { length digits.now ≤ 4 }
    ensures value { result ≡ number_in_digits digits.now }
    ensures bound { IfSome result (λ n. n < 10 ^ length digits.now) }
{
    let mut value = 0;
    for digit in digits {
        if !digit.is_ascii_digit() {
            return None;
        }
        value = value * 10 + u16::from(*digit - b'0');
    }
    Some(value)
}

// The last digit of a number.
pub(crate) fn last_digit(n: u16) -> u8
    ensures { result ≡ 48 + n % 10 }
{
    b'0' + (n % 10) as u8
}
