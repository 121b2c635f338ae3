ghost use Rattle.std.specs.Prelude.{◌≡◌, ◌^◌, ◌<◌, ◌≤◌, ◌*ℤ◌, pos, unsigned_abs};

// A power of ten that fits in 64 bits.
#[tactic(auto, using(crate::proofs::PowerLemmas::power_of_ten_fits))]
pub(crate) fn power_of_ten(exponent: u8) -> i64
    requires { exponent ≤ 18 }
    ensures value { result ≡ pos (10 ^ exponent) }
    ensures not_zero { 0 < unsigned_abs result }
    ensures bound { unsigned_abs result ≤ 10 ^ 18 }
{
    10_u64.pow(u32::from(exponent)) as i64
}

// The product of any two 64-bit numbers fits in 128 bits.
pub(crate) fn exact_product(a: i64, b: i64) -> i128
    ensures value { result ≡ a *ℤ b }
    ensures bound { unsigned_abs result ≤ 2 ^ 126 }
{
    i128::from(a) * i128::from(b)
}
