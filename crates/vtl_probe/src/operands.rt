// The operands that the runs walk round.
ghost use Rattle.std.specs.Prelude.{◌≡◌, ◌^◌, ◌<◌, unsigned_abs};

use vtl_decimal::Dec;

// How many operands each table has.
pub(crate) const SIZE: u64 = 16;

// Two operands.
#[derive(Clone, Copy)]
pub(crate) struct Pair {
    pub left: Dec,
    pub right: Dec,
}

// The number of these units.
fn number(units: i64) -> Dec
    requires { unsigned_abs units < 10 ^ 18 }
    ensures { result ≡ units }
{
    Dec::from_k(units).unwrap()
}

// The pair of numbers of these units.
fn pair_of(left: i64, right: i64) -> Pair
    requires left_fits { unsigned_abs left < 10 ^ 18 }
    requires right_fits { unsigned_abs right < 10 ^ 18 }
    ensures left { result.left ≡ left }
    ensures right { result.right ≡ right }
{
    Pair {
        left: number(left),
        right: number(right),
    }
}

// Pairs of numbers of mixed size and sign, with a sum, a product and a quotient each.
pub(crate) fn pairs() -> [Pair; 16] {
    [
        pair_of(1, 1),
        pair_of(3_141_593, 2_718_282),
        pair_of(-2_000_000, 7_000_001),
        pair_of(123_456_789_012_345_678, 2_500_000),
        pair_of(0, -400_000),
        pair_of(-999_999_999_999, 333_333),
        pair_of(50_000, -600_000_000_017),
        pair_of(-1_000_001, -1_000_003),
        pair_of(7_250_000_000, 12_345),
        pair_of(45, 999_999),
        pair_of(-88_888_888_888_888, 3_100_007),
        pair_of(600_500_400_300_200, -1_070_000),
        pair_of(19_990_000, 1_210_000),
        pair_of(-5, -250_000_000_000),
        pair_of(314_159_265_358, 271_828_182_845),
        pair_of(-42_000_000, 13),
    ]
}

// Texts of numbers, some with more digits than are kept.
pub(crate) static TEXTS: [&str; 16] = [
    "0",
    "-3.141593",
    "123456789012.345678",
    "1e3",
    "+.5",
    "2.5E-4",
    "0.1234565",
    "-99999.9999995",
    "42",
    "000000000000000000017.250",
    "-6.02214076e11",
    "7.",
    "0.0000004",
    "-1234.5",
    "31415926535897932384626433e-20",
    "19.99",
];
