// The runs, and their checksums.
ghost use Rattle.std.specs.Prelude.{◌≡◌, length, pos, IfOk, OnErr};

use crate::operands::{Pair, SIZE, TEXTS, pairs};
use crate::report::Report;
use crate::times::{Operation, Order};
use std::alloc::{AllocError, Global};
use vtl_decimal::{Dec, Profile, Rounding, add, div, mul, read, write};

// Six digits after the point, with a half rounded away from zero.
fn profile() -> Profile
    ensures scale { result.scale ≡ 6 }
    ensures rounding { result.rounding ≡ Rounding.HalfUp }
{
    Profile::new(6, Rounding::HalfUp).unwrap()
}

// The units of a result, or 0 where there is none.
fn units<E: Drop>(outcome: Result<Dec, E>) -> i64
    ensures ok { IfOk outcome (λ number. result ≡ number) }
    ensures err { OnErr outcome (result ≡ pos 0) }
{
    match outcome {
        Ok(number) => number.k(),
        Err(_) => 0,
    }
}

// The wrapping sum of what a function gives at the items, walked round.
fn sum_round<T, F: Fn(&T) -> i64>(items: &[T], count: u64, value: F) -> i64
    requires callable { F.IsAlwaysCallable value }
    requires size { length items.now ≡ 16 }
{
    let mut sum: i64 = 0;
    for step in 0..count {
        sum = sum.wrapping_add(value(&items[(step % SIZE) as usize]));
    }
    sum
}

// The number of bytes that are written: the left ones of the pairs, each over the one before.
fn bytes_written(
    alloc: Global,
    pairs: &[Pair],
    count: u64,
    profile: &Profile,
) -> Result<i64, AllocError>
    requires { length pairs.now ≡ 16 }
{
    let mut out: Vec<u8> = Vec::with_capacity(alloc, 32)?;
    let mut sum: i64 = 0;
    for step in 0..count {
        out.clear();
        write(pairs[(step % SIZE) as usize].left, profile, &mut out)?;
        sum = sum.wrapping_add_unsigned(out.len() as u64);
    }
    Ok(sum)
}

// The checksum of an order's results: the wrapping sum of their units, or of the bytes written.
fn checksum(alloc: Global, order: Order) -> Result<i64, AllocError> {
    let p = profile();
    let count = order.count;
    match order.operation {
        Operation::Add => Ok(sum_round(&pairs(), count, |pair| units(add(pair.left, pair.right)))),
        Operation::Mul => Ok(sum_round(
            &pairs(),
            count,
            |pair| units(mul(pair.left, pair.right, &p)),
        )),
        Operation::Div => Ok(sum_round(
            &pairs(),
            count,
            |pair| units(div(pair.left, pair.right, &p)),
        )),
        Operation::Read => Ok(sum_round(&TEXTS, count, |text| units(read(text, &p)))),
        Operation::Write => bytes_written(alloc, &pairs(), count, &p),
    }
}

// The checksum of an order's results, on a line.
pub(crate) fn printed(alloc: Global, order: Order) -> Result<Report, AllocError> {
    let sum = checksum(alloc, order)?;
    let text = format!(in alloc; "{sum}\n")?;
    Ok(Report { text, code: 0 })
}
