// The operators on periods.
ghost use Rattle.std.specs.Prelude.{◌≡◌, IfOk};
ghost use Rattle.vtl_cell.specs.ScalarPeriods.{frequency_of, places_in, shifted_of};

use std::alloc::{AllocError, Global};
use vtl_cell::{Cell, LONGEST_REACH};
use vtl_decimal::Fault;
use vtl_text::Txt;
use vtl_time::shift;

// The places that an operand asks for, back or on.
fn places_in(n: &Cell) -> Option<i64>
    ensures { result ≡ places_in n.now }
{
    match n {
        Cell::Int(n) if -LONGEST_REACH <= *n && *n <= LONGEST_REACH => Some(*n),
        _ => None,
    }
}

pub(crate) fn shifted(a: &Cell, n: &Cell) -> Result<Cell, Fault>
    ensures { result ≡ shifted_of a.now (places_in n.now) }
{
    match (a, places_in(n)) {
        (Cell::Period(q), Some(n)) => {
            let later = shift(*q, n).ok_or(Fault::Range)?;
            Ok(Cell::Period(later))
        }
        _ => Ok(Cell::Null),
    }
}

pub(crate) fn frequency(alloc: Global, a: &Cell) -> Result<Cell, AllocError>
    ensures { IfOk result (λ v. v ≡ frequency_of a.now) }
{
    match a {
        Cell::Period(q) => {
            let letter = Txt::new(alloc, q.frequency().letter())?;
            Ok(Cell::Text(letter))
        }
        _ => Ok(Cell::Null),
    }
}
