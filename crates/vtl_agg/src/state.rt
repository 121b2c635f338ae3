// What is kept of the cells.
//
// The median of numbers keeps 16 bytes a value, since an integer in units may need more than 64 bits.
ghost use Rattle.std.specs.Prelude.{◌≡◌, ◌<◌, [], true, IsOk, length, pos, OnOk, OnErr};
ghost use Rattle.vtl_agg.specs.Added.{known_of, known_with, is_before, median_value};
ghost use Rattle.vtl_agg.specs.States.{known, IsRoomy, is_small};
ghost use Rattle.vtl_cell.specs.Groups.{middle_of};
ghost use Rattle.vtl_cell.specs.ScalarArithmetic.{integer, number};
ghost use Rattle.vtl_decimal.specs.Range.{fit_integer, fit_number};
ghost use Rattle.vtl_decimal.specs.Settings.{Settings};

use crate::numbers::{half_sum, units};
use crate::total::Total;
use std::alloc::{AllocError, Global};
use vtl_cell::{AggKind, Cell, clone_cell, compare};
use vtl_decimal::{Fault, Profile, whole};

#[derive(Drop)]
pub(crate) enum State {
    Count(u64),
    Totals(Total),
    First(Cell),
    Units(Vec<i128>),
}

// Nothing yet.
pub(crate) fn nothing(alloc: Global, kind: AggKind) -> State
    ensures { (p : Settings) → known result ≡ known_of p kind [] }
{
    match kind {
        AggKind::Sum | AggKind::Avg => State::Totals(Total::new()),
        AggKind::Count => State::Count(0),
        AggKind::Min | AggKind::Max => State::First(Cell::Null),
        AggKind::Median => State::Units(Vec::new(alloc)),
    }
}

// Whether a value comes before the first so far.
fn is_before(kind: AggKind, c: &Cell, first: &Cell) -> bool
    ensures { result ≡ is_before kind c.now first.now }
{
    match (kind, first) {
        (_, Cell::Null) => true,
        (AggKind::Max, _) => compare(first, c).is_lt(),
        _ => compare(c, first).is_lt(),
    }
}

// One more value.
pub(crate) fn add_value(
    state: &mut State,
    kind: AggKind,
    c: &Cell,
    p: &Profile,
) -> Result<(), AllocError>
    requires { IsRoomy (known state.old) }
    ensures added { OnOk result (known state.new ≡ known_with p.now kind (known state.old) c.now) }
    ensures err { OnErr result (known state.new ≡ known state.old) }
    ensures sure { is_small (known state.old) ≡ true → IsOk result }
{
    match state {
        State::Count(count) => *count += 1,
        State::Totals(totals) => totals.add(c),
        State::First(first) => {
            if is_before(kind, c, first) {
                *first = clone_cell(c)?;
            }
        }
        State::Units(all) => all.push(units(c, p))?,
    }
    Ok(())
}

// The middle of numbers in order, in units.
fn middle(units: &[i128], p: &Profile) -> Result<Cell, Fault>
    requires { 0 < length units.now }
    ensures { result ≡ number (fit_number (middle_of p.now units.now)) }
{
    let count = units.len();
    half_sum(p.rounding(), units[(count - 1) / 2], units[count / 2])
}

// The median of numbers in units, null where there is none.
pub(crate) fn median(units: Vec<i128>, p: &Profile) -> Result<Cell, Fault>
    ensures { result ≡ median_value p.now units.items }
{
    let mut units = units;
    if units.is_empty() {
        return Ok(Cell::Null);
    }
    units.sort_unstable();
    middle(&units, p)
}

// How many values there are.
pub(crate) fn counted(count: u64, p: &Profile) -> Result<Cell, Fault>
    ensures { result ≡ integer (fit_integer p.now.scale (pos count)) }
{
    Ok(Cell::Int(whole(i128::from(count), p)?))
}
