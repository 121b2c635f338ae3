// The operators of logic on values, and those that choose between their operands.
ghost use Rattle.std.specs.Prelude.{◌≡◌, is_some, IfOk};
ghost use Rattle.vtl_cell.specs.Kinds.{is_null, kind_of};
ghost use Rattle.vtl_cell.specs.Logic.{not_of, and_of, or_of, xor_of};
ghost use Rattle.vtl_cell.specs.ScalarChoice.{truth_in, on_truth, on_truths, beside, value_or, chosen_of};
ghost use Rattle.vtl_cell.specs.ScalarKinds.{shared_kind};
ghost use Rattle.vtl_scalar.specs.Answers.{Answers};

use crate::comparison::truth;
use crate::error::ScalarErr;
use crate::operands::as_number;
use vtl_cell::{Cell, and3, clone_cell, not3, or3, xor3};
use vtl_decimal::Profile;

// A boolean or null, where the operand is one of these.
fn truth_in(a: &Cell) -> Option<Option<bool>>
    ensures { result ≡ truth_in a.now }
{
    match a {
        Cell::Null => Some(None),
        Cell::Bool(b) => Some(Some(*b)),
        _ => None,
    }
}

pub(crate) fn not(a: &Cell) -> Cell
    ensures { result ≡ on_truth not_of (truth_in a.now) }
{
    match truth_in(a) {
        Some(a) => truth(not3(a)),
        None => Cell::Null,
    }
}

pub(crate) fn and(a: &Cell, b: &Cell) -> Cell
    ensures { result ≡ on_truths and_of (truth_in a.now) (truth_in b.now) }
{
    match (truth_in(a), truth_in(b)) {
        (Some(a), Some(b)) => truth(and3(a, b)),
        _ => Cell::Null,
    }
}

pub(crate) fn or(a: &Cell, b: &Cell) -> Cell
    ensures { result ≡ on_truths or_of (truth_in a.now) (truth_in b.now) }
{
    match (truth_in(a), truth_in(b)) {
        (Some(a), Some(b)) => truth(or3(a, b)),
        _ => Cell::Null,
    }
}

pub(crate) fn xor(a: &Cell, b: &Cell) -> Cell
    ensures { result ≡ on_truths xor_of (truth_in a.now) (truth_in b.now) }
{
    match (truth_in(a), truth_in(b)) {
        (Some(a), Some(b)) => truth(xor3(a, b)),
        _ => Cell::Null,
    }
}

pub(crate) fn is_null(a: &Cell) -> bool
    ensures { result ≡ is_null a.now }
{
    matches!(a, Cell::Null)
}

// Whether two operands share a kind.
fn share_a_kind(a: &Cell, b: &Cell) -> bool
    ensures { result ≡ is_some (shared_kind (kind_of a.now) (kind_of b.now)) }
{
    match (a, b) {
        (Cell::Null, _) | (_, Cell::Null) => true,
        (Cell::Bool(_), Cell::Bool(_)) => true,
        (Cell::Int(_) | Cell::Num(_), Cell::Int(_) | Cell::Num(_)) => true,
        (Cell::Text(_), Cell::Text(_)) => true,
        (Cell::Day(_), Cell::Day(_)) => true,
        (Cell::Period(_), Cell::Period(_)) => true,
        _ => false,
    }
}

// The first operand, as a value of the kind that it shares with the second.
fn beside(a: &Cell, b: &Cell, p: &Profile) -> Result<Cell, ScalarErr>
    ensures { Answers result (beside p.now a.now b.now) }
{
    match (a, b) {
        (Cell::Int(n), Cell::Num(_)) => Ok(Cell::Num(as_number(*n, p)?)),
        _ if share_a_kind(a, b) => Ok(clone_cell(a)?),
        _ => Ok(Cell::Null),
    }
}

pub(crate) fn value_or(a: &Cell, x: &Cell, p: &Profile) -> Result<Cell, ScalarErr>
    ensures { Answers result (value_or p.now a.now x.now) }
{
    if is_null(a) {
        Ok(clone_cell(x)?)
    } else {
        beside(a, x, p)
    }
}

pub(crate) fn chosen(test: &Cell, a: &Cell, b: &Cell, p: &Profile) -> Result<Cell, ScalarErr>
    ensures { Answers result (chosen_of p.now test.now a.now b.now) }
{
    match test {
        Cell::Bool(true) => beside(a, b, p),
        Cell::Bool(false) | Cell::Null => beside(b, a, p),
        _ => Ok(Cell::Null),
    }
}
