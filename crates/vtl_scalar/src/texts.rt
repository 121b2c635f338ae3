// The operators on texts.
//
// An operator that leaves a text as it is gives one more owner of it, for which `replace` searches once more.
ghost use Rattle.std.specs.Prelude.{◌≡◌, ◌≤ℤ◌, ℕ, List, false, pos, unsigned_abs, [], chars, IfOk};
ghost use Rattle.vtl_cell.specs.ScalarTexts.{on_text, joined_of, count_in, part_from, part_within, replaced_of, position_of, length_of};
ghost use Rattle.vtl_text.specs.Texts.{ltrim_of, replace_of, rtrim_of, trim_of};

use std::alloc::{AllocError, Global};
use vtl_cell::Cell;
use vtl_decimal::{Fault, Profile, whole};
use vtl_text::Txt;

// What an operator leaves of a text, as a value: one more owner of the text where that is all of it.
fn left(alloc: Global, whole: &Txt, part: &str) -> Result<Cell, AllocError>
    ensures { IfOk result (λ v. v ≡ Cell.Text (chars part.now)) }
{
    if part == whole.as_str() {
        Ok(Cell::Text(whole.share()?))
    } else {
        Ok(Cell::Text(Txt::new(alloc, part)?))
    }
}

pub(crate) fn trim(alloc: Global, a: &Cell) -> Result<Cell, AllocError>
    ensures { IfOk result (λ v. v ≡ on_text trim_of a.now) }
{
    match a {
        Cell::Text(t) => left(alloc, t, vtl_text::trim(t.as_str())),
        _ => Ok(Cell::Null),
    }
}

pub(crate) fn trim_left(alloc: Global, a: &Cell) -> Result<Cell, AllocError>
    ensures { IfOk result (λ v. v ≡ on_text ltrim_of a.now) }
{
    match a {
        Cell::Text(t) => left(alloc, t, vtl_text::ltrim(t.as_str())),
        _ => Ok(Cell::Null),
    }
}

pub(crate) fn trim_right(alloc: Global, a: &Cell) -> Result<Cell, AllocError>
    ensures { IfOk result (λ v. v ≡ on_text rtrim_of a.now) }
{
    match a {
        Cell::Text(t) => left(alloc, t, vtl_text::rtrim(t.as_str())),
        _ => Ok(Cell::Null),
    }
}

pub(crate) fn joined(alloc: Global, a: &Cell, b: &Cell) -> Result<Cell, AllocError>
    ensures { IfOk result (λ v. v ≡ joined_of a.now b.now) }
{
    match (a, b) {
        (Cell::Text(a), Cell::Text(b)) => Ok(Cell::Text(vtl_text::concat(
            alloc,
            a.as_str(),
            b.as_str(),
        )?)),
        _ => Ok(Cell::Null),
    }
}

// The greatest place and length that may be asked for.
const MOST: i64 = 1_000_000_000;

// The place or the length that an operand asks for.
fn count_in(least: i64, n: &Cell) -> Option<usize>
    requires { pos 0 ≤ℤ least }
    ensures { result ≡ count_in (unsigned_abs least) n.now }
{
    match n {
        Cell::Int(n) if least <= *n && *n <= MOST => Some(*n as usize),
        _ => None,
    }
}

pub(crate) fn part_from(alloc: Global, a: &Cell, i: &Cell) -> Result<Cell, AllocError>
    ensures { IfOk result (λ v. v ≡ part_from a.now (count_in 1 i.now)) }
{
    match (a, count_in(1, i)) {
        (Cell::Text(t), Some(start)) => {
            left(alloc, t, vtl_text::substr(t.as_str(), start, None))
        }
        _ => Ok(Cell::Null),
    }
}

pub(crate) fn part_within(alloc: Global, a: &Cell, i: &Cell, l: &Cell) -> Result<Cell, AllocError>
    ensures { IfOk result (λ v. v ≡ part_within a.now (count_in 1 i.now) (count_in 0 l.now)) }
{
    match (a, count_in(1, i), count_in(0, l)) {
        (Cell::Text(t), Some(start), Some(length)) => left(
            alloc,
            t,
            vtl_text::substr(t.as_str(), start, Some(length)),
        ),
        _ => Ok(Cell::Null),
    }
}

// Whether a pattern occurs in a text, so that something may be replaced.
#[tactic(auto, using(crate::proofs::TextLemmas::nothing_to_replace))]
fn is_replaced(t: &Txt, pattern: &Txt) -> bool
    ensures { result ≡ false → (by : List ℕ) → replace_of t.now pattern.now by ≡ t.now }
{
    vtl_text::instr(t.as_str(), pattern.as_str()) > 0
}

// The text with `by` for each occurrence of the pattern: one more owner of it where there is none.
fn replace(alloc: Global, a: &Cell, pattern: &Cell, by: &str) -> Result<Cell, AllocError>
    ensures { IfOk result (λ v. v ≡ replaced_of a.now pattern.now (Cell.Text (chars by.now))) }
{
    match (a, pattern) {
        (Cell::Text(t), Cell::Text(pattern)) if is_replaced(t, pattern) => Ok(Cell::Text(
            vtl_text::replace(alloc, t.as_str(), pattern.as_str(), by)?,
        )),
        (Cell::Text(t), Cell::Text(_)) => Ok(Cell::Text(t.share()?)),
        _ => Ok(Cell::Null),
    }
}

pub(crate) fn removed(alloc: Global, a: &Cell, pattern: &Cell) -> Result<Cell, AllocError>
    ensures { IfOk result (λ v. v ≡ replaced_of a.now pattern.now (Cell.Text [])) }
{
    replace(alloc, a, pattern, "")
}

pub(crate) fn replaced(
    alloc: Global,
    a: &Cell,
    pattern: &Cell,
    by: &Cell,
) -> Result<Cell, AllocError>
    ensures { IfOk result (λ v. v ≡ replaced_of a.now pattern.now by.now) }
{
    match by {
        Cell::Text(by) => replace(alloc, a, pattern, by.as_str()),
        _ => Ok(Cell::Null),
    }
}

pub(crate) fn position(a: &Cell, pattern: &Cell, p: &Profile) -> Result<Cell, Fault>
    ensures { result ≡ position_of p.now a.now pattern.now }
{
    match (a, pattern) {
        (Cell::Text(t), Cell::Text(pattern)) => Ok(Cell::Int(whole(
            vtl_text::instr(t.as_str(), pattern.as_str()) as i128,
            p,
        )?)),
        _ => Ok(Cell::Null),
    }
}

pub(crate) fn length(a: &Cell, p: &Profile) -> Result<Cell, Fault>
    ensures { result ≡ length_of p.now a.now }
{
    match a {
        Cell::Text(t) => Ok(Cell::Int(whole(vtl_text::length(t.as_str()) as i128, p)?)),
        _ => Ok(Cell::Null),
    }
}
