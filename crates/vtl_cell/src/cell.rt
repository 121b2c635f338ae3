// A value, its order and its copies.
ghost use Rattle.std.specs.Prelude.{◌≡◌, ℕ, IfOk, List, true};
ghost use Rattle.std.specs.Cmp.{IsTotalOrder};
ghost use Rattle.vtl_lists.specs.Sorting.{IsOrder, le_by};
ghost use Rattle.vtl_cell.specs.Held.{IsHeld};
ghost use Rattle.vtl_cell.specs.Order.{cell_cmp, same_cell};
ghost use Rattle.vtl_cell.specs.Row.{row_cmp};
ghost use Rattle.vtl_cell.specs.Sorted.{Key, by_keys, window_cmp};

use std::alloc::AllocError;
use std::cmp::Ordering;
use std::hash::Hash;
use vtl_decimal::Dec;
use vtl_text::Txt;
use vtl_time::{Day, Period};

/// A value of a point: null, or a value of one of the kinds.
///
/// Its order has null first, then false before true, integers and numbers by value, texts by their characters, days by
/// time, and periods by frequency, year and part. Values of two kinds are ordered as the kinds are, so that equal cells
/// are always of one kind: the integer 1 and the number 1 are two cells.
#[derive(Debug, PartialEq, Eq, PartialOrd, Ord, Hash, Drop)]
pub enum Cell {
    /// No value.
    Null,
    /// A value of [`Kind::Bool`](crate::Kind).
    Bool(bool),
    /// A value of [`Kind::Int`](crate::Kind).
    Int(i64),
    /// A value of [`Kind::Num`](crate::Kind).
    Num(Dec),
    /// A value of [`Kind::Text`](crate::Kind).
    Text(Txt),
    /// A value of [`Kind::Day`](crate::Kind).
    Day(Day),
    /// A value of [`Kind::Period`](crate::Kind).
    Period(Period),
}

// Most of the memory that is taken is rows of cells.
const _: () = prove!(size_of::<Cell>() <= 32);

/// An equal cell, which shares its text. It fails only if memory runs out.
pub fn clone_cell(c: &Cell) -> Result<Cell, AllocError>
    ensures { IfOk result (λ copy. copy ≡ c.now) }
{
    Ok(match c {
        Cell::Null => Cell::Null,
        Cell::Bool(b) => Cell::Bool(*b),
        Cell::Int(n) => Cell::Int(*n),
        Cell::Num(n) => Cell::Num(*n),
        Cell::Text(t) => Cell::Text(t.share()?),
        Cell::Day(d) => Cell::Day(*d),
        Cell::Period(p) => Cell::Period(*p),
    })
}

/// Whether the cells are equal, null being equal to null.
pub fn is_same(a: &Cell, b: &Cell) -> bool
    ensures { result ≡ same_cell a.now b.now }
{
    compare(a, b).is_eq()
}

/// The order of two cells.
pub fn compare(a: &Cell, b: &Cell) -> Ordering
    ensures { result ≡ cell_cmp a.now b.now }
{
    a.cmp(b)
}

/// The order of cells and of rows is total, ties are equal, and equality is equality. The order by listed keys is
/// total, and rows may tie; with whole rows last they do not.
pub fn order_is_lawful()
    ensures cells { IsTotalOrder cell_cmp }
    ensures ties { (a b : Cell) → cell_cmp a b ≡ Ordering.Equal → a ≡ b }
    ensures equal { (a b : Cell) → same_cell a b ≡ true → a ≡ b }
    ensures reflexive { (a : Cell) → same_cell a a ≡ true }
    ensures rows { IsOrder (le_by row_cmp) }
    ensures keys { (listed : List Key) → IsTotalOrder (by_keys listed) }
    ensures windows { (listed : List Key) (places : List ℕ) → IsOrder (le_by (window_cmp listed places)) }
{}

/// Cells that feed a hasher alike are equal, so the integer 1 and the number 1 do not feed it alike.
pub fn hashes_tell_apart()
    ensures { (a b : Cell) → IsHeld a → IsHeld b → ⟦<Cell as Hash>⟧.hash_input a ≡ ⟦<Cell as Hash>⟧.hash_input b → a ≡ b }
{}
