// Tuples of row numbers.
//
// The number one past a table's last row is that of a missing part. The row at it has no cells, and a cell past the
// last one is null: so a missing part reads as nulls by itself (`part`), and tuples stay plain numbers.
ghost use Rattle.std.specs.Prelude.{◌≡◌, ◌<◌, ◌≤◌, ◌+◌, ◌^◌, ◌++◌, [], ◌∷◌, length, take, drop, slice_index_or, IfOk, OnOk, OnErr};
ghost use Rattle.std.specs.List.{AllByRecursion};
ghost use Rattle.vtl_rows.specs.Gathered.{pieces};
ghost use Rattle.sql_from.specs.Joins.{singles};

use std::alloc::{AllocError, Global};
use std::marker::Model;

/// Tuples of one width, which hold a row number for each source. A contract sees the width and the list of the tuples.
pub struct Tuples {
    width: usize,
    numbers: Vec<usize>,
    count: usize,
}

// Written out, so that a proof above sees one call and not the drop of each part.
impl Drop for Tuples {
    fn drop(self) {
        let Tuples {
            width: _,
            numbers: _numbers,
            count: _,
        } = self;
    }
}

impl Model for Tuples {
    ghost use Rattle.vtl_rows.specs.Gathered.{pieces};
    ghost use Rattle.sql_from.specs.Tuples.{IsFlat, Numbered};

    ghost Value = { Numbered };

    ghost view = { λ t. record { width = t.width; tuples = pieces t.width t.numbers.items } };

    ghost invariant = { λ t. IsFlat t.width t.count t.numbers.items };
}

impl Tuples {
    /// No tuples, of this many numbers each.
    pub fn new(alloc: Global, width: usize) -> Tuples
        requires { 0 < width }
        ensures width { result.width ≡ width }
        ensures tuples { result.tuples ≡ [] }
    {
        Tuples {
            width,
            numbers: Vec::new(alloc),
            count: 0,
        }
    }

    /// No tuples, of this many numbers each, with room for so many. It fails only if memory runs out.
    pub fn with_room(alloc: Global, width: usize, tuples: usize) -> Result<Tuples, AllocError>
        requires { 0 < width }
        ensures width { IfOk result (λ t. t.width ≡ width) }
        ensures tuples { IfOk result (λ t. t.tuples ≡ []) }
    {
        Ok(Tuples {
            width,
            numbers: Vec::with_capacity(alloc, tuples.saturating_mul(width))?,
            count: 0,
        })
    }

    /// Each number below a count alone. It fails only if memory runs out.
    pub fn singles(alloc: Global, count: usize) -> Result<Tuples, AllocError>
        ensures width { IfOk result (λ t. t.width ≡ 1) }
        ensures tuples { IfOk result (λ t. t.tuples ≡ singles count) }
    {
        let mut numbers = Vec::with_capacity(alloc, count)?;
        for number in 0..count {
            numbers.push(number)?;
        }
        Ok(Tuples {
            width: 1,
            numbers,
            count,
        })
    }

    /// How many numbers a tuple has.
    pub fn width(&self) -> usize
        ensures width { result ≡ self.now.width }
        ensures some { 0 < result }
    {
        self.width
    }

    /// How many tuples there are.
    pub fn len(&self) -> usize
        ensures tuples { result ≡ length self.now.tuples }
        ensures few { length self.now.tuples < 2 ^ 63 }
    {
        self.count
    }

    /// The tuple at a place.
    pub fn tuple(&self, i: usize) -> &[usize]
        requires { i < length self.now.tuples }
        ensures tuple { result.now ≡ slice_index_or self.now.tuples i result.now }
        ensures width { length result.now ≡ self.now.width }
        ensures some { 0 < self.now.width }
    {
        part(self.numbers.as_slice(), i * self.width, self.width)
    }

    /// The numbers of all tuples, one tuple after the other.
    pub fn numbers(&self) -> &[usize]
        ensures numbers { pieces self.now.width result.now ≡ self.now.tuples }
        ensures wide { AllByRecursion (λ x. length x ≡ self.now.width) self.now.tuples }
        ensures some { 0 < self.now.width }
    {
        self.numbers.as_slice()
    }

    /// Puts a tuple behind the others, whose last number is given apart. It fails only if memory runs out, and then
    /// leaves the tuples as they were.
    pub fn push(&mut self, front: &[usize], last: usize) -> Result<(), AllocError>
        requires { length front.now + 1 ≡ self.old.width }
        ensures width { self.new.width ≡ self.old.width }
        ensures tuples { OnOk result (self.new.tuples ≡ self.old.tuples ++ (front.now ++ last ∷ []) ∷ []) }
        ensures err { OnErr result (self.new.tuples ≡ self.old.tuples) }
    {
        self.numbers.try_reserve(front.len() + 1)?;
        self.numbers.extend_from_slice(front)?;
        self.numbers.push(last)?;
        self.count += 1;
        Ok(())
    }
}

// The numbers from a place on.
fn part(numbers: &[usize], start: usize, count: usize) -> &[usize]
    requires { start + count ≤ length numbers.now }
    ensures { result.now ≡ take count (drop start numbers.now) }
{
    &numbers[start..start + count]
}
