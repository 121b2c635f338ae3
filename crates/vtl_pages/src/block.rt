//! One block: places side by side that never move, each empty or holding a value. A contract sees the list of the
//! places.
ghost use Rattle.std.specs.Prelude.{◌≡◌, ◌+◌, ◌^◌, ◌<◌, ◌≤◌, [], None, Some, length, map, take, drop, get_or, slice_set, replicate, IfOk};
ghost use Rattle.vtl_pages.specs.Places.{IsFilled, IsRun, IsFilledTo, IsFree, put_all};

use crate::cells::{Cells, Claim, Start, allocate, release};
use std::alloc::{AllocError, Global};
use std::marker::Model;
use std_alloc::room::may_hold;

/// A block of the memory. It has the size of a pointer; its cells and its claim take no memory.
pub struct Block<T> {
    start: Start<T>,
    cells: Cells<T>,
    claim: Claim<T, Global>,
}

impl<T> Model for Block<T> {
    ghost use Rattle.std.specs.Prelude.{List, Option, ◌≡◌, length};
    ghost use Rattle.std.specs.Coded.{coded_list, coded_option};

    ghost Value = { List (Option T) };

    ghost coded = { coded_list (coded_option T.code) };

    ghost view = { λ b. b.cells.places };

    ghost invariant = { λ b. (b.cells.address ≡ b.start.address) × (b.claim.address ≡ b.start.address) × (b.claim.count ≡ length b.cells.places) };
}

impl<T> Block<T> {
    // A block of empty places. It fails only if memory runs out, or if no memory could hold so many.
    pub(crate) fn new(alloc: Global, count: usize) -> Result<Block<T>, AllocError>
        ensures { IfOk result (λ b. b ≡ replicate count None) }
    {
        if !may_hold::<T>(count) {
            return Err(AllocError);
        }
        let (start, cells, claim) = allocate(&alloc, count)?;
        Ok(Block {
            start,
            cells,
            claim,
        })
    }

    // Gives the block back. No place holds a value.
    pub(crate) fn release(self, alloc: Global, count: usize)
        requires { self ≡ replicate count None }
    {
        let Block {
            start,
            cells,
            claim,
        } = self;
        release(&alloc, start, count, cells, claim);
    }

    // Drops the values, which stand in the first places.
    pub(crate) fn clear(&mut self, count: usize)
    where
        T: Drop,
        requires { IsFilledTo self.old count }
        ensures { self.new ≡ replicate (length self.old) None }
    {
        for place in 0..count {
            drop(self.take(place));
        }
    }

    // Puts a value into an empty place.
    pub(crate) fn put(&mut self, place: usize, value: T)
        requires there { place < length self.old }
        requires empty { get_or self.old place None ≡ None }
        ensures { self.new ≡ slice_set self.old place (Some value) }
    {
        self.cells.put(self.start, place, value);
    }

    // Moves all values of a list into empty places side by side. The list is empty then.
    pub(crate) fn put_all(&mut self, from: usize, values: &mut Vec<T>)
        requires there { from + length values.old.items ≤ length self.old }
        requires few { from + length values.old.items < 2 ^ 64 }
        requires free { IsFree self.old from (length values.old.items) }
        ensures places { self.new ≡ put_all self.old from values.old.items }
        ensures values { values.new.items ≡ [] }
    {
        while let Some(value) = values.pop() {
            self.put(from + values.len(), value);
        }
    }

    // Moves the value out of a place, which is empty then.
    pub(crate) fn take(&mut self, place: usize) -> T
        requires { IsFilled self.old place }
        ensures value { get_or self.old place None ≡ Some result }
        ensures places { self.new ≡ slice_set self.old place None }
    {
        self.cells.take(self.start, place)
    }

    // The value in a place.
    pub(crate) fn get(&self, place: usize) -> &T
        requires { IsFilled self.now place }
        ensures { get_or self.now place None ≡ Some result.now }
    {
        self.cells.get(self.start, place)
    }

    // The values in some places side by side.
    pub(crate) fn run(&self, from: usize, count: usize) -> &[T]
        requires { IsRun self.now from count }
        ensures { take count (drop from self.now) ≡ map Some result.now }
    {
        self.cells.run(self.start, from, count)
    }
}
