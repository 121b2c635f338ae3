//! Pages: a list in blocks. A contract sees the list of the items, for how many more there is room, and the width of a
//! run.
ghost use Rattle.std.specs.Prelude.{◌≡◌, ◌+◌, ◌-◌, ◌*◌, ◌%◌, ◌^◌, ◌<◌, ◌≤◌, ◌++◌, ◌==◌, [], ◌∷◌, length, take, drop, slice_index_or, IfErr, OnOk, OnErr};
ghost use Rattle.std.specs.List.{swap};
ghost use Rattle.vtl_pages.specs.Paged.{paged};

use crate::block::Block;
use crate::leaving::Leaving;
use crate::store::Store;
use std::alloc::{AllocError, Global};
use std::marker::Model;

/// A list that never moves its items while it grows. Items that stand from a multiple of the width on, as many as the
/// width says, are a run, and lie side by side.
pub struct Pages<T> {
    pub(crate) store: Store<T>,
    pub(crate) len: usize,
    pub(crate) room: usize,
    pub(crate) width: usize,
    pub(crate) front: usize,
    pub(crate) runs: usize,
    pub(crate) shift: u32,
    pub(crate) alloc: Global,
}

impl<T> Model for Pages<T> {
    ghost use Rattle.std.specs.Prelude.{◌-◌};
    ghost use Rattle.vtl_pages.specs.Paged.{Paged, paged, paged_code};
    ghost use Rattle.vtl_pages.specs.Laid.{IsLaid, HasRuns};
    ghost use Rattle.vtl_pages.specs.Places.{values};

    ghost Value = { Paged T };

    ghost coded = { paged_code T.code };

    ghost view = { λ p. paged (values p.store.places) (p.room - p.len) p.width };

    ghost invariant = { λ p. IsLaid p.store.places p.len p.room × HasRuns p.store p.room p.width p.front p.runs p.shift };
}

// A block has about this many places, and those of one run at least.
const PLACES: usize = 2048;

// The first block has this many runs, so that few items take little memory.
const FRONT_RUNS: usize = 16;

// No more places than the largest `isize`.
const MOST_PLACES: usize = 0x7fff_ffff_ffff_ffff;

// The sizes of the blocks: the runs of the first, and of each other, which are 2 ^ shift.
#[derive(Clone, Copy)]
struct Sizes {
    front: usize,
    runs: usize,
    shift: u32,
}

// The sizes for runs of a width.
fn sizes_for(width: usize) -> Sizes
    requires { 0 < width }
    ensures bits { result.shift < 64 }
    ensures power { result.runs ≡ 2 ^ result.shift }
    ensures front { 0 < result.front * width }
    ensures front_fits { result.front * width < 2 ^ 64 }
    ensures some { 0 < result.runs * width }
    ensures fits { result.runs * width < 2 ^ 64 }
{
    if width > PLACES {
        return Sizes {
            front: 1,
            runs: 1,
            shift: 0,
        };
    }
    let shift = (PLACES / width).ilog2();
    Sizes {
        front: FRONT_RUNS,
        runs: 1usize << shift,
        shift,
    }
}

impl<T> Pages<T> {
    /// Pages of no items, whose runs have a width. They take no memory.
    pub fn new(alloc: Global, width: usize) -> Pages<T>
        requires { 0 < width }
        ensures { result ≡ paged [] 0 width }
    {
        let sizes = sizes_for(width);
        Pages {
            store: Store::new(alloc, sizes.front * width, sizes.runs * width),
            len: 0,
            room: 0,
            width,
            front: sizes.front,
            runs: sizes.runs,
            shift: sizes.shift,
            alloc,
        }
    }

    // Another block behind the others. It fails only if memory runs out.
    fn grow(&mut self) -> Result<(), AllocError>
        ensures items { self.new.items ≡ self.old.items }
        ensures width { self.new.width ≡ self.old.width }
        ensures ok { OnOk result (self.old.spare < self.new.spare) }
        ensures err { OnErr result (self.new ≡ self.old) }
    {
        let more = self.store.next_size();
        if MOST_PLACES - self.room < more {
            return Err(AllocError);
        }
        self.store.grow(self.alloc)?;
        self.room += more;
        Ok(())
    }

    /// For how many more items there is room.
    pub fn spare(&self) -> usize
        ensures { result ≡ self.now.spare }
    {
        self.room - self.len
    }

    /// The number of items.
    pub fn len(&self) -> usize
        ensures items { result ≡ length self.now.items }
        ensures few { length self.now.items < 2 ^ 63 }
    {
        self.len
    }

    /// Whether there are no items.
    pub fn is_empty(&self) -> bool
        ensures { result ≡ (length self.now.items == 0) }
    {
        self.len == 0
    }

    /// How many items a run has.
    pub fn width(&self) -> usize
        ensures { result ≡ self.now.width }
    {
        self.width
    }

    /// Makes room for this many more items. The items are as they were in either case, and lie where they lay.
    ///
    /// It fails only if memory runs out, and at once if no memory could hold them.
    pub fn reserve(&mut self, n: usize) -> Result<(), AllocError>
        ensures items { self.new.items ≡ self.old.items }
        ensures width { self.new.width ≡ self.old.width }
        ensures spare { self.old.spare ≤ self.new.spare }
        ensures ok { OnOk result (n ≤ self.new.spare) }
    {
        if self.spare() < n {
            could_hold::<T>(self.alloc, n - self.spare())?;
        }
        while self.spare() < n {
            self.grow()?;
        }
        Ok(())
    }

    /// Puts an item behind the others, where there is room. It takes no memory.
    pub fn push(&mut self, value: T)
        requires { 0 < self.old.spare }
        ensures { self.new ≡ paged (self.old.items ++ value ∷ []) (self.old.spare - 1) self.old.width }
    {
        self.store.put_at(self.len, value);
        self.len += 1;
    }

    /// Puts an item behind the others. It hands the item back if memory runs out, and all is as it was.
    pub fn try_push(&mut self, value: T) -> Result<(), T>
        ensures width { self.new.width ≡ self.old.width }
        ensures ok { OnOk result (self.new.items ≡ self.old.items ++ value ∷ []) }
        ensures spare { OnOk result (self.old.spare ≤ self.new.spare + 1) }
        ensures err { IfErr result (λ x. (x ≡ value) × (self.new ≡ self.old)) }
    {
        if self.spare() == 0 {
            match self.grow() {
                Ok(()) => {}
                Err(_error) => return Err(value),
            }
        }
        self.push(value);
        Ok(())
    }

    /// The item of this number.
    pub fn get(&self, i: usize) -> &T
        requires { i < length self.now.items }
        ensures { result.now ≡ slice_index_or self.now.items i result.now }
    {
        self.store.get_at(i)
    }

    /// Some items side by side, within one run.
    pub fn slice(&self, i: usize, n: usize) -> &[T]
        requires there { i + n ≤ length self.now.items }
        requires one_run { i % self.now.width + n ≤ self.now.width }
        ensures { result.now ≡ take n (drop i self.now.items) }
    {
        if n == 0 {
            return &[];
        }
        self.store.run_at(i, n)
    }

    /// Each of two items comes to the place of the other.
    pub fn swap(&mut self, i: usize, j: usize)
        requires i_there { i < length self.old.items }
        requires j_there { j < length self.old.items }
        ensures { self.new ≡ paged (swap self.old.items i j) self.old.spare self.old.width }
    {
        if i == j {
            return;
        }
        let one = self.store.find(i);
        let other = self.store.find(j);
        self.store.swap(one, other);
    }

    // The items, which leave from the first one on.
    pub(crate) fn into_leaving(self) -> Leaving<T>
        ensures { result ≡ self.items }
    {
        let Pages {
            store,
            len,
            room: _,
            width: _,
            front: _,
            runs: _,
            shift: _,
            alloc,
        } = self;
        store.into_leaving(alloc, len)
    }
}

// Fails at once if no memory could hold this many values. What it takes it gives back.
fn could_hold<T>(alloc: Global, n: usize) -> Result<(), AllocError> {
    let block = Block::<T>::new(alloc, n)?;
    block.release(alloc, n);
    Ok(())
}

// Each value is dropped once, and each block given back once.
impl<T: Drop> Drop for Pages<T> {
    fn drop(self) {
        let Pages {
            store,
            len,
            room,
            width: _,
            front: _,
            runs: _,
            shift: _,
            alloc,
        } = self;
        store.destroy(alloc, len, room);
    }
}
