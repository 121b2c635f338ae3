// The keys that were added, in one list of cells, and their hashes.
ghost use Rattle.std.specs.Prelude.{◌≡◌, ◌<◌, ◌≤◌, ◌+◌, ◌*◌, length, take, drop, IfOk};
ghost use Rattle.vtl_index.specs.Keys.{key_at, key_hash, is_at};

use std::alloc::{AllocError, Global};
use std::hash::{FoldHasher, Hash, Hasher};
use vtl_cell::{Cell, clone_cell, is_same_row};

// Keys of one width.
#[derive(Clone, Copy)]
pub(crate) struct Keys<'a> {
    pub(crate) cells: &'a [Cell],
    pub(crate) width: usize,
    pub(crate) count: usize,
}

impl Keys<'_> {
    // Whether the key at a place is this one.
    pub(crate) fn has(&self, place: usize, key: &[Cell]) -> bool
        requires { length self.now.cells.now ≡ self.now.count * self.now.width }
        ensures { result ≡ is_at self.now.cells.now self.now.width self.now.count key.now place }
    {
        place < self.count && is_same_row(self.at(place), key)
    }

    // The key at a place.
    pub(crate) fn at(&self, place: usize) -> &[Cell]
        requires whole { length self.now.cells.now ≡ self.now.count * self.now.width }
        requires within { place < self.now.count }
        ensures { result.now ≡ key_at self.now.cells.now self.now.width place }
    {
        part(self.cells, place * self.width, self.width)
    }
}

// The cells from a place on.
fn part(cells: &[Cell], start: usize, count: usize) -> &[Cell]
    requires { start + count ≤ length cells.now }
    ensures { result.now ≡ take count (drop start cells.now) }
{
    &cells[start..start + count]
}

// The hash of a key. Its seed is fixed, so nothing but time may depend on it, and not much of that.
pub(crate) fn hash_of(key: &[Cell]) -> u64
    ensures { result ≡ key_hash key.now }
{
    let mut state = FoldHasher::default();
    key.hash(&mut state);
    state.finish()
}

// Equal cells, which share their texts.
pub(crate) fn copied(alloc: Global, key: &[Cell]) -> Result<Vec<Cell>, AllocError>
    ensures { IfOk result (λ copy. copy.items ≡ key.now) }
{
    let mut copy = Vec::with_capacity(alloc, key.len())?;
    for cell in key {
        copy.push(clone_cell(cell)?)?;
    }
    Ok(copy)
}
