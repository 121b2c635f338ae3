//! Values that leave their blocks, the first one first. A contract sees the list of those that are left.
ghost use Rattle.std.specs.Prelude.{◌≡◌, ◌<◌, ◌==◌, [], ◌∷◌, length};
ghost use Rattle.vtl_pages.specs.Laid.{IsLaid};
ghost use Rattle.vtl_pages.specs.Joined.{joined, HaveSizes};
ghost use Rattle.vtl_pages.specs.Places.{values};
ghost use Rattle.vtl_pages.specs.Stored.{block_size};

use crate::block::Block;
use std::alloc::Global;
use std::marker::Model;

/// Blocks whose values leave. A block is given back once its last place is empty.
pub struct Leaving<T> {
    // The first block is the last one here.
    blocks: Vec<Block<T>>,
    // How many places the first block has, and each other one.
    size: usize,
    step: usize,
    // How many values have left the first block, and how many are left in all blocks.
    gone: usize,
    left: usize,
    alloc: Global,
}

impl<T> Model for Leaving<T> {
    ghost use Rattle.std.specs.Prelude.{List, reverse};
    ghost use Rattle.std.specs.Coded.{coded_list};
    ghost use Rattle.vtl_pages.specs.Left.{IsLeaving};
    ghost use Rattle.vtl_pages.specs.Places.{values};
    ghost use Rattle.vtl_pages.specs.Joined.{joined};

    ghost Value = { List T };

    ghost coded = { coded_list T.code };

    ghost view = { λ s. values (joined (reverse s.blocks.items)) };

    ghost invariant = { λ s. IsLeaving (reverse s.blocks.items) s.size s.step s.gone s.left };
}

impl<T> Leaving<T> {
    // The values in front in some blocks.
    pub(crate) fn new(
        alloc: Global,
        blocks: Vec<Block<T>>,
        first: usize,
        step: usize,
        count: usize,
    ) -> Leaving<T>
        requires first { 0 < first }
        requires step { 0 < step }
        requires sized { HaveSizes (block_size first step) blocks.items }
        requires laid { IsLaid (joined blocks.items) count (length (joined blocks.items)) }
        ensures { result ≡ values (joined blocks.items) }
    {
        let mut blocks = blocks;
        blocks.reverse();
        Leaving {
            blocks,
            size: first,
            step,
            gone: 0,
            left: count,
            alloc,
        }
    }

    // Whether none is left.
    fn is_empty(&self) -> bool
        ensures { result ≡ (length self.now == 0) }
    {
        self.left == 0
    }

    // The first value.
    pub(crate) fn next(&mut self) -> T
        requires { 0 < length self.old }
        ensures { self.old ≡ result ∷ self.new }
    {
        match self.blocks.pop() {
            Some(block) => {
                let mut block = block;
                let value = block.take(self.gone);
                self.gone += 1;
                self.left -= 1;
                if self.gone < self.size {
                    self.blocks.push_reserved(block);
                    return value;
                }
                block.release(self.alloc, self.size);
                self.gone = 0;
                self.size = self.step;
                value
            }
            None => unreachable!(),
        }
    }

    // Gives the blocks back. No value is left.
    fn release(self)
        requires { self ≡ [] }
    {
        let Leaving {
            blocks,
            size,
            step,
            gone: _,
            left: _,
            alloc,
        } = self;
        let mut blocks = blocks;
        let mut count = size;
        while let Some(block) = blocks.pop() {
            block.release(alloc, count);
            count = step;
        }
        blocks.destroy_empty();
    }
}

// Each value that is left is dropped once, and each block given back once.
impl<T: Drop> Drop for Leaving<T> {
    fn drop(self) {
        let mut values = self;
        while !values.is_empty() {
            drop(values.next());
        }
        values.release();
    }
}
