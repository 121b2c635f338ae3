// The index.
//
// A contract sees an `Index` as a function from a key to its rows: the order in which different keys came is not
// kept. A function cannot be the value of a model, so `Index` has none, and `rows_by` reads a ghost field.
ghost use Rattle.std.specs.Prelude.{◌≡◌, ℕ, ◌+◌, ◌<◌, List, [], ◌∷◌, ◌++◌, length, OnOk, OnErr};
ghost use Rattle.vtl_cell.specs.Row.{Row};
ghost use Rattle.vtl_index.specs.Entries.{IsIndexed};
ghost use Rattle.vtl_index.specs.Lookup.{rows_of, with_row};

use crate::Steps;
use crate::entries::Entries;
use std::alloc::{AllocError, Global};
use std::sync::ledger::Ledger;
use vtl_cell::Cell;

/// A look-up from keys, which are rows of one width, to numbers of rows. A contract sees the width of the keys by
/// `width_of`, and the rows of each key by `rows_by`.
#[derive(Drop)]
pub struct Index {
    entries: Entries,
    ghost indexed: { IsIndexed entries },
}

impl Index {
    ghost use Rattle.vtl_index.specs.Index.{rows_by, width_of};

    /// No rows, for keys of this many cells.
    pub fn new(alloc: Global, width: usize) -> Index
        ensures width { width_of result ≡ width }
        ensures rows { rows_by result ≡ rows_of [] }
    {
        Index {
            entries: Entries::new(alloc, width),
        }
    }

    /// Adds a row after the others of its key. It fails only if memory runs out, and then leaves the index as it was.
    pub fn add<L: Ledger>(
        &mut self,
        key: &[Cell],
        row: usize,
        steps: &mut Steps<L>,
    ) -> Result<(), AllocError>
        requires { length key.now ≡ width_of self.old }
        ensures width { width_of self.new ≡ width_of self.old }
        ensures rows { OnOk result (rows_by self.new ≡ with_row key.now row (rows_by self.old)) }
        ensures err { OnErr result (rows_by self.new ≡ rows_by self.old) }
        ensures steps { steps.new ≡ steps.old + 1 }
    {
        steps.tick();
        self.entries.add(key, row)
    }

    /// The rows that were added with a key, in the order of adding.
    pub fn probe<L: Ledger>(&self, key: &[Cell], steps: &mut Steps<L>) -> &[usize]
        requires { length key.now ≡ width_of self.now }
        ensures rows { result.now ≡ rows_by self.now key.now }
        ensures steps { steps.new ≡ steps.old + 1 }
    {
        steps.tick();
        self.entries.rows_of(key)
    }
}

/// With one more row, the rows of each key are those that were added with it.
pub fn rows_are_those_added()
    ensures { (added : List (Row × ℕ)) (key : Row) (row : ℕ) → with_row key row (rows_of added) ≡ rows_of (added ++ (key, row) ∷ []) }
{}
