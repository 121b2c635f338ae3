// The rows of one key.
ghost use Rattle.std.specs.Prelude.{◌≡◌, [], ◌∷◌, ◌++◌, IfOk, OnOk, OnErr};

use std::alloc::{AllocError, Global};
use std::marker::Model;
use std::slice;

// Numbers of rows, where a single one takes no memory of its own.
#[derive(Drop)]
pub(crate) enum Numbers {
    One(usize),
    Many(Vec<usize>),
}

// Numbers of rows. A contract sees the list.
#[derive(Drop)]
pub(crate) struct RowNumbers {
    numbers: Numbers,
}

impl Model for RowNumbers {
    ghost use Rattle.std.specs.Prelude.{ℕ, List};

    ghost Value = { List ℕ };

    ghost use Rattle.vtl_index.specs.Numbers.{listed};

    ghost view = { λ r. listed r.numbers };
}

// Two numbers.
fn pair(alloc: Global, first: usize, second: usize) -> Result<Vec<usize>, AllocError>
    ensures { IfOk result (λ v. v.items ≡ first ∷ second ∷ []) }
{
    let mut pair = Vec::with_capacity(alloc, 2)?;
    pair.push(first)?;
    pair.push(second)?;
    Ok(pair)
}

impl RowNumbers {
    // One number.
    pub(crate) fn of(row: usize) -> RowNumbers
        ensures { result ≡ row ∷ [] }
    {
        let numbers = Numbers::One(row);
        RowNumbers { numbers }
    }

    // Puts a number after the others.
    pub(crate) fn push(&mut self, alloc: Global, row: usize) -> Result<(), AllocError>
        ensures ok { OnOk result (self.new ≡ self.old ++ row ∷ []) }
        ensures err { OnErr result (self.new ≡ self.old) }
    {
        match &mut self.numbers {
            Numbers::One(first) => {
                let pair = pair(alloc, *first, row)?;
                self.numbers = Numbers::Many(pair);
                Ok(())
            }
            Numbers::Many(numbers) => {
                numbers.push(row)?;
                Ok(())
            }
        }
    }

    // The numbers.
    pub(crate) fn as_slice(&self) -> &[usize]
        ensures { result.now ≡ self.now }
    {
        match &self.numbers {
            Numbers::One(row) => slice::from_ref(row),
            Numbers::Many(numbers) => numbers.as_slice(),
        }
    }
}
