// Combinations of row numbers, one of each operand.
ghost use Rattle.std.specs.Prelude.{◌≡◌, ◌++◌, IfOk, OnOk};
ghost use Rattle.vtl_join.specs.Crossing.{all_combinations, combined, row_counts};
ghost use Rattle.vtl_join.specs.Joining.{sets_of};

use crate::joined::{Joined, Operand};
use std::alloc::{AllocError, Global};

// How many rows each operand has.
fn counts(alloc: Global, operands: &[Operand]) -> Result<Vec<usize>, AllocError>
    ensures { IfOk result (λ v. v.items ≡ row_counts (sets_of operands.now)) }
{
    let mut counts = Vec::with_capacity(alloc, operands.len())?;
    for operand in operands {
        counts.push(operand.set.table().len())?;
    }
    Ok(counts)
}

impl Joined {
    /// How many rows each operand has. It fails only if memory runs out.
    pub fn counts(&self, alloc: Global) -> Result<Vec<usize>, AllocError>
        ensures { IfOk result (λ v. v.items ≡ row_counts (sets_of self.now.operands)) }
    {
        counts(alloc, &self.operands)
    }
}

// Adds every combination of numbers below these counts, each behind what stands in front of it; the first numbers are
// the slowest. It leaves the front as it was.
fn push_combined(
    tuples: &mut Vec<usize>,
    front: &mut Vec<usize>,
    counts: &[usize],
) -> Result<(), AllocError>
    ensures tuples { OnOk result (tuples.new.items ≡ tuples.old.items ++ combined front.old.items counts.now) }
    ensures front { OnOk result (front.new.items ≡ front.old.items) }
{
    let Some((count, rest)) = counts.split_first() else {
        return tuples.extend_from_slice(front);
    };
    let width = front.len();
    for i in 0..*count {
        front.push(i)?;
        push_combined(tuples, front, rest)?;
        front.truncate(width);
    }
    Ok(())
}

// How many numbers all combinations take, or the largest number where they are more: a request that memory refuses.
fn room(counts: &[usize]) -> usize {
    let mut room = counts.len().saturating_add(1);
    for count in counts {
        room = room.saturating_mul(*count);
    }
    room
}

// Every combination of a row of each operand, behind a number of the lead, which nothing asks for. Where an operand has
// no rows there is none, and no step is taken. All room is asked for at once, so a product that memory does not hold is
// refused before a step is taken.
pub(crate) fn combinations(alloc: Global, operands: &[Operand]) -> Result<Vec<usize>, AllocError>
    ensures { IfOk result (λ v. v.items ≡ all_combinations (sets_of operands.now)) }
{
    let counts = counts(alloc, operands)?;
    if counts.contains(&0) {
        return Ok(Vec::new(alloc));
    }
    let mut tuples = Vec::with_capacity(alloc, room(&counts))?;
    let mut front = Vec::with_capacity(alloc, operands.len().saturating_add(1))?;
    front.push(0)?;
    push_combined(&mut tuples, &mut front, &counts)?;
    Ok(tuples)
}
