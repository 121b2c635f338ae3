// Tuples of row numbers: that of a row of the lead, and those of the rows that it finds.
ghost use Rattle.std.specs.List.{range_with_len};
ghost use Rattle.std.specs.Prelude.{◌≡◌, ◌<◌, ◌++◌, length, All, IfOk, IfSome, OnOk};
ghost use Rattle.vtl_join.specs.Crossing.{up_to};
ghost use Rattle.vtl_join.specs.Finding.{all_numbers, listed_numbers};

use crate::found_rows::{FoundRows, all_found, is_within, number};
use std::alloc::{AllocError, Global};
use std::sync::ledger::Ledger;
use vtl_index::{Seeker, Steps};
use vtl_rows::Table;

// The numbers of so many rows.
pub(crate) fn up_to(alloc: Global, count: usize) -> Result<Vec<usize>, AllocError>
    ensures { IfOk result (λ v. v.items ≡ up_to count) }
{
    let mut numbers = Vec::with_capacity(alloc, count)?;
    for i in 0..count {
        numbers.push(i)?;
    }
    Ok(numbers)
}

// Adds the tuple of a row of the lead, unless each part is wanted and one is missing.
fn push_tuple(
    tuples: &mut Vec<usize>,
    whole: bool,
    found: &[Option<FoundRows>],
    i: usize,
) -> Result<(), AllocError>
    requires { All (λ f. IfSome f (λ rows. i < length rows.numbers)) found.now }
    ensures { OnOk result (tuples.new.items ≡ tuples.old.items ++ listed_numbers whole found.now i) }
{
    let before = tuples.len();
    tuples.push(i)?;
    for rows in found {
        let place = number(rows, i);
        if whole && !is_within(rows, place) {
            tuples.truncate(before);
            return Ok(());
        }
        tuples.push(place)?;
    }
    Ok(())
}

// The tuples of all rows of the lead, one after the other, in one block. What is found is listed for one operand after
// the other, since a look-up that is asked for many rows at once does not wait for memory at each of them.
pub(crate) fn all_tuples<L: Ledger>(
    alloc: Global,
    whole: bool,
    sources: &[Option<Seeker<'_>>],
    lead: &Table,
    steps: &mut Steps<L>,
) -> Result<Vec<usize>, AllocError>
    ensures { IfOk result (λ v. v.items ≡ all_numbers whole sources.now lead.now.rows (range_with_len 0 (length lead.now.rows))) }
{
    let found = all_found(alloc, sources, lead, steps)?;
    let width = sources.len().saturating_add(1);
    let mut tuples = Vec::with_capacity(alloc, lead.len().saturating_mul(width))?;
    for i in 0..lead.len() {
        push_tuple(&mut tuples, whole, &found, i)?;
    }
    Ok(tuples)
}
