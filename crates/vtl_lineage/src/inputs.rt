// The data sets that a script reads: their components numbered, and what they depend on.
ghost use Rattle.std.specs.Prelude.{◌≡◌, ◌+◌, ◌<◌, ◌^◌, ◌++◌, ◌∷◌, [], IfOk, OnOk};
ghost use Rattle.vtl_sources.specs.Links.{pairs_of_set};
ghost use Rattle.vtl_lineage.specs.Numbers.{each_alone, input_numbers, run};
ghost use Rattle.vtl_lineage.specs.Shown.{lent_pairs};

use crate::operand::Found;
use std::alloc::{AllocError, Global};
use vtl_text::{Shared, Txt};
use vtl_tree::Structure;

/// A data set that is read, and one of its components.
pub type Pair<'a> = (&'a Txt, &'a Txt);

// So many numbers from one on.
#[tactic(auto, using(crate::proofs::ByPlace::run_next, crate::proofs::ByPlace::run_ends))]
fn run(alloc: Global, first: usize, count: usize) -> Result<Shared<usize>, AllocError>
    requires { first + count < 2 ^ 64 }
    ensures { IfOk result (λ s. s ≡ run first count) }
{
    let mut numbers = Vec::with_capacity(alloc, count)?;
    for i in 0..count {
        numbers.push(first + i)?;
    }
    Shared::of(numbers)
}

// The same, each in a set of its own.
#[tactic(auto, using(crate::proofs::ByPlace::run_next, crate::proofs::ByPlace::run_ends))]
fn run_alone(alloc: Global, first: usize, count: usize) -> Result<Vec<Shared<usize>>, AllocError>
    requires { first + count < 2 ^ 64 }
    ensures { IfOk result (λ v. v.items ≡ each_alone (run first count)) }
{
    let mut sets = Vec::with_capacity(alloc, count)?;
    for i in 0..count {
        sets.push(run_of_one(alloc, first + i)?)?;
    }
    Ok(sets)
}

fn run_of_one(alloc: Global, number: usize) -> Result<Shared<usize>, AllocError>
    ensures { IfOk result (λ s. s ≡ number ∷ []) }
{
    let mut numbers = Vec::with_capacity(alloc, 1)?;
    numbers.push(number)?;
    Shared::of(numbers)
}

/// What a data set depends on that is read, where its first component has this number.
#[tactic(auto, using(crate::proofs::ByPlace::columns_parts))]
pub fn input(alloc: Global, first: usize, s: &Structure) -> Result<Found, AllocError>
    requires { first < 2 ^ 63 }
    ensures { IfOk result (λ f. f ≡ input_numbers first s.now) }
{
    let columns = s.columns(alloc)?;
    let width = s.key_width();
    let points = run(alloc, first, width)?;
    let others = run_alone(alloc, first + width, columns.len() - width)?;
    Ok(Found::of(points, others))
}

/// Puts the components of a data set behind other pairs.
pub fn push_pairs<'a>(
    alloc: Global,
    pairs: &mut Vec<Pair<'a>>,
    name: &'a Txt,
    s: &'a Structure,
) -> Result<(), AllocError>
    ensures { OnOk result (lent_pairs pairs.new.items ≡ lent_pairs pairs.old.items ++ pairs_of_set name.now s.now) }
{
    let columns = s.columns(alloc)?;
    for column in &columns {
        pairs.push((name, &column.name))?;
    }
    Ok(())
}
