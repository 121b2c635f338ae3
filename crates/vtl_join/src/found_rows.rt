// What all rows of a lead find in the operands.
ghost use Rattle.std.specs.Prelude.{◌≡◌, ◌<◌, length, map, IfOk, IfSome};
ghost use Rattle.vtl_join.specs.Finding.{found_by, is_within, listed_number};

use std::alloc::{AllocError, Global};
use std::marker::Model;
use std::sync::ledger::Ledger;
use vtl_index::{Seeker, Steps};
use vtl_rows::Table;

// The numbers of the rows of an operand that rows of a lead find, one after the other, or how many rows there are.
#[derive(Drop)]
pub(crate) struct FoundRows {
    numbers: Vec<usize>,
    count: usize,
}

impl Model for FoundRows {
    ghost use Rattle.vtl_join.specs.Finding.{Found};

    ghost Value = { Found };

    ghost view = { λ f. record { numbers = f.numbers.items; count = f.count } };
}

// What the rows of a lead find in an operand. Nothing is to be found where the operand is the lead itself.
fn found_by<L: Ledger>(
    alloc: Global,
    source: &Option<Seeker<'_>>,
    lead: &Table,
    steps: &mut Steps<L>,
) -> Result<Option<FoundRows>, AllocError>
    ensures { IfOk result (λ f. f ≡ found_by lead.now.rows source.now) }
{
    let Some(seeker) = source else {
        return Ok(None);
    };
    let numbers = seeker.firsts(alloc, lead, steps)?;
    let count = seeker.len();
    Ok(Some(FoundRows { numbers, count }))
}

// The same for each operand.
pub(crate) fn all_found<L: Ledger>(
    alloc: Global,
    sources: &[Option<Seeker<'_>>],
    lead: &Table,
    steps: &mut Steps<L>,
) -> Result<Vec<Option<FoundRows>>, AllocError>
    ensures { IfOk result (λ v. v.items ≡ map (found_by lead.now.rows) sources.now) }
{
    let mut found = Vec::with_capacity(alloc, sources.len())?;
    for source in sources {
        found.push(found_by(alloc, source, lead, steps)?)?;
    }
    Ok(found)
}

// The number of the row that a row of the lead finds; the lead finds its own.
pub(crate) fn number(found: &Option<FoundRows>, i: usize) -> usize
    requires { IfSome found.now (λ f. i < length f.numbers) }
    ensures { result ≡ listed_number i found.now }
{
    match found {
        Some(rows) => rows.numbers[i],
        None => i,
    }
}

// Whether a number is that of a row.
pub(crate) fn is_within(found: &Option<FoundRows>, number: usize) -> bool
    ensures { result ≡ is_within found.now number }
{
    match found {
        Some(rows) => number < rows.count,
        None => true,
    }
}
