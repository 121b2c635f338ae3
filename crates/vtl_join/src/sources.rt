// How the rows of operands are found.
ghost use Rattle.std.specs.Prelude.{◌≡◌, ◌<◌, ◌++◌, length, map, IfOk, OnOk, Some};
ghost use Rattle.vtl_tree.specs.Shown.{shown};
ghost use Rattle.vtl_join.specs.Finding.{sought_at, sought_beside, sources_around};
ghost use Rattle.vtl_join.specs.Joining.{sets_of};

use crate::joined::Operand;
use crate::tuples::up_to;
use std::alloc::{AllocError, Global};
use std::sync::ledger::Ledger;
use vtl_index::{Seeker, Steps};
use vtl_sets::DataSet;
use vtl_tree::{Component, Structure, common_identifiers, places_in};

// The points of an operand, by the identifiers that it has in common with the structure of the rows that ask.
fn seek_beside<'a, L: Ledger>(
    alloc: Global,
    asking: &Structure,
    operand: &'a DataSet,
    steps: &mut Steps<L>,
) -> Result<Seeker<'a>, AllocError>
    ensures { IfOk result (λ x. x ≡ sought_beside asking.now operand.now) }
{
    let structure = operand.structure();
    let common = common_identifiers(alloc, asking, structure)?;
    let own = places_in(alloc, &structure.columns(alloc)?, &common)?;
    let asked = places_in(alloc, &asking.columns(alloc)?, &common)?;
    Seeker::of(alloc, operand.table(), &own, &asked, steps)
}

fn push_beside<'a, L: Ledger>(
    alloc: Global,
    sources: &mut Vec<Option<Seeker<'a>>>,
    asking: &Structure,
    operands: &'a [Operand],
    steps: &mut Steps<L>,
) -> Result<(), AllocError>
    ensures { OnOk result (sources.new.items ≡ sources.old.items ++ map (λ d. Some (sought_beside asking.now d)) (sets_of operands.now)) }
{
    for operand in operands {
        sources.push(Some(seek_beside(alloc, asking, &operand.set, steps)?))?;
    }
    Ok(())
}

// The points of all operands but the one at a place, which leads and has its own.
pub(crate) fn sources_around<'a, L: Ledger>(
    alloc: Global,
    lead: &Structure,
    operands: &'a [Operand],
    place: usize,
    steps: &mut Steps<L>,
) -> Result<Vec<Option<Seeker<'a>>>, AllocError>
    requires { place < length operands.now }
    ensures { IfOk result (λ v. v.items ≡ sources_around lead.now (sets_of operands.now) place) }
{
    let mut sources = Vec::with_capacity(alloc, operands.len())?;
    push_beside(alloc, &mut sources, lead, &operands[..place], steps)?;
    sources.push(None)?;
    push_beside(alloc, &mut sources, lead, &operands[place + 1..], steps)?;
    Ok(sources)
}

// The points of an operand by these identifiers, which are the first cells of the rows that ask.
fn seek_at<'a, L: Ledger>(
    alloc: Global,
    identifiers: &[&Component],
    operand: &'a DataSet,
    steps: &mut Steps<L>,
) -> Result<Seeker<'a>, AllocError>
    ensures { IfOk result (λ x. x ≡ sought_at (shown identifiers.now) operand.now) }
{
    let own = places_in(alloc, &operand.structure().columns(alloc)?, identifiers)?;
    let asked = up_to(alloc, identifiers.len())?;
    Seeker::of(alloc, operand.table(), &own, &asked, steps)
}

// The points of all operands by these identifiers.
pub(crate) fn sources_at<'a, L: Ledger>(
    alloc: Global,
    identifiers: &[&Component],
    operands: &'a [Operand],
    steps: &mut Steps<L>,
) -> Result<Vec<Option<Seeker<'a>>>, AllocError>
    ensures { IfOk result (λ v. v.items ≡ map (λ d. Some (sought_at (shown identifiers.now) d)) (sets_of operands.now)) }
{
    let mut sources = Vec::with_capacity(alloc, operands.len())?;
    for operand in operands {
        sources.push(Some(seek_at(alloc, identifiers, &operand.set, steps)?))?;
    }
    Ok(sources)
}
