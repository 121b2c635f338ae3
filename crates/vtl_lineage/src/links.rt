// The links of a checked script.
ghost use Rattle.std.specs.Prelude.{◌≡◌, ◌++◌, [], IfOk, OnOk, length};
ghost use Rattle.vtl_check.specs.Checked.{known_of};
ghost use Rattle.vtl_backend.specs.Inputs.{inputs_of};
ghost use Rattle.vtl_backend.specs.Statements.{statements_of};
ghost use Rattle.vtl_sources.specs.Links.{links, pairs_of};
ghost use Rattle.vtl_lineage.specs.Reads.{entry_named, held_inputs};
ghost use Rattle.vtl_lineage.specs.Shown.{lent_pairs, shown_links};

use crate::inputs::{Pair, input, push_pairs};
use crate::link::Link;
use crate::nodes::Known;
use crate::statements::{hold, push_links};
use std::alloc::{AllocError, Global};
use vtl_check::Checked;
use vtl_text::{ByName, Txt};

// Puts a data set that is read behind others, where its structure is known.
fn read<'a>(
    alloc: Global,
    pairs: &mut Vec<Pair<'a>>,
    known: &mut Known,
    script: &'a Checked,
    name: &'a Txt,
) -> Result<(), AllocError>
    ensures pairs { OnOk result (lent_pairs pairs.new.items ≡ lent_pairs pairs.old.items ++ pairs_of (entry_named (known_of script.now) name.now)) }
    ensures known { OnOk result (known.new ≡ held_inputs (length pairs.old.items) known.old (entry_named (known_of script.now) name.now)) }
{
    match script.structure(name) {
        Some(s) => {
            hold(known, name, input(alloc, pairs.len(), s)?)?;
            push_pairs(alloc, pairs, name, s)
        }
        None => Ok(()),
    }
}

// The data sets that a script reads: their components, and what they depend on.
#[tactic(auto, using(crate::proofs::ReadInputs::next_pairs, crate::proofs::ReadInputs::next_known, crate::proofs::ReadInputs::pairs_all, crate::proofs::ReadInputs::known_all))]
fn read_all<'a>(
    alloc: Global,
    pairs: &mut Vec<Pair<'a>>,
    known: &mut Known,
    script: &'a Checked,
) -> Result<(), AllocError>
    requires pairs { lent_pairs pairs.old.items ≡ [] }
    requires known { known.old ≡ [] }
    ensures pairs { OnOk result (lent_pairs pairs.new.items ≡ pairs_of (inputs_of script.now)) }
    ensures known { OnOk result (known.new ≡ held_inputs 0 [] (inputs_of script.now)) }
{
    for name in script.inputs() {
        read(alloc, pairs, known, script, name)?;
    }
    Ok(())
}

/// The links of a script: for each result that is written with `<-`, in order, and each of its components, in column
/// order, the components that it depends on, data sets in order of first use and components in column order, each once.
/// It fails only if memory runs out.
#[tactic(auto, using(crate::proofs::ReadInputs::links_told))]
pub fn lineage(alloc: Global, script: &Checked) -> Result<Vec<Link>, AllocError>
    ensures { IfOk result (λ v. shown_links v.items ≡ links (inputs_of script.now) (statements_of script.now)) }
{
    let mut known: Known = ByName::new(alloc);
    let mut pairs = Vec::new(alloc);
    read_all(alloc, &mut pairs, &mut known, script)?;
    let mut links = Vec::new(alloc);
    push_links(
        alloc,
        &mut known,
        &mut links,
        &pairs,
        script.statements(),
        script.nodes(),
    )?;
    Ok(links)
}
