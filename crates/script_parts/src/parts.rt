// A transformation as a script of its own.
ghost use Rattle.std.specs.Prelude.{◌≡◌, IfOk, true};
ghost use Rattle.vtl_tree.specs.Structures.{AreStructures};
ghost use Rattle.vtl_check.specs.Checked.{IsTyped, tree_of};
ghost use Rattle.rerun_laws.specs.Parts.{IsPart, is_transformation};

use crate::known::known_before;
use crate::statements::script_at;
use std::alloc::{AllocError, Global};
use vtl_check::{CheckErr, Checked, check};

/// The transformation of a number as a script of its own: the definitions of rulesets before it, and the transformation
/// alone, written with `<-`. It is typed over the declared data sets and the results of the transformations before it.
/// Numbers count all statements from 1, and this one is that of a transformation. Each part holds copies of the
/// definitions before it. It fails only if memory runs out.
pub fn statement(alloc: Global, script: &Checked, number: usize) -> Result<Checked, AllocError>
    requires { is_transformation number (tree_of script.now) ≡ true }
    ensures part { IfOk result (λ part. IsPart script.now number part) }
    ensures typed { IfOk result (λ part. IsTyped part) }
    ensures structures { IfOk result (λ part. AreStructures part.declared) }
{
    let _nodes = script.nodes();
    let structures = known_before(alloc, script, number)?;
    let part = script_at(alloc, script, number)?;
    match check(alloc, &part, &structures, script.profile()) {
        Ok(part) => {
            let _nodes = part.nodes();
            Ok(part)
        }
        Err(CheckErr::Mistyped { .. }) => unreachable!(),
        Err(CheckErr::OutOfMemory) => Err(AllocError),
    }
}
