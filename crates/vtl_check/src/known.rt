// Data sets that are known, by name.
ghost use Rattle.std.specs.Prelude.{◌≡◌, ◌<◌, ◌+◌, ◌++◌, [], ◌∷◌, false, length, take, IfOk, OnOk};
ghost use Rattle.vtl_tree.specs.NotNull.{HaveLists};
ghost use Rattle.vtl_tree.specs.Structures.{AreStructures, has_name};

use std::alloc::{AllocError, Global};
use vtl_text::{ByName, List, Txt};
use vtl_tree::{Structure, Structures, share_structure};

/// Whether a name is known.
pub fn is_known(known: &ByName<Structure>, name: &Txt) -> bool
    ensures { result ≡ has_name name.now known.now }
{
    known.has(name)
}

/// Puts a structure after the others, under a name that none has yet.
pub fn put(
    known: &mut ByName<Structure>,
    name: &Txt,
    structure: Structure,
) -> Result<(), AllocError>
    requires { has_name name.now known.old ≡ false }
    ensures { OnOk result (known.new ≡ known.old ++ (name.now, structure) ∷ []) }
{
    known.put(name.share()?, structure)
}

// Puts one more of the declared structures after those before it.
fn put_at(
    alloc: Global,
    known: &mut ByName<Structure>,
    structures: &Structures,
    i: usize,
) -> Result<(), AllocError>
    requires within { i < length structures.now.sets }
    requires structures { AreStructures structures.now.sets }
    requires before { known.old ≡ take i structures.now.sets }
    ensures { OnOk result (known.new ≡ take (i + 1) structures.now.sets) }
{
    let (name, structure) = structures.at(i);
    let shared = share_structure(alloc, structure)?;
    put(known, name, shared)
}

/// The declared structures, as data sets that are known.
pub fn share_structures(
    alloc: Global,
    structures: &Structures,
) -> Result<ByName<Structure>, AllocError>
    ensures entries { IfOk result (λ known. known ≡ structures.now.sets) }
    ensures structures { IfOk result (λ known. AreStructures known) }
{
    let mut known = ByName::new(alloc);
    for i in 0..structures.len() {
        put_at(alloc, &mut known, structures, i)?;
    }
    Ok(known)
}

/// The not-null lists of the declared structures. It fails only if memory runs out.
pub fn share_lists(structures: &Structures) -> Result<ByName<List<Txt>>, AllocError>
    ensures lists { IfOk result (λ lists. lists ≡ structures.now.not_null) }
    ensures fit { HaveLists structures.now.sets structures.now.not_null }
{
    structures.share_lists()
}
