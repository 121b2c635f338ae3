// The data sets that a typed script reads, and those that it gives.
//
// A checked script holds what it reads and gives as lists that are made once. What the top call needs of a result's
// table is asked of it by name (`Checked::structure`): the tables of a back end carry no structure, since one that
// runs SQL has none.
ghost use Rattle.std.specs.Map.{keys_of, lookup};
ghost use Rattle.std.specs.Prelude.{◌≡◌, ◌++◌, IfOk, OnOk, length, map};
ghost use Rattle.vtl_tree.specs.NodeView.{node_tree};
ghost use Rattle.vtl_syntax.specs.View.{statement_tree};
ghost use Rattle.vtl_tree.specs.Structure.{same_name};
ghost use Rattle.vtl_check.specs.Transformations.{transformations};
ghost use Rattle.vtl_check.specs.Uses.{output_named, outputs_in, read_behind, reads, results_behind, with_declared, with_new};

use crate::known::{is_known, put};
use crate::names::read_names;
use std::alloc::{AllocError, Global};
use vtl_syntax::{AssignKind, Statement};
use vtl_text::{ByName, Txt};
use vtl_tree::{Node, Structure, share_structure};

/// The data sets that a script reads and gives.
#[derive(Drop)]
pub struct Uses {
    /// The structures of the declared data sets that the script reads, and then of its results.
    pub known: ByName<Structure>,
    /// The names of the declared data sets that the script reads, in order of first use.
    pub inputs: Vec<Txt>,
    /// The names of the results that are written with `<-`, in order.
    pub outputs: Vec<Txt>,
}

// Puts a structure after others, where none has the name yet.
fn put_new(
    alloc: Global,
    known: &mut ByName<Structure>,
    name: &Txt,
    structure: &Structure,
) -> Result<(), AllocError>
    ensures { OnOk result (known.new ≡ with_new known.old name.now structure.now) }
{
    if is_known(known, name) {
        return Ok(());
    }
    let shared = share_structure(alloc, structure)?;
    put(known, name, shared)
}

// Puts a data set that is read after others, where it is declared and new.
fn put_read(
    alloc: Global,
    declared: &ByName<Structure>,
    known: &mut ByName<Structure>,
    name: &Txt,
) -> Result<(), AllocError>
    ensures { OnOk result (known.new ≡ with_declared known.old name.now (lookup (same_name name.now) declared.now)) }
{
    match declared.get(name) {
        Some(structure) => put_new(alloc, known, name, structure),
        None => Ok(()),
    }
}

// Puts the declared data sets of some names after others.
fn put_reads(
    alloc: Global,
    declared: &ByName<Structure>,
    known: &mut ByName<Structure>,
    names: &[Txt],
) -> Result<(), AllocError>
    ensures { OnOk result (known.new ≡ read_behind declared.now known.old names.now) }
{
    for name in names {
        put_read(alloc, declared, known, name)?;
    }
    Ok(())
}

// The declared data sets that expressions read.
fn reads(
    alloc: Global,
    declared: &ByName<Structure>,
    nodes: &[Node],
) -> Result<ByName<Structure>, AllocError>
    ensures { IfOk result (λ known. known ≡ reads declared.now (map node_tree nodes.now)) }
{
    let names = read_names(alloc, nodes)?;
    let mut known = ByName::new(alloc);
    put_reads(alloc, declared, &mut known, &names)?;
    Ok(known)
}

// The names of data sets, in order.
fn names_by_place(alloc: Global, known: &ByName<Structure>) -> Result<Vec<Txt>, AllocError>
    ensures { IfOk result (λ v. v.items ≡ keys_of known.now) }
{
    let mut names = Vec::new(alloc);
    for i in 0..known.len() {
        let (name, _) = known.at(i);
        names.push(name.share()?)?;
    }
    Ok(names)
}

// Puts the results of statements after other data sets. A definition has no node.
fn put_results(
    alloc: Global,
    known: &mut ByName<Structure>,
    statements: &[Statement],
    nodes: &[Node],
) -> Result<(), AllocError>
    requires { length nodes.now ≡ length (transformations (map statement_tree statements.now)) }
    ensures { OnOk result (known.new ≡ results_behind known.old (transformations (map statement_tree statements.now)) (map node_tree nodes.now)) }
{
    let mut place = 0;
    for statement in statements {
        let Statement::Assignment { name, .. } = statement else {
            continue;
        };
        put_new(alloc, known, name, &nodes[place].structure)?;
        place += 1;
    }
    Ok(())
}

fn push_output(out: &mut Vec<Txt>, name: &Txt, kind: AssignKind) -> Result<(), AllocError>
    ensures { OnOk result (out.new.items ≡ out.old.items ++ output_named name.now kind) }
{
    match kind {
        AssignKind::Persistent => Ok(out.push(name.share()?)?),
        AssignKind::Temporary => Ok(()),
    }
}

// The names of the results that are written with `<-`.
fn outputs(alloc: Global, statements: &[Statement]) -> Result<Vec<Txt>, AllocError>
    ensures { IfOk result (λ v. v.items ≡ outputs_in (transformations (map statement_tree statements.now))) }
{
    let mut names = Vec::new(alloc);
    for statement in statements {
        let Statement::Assignment { name, kind, .. } = statement else {
            continue;
        };
        push_output(&mut names, name, *kind)?;
    }
    Ok(names)
}

/// The data sets that statements with these nodes read and give.
pub fn uses_of(
    alloc: Global,
    declared: &ByName<Structure>,
    statements: &[Statement],
    nodes: &[Node],
) -> Result<Uses, AllocError>
    requires { length nodes.now ≡ length (transformations (map statement_tree statements.now)) }
    ensures known { IfOk result (λ u. u.known ≡ results_behind (reads declared.now (map node_tree nodes.now)) (transformations (map statement_tree statements.now)) (map node_tree nodes.now)) }
    ensures inputs { IfOk result (λ u. u.inputs.items ≡ keys_of (reads declared.now (map node_tree nodes.now))) }
    ensures outputs { IfOk result (λ u. u.outputs.items ≡ outputs_in (transformations (map statement_tree statements.now))) }
{
    let mut known = reads(alloc, declared, nodes)?;
    let inputs = names_by_place(alloc, &known)?;
    put_results(alloc, &mut known, statements, nodes)?;
    let outputs = outputs(alloc, statements)?;
    Ok(Uses {
        known,
        inputs,
        outputs,
    })
}
