// The structures of the data sets that are known before a transformation.
ghost use Rattle.std.specs.Prelude.{◌≡◌, ◌++◌, [], ◌∷◌, true, false, map, IfOk, OnOk};
ghost use Rattle.vtl_syntax.specs.View.{statement_tree};
ghost use Rattle.vtl_tree.specs.NodeView.{node_tree};
ghost use Rattle.vtl_tree.specs.NotNull.{are_not_null, with_list};
ghost use Rattle.vtl_tree.specs.Structures.{has_name, is_declarable};
ghost use Rattle.vtl_check.specs.Checked.{nodes_of, tree_of};
ghost use Rattle.vtl_check.specs.Transformations.{transformations};
ghost use Rattle.rerun_laws.specs.Parts.{is_transformation, known_before};
ghost use Rattle.script_parts.specs.Results.{AreResults};

use result_laws::results_are_declarable;
use std::alloc::{AllocError, Global};
use vtl_check::Checked;
use vtl_syntax::Statement;
use vtl_text::Txt;
use vtl_tree::{Node, Structure, Structures, share_structure};

// Puts a structure after the others, under a name that none has yet.
fn put(
    alloc: Global,
    known: &mut Structures,
    name: &Txt,
    structure: &Structure,
) -> Result<(), AllocError>
    requires new_name { has_name name.now known.old.sets ≡ false }
    requires declarable { is_declarable structure.now ≡ true }
    ensures put { OnOk result (known.new.sets ≡ known.old.sets ++ (name.now, structure.now) ∷ []) }
    ensures lists { OnOk result (known.new.not_null ≡ known.old.not_null) }
{
    let shared = share_structure(alloc, structure)?;
    known.put(name.share()?, shared)
}

// Puts a declared structure with its not-null list after the others, under a name that none has yet.
fn put_declared(
    alloc: Global,
    known: &mut Structures,
    name: &Txt,
    structure: &Structure,
    not_null: &[Txt],
) -> Result<(), AllocError>
    requires new_name { has_name name.now known.old.sets ≡ false }
    requires declarable { is_declarable structure.now ≡ true }
    requires not_null { are_not_null structure.now not_null.now ≡ true }
    ensures put { OnOk result (known.new.sets ≡ known.old.sets ++ (name.now, structure.now) ∷ []) }
    ensures lists { OnOk result (known.new.not_null ≡ known.old.not_null ++ with_list name.now not_null.now) }
{
    let shared = share_structure(alloc, structure)?;
    let list = share_names(alloc, not_null)?;
    known.put_with(name.share()?, shared, list)
}

fn share_names(alloc: Global, names: &[Txt]) -> Result<Vec<Txt>, AllocError>
    ensures { IfOk result (λ v. v.items ≡ names.now) }
{
    let mut shared = Vec::with_capacity(alloc, names.len())?;
    for name in names {
        shared.push(name.share()?)?;
    }
    Ok(shared)
}

// The declared structures of a script, with their not-null lists.
fn declared(alloc: Global, script: &Checked) -> Result<Structures, AllocError>
    ensures sets { IfOk result (λ known. known.sets ≡ script.now.declared) }
    ensures lists { IfOk result (λ known. known.not_null ≡ script.now.not_null) }
{
    let declared = script.declared();
    let mut known = Structures::new(alloc);
    for i in 0..declared.len() {
        let (name, structure) = declared.at(i);
        put_declared(alloc, &mut known, name, structure, script.not_null(name))?;
    }
    Ok(known)
}

// Puts the results of the transformations before one of them after other data sets. A definition has no node.
fn put_results(
    alloc: Global,
    known: &mut Structures,
    statements: &[Statement],
    nodes: &[Node],
    number: usize,
) -> Result<(), AllocError>
    requires number { is_transformation number (map statement_tree statements.now) ≡ true }
    requires results { AreResults known.old.sets (transformations (map statement_tree statements.now)) (map node_tree nodes.now) }
    ensures put { OnOk result (known.new.sets ≡ known_before number known.old.sets (transformations (map statement_tree statements.now)) (map node_tree nodes.now)) }
    ensures lists { OnOk result (known.new.not_null ≡ known.old.not_null) }
{
    let mut place = 0;
    for i in 0..number - 1 {
        let Statement::Assignment { name, .. } = &statements[i] else {
            continue;
        };
        put(alloc, known, name, &nodes[place].structure)?;
        place += 1;
    }
    Ok(())
}

/// The structures of the declared data sets of a script, with their not-null lists, and of the results of the
/// transformations before one of them, with none.
pub fn known_before(
    alloc: Global,
    script: &Checked,
    number: usize,
) -> Result<Structures, AllocError>
    requires { is_transformation number (tree_of script.now) ≡ true }
    ensures sets { IfOk result (λ known. known.sets ≡ known_before number script.now.declared (transformations (tree_of script.now)) (nodes_of script.now)) }
    ensures lists { IfOk result (λ known. known.not_null ≡ script.now.not_null) }
{
    results_are_declarable();
    let nodes = script.nodes();
    let mut known = declared(alloc, script)?;
    put_results(alloc, &mut known, script.statements(), nodes, number)?;
    Ok(known)
}
