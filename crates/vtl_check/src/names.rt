// The names of the data sets that expressions read.
ghost use Rattle.std.specs.Prelude.{◌≡◌, ◌++◌, IfOk, OnOk, map};
ghost use Rattle.vtl_tree.specs.NodeView.{node_tree};
ghost use Rattle.vtl_check.specs.Names.{name_at, names_in, names_of};

use std::alloc::{AllocError, Global};
use vtl_text::Txt;
use vtl_tree::{Node, NodeForm};
use vtl_walks::operands;

/// The names of the data sets that expressions read, each as often as it occurs.
pub fn read_names(alloc: Global, nodes: &[Node]) -> Result<Vec<Txt>, AllocError>
    ensures { IfOk result (λ v. v.items ≡ names_of (map node_tree nodes.now)) }
{
    let mut names = Vec::new(alloc);
    for node in nodes {
        push_names(&mut names, node)?;
    }
    Ok(names)
}

// The name that a node reads itself.
fn push_name(out: &mut Vec<Txt>, node: &Node) -> Result<(), AllocError>
    ensures { OnOk result (out.new.items ≡ out.old.items ++ name_at (node_tree node.now)) }
{
    match &node.form {
        NodeForm::Named(name) => Ok(out.push(name.share()?)?),
        _ => Ok(()),
    }
}

#[tactic(auto, using(crate::proofs::NameLemmas::names_by_operands, crate::proofs::NameLemmas::names_first))]
fn push_names(out: &mut Vec<Txt>, node: &Node) -> Result<(), AllocError>
    ensures { OnOk result (out.new.items ≡ out.old.items ++ names_in (node_tree node.now)) }
{
    push_name(out, node)?;
    let operands = operands(node);
    for i in 0..operands.len() {
        push_names(out, operands.nth(i))?;
    }
    Ok(())
}
