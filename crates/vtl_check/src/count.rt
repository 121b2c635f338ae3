// How many nodes expressions have, and a script with its rules.
ghost use Rattle.std.specs.Prelude.{◌≡◌, ◌≤◌, ◌+◌, ◌∷◌, [], if◌then◌else◌, IfSome, None, Some};
ghost use Rattle.vtl_tree.specs.NodeView.{node_tree};
ghost use Rattle.vtl_check.specs.Count.{count, counted};
ghost use Rattle.vtl_check.specs.Script.{is_too_much, most_nodes};
ghost use Rattle.vtl_check.specs.Spent.{without};

use vtl_tree::{Node, NodeForm};
use vtl_walks::operands;

/// The most nodes and rules of a script.
const MAX_NODES: usize = 4096;

/// The nodes and rules so far and these, or none where they are more than a script may have.
pub fn sum(before: usize, these: usize) -> Option<usize>
    requires { before ≤ most_nodes }
    ensures sum { result ≡ (if is_too_much before these then None else Some (before + these)) }
    ensures few { IfSome result (λ all. all ≤ most_nodes) }
{
    if MAX_NODES - before < these {
        return None;
    }
    Some(before + these)
}

/// The nodes and rules so far and the nodes of an expression, or none where they are more than a script may have.
pub fn counted(before: usize, node: &Node) -> Option<usize>
    requires { before ≤ most_nodes }
    ensures sum { result ≡ (if is_too_much before (count (node_tree node.now)) then None else Some (before + count (node_tree node.now))) }
    ensures few { IfSome result (λ all. all ≤ most_nodes) }
{
    let left = spend(node, MAX_NODES - before)?;
    Some(MAX_NODES - left)
}

// How many of this many nodes are left after a node without its operands, or none where there is none left for it.
fn spend_alone(node: &Node, left: usize) -> Option<usize>
    ensures { result ≡ without (counted (node_tree node.now ∷ [])) left }
{
    match &node.form {
        NodeForm::Named(_) | NodeForm::Join { .. } => Some(left),
        _ if 1 <= left => Some(left - 1),
        _ => None,
    }
}

// How many of this many nodes are left after an expression, or none where it has more. So no sum can overflow.
fn spend(node: &Node, left: usize) -> Option<usize>
    ensures { result ≡ without (count (node_tree node.now)) left }
{
    let mut left = spend_alone(node, left)?;
    let operands = operands(node);
    for i in 0..operands.len() {
        left = spend(operands.nth(i), left)?;
    }
    Some(left)
}
