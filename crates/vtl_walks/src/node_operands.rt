// The operands of a node, lent without memory.
ghost use Rattle.std.specs.Prelude.{◌≡◌, ◌+◌, ◌<◌, ◌≤◌, ◌∷◌, drop, length, map, option_map};
ghost use Rattle.vtl_tree.specs.NodeView.{node_tree, operand_tree};
ghost use Rattle.vtl_tree.specs.Trees.{maybe_node, nodes_of, operands_of};
ghost use Rattle.vtl_walks.specs.Lent.{lent};
ghost use Rattle.vtl_walks.specs.Operands.{in_join, in_list, in_option, operands_in, size, sizes};

use vtl_tree::{JoinOperand, Node, NodeForm};

/// The operands of a node, in written order.
#[derive(Clone, Copy)]
pub enum NodeOperands<'a> {
    /// None: the node is the name of a data set.
    None,
    /// The one operand.
    One(&'a Node),
    /// Both operands.
    Two(&'a Node, &'a Node),
    /// All three operands: the condition of `if`, then its two results.
    Three(&'a Node, &'a Node, &'a Node),
    /// Operands of which a script writes as many as it likes, as those of `union`.
    Many(&'a [Node]),
    /// The operands of a join; a look at one leaves its alias out.
    Joined(&'a [JoinOperand]),
}

#[tactic(auto, using(crate::proofs::Laws::drop_mapped))]
fn node_at(nodes: &[Node], i: usize) -> &Node
    requires { i < length nodes.now }
    ensures { drop i (map node_tree nodes.now) ≡ node_tree result.now ∷ drop (i + 1) (map node_tree nodes.now) }
{
    &nodes[i]
}

#[tactic(auto, using(crate::proofs::Laws::drop_mapped))]
fn joined_at(operands: &[JoinOperand], i: usize) -> &Node
    requires { i < length operands.now }
    ensures { drop i (map (λ o. node_tree o.node) operands.now) ≡ node_tree result.now ∷ drop (i + 1) (map (λ o. node_tree o.node) operands.now) }
{
    &operands[i].node
}

fn lent_at<'a>(operands: &NodeOperands<'a>, i: usize) -> &'a Node
    requires { i < length (lent operands.now) }
    ensures { drop i (lent operands.now) ≡ node_tree result.now ∷ drop (i + 1) (lent operands.now) }
{
    match operands {
        NodeOperands::None => unreachable!(),
        NodeOperands::One(a) => a,
        NodeOperands::Two(a, b) => if i == 0 { a } else { b },
        NodeOperands::Three(a, b, c) => match i {
            0 => a,
            1 => b,
            _ => c,
        },
        NodeOperands::Many(nodes) => node_at(nodes, i),
        NodeOperands::Joined(operands) => joined_at(operands, i),
    }
}

impl<'a> NodeOperands<'a> {
    /// How many they are.
    pub fn len(&self) -> usize
        ensures { result ≡ length (lent self.now) }
    {
        match self {
            NodeOperands::None => 0,
            NodeOperands::One(_) => 1,
            NodeOperands::Two(_, _) => 2,
            NodeOperands::Three(_, _, _) => 3,
            NodeOperands::Many(nodes) => nodes.len(),
            NodeOperands::Joined(operands) => operands.len(),
        }
    }

    /// The operand at an index: the first of those from there on. It has no more nodes than all operands.
    #[tactic(auto, using(crate::proofs::Laws::size_first))]
    pub fn nth(&self, i: usize) -> &'a Node
        requires { i < length (lent self.now) }
        ensures rest { drop i (lent self.now) ≡ node_tree result.now ∷ drop (i + 1) (lent self.now) }
        ensures within { size (node_tree result.now) ≤ sizes (lent self.now) }
    {
        lent_at(self, i)
    }
}

fn with_imbalance<'a>(a: &'a Node, imbalance: &'a Option<Box<Node>>) -> NodeOperands<'a>
    ensures { lent result ≡ node_tree a.now ∷ in_option (maybe_node (option_map (λ b. node_tree b.value) imbalance.now)) }
{
    match imbalance {
        None => NodeOperands::One(a),
        Some(b) => NodeOperands::Two(a, b),
    }
}

#[tactic(auto, using(crate::proofs::Laws::all_in_list))]
fn all(nodes: &[Node]) -> NodeOperands<'_>
    ensures { lent result ≡ in_list (nodes_of (map node_tree nodes.now)) }
{
    NodeOperands::Many(nodes)
}

#[tactic(auto, using(crate::proofs::Laws::all_in_join))]
fn joined(operands: &[JoinOperand]) -> NodeOperands<'_>
    ensures { lent result ≡ in_join (operands_of (map operand_tree operands.now)) }
{
    NodeOperands::Joined(operands)
}

fn form_operands(node: &Node) -> NodeOperands<'_>
    ensures { lent result ≡ operands_in (node_tree node.now) }
{
    match &node.form {
        NodeForm::Named(_) => NodeOperands::None,
        NodeForm::Join { operands, .. } => joined(operands),
        NodeForm::Union(nodes) | NodeForm::Intersect(nodes) => all(nodes),
        NodeForm::Choose { c, a, b } => NodeOperands::Three(c, a, b),
        NodeForm::Pair { a, b, .. }
        | NodeForm::SetDiff { a, b }
        | NodeForm::SymDiff { a, b }
        | NodeForm::ExistsIn { a, b, .. } => NodeOperands::Two(a, b),
        NodeForm::Check { a, imbalance, .. } => with_imbalance(a, imbalance),
        NodeForm::Measures { a, .. }
        | NodeForm::Member { a, .. }
        | NodeForm::Filter { a, .. }
        | NodeForm::Calc { a, .. }
        | NodeForm::Keep { a, .. }
        | NodeForm::DropNamed { a, .. }
        | NodeForm::Rename { a, .. }
        | NodeForm::Sub { a, .. }
        | NodeForm::Pivot { a, .. }
        | NodeForm::Unpivot { a, .. }
        | NodeForm::Aggregate { a, .. }
        | NodeForm::Analytic { a, .. }
        | NodeForm::Time { a, .. }
        | NodeForm::CheckDatapoint { a, .. }
        | NodeForm::CheckHierarchy { a, .. }
        | NodeForm::Hierarchy { a, .. } => NodeOperands::One(a),
    }
}

/// The operands of a node, in written order. All have fewer nodes than it.
#[tactic(auto, using(crate::proofs::Laws::size_is))]
pub fn operands(node: &Node) -> NodeOperands<'_>
    ensures operands { lent result ≡ operands_in (node_tree node.now) }
    ensures fewer { sizes (lent result) < size (node_tree node.now) }
{
    form_operands(node)
}
