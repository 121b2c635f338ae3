//! Walks over typed expressions: the operands of a node, in written order.
//!
//! It stands apart so that whoever goes over all nodes of a script names no form whose operands alone matter: a new form
//! is told here, and where its own work is done. It decides no rule and gives no meaning.
//! Begin with specs/Operands.antt, then `node_operands.rt`.
//!
//! Operands are lent by their number, so that a walk is one loop and takes no memory; a node has more nodes than all
//! its operands, by which a walk ends.
#![tactic(auto)]

mod node_operands;

pub use node_operands::{NodeOperands, operands};
