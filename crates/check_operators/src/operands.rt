// The operands of an operator, separated into data sets and values.
ghost use Rattle.std.specs.Prelude.{◌≡◌, ◌++◌, ◌∷◌, [], IfOk, OnOk};
ghost use Rattle.vtl_tree.specs.View.{comp_exp_of};
ghost use Rattle.check_operators.specs.Operators.{no_operands, parted, parted_view, with_operand};
ghost use Rattle.check_operators.specs.Typed.{typed_tree, typed_trees, value};

use crate::Typed;
use std::alloc::{AllocError, Global};
use vtl_tree::{CompExpr, Node};

/// Operands: the data sets, and the values before and after the first of them.
#[derive(Drop)]
pub(crate) struct Parted {
    /// The values before the first data set.
    pub(crate) before: Vec<CompExpr>,
    /// The data sets.
    pub(crate) datasets: Vec<Box<Node>>,
    /// The values after the first data set.
    pub(crate) after: Vec<CompExpr>,
}

fn push_value(parted: &mut Parted, e: CompExpr) -> Result<(), AllocError>
    ensures { OnOk result (parted_view parted.new ≡ with_operand (parted_view parted.old) (value (comp_exp_of e))) }
{
    match parted.datasets.as_slice() {
        [] => Ok(parted.before.push(e)?),
        _ => Ok(parted.after.push(e)?),
    }
}

fn push_operand(parted: &mut Parted, operand: Typed) -> Result<(), AllocError>
    ensures { OnOk result (parted_view parted.new ≡ with_operand (parted_view parted.old) (typed_tree operand)) }
{
    match operand {
        Typed::Value(e) => push_value(parted, e),
        Typed::Dataset(node) => Ok(parted.datasets.push(node)?),
    }
}

fn no_operands(alloc: Global) -> Parted
    ensures { parted_view result ≡ no_operands }
{
    Parted {
        before: Vec::new(alloc),
        datasets: Vec::new(alloc),
        after: Vec::new(alloc),
    }
}

/// The data sets among operands, and the values before and after the first of them.
pub(crate) fn part(alloc: Global, operands: Vec<Typed>) -> Result<Parted, AllocError>
    ensures { IfOk result (λ p. parted_view p ≡ parted no_operands (typed_trees operands)) }
{
    let mut parted = no_operands(alloc);
    for operand in operands {
        push_operand(&mut parted, operand)?;
    }
    Ok(parted)
}
