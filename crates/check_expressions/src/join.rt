// The parts of a join that hold no expression.
ghost use Rattle.check_faults.specs.Answers.{Answers};
ghost use Rattle.check_operators.specs.Typed.{boxed_tree, typed_tree};
ghost use Rattle.check_clauses.specs.JoinOperands.{joined_of};
ghost use Rattle.check_expressions.specs.Typing.{body_end, keeping_step, last_step, renaming_step};
ghost use Rattle.vtl_tree.specs.NodeView.{operand_tree};
ghost use Rattle.std.specs.Prelude.{◌≡◌, IfOk, Some, map};

use check_clauses::{joined, keeping, last_naming, renaming};
use check_faults::TypeErr;
use check_operators::{Joined, Typed};
use std::alloc::{AllocError, Global};
use vtl_syntax::{JoinKind, Keeping, RenamePart};
use vtl_text::List;
use vtl_tree::{JoinOperand, Node};

/// What the body of a join sees of its operands.
pub fn seen_by_body(
    alloc: Global,
    kind: JoinKind,
    operands: &[JoinOperand],
) -> Result<Option<Joined>, AllocError>
    ensures { IfOk result (λ j. j ≡ Some (joined_of kind (map operand_tree operands.now))) }
{
    Ok(Some(joined(alloc, kind, operands)?))
}

fn keeping_step(
    alloc: Global,
    joined: &Option<Joined>,
    kept: &Option<Keeping>,
    node: Box<Node>,
) -> Result<Box<Node>, TypeErr>
    ensures { Answers boxed_tree result (keeping_step joined.now kept.now (boxed_tree node)) }
{
    match kept {
        Some(kept) => keeping(alloc, joined, node, kept),
        None => Ok(node),
    }
}

fn renaming_step(
    alloc: Global,
    joined: &Option<Joined>,
    renames: &Option<List<RenamePart>>,
    node: Box<Node>,
) -> Result<Box<Node>, TypeErr>
    ensures { Answers boxed_tree result (renaming_step joined.now renames.now (boxed_tree node)) }
{
    match renames {
        Some(renames) => renaming(alloc, joined, node, renames.as_slice()),
        None => Ok(node),
    }
}

fn last_step(alloc: Global, joined: &Option<Joined>, node: Box<Node>) -> Result<Box<Node>, TypeErr>
    ensures { Answers boxed_tree result (last_step joined.now (boxed_tree node)) }
{
    match joined {
        Some(joined) => last_naming(alloc, joined, node),
        None => Ok(node),
    }
}

/// What comes after the parts of a join's body that hold expressions.
pub fn body_end(
    alloc: Global,
    joined: &Option<Joined>,
    kept: &Option<Keeping>,
    renames: &Option<List<RenamePart>>,
    node: Box<Node>,
) -> Result<Typed, TypeErr>
    ensures { Answers typed_tree result (body_end joined.now kept.now renames.now (boxed_tree node)) }
{
    let node = keeping_step(alloc, joined, kept, node)?;
    let node = renaming_step(alloc, joined, renames, node)?;
    let node = last_step(alloc, joined, node)?;
    Ok(Typed::Dataset(node))
}
