// Joined sets, what the body of a join sees of them, and their final naming.
ghost use Rattle.std.specs.Option.{option_copied};
ghost use Rattle.std.specs.Prelude.{◌≡◌, IfOk, map};
ghost use Rattle.vtl_tree.specs.Trees as tree;
ghost use Rattle.vtl_tree.specs.Trees.{operands_of};
ghost use Rattle.vtl_tree.specs.NodeView.{operand_tree};
ghost use Rattle.check_faults.specs.Answers.{Answers};
ghost use Rattle.check_operators.specs.Typed.{boxed_tree};
ghost use Rattle.check_joins.specs.Joins.{join_form};
ghost use Rattle.vtl_tree.specs.Names.{name_of};
ghost use Rattle.check_clauses.specs.Clauses.{made_of};
ghost use Rattle.check_clauses.specs.JoinOperands.{is_left, joined_node, joined_of, last_naming, left_names, shape_of, using_names};
ghost use Rattle.check_clauses.specs.JoinView.{operands_view};

use crate::renames::renamed;
use check_faults::TypeErr;
use check_joins::{held_names, join, last_renamings};
use check_operators::{Joined, made_node};
use check_values::name;
use std::alloc::{AllocError, Global};
use vtl_syntax::{Comp, JoinKind};
use vtl_text::{List, Shared, Txt};
use vtl_tree::{
    Component, JoinOperand, JoinSpec, Node, NodeForm, Operand, Renaming, Structure, component_of,
    share_structure,
};

fn shape_of(alloc: Global, operand: &JoinOperand) -> Result<Operand, AllocError>
    ensures { IfOk result (λ o. o ≡ shape_of (operand_tree operand.now)) }
{
    Ok(Operand {
        alias: operand.alias.share()?,
        structure: share_structure(alloc, &operand.node.structure)?,
    })
}

fn shapes_of(alloc: Global, operands: &[JoinOperand]) -> Result<Vec<Operand>, AllocError>
    ensures { IfOk result (λ v. v.items ≡ map shape_of (map operand_tree operands.now)) }
{
    let mut shapes = Vec::new(alloc);
    for operand in operands {
        shapes.push(shape_of(alloc, operand)?)?;
    }
    Ok(shapes)
}

/// What the body of a join sees of the operands.
pub fn joined(alloc: Global, kind: JoinKind, operands: &[JoinOperand]) -> Result<Joined, AllocError>
    ensures { IfOk result (λ j. j ≡ joined_of kind (map operand_tree operands.now)) }
{
    let shapes = shapes_of(alloc, operands)?;
    let held = held_names(alloc, kind, &shapes)?;
    Ok(Joined {
        kind,
        operands: Shared::of(shapes)?,
        held: Shared::of(held)?,
    })
}

fn names_of(alloc: Global, components: &[Comp]) -> Result<Vec<Txt>, AllocError>
    ensures { IfOk result (λ v. v.items ≡ map name_of components.now) }
{
    let mut names = Vec::new(alloc);
    for component in components {
        names.push(name(component).share()?)?;
    }
    Ok(names)
}

fn listed_names(alloc: Global, listed: &Option<List<Comp>>) -> Result<Option<List<Txt>>, AllocError>
    ensures { IfOk result (λ names. names ≡ using_names listed.now) }
{
    match listed {
        Some(listed) => Ok(Some(List::of(names_of(alloc, listed.as_slice())?))),
        None => Ok(None),
    }
}

fn listed_slice(listed: &Option<List<Txt>>) -> Option<&[Txt]>
    ensures { option_copied result ≡ listed.now }
{
    match listed {
        Some(names) => Some(names.as_slice()),
        None => None,
    }
}

fn join_structure(
    alloc: Global,
    kind: JoinKind,
    listed: &Option<List<Txt>>,
    operands: &[JoinOperand],
) -> Result<Structure, TypeErr>
    ensures { Answers (λ s. s) result (join_form kind listed.now (map shape_of (map operand_tree operands.now))) }
{
    let shapes = shapes_of(alloc, operands)?;
    join(alloc, kind, listed_slice(listed), &shapes)
}

// The operands and the specification of a join as the form of a data set.
fn made_join(
    alloc: Global,
    structure: Structure,
    spec: JoinSpec,
    operands: Vec<JoinOperand>,
) -> Result<Box<Node>, TypeErr>
    ensures { Answers boxed_tree result (made_of (tree.join (operands_of (operands_view operands)) spec) structure) }
{
    made_node(alloc, structure, NodeForm::Join { operands, spec })
}

/// The joined set. The names after `using` break `UnknownComponent`, `RepeatedName`, `WrongRole` and `JoinMisuse`, the
/// operands `IdentifiersDisagree`, and the result `RepeatedComponent` and `ComponentCount`.
#[tactic(auto, unfolding(crate::specs::JoinOperands::joined_node))]
pub fn joined_node(
    alloc: Global,
    kind: JoinKind,
    using: &Option<List<Comp>>,
    operands: Vec<JoinOperand>,
) -> Result<Box<Node>, TypeErr>
    ensures { Answers boxed_tree result (joined_node kind «using».now (operands_view operands)) }
{
    let listed = listed_names(alloc, using)?;
    let structure = join_structure(alloc, kind, &listed, &operands)?;
    made_join(
        alloc,
        structure,
        JoinSpec {
            kind,
            using: listed,
        },
        operands,
    )
}

fn is_left(components: &[Component], renaming: &Renaming) -> bool
    ensures { result ≡ is_left components.now renaming.now }
{
    component_of(&renaming.from, components).is_some()
}

fn left_names(
    alloc: Global,
    joined: &Joined,
    components: &[Component],
) -> Result<Vec<Renaming>, AllocError>
    ensures { IfOk result (λ v. v.items ≡ left_names joined.now components.now) }
{
    let mut renamings = last_renamings(
        alloc,
        joined.kind,
        joined.held.as_slice(),
        joined.operands.as_slice(),
    )?;
    renamings.retain(|renaming| is_left(components, renaming));
    Ok(renamings)
}

/// The final naming of a join, which every join has: each name that still has an alias loses it. It breaks
/// `RepeatedComponent`.
#[tactic(auto, unfolding(crate::specs::JoinOperands::last_naming))]
pub fn last_naming(alloc: Global, joined: &Joined, operand: Box<Node>) -> Result<Box<Node>, TypeErr>
    ensures { Answers boxed_tree result (last_naming joined.now (boxed_tree operand)) }
{
    let renamings = left_names(alloc, joined, operand.structure.components.as_slice())?;
    renamed(alloc, operand, renamings)
}
