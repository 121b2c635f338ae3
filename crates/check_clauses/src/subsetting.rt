// The clause `sub`.
ghost use Rattle.std.specs.Prelude.{◌≡◌, [], IfOk};
ghost use Rattle.check_faults.specs.Answers.{Answers};
ghost use Rattle.vtl_tree.specs.Choices.{chosen};
ghost use Rattle.check_shapes.specs.Shape.{shaped};
ghost use Rattle.check_values.specs.Literals.{literal_cell, valued};
ghost use Rattle.check_operators.specs.Typed.{boxed_tree};
ghost use Rattle.check_clauses.specs.Clauses.{cell_as, sub_form, sub_known, sub_names, sub_of, sub_value, subs_typed};

use check_faults::{Rule, TypeErr};
use check_operators::made_node;
use check_shapes::{choose, known};
use check_values::{kind_met, literal, literal_kind, name};
use std::alloc::{AllocError, Global};
use vtl_cell::{Cell, Kind};
use vtl_decimal::Profile;
use vtl_scalar::to_kind;
use vtl_syntax::{Literal, SubPart};
use vtl_text::{List, Txt};
use vtl_tree::{Choice, Component, Node, NodeForm, Structure, SubItem, Wanted};

// The value of a literal as one of a kind.
fn literal_as(
    alloc: Global,
    profile: &Profile,
    kind: Kind,
    written: &Literal,
) -> Result<Cell, TypeErr>
    ensures { Answers (λ cell. cell) result (valued (cell_as profile.now kind (literal_cell profile.now written.now))) }
{
    match to_kind(kind, literal(alloc, profile, written)?, profile) {
        Ok(cell) => Ok(cell),
        Err(_) => Err(TypeErr::Broken(Rule::WrongLiteral)),
    }
}

// The value of an identifier: a literal of its kind that has a value.
fn sub_value(
    alloc: Global,
    profile: &Profile,
    kind: Kind,
    written: &Literal,
) -> Result<Cell, TypeErr>
    ensures { Answers (λ cell. cell) result (sub_value profile.now kind written.now) }
{
    kind_met(kind, literal_kind(written))?;
    literal_as(alloc, profile, kind, written)
}

// An identifier with its value, after others with these names.
#[tactic(auto, unfolding(crate::specs::Clauses::sub_known))]
fn sub_known(
    alloc: Global,
    profile: &Profile,
    components: &[Component],
    before: &[Txt],
    part: &SubPart,
) -> Result<SubItem, TypeErr>
    ensures { Answers (λ item. item) result (sub_known profile.now components.now before.now part.now) }
{
    let id = name(&part.component);
    let kind = known(Wanted::Identifier, components, before, id)?.kind;
    let value = sub_value(alloc, profile, kind, &part.value)?;
    Ok(SubItem {
        id: id.share()?,
        value,
    })
}

fn subs_typed(
    alloc: Global,
    profile: &Profile,
    components: &[Component],
    parts: &[SubPart],
) -> Result<Vec<SubItem>, TypeErr>
    ensures { Answers (λ items. items.items) result (subs_typed profile.now components.now parts.now) }
{
    let mut names = Vec::new(alloc);
    let mut items = Vec::new(alloc);
    for part in parts {
        let item = sub_known(alloc, profile, components, &names, part)?;
        names.push(item.id.share()?)?;
        items.push(item)?;
    }
    Ok(items)
}

fn names_of(alloc: Global, items: &[SubItem]) -> Result<Vec<Txt>, AllocError>
    ensures { IfOk result (λ names. names.items ≡ sub_names items.now) }
{
    let mut names = Vec::new(alloc);
    for item in items {
        names.push(item.id.share()?)?;
    }
    Ok(names)
}

// The structure without the identifiers.
fn structure_without(
    alloc: Global,
    structure: &Structure,
    items: &[SubItem],
) -> Result<Structure, TypeErr>
    ensures { Answers (λ s. s) result (shaped (chosen Choice.Drop (sub_names items.now) structure.now.components)) }
{
    let names = names_of(alloc, items)?;
    choose(alloc, Choice::Drop, structure, &names)
}

// The data set without the identifiers.
fn subset(alloc: Global, operand: Box<Node>, items: Vec<SubItem>) -> Result<Box<Node>, TypeErr>
    ensures { Answers boxed_tree result (sub_of (boxed_tree operand) items.items) }
{
    let structure = structure_without(alloc, &operand.structure, &items)?;
    let values = List::of(items);
    made_node(alloc, structure, NodeForm::Sub { a: operand, values })
}

/// `sub`. A name breaks `UnknownComponent`, `RepeatedName` and `WrongRole`, a literal `WrongKind` and `WrongLiteral`,
/// and the clause `ComponentCount` where nothing is left.
#[tactic(auto, unfolding(crate::specs::Clauses::sub_form))]
pub fn sub(
    alloc: Global,
    profile: &Profile,
    operand: Box<Node>,
    parts: &[SubPart],
) -> Result<Box<Node>, TypeErr>
    ensures { Answers boxed_tree result (sub_form profile.now (boxed_tree operand) parts.now) }
{
    let components = operand.structure.components.as_slice();
    let items = subs_typed(alloc, profile, components, parts)?;
    subset(alloc, operand, items)
}
