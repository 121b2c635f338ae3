// How the points of a data set form groups.
ghost use Rattle.std.specs.Prelude.{◌≡◌, IfOk, map};
ghost use Rattle.check_faults.specs.Answers.{Answers};
ghost use Rattle.vtl_tree.specs.Choices.{chosen};
ghost use Rattle.vtl_tree.specs.Structure.{names_of};
ghost use Rattle.vtl_tree.specs.Names.{name_of};
ghost use Rattle.check_values.specs.Groupings.{choice_of, grouping_choice, grouping_names, grouping_of, grouping_typed};

use crate::name;
use check_faults::TypeErr;
use check_shapes::check_names;
use std::alloc::{AllocError, Global};
use vtl_syntax::{Comp, GroupKind, GroupPart};
use vtl_text::{List, Txt};
use vtl_tree::{Choice, Component, Wanted, is_chosen};

fn choice_of(kind: GroupKind) -> Choice
    ensures { result ≡ choice_of kind }
{
    match kind {
        GroupKind::By => Choice::By,
        GroupKind::Except => Choice::Except,
    }
}

/// Whether the names of a grouping stay or go; without names no identifier stays.
pub fn grouping_choice(group: &Option<GroupPart>) -> Choice
    ensures { result ≡ grouping_choice group.now }
{
    match group {
        Some(group) => choice_of(group.kind),
        None => Choice::By,
    }
}

fn names_of(alloc: Global, components: &[Comp]) -> Result<Vec<Txt>, AllocError>
    ensures { IfOk result (λ names. names.items ≡ map name_of components.now) }
{
    let mut names = Vec::new(alloc);
    for component in components {
        names.push(name(component).share()?)?;
    }
    Ok(names)
}

/// The names of a grouping, as they are written.
pub fn grouping_names(alloc: Global, group: &Option<GroupPart>) -> Result<Vec<Txt>, AllocError>
    ensures { IfOk result (λ names. names.items ≡ grouping_names group.now) }
{
    match group {
        Some(group) => names_of(alloc, group.names.as_slice()),
        None => Ok(Vec::new(alloc)),
    }
}

fn chosen_names(
    alloc: Global,
    choice: Choice,
    names: &[Txt],
    components: &[Component],
) -> Result<Vec<Txt>, AllocError>
    ensures { IfOk result (λ out. out.items ≡ names_of (chosen choice names.now components.now)) }
{
    let mut out = Vec::new(alloc);
    for component in components {
        if is_chosen(choice, names, component) {
            out.push(component.name.share()?)?;
        }
    }
    Ok(out)
}

/// The identifiers by which groups are formed, where the names of the grouping are known to be right.
pub fn grouping_of(
    alloc: Global,
    components: &[Component],
    group: &Option<GroupPart>,
) -> Result<List<Txt>, AllocError>
    ensures { IfOk result (λ names. names ≡ grouping_of group.now components.now) }
{
    let names = grouping_names(alloc, group)?;
    let chosen = chosen_names(alloc, grouping_choice(group), &names, components)?;
    Ok(List::of(chosen))
}

/// The identifiers by which groups are formed, in the operand's order. A name breaks `UnknownComponent`, `RepeatedName`
/// and `WrongRole`.
pub fn grouping(
    alloc: Global,
    components: &[Component],
    group: &Option<GroupPart>,
) -> Result<List<Txt>, TypeErr>
    ensures { Answers (λ names. names) result (grouping_typed components.now group.now) }
{
    let names = grouping_names(alloc, group)?;
    check_names(Wanted::Identifier, components, &names)?;
    Ok(grouping_of(alloc, components, group)?)
}
