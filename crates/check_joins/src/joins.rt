// Joins: which operands go together.
ghost use Rattle.std.specs.List.{list_all, list_any};
ghost use Rattle.std.specs.Option.{option_copied};
ghost use Rattle.std.specs.Prelude.{◌≡◌, [], false, filter, is_some, unwrap_or};
ghost use Rattle.check_faults.specs.Answers.{Answers};
ghost use Rattle.check_faults.specs.InTurn.{in_turn};
ghost use Rattle.vtl_tree.specs.Choices.{is_identifier as is_id, is_identifier_name as is_id_name};
ghost use Rattle.vtl_tree.specs.Names.{component_of as component_named, is_among as among};
ghost use Rattle.vtl_tree.specs.Joins.{agrees, all_go_with, clashes, containing, contains_all, go_together, goes_with, is_cross, is_exactly, reference, taken, takes_using};
ghost use Rattle.check_joins.specs.Joins.{is_misused, using_form, using_name};

use check_faults::{Rule, TypeErr, broken};
use vtl_syntax::JoinKind;
use vtl_text::Txt;
use vtl_tree::{
    Compared, Component, Operand, Role, Structure, agree, component_of, contains, is_among,
    is_identifier, is_identifier_name,
};

pub(crate) fn is_cross(kind: JoinKind) -> bool
    ensures { result ≡ is_cross kind }
{
    match kind {
        JoinKind::Cross => true,
        _ => false,
    }
}

fn contains_all(operand: &Operand, operands: &[Operand]) -> bool
    ensures { result ≡ contains_all operands.now operand.now }
{
    for other in operands {
        if !contains(&operand.structure, &other.structure) {
            return false;
        }
    }
    true
}

// The first operand whose identifiers contain those of every other one. An operand that does not contain another gives
// way to it: if any contains all, the first such operand is the one that is left.
fn containing(operands: &[Operand]) -> Option<&Operand>
    ensures { option_copied result ≡ containing operands.now }
{
    let mut left = operands.first()?;
    for operand in operands {
        if !contains(&left.structure, &operand.structure) {
            left = operand;
        }
    }
    if contains_all(left, operands) {
        Some(left)
    } else {
        None
    }
}

pub(crate) fn reference(kind: JoinKind, operands: &[Operand]) -> Option<&Operand>
    ensures { option_copied result ≡ reference kind operands.now }
{
    match kind {
        JoinKind::Inner => containing(operands),
        _ => operands.first(),
    }
}

fn are_among(names: &[Txt], components: &[Component]) -> bool
    ensures { result ≡ list_all (λ x. among x.name names.now) (filter is_id components.now) }
{
    for component in components {
        if is_identifier(component) && !is_among(&component.name, names) {
            return false;
        }
    }
    true
}

fn are_identifiers(components: &[Component], names: &[Txt]) -> bool
    ensures { result ≡ list_all (is_id_name components.now) names.now }
{
    for name in names {
        if !is_identifier_name(components, name) {
            return false;
        }
    }
    true
}

fn is_exactly(names: &[Txt], components: &[Component]) -> bool
    ensures { result ≡ is_exactly names.now components.now }
{
    are_among(names, components) && are_identifiers(components, names)
}

fn any_clashes(reference: &[Component], components: &[Component]) -> bool
    ensures { result ≡ list_any (clashes reference.now) components.now }
{
    for component in components {
        if !is_identifier(component) && is_identifier_name(reference, &component.name) {
            return true;
        }
    }
    false
}

fn agrees(
    kind: JoinKind,
    listed: Option<&[Txt]>,
    reference: &Structure,
    structure: &Structure,
) -> bool
    ensures { result ≡ agrees kind (option_copied listed.entry) reference.now structure.now }
{
    let components = structure.components.as_slice();
    match (kind, listed) {
        (_, Some(names)) => contains(reference, structure) && is_exactly(names, components),
        (JoinKind::Inner, None) => contains(reference, structure),
        (_, None) => agree(
            Compared::Kinds,
            Role::Identifier,
            reference.components.as_slice(),
            components,
        ),
    }
}

fn goes_with(
    kind: JoinKind,
    listed: Option<&[Txt]>,
    reference: &Structure,
    operand: &Operand,
) -> bool
    ensures { result ≡ goes_with kind (option_copied listed.entry) reference.now operand.now }
{
    let components = operand.structure.components.as_slice();
    agrees(kind, listed, reference, &operand.structure)
        && !any_clashes(reference.components.as_slice(), components)
}

fn all_go_with(
    kind: JoinKind,
    listed: Option<&[Txt]>,
    reference: &Operand,
    operands: &[Operand],
) -> bool
    ensures { result ≡ all_go_with kind (option_copied listed.entry) reference.now operands.now }
{
    for operand in operands {
        if operand.alias != reference.alias
            && !goes_with(kind, listed, &reference.structure, operand)
        {
            return false;
        }
    }
    true
}

/// Whether there is a reference, and every other operand goes with it; in a cross join all go together.
pub(crate) fn go_together(kind: JoinKind, listed: Option<&[Txt]>, operands: &[Operand]) -> bool
    ensures { result ≡ go_together kind (option_copied listed.entry) operands.now }
{
    match reference(kind, operands) {
        Some(reference) => is_cross(kind) || all_go_with(kind, listed, reference, operands),
        None => false,
    }
}

fn any_has(operands: &[Operand], name: &Txt) -> bool
    ensures { result ≡ list_any (λ o. is_some (component_named name.now o.structure.components)) operands.now }
{
    for operand in operands {
        if component_of(name, operand.structure.components.as_slice()).is_some() {
            return true;
        }
    }
    false
}

fn any_identifies(operands: &[Operand], name: &Txt) -> bool
    ensures { result ≡ list_any (λ o. is_id_name o.structure.components name.now) operands.now }
{
    for operand in operands {
        if is_identifier_name(operand.structure.components.as_slice(), name) {
            return true;
        }
    }
    false
}

fn check_using_name(operands: &[Operand], before: &[Txt], name: &Txt) -> Result<(), TypeErr>
    ensures { Answers (λ done. name.now) result (using_name operands.now before.now name.now) }
{
    broken(Rule::UnknownComponent, !any_has(operands, name))?;
    broken(Rule::RepeatedName, is_among(name, before))?;
    broken(Rule::WrongRole, !any_identifies(operands, name))?;
    Ok(())
}

fn check_using_names(operands: &[Operand], names: &[Txt]) -> Result<(), TypeErr>
    ensures { Answers (λ done. names.now) result (in_turn (using_name operands.now) [] names.now) }
{
    for i in 0..names.len() {
        check_using_name(operands, &names[..i], &names[i])?;
    }
    Ok(())
}

fn takes_using(kind: JoinKind) -> bool
    ensures { result ≡ takes_using kind }
{
    match kind {
        JoinKind::Inner | JoinKind::Left => true,
        JoinKind::Full | JoinKind::Cross => false,
    }
}

/// The names after `using`: a name breaks `UnknownComponent` where no operand has it, `RepeatedName` where it stands
/// there already, and `WrongRole` where it is never an identifier.
pub(crate) fn check_using(operands: &[Operand], listed: Option<&[Txt]>) -> Result<(), TypeErr>
    ensures { Answers (λ done. unwrap_or (option_copied listed.entry) []) result (using_form operands.now (option_copied listed.entry)) }
{
    match listed {
        Some(names) => check_using_names(operands, names),
        None => Ok(()),
    }
}

/// The names by which operands go together: a join that takes no `using` goes by all identifiers.
pub(crate) fn taken(kind: JoinKind, listed: Option<&[Txt]>) -> Option<&[Txt]>
    ensures { option_copied result ≡ taken kind (option_copied listed.entry) }
{
    if takes_using(kind) { listed } else { None }
}

/// Whether `using` stands on a join that takes none.
pub(crate) fn is_misused(kind: JoinKind, listed: Option<&[Txt]>) -> bool
    ensures { result ≡ is_misused kind (option_copied listed.entry) }
{
    listed.is_some() && !takes_using(kind)
}
