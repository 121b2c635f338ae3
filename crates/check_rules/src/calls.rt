// What calls of rulesets ask of their operand, and the structures that they give.
ghost use Rattle.std.specs.Prelude.{◌≡◌, ◌++◌, ◌∷◌, [], IfOk, OnOk, map};
ghost use Rattle.vtl_tree.specs.Checks.{ruleid as ruleid_component, uncoded, without_codes};
ghost use Rattle.vtl_tree.specs.Columns.{identifiers_of};
ghost use Rattle.vtl_tree.specs.Names.{name_of};
ghost use Rattle.vtl_tree.specs.Shown.{shown};
ghost use Rattle.check_faults.specs.Answers.{Answers};
ghost use Rattle.check_rules.specs.Calls.{hierarchy_checked, hierarchy_made, is_of_items, itemized, point_checked, variables_known};

use crate::components::{push_errors, push_imbalance, push_output, push_ruleid};
use crate::names::names_of;
use check_faults::{Rule, TypeErr, broken};
use check_shapes::{check_names, shaped};
use std::alloc::{AllocError, Global};
use vtl_cell::{Kind, is_same_kind};
use vtl_syntax::{CheckOut, Comp};
use vtl_text::{List, Txt};
use vtl_tree::{
    Component, Structure, Wanted, component_of, has_one_measure, is_identifier, push_identifiers,
    push_measures, share_component,
};

/// The names of the variables of a datapoint ruleset, which are components of the operand: the first that is none
/// breaks `UnknownComponent`, and one that stands there already `RepeatedName`.
pub fn variables_known(
    alloc: Global,
    variables: &[Comp],
    structure: &Structure,
) -> Result<List<Txt>, TypeErr>
    ensures { Answers (λ names. names) result (variables_known (map name_of variables.now) structure.now) }
{
    let names = names_of(alloc, variables)?;
    check_names(Wanted::Any, structure.components.as_slice(), &names)?;
    Ok(List::of(names))
}

// Adds the identifiers of an operand.
#[tactic(auto, using(crate::proofs::Columns::identifiers_alone))]
fn push_identifiers_of(out: &mut Vec<Component>, structure: &Structure) -> Result<(), AllocError>
    ensures { OnOk result (out.new.items ≡ out.old.items ++ identifiers_of structure.now) }
{
    push_identifiers(out, &[], structure.components.as_slice())
}

// Adds the identifiers of a check: those of the operand, then that of rules.
fn push_checked(
    alloc: Global,
    out: &mut Vec<Component>,
    structure: &Structure,
) -> Result<(), AllocError>
    ensures { OnOk result (out.new.items ≡ out.old.items ++ (identifiers_of structure.now ++ ruleid_component ∷ [])) }
{
    push_identifiers_of(out, structure)?;
    push_ruleid(alloc, out)
}

/// The structure of `check_datapoint`: the identifiers of the operand and of rules, then what the output shows.
pub fn point_checked(
    alloc: Global,
    output: CheckOut,
    structure: &Structure,
) -> Result<Structure, TypeErr>
    ensures { Answers (λ s. s) result (point_checked output structure.now) }
{
    let mut out = Vec::new(alloc);
    push_checked(alloc, &mut out, structure)?;
    push_output(alloc, &mut out, output, structure)?;
    push_errors(alloc, &mut out)?;
    shaped(alloc, out)
}

// Whether the values of a component are items.
fn is_of_items(component: &Component) -> bool
    ensures { result ≡ is_of_items component.now }
{
    is_identifier(component) && is_same_kind(component.kind, Kind::Text)
}

// The variable of a hierarchical ruleset at its operand.
fn itemized(variable: &Txt, structure: &Structure) -> Result<(), TypeErr>
    ensures { Answers (λ done. done) result (itemized variable.now structure.now) }
{
    let components = structure.components.as_slice();
    let Some(component) = component_of(variable, components) else {
        return Err(TypeErr::Broken(Rule::UnknownComponent));
    };
    broken(Rule::WrongRole, !is_of_items(component))?;
    broken(
        Rule::MeasuresDisagree,
        !has_one_measure(Kind::Num, components),
    )
}

// A component, without its codes where it has this name.
fn uncoded(name: &Txt, component: &Component) -> Result<Component, AllocError>
    ensures { IfOk result (λ x. x ≡ uncoded name.now component.now) }
{
    if component.name == *name {
        return Ok(Component {
            name: component.name.share()?,
            role: component.role,
            kind: component.kind,
            codes: None,
        });
    }
    share_component(component)
}

// Components, without codes where they have this name.
fn without_codes(
    alloc: Global,
    name: &Txt,
    components: &[&Component],
) -> Result<Vec<Component>, AllocError>
    ensures { IfOk result (λ v. v.items ≡ without_codes name.now (shown components.now)) }
{
    let mut same = Vec::with_capacity(alloc, components.len())?;
    for component in components {
        same.push(uncoded(name, component)?)?;
    }
    Ok(same)
}

// The identifiers of an operand, of which the one of items has no codes.
fn items_uncoded(
    alloc: Global,
    variable: &Txt,
    structure: &Structure,
) -> Result<Vec<Component>, AllocError>
    ensures { IfOk result (λ v. v.items ≡ without_codes variable.now (identifiers_of structure.now)) }
{
    let identifiers = structure.identifiers(alloc)?;
    without_codes(alloc, variable, &identifiers)
}

/// The structure of `check_hierarchy`: the identifiers of the operand, of which that of items loses its codes, and of rules,
/// then what the output shows, with the imbalance. It breaks `UnknownComponent` where the variable is no component of the operand, `WrongRole` where it is no
/// identifier of texts, and `MeasuresDisagree` where the operand does not have exactly one measure that is a number.
pub fn hierarchy_checked(
    alloc: Global,
    output: CheckOut,
    variable: &Txt,
    structure: &Structure,
) -> Result<Structure, TypeErr>
    ensures { Answers (λ s. s) result (hierarchy_checked output variable.now structure.now) }
{
    itemized(variable, structure)?;
    let mut out = items_uncoded(alloc, variable, structure)?;
    push_ruleid(alloc, &mut out)?;
    push_output(alloc, &mut out, output, structure)?;
    push_imbalance(alloc, &mut out)?;
    push_errors(alloc, &mut out)?;
    shaped(alloc, out)
}

/// The structure of `hierarchy`: the identifiers of the operand, of which that of items loses its codes, and its measure. It breaks the rules that
/// `hierarchy_checked` breaks for its variable and its operand.
pub fn hierarchy_made(
    alloc: Global,
    variable: &Txt,
    structure: &Structure,
) -> Result<Structure, TypeErr>
    ensures { Answers (λ s. s) result (hierarchy_made variable.now structure.now) }
{
    itemized(variable, structure)?;
    let mut out = items_uncoded(alloc, variable, structure)?;
    push_measures(&mut out, structure.components.as_slice())?;
    shaped(alloc, out)
}
