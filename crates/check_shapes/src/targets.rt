// The clauses `calc` and `aggr`.
ghost use Rattle.std.specs.Option.{option_copied};
ghost use Rattle.std.specs.Prelude.{◌≡◌, ◌++◌, IfOk, OnOk, map, filter};
ghost use Rattle.check_faults.specs.Answers.{Answers};
ghost use Rattle.vtl_tree.specs.ClauseShapes.{calculated, is_new, target_component, target_of};
ghost use Rattle.check_shapes.specs.Clauses.{aggr_form, calc_form};

use crate::measures::made;
use crate::shaped;
use check_faults::TypeErr;
use std::alloc::{AllocError, Global};
use vtl_text::Txt;
use vtl_tree::{
    Choice, Component, Role, Structure, Target, component_of, push_chosen, share_component,
};

fn target_of<'a>(name: &Txt, targets: &'a [Target]) -> Option<&'a Target>
    ensures { option_copied result ≡ target_of name.now targets.now }
{
    for target in targets {
        if target.name == *name {
            return Some(target);
        }
    }
    None
}

fn calculated(targets: &[Target], component: &Component) -> Result<Component, AllocError>
    ensures { IfOk result (λ x. x ≡ calculated targets.now component.now) }
{
    match target_of(&component.name, targets) {
        Some(target) => made(
            &component.name,
            target.role.unwrap_or(component.role),
            target.kind,
        ),
        None => share_component(component),
    }
}

fn push_calculated(
    out: &mut Vec<Component>,
    targets: &[Target],
    components: &[Component],
) -> Result<(), AllocError>
    ensures { OnOk result (out.new.items ≡ out.old.items ++ map (calculated targets.now) components.now) }
{
    for component in components {
        out.push(calculated(targets, component)?)?;
    }
    Ok(())
}

fn target_component(target: &Target) -> Result<Component, AllocError>
    ensures { IfOk result (λ x. x ≡ target_component target.now) }
{
    made(
        &target.name,
        target.role.unwrap_or(Role::Measure),
        target.kind,
    )
}

fn push_new(
    out: &mut Vec<Component>,
    components: &[Component],
    targets: &[Target],
) -> Result<(), AllocError>
    ensures { OnOk result (out.new.items ≡ out.old.items ++ map target_component (filter (is_new components.now) targets.now)) }
{
    for target in targets {
        if component_of(&target.name, components).is_none() {
            out.push(target_component(target)?)?;
        }
    }
    Ok(())
}

fn push_targets(out: &mut Vec<Component>, targets: &[Target]) -> Result<(), AllocError>
    ensures { OnOk result (out.new.items ≡ out.old.items ++ map target_component targets.now) }
{
    for target in targets {
        out.push(target_component(target)?)?;
    }
    Ok(())
}

/// What `calc` gives with targets whose names are apart: a target that exists already keeps its place, and its
/// role where none is written; a new one goes last.
pub fn calc(alloc: Global, structure: &Structure, targets: &[Target]) -> Result<Structure, TypeErr>
    ensures { Answers (λ s. s) result (calc_form targets.now structure.now.components) }
{
    let components = structure.components.as_slice();
    let mut out = Vec::new(alloc);
    push_calculated(&mut out, targets, components)?;
    push_new(&mut out, components, targets)?;
    shaped(alloc, out)
}

/// What `aggr` gives: the identifiers that are chosen, and then the targets.
pub fn aggr(
    alloc: Global,
    choice: Choice,
    names: &[Txt],
    structure: &Structure,
    targets: &[Target],
) -> Result<Structure, TypeErr>
    ensures { Answers (λ s. s) result (aggr_form choice names.now targets.now structure.now.components) }
{
    let mut out = Vec::new(alloc);
    push_chosen(&mut out, choice, names, structure.components.as_slice())?;
    push_targets(&mut out, targets)?;
    shaped(alloc, out)
}
