// Names of components, as an operator asks for them.
ghost use Rattle.check_faults.specs.Answers.{Answers};
ghost use Rattle.check_shapes.specs.Names.{all_known, known};

use check_faults::{Rule, TypeErr, broken};
use vtl_text::Txt;
use vtl_tree::{Component, Wanted, component_of, is_among, serves};

/// The component that a name stands for after other names. The name breaks `UnknownComponent` where there is no such
/// component, `RepeatedName` where it stands there already, and `WrongRole` where the component's role is not the
/// wanted one.
pub fn known<'a>(
    wanted: Wanted,
    components: &'a [Component],
    before: &[Txt],
    name: &Txt,
) -> Result<&'a Component, TypeErr>
    ensures { Answers (λ x. x.now) result (known wanted components.now before.now name.now) }
{
    let Some(component) = component_of(name, components) else {
        return Err(TypeErr::Broken(Rule::UnknownComponent));
    };
    broken(Rule::RepeatedName, is_among(name, before))?;
    broken(Rule::WrongRole, !serves(wanted, component.role))?;
    Ok(component)
}

/// Names in written order: the rule that the first wrong one breaks, as `known` says.
pub fn check_names(wanted: Wanted, components: &[Component], names: &[Txt]) -> Result<(), TypeErr>
    ensures { Answers (λ done. names.now) result (all_known wanted components.now names.now) }
{
    for i in 0..names.len() {
        known(wanted, components, &names[..i], &names[i])?;
    }
    Ok(())
}
