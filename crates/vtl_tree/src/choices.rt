// Components that are chosen by their roles and names.
ghost use Rattle.std.specs.Prelude.{◌≡◌, ◌++◌, OnErr, OnOk};
ghost use Rattle.vtl_tree.specs.Choices.{chosen, is_chosen, is_identifier, is_identifier_name};

use crate::copies::push_copy;
use crate::{Component, Role, component_of, is_among, is_same_role};
use std::alloc::AllocError;
use vtl_text::Txt;

/// Which components of an operand stay, by names that are listed.
#[derive(Clone, Copy, Debug, PartialEq, Eq)]
pub enum Choice {
    /// The identifiers, and what is listed: `keep`, `#`.
    Keep,
    /// What is not listed: `drop`, `sub`.
    Drop,
    /// The identifiers that are listed: `group by`.
    By,
    /// The identifiers that are not listed: `group except`, `pivot`.
    Except,
}

/// Whether a component is an identifier.
pub fn is_identifier(component: &Component) -> bool
    ensures { result ≡ is_identifier component.now }
{
    is_same_role(component.role, Role::Identifier)
}

/// Whether the component of this name is an identifier.
pub fn is_identifier_name(components: &[Component], name: &Txt) -> bool
    ensures { result ≡ is_identifier_name components.now name.now }
{
    match component_of(name, components) {
        Some(component) => is_identifier(component),
        None => false,
    }
}

/// Whether a component is one of those that are chosen.
pub fn is_chosen(choice: Choice, names: &[Txt], component: &Component) -> bool
    ensures { result ≡ is_chosen choice names.now component.now }
{
    match choice {
        Choice::Keep => is_identifier(component) || is_among(&component.name, names),
        Choice::Drop => !is_among(&component.name, names),
        Choice::By => is_identifier(component) && is_among(&component.name, names),
        Choice::Except => is_identifier(component) && !is_among(&component.name, names),
    }
}

/// Adds the chosen components, in their order. If memory runs out, `out` is left as it was.
pub fn push_chosen(
    out: &mut Vec<Component>,
    choice: Choice,
    names: &[Txt],
    components: &[Component],
) -> Result<(), AllocError>
    ensures ok { OnOk result (out.new.items ≡ out.old.items ++ chosen choice names.now components.now) }
    ensures err { OnErr result (out.new.items ≡ out.old.items) }
{
    let before = out.len();
    for component in components {
        if is_chosen(choice, names, component) {
            if let Err(error) = push_copy(out, component) {
                out.truncate(before);
                return Err(error);
            }
        }
    }
    Ok(())
}
