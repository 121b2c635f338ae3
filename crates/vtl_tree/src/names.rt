// Names of components, and the roles that places ask for.
ghost use Rattle.std.specs.Option.{option_copied};
ghost use Rattle.std.specs.Prelude.{◌≡◌};
ghost use Rattle.vtl_tree.specs.Names.{component_of, is_among, serves};

use crate::{Component, Role, is_same_role};
use vtl_text::Txt;

/// The role that a place asks of a component.
#[derive(Clone, Copy, Debug, PartialEq, Eq)]
pub enum Wanted {
    /// Any role.
    Any,
    /// An identifier.
    Identifier,
    /// A measure.
    Measure,
    /// A measure or an attribute.
    Value,
}

/// Whether a name is among others.
pub fn is_among(name: &Txt, names: &[Txt]) -> bool
    ensures { result ≡ is_among name.now names.now }
{
    names.contains(name)
}

/// The component of this name.
pub fn component_of<'a>(name: &Txt, components: &'a [Component]) -> Option<&'a Component>
    ensures { option_copied result ≡ component_of name.now components.now }
{
    for component in components {
        if component.name == *name {
            return Some(component);
        }
    }
    None
}

/// Whether a role serves at a place.
pub fn serves(wanted: Wanted, role: Role) -> bool
    ensures { result ≡ serves wanted role }
{
    match wanted {
        Wanted::Any => true,
        Wanted::Identifier => is_same_role(role, Role::Identifier),
        Wanted::Measure => is_same_role(role, Role::Measure),
        Wanted::Value => !is_same_role(role, Role::Identifier),
    }
}
