// Components of several operands.
ghost use Rattle.std.specs.List.{list_all};
ghost use Rattle.std.specs.Prelude.{◌≡◌, ◌++◌, ◌∷◌, [], IfOk, OnErr, OnOk};
ghost use Rattle.vtl_tree.specs.Shown.{shown};
ghost use Rattle.vtl_tree.specs.Operands.{agree, all_meet, agreed, agreed_identifiers, all_agree, has_one_measure, is_alike, is_coded_alike, is_there, is_within, same_codes};

use crate::{
    Component, Role, Structure, component_of, count_measures, is_identifier, is_measure,
    is_same_role, share_component,
};
use std::alloc::AllocError;
use vtl_cell::{Kind, is_same_kind, meets};
use vtl_text::{Shared, Txt};

/// How components of two operands are compared.
#[derive(Clone, Copy, Debug, PartialEq, Eq)]
pub enum Compared {
    /// By their names alone.
    Names,
    /// By their names and kinds.
    Kinds,
}

fn is_alike(compared: Compared, a: &Component, b: &Component) -> bool
    ensures { result ≡ is_alike compared a.now b.now }
{
    match compared {
        Compared::Names => is_same_role(a.role, b.role),
        Compared::Kinds => is_same_role(a.role, b.role) && is_same_kind(a.kind, b.kind),
    }
}

/// Whether a component like this one is among the others.
pub fn is_there(compared: Compared, others: &[Component], component: &Component) -> bool
    ensures { result ≡ is_there compared others.now component.now }
{
    match component_of(&component.name, others) {
        Some(other) => is_alike(compared, component, other),
        None => false,
    }
}

/// Whether each component of the role is among the others.
pub fn is_within(
    compared: Compared,
    role: Role,
    components: &[Component],
    others: &[Component],
) -> bool
    ensures { result ≡ is_within compared role components.now others.now }
{
    for component in components {
        if is_same_role(component.role, role) && !is_there(compared, others, component) {
            return false;
        }
    }
    true
}

/// Whether two operands have the same components of a role.
pub fn agree(compared: Compared, role: Role, left: &[Component], right: &[Component]) -> bool
    ensures { result ≡ agree compared role left.now right.now }
{
    is_within(compared, role, left, right) && is_within(compared, role, right, left)
}

/// Whether all operands have the same components of a role as the first one.
pub fn all_agree(compared: Compared, role: Role, first: &[Component], others: &[&Structure]) -> bool
    ensures { result ≡ all_agree compared role first.now (shown others.now) }
{
    for other in others {
        if !agree(compared, role, first, other.components.as_slice()) {
            return false;
        }
    }
    true
}

fn is_same_codes(a: &Option<Shared<Txt>>, b: &Option<Shared<Txt>>) -> bool
    ensures { result ≡ same_codes a.now b.now }
{
    match (a, b) {
        (None, None) => true,
        (Some(a), Some(b)) => a.as_slice() == b.as_slice(),
        _ => false,
    }
}

fn is_coded_alike(component: &Component, others: &[Component]) -> bool
    ensures { result ≡ is_coded_alike component.now others.now }
{
    match component_of(&component.name, others) {
        Some(other) => !is_identifier(other) || is_same_codes(&component.codes, &other.codes),
        None => true,
    }
}

fn are_coded_alike(component: &Component, others: &[&Structure]) -> bool
    ensures { result ≡ list_all (λ s. is_coded_alike component.now s.components) (shown others.now) }
{
    for other in others {
        if !is_coded_alike(component, other.components.as_slice()) {
            return false;
        }
    }
    true
}

fn agreed(others: &[&Structure], component: &Component) -> Result<Component, AllocError>
    ensures { IfOk result (λ x. x ≡ agreed (shown others.now) component.now) }
{
    if are_coded_alike(component, others) {
        return share_component(component);
    }
    Ok(Component {
        name: component.name.share()?,
        role: component.role,
        kind: component.kind,
        codes: None,
    })
}

// Puts a component behind others, with the codes that all operands agree on; if memory runs out, the others are left as
// they are.
fn push_agreed(
    out: &mut Vec<Component>,
    others: &[&Structure],
    component: &Component,
) -> Result<(), AllocError>
    ensures ok { OnOk result (out.new.items ≡ out.old.items ++ agreed (shown others.now) component.now ∷ []) }
    ensures err { OnErr result (out.new.items ≡ out.old.items) }
{
    out.push(agreed(others, component)?)?;
    Ok(())
}

/// Adds the identifiers, with the codes that all operands agree on. If memory runs out, `out` is left as it was.
pub fn push_identifiers(
    out: &mut Vec<Component>,
    others: &[&Structure],
    components: &[Component],
) -> Result<(), AllocError>
    ensures ok { OnOk result (out.new.items ≡ out.old.items ++ agreed_identifiers (shown others.now) components.now) }
    ensures err { OnErr result (out.new.items ≡ out.old.items) }
{
    let before = out.len();
    for component in components {
        if is_identifier(component) {
            if let Err(error) = push_agreed(out, others, component) {
                out.truncate(before);
                return Err(error);
            }
        }
    }
    Ok(())
}

/// Whether each measure has a kind that may stand where the wanted one is.
#[tactic(auto, unfolding(crate::specs::Operands::all_meet))]
pub fn all_meet(kind: Kind, components: &[Component]) -> bool
    ensures { result ≡ all_meet kind components.now }
{
    for component in components {
        if is_measure(component) && !meets(kind, component.kind) {
            return false;
        }
    }
    true
}

/// Whether there is one measure alone, of the wanted kind.
pub fn has_one_measure(kind: Kind, components: &[Component]) -> bool
    ensures { result ≡ has_one_measure kind components.now }
{
    count_measures(components) == 1 && all_meet(kind, components)
}
