// Whether a structure may be declared.
ghost use Rattle.std.specs.Prelude.{◌≡◌, IfOk, length};
ghost use Rattle.std.specs.List.{list_all, list_any};
ghost use Rattle.vtl_lists.specs.Apart.{all_apart};
ghost use Rattle.vtl_tree.specs.Structure.{names_of, same_name};
ghost use Rattle.vtl_tree.specs.Structures.{are_codes, codes_fit, is_declarable, is_declarable_component, is_filled, is_null_kind, is_string_identifier};

use crate::limits::MAX_COMPONENTS;
use crate::structure::{Component, Role, Structure};
use std::alloc::{AllocError, Global};
use vtl_cell::Kind;
use vtl_text::{Txt, are_distinct, is_component_name};

fn is_null_kind(kind: Kind) -> bool
    ensures { result ≡ is_null_kind kind }
{
    match kind {
        Kind::Null => true,
        _ => false,
    }
}

fn is_string_identifier(component: &Component) -> bool
    ensures { result ≡ is_string_identifier component.now.role component.now.kind }
{
    match (component.role, component.kind) {
        (Role::Identifier, Kind::Text) => true,
        _ => false,
    }
}

fn are_filled(texts: &[Txt]) -> bool
    ensures { result ≡ list_all is_filled texts.now }
{
    for text in texts {
        if vtl_text::length(text.as_str()) == 0 {
            return false;
        }
    }
    true
}

fn are_codes(alloc: Global, texts: &[Txt]) -> Result<bool, AllocError>
    ensures { IfOk result (λ b. b ≡ are_codes texts.now) }
{
    if texts.is_empty() || !are_filled(texts) {
        return Ok(false);
    }
    are_distinct(alloc, texts)
}

fn codes_fit(alloc: Global, component: &Component) -> Result<bool, AllocError>
    ensures { IfOk result (λ b. b ≡ codes_fit component.now) }
{
    match &component.codes {
        None => Ok(true),
        Some(_) if !is_string_identifier(component) => Ok(false),
        Some(texts) => are_codes(alloc, texts.as_slice()),
    }
}

fn is_declarable_component(alloc: Global, component: &Component) -> Result<bool, AllocError>
    ensures { IfOk result (λ b. b ≡ is_declarable_component component.now) }
{
    if !is_component_name(component.name.as_str()) || is_null_kind(component.kind) {
        return Ok(false);
    }
    codes_fit(alloc, component)
}

fn are_declarable(alloc: Global, components: &[Component]) -> Result<bool, AllocError>
    ensures { IfOk result (λ b. b ≡ list_all is_declarable_component components.now) }
{
    for component in components {
        if !is_declarable_component(alloc, component)? {
            return Ok(false);
        }
    }
    Ok(true)
}

fn has_name(components: &[Component], name: &Txt) -> bool
    ensures { result ≡ list_any (same_name name.now) (names_of components.now) }
{
    for component in components {
        if *name == component.name {
            return true;
        }
    }
    false
}

fn names_are_apart(components: &[Component]) -> bool
    ensures { result ≡ all_apart same_name (names_of components.now) }
{
    for i in 0..components.len() {
        if has_name(&components[i + 1..], &components[i].name) {
            return false;
        }
    }
    true
}

/// Whether a structure may be declared: it has 1 to `MAX_COMPONENTS` components with distinct names, each a component
/// name, none of the kind of null; codes stand on string identifiers alone, at least one in a list, distinct and none
/// empty. It fails only if memory runs out.
pub fn is_declarable(alloc: Global, structure: &Structure) -> Result<bool, AllocError>
    ensures { IfOk result (λ b. b ≡ is_declarable structure.now) }
{
    let components = structure.components.as_slice();
    if components.is_empty() || components.len() > MAX_COMPONENTS || !names_are_apart(components) {
        return Ok(false);
    }
    are_declarable(alloc, components)
}
