// Components as the structure of a result.
ghost use Rattle.std.specs.List.{list_any};
ghost use Rattle.std.specs.Prelude.{◌≡◌, List, IfOk, Ok};
ghost use Rattle.vtl_tree.specs.Structure.{IsStructure, names_of};
ghost use Rattle.vtl_tree.specs.Structures.{is_null_kind};
ghost use Rattle.vtl_tree.specs.declared.structure.Component.{Component as Column};
ghost use Rattle.vtl_tree.specs.declared.structure.Structure.{Structure as Columns};
ghost use Rattle.check_faults.specs.Answers.{Answers};
ghost use Rattle.check_shapes.specs.Shape.{shaped};

use check_faults::{Rule, TypeErr, broken};
use std::alloc::{AllocError, Global};
use vtl_cell::Kind;
use vtl_text::{List, Txt, are_distinct};
use vtl_tree::{Component, MAX_COMPONENTS, Structure};

fn is_null(kind: Kind) -> bool
    ensures { result ≡ is_null_kind kind }
{
    match kind {
        Kind::Null => true,
        _ => false,
    }
}

fn has_null(components: &[Component]) -> bool
    ensures { result ≡ list_any (λ x. is_null_kind x.kind) components.now }
{
    for component in components {
        if is_null(component.kind) {
            return true;
        }
    }
    false
}

pub(crate) fn names_of(alloc: Global, components: &[Component]) -> Result<Vec<Txt>, AllocError>
    ensures { IfOk result (λ v. v.items ≡ names_of components.now) }
{
    let mut names = Vec::new(alloc);
    for component in components {
        names.push(component.name.share()?)?;
    }
    Ok(names)
}

/// The structure of these components, which are the result of an operator. They break `RepeatedComponent` where a name
/// stands twice, `ComponentCount` where there is none or too many, and `NullKind` where one has the kind of null.
pub fn shaped(alloc: Global, components: Vec<Component>) -> Result<Structure, TypeErr>
    ensures { Answers (λ s. s) result (shaped components.items) }
{
    let names = names_of(alloc, &components)?;
    broken(Rule::RepeatedComponent, !are_distinct(alloc, &names)?)?;
    broken(
        Rule::ComponentCount,
        components.is_empty() || MAX_COMPONENTS < components.len(),
    )?;
    broken(Rule::NullKind, has_null(&components))?;
    Ok(Structure {
        components: List::of(components),
    })
}

/// Components that break no rule of results are a structure: 1 to `MAX_COMPONENTS` components with distinct names.
pub fn results_are_structures()
    ensures { (xs : List Column) (s : Columns) → shaped xs ≡ Ok s → IsStructure s }
{}
