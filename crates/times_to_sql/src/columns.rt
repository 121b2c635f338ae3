// The time and the other identifiers of a structure.
ghost use Rattle.std.specs.Prelude.{◌≡◌, not, IfOk};
ghost use Rattle.std.specs.List.{filter};
ghost use Rattle.vtl_tree.specs.Shown.{shown};
ghost use Rattle.vtl_tree.specs.Columns.{identifiers_of};
ghost use Rattle.vtl_tree.specs.Structure.{names_of};
ghost use Rattle.vtl_timing.specs.Times.{is_time, other_identifiers};
ghost use Rattle.times_to_sql.specs.Fills.{times_of};

use std::alloc::{AllocError, Global};
use vtl_text::Txt;
use vtl_tree::{Component, Structure, is_time};

/// The identifiers that hold periods: one, where there is a time. It fails only if memory runs out.
pub(crate) fn times(alloc: Global, a: &Structure) -> Result<Vec<&Component>, AllocError>
    ensures { IfOk result (λ v. shown v.items ≡ times_of a.now) }
{
    let identifiers = a.identifiers(alloc)?;
    let mut times = Vec::new(alloc);
    for identifier in &identifiers {
        if is_time(identifier) {
            times.push(*identifier)?;
        }
    }
    Ok(times)
}

/// The identifiers that are no time. It fails only if memory runs out.
pub(crate) fn other_identifiers(alloc: Global, a: &Structure) -> Result<Vec<&Component>, AllocError>
    ensures { IfOk result (λ v. shown v.items ≡ other_identifiers a.now) }
{
    let identifiers = a.identifiers(alloc)?;
    let mut others = Vec::new(alloc);
    for identifier in &identifiers {
        if !is_time(identifier) {
            others.push(*identifier)?;
        }
    }
    Ok(others)
}

/// The names of components. It fails only if memory runs out.
pub(crate) fn names_of(alloc: Global, components: &[&Component]) -> Result<Vec<Txt>, AllocError>
    ensures { IfOk result (λ v. v.items ≡ names_of (shown components.now)) }
{
    let mut names = Vec::with_capacity(alloc, components.len())?;
    for component in components {
        names.push(component.name.share()?)?;
    }
    Ok(names)
}
