// Where the time and the other identifiers stand.
ghost use Rattle.std.specs.Prelude.{◌≡◌, ◌++◌, not, IfOk, OnOk};
ghost use Rattle.std.specs.List.{filter, position_or_len};
ghost use Rattle.vtl_tree.specs.Shown.{shown};
ghost use Rattle.vtl_timing.specs.Times.{is_time, other_identifiers, series_columns, time_place};

use std::alloc::{AllocError, Global};
use vtl_cell::{Kind, is_same_kind};
use vtl_tree::{Component, Role, Structure, is_same_role};

/// Whether a component is an identifier that holds periods.
pub(crate) fn is_time(component: &Component) -> bool
    ensures { result ≡ is_time component.now }
{
    is_same_role(component.role, Role::Identifier) && is_same_kind(component.kind, Kind::Period)
}

// The place of the first time among components, or their number where there is none.
fn first_time(components: &[&Component]) -> usize
    ensures { result ≡ position_or_len is_time (shown components.now) }
{
    for i in 0..components.len() {
        if is_time(components[i]) {
            return i;
        }
    }
    components.len()
}

/// The place of the time among the columns of a structure. It fails only if memory runs out.
pub(crate) fn time_place(alloc: Global, structure: &Structure) -> Result<usize, AllocError>
    ensures { IfOk result (λ place. place ≡ time_place structure.now) }
{
    let identifiers = structure.identifiers(alloc)?;
    Ok(first_time(&identifiers))
}

// Puts those of some identifiers that are no time behind other components.
fn push_others<'a>(
    columns: &mut Vec<&'a Component>,
    identifiers: &[&'a Component],
) -> Result<(), AllocError>
    ensures { OnOk result (shown columns.new.items ≡ shown columns.old.items ++ filter (λ x. not (is_time x)) (shown identifiers.now)) }
{
    for identifier in identifiers {
        if !is_time(identifier) {
            columns.push(*identifier)?;
        }
    }
    Ok(())
}

// Puts those that are a time behind other components.
fn push_times<'a>(
    columns: &mut Vec<&'a Component>,
    identifiers: &[&'a Component],
) -> Result<(), AllocError>
    ensures { OnOk result (shown columns.new.items ≡ shown columns.old.items ++ filter is_time (shown identifiers.now)) }
{
    for identifier in identifiers {
        if is_time(identifier) {
            columns.push(*identifier)?;
        }
    }
    Ok(())
}

/// The identifiers without the time. It fails only if memory runs out.
pub(crate) fn other_identifiers(
    alloc: Global,
    structure: &Structure,
) -> Result<Vec<&Component>, AllocError>
    ensures { IfOk result (λ v. shown v.items ≡ other_identifiers structure.now) }
{
    let identifiers = structure.identifiers(alloc)?;
    let mut others = Vec::new(alloc);
    push_others(&mut others, &identifiers)?;
    Ok(others)
}

/// The columns of the rows of series: the other identifiers, and behind them the time. It fails only if memory runs out.
pub(crate) fn series_columns(
    alloc: Global,
    structure: &Structure,
) -> Result<Vec<&Component>, AllocError>
    ensures { IfOk result (λ v. shown v.items ≡ series_columns structure.now) }
{
    let identifiers = structure.identifiers(alloc)?;
    let mut columns = Vec::with_capacity(alloc, identifiers.len())?;
    push_others(&mut columns, &identifiers)?;
    push_times(&mut columns, &identifiers)?;
    Ok(columns)
}
