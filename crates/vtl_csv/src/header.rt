// The columns of a CSV file of a data set, by its header.
ghost use Rattle.std.specs.Prelude.{◌≡◌, [], IfOk, option_map};
ghost use Rattle.std.specs.Option.{is_some};
ghost use Rattle.vtl_lists.specs.Each.{each_some};
ghost use Rattle.vtl_tree.specs.Shown.{shown};
ghost use Rattle.vtl_csv.specs.InputFile.{columns_with, layout_of, named_by, newly_named, place_in};
ghost use Rattle.vtl_csv.specs.InputSteps.{columns_answer, layout_answer};

use crate::fields::Fields;
use crate::reading::{column, is_same_text};
use std::alloc::{AllocError, Global};
use vtl_tree::{Component, Structure};

// The columns of a file, and the place among them of each component in column order.
#[derive(Drop)]
pub struct Layout<'a> {
    pub columns: Vec<&'a Component>,
    pub places: Vec<usize>,
}

// The component whose name a field is.
fn named_by<'a>(components: &'a [Component], field: &[u8]) -> Option<&'a Component>
    ensures { option_map (λ x. x.now) result ≡ named_by components.now field.now }
{
    for component in components {
        if is_same_text(&component.name, field) {
            return Some(component);
        }
    }
    None
}

// Whether a field is the name of one of the columns.
fn is_named(columns: &[&Component], field: &[u8]) -> bool
    ensures { result ≡ is_some (named_by (shown columns.now) field.now) }
{
    for i in 0..columns.len() {
        if is_same_text(&column(columns, i).name, field) {
            return true;
        }
    }
    false
}

// The component that a field names, if no field of these columns names it.
fn newly_named<'a>(
    components: &'a [Component],
    before: &[&Component],
    field: &[u8],
) -> Option<&'a Component>
    ensures { option_map (λ x. x.now) result ≡ newly_named components.now (shown before.now) field.now }
{
    if is_named(before, field) {
        None
    } else {
        named_by(components, field)
    }
}

// The components that the fields of a header name, or the column of the first field that names none, or names one a
// second time.
fn columns<'a>(
    alloc: Global,
    components: &'a [Component],
    fields: &Fields,
) -> Result<Result<Vec<&'a Component>, u64>, AllocError>
    ensures { IfOk result (λ r. columns_answer r ≡ columns_with components.now [] fields.now) }
{
    let mut columns = Vec::new(alloc);
    for i in 0..fields.len() {
        match newly_named(components, &columns, fields.field(i)) {
            Some(component) => columns.push(component)?,
            None => return Ok(Err(i as u64 + 1)),
        }
    }
    Ok(Ok(columns))
}

// The place of a component among the columns of a file.
fn place_in(columns: &[&Component], component: &Component) -> Option<usize>
    ensures { result ≡ place_in (shown columns.now) component.now }
{
    for i in 0..columns.len() {
        if component.name == column(columns, i).name {
            return Some(i);
        }
    }
    None
}

// The places of components among the columns of a file, or none where one is missing.
fn places(
    alloc: Global,
    columns: &[&Component],
    components: &[&Component],
) -> Result<Option<Vec<usize>>, AllocError>
    ensures { IfOk result (λ o. option_map (λ v. v.items) o ≡ each_some (place_in (shown columns.now)) (shown components.now)) }
{
    let mut places = Vec::with_capacity(alloc, components.len())?;
    for i in 0..components.len() {
        match place_in(columns, column(components, i)) {
            Some(place) => places.push(place)?,
            None => return Ok(None),
        }
    }
    Ok(Some(places))
}

/// The layout of a file of the structure by the fields of its header, or the column of the header's first fault.
pub fn read_layout<'a>(
    alloc: Global,
    structure: &'a Structure,
    fields: &Fields,
) -> Result<Result<Layout<'a>, u64>, AllocError>
    ensures { IfOk result (λ r. layout_answer r ≡ layout_of structure.now fields.now) }
{
    let columns = match columns(alloc, structure.components.as_slice(), fields)? {
        Ok(columns) => columns,
        Err(column) => return Ok(Err(column)),
    };
    let in_order = structure.columns(alloc)?;
    match places(alloc, &columns, &in_order)? {
        Some(places) => Ok(Ok(Layout { columns, places })),
        None => Ok(Err(columns.len() as u64 + 1)),
    }
}
