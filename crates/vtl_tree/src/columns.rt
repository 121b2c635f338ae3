// Columns by their names.
ghost use Rattle.std.specs.Prelude.{◌≡◌, ◌≤◌, IfOk, length};
ghost use Rattle.vtl_tree.specs.Shown.{shown};
ghost use Rattle.vtl_tree.specs.Columns.{common_identifiers, kind_named, place_of, places_in};
ghost use Rattle.vtl_tree.specs.Names.{is_among};
ghost use Rattle.vtl_tree.specs.Structure.{names_of};

use crate::{Component, Structure};
use std::alloc::{AllocError, Global};
use vtl_cell::Kind;
use vtl_text::Txt;

/// The place of the column of this name, or their number where there is none.
pub fn place_of(columns: &[&Component], name: &Txt) -> usize
    ensures place { result ≡ place_of name.now (shown columns.now) }
    ensures within { result ≤ length columns.now }
{
    for i in 0..columns.len() {
        if columns[i].name == *name {
            return i;
        }
    }
    columns.len()
}

/// The kind of the column of this name, or that of null where there is none.
#[tactic(auto, using(crate::proofs::ColumnPlaces::kind_there, crate::proofs::ColumnPlaces::kind_gone))]
pub fn kind_named(columns: &[&Component], name: &Txt) -> Kind
    ensures { result ≡ kind_named name.now (shown columns.now) }
{
    let place = place_of(columns, name);
    if place < columns.len() {
        columns[place].kind
    } else {
        Kind::Null
    }
}

/// The places of components, by their names, among columns.
pub fn places_in(
    alloc: Global,
    columns: &[&Component],
    wanted: &[&Component],
) -> Result<Vec<usize>, AllocError>
    ensures { IfOk result (λ v. v.items ≡ places_in (shown columns.now) (shown wanted.now)) }
{
    let mut places = Vec::with_capacity(alloc, wanted.len())?;
    for column in wanted {
        places.push(place_of(columns, &column.name))?;
    }
    Ok(places)
}

fn has_name(components: &[&Component], name: &Txt) -> bool
    ensures { result ≡ is_among name.now (names_of (shown components.now)) }
{
    for component in components {
        if component.name == *name {
            return true;
        }
    }
    false
}

/// The identifiers of the second structure that the first one has too.
pub fn common_identifiers<'a>(
    alloc: Global,
    structure: &Structure,
    other: &'a Structure,
) -> Result<Vec<&'a Component>, AllocError>
    ensures { IfOk result (λ v. shown v.items ≡ common_identifiers structure.now other.now) }
{
    let known = structure.identifiers(alloc)?;
    let mut common = Vec::new(alloc);
    let identifiers = other.identifiers(alloc)?;
    for identifier in &identifiers {
        if has_name(&known, &identifier.name) {
            common.push(*identifier)?;
        }
    }
    Ok(common)
}
