// `sub`
ghost use Rattle.std.specs.Prelude.{◌≡◌, true, ◌++◌, ◌∷◌, [], map, IfOk, OnOk, if◌then◌else◌};
ghost use Rattle.vtl_cell.specs.Row.{column_of};
ghost use Rattle.vtl_cell.specs.Order.{same_cell};
ghost use Rattle.vtl_rows.specs.Tables.{cells_at, fits, listed};
ghost use Rattle.vtl_tree.specs.Structure.{columns_of};
ghost use Rattle.vtl_sets.specs.DataSets.{data_set};
ghost use Rattle.vtl_meaning.specs.Made.{IsSub};
ghost use Rattle.vtl_meaning.specs.Operators.{sub_of};
ghost use Rattle.vtl_sets.specs.TableOf.{IsTableOf};
ghost use Rattle.vtl_clause.specs.Pins.{are_met, wanted_by, wanted_in};

use std::alloc::{AllocError, Global};
use vtl_cell::{Cell, is_same};
use vtl_expr::{places_in, push_cells};
use vtl_rows::Table;
use vtl_sets::{DataSet, new_table};
use vtl_tree::{Structure, SubItem, place_of};

// The place of an identifier, and the value that is wanted there.
#[derive(Drop)]
pub(crate) struct Pin<'a> {
    pub(crate) place: usize,
    pub(crate) value: &'a Cell,
}

// The places of the listed identifiers among the columns of a structure, with their values.
fn pinned<'a>(
    alloc: Global,
    a: &Structure,
    items: &'a [SubItem],
) -> Result<Vec<Pin<'a>>, AllocError>
    ensures { IfOk result (λ v. map wanted_by v.items ≡ map (wanted_in (columns_of a.now)) items.now) }
{
    let columns = a.columns(alloc)?;
    let mut pins = Vec::with_capacity(alloc, items.len())?;
    for item in items {
        pins.push(Pin {
            place: place_of(&columns, &item.id),
            value: &item.value,
        })?;
    }
    Ok(pins)
}

// Whether the cell at a place is the value; after the last cell there is null.
fn is_at(row: &[Cell], place: usize, value: &Cell) -> bool
    ensures { result ≡ same_cell (column_of place row.now) value.now }
{
    match row.get(place) {
        Some(cell) => is_same(cell, value),
        None => is_same(&Cell::Null, value),
    }
}

// Whether a row has the wanted values.
fn has_values(row: &[Cell], pins: &[Pin<'_>]) -> bool
    ensures { result ≡ are_met (map wanted_by pins.now) row.now }
{
    for pin in pins {
        if !is_at(row, pin.place, pin.value) {
            return false;
        }
    }
    true
}

// Adds the cells at places of a row, where it has the wanted values. They are put together in a list that is used for
// one row after the other.
fn push_sub(
    out: &mut Table,
    cells: &mut Vec<Cell>,
    row: &[Cell],
    pins: &[Pin<'_>],
    places: &[usize],
) -> Result<(), AllocError>
    requires { are_met (map wanted_by pins.now) row.now ≡ true → fits out.old.columns (cells_at places.now row.now) ≡ true }
    ensures columns { out.new.columns ≡ out.old.columns }
    ensures rows { OnOk result (out.new.rows ≡ out.old.rows ++ (if are_met (map wanted_by pins.now) row.now then cells_at places.now row.now ∷ [] else [])) }
{
    if has_values(row, pins) {
        cells.clear();
        push_cells(cells, row, places)?;
        out.push_moved(cells)?;
    }
    Ok(())
}

fn sub_table(
    alloc: Global,
    a: &DataSet,
    items: &[SubItem],
    made: &Structure,
) -> Result<Table, AllocError>
    requires { IsSub items.now a.now.structure made.now }
    ensures table { IfOk result (λ t. IsTableOf made.now (listed t)) }
    ensures rows { IfOk result (λ t. t.rows ≡ sub_of items.now a.now made.now) }
{
    let structure = a.structure();
    let pins = pinned(alloc, structure, items)?;
    let columns = made.columns(alloc)?;
    let places = places_in(alloc, structure, &columns)?;
    let table = a.table();
    let mut out = new_table(alloc, made)?;
    let mut cells = Vec::with_capacity(alloc, places.len())?;
    for i in 0..table.len() {
        push_sub(&mut out, &mut cells, table.row(i), &pins, &places)?;
    }
    Ok(out)
}

/// The points at which each listed identifier has the listed value, without these identifiers. It fails only if memory
/// runs out.
pub fn sub(
    alloc: Global,
    a: &DataSet,
    items: &[SubItem],
    made: &Structure,
) -> Result<DataSet, AllocError>
    requires { IsSub items.now a.now.structure made.now }
    ensures { IfOk result (λ d. d ≡ data_set made.now (sub_of items.now a.now made.now)) }
{
    let table = sub_table(alloc, a, items, made)?;
    DataSet::of(alloc, made, table)
}
