// Cells by the places of columns.
//
// Cells that were put before memory ran out are taken away again (`push_cells`): room alone does not help, since the
// copy of a text may fail too.
ghost use Rattle.std.specs.Prelude.{◌≡◌, ◌++◌, ◌∷◌, [], IfOk, OnOk, OnErr};
ghost use Rattle.vtl_cell.specs.Row.{column_of};
ghost use Rattle.vtl_rows.specs.Tables.{cells_at};
ghost use Rattle.vtl_tree.specs.Shown.{shown};
ghost use Rattle.vtl_tree.specs.Structure.{columns_of};
ghost use Rattle.vtl_tree.specs.Columns.{places_in};

use std::alloc::{AllocError, Global};
use vtl_cell::{Cell, clone_cell};
use vtl_tree::{Component, Structure, place_of};

/// The places of components, by their names, among the columns of a structure.
pub fn places_in(
    alloc: Global,
    structure: &Structure,
    wanted: &[&Component],
) -> Result<Vec<usize>, AllocError>
    ensures { IfOk result (λ v. v.items ≡ places_in (columns_of structure.now) (shown wanted.now)) }
{
    let columns = structure.columns(alloc)?;
    let mut places = Vec::with_capacity(alloc, wanted.len())?;
    for column in wanted {
        places.push(place_of(&columns, &column.name))?;
    }
    Ok(places)
}

// Puts a copy of a cell after others, which are left as they are if memory runs out.
fn push_copy(cells: &mut Vec<Cell>, cell: &Cell) -> Result<(), AllocError>
    ensures ok { OnOk result (cells.new.items ≡ cells.old.items ++ cell.now ∷ []) }
    ensures err { OnErr result (cells.new.items ≡ cells.old.items) }
{
    cells.push(clone_cell(cell)?)?;
    Ok(())
}

// The same with the cell at a place of a row, or null after the last one.
fn push_copy_at(cells: &mut Vec<Cell>, row: &[Cell], place: usize) -> Result<(), AllocError>
    ensures ok { OnOk result (cells.new.items ≡ cells.old.items ++ column_of place row.now ∷ []) }
    ensures err { OnErr result (cells.new.items ≡ cells.old.items) }
{
    match row.get(place) {
        Some(cell) => push_copy(cells, cell),
        None => push_copy(cells, &Cell::Null),
    }
}

/// Puts the cells at places of a row after others. Texts are shared. If memory runs out, the others are left as they
/// were.
pub fn push_cells(cells: &mut Vec<Cell>, row: &[Cell], places: &[usize]) -> Result<(), AllocError>
    ensures ok { OnOk result (cells.new.items ≡ cells.old.items ++ cells_at places.now row.now) }
    ensures err { OnErr result (cells.new.items ≡ cells.old.items) }
{
    let before = cells.len();
    for place in places {
        if let Err(error) = push_copy_at(cells, row, *place) {
            cells.truncate(before);
            return Err(error);
        }
    }
    Ok(())
}
