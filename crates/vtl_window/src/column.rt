// A column of the result, by where its cells come from.
ghost use Rattle.std.specs.Prelude.{◌≡◌, ◌++◌, ◌∷◌, List, IfOk, OnOk, map};
ghost use Rattle.vtl_cell.specs.Row.{Row};
ghost use Rattle.vtl_cell.specs.declared.cell.Cell as cell;
ghost use Rattle.vtl_tree.specs.declared.structure.Component.{Component};
ghost use Rattle.vtl_meaning.specs.Aggregates.{Made};
ghost use Rattle.vtl_meaning.specs.Analytics.{point_of};
ghost use Rattle.vtl_window.specs.Analyses.{cells_in, made_cells};

use std::alloc::AllocError;
use std::vec::IntoIter;
use vtl_cell::{Cell, clone_cell};

/// A column of the result from a point on, in the order of the operand's points.
pub(crate) enum Column {
    /// The operand's column at this place, which stays.
    Own(usize),
    /// Cells that are made.
    Made(IntoIter<Cell>),
}

// Written out, so that an owner sees one call.
impl Drop for Column {
    fn drop(self) {
        match self {
            Column::Own(_) => {}
            Column::Made(_cells) => {}
        }
    }
}

impl Column {
    /// The cell at the next point, which is this one of the operand: one that was made is taken out.
    pub(crate) fn next_cell(&mut self, point: &[Cell]) -> Result<Cell, AllocError>
        ensures cell { (points : List Row) (first : cell.Cell) (others : List cell.Cell) → cells_in (point.now ∷ points) self.old ≡ first ∷ others → IfOk result (λ c. c ≡ first) }
        ensures others { (points : List Row) (first : cell.Cell) (others : List cell.Cell) → cells_in (point.now ∷ points) self.old ≡ first ∷ others → cells_in points self.new ≡ others }
    {
        match self {
            Column::Own(place) => match point.get(*place) {
                Some(cell) => clone_cell(cell),
                None => Ok(Cell::Null),
            },
            Column::Made(cells) => Ok(cells.next().unwrap_or(Cell::Null)),
        }
    }
}

/// Puts the cells of columns at the next point, which is this one of the operand, behind others. It fails only if memory
/// runs out.
pub(crate) fn push_across(
    row: &mut Vec<Cell>,
    columns: &mut [Column],
    point: &[Cell],
) -> Result<(), AllocError>
    ensures row { (made : Made) (ys : List Component) (points : List Row) → map (cells_in (point.now ∷ points)) columns.old ≡ made_cells made ys (point.now ∷ points) → OnOk result (row.new.items ≡ row.old.items ++ point_of made ys point.now) }
    ensures columns { (made : Made) (ys : List Component) (points : List Row) → map (cells_in (point.now ∷ points)) columns.old ≡ made_cells made ys (point.now ∷ points) → OnOk result (map (cells_in points) columns.new ≡ made_cells made ys points) }
{
    for column in columns.iter_mut() {
        row.push(column.next_cell(point)?)?;
    }
    Ok(())
}
