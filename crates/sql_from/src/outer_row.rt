// Rows that lend their cells.
//
// EXISTS asks an `OuterRow`, not `Cells`: what implements `Cells` answers EXISTS by it, and would lead back to
// itself.
ghost use Rattle.std.specs.Prelude.{◌≡◌};
ghost use Rattle.vtl_cell.specs.Row.{Row, column_of};

use vtl_cell::Cell;

/// A row at which EXISTS is asked. It stands apart from `Cells`, which answers EXISTS by it.
pub trait OuterRow {
    ghost lends: { Self → Row };

    /// The cell at a place; past the last one a null.
    fn lent(&self, place: usize) -> &Cell
        ensures { result.now ≡ column_of place (lends self.now) };
}
