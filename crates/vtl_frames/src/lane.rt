// The cells of a column at the rows of a partition.
ghost use Rattle.std.specs.Prelude.{◌≡◌};
ghost use Rattle.vtl_cell.specs.Row.{column_of};
ghost use Rattle.vtl_cell.specs.declared.cell.Cell.TheVariants.{Null};
ghost use Rattle.vtl_rows.specs.Places.{row_at};
ghost use Rattle.vtl_frames.specs.Lanes.{lane_cells};

use crate::Partition;
use vtl_cell::Cell;
use vtl_rows::Table;

/// A column of a table at the rows with these numbers, whose cells are lent; a null is lent where there is no such row or
/// column.
pub struct Lane<'a> {
    table: &'a Table,
    numbers: &'a [usize],
    column: usize,
    null: &'a Cell,
    ghost is_null: { null.now ≡ Null },
}

// Written out, so that an owner sees one call.
impl Drop for Lane<'_> {
    fn drop(self) {
        let Lane {
            table: _,
            numbers: _,
            column: _,
            null: _,
        } = self;
    }
}

impl<'a> Lane<'a> {
    ghost use Rattle.vtl_frames.specs.Lent.{cells_in};

    /// The column at these rows, and the null that is lent.
    pub fn of(table: &'a Table, numbers: &'a [usize], column: usize, null: &'a Cell) -> Lane<'a>
        requires { null.now ≡ Null }
        ensures { cells_in result ≡ lane_cells table.now.rows numbers.now column }
    {
        Lane {
            table,
            numbers,
            column,
            null,
        }
    }
}

// The cell of a column in a row of a table; the null that is lent where it has no such row.
fn cell_of<'r>(table: &'r Table, number: usize, column: usize, null: &'r Cell) -> &'r Cell
    requires { null.now ≡ Null }
    ensures { result.now ≡ column_of column (row_at table.now.rows number) }
{
    if number < table.len() {
        match table.row(number).get(column) {
            Some(cell) => cell,
            None => null,
        }
    } else {
        null
    }
}

impl<'a> Partition for Lane<'a> {
    ghost cells = { λ l. lane_cells l.table.now.rows l.numbers.now l.column };

    fn len(&self) -> usize {
        self.numbers.len()
    }

    fn cell(&self, place: usize) -> &Cell {
        cell_of(self.table, self.numbers[place], self.column, self.null)
    }
}
