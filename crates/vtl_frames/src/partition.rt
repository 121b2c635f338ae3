// The cells of a partition.
//
// Cells are lent by a trait, so that neither language copies cells into a list; a value is an outcome, a fault in its
// place, and each language joins faults as its meaning says.
//
// A stretch of rows that tie by the keys of a partition is a partition for any columns, whatever is looked at behind
// the keys (proofs/PartitionLemmas.antt); each language says which columns these are, and how its rows are told
// apart.
ghost use Rattle.std.specs.Prelude.{◌≡◌, ◌<◌, ◌^◌, List, length};
ghost use Rattle.vtl_cell.specs.Row.{column_of};
ghost use Rattle.vtl_cell.specs.declared.cell.Cell as cells;

use vtl_cell::Cell;

/// The cells of one partition in order, which are lent.
pub trait Partition {
    ghost cells: { Self → List cells.Cell };

    /// How many cells there are.
    fn len(&self) -> usize
        ensures count { result ≡ length (cells self.now) }
        ensures few { result < 2 ^ 61 };

    /// The cell at a place, counted from 0.
    fn cell(&self, place: usize) -> &Cell
        requires { place < length (cells self.now) }
        ensures { result.now ≡ column_of place (cells self.now) };
}
