// Rows of cells.
ghost use Rattle.std.specs.Prelude.{◌≡◌, take};
ghost use Rattle.vtl_cell.specs.Row.{same_key, same_row};

use crate::{Cell, is_same};

/// Whether two rows have the same cells.
#[tactic(auto, using(crate::proofs::Rows::same_row_lengths))]
pub fn is_same_row(a: &[Cell], b: &[Cell]) -> bool
    ensures { result ≡ same_row a.now b.now }
{
    if a.len() != b.len() {
        return false;
    }
    for i in 0..a.len() {
        if !is_same(&a[i], &b[i]) {
            return false;
        }
    }
    true
}

/// Whether two rows agree in their first `count` cells; a shorter row is compared as it is.
pub fn is_same_key(a: &[Cell], b: &[Cell], count: usize) -> bool
    ensures { result ≡ same_key count a.now b.now }
{
    is_same_row(front(a, count), front(b, count))
}

fn front(row: &[Cell], count: usize) -> &[Cell]
    ensures { result.now ≡ take count row.now }
{
    if count < row.len() {
        &row[..count]
    } else {
        row
    }
}
