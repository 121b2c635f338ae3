// The values of items, one row after the other.
ghost use Rattle.std.specs.Prelude.{◌≡◌, ◌++◌, ◌∷◌, [], List, IfErr, IfOk, drop, map};
ghost use Rattle.vtl_cell.specs.Conversion.{as_kind};
ghost use Rattle.vtl_cell.specs.Outcome.{after, fault_in, join};
ghost use Rattle.vtl_cell.specs.Row.{Row, column_of};
ghost use Rattle.vtl_scalar.specs.Answers.{Answers};
ghost use Rattle.sql_meaning.specs.Outcomes.{cell_or_null, row_at, row_fault};
ghost use Rattle.vtl_scalar.specs.Seen.{seen_of};
ghost use Rattle.sql_exec.specs.ItemCells.{next_value, values_in};

use std::alloc::AllocError;
use std::vec::IntoIter;
use vtl_cell::{Cell, Kind, clone_cell};
use vtl_decimal::{Fault, Profile};
use vtl_scalar::{ScalarErr, Seen, to_kind};

/// The values of an item from a row of FROM on.
pub(crate) enum ItemCells {
    /// The cells of the rows at this place.
    Own(usize),
    /// Values that are made, as ones of this kind.
    Made {
        values: IntoIter<Result<Cell, Fault>>,
        kind: Kind,
    },
}

// Written out, so that each owner sees one call and not the drop of each part.
impl Drop for ItemCells {
    fn drop(self) {
        match self {
            ItemCells::Own(_) => {}
            ItemCells::Made {
                values: _values,
                kind: _,
            } => {}
        }
    }
}

// A cell equal to the one at a place of a row, or null where it has none.
fn copy_at(row: &[Cell], place: usize) -> Result<Cell, AllocError>
    ensures { IfOk result (λ cell. cell ≡ column_of place row.now) }
{
    match row.get(place) {
        Some(cell) => clone_cell(cell),
        None => Ok(Cell::Null),
    }
}

// A value that is made, as one of the kind.
fn of_kind(value: Result<Cell, Fault>, kind: Kind, p: &Profile) -> Result<Cell, Fault>
    ensures { result ≡ after value (as_kind p.now kind) }
{
    to_kind(kind, value?, p)
}

impl ItemCells {
    // The value at the next row of FROM, which is this one: a value that was made is taken out.
    fn next_value(&mut self, row: &[Cell], p: &Profile) -> Result<Cell, ScalarErr>
        ensures value { Answers result (next_value p.now self.old row.now) }
        ensures others { (rows : List Row) → values_in p.now rows self.new ≡ drop 1 (values_in p.now (row.now ∷ rows) self.old) }
    {
        match self {
            ItemCells::Own(place) => Ok(copy_at(row, *place)?),
            ItemCells::Made { values, kind } => match values.next() {
                Some(value) => Ok(of_kind(value, *kind, p)?),
                None => Ok(Cell::Null),
            },
        }
    }
}

// Puts the value of an item at the next row, which is this one, behind others, or null where it has a fault.
fn push_next(
    cells: &mut Vec<Cell>,
    seen: Seen,
    item: &mut ItemCells,
    row: &[Cell],
    p: &Profile,
) -> Result<Seen, ScalarErr>
    ensures cells { IfOk result (λ _. cells.new.items ≡ cells.old.items ++ cell_or_null (next_value p.now item.old row.now) ∷ []) }
    ensures seen { IfOk result (λ s. seen_of s ≡ join (seen_of seen) (fault_in (next_value p.now item.old row.now))) }
    ensures others { (rows : List Row) → values_in p.now rows item.new ≡ drop 1 (values_in p.now (row.now ∷ rows) item.old) }
    ensures err { IfErr result (λ e. e ≡ ScalarErr.OutOfMemory) }
{
    match item.next_value(row, p) {
        Ok(cell) => {
            cells.push(cell)?;
            Ok(seen)
        }
        Err(error) => {
            let seen = seen.and(error)?;
            cells.push(Cell::Null)?;
            Ok(seen)
        }
    }
}

/// Puts the values of items at the next row, which is this one, behind others; null stands for one that has a fault.
pub(crate) fn push_across(
    cells: &mut Vec<Cell>,
    seen: Seen,
    items: &mut [ItemCells],
    row: &[Cell],
    p: &Profile,
) -> Result<Seen, ScalarErr>
    ensures cells { IfOk result (λ _. cells.new.items ≡ cells.old.items ++ row_at (next_value p.now) items.old row.now) }
    ensures seen { IfOk result (λ s. seen_of s ≡ join (seen_of seen) (row_fault (next_value p.now) items.old row.now)) }
    ensures others { IfOk result (λ _. (rows : List Row) → map (values_in p.now rows) items.new ≡ map (λ x. drop 1 (values_in p.now (row.now ∷ rows) x)) items.old) }
    ensures err { IfErr result (λ e. e ≡ ScalarErr.OutOfMemory) }
{
    let mut with_these = seen;
    for item in items.iter_mut() {
        with_these = push_next(cells, with_these, item, row, p)?;
    }
    Ok(with_these)
}
