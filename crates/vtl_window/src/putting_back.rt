// Values of sorted points, put back at the points.
//
// A column that stays is read from the operand's rows, and cells that are made are moved into the rows of the result:
// each cell is copied or made once, and only columns that are made have lists.
ghost use Rattle.std.specs.List.{range_with_len};
ghost use Rattle.std.specs.Prelude.{◌≡◌, ◌<◌, ℕ, All, IfErr, IfOk, IsPermutation, length, map, slice_set};
ghost use Rattle.vtl_cell.specs.Conversion.{as_kind};
ghost use Rattle.vtl_cell.specs.Outcome.{Outcome, after, join};
ghost use Rattle.vtl_cell.specs.declared.cell.Cell as cell;
ghost use Rattle.vtl_scalar.specs.Seen.{seen_of};
ghost use Rattle.vtl_scalar.specs.Answers.{Answers};
ghost use Rattle.vtl_window.specs.Analyses.{cells_by, faults_of};

use crate::faults::noted;
use crate::partition::Outcomes;
use std::alloc::{AllocError, Global};
use vtl_cell::{Cell, Kind};
use vtl_decimal::{Fault, Profile};
use vtl_scalar::{ScalarErr, Seen, to_kind};

// So many nulls.
fn nulls(alloc: Global, count: usize) -> Result<Vec<Cell>, AllocError>
    ensures { IfOk result (λ v. length v.items ≡ count) }
{
    let mut cells = Vec::with_capacity(alloc, count)?;
    for _ in 0..count {
        cells.push(Cell::Null)?;
    }
    Ok(cells)
}

// A value, as one of the kind.
fn in_kind(value: Result<Cell, Fault>, kind: Kind, p: &Profile) -> Result<Cell, ScalarErr>
    ensures { Answers result (after value (as_kind p.now kind)) }
{
    Ok(to_kind(kind, value?, p)?)
}

// Puts a cell at a place.
fn put(cells: &mut Vec<Cell>, place: usize, cell: Cell)
    requires { place < length cells.old.items }
    ensures { cells.new.items ≡ slice_set cells.old.items place cell }
{
    cells[place] = cell;
}

/// The values in the order of their points, as cells of the kind, where the sorted ones are those of the points with
/// these numbers. A null stands for a value with a fault, which is noted. It fails only if memory runs out.
pub(crate) fn put_back(
    alloc: Global,
    seen: &mut Seen,
    places: &[usize],
    sorted: Outcomes,
    kind: Kind,
    p: &Profile,
) -> Result<Vec<Cell>, ScalarErr>
    requires all { IsPermutation (range_with_len 0 (length places.now)) places.now }
    requires within { All (λ i. i < length places.now) places.now }
    ensures cells { (f : ℕ → Outcome cell.Cell) → sorted.items ≡ map f places.now → IfOk result (λ v. v.items ≡ cells_by (λ k. after (f k) (as_kind p.now kind)) (range_with_len 0 (length places.now))) }
    ensures seen { (f : ℕ → Outcome cell.Cell) → sorted.items ≡ map f places.now → IfOk result (λ _. seen_of seen.new ≡ join (seen_of seen.old) (faults_of (λ k. after (f k) (as_kind p.now kind)) (range_with_len 0 (length places.now)))) }
    ensures err { IfErr result (λ e. e ≡ ScalarErr.OutOfMemory) }
{
    let mut cells = nulls(alloc, places.len())?;
    let mut rest = sorted.into_iter();
    for place in places {
        let value = rest.next().unwrap_or(Ok(Cell::Null));
        put(&mut cells, *place, noted(seen, in_kind(value, kind, p))?);
    }
    Ok(cells)
}
