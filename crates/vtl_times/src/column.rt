// A column of a result, by what makes its values.
ghost use Rattle.std.specs.Prelude.{◌≡◌, ◌∷◌, [], Ok, Some, IfOk, if◌then◌else◌};
ghost use Rattle.vtl_cell.specs.Kinds.{is_null};
ghost use Rattle.vtl_cell.specs.Outcome.{Outcome, after};
ghost use Rattle.vtl_cell.specs.Row.{column_of};
ghost use Rattle.vtl_cell.specs.declared.cell.Cell as cell;
ghost use Rattle.vtl_cell.specs.ScalarPeriods.{shifted_of};
ghost use Rattle.vtl_cell.specs.declared.operator.ScalarOp.TheVariants as op;
ghost use Rattle.vtl_scalar.specs.Answers.{Answers};
ghost use Rattle.vtl_tree.specs.Value.{called};
ghost use Rattle.vtl_times.specs.Columns.{column_value, outcome_at};

use std::alloc::{AllocError, Global};
use vtl_cell::{Cell, Kind, ScalarOp, clone_cell};
use vtl_decimal::{Fault, Profile};
use vtl_scalar::{ScalarErr, apply_two, to_kind};
use vtl_time::shift;

/// Values, each an outcome.
pub(crate) type Outcomes = Vec<Result<Cell, Fault>>;

/// A column of the result.
pub(crate) enum Column {
    /// The operand's column at this place.
    Own(usize),
    /// The operand's column at this place, which holds periods, each so many periods later.
    Later(usize, i64),
    /// These values, one for each point, and null where the operand's column at this place is.
    Total(usize, Outcomes),
    /// The operand's column at this place less these values, one for each point, as values of the kind.
    Less(usize, Kind, Outcomes),
}

// Written out, so that an owner sees one call.
impl Drop for Column {
    fn drop(self) {
        match self {
            Column::Own(_) => {}
            Column::Later(_, _) => {}
            Column::Total(_, _values) => {}
            Column::Less(_, _, _values) => {}
        }
    }
}

// A cell equal to the one at a place, or null past the last one.
fn copy_at(row: &[Cell], place: usize) -> Result<Cell, AllocError>
    ensures { IfOk result (λ copy. copy ≡ column_of place row.now) }
{
    match row.get(place) {
        Some(cell) => clone_cell(cell),
        None => Ok(Cell::Null),
    }
}

/// The period of a cell so many periods later, or null where it holds none.
pub(crate) fn later(time: &Cell, n: i64) -> Result<Cell, ScalarErr>
    ensures { Answers result (shifted_of time.now (Some n)) }
{
    match time {
        Cell::Period(period) => match shift(*period, n) {
            Some(period) => Ok(Cell::Period(period)),
            None => Err(ScalarErr::Range),
        },
        _ => Ok(Cell::Null),
    }
}

// A value at a place, or null past the last one.
fn outcome_at(values: &[Result<Cell, Fault>], place: usize) -> Result<Cell, ScalarErr>
    ensures { Answers result (outcome_at values.now place) }
{
    match values.get(place) {
        Some(Ok(cell)) => Ok(clone_cell(cell)?),
        Some(Err(fault)) => Err(ScalarErr::from(*fault)),
        None => Ok(Cell::Null),
    }
}

// The difference of two cells, as one of the kind.
fn difference(alloc: Global, kind: Kind, a: &Cell, b: &Cell, p: &Profile) -> Result<Cell, ScalarErr>
    ensures { Answers result (called p.now kind (Ok a.now ∷ Ok b.now ∷ []) op.Subtract) }
{
    Ok(to_kind(kind, apply_two(alloc, ScalarOp::Subtract, a, b, p)?, p)?)
}

// The cell at a place less a value, as one of the kind.
fn less_at(
    alloc: Global,
    row: &[Cell],
    place: usize,
    kind: Kind,
    value: Result<Cell, ScalarErr>,
    p: &Profile,
) -> Result<Cell, ScalarErr>
    ensures { (m : Outcome cell.Cell) → Answers value m → Answers result (after m (λ v. called p.now kind (Ok (column_of place row.now) ∷ Ok v ∷ []) op.Subtract)) }
{
    let other = value?;
    let own = copy_at(row, place)?;
    difference(alloc, kind, &own, &other, p)
}

// The value at a place, or null where the operand's cell is.
fn total_at(
    row: &[Cell],
    place: usize,
    values: &[Result<Cell, Fault>],
    i: usize,
) -> Result<Cell, ScalarErr>
    ensures { Answers result (if is_null (column_of place row.now) then Ok Cell.Null else outcome_at values.now i) }
{
    match row.get(place) {
        None | Some(Cell::Null) => Ok(Cell::Null),
        Some(_) => outcome_at(values, i),
    }
}

impl Column {
    /// The value at the point of a number, which is this row of the operand. It fails only by its fault, or if memory
    /// runs out.
    pub(crate) fn value(
        &self,
        alloc: Global,
        row: &[Cell],
        i: usize,
        p: &Profile,
    ) -> Result<Cell, ScalarErr>
        ensures { Answers result (column_value p.now row.now i self.now) }
    {
        match self {
            Column::Own(place) => Ok(copy_at(row, *place)?),
            Column::Later(place, n) => later(&copy_at(row, *place)?, *n),
            Column::Total(place, values) => total_at(row, *place, values, i),
            Column::Less(place, kind, values) => {
                less_at(alloc, row, *place, *kind, outcome_at(values, i), p)
            }
        }
    }
}
