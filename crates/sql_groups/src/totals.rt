// Aggregates of an expression over rows.
//
// An aggregate of a column reads its cells and evaluates nothing; where a table is lent, no tuple is read either.
ghost use Rattle.std.specs.Prelude.{◌≡◌, ◌++◌, ◌∷◌, [], IfErr, IfOk, List, map};
ghost use Rattle.vtl_cell.specs.Groups.{group_value};
ghost use Rattle.vtl_cell.specs.Outcome.{after, fault_in, join, unless};
ghost use Rattle.vtl_cell.specs.Row.{column_of};
ghost use Rattle.vtl_cell.specs.declared.cell.Cell as cells;
ghost use Rattle.vtl_agg.specs.Added.{HasRoom, IsAdded};
ghost use Rattle.vtl_scalar.specs.Answers.{Answers};
ghost use Rattle.sql_meaning.specs.Outcomes.{cell_or_null};
ghost use Rattle.sql_eval.specs.Placed.{aggregate_value, placed_value};
ghost use Rattle.sql_eval.specs.View.{placed_of};
ghost use Rattle.vtl_scalar.specs.Seen.{seen_of};
ghost use Rattle.sql_groups.specs.Grouped.{AreWithin, rows_at};
ghost use Rattle.sql_groups.specs.Kept.{rows_of, tables_of};

use sql_eval::{Cells, Resolved, value_at};
use sql_from::{Partners, TupleRows};
use std::alloc::{AllocError, Global};
use vtl_agg::Acc;
use vtl_cell::{AggKind, Cell};
use vtl_decimal::Profile;
use vtl_scalar::{ScalarErr, Seen};

// The rows of this many numbers are fetched side by side.
const BLOCK: usize = 32;

// How many of the rows with these numbers have a value at a place, or a little less. No read of it waits for another, so
// the processor fetches the rows, which lie anywhere in memory, side by side.
fn fetched(rows: &TupleRows<'_>, numbers: &[usize], place: usize) -> usize {
    let mut count = 0usize;
    for number in numbers {
        if *number < rows.len() {
            match rows.cell(*number, place) {
                Cell::Null => {}
                _ => count = count.saturating_add(1),
            }
        }
    }
    count
}

// Fetches the next rows where a block of them begins. Their count is looked at so that they are fetched; it never is so
// great.
fn fetch_block(
    rows: &TupleRows<'_>,
    numbers: &[usize],
    i: usize,
    place: usize,
) -> Result<(), AllocError> {
    if i % BLOCK != 0 {
        return Ok(());
    }
    let rest = numbers.get(i..).unwrap_or(&[]);
    let block = &rest[..rest.len().min(BLOCK)];
    if fetched(rows, block, place) > BLOCK {
        return Err(AllocError);
    }
    Ok(())
}

// Adds the value that an expression has at a row, or null where it has a fault, which is recorded.
fn add_value<R: Cells>(
    alloc: Global,
    acc: &mut Acc,
    seen: Seen,
    operand: &Resolved,
    at: &R,
    p: &Profile,
) -> Result<Seen, ScalarErr>
    requires { HasRoom acc.old }
    ensures settings { acc.new.settings ≡ acc.old.settings }
    ensures kind { acc.new.kind ≡ acc.old.kind }
    ensures added { IfOk result (λ _. (xs : List cells.Cell) → IsAdded acc.old xs → IsAdded acc.new (xs ++ cell_or_null (placed_value p.now (R.tables at.now) (placed_of operand.now) (R.cells at.now) (R.group at.now)) ∷ [])) }
    ensures seen { IfOk result (λ s. seen_of s ≡ join (seen_of seen) (fault_in (placed_value p.now (R.tables at.now) (placed_of operand.now) (R.cells at.now) (R.group at.now)))) }
    ensures err { IfErr result (λ e. e ≡ ScalarErr.OutOfMemory) }
{
    match value_at(alloc, operand, at, p) {
        Ok(value) => {
            acc.add(value.cell())?;
            Ok(seen)
        }
        Err(error) => {
            let with_this = seen.and(error)?;
            let null = Cell::Null;
            acc.add(&null)?;
            Ok(with_this)
        }
    }
}

// The value of the aggregate, unless a fault was seen.
fn finished(acc: Acc, seen: Seen) -> Result<Cell, ScalarErr>
    ensures { (xs : List cells.Cell) → IsAdded acc xs → Answers result (after (unless (seen_of seen) xs) (group_value acc.settings acc.kind)) }
{
    match seen {
        Seen::Nothing => Ok(acc.finish()?),
        Seen::Range => Err(ScalarErr::Range),
        Seen::DivZero => Err(ScalarErr::DivZero),
    }
}

// An aggregate of the cells at a place of the rows with these numbers. It goes over the rows once.
fn of_cells(
    alloc: Global,
    rows: &TupleRows<'_>,
    numbers: &[usize],
    function: AggKind,
    place: usize,
    p: &Profile,
) -> Result<Cell, ScalarErr>
    requires { AreWithin (rows_of rows.now) numbers.now }
    ensures { Answers result (group_value p.now function (map (column_of place) (rows_at (rows_of rows.now) numbers.now))) }
{
    let mut acc = Acc::new(alloc, function, p);
    for i in 0..numbers.len() {
        fetch_block(rows, numbers, i, place)?;
        acc.add(rows.cell(numbers[i], place))?;
    }
    Ok(acc.finish()?)
}

// An aggregate of the values that an expression has at the rows of these numbers: the worst of their faults, or else its
// value or its own fault. It goes over the rows once, at which EXISTS is asked by a look-up where there is one for it.
fn of_values<'a>(
    alloc: Global,
    rows: &'a TupleRows<'a>,
    partners: &'a Partners<'a>,
    numbers: &[usize],
    function: AggKind,
    operand: &Resolved,
    p: &Profile,
) -> Result<Cell, ScalarErr>
    requires numbers { AreWithin (rows_of rows.now) numbers.now }
    requires partners { partners.now ≡ rows.now.sources }
    ensures { Answers result (aggregate_value p.now (tables_of rows.now) function (placed_of operand.now) (rows_at (rows_of rows.now) numbers.now)) }
{
    let mut acc = Acc::new(alloc, function, p);
    let mut seen = Seen::Nothing;
    for number in numbers {
        let at = rows.partnered(*number, partners);
        seen = add_value(alloc, &mut acc, seen, operand, &at, p)?;
    }
    finished(acc, seen)
}

/// An aggregate of an expression at the rows of these numbers: the worst of the faults of its values, or else the value of
/// the aggregate or its own fault. Where the expression is a column, its cells are read and nothing is evaluated.
pub(crate) fn aggregate<'a>(
    alloc: Global,
    rows: &'a TupleRows<'a>,
    partners: &'a Partners<'a>,
    numbers: &[usize],
    function: AggKind,
    operand: &Resolved,
    p: &Profile,
) -> Result<Cell, ScalarErr>
    requires numbers { AreWithin (rows_of rows.now) numbers.now }
    requires partners { partners.now ≡ rows.now.sources }
    ensures { Answers result (aggregate_value p.now (tables_of rows.now) function (placed_of operand.now) (rows_at (rows_of rows.now) numbers.now)) }
{
    match operand {
        Resolved::Column(place) => of_cells(alloc, rows, numbers, function, *place, p),
        _ => of_values(alloc, rows, partners, numbers, function, operand, p),
    }
}
