// Aggregates of the rows of a group.
ghost use Rattle.std.specs.Prelude.{◌≡◌, ◌++◌, ◌∷◌, [], List, OnOk, map};
ghost use Rattle.std.specs.Option.{option_copied};
ghost use Rattle.vtl_agg.specs.Added.{HasRoom, IsAdded};
ghost use Rattle.vtl_meaning.specs.Aggregates.{measure_call, target_named};
ghost use Rattle.vtl_cell.specs.Groups.{group_value};
ghost use Rattle.vtl_cell.specs.Row.{column_of};
ghost use Rattle.vtl_cell.specs.declared.cell.Cell as cells;
ghost use Rattle.vtl_group.specs.Calls.{AreWithin, call_value, column_place, placed, placed_call, placed_for, rows_at};
ghost use Rattle.vtl_scalar.specs.Answers.{Answers};

use std::alloc::{AllocError, Global};
use vtl_agg::Acc;
use vtl_cell::{AggKind, Cell};
use vtl_decimal::{Profile, whole};
use vtl_rows::{Column, Table};
use vtl_scalar::ScalarErr;
use vtl_text::Txt;
use vtl_tree::{AggCall, AggItems, AggTarget};

// The rows of this many numbers are fetched side by side.
const BLOCK: usize = 32;

/// An aggregate of a group, with a place in place of a name.
#[derive(Clone, Copy)]
pub(crate) enum Call {
    /// There is none, and the value is null.
    Nothing,
    /// How many points there are.
    Points,
    /// An aggregate of the cells at a place.
    Cells { kind: AggKind, place: usize },
}

/// The place of the column of a name, or the number of columns where there is none.
pub(crate) fn column_place(columns: &[Column], name: &Txt) -> usize
    ensures { result ≡ column_place name.now columns.now }
{
    for i in 0..columns.len() {
        if columns[i].name == *name {
            return i;
        }
    }
    columns.len()
}

/// An aggregate of a component, or the number of points.
pub(crate) fn placed(columns: &[Column], kind: AggKind, component: &Option<Txt>) -> Call
    ensures { result ≡ placed columns.now kind component.now }
{
    match component {
        None => Call::Points,
        Some(name) => Call::Cells {
            kind,
            place: column_place(columns, name),
        },
    }
}

// An aggregate of a measure; `count` is the number of points.
fn of_measure(columns: &[Column], kind: AggKind, name: &Txt) -> Call
    ensures { result ≡ placed_call columns.now (measure_call kind name.now) }
{
    match kind {
        AggKind::Count => Call::Points,
        _ => Call::Cells {
            kind,
            place: column_place(columns, name),
        },
    }
}

// The target of a name.
fn target_named<'a>(targets: &'a [AggTarget], name: &Txt) -> Option<&'a AggTarget>
    ensures { option_copied result ≡ target_named targets.now name.now }
{
    for target in targets {
        if target.target == *name {
            return Some(target);
        }
    }
    None
}

/// The aggregate that makes the column of a name.
pub(crate) fn call_for(columns: &[Column], items: &AggItems, name: &Txt) -> Call
    ensures { result ≡ placed_for columns.now items.now name.now }
{
    match items {
        AggItems::Measures(kind) => of_measure(columns, *kind, name),
        AggItems::Targets(targets) => match target_named(targets.as_slice(), name) {
            Some(target) => placed(columns, target.call.kind, &target.call.component),
            None => Call::Nothing,
        },
    }
}

// Adds the cell at a place of a row, or null after its last cell.
fn add_cell(acc: &mut Acc, row: &[Cell], place: usize) -> Result<(), AllocError>
    requires { HasRoom acc.old }
    ensures settings { acc.new.settings ≡ acc.old.settings }
    ensures kind { acc.new.kind ≡ acc.old.kind }
    ensures added { OnOk result ((xs : List cells.Cell) → IsAdded acc.old xs → IsAdded acc.new (xs ++ column_of place row.now ∷ [])) }
{
    match row.get(place) {
        Some(cell) => acc.add(cell),
        None => {
            let null = Cell::Null;
            acc.add(&null)
        }
    }
}

// How many of the rows with these numbers have a value at a place, or a little less. No read of it waits for another, so
// the processor fetches the rows, which lie anywhere in memory, side by side.
fn fetched(table: &Table, numbers: &[usize], place: usize) -> usize {
    let mut count = 0usize;
    for number in numbers {
        if *number < table.len() {
            match table.row(*number).get(place) {
                None | Some(Cell::Null) => {}
                Some(_) => count = count.saturating_add(1),
            }
        }
    }
    count
}

// Fetches the next rows where a block of them begins. Their count is looked at so that they are fetched; it never is
// so great.
fn fetch_block(table: &Table, numbers: &[usize], i: usize, place: usize) -> Result<(), AllocError> {
    if i % BLOCK != 0 {
        return Ok(());
    }
    let rest = numbers.get(i..).unwrap_or(&[]);
    let block = &rest[..rest.len().min(BLOCK)];
    if fetched(table, block, place) > BLOCK {
        return Err(AllocError);
    }
    Ok(())
}

// An aggregate of the cells at a place of the rows with these numbers. It goes over the rows once.
fn of_cells(
    alloc: Global,
    table: &Table,
    numbers: &[usize],
    kind: AggKind,
    place: usize,
    p: &Profile,
) -> Result<Cell, ScalarErr>
    requires { AreWithin table.now.rows numbers.now }
    ensures { Answers result (group_value p.now kind (map (column_of place) (rows_at table.now.rows numbers.now))) }
{
    let mut acc = Acc::new(alloc, kind, p);
    for i in 0..numbers.len() {
        fetch_block(table, numbers, i, place)?;
        add_cell(&mut acc, table.row(numbers[i]), place)?;
    }
    Ok(acc.finish()?)
}

/// The value of an aggregate of the rows with these numbers. The answer is Range where it is out of range; otherwise it
/// fails only if memory runs out.
pub(crate) fn call_value(
    alloc: Global,
    call: Call,
    table: &Table,
    numbers: &[usize],
    p: &Profile,
) -> Result<Cell, ScalarErr>
    requires { AreWithin table.now.rows numbers.now }
    ensures { Answers result (call_value p.now call (rows_at table.now.rows numbers.now)) }
{
    match call {
        Call::Nothing => Ok(Cell::Null),
        Call::Points => Ok(Cell::Int(whole(numbers.len() as i128, p)?)),
        Call::Cells { kind, place } => of_cells(alloc, table, numbers, kind, place, p),
    }
}
