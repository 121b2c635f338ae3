// Windows over the rows of FROM that WHERE keeps.
//
// One sort for a window: the rows are sorted by the columns of PARTITION BY, then by the keys of ORDER BY, then by
// all columns; a partition is a stretch of the sorted row numbers, and what a call sees is that stretch. A rank and a
// share of the total sort by the listed columns alone (`tie_breakers`): rows that tie by these have one rank, and the
// total is one, whatever order they stand in.
//
// Rows that are alike stand by their numbers: the meaning tells them apart by how many of them come behind, so a sort
// that keeps the order of rows that tie gives each its own place (`told_sorted`).
//
// Values stand in the order of the sort until all are known, and are then moved to their rows, each once.
ghost use Rattle.std.specs.List.{AllByRecursion, concat, range_with_len};
ghost use Rattle.std.specs.Prelude.{◌≡◌, ◌<◌, ◌++◌, ℕ, IfOk, IsPermutation, OnOk, length, map};
ghost use Rattle.vtl_cell.specs.Outcome.{Outcome};
ghost use Rattle.vtl_cell.specs.declared.cell.Cell as cells;
ghost use Rattle.sql_check_parts.specs.Scopes.{row_of};
ghost use Rattle.sql_meaning.specs.Values.{place_in};
ghost use Rattle.sql_meaning.specs.Windows.{told_apart, window_value};
ghost use Rattle.sql_from.specs.Sources.{scope_held};
ghost use Rattle.sql_from.specs.Standing.{rows_for, sight_of};
ghost use Rattle.sql_window.specs.Keys.{AreCut};
ghost use Rattle.sql_window.specs.Runs.{window_at};

use crate::calls::{Outcomes, push_call};
use crate::keys::{all_keys, order_keys, partition_keys};
use crate::tabled_rows::TabledRows;
use sql_from::Sources;
use sql_tree::Window;
use std::alloc::{AllocError, Global};
use vtl_cell::Cell;
use vtl_decimal::{Fault, Profile};
use vtl_frames::Stretches;
use vtl_rows::{SortKey, Table};

// Puts the values of a window at the rows of its partitions behind other values, partition by partition.
fn push_partitions(
    alloc: Global,
    out: &mut Outcomes,
    sources: &Sources<'_>,
    table: &Table,
    partitions: &Stretches<'_>,
    window: &Window,
    order: &[SortKey],
    p: &Profile,
) -> Result<(), AllocError>
    requires { AreCut (sight_of p.now sources.now) window.now order.now table.now.rows (length table.now.columns) partitions.now }
    ensures { OnOk result (out.new.items ≡ out.old.items ++ map (window_at (sight_of p.now sources.now) window.now table.now.rows) (concat partitions.now)) }
{
    for i in 0..partitions.len() {
        let run = partitions.stretch(i);
        push_call(alloc, out, sources, table, run, window, order, p)?;
    }
    Ok(())
}

// Null for each of so many rows.
fn nulls(alloc: Global, count: usize) -> Result<Outcomes, AllocError>
    ensures { IfOk result (λ v. length v.items ≡ count) }
{
    let mut nulls = Vec::with_capacity(alloc, count)?;
    for _place in 0..count {
        nulls.push(Ok(Cell::Null))?;
    }
    Ok(nulls)
}

// Puts values, which stand in an order of the rows, at their rows.
pub(crate) fn put_back(
    alloc: Global,
    places: &[usize],
    values: Outcomes,
) -> Result<Outcomes, AllocError>
    requires all { IsPermutation (range_with_len 0 (length places.now)) places.now }
    requires many { length values.items ≡ length places.now }
    ensures { (f : ℕ → Outcome cells.Cell) → values.items ≡ map f places.now → IfOk result (λ v. v.items ≡ map f (range_with_len 0 (length places.now))) }
{
    let mut back = nulls(alloc, places.len())?;
    let mut values = values;
    while let Some(value) = values.pop() {
        back[places[values.len()]] = value;
    }
    Ok(back)
}

/// The values of a window at the rows of FROM that WHERE keeps, in the order of the rows; a fault stands for a value
/// where there is one. It fails only if memory runs out.
///
/// It takes the time of a sort; what else it does grows with the rows alone, but for frames of a median, which no window
/// has.
pub fn window_values(
    alloc: Global,
    rows: &TabledRows<'_>,
    window: &Window,
    p: &Profile,
) -> Result<Vec<Result<Cell, Fault>>, AllocError>
    requires partition { AllByRecursion (λ x. place_in (scope_held rows.now.rows.now.sources.sources) x < length (row_of (scope_held rows.now.rows.now.sources.sources))) window.now.over.partition }
    requires order { AllByRecursion (λ k. place_in (scope_held rows.now.rows.now.sources.sources) k.column < length (row_of (scope_held rows.now.rows.now.sources.sources))) window.now.over.order }
    ensures { IfOk result (λ v. v.items ≡ map (window_value (sight_of p.now rows.now.rows.now.sources) window.now (rows_for rows.now.rows.now.sources rows.now.rows.now.tuples)) (told_apart (rows_for rows.now.rows.now.sources rows.now.rows.now.tuples))) }
{
    let table = rows.table();
    let sources = rows.sources();
    let partition = partition_keys(alloc, sources, window.over.partition.as_slice())?;
    let order = order_keys(alloc, sources, window.over.order.as_slice())?;
    let width = table.columns().len();
    let keys = all_keys(alloc, &partition, &order, &window.call, width)?;
    let places = table.places_by_columns(alloc, &keys)?;
    let partitions = Stretches::of(alloc, table, &places, &partition)?;
    let mut values = Vec::with_capacity(alloc, places.len())?;
    push_partitions(
        alloc,
        &mut values,
        sources,
        table,
        &partitions,
        window,
        &order,
        p,
    )?;
    put_back(alloc, &places, values)
}
