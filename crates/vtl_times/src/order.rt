// The points by series, in the order of their times.
//
// The points are sorted once. Those that agree in the other identifiers stand together then, and are gone over once for
// each of the four frequencies: no column of frequencies is made, and since a part of a list in order is in order, each
// series is.
ghost use Rattle.std.specs.Prelude.{◌≡◌, ◌<◌, ◌++◌, All, IfOk, OnOk, length};
ghost use Rattle.std.specs.List.{flat_map};
ghost use Rattle.vtl_frames.specs.Stretches.{stretches_of};
ghost use Rattle.vtl_rows.specs.Places.{IsOrderOf};
ghost use Rattle.vtl_timing.specs.Times.{HasTime, time_place};
ghost use Rattle.vtl_times.specs.InOrder.{AreSeries, group_keys, is_at, of_frequency, part_of, parts_of, rising_key, time_keys};
ghost use Rattle.vtl_times.specs.Lists.{IsWhole, lists_of};

use crate::lists::{Lists, no_lists};
use crate::places::{other_identifiers, time_place};
use std::alloc::{AllocError, Global};
use vtl_cell::Cell;
use vtl_frames::Stretches;
use vtl_rows::{SortKey, Table};
use vtl_sets::DataSet;
use vtl_time::Frequency;
use vtl_tree::{Structure, place_of};

// A key that rises.
fn rising(column: usize) -> SortKey
    ensures { result ≡ rising_key column }
{
    SortKey {
        column,
        falling: false,
    }
}

// The keys of the other identifiers.
fn group_keys(alloc: Global, structure: &Structure) -> Result<Vec<SortKey>, AllocError>
    ensures { IfOk result (λ v. v.items ≡ group_keys structure.now) }
{
    let columns = structure.columns(alloc)?;
    let others = other_identifiers(alloc, structure)?;
    let mut keys = Vec::with_capacity(alloc, others.len().saturating_add(1))?;
    for other in &others {
        keys.push(rising(place_of(&columns, &other.name)))?;
    }
    Ok(keys)
}

// The numbers of the points in the order of the other identifiers and the time.
fn sorted_places(alloc: Global, a: &DataSet, time: usize) -> Result<Vec<usize>, AllocError>
    requires time { time ≡ time_place a.now.structure }
    requires one { HasTime a.now.structure }
    ensures within { IfOk result (λ v. All (λ i. i < length a.now.points) v.items) }
    ensures order { IfOk result (λ v. IsOrderOf (time_keys a.now.structure) a.now.points v.items) }
{
    let mut keys = group_keys(alloc, a.structure())?;
    keys.push(rising(time))?;
    let places = a.table().places_by_columns(alloc, &keys)?;
    Ok(places)
}

// Whether the time of a row has a frequency.
fn is_at(row: &[Cell], time: usize, frequency: Frequency) -> bool
    ensures { result ≡ is_at time frequency row.now }
{
    match row.get(time) {
        Some(Cell::Period(period)) => period.frequency() as u8 == frequency as u8,
        _ => false,
    }
}

// Puts those of rows by their numbers whose time has a frequency behind other numbers.
fn push_numbers(
    numbers: &mut Vec<usize>,
    table: &Table,
    time: usize,
    run: &[usize],
    frequency: Frequency,
) -> Result<(), AllocError>
    requires { All (λ k. k < length table.now.rows) run.now }
    ensures { OnOk result (numbers.new.items ≡ numbers.old.items ++ of_frequency time frequency table.now.rows run.now) }
{
    for place in run {
        if is_at(table.row(*place), time, frequency) {
            numbers.push(*place)?;
        }
    }
    Ok(())
}

// Puts them behind other lists, where there are some.
fn push_part(
    series: &mut Lists,
    table: &Table,
    time: usize,
    run: &[usize],
    frequency: Frequency,
) -> Result<(), AllocError>
    requires within { All (λ k. k < length table.now.rows) run.now }
    requires whole { IsWhole series.old }
    ensures whole { OnOk result (IsWhole series.new) }
    ensures lists { OnOk result (lists_of series.new ≡ lists_of series.old ++ part_of time table.now.rows run.now frequency) }
{
    let before = series.numbers.len();
    push_numbers(&mut series.numbers, table, time, run, frequency)?;
    let count = series.numbers.len() - before;
    if count > 0 {
        series.counts.push(count)?;
    }
    Ok(())
}

// Those of each frequency.
fn push_parts(
    series: &mut Lists,
    table: &Table,
    time: usize,
    run: &[usize],
) -> Result<(), AllocError>
    requires within { All (λ k. k < length table.now.rows) run.now }
    requires whole { IsWhole series.old }
    ensures whole { OnOk result (IsWhole series.new) }
    ensures lists { OnOk result (lists_of series.new ≡ lists_of series.old ++ parts_of time table.now.rows run.now) }
{
    push_part(series, table, time, run, Frequency::Annual)?;
    push_part(series, table, time, run, Frequency::Semester)?;
    push_part(series, table, time, run, Frequency::Quarter)?;
    push_part(series, table, time, run, Frequency::Month)
}

// The parts of all stretches of points that agree in the other identifiers.
fn parts_in(
    alloc: Global,
    a: &DataSet,
    places: &[usize],
    time: usize,
    keys: &[SortKey],
) -> Result<Lists, AllocError>
    requires { All (λ k. k < length a.now.points) places.now }
    ensures whole { IfOk result IsWhole }
    ensures lists { IfOk result (λ v. lists_of v ≡ flat_map (parts_of time a.now.points) (stretches_of keys.now a.now.points places.now)) }
{
    let groups = Stretches::of(alloc, a.table(), places, keys)?;
    let mut series = no_lists(alloc, places.len())?;
    for i in 0..groups.len() {
        push_parts(&mut series, a.table(), time, groups.stretch(i))?;
    }
    Ok(series)
}

/// The numbers of the points by series, those of each in the order of their times. It takes the time of a sort. It fails
/// only if memory runs out.
pub(crate) fn series_in_order(alloc: Global, a: &DataSet) -> Result<Lists, AllocError>
    requires { HasTime a.now.structure }
    ensures whole { IfOk result IsWhole }
    ensures series { IfOk result (λ v. AreSeries a.now (lists_of v)) }
{
    let time = time_place(alloc, a.structure())?;
    let keys = group_keys(alloc, a.structure())?;
    let places = sorted_places(alloc, a, time)?;
    parts_in(alloc, a, &places, time, &keys)
}
