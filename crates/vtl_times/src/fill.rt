// `fill_time_series`
//
// The rows of the series are made first, with room for all of them asked for at once; each then looks for the point with
// its identifiers, and the cells of both are gathered, null where there is no such point.
ghost use Rattle.std.specs.Prelude.{◌≡◌, ◌<◌, ◌++◌, map, IfOk, OnOk};
ghost use Rattle.vtl_index.specs.Seekers.{first_meant};
ghost use Rattle.vtl_rows.specs.Tables.{listed};
ghost use Rattle.vtl_series.specs.Series.{series_rows};
ghost use Rattle.vtl_sets.specs.DataSets.{data_set};
ghost use Rattle.vtl_sets.specs.TableOf.{IsTableOf, column_for};
ghost use Rattle.vtl_tree.specs.Columns.{identifiers_of, others_of, places_in};
ghost use Rattle.vtl_tree.specs.Structure.{columns_of};
ghost use Rattle.vtl_timing.specs.Times.{HasTime, fill_of, other_identifiers, series_columns, time_place};
ghost use Rattle.vtl_times.specs.Filling.{filled_picks, numbered, picks_of, sought_in};

use crate::places::{other_identifiers, series_columns, time_place};
use std::alloc::{AllocError, Global};
use std::marker::Brand;
use std::sync::ledger::{Blank, Ledger};
use vtl_index::{Seeker, Steps};
use vtl_rows::{Pick, Table, gather_beside};
use vtl_series::{Extent, rows_of_series, rows_stand_once};
use vtl_sets::{DataSet, table_columns};
use vtl_tree::{Role, Structure, places_in};

// The rows of the series of a data set.
fn series_of(alloc: Global, a: &DataSet, extent: Extent) -> Result<Table, AllocError>
    requires { HasTime a.now.structure }
    ensures columns { IfOk result (λ t. t.columns ≡ map column_for (series_columns a.now.structure)) }
    ensures rows { IfOk result (λ t. t.rows ≡ series_rows extent (time_place a.now.structure) (places_in (columns_of a.now.structure) (other_identifiers a.now.structure)) a.now.points) }
{
    let structure = a.structure();
    let time = time_place(alloc, structure)?;
    let others = other_identifiers(alloc, structure)?;
    let columns = structure.columns(alloc)?;
    let by = places_in(alloc, &columns, &others)?;
    rows_of_series(alloc, a.table(), time, &by, extent)
}

// The places of the identifiers in a row of a series.
fn asked_places(alloc: Global, structure: &Structure) -> Result<Vec<usize>, AllocError>
    ensures { IfOk result (λ v. v.items ≡ places_in (series_columns structure.now) (identifiers_of structure.now)) }
{
    let columns = series_columns(alloc, structure)?;
    let identifiers = structure.identifiers(alloc)?;
    places_in(alloc, &columns, &identifiers)
}

// Their places in a point.
fn own_places(alloc: Global, structure: &Structure) -> Result<Vec<usize>, AllocError>
    ensures { IfOk result (λ v. v.items ≡ places_in (columns_of structure.now) (identifiers_of structure.now)) }
{
    let identifiers = structure.identifiers(alloc)?;
    vtl_expr::places_in(alloc, structure, &identifiers)
}

// For each row of the series the number of the point with its identifiers, or how many points there are.
fn partners<L: Ledger>(
    alloc: Global,
    a: &DataSet,
    series: &Table,
    blank: Blank,
) -> Result<Vec<usize>, AllocError>
    requires name { blank.name ≡ L.name }
    requires parts { blank.parts ≡ L.parts }
    requires some { 0 < L.parts }
    ensures { IfOk result (λ v. v.items ≡ map (first_meant (sought_in a.now)) series.now.rows) }
{
    let mut steps: Steps<L> = Steps::new(blank);
    let structure = a.structure();
    let own = own_places(alloc, structure)?;
    let asked = asked_places(alloc, structure)?;
    let seeker = Seeker::of(alloc, a.table(), &own, &asked, &mut steps)?;
    seeker.firsts(alloc, series, &mut steps)
}

// The number of each row, and behind it the number that stands there.
fn numbered(alloc: Global, numbers: &[usize]) -> Result<Vec<usize>, AllocError>
    ensures { IfOk result (λ v. v.items ≡ numbered numbers.now) }
{
    let mut pairs = Vec::with_capacity(alloc, numbers.len().saturating_mul(2))?;
    for i in 0..numbers.len() {
        pairs.push(i)?;
        pairs.push(numbers[i])?;
    }
    Ok(pairs)
}

// Puts the cells at places of a part behind others.
fn push_picks(picks: &mut Vec<Pick>, part: usize, places: &[usize]) -> Result<(), AllocError>
    ensures { OnOk result (picks.new.items ≡ picks.old.items ++ picks_of part places.now) }
{
    for place in places {
        picks.push(Pick {
            part,
            column: *place,
        })?;
    }
    Ok(())
}

// The places of the columns behind the identifiers.
fn behind_places(alloc: Global, structure: &Structure) -> Result<Vec<usize>, AllocError>
    ensures { IfOk result (λ v. v.items ≡ places_in (columns_of structure.now) (others_of structure.now)) }
{
    let columns = structure.columns(alloc)?;
    let measures = structure.of_role(alloc, Role::Measure)?;
    let attributes = structure.of_role(alloc, Role::Attribute)?;
    let mut places = places_in(alloc, &columns, &measures)?;
    let mut behind = places_in(alloc, &columns, &attributes)?;
    places.append(&mut behind)?;
    Ok(places)
}

// The cells of which a filled point is put together.
fn filled_picks(alloc: Global, structure: &Structure) -> Result<Vec<Pick>, AllocError>
    ensures { IfOk result (λ v. v.items ≡ filled_picks structure.now) }
{
    let mut picks = Vec::new(alloc);
    push_picks(&mut picks, 0, &asked_places(alloc, structure)?)?;
    push_picks(&mut picks, 1, &behind_places(alloc, structure)?)?;
    Ok(picks)
}

fn filled_table(alloc: Global, a: &DataSet, extent: Extent) -> Result<Table, AllocError>
    requires { HasTime a.now.structure }
    ensures table { IfOk result (λ t. IsTableOf a.now.structure (listed t)) }
    ensures rows { IfOk result (λ t. t.rows ≡ fill_of extent a.now) }
{
    rows_stand_once();
    let series = series_of(alloc, a, extent)?;
    let numbers = partners::<Brand>(alloc, a, &series, Blank::new(1))?;
    let pairs = numbered(alloc, &numbers)?;
    let structure = a.structure();
    let picks = filled_picks(alloc, structure)?;
    let columns = table_columns(alloc, structure)?;
    gather_beside(alloc, &[&series, a.table()], &pairs, &picks, columns)
}

/// The points, and for each series a point for each period from its first to its last, or to the last of all points of its
/// frequency, that has none: null in all that is no identifier; as a data set of the operand's structure. It takes time
/// that is linear in the points and those that it gives, and asks for room for all series at once. It fails only if
/// memory runs out.
pub fn fill_time_series(alloc: Global, a: &DataSet, extent: Extent) -> Result<DataSet, AllocError>
    requires { HasTime a.now.structure }
    ensures { IfOk result (λ d. d ≡ data_set a.now.structure (fill_of extent a.now)) }
{
    let table = filled_table(alloc, a, extent)?;
    DataSet::of(alloc, a.structure(), table)
}
