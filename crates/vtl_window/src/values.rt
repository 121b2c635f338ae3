// The values of a call at the points.
//
// A rank sorts by the partition and the listed components alone (`tie_breakers`): points that tie by these have one
// rank, whatever order they stand in. The other operators see which point stands before which.
ghost use Rattle.std.specs.List.{AllByRecursion};
ghost use Rattle.std.specs.Prelude.{◌≡◌, ◌<◌, ℕ, All, IfErr, IfOk, length, map, option_map};
ghost use Rattle.std.specs.Option.{option_map_or};
ghost use Rattle.vtl_cell.specs.Outcome.{join};
ghost use Rattle.vtl_cell.specs.Row.{column_of};
ghost use Rattle.vtl_rows.specs.Places.{IsOrderOf, row_at};
ghost use Rattle.vtl_tree.specs.Shown.{shown};
ghost use Rattle.vtl_tree.specs.Structure.{columns_of};
ghost use Rattle.vtl_tree.specs.Columns.{identifiers_of, place_of};
ghost use Rattle.vtl_scalar.specs.Seen.{seen_of};
ghost use Rattle.vtl_meaning.specs.Analytics.{tree_value};
ghost use Rattle.vtl_meaning.specs.Made.{IsNamedColumn, IsWindowOver};
ghost use Rattle.vtl_meaning.specs.Windows.{argument, call_value};
ghost use Rattle.vtl_tree.specs.Trees.{analytic};
ghost use Rattle.vtl_window.specs.Analyses.{cells_by, faults_of};
ghost use Rattle.vtl_window.specs.Calls.{lent};
ghost use Rattle.vtl_window.specs.Sorted.{order_keys, partition_keys, sort_keys, tie_breakers};

use crate::call::Call;
use crate::keys::{order_keys, partition_keys, sort_keys, tie_breakers};
use crate::partition::{Outcomes, push_call};
use crate::putting_back::put_back;
use std::alloc::{AllocError, Global};
use vtl_cell::{Cell, Kind};
use vtl_decimal::Profile;
use vtl_frames::Stretches;
use vtl_rows::SortKey;
use vtl_scalar::{ScalarErr, Seen};
use vtl_sets::DataSet;
use vtl_text::Txt;
use vtl_tree::{Component, place_of};

// The place of the component of a call; past the last column where it has none.
fn argument_place(columns: &[&Component], component: Option<&Txt>) -> usize
    ensures { result ≡ option_map_or (λ name. place_of name.now (shown columns.now)) component.entry (length columns.now) }
{
    match component {
        Some(name) => place_of(columns, name),
        None => columns.len(),
    }
}

// The numbers of the points in the order of the sort for a call.
fn sorted_places(
    alloc: Global,
    a: &DataSet,
    columns: &[&Component],
    call: Call<'_>,
) -> Result<Vec<usize>, AllocError>
    requires columns { shown columns.now ≡ columns_of a.now.structure }
    requires partition { AllByRecursion (IsNamedColumn (columns_of a.now.structure)) call.window.now.partition }
    requires order { AllByRecursion (λ key. IsNamedColumn (columns_of a.now.structure) key.component) call.window.now.order }
    ensures within { IfOk result (λ v. All (λ i. i < length a.now.points) v.items) }
    ensures order { IfOk result (λ v. IsOrderOf (sort_keys (columns_of a.now.structure) (tie_breakers call.entry.op.now (identifiers_of a.now.structure)) call.entry.window.now) a.now.points v.items) }
{
    let identifiers = tie_breakers(alloc, a.structure(), call.op)?;
    let keys = sort_keys(alloc, columns, &identifiers, call.window)?;
    let places = a.table().places_by_columns(alloc, &keys)?;
    Ok(places)
}

// The values of a call at the points with these numbers, which stand in the order of the sort.
fn sorted_values(
    alloc: Global,
    a: &DataSet,
    places: &[usize],
    call: Call<'_>,
    column: usize,
    partition: &[SortKey],
    order: &[SortKey],
    p: &Profile,
) -> Result<Outcomes, AllocError>
    requires column { (k : ℕ) → column_of column (row_at a.now.points k) ≡ argument (columns_of a.now.structure) (option_map (λ name. name.now) call.component) (row_at a.now.points k) }
    requires partition { partition.now ≡ partition_keys (columns_of a.now.structure) call.window.now }
    requires order { order.now ≡ order_keys (columns_of a.now.structure) call.window.now }
    requires sorted { IsOrderOf (sort_keys (columns_of a.now.structure) (tie_breakers call.op.now (identifiers_of a.now.structure)) call.window.now) a.now.points places.now }
    ensures { IfOk result (λ v. v.items ≡ map (λ k. call_value p.now a.now (lent call.entry) (row_at a.now.points k)) places.now) }
{
    let partitions = Stretches::of(alloc, a.table(), places, partition)?;
    let mut out = Vec::with_capacity(alloc, places.len())?;
    for i in 0..partitions.len() {
        let run = partitions.stretch(i);
        push_call(alloc, &mut out, a, run, call, column, order, p)?;
    }
    Ok(out)
}

/// The values of a call at the points of a data set, as cells of the kind, in the order of the points. A null stands for
/// a value with a fault, which is noted. It fails only if memory runs out.
///
/// The points are sorted once, and each partition is gone over once.
pub(crate) fn call_cells(
    alloc: Global,
    seen: &mut Seen,
    call: Call<'_>,
    kind: Kind,
    a: &DataSet,
    p: &Profile,
) -> Result<Vec<Cell>, ScalarErr>
    requires { IsWindowOver (columns_of a.now.structure) call.op.now call.window.now }
    ensures cells { IfOk result (λ v. v.items ≡ cells_by (tree_value p.now a.now kind (analytic (lent call.entry))) a.now.points) }
    ensures seen { IfOk result (λ _. seen_of seen.new ≡ join (seen_of seen.old) (faults_of (tree_value p.now a.now kind (analytic (lent call.entry))) a.now.points)) }
    ensures err { IfErr result (λ e. e ≡ ScalarErr.OutOfMemory) }
{
    let columns = a.structure().columns(alloc)?;
    let places = sorted_places(alloc, a, &columns, call)?;
    let partition = partition_keys(alloc, &columns, call.window)?;
    let order = order_keys(alloc, &columns, call.window)?;
    let column = argument_place(&columns, call.component);
    let sorted = sorted_values(alloc, a, &places, call, column, &partition, &order, p)?;
    put_back(alloc, seen, &places, sorted, kind, p)
}
