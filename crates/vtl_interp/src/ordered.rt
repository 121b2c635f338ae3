// Scripts over tables that are let go then, and tables with their rows in the order of their identifiers.
ghost use Rattle.std.specs.Prelude.{◌≢◌, ◌<◌, ◌≤◌, ◌+◌, length, All, Err, IfOk, OnOk};
ghost use Rattle.vtl_check.specs.Checked.{tree_of};
ghost use Rattle.vtl_check.specs.Transformations.{transformations};
ghost use Rattle.vtl_rows.specs.Tables.{listed};
ghost use Rattle.vtl_backend.specs.Inputs.{AreInRange, AreInputs};
ghost use Rattle.vtl_backend.specs.Runs.{Runs};
ghost use Rattle.vtl_interp.specs.Reordered.{AreReordered, IsPut, IsReordered};

use crate::windows::have_window;
use std::alloc::{AllocError, Global};
use vtl_backend::Backend;
use vtl_check::Checked;
use vtl_rows::{Inputs, Outputs, SortKey, Table, Tables, are_all};
use vtl_scalar::RunErr;
use vtl_text::Txt;

/// Runs a script by a back end over tables that are let go then.
///
/// The inputs of a script with windows that go along identifiers are first put in the order of these. Windows then find
/// their points in order, and so does the text of an output: that saves more than the sort of the inputs costs. What a
/// script means does not depend on the order of points, so no back end need know of it.
///
/// # Errors
///
/// The same as those of the back end's run.
pub fn run_over<B: Backend>(
    alloc: Global,
    back: &mut B,
    script: &Checked,
    inputs: Inputs,
    out: &mut Outputs,
) -> Result<(), RunErr>
    requires inputs { AreInputs script.now inputs }
    requires ranges { AreInRange script.now inputs }
    ensures run { Runs script.now inputs out.old out.new result }
    ensures told { result ≢ Err RunErr.OutOfMemory → B.told back.new script.now }
    ensures work { B.work back.old ≤ B.work back.new }
    ensures few { B.work back.new ≤ B.work back.old + length (transformations (tree_of script.now)) }
{
    let windowed = have_window(script.nodes());
    let ready = prepared(alloc, script, inputs, windowed)?;
    back.run(alloc, script, &ready, out)
}

// The inputs as they are, or in order for a script with windows along identifiers.
fn prepared(
    alloc: Global,
    script: &Checked,
    inputs: Inputs,
    windowed: bool,
) -> Result<Inputs, AllocError>
    ensures { IfOk result (AreReordered inputs) }
{
    if windowed {
        return in_order(alloc, script, &inputs);
    }
    Ok(inputs)
}

// All tables, the rows of each in the order of its identifiers.
fn in_order(alloc: Global, script: &Checked, inputs: &Inputs) -> Result<Inputs, AllocError>
    ensures { IfOk result (AreReordered inputs.now) }
{
    let mut sorted = Tables::new(alloc);
    for i in 0..inputs.len() {
        let (name, table) = inputs.at(i);
        let count = number_of_identifiers(script, name);
        put_sorted(alloc, &mut sorted, name, table, count)?;
    }
    Ok(sorted)
}

// How many identifiers the data set of a name has; none where the script knows no such data set.
fn number_of_identifiers(script: &Checked, name: &Txt) -> usize {
    match script.structure(name) {
        Some(structure) => structure.key_width(),
        None => 0,
    }
}

// Puts a table behind the others, its rows in the order of the first columns, unless its name is taken.
fn put_sorted(
    alloc: Global,
    sorted: &mut Tables,
    name: &Txt,
    table: &Table,
    count: usize,
) -> Result<(), AllocError>
    ensures { OnOk result (IsPut name.now (listed table.now) sorted.old sorted.new) }
{
    match sorted.get(name) {
        Some(_) => Ok(()),
        None => {
            let shared = name.share()?;
            let rows = sorted_table(alloc, table, count)?;
            sorted.put(alloc, shared, rows)
        }
    }
}

// The rows of a table in the order of the first columns. Rows that stand so already are shared where they can be.
fn sorted_table(alloc: Global, table: &Table, count: usize) -> Result<Table, AllocError>
    ensures { IfOk result (λ t. IsReordered (listed table.now) (listed t)) }
{
    let keys = first_columns(alloc, count.min(table.columns().len()))?;
    let places = table.places_by_columns(alloc, &keys)?;
    if are_all(&places, table.len()) {
        return table.share();
    }
    table.gather(alloc, &places)
}

// Keys that rise by the first columns.
fn first_columns(alloc: Global, count: usize) -> Result<Vec<SortKey>, AllocError>
    ensures { IfOk result (λ keys. All (λ k. k.column < count) keys.items) }
{
    let mut keys = Vec::with_capacity(alloc, count)?;
    for column in 0..count {
        keys.push(SortKey {
            column,
            falling: false,
        })?;
    }
    Ok(keys)
}
