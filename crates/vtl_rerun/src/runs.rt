// Runs of parts.
ghost use Rattle.std.specs.Prelude.{◌≡◌, ◌≤◌, ◌<◌, ◌+◌, length, slice_get, take, OnOk, Some};
ghost use Rattle.vtl_cell.specs.Outcome.{Outcome};
ghost use Rattle.vtl_tree.specs.Environment.{DataSet};
ghost use Rattle.vtl_check.specs.Checked.{tree_of};
ghost use Rattle.vtl_check.specs.Transformations.{transformations};
ghost use Rattle.vtl_scripts.specs.Meaning.{Statement};
ghost use Rattle.vtl_backend.specs.Inputs.{AreInRange, AreInputs, environment_of};
ghost use Rattle.vtl_backend.specs.Runs.{script_meaning};
ghost use Rattle.vtl_backend.specs.Statements.{statements_of};
ghost use Rattle.rerun_laws.specs.Refreshes.{numbers_of, stale};
ghost use Rattle.rerun_laws.specs.Values.{values};
ghost use Rattle.vtl_rerun.specs.Kept.{Freshens};
ghost use Rattle.vtl_rerun.specs.Sessions.{AreHeld, IsRunning, fresh_in};
ghost use Rattle.vtl_rerun.specs.Told.{GivesOne, HasOneOutput, Tells};

use crate::given::{given, held};
use crate::part::Part;
use script_parts::statement;
use std::alloc::Global;
use vtl_backend::Backend;
use vtl_check::Checked;
use vtl_rows::{Inputs, SharedTable, Tables};
use vtl_scalar::RunErr;

// The table of a script that has one transformation, which is written.
fn only_output<B: Backend>(
    alloc: Global,
    back: &mut B,
    script: &Checked,
    inputs: &Inputs,
) -> Result<SharedTable, RunErr>
    requires inputs { AreInputs script.now inputs.now }
    requires ranges { AreInRange script.now inputs.now }
    requires one { HasOneOutput script.now }
    ensures output { GivesOne (script_meaning script.now inputs.now) result }
    ensures work { B.work back.new ≤ B.work back.old + 1 }
{
    let mut out = Tables::new(alloc);
    back.run(alloc, script, inputs, &mut out)?;
    match out.pop_shared() {
        Some((_name, table)) => Ok(table),
        None => unreachable!(),
    }
}

// The result of the part at a place, over the tables of inputs and the results before it, or its fault.
fn run_part<B: Backend>(
    alloc: Global,
    back: &mut B,
    script: &Checked,
    parts: &[Part],
    place: usize,
    inputs: &Inputs,
    results: &[Option<SharedTable>],
) -> Result<SharedTable, RunErr>
    requires within { place < length parts.now }
    requires running { IsRunning script.now parts.now inputs.now results.now }
    requires before { AreHeld (take place results.now) }
    ensures told { (s : Statement) (v : Outcome DataSet) → slice_get (statements_of script.now) place ≡ Some s → slice_get (values script.now.settings (statements_of script.now) (environment_of script.now inputs.now)) place ≡ Some v → Tells s.result v result }
    ensures work { B.work back.new ≤ B.work back.old + 1 }
{
    let part = &parts[place];
    let own = statement(alloc, script, part.number)?;
    let tables = given(alloc, &part.operands, inputs, results)?;
    only_output(alloc, back, &own, &tables)
}

/// Runs the parts of a script that hold no result, in order, each as a script of its own, and answers the numbers of
/// their transformations.
///
/// # Errors
///
/// The fault of the first part that has one, with the name of its result; or there was not enough memory. Results that
/// were made before stay.
pub(crate) fn run_stale<B: Backend>(
    alloc: Global,
    back: &mut B,
    script: &Checked,
    parts: &[Part],
    inputs: &Inputs,
    results: &mut [Option<SharedTable>],
) -> Result<Vec<usize>, RunErr>
    requires { IsRunning script.now parts.now inputs.now results.old }
    ensures running { IsRunning script.now parts.now inputs.now results.new }
    ensures ran { Freshens (transformations (tree_of script.now)) (script_meaning script.now inputs.now) (fresh_in (numbers_of (transformations (tree_of script.now))) results.old) (fresh_in (numbers_of (transformations (tree_of script.now))) results.new) result }
    ensures held { OnOk result (AreHeld results.new) }
    ensures stays { AreHeld results.old → AreHeld results.new }
    ensures work { B.work back.new ≤ B.work back.old + length (stale (fresh_in (numbers_of (transformations (tree_of script.now))) results.old) (transformations (tree_of script.now))) }
{
    let mut ran = Vec::new(alloc);
    for place in 0..parts.len() {
        if held(results, place).is_none() {
            ran.push(parts[place].number)?;
            let table = run_part(alloc, back, script, parts, place, inputs, results)?;
            results[place] = Some(table);
        }
    }
    Ok(ran)
}
