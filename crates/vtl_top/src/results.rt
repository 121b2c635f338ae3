// The outputs of the results.
ghost use Rattle.std.specs.Prelude.{◌≡◌, ◌<◌, length, map, slice_index_or, IfOk};
ghost use Rattle.std.specs.List.{AllByRecursion};
ghost use Rattle.vtl_rows.specs.Tables.{listed};
ghost use Rattle.vtl_sets.specs.TableOf.{IsTableOf};
ghost use Rattle.vtl_check.specs.Checked.{known_of};
ghost use Rattle.vtl_backend.specs.Inputs.{AreInRange, AreInputs};
ghost use Rattle.vtl_backend.specs.Runs.{script_meaning};
ghost use Rattle.vtl_top.specs.Expected.{data_set, output_of, outputs_of};
ghost use Rattle.vtl_top.specs.OutputView.{NamesPath, output_view, outputs_view};
ghost use Rattle.vtl_top.specs.Refusal.{SettlesBy, faulted};
ghost use Rattle.vtl_top.specs.ResultTables.{AreKnown, IsKnown, file_for};
ghost use Rattle.vtl_top.specs.Informed.{HasRun};
ghost use Rattle.vtl_top.specs.Steps.{status_of};

use crate::output::Output;
use crate::reading::file_in;
use std::alloc::{AllocError, Global};
use vtl_backend::Backend;
use vtl_check::Checked;
use vtl_csv::write_dataset;
use vtl_interp::run_over;
use vtl_rows::{Table, Tables};
use vtl_scalar::RunErr;
use vtl_status::Status;
use vtl_text::Txt;
use vtl_tree::Structure;

// What is written of a result: its text, and the path of its file in a folder.
fn make_output(
    alloc: Global,
    folder: &str,
    checked: &Checked,
    name: &Txt,
    table: &Table,
    structure: &Structure,
) -> Result<Output, AllocError>
    requires { IsTableOf structure.now (listed table.now) }
    ensures view { IfOk result (λ o. output_view o ≡ output_of folder.now checked.now.settings (name.now, data_set structure.now table.now.rows)) }
    ensures named { IfOk result NamesPath }
{
    let path = file_in(alloc, folder, name)?;
    let named = Txt::new(alloc, path.as_str())?;
    let bytes = write_dataset(alloc, table, structure, checked.profile())?;
    Ok(Output { path, named, bytes })
}

// What is written of the table at a place.
fn make_output_at(
    alloc: Global,
    folder: &str,
    checked: &Checked,
    tables: &Tables,
    i: usize,
) -> Result<Output, AllocError>
    requires within { i < length tables.now }
    requires known { AreKnown (known_of checked.now) tables.now }
    ensures view { IfOk result (λ o. output_view o ≡ slice_index_or (map (file_for folder.now checked.now.settings (known_of checked.now)) tables.now) i (output_view o)) }
    ensures named { IfOk result NamesPath }
{
    let (name, table) = tables.at(i);
    match checked.structure(name) {
        Some(structure) => make_output(alloc, folder, checked, name, table, structure),
        None => unreachable!(),
    }
}

// The outputs of all tables, in order, in a folder.
pub(crate) fn make_outputs(
    alloc: Global,
    folder: &str,
    checked: &Checked,
    tables: &Tables,
) -> Result<Vec<Output>, AllocError>
    requires { AreKnown (known_of checked.now) tables.now }
    ensures view { IfOk result (λ o. outputs_view o ≡ map (file_for folder.now checked.now.settings (known_of checked.now)) tables.now) }
    ensures named { IfOk result (λ o. AllByRecursion NamesPath o.items) }
{
    let mut outputs = Vec::new(alloc);
    for i in 0..tables.len() {
        outputs.push(make_output_at(alloc, folder, checked, tables, i)?)?;
    }
    Ok(outputs)
}

/// The status of a run that gave no tables, or no exports.
pub(crate) fn faulted(error: RunErr) -> Status
    ensures { result ≡ faulted error }
{
    match error {
        RunErr::DivZero(name) => Status::DivZero(name),
        RunErr::Range(name) => Status::Range(name),
        RunErr::OutOfMemory => Status::Memory,
    }
}

/// The outputs that a script means over its inputs, in a folder, or the status of its fault; or that memory ran out.
/// The inputs are let go before the first text is made.
pub fn results<B: Backend>(
    alloc: Global,
    back: &mut B,
    folder: &str,
    checked: &Checked,
    inputs: Tables,
) -> Result<Vec<Output>, Status>
    requires inputs { AreInputs checked.now inputs }
    requires ranges { AreInRange checked.now inputs }
    ensures view { SettlesBy outputs_view (outputs_of folder.now checked.now.settings (script_meaning checked.now inputs)) result }
    ensures named { IfOk result (λ o. AllByRecursion NamesPath o.items) }
    ensures told { HasRun (status_of result) → B.told back.new checked.now }
{
    // The nodes are the typing of the script, so the structures of its results are known.
    let _nodes = checked.nodes();
    let mut tables = Tables::new(alloc);
    match run_over(alloc, back, checked, inputs, &mut tables) {
        Ok(()) => Ok(make_outputs(alloc, folder, checked, &tables)?),
        Err(error) => Err(faulted(error)),
    }
}
