// A replay: a session of a script, whose inputs are replaced one after the other.
//
// The interpreter alone carries it out. No clause sees that there is a session: what a replay makes is said of the files
// alone (`replay_step`), as if each refresh ran the whole script.
ghost use Rattle.std.specs.Prelude.{◌≡◌, ◌++◌, true, map, None, Some, Ok, IfOk, OnOk, string_bytes};
ghost use Rattle.std.specs.List.{AllByRecursion};
ghost use Rattle.rerun_laws.specs.Refreshes.{faulted, ran};
ghost use Rattle.vtl_rows.specs.Tables.{listed};
ghost use Rattle.vtl_tree.specs.DataSet.{AreOfProfile};
ghost use Rattle.vtl_backend.specs.Inputs.{AreInRange, AreInputs, environment_of};
ghost use Rattle.vtl_rerun.specs.Kept.{IsInputOf, meaning_now};
ghost use Rattle.vtl_top.specs.Answered.{Takes};
ghost use Rattle.vtl_top.specs.EditsView.{HasEnded, NamesInput, edit_view, files_and_text, script_at, stage_view};
ghost use Rattle.vtl_top.specs.Informed.{typed_view};
ghost use Rattle.vtl_top.specs.Expected.{outputs_of};
ghost use Rattle.vtl_top.specs.OutputView.{NamesPath, outputs_view};
ghost use Rattle.vtl_top.specs.Refusal.{SettlesBy};
ghost use Rattle.vtl_top.specs.Replayed.{after_edits, after_script, begun, carried_on, edited_step, refresh_line, refreshed, replaced, replay_made, replay_step, replayed_step};
ghost use Rattle.vtl_top.specs.RunView.{replay_view};

use crate::edits::{Edit, read_edited, read_edits};
use crate::inputs::read_inputs;
use crate::output::Output;
use crate::results::{faulted, make_outputs};
use crate::run::read_typed;
use crate::words::Replay;
use std::alloc::{AllocError, Global};
use vtl_check::Checked;
use vtl_files::Files;
use vtl_interp::Interp;
use vtl_rerun::Session;
use vtl_rows::{Inputs, Table};
use vtl_scalar::RunErr;
use vtl_status::Status;
use vtl_text::Txt;

// How far a replay has come: the script with its inputs as they stand, the lines of the refreshes, and the fault of the
// last one.
#[derive(Drop)]
struct Stage {
    session: Session<Interp>,
    said: String,
    fault: Option<RunErr>,
}

// The line of a refresh that ran the transformations of these numbers.
fn ran_line(alloc: Global, numbers: &[usize]) -> Result<String, AllocError>
    ensures { IfOk result (λ line. string_bytes line ≡ refresh_line (ran numbers.now)) }
{
    let mut line = String::from_str(alloc, "ran")?;
    for number in numbers {
        line.push_str(&format!(in alloc; " {}", *number)?)?;
    }
    line.push_str("\n")?;
    Ok(line)
}

// Says that these transformations were run, and there was no fault.
fn tell_ran(alloc: Global, stage: &mut Stage, numbers: &[usize]) -> Result<(), AllocError>
    ensures session { stage.new.session ≡ stage.old.session }
    ensures said { OnOk result (string_bytes stage.new.said ≡ string_bytes stage.old.said ++ refresh_line (ran numbers.now)) }
    ensures fault { OnOk result (stage.new.fault ≡ None) }
{
    let line = ran_line(alloc, numbers)?;
    stage.said.push_str(&line)?;
    stage.fault = None;
    Ok(())
}

// Says that there was a fault.
fn tell_fault(stage: &mut Stage, fault: RunErr) -> Result<(), AllocError>
    ensures session { stage.new.session ≡ stage.old.session }
    ensures said { OnOk result (string_bytes stage.new.said ≡ string_bytes stage.old.said ++ refresh_line faulted) }
    ensures fault { OnOk result (stage.new.fault ≡ Some fault) }
{
    stage.said.push_str("fault\n")?;
    stage.fault = Some(fault);
    Ok(())
}

// One more refresh, and its line.
fn refresh(alloc: Global, stage: &mut Stage) -> Result<(), AllocError>
    ensures script { script_at stage.new ≡ script_at stage.old }
    ensures refreshed { OnOk result (stage_view stage.new ≡ refreshed (typed_view (script_at stage.old)) (stage_view stage.old)) }
    ensures ended { OnOk result (HasEnded stage.new) }
{
    match stage.session.refresh(alloc) {
        Ok(numbers) => tell_ran(alloc, stage, &numbers),
        Err(RunErr::DivZero(name)) => tell_fault(stage, RunErr::DivZero(name)),
        Err(RunErr::Range(name)) => tell_fault(stage, RunErr::Range(name)),
        Err(RunErr::OutOfMemory) => Err(AllocError),
    }
}

// A replay begins with the inputs that were read, and a refresh.
fn begin(alloc: Global, checked: Checked, inputs: Inputs) -> Result<Stage, AllocError>
    requires inputs { AreInputs checked inputs }
    requires ranges { AreInRange checked inputs }
    ensures script { IfOk result (λ s. script_at s ≡ checked) }
    ensures begun { IfOk result (λ s. stage_view s ≡ begun (typed_view checked) (environment_of checked inputs)) }
    ensures ended { IfOk result HasEnded }
{
    let mut stage = Stage {
        session: Session::new(alloc, checked, inputs, Interp)?,
        said: String::new(alloc),
        fault: None,
    };
    refresh(alloc, &mut stage)?;
    Ok(stage)
}

// Replaces an input, and refreshes.
fn replace(alloc: Global, stage: &mut Stage, name: &Txt, table: Table) -> Result<(), AllocError>
    requires input { IsInputOf (script_at stage.old) name.now (listed table) }
    requires range { AreOfProfile (script_at stage.old).settings table.rows }
    ensures script { script_at stage.new ≡ script_at stage.old }
    ensures refreshed { OnOk result (stage_view stage.new ≡ refreshed (typed_view (script_at stage.old)) (replaced (typed_view (script_at stage.old)) name.now table.rows (stage_view stage.old))) }
    ensures ended { OnOk result (HasEnded stage.new) }
{
    // The session has tables of all inputs.
    let _script = stage.session.script();
    stage.session.replace(alloc, name, table)?;
    refresh(alloc, stage)
}

// Reads the file of an edit, replaces its input and refreshes.
fn carry_out_edit<F: Files>(
    alloc: Global,
    files: &mut F,
    stage: &mut Stage,
    edit: &Edit,
) -> Result<(), Status>
    requires { NamesInput (script_at stage.old) edit.now }
    ensures script { script_at stage.new ≡ script_at stage.old }
    ensures takes { Takes F.Files files.old files.new (edited_step (typed_view (script_at stage.old)) (stage_view stage.old) (edit_view edit.now)) (λ _. stage_view stage.new) result }
    ensures ended { OnOk result (HasEnded stage.new) }
{
    match read_edited(alloc, files, stage.session.script(), edit) {
        Ok(table) => match replace(alloc, stage, &edit.input, table) {
            Ok(()) => Ok(()),
            Err(_) => Err(Status::Memory),
        },
        Err(status) => Err(status),
    }
}

// The same for each of these edits, in order.
fn carry_out_edits<F: Files>(
    alloc: Global,
    files: &mut F,
    stage: &mut Stage,
    edits: &[Edit],
) -> Result<(), Status>
    requires inputs { AllByRecursion (NamesInput (script_at stage.old)) edits.now }
    requires ended { HasEnded stage.old }
    ensures script { script_at stage.new ≡ script_at stage.old }
    ensures takes { Takes F.Files files.old files.new (replayed_step (typed_view (script_at stage.old)) (stage_view stage.old) (map edit_view edits.now)) (λ _. stage_view stage.new) result }
    ensures ended { OnOk result (HasEnded stage.new) }
{
    for edit in edits {
        match carry_out_edit(alloc, files, stage, edit) {
            Ok(()) => {}
            Err(status) => return Err(status),
        }
    }
    Ok(())
}

// The last outputs of a session that is current, in a folder.
fn last_outputs(
    alloc: Global,
    folder: &str,
    session: &Session<Interp>,
) -> Result<Vec<Output>, AllocError>
    requires { session.now.is_current ≡ true }
    ensures view { IfOk result (λ o. outputs_of folder.now session.now.script.settings (meaning_now session.now) ≡ Ok (outputs_view o)) }
    ensures named { IfOk result (λ o. AllByRecursion NamesPath o.items) }
{
    let script = session.script();
    // The nodes are the typing of the script, so the structures of its results are known.
    let _nodes = script.nodes();
    match session.outputs() {
        Some(tables) => make_outputs(alloc, folder, script, tables),
        None => unreachable!(),
    }
}

// What is made at the end: the last outputs in a folder, and the lines; or the status of the last fault.
fn replay_made(alloc: Global, folder: &str, stage: Stage) -> Result<(Vec<Output>, String), Status>
    requires { HasEnded stage }
    ensures made { SettlesBy files_and_text (replay_made folder.now (typed_view (script_at stage)) (stage_view stage)) result }
    ensures named { IfOk result (λ m. AllByRecursion NamesPath m.0.items) }
{
    let Stage {
        session,
        said,
        fault,
    } = stage;
    match fault {
        Some(error) => Err(faulted(error)),
        None => Ok((last_outputs(alloc, folder, &session)?, said)),
    }
}

// What comes of a replay that has begun.
fn carry_on<F: Files>(
    alloc: Global,
    files: &mut F,
    folder: &str,
    start: Stage,
    edits: &[Edit],
) -> Result<(Vec<Output>, String), Status>
    requires inputs { AllByRecursion (NamesInput (script_at start)) edits.now }
    requires ended { HasEnded start }
    ensures takes { Takes F.Files files.old files.new (carried_on folder.now (typed_view (script_at start)) (stage_view start) (map edit_view edits.now)) files_and_text result }
    ensures named { IfOk result (λ m. AllByRecursion NamesPath m.0.items) }
{
    let mut stage = start;
    match carry_out_edits(alloc, files, &mut stage, edits) {
        Ok(()) => replay_made(alloc, folder, stage),
        Err(status) => Err(status),
    }
}

// What comes of a replay with these edits, from its inputs on.
fn replayed<F: Files>(
    alloc: Global,
    files: &mut F,
    replay: &Replay<'_>,
    checked: Checked,
    edits: &[Edit],
) -> Result<(Vec<Output>, String), Status>
    requires { AllByRecursion (NamesInput checked) edits.now }
    ensures takes { Takes F.Files files.old files.new (after_edits (replay_view replay.now) (typed_view checked) (map edit_view edits.now)) files_and_text result }
    ensures named { IfOk result (λ m. AllByRecursion NamesPath m.0.items) }
{
    match read_inputs(alloc, files, replay.input, &checked) {
        Ok(inputs) => match begin(alloc, checked, inputs) {
            Ok(start) => carry_on(alloc, files, replay.output, start, edits),
            Err(_) => Err(Status::Memory),
        },
        Err(status) => Err(status),
    }
}

// What comes of a replay of a typed script.
fn replay_typed<F: Files>(
    alloc: Global,
    files: &mut F,
    replay: &Replay<'_>,
    checked: Checked,
) -> Result<(Vec<Output>, String), Status>
    ensures takes { Takes F.Files files.old files.new (after_script (replay_view replay.now) (typed_view checked)) files_and_text result }
    ensures named { IfOk result (λ m. AllByRecursion NamesPath m.0.items) }
{
    match read_edits(alloc, files, replay.edits, &checked) {
        Ok(edits) => replayed(alloc, files, replay, checked, &edits),
        Err(status) => Err(status),
    }
}

/// Reads the files of a replay, and makes its outputs and its lines: nothing is created. The answer is both, or the first
/// refusal: by the script, the edits file, the inputs, the file of each edit in turn, and then by the last refresh; or,
/// at any place, that memory ran out.
pub fn prepare_replay<F: Files>(
    alloc: Global,
    files: &mut F,
    replay: &Replay<'_>,
) -> Result<(Vec<Output>, String), Status>
    ensures takes { Takes F.Files files.old files.new (replay_step (replay_view replay.now)) files_and_text result }
    ensures named { IfOk result (λ m. AllByRecursion NamesPath m.0.items) }
{
    match read_typed(alloc, files, &replay.source) {
        Ok(checked) => replay_typed(alloc, files, replay, checked),
        Err(status) => Err(status),
    }
}
