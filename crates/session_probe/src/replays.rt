// What comes of a replay: a line for each refresh, and the outputs.
ghost use Rattle.std.specs.List.{AllByRecursion};
ghost use Rattle.std.specs.Prelude.{◌≡◌};
ghost use Rattle.vtl_top.specs.EditsView.{NamesInput};

use crate::counting::Counted;
use std::alloc::{AllocError, Global};
use std::str;
use vtl_csv::write_table;
use vtl_files::Files;
use vtl_rerun::Session;
use vtl_scalar::RunErr;
use vtl_status::Status;
use vtl_top::{Chosen, Edit, Source, read_edited, read_edits, read_inputs, read_typed};

// The paths of the script, the structures file, the inputs and the edits.
#[derive(Clone, Copy)]
pub(crate) struct Call<'a> {
    pub(crate) script: &'a str,
    pub(crate) structures: &'a str,
    pub(crate) inputs: &'a str,
    pub(crate) edits: &'a str,
}

// Tells what a session over a back end comes to: its refreshes, and its outputs.
pub(crate) fn replayed<B: Counted + Drop, F: Files>(
    alloc: Global,
    files: &mut F,
    call: &Call<'_>,
    back: B,
    out: &mut String,
) -> Result<(), Status> {
    let source = Source {
        script: call.script,
        structures: call.structures,
        chosen: Chosen::new(None, None).unwrap(),
    };
    let checked = read_typed(alloc, files, &source)?;
    let edits = read_edits(alloc, files, call.edits, &checked)?;
    let inputs = read_inputs(alloc, files, call.inputs, &checked)?;
    let mut session = Session::new(alloc, checked, inputs, back)?;
    refresh(alloc, &mut session, out)?;
    replace_each(alloc, files, &mut session, &edits, out)?;
    push_outputs(alloc, &session, out)
}

// Replaces inputs, one edit after the other, with a refresh behind each.
fn replace_each<B: Counted + Drop, F: Files>(
    alloc: Global,
    files: &mut F,
    session: &mut Session<B>,
    edits: &[Edit],
    out: &mut String,
) -> Result<(), Status>
    requires { AllByRecursion (NamesInput session.old.script) edits.now }
{
    for edit in edits {
        let table = read_edited(alloc, files, session.script(), edit)?;
        session.replace(alloc, &edit.input, table)?;
        refresh(alloc, session, out)?;
    }
    Ok(())
}

// Refreshes a session, and says a line on it.
fn refresh<B: Counted + Drop>(
    alloc: Global,
    session: &mut Session<B>,
    out: &mut String,
) -> Result<(), Status>
    ensures { session.new.script ≡ session.old.script }
{
    let before = session.back().carried_out();
    match session.refresh(alloc) {
        Ok(ran) => Ok(push_ran(out, &ran, before, session.back().carried_out())?),
        Err(RunErr::OutOfMemory) => Err(Status::Memory),
        Err(_) => Ok(out.push_str("fault\n")?),
    }
}

fn push_ran(
    out: &mut String,
    ran: &[usize],
    before: Option<usize>,
    after: Option<usize>,
) -> Result<(), AllocError> {
    out.push_str("ran")?;
    for number in ran {
        write!(out, " {number}")?;
    }
    if let (Some(before), Some(after)) = (before, after) {
        write!(out, ", {} carried out", after.saturating_sub(before))?;
    }
    out.push('\n')
}

// The outputs, each below its name; a session without outputs has a fault.
fn push_outputs<B: Counted + Drop>(
    alloc: Global,
    session: &Session<B>,
    out: &mut String,
) -> Result<(), Status> {
    let Some(outputs) = session.outputs() else {
        return Err(Status::Usage);
    };
    for i in 0..outputs.len() {
        let (name, table) = outputs.at(i);
        writeln!(out, "{}", name.as_str())?;
        let text = write_table(alloc, table, &[], session.script().profile())?;
        out.push_str(str::from_utf8(&text).ok().unwrap_or(""))?;
    }
    Ok(())
}
