// A script from its files: its run up to the texts of its outputs, and its text in SQL.
ghost use Rattle.std.specs.Prelude.{◌≡◌, IfOk, string_bytes};
ghost use Rattle.std.specs.List.{AllByRecursion};
ghost use Rattle.vtl_syntax.specs.View.{script_tree};
ghost use Rattle.vtl_syntax.specs.Written.{AreWritten};
ghost use Rattle.vtl_top.specs.Answered.{Takes};
ghost use Rattle.vtl_top.specs.Expected.{run_step, script_step, structures_step, text_step, typed_step};
ghost use Rattle.vtl_top.specs.OutputView.{NamesPath, outputs_view};
ghost use Rattle.vtl_top.specs.Refusal.{IsScriptOf, IsScriptOfText, fault_of};
ghost use Rattle.vtl_top.specs.RunView.{run_view, source_view};
ghost use Rattle.vtl_top.specs.Informed.{TellsRun, typed_view};
ghost use Rattle.vtl_top.specs.Steps.{status_of};

use crate::inputs::read_inputs;
use crate::output::Output;
use crate::reading::read_file;
use crate::refusal::not_text;
use crate::results::results;
use crate::structures::structures_of;
use crate::typing::typed;
use crate::words::{Run, Source};
use sql_back::text_of;
use std::alloc::Global;
use std::str;
use vtl_backend::Backend;
use vtl_check::Checked;
use vtl_csv::Declared;
use vtl_files::Files;
use vtl_parser::{ParseErr, parse};
use vtl_status::Status;
use vtl_syntax::Script;

pub(crate) const SCRIPT_LIMIT: usize = 65_536;

const STRUCTURES_LIMIT: usize = 4_194_304;

// The status of a script file whose text is no script.
pub(crate) fn unparsed(error: ParseErr) -> Status
    ensures { result ≡ fault_of error }
{
    match error {
        ParseErr::Syntax { done, byte } => Status::Syntax { done, byte },
        ParseErr::OutOfMemory => Status::Memory,
    }
}

// The tree of the script file.
fn read_script<F: Files>(alloc: Global, files: &mut F, path: &str) -> Result<Script, Status>
    ensures takes { Takes F.Files files.old files.new (script_step path.now) script_tree result }
    ensures written { IfOk result (λ script. AreWritten (script_tree script)) }
{
    match read_file(alloc, files, path, SCRIPT_LIMIT) {
        Ok(bytes) => script_of(alloc, path, &bytes),
        Err(status) => Err(status),
    }
}

// The script that the bytes of a file are.
fn script_of(alloc: Global, path: &str, bytes: &[u8]) -> Result<Script, Status>
    ensures script { IsScriptOf path.now bytes.now result }
    ensures written { IfOk result (λ script. AreWritten (script_tree script)) }
{
    match str::from_utf8(bytes) {
        Ok(text) => parsed(alloc, text),
        Err(_) => Err(not_text(alloc, path)),
    }
}

fn parsed(alloc: Global, text: &str) -> Result<Script, Status>
    ensures script { IsScriptOfText text.now result }
    ensures written { IfOk result (λ script. AreWritten (script_tree script)) }
{
    match parse(alloc, text) {
        Ok(script) => Ok(script),
        Err(error) => Err(unparsed(error)),
    }
}

/// What the structures file at a path declares.
pub fn read_structures_file<F: Files>(
    alloc: Global,
    files: &mut F,
    path: &str,
) -> Result<Declared, Status>
    ensures { Takes F.Files files.old files.new (structures_step path.now) (λ d. d) result }
{
    match read_file(alloc, files, path, STRUCTURES_LIMIT) {
        Ok(bytes) => structures_of(alloc, path, &bytes),
        Err(status) => Err(status),
    }
}

/// The script of a source, typed over its structures; or the first refusal in the order script, structures file, types
/// of the script over the structures; or, at any place, that memory ran out.
pub fn read_typed<F: Files>(
    alloc: Global,
    files: &mut F,
    source: &Source<'_>,
) -> Result<Checked, Status>
    ensures { Takes F.Files files.old files.new (typed_step (source_view source.now)) typed_view result }
{
    let script = read_script(alloc, files, source.script)?;
    let declared = read_structures_file(alloc, files, source.structures)?;
    let profile = source.chosen.profile(declared.profile);
    typed(alloc, &script, &declared.structures, &profile)
}

/// Reads the files of a run, and makes its outputs: nothing is created. The answer is the outputs, or the first
/// refusal: by the script, then by the inputs, then by what it means; or, at any place, that memory ran out.
pub fn prepare<B: Backend, F: Files>(
    alloc: Global,
    back: &mut B,
    files: &mut F,
    run: &Run<'_>,
) -> Result<Vec<Output>, Status>
    ensures takes { Takes F.Files files.old files.new (run_step (run_view run.now)) outputs_view result }
    ensures named { IfOk result (λ o. AllByRecursion NamesPath o.items) }
    ensures told { TellsRun F.Files files.old (typed_step (source_view run.now.source)) (B.told back.new) (status_of result) }
{
    let checked = read_typed(alloc, files, &run.source)?;
    let inputs = read_inputs(alloc, files, run.input, &checked)?;
    results(alloc, back, run.output, &checked, inputs)
}

/// A text in SQL of the script of a source; or the first refusal, as that of a run before its inputs; or, at any place,
/// that memory ran out. No data set is read.
pub fn prepare_text<F: Files>(
    alloc: Global,
    files: &mut F,
    source: &Source<'_>,
) -> Result<String, Status>
    ensures { Takes F.Files files.old files.new (text_step (source_view source.now)) string_bytes result }
{
    let checked = read_typed(alloc, files, source)?;
    Ok(text_of(alloc, &checked)?)
}
