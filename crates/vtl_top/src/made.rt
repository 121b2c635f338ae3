// What commands make, before anything of it is given out.
//
// What a command gives out is files and, after them, a text (`Made`), said of files and sink in one clause: up to a
// state between, and from there on the line (`Ends`). Which half a command has, and what it tells the back end, is its
// line in `form_of`.
//
// The functions from the words to the outputs are generic over the back end: `run` goes by the interpreter, `sqlrun`
// by the back end that is handed in. What a back end can show of a script that it was handed (`told` of `Backend`) is
// its own to say, and the top call hands it on (`Informs`); every other command leaves the back end as it was.
ghost use Rattle.std.specs.Prelude.{◌≡◌, [], Some, Ok, IfOk};
ghost use Rattle.std.specs.List.{AllByRecursion};
ghost use Rattle.vtl_demo.specs.Said.{said};
ghost use Rattle.vtl_top.specs.Answered.{Takes};
ghost use Rattle.vtl_top.specs.Expected.{typed_step};
ghost use Rattle.vtl_top.specs.Forms.{IsMadeBy, asked_step, demonstration};
ghost use Rattle.vtl_top.specs.MadeView.{IsMade, Names, made_view};
ghost use Rattle.vtl_top.specs.OutputView.{NamesPath, outputs_view};
ghost use Rattle.vtl_top.specs.RunView.{command_view, engine_view, migration_view, replay_view, run_view, source_view};
ghost use Rattle.vtl_top.specs.Informed.{HasRun, Informs, IsToldOf, TellsRun};
ghost use Rattle.vtl_top.specs.Refusal.{SettlesBy};
ghost use Rattle.vtl_top.specs.Steps.{only_text, status_of};
ghost use Rattle.vtl_top.specs.Words.{engine, format, lineage, migrate, replay, run, sql};

use crate::form::prepare_form;
use crate::lineage::prepare_links;
use crate::migrate::prepare_migration;
use crate::output::Output;
use crate::points::Points;
use crate::replay::prepare_replay;
use crate::run::{prepare, prepare_text};
use crate::sql_run::prepare_exports;
use crate::words::{Command, Engine, Migration, Replay, Run, Source};
use std::alloc::Global;
use vtl_backend::Backend;
use vtl_demo::demonstrate;
use vtl_files::Files;
use vtl_interp::Interp;
use vtl_status::Status;
use vtl_text::Txt;

/// What a command gives out: files, and after them a text for the sink.
#[derive(Drop)]
pub struct Made {
    /// The files, in order.
    pub outputs: Vec<Output>,
    /// The text.
    pub text: Vec<u8>,
    /// The sink, as a status names it.
    pub sink: Txt,
}

/// Makes all that a command gives out. It reads only. A run and a replay go by the interpreter, a run in SQL by the back end,
/// and the demonstration by both.
pub fn make<B: Backend, F: Files>(
    alloc: Global,
    back: &mut B,
    files: &mut F,
    command: &Command<'_>,
) -> Result<Made, Status>
    ensures takes { Takes F.Files files.old files.new (asked_step (Some (command_view command.now))) made_view result }
    ensures named { IfOk result Names }
    ensures shape { IfOk result (λ m. IsMadeBy (Some (command_view command.now)) (made_view m)) }
    ensures told { Informs F.Files files.old B.told back.old back.new (Some (command_view command.now)) (status_of result) }
{
    match command {
        Command::Run(run) => make_run(alloc, &mut Interp, files, run),
        Command::SqlRun(run) => make_run(alloc, back, files, run),
        Command::Sql(source) => make_text(alloc, files, source),
        Command::Engine(engine) => make_exports(alloc, files, engine),
        Command::Replay(replay) => make_replay(alloc, files, replay),
        Command::Lineage(source) => make_links(alloc, files, source),
        Command::Format(path) => make_form(alloc, files, *path),
        Command::Migrate(migration) => make_migration(alloc, files, migration),
        Command::Demo(points) => make_lines(alloc, back, points),
    }
}

fn make_run<B: Backend, F: Files>(
    alloc: Global,
    back: &mut B,
    files: &mut F,
    asked: &Run<'_>,
) -> Result<Made, Status>
    ensures takes { Takes F.Files files.old files.new (asked_step (Some (run (run_view asked.now)))) made_view result }
    ensures named { IfOk result Names }
    ensures shape { IfOk result (λ m. m.text.items ≡ []) }
    ensures told { TellsRun F.Files files.old (typed_step (source_view asked.now.source)) (B.told back.new) (status_of result) }
{
    match prepare(alloc, back, files, asked) {
        Ok(outputs) => made_of(alloc, outputs, Vec::new(alloc)),
        Err(status) => Err(status),
    }
}

fn make_text<F: Files>(alloc: Global, files: &mut F, asked: &Source<'_>) -> Result<Made, Status>
    ensures takes { Takes F.Files files.old files.new (asked_step (Some (sql (source_view asked.now)))) made_view result }
    ensures named { IfOk result Names }
    ensures shape { IfOk result (λ m. outputs_view m.outputs ≡ []) }
{
    match prepare_text(alloc, files, asked) {
        Ok(text) => made_of(alloc, Vec::new(alloc), text.into_bytes()),
        Err(status) => Err(status),
    }
}

fn make_exports<F: Files>(alloc: Global, files: &mut F, asked: &Engine<'_>) -> Result<Made, Status>
    ensures takes { Takes F.Files files.old files.new (asked_step (Some (engine (engine_view asked.now)))) made_view result }
    ensures named { IfOk result Names }
    ensures shape { IfOk result (λ m. m.text.items ≡ []) }
{
    match prepare_exports(alloc, files, asked) {
        Ok(outputs) => made_of(alloc, outputs, Vec::new(alloc)),
        Err(status) => Err(status),
    }
}

fn make_replay<F: Files>(alloc: Global, files: &mut F, asked: &Replay<'_>) -> Result<Made, Status>
    ensures takes { Takes F.Files files.old files.new (asked_step (Some (replay (replay_view asked.now)))) made_view result }
    ensures named { IfOk result Names }
{
    match prepare_replay(alloc, files, asked) {
        Ok((outputs, lines)) => made_of(alloc, outputs, lines.into_bytes()),
        Err(status) => Err(status),
    }
}

fn make_links<F: Files>(alloc: Global, files: &mut F, asked: &Source<'_>) -> Result<Made, Status>
    ensures takes { Takes F.Files files.old files.new (asked_step (Some (lineage (source_view asked.now)))) made_view result }
    ensures named { IfOk result Names }
    ensures shape { IfOk result (λ m. outputs_view m.outputs ≡ []) }
{
    match prepare_links(alloc, files, asked) {
        Ok(text) => made_of(alloc, Vec::new(alloc), text),
        Err(status) => Err(status),
    }
}

fn make_form<F: Files>(alloc: Global, files: &mut F, path: &str) -> Result<Made, Status>
    ensures takes { Takes F.Files files.old files.new (asked_step (Some (format path.now))) made_view result }
    ensures named { IfOk result Names }
    ensures shape { IfOk result (λ m. outputs_view m.outputs ≡ []) }
{
    match prepare_form(alloc, files, path) {
        Ok(form) => made_of(alloc, Vec::new(alloc), form.into_bytes()),
        Err(status) => Err(status),
    }
}

fn make_migration<F: Files>(
    alloc: Global,
    files: &mut F,
    asked: &Migration<'_>,
) -> Result<Made, Status>
    ensures takes { Takes F.Files files.old files.new (asked_step (Some (migrate (migration_view asked.now)))) made_view result }
    ensures named { IfOk result Names }
    ensures shape { IfOk result (λ m. outputs_view m.outputs ≡ []) }
{
    match prepare_migration(alloc, files, asked) {
        Ok(text) => made_of(alloc, Vec::new(alloc), text),
        Err(status) => Err(status),
    }
}

fn make_lines<B: Backend>(alloc: Global, back: &mut B, points: &Points) -> Result<Made, Status>
    ensures made { SettlesBy made_view (Ok (only_text (said points.now))) result }
    ensures named { IfOk result Names }
    ensures shape { IfOk result (λ m. outputs_view m.outputs ≡ []) }
    ensures told { HasRun (status_of result) → IsToldOf demonstration (B.told back.new) }
{
    match demonstrate(alloc, &mut Interp, back, points.count()) {
        Ok(lines) => made_of(alloc, Vec::new(alloc), lines.into_bytes()),
        Err(_) => Err(Status::Memory),
    }
}

fn made_of(alloc: Global, outputs: Vec<Output>, text: Vec<u8>) -> Result<Made, Status>
    requires { AllByRecursion NamesPath outputs.items }
    ensures { IsMade outputs text result }
{
    match Txt::new(alloc, "-") {
        Ok(sink) => Ok(Made {
            outputs,
            text,
            sink,
        }),
        Err(_) => Err(Status::Memory),
    }
}
