// The top call.
//
// A status has a kind, and all that it tells of files and causes goes by its kind (`Ends`): a new status adds
// nothing.
//
// `no_command` is a kind of its own, so that a step which only reads can be said to answer no `Usage`, for every
// object.
ghost use Rattle.std.specs.Prelude.{◌≡◌, ◌≢◌, ◌≤◌, ◌↔◌, None, Some, false, map, IsTrue, OnErr, OnOk, string_bytes};
ghost use Rattle.sql_back.specs.Texts.{HasTextOf};
ghost use Rattle.vtl_files.specs.Outside.{Rose};
ghost use Rattle.vtl_files.specs.Whole.{TakesFront};
ghost use Rattle.vtl_top.specs.Answered.{Ends, EndsAs, GivesOut, Misses, OnlyWrites};
ghost use Rattle.vtl_top.specs.Kinds.{told_by};
ghost use Rattle.vtl_top.specs.MadeView.{Names, made_view};
ghost use Rattle.vtl_top.specs.Words.{command_of};
ghost use Rattle.vtl_top.specs.RunView.{command_view};
ghost use Rattle.vtl_top.specs.Said.{Hears};
ghost use Rattle.vtl_top.specs.Informed.{Informs};

use crate::made::{Made, make};
use crate::output::write_outputs;
use crate::words::{Command, command_of};
use sql_back::{Bundled, SqlBack, TextEngine};
use std::alloc::Global;
use vtl_backend::Backend;
use vtl_files::{Failed, Files, Sink, sink_all};
use vtl_status::{Status, tell};

/// Carries out the words of a command line over the given files and the given sink, and answers how it went.
///
/// - `run SCRIPT STRUCTURES IN OUT` reads the script and the structures file, and from the folder IN the CSV file of
///   each data set that the script reads, however many there are; into the folder OUT it writes the CSV file of each
///   result that the script assigns by `<-`, however many there are.
/// - `sqlrun SCRIPT STRUCTURES IN OUT` does the same by a text of the script in SQL, which the bundled engine runs.
/// - `sql SCRIPT STRUCTURES` hands such a text to `out`, whole on Done; it reads no data set.
/// - `engine SQLFILE IN OUT` runs a text of the SQL dialect: it reads the CSV file of each INPUT, and writes that of each
///   EXPORT.
/// - `replay SCRIPT STRUCTURES IN EDITS OUT` runs the script as `run` does, and again each time that an input is replaced:
///   a line of the file EDITS is the name of an input, a space and the folder of its new file. Into OUT it writes the
///   results over the inputs as they stand behind the last line, and to `out` a line for each run: the numbers of the
///   statements that were run anew, or that there was a fault. A fault of any run but the last does not end it.
/// - `lineage SCRIPT STRUCTURES` hands the links of the script to `out` as CSV, whole on Done: which components of data
///   sets each component of an output depends on. It reads no data set.
/// - `format SCRIPT` hands the canonical text of the script to `out`, whole on Done; it reads nothing else.
/// - `migrate STRUCTURES` hands a text of version 2 to `out`, whole on Done, that declares what the structures file declares
///   and the scale and the rounding of a run over it; it reads nothing else.
/// - `demo POINTS` runs a script of its own over data sets of its own of so many points, 1 to a million, in both ways, and
///   hands a line on each to `out`: what it gave, with its rows and the bytes of its CSV text. It reads and writes no file.
///
/// Options may follow the path of the structures file, or of the folders behind it: `--scale D`, the digits of a number
/// after its point (one digit), and `--round R`, how results are rounded to them (`half_up`, `half_even` or `down`), each
/// at most once. Without one the structures file decides, and where it declares none either, it is 6 and `half_up`. A
/// status other than Done is named by a line on `out`.
pub fn vtl<F: Files, O: Sink>(alloc: Global, words: &[String], files: &mut F, out: &mut O) -> Status
    requires { F.creating files.old ≡ false }
    ensures held { F.held files.new ≡ F.held files.old }
    ensures misuses { F.misuses files.new ≡ F.misuses files.old }
    ensures faults { F.faults files.old ≤ F.faults files.new }
    ensures absences { F.absences files.old ≤ F.absences files.new }
    ensures absent { Misses F.Files files.old files.new (told_by result) }
    ensures said { O.faults out.old ≤ O.faults out.new }
    ensures usage { (result ≡ Status.Usage) ↔ (command_of (map string_bytes words.now) ≡ None) }
    ensures ends { Ends F.Files O.Sink files.old files.new out.old out.new (command_of (map string_bytes words.now)) result }
{
    vtl_with(alloc, words, files, out, &mut SqlBack::new(Bundled::new()))
}

/// The same, where texts in SQL are run by the engine of a given back end.
pub fn vtl_with<F: Files, O: Sink, E: TextEngine>(
    alloc: Global,
    words: &[String],
    files: &mut F,
    out: &mut O,
    back: &mut SqlBack<E>,
) -> Status
    requires { F.creating files.old ≡ false }
    ensures held { F.held files.new ≡ F.held files.old }
    ensures misuses { F.misuses files.new ≡ F.misuses files.old }
    ensures faults { F.faults files.old ≤ F.faults files.new }
    ensures absences { F.absences files.old ≤ F.absences files.new }
    ensures absent { Misses F.Files files.old files.new (told_by result) }
    ensures said { O.faults out.old ≤ O.faults out.new }
    ensures usage { (result ≡ Status.Usage) ↔ (command_of (map string_bytes words.now) ≡ None) }
    ensures ends { Ends F.Files O.Sink files.old files.new out.old out.new (command_of (map string_bytes words.now)) result }

    // What the engine was handed last is a text of the script that was run in SQL.
    ensures told { Informs F.Files files.old (λ b t. HasTextOf t (E.last b.engine)) back.old back.new (command_of (map string_bytes words.now)) result }
{
    vtl_by(alloc, words, files, out, back)
}

/// The same, where scripts are run in SQL by a given back end.
pub fn vtl_by<B: Backend, F: Files, O: Sink>(
    alloc: Global,
    words: &[String],
    files: &mut F,
    out: &mut O,
    back: &mut B,
) -> Status
    requires { F.creating files.old ≡ false }

    ensures held { F.held files.new ≡ F.held files.old }
    ensures misuses { F.misuses files.new ≡ F.misuses files.old }
    ensures faults { F.faults files.old ≤ F.faults files.new }
    ensures absences { F.absences files.old ≤ F.absences files.new }
    ensures said { O.faults out.old ≤ O.faults out.new }

    // A file was looked for and not found only where the status says so.
    ensures absent { Misses F.Files files.old files.new (told_by result) }

    // The words alone decide whether they have a form.
    ensures usage { (result ≡ Status.Usage) ↔ (command_of (map string_bytes words.now) ≡ None) }

    // How the call ended, by the kind of the status: what was written and said, what is closed, the cause, and, where
    // the held files are revealed, what the words and the held bytes give; and then the line of the status.
    ensures ends { Ends F.Files O.Sink files.old files.new out.old out.new (command_of (map string_bytes words.now)) result }

    // What the back end shows of the script that it was given: one that is run in SQL. Any other command leaves it as it
    // was.
    ensures told { Informs F.Files files.old B.told back.old back.new (command_of (map string_bytes words.now)) result }
{
    let status = answer(alloc, back, words, files, out);
    if is_done(&status) {
        return status;
    }
    tell(&status, out);
    status
}

fn is_done(status: &Status) -> bool
    ensures { IsTrue result ↔ (status.now ≡ Status.Done) }
{
    matches!(status, Status::Done)
}

// The status of the words, before its line.
fn answer<B: Backend, F: Files, O: Sink>(
    alloc: Global,
    back: &mut B,
    words: &[String],
    files: &mut F,
    out: &mut O,
) -> Status
    requires { F.creating files.old ≡ false }
    ensures held { F.held files.new ≡ F.held files.old }
    ensures misuses { F.misuses files.new ≡ F.misuses files.old }
    ensures faults { F.faults files.old ≤ F.faults files.new }
    ensures absences { F.absences files.old ≤ F.absences files.new }
    ensures absent { Misses F.Files files.old files.new (told_by result) }
    ensures said { O.faults out.old ≤ O.faults out.new }
    ensures usage { (result ≡ Status.Usage) ↔ (command_of (map string_bytes words.now) ≡ None) }
    ensures ends { EndsAs F.Files O.Sink files.old files.new out.old out.new (command_of (map string_bytes words.now)) result (told_by result) }
    ensures told { Informs F.Files files.old B.told back.old back.new (command_of (map string_bytes words.now)) result }
{
    match command_of(words) {
        Some(command) => carry_out(alloc, back, files, out, &command),
        None => Status::Usage,
    }
}

// The status of a command: nothing is given out before all of it is made.
fn carry_out<B: Backend, F: Files, O: Sink>(
    alloc: Global,
    back: &mut B,
    files: &mut F,
    out: &mut O,
    command: &Command<'_>,
) -> Status
    requires { F.creating files.old ≡ false }
    ensures held { F.held files.new ≡ F.held files.old }
    ensures misuses { F.misuses files.new ≡ F.misuses files.old }
    ensures faults { F.faults files.old ≤ F.faults files.new }
    ensures absences { F.absences files.old ≤ F.absences files.new }
    ensures absent { Misses F.Files files.old files.new (told_by result) }
    ensures said { O.faults out.old ≤ O.faults out.new }
    ensures usage { result ≢ Status.Usage }
    ensures ends { EndsAs F.Files O.Sink files.old files.new out.old out.new (Some (command_view command.now)) result (told_by result) }
    ensures told { Informs F.Files files.old B.told back.old back.new (Some (command_view command.now)) result }
{
    match make(alloc, back, files, command) {
        Ok(made) => give_out(files, out, made),
        Err(status) => status,
    }
}

// Writes the files, and then passes the text to the sink. It takes no memory.
fn give_out<F: Files, O: Sink>(files: &mut F, out: &mut O, made: Made) -> Status
    requires idle { F.creating files.old ≡ false }
    requires named { Names made }
    ensures writes { OnlyWrites F.Files files.old files.new }
    ensures said { O.faults out.old ≤ O.faults out.new }
    ensures out { GivesOut F.Files O.Sink files.old files.new out.old out.new (made_view made) (told_by result) }
{
    let Made {
        outputs,
        text,
        sink,
    } = made;
    let status = write_outputs(files, outputs);
    if !is_done(&status) {
        return status;
    }
    match say(out, &text) {
        Ok(()) => Status::Done,
        Err(_) => Status::WriteFault(sink),
    }
}

// Passes a text to the sink, if there is one.
fn say<O: Sink>(out: &mut O, text: &[u8]) -> Result<(), Failed>
    ensures said { O.faults out.old ≤ O.faults out.new }
    ensures whole { OnOk result (Hears O.Sink out.old out.new text.now) }
    ensures failed { OnErr result (Rose (O.faults out.old) (O.faults out.new)) }
    ensures front { OnErr result (TakesFront (O.taken out.old) (O.taken out.new) text.now) }
{
    if text.is_empty() {
        return Ok(());
    }
    sink_all(out, text)
}
