// The run of an SQL file, from the paths of its files to the texts of its exports.
ghost use Rattle.std.specs.Prelude.{◌≡◌, ◌<◌, [], length, map, IfOk, slice_index_or};
ghost use Rattle.std.specs.List.{AllByRecursion};
ghost use Rattle.vtl_rows.specs.Named.{NamedTables};
ghost use Rattle.vtl_rows.specs.Tables.{listed};
ghost use Rattle.sql_tree.specs.Formed.{FormedScript};
ghost use Rattle.sql_tree.specs.View.{script_tree};
ghost use Rattle.sql_check_parts.specs.Statements.{script_settings};
ghost use Rattle.sql_engine.specs.InputTables.{AreInputsInRange, HaveInputTables, rows_given};
ghost use Rattle.sql_engine.specs.Runs.{Runs};
ghost use Rattle.sql_meaning.specs.Scripts.{script_value};
ghost use Rattle.vtl_top.specs.Answered.{Takes};
ghost use Rattle.vtl_top.specs.OutputView.{NamesPath, output_view, outputs_view};
ghost use Rattle.vtl_top.specs.Refusal.{IsSqlOf, IsSqlOfText, SettlesBy, sql_fault_of, sql_mistyped};
ghost use Rattle.vtl_top.specs.RunView.{engine_view};
ghost use Rattle.vtl_top.specs.SqlRun.{engine_step, exports_of, read_whole, sql_checked_step, sql_step, table_file};

use crate::output::Output;
use crate::reading::{file_in, read_whole_file};
use crate::refusal::not_text;
use crate::results::faulted;
use crate::sql_inputs::read_sql_inputs;
use crate::words::Engine;
use sql_check::{SqlChecked, SqlTypeErr, check};
use sql_engine::run;
use sql_parser::{SqlErr, parse};
use sql_tree::SqlScript;
use std::alloc::{AllocError, Global};
use std::marker::Brand;
use std::str;
use std::sync::ledger::{Blank, Ledger};
use vtl_csv::write_rows;
use vtl_decimal::Profile;
use vtl_files::Files;
use vtl_index::Steps;
use vtl_rows::{Table, Tables};
use vtl_scalar::RunErr;
use vtl_status::Status;
use vtl_text::Txt;

// The status of an SQL file whose text is no script.
fn unparsed(error: SqlErr) -> Status
    ensures { result ≡ sql_fault_of error }
{
    match error {
        SqlErr::Syntax { done, byte } => Status::SqlSyntax { done, byte },
        SqlErr::OutOfMemory => Status::Memory,
    }
}

// The tree of the SQL file.
fn read_sql<F: Files>(alloc: Global, files: &mut F, path: &str) -> Result<SqlScript, Status>
    ensures takes { Takes F.Files files.old files.new (sql_step path.now) script_tree result }
    ensures formed { IfOk result (λ script. FormedScript (script_tree script)) }
{
    match read_whole_file(alloc, files, path) {
        Ok(bytes) => sql_of(alloc, path, &bytes),
        Err(status) => Err(status),
    }
}

// The script that the bytes of a file are.
fn sql_of(alloc: Global, path: &str, bytes: &[u8]) -> Result<SqlScript, Status>
    ensures script { IsSqlOf path.now bytes.now result }
    ensures formed { IfOk result (λ script. FormedScript (script_tree script)) }
{
    match str::from_utf8(bytes) {
        Ok(text) => parsed(alloc, text),
        Err(_) => Err(not_text(alloc, path)),
    }
}

fn parsed(alloc: Global, text: &str) -> Result<SqlScript, Status>
    ensures script { IsSqlOfText text.now result }
    ensures formed { IfOk result (λ script. FormedScript (script_tree script)) }
{
    match parse(alloc, text) {
        Ok(script) => Ok(script),
        Err(error) => Err(unparsed(error)),
    }
}

// The status of a script that breaks a rule.
fn mistyped(error: SqlTypeErr) -> Status
    ensures { result ≡ sql_mistyped error }
{
    match error {
        SqlTypeErr::Mistyped { statement, rule } => Status::SqlType { statement, rule },
        SqlTypeErr::OutOfMemory => Status::Memory,
    }
}

// The script of an SQL file, typed.
fn read_checked<F: Files>(alloc: Global, files: &mut F, path: &str) -> Result<SqlChecked, Status>
    ensures takes { Takes F.Files files.old files.new (sql_checked_step path.now) (λ c. script_tree c.script) result }
    ensures settings { IfOk result (λ c. c.settings ≡ script_settings (script_tree c.script)) }
{
    let script = read_sql(alloc, files, path)?;
    match check(alloc, script) {
        Ok(checked) => Ok(checked),
        Err(error) => Err(mistyped(error)),
    }
}

// What is written of an export: its text, and the path of its file in a folder.
fn make_export(
    alloc: Global,
    folder: &str,
    profile: &Profile,
    name: &Txt,
    table: &Table,
) -> Result<Output, AllocError>
    ensures view { IfOk result (λ o. output_view o ≡ table_file folder.now profile.now (name.now, listed table.now)) }
    ensures named { IfOk result NamesPath }
{
    let path = file_in(alloc, folder, name)?;
    let named = Txt::new(alloc, path.as_str())?;
    let bytes = write_rows(alloc, table, profile)?;
    Ok(Output { path, named, bytes })
}

fn make_export_at(
    alloc: Global,
    folder: &str,
    profile: &Profile,
    tables: &Tables,
    i: usize,
) -> Result<Output, AllocError>
    requires { i < length tables.now }
    ensures view { IfOk result (λ o. output_view o ≡ slice_index_or (map (table_file folder.now profile.now) tables.now) i (output_view o)) }
    ensures named { IfOk result NamesPath }
{
    let (name, table) = tables.at(i);
    make_export(alloc, folder, profile, name, table)
}

// The files of all exports, in order, in a folder.
fn make_exports(
    alloc: Global,
    folder: &str,
    profile: &Profile,
    tables: &Tables,
) -> Result<Vec<Output>, AllocError>
    ensures view { IfOk result (λ o. outputs_view o ≡ map (table_file folder.now profile.now) tables.now) }
    ensures named { IfOk result (λ o. AllByRecursion NamesPath o.items) }
{
    let mut outputs = Vec::new(alloc);
    for i in 0..tables.len() {
        outputs.push(make_export_at(alloc, folder, profile, tables, i)?)?;
    }
    Ok(outputs)
}

// The run of a script, whose steps nobody counts.
fn run_uncounted<L: Ledger>(
    alloc: Global,
    checked: &SqlChecked,
    inputs: &Tables,
    tables: &mut Tables,
    blank: Blank,
) -> Result<(), RunErr>
    requires name { blank.name ≡ L.name }
    requires parts { blank.parts ≡ L.parts }
    requires some { 0 < L.parts }
    requires inputs { HaveInputTables inputs.now (script_tree checked.now.script) }
    requires ranges { AreInputsInRange checked.now.settings inputs.now (script_tree checked.now.script) }
    requires none { tables.old ≡ [] }
    ensures { Runs (script_tree checked.now.script) inputs.now tables.old tables.new result }
{
    let mut steps: Steps<L> = Steps::new(blank);
    run(alloc, checked, inputs, tables, &mut steps)
}

// The files of the exports that a script gives over its inputs, in a folder, or the status of its fault; or that memory
// ran out. The inputs are let go before the first text is made.
fn exports(
    alloc: Global,
    folder: &str,
    checked: &SqlChecked,
    inputs: Tables,
) -> Result<Vec<Output>, Status>
    requires tables { HaveInputTables inputs (script_tree checked.now.script) }
    requires ranges { AreInputsInRange checked.now.settings inputs (script_tree checked.now.script) }
    ensures view { SettlesBy outputs_view (exports_of folder.now checked.now.settings (script_value (script_tree checked.now.script) (rows_given inputs))) result }
    ensures named { IfOk result (λ o. AllByRecursion NamesPath o.items) }
{
    let mut tables = Tables::new(alloc);
    let ran = run_uncounted::<Brand>(alloc, checked, &inputs, &mut tables, Blank::new(1));
    drop(inputs);
    match ran {
        Ok(()) => Ok(make_exports(alloc, folder, checked.profile(), &tables)?),
        Err(error) => Err(faulted(error)),
    }
}

/// Reads the files of an SQL script's run, and makes its exports: nothing is created. The answer is the exports, or the
/// first refusal: by the SQL file, then by the inputs, then by what the script means; or, at any place, that memory ran
/// out.
pub fn prepare_exports<F: Files>(
    alloc: Global,
    files: &mut F,
    engine: &Engine<'_>,
) -> Result<Vec<Output>, Status>
    ensures takes { Takes F.Files files.old files.new (engine_step (engine_view engine.now)) outputs_view result }
    ensures named { IfOk result (λ o. AllByRecursion NamesPath o.items) }
{
    let checked = read_checked(alloc, files, engine.sql)?;
    let inputs = read_sql_inputs(alloc, files, engine.input, &checked)?;
    exports(alloc, engine.output, &checked, inputs)
}
