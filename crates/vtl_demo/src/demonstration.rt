// The lines: the script over its data sets by each back end, and what is said of the results.
ghost use Rattle.std.specs.Prelude.{◌≡◌, ◌≤◌, ◌++◌, flat_map, length, codes, IfOk, OnOk, string_bytes};
ghost use Rattle.vtl_rows.specs.Tables.{listed};
ghost use Rattle.vtl_sets.specs.TableOf.{IsTableOf};
ghost use Rattle.vtl_check.specs.Checked.{known_of};
ghost use Rattle.vtl_backend.specs.Runs.{ShowMeaning};
ghost use Rattle.vtl_csv.specs.CsvText.{csv_of};
ghost use Rattle.vtl_demo.specs.DataSets.{most_points};
ghost use Rattle.vtl_demo.specs.Nodes.{results};
ghost use Rattle.vtl_demo.specs.Said.{AreKnown, IsKnown, line_of, part, part_for, said};
ghost use Rattle.vtl_demo.specs.Script.{settings};
ghost use Rattle.vtl_demo.specs.Typed.{IsDemonstration, IsToldOf};

use crate::data_sets::inputs;
use crate::script::script;
use std::alloc::{AllocError, Global};
use vtl_backend::Backend;
use vtl_check::Checked;
use vtl_csv::write_dataset;
use vtl_rows::{Outputs, Table, Tables};
use vtl_scalar::RunErr;
use vtl_text::Txt;
use vtl_tree::Structure;

// The results of the script by a back end. The inputs are let go before anything is said of them.
fn results<B: Backend>(
    alloc: Global,
    back: &mut B,
    script: &Checked,
    points: u64,
) -> Result<Outputs, AllocError>
    requires script { IsDemonstration script.now }
    requires few { points ≤ most_points }
    ensures shown { IfOk result (ShowMeaning (results points)) }
    ensures told { OnOk result (B.told back.new script.now) }
{
    let inputs = inputs(alloc, points)?;
    let mut outputs = Tables::new(alloc);
    match back.run(alloc, script, &inputs, &mut outputs) {
        Ok(()) => Ok(outputs),
        Err(RunErr::OutOfMemory) => Err(AllocError),
        Err(RunErr::DivZero(_)) => unreachable!(),
        Err(RunErr::Range(_)) => unreachable!(),
    }
}

// How many bytes the CSV text of a data set has.
fn csv_size(
    alloc: Global,
    script: &Checked,
    table: &Table,
    structure: &Structure,
) -> Result<usize, AllocError>
    requires table { IsTableOf structure.now (listed table.now) }
    requires settings { script.now.settings ≡ settings }
    ensures { IfOk result (λ size. size ≡ length (csv_of settings structure.now table.now.rows)) }
{
    Ok(write_dataset(alloc, table, structure, script.profile())?.len())
}

fn part(alloc: Global, name: &Txt, points: usize, bytes: usize) -> Result<String, AllocError>
    ensures { IfOk result (λ text. string_bytes text ≡ part name.now points bytes) }
{
    format!(in alloc; " {} {} {}", name.as_str(), points, bytes)
}

// What is said of a result.
fn part_for(
    alloc: Global,
    script: &Checked,
    name: &Txt,
    table: &Table,
) -> Result<String, AllocError>
    requires known { IsKnown (known_of script.now) (name.now, listed table.now) }
    requires settings { script.now.settings ≡ settings }
    ensures { IfOk result (λ text. string_bytes text ≡ part_for (known_of script.now) (name.now, listed table.now)) }
{
    match script.structure(name) {
        Some(structure) => {
            let bytes = csv_size(alloc, script, table, structure)?;
            part(alloc, name, table.len(), bytes)
        }
        None => unreachable!(),
    }
}

// What is said of all results, behind a word.
fn line_for(
    alloc: Global,
    word: &str,
    script: &Checked,
    outputs: &Outputs,
) -> Result<String, AllocError>
    requires known { AreKnown (known_of script.now) outputs.now }
    requires settings { script.now.settings ≡ settings }
    ensures { IfOk result (λ text. string_bytes text ≡ word.now ++ (flat_map (part_for (known_of script.now)) outputs.now ++ codes "\n")) }
{
    let mut line = String::from_str(alloc, word)?;
    for i in 0..outputs.len() {
        let (name, table) = outputs.at(i);
        line.push_str(&part_for(alloc, script, name, table)?)?;
    }
    line.push_str("\n")?;
    Ok(line)
}

// The line of a back end.
fn line<B: Backend>(
    alloc: Global,
    back: &mut B,
    word: &str,
    script: &Checked,
    points: u64,
) -> Result<String, AllocError>
    requires script { IsDemonstration script.now }
    requires few { points ≤ most_points }
    ensures line { IfOk result (λ text. string_bytes text ≡ line_of word.now (results points)) }
    ensures told { OnOk result (B.told back.new script.now) }
{
    let outputs = results(alloc, back, script, points)?;
    line_for(alloc, word, script, &outputs)
}

/// The lines of both back ends on the script over data sets of so many points, at most `MOST_POINTS`: the first one
/// is called `interp`, the second one `engine`, which has been told of the script then. It fails only if memory runs out.
pub fn demonstrate<A: Backend, B: Backend>(
    alloc: Global,
    interpreter: &mut A,
    engine: &mut B,
    points: u64,
) -> Result<String, AllocError>
    requires { points ≤ most_points }
    ensures said { IfOk result (λ text. string_bytes text ≡ said points) }
    ensures told { OnOk result (IsToldOf (B.told engine.new)) }
{
    let script = script(alloc)?;
    let mut lines = line(alloc, interpreter, "interp", &script, points)?;
    lines.push_str(&line(alloc, engine, "engine", &script, points)?)?;
    Ok(lines)
}
