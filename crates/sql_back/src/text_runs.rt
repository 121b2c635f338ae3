// Runs of texts by the parser and the engine of this repository.
ghost use Rattle.std.specs.Prelude.{◌≡◌, ◌<◌, IfOk};
ghost use Rattle.sql_tree.specs.Formed.{FormedScript};
ghost use Rattle.sql_tree.specs.Texts.{IsScript};
ghost use Rattle.sql_tree.specs.Trees.{ScriptTree};
ghost use Rattle.sql_tree.specs.View.{script_tree};
ghost use Rattle.sql_engine.specs.InputTables.{AreInputsInRange, HaveInputTables};
ghost use Rattle.sql_engine.specs.Runs.{RunsAsMade};
ghost use Rattle.sql_back.specs.TextRuns.{CanRun, RunsText};

use sql_check::SqlChecked;
use sql_engine::run_as_made;
use sql_parser::{SqlErr, parse};
use sql_tree::SqlScript;
use std::alloc::{AllocError, Global};
use std::marker::Brand;
use std::sync::ledger::{Blank, Ledger};
use vtl_index::Steps;
use vtl_rows::{Inputs, Outputs};
use vtl_scalar::RunErr;

// The script that a text spells.
fn script_of(alloc: Global, text: &str) -> Result<SqlScript, AllocError>
    requires { (tree : ScriptTree) × IsScript text.now tree }
    ensures script { (tree : ScriptTree) → IsScript text.now tree → IfOk result (λ script. script_tree script ≡ tree) }
    ensures formed { IfOk result (λ script. FormedScript (script_tree script)) }
{
    match parse(alloc, text) {
        Ok(script) => Ok(script),
        Err(SqlErr::OutOfMemory) => Err(AllocError),
        Err(SqlErr::Syntax { .. }) => unreachable!(),
    }
}

// The run of a script, whose steps nobody counts. Its rows are not sorted: whoever writes them does it.
fn run_uncounted<L: Ledger>(
    alloc: Global,
    checked: &SqlChecked,
    inputs: &Inputs,
    out: &mut Outputs,
    blank: Blank,
) -> Result<(), RunErr>
    requires name { blank.name ≡ L.name }
    requires parts { blank.parts ≡ L.parts }
    requires some { 0 < L.parts }
    requires there { HaveInputTables inputs.now (script_tree checked.now.script) }
    requires in_range { AreInputsInRange checked.now.settings inputs.now (script_tree checked.now.script) }
    ensures { RunsAsMade (script_tree checked.now.script) inputs.now out.old out.new result }
{
    let mut steps: Steps<L> = Steps::new(blank);
    run_as_made(alloc, checked, inputs, out, &mut steps)
}

/// Runs the script that a text spells. Its rules need no test: a text that can be run breaks none.
pub(crate) fn run_text(
    alloc: Global,
    text: &str,
    inputs: &Inputs,
    out: &mut Outputs,
) -> Result<(), RunErr>
    requires { CanRun text.now inputs.now }
    ensures { RunsText text.now inputs.now out.old out.new result }
{
    let script = script_of(alloc, text)?;
    let checked = SqlChecked::of(script);
    run_uncounted::<Brand>(alloc, &checked, inputs, out, Blank::new(1))
}
