// A run of a script.
//
// Who writes rows sorts them: `run` sorts exports, since the command `engine` writes rows as they stand, and the back
// end, whose results are sorted where they are written, takes them as they were made (`run_as_made`). One body serves
// both (`RowOrder`).
ghost use Rattle.sql_tree.specs.View.{script_tree};
ghost use Rattle.sql_meaning.specs.Scripts.{script_value};
ghost use Rattle.sql_engine.specs.InputTables.{AreInputsInRange, HaveInputTables, rows_given};
ghost use Rattle.sql_engine.specs.Runs.{Runs, RunsAsMade, TellsExports};

use crate::exports::exported;
use crate::made_tables::made_tables;
use crate::orders::RowOrder;
use sql_check::SqlChecked;
use std::alloc::Global;
use std::sync::ledger::Ledger;
use vtl_index::Steps;
use vtl_rows::{Inputs, Outputs};
use vtl_scalar::RunErr;

// The tables that a script exports, each with its rows in this order.
fn script_exports<L: Ledger>(
    alloc: Global,
    script: &SqlChecked,
    inputs: &Inputs,
    order: RowOrder,
    steps: &mut Steps<L>,
) -> Result<Outputs, RunErr>
    requires there { HaveInputTables inputs.now (script_tree script.now.script) }
    requires in_range { AreInputsInRange script.now.settings inputs.now (script_tree script.now.script) }
    ensures { TellsExports order (script_value (script_tree script.now.script) (rows_given inputs.now)) result }
{
    let p = script.profile();
    let statements = script.script().statements.as_slice();
    let tables = made_tables(alloc, statements, inputs, p, steps)?;
    Ok(exported(alloc, tables, statements, order)?)
}

/// Runs a script over the tables of its inputs. On Ok `out` holds its exports and nothing else, one table for each
/// EXPORT in order, with the columns of the exported table, and its rows sorted by the listed columns and then by all.
///
/// # Errors
///
/// The query of the first faulty CREATE divides by zero or has a number that is out of range; the fault names its table,
/// up to the first `$`. Or there was not enough memory. In either case `out` is as before.
pub fn run<L: Ledger>(
    alloc: Global,
    script: &SqlChecked,
    inputs: &Inputs,
    out: &mut Outputs,
    steps: &mut Steps<L>,
) -> Result<(), RunErr>
    requires there { HaveInputTables inputs.now (script_tree script.now.script) }
    requires in_range { AreInputsInRange script.now.settings inputs.now (script_tree script.now.script) }
    ensures { Runs (script_tree script.now.script) inputs.now out.old out.new result }
{
    *out = script_exports(alloc, script, inputs, RowOrder::Sorted, steps)?;
    Ok(())
}

/// Runs a script as `run` does, but the rows of each table stand in the order in which they were made: for a caller that
/// sorts them, or needs no order.
///
/// # Errors
///
/// As those of `run`.
pub fn run_as_made<L: Ledger>(
    alloc: Global,
    script: &SqlChecked,
    inputs: &Inputs,
    out: &mut Outputs,
    steps: &mut Steps<L>,
) -> Result<(), RunErr>
    requires there { HaveInputTables inputs.now (script_tree script.now.script) }
    requires in_range { AreInputsInRange script.now.settings inputs.now (script_tree script.now.script) }
    ensures { RunsAsMade (script_tree script.now.script) inputs.now out.old out.new result }
{
    *out = script_exports(alloc, script, inputs, RowOrder::AsMade, steps)?;
    Ok(())
}
