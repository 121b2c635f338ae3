// One statement, over the tables that are held.
ghost use Rattle.std.specs.Prelude.{◌≡◌, ◌+◌, ◌≤◌, ◌∷◌, [], IfOk, None, Ok, OnOk, map};
ghost use Rattle.vtl_rows.specs.Named.{table_of};
ghost use Rattle.sql_tree.specs.Trees.{SelectTree};
ghost use Rattle.sql_tree.specs.View.{query_tree, statement_tree};
ghost use Rattle.sql_check_parts.specs.Queries.{query_columns};
ghost use Rattle.sql_check_parts.specs.Statements.{input_columns};
ghost use Rattle.sql_meaning.specs.Selects.{query_value};
ghost use Rattle.sql_from.specs.Steps.{IsPlainJoin, most_steps};
ghost use Rattle.sql_meaning.specs.Tables.{HasTable, column_entry, rows_of};
ghost use Rattle.sql_exec.specs.Answers.{Gives};
ghost use Rattle.sql_from.specs.Held.{base_held, tables_held};
ghost use Rattle.sql_engine.specs.Statements.{IsPut, MayQuery, MayRun, RunsStatement};
ghost use Rattle.sql_tree.specs.Trees as tree;

use crate::faults::named;
use sql_exec::exec;
use sql_from::{ExecErr, HeldTable, HeldTables};
use sql_plan::plan;
use sql_tree::{Query, SqlCreate, SqlInput, Statement};
use std::alloc::{AllocError, Global};
use std::sync::ledger::Ledger;
use vtl_decimal::Profile;
use vtl_index::Steps;
use vtl_rows::{Inputs, Table};
use vtl_scalar::RunErr;

// Holds the table that was read for an INPUT, with one more owner.
fn run_input(
    alloc: Global,
    input: &SqlInput,
    inputs: &Inputs,
    tables: &mut HeldTables,
) -> Result<(), AllocError>
    requires free { table_of input.now.name tables.old ≡ None }
    requires there { HasTable (input_columns input.now) (table_of input.now.name inputs.now) }
    ensures { OnOk result (IsPut input.now.name (input_columns input.now) (Ok (rows_of (table_of input.now.name inputs.now))) tables.old tables.new) }
{
    match inputs.shared(&input.name) {
        Some(table) => {
            let held = HeldTable::sharing(alloc, table.share()?)?;
            tables.put(input.name.share()?, held)
        }
        None => unreachable!(),
    }
}

// The table of a query. One select over two sources, whose ON is a conjunction of equalities of a column of each, takes
// at most one step for each row of both and for each row that FROM gives, if it is not grouped and asks no EXISTS.
fn query_table<L: Ledger>(
    alloc: Global,
    query: &Query,
    tables: &HeldTables,
    p: &Profile,
    steps: &mut Steps<L>,
) -> Result<Table, ExecErr>
    requires { MayQuery p.now (query_tree query.now) tables.now }
    ensures columns { IfOk result (λ t. map column_entry t.columns ≡ query_columns (tables_held tables.now) (query_tree query.now)) }
    ensures rows { Gives (query_value (base_held p.now tables.now) (query_tree query.now)) result }
    ensures steps { (s : SelectTree) → query_tree query.now ≡ s ∷ [] → IsPlainJoin s → steps.new ≤ steps.old + most_steps (base_held p.now tables.now) s }
{
    let plan = plan(alloc, query)?;
    exec(alloc, &plan, tables, p, steps)
}

// Holds the table of a CREATE.
fn run_create<L: Ledger>(
    alloc: Global,
    create: &SqlCreate,
    tables: &mut HeldTables,
    p: &Profile,
    steps: &mut Steps<L>,
) -> Result<(), RunErr>
    requires free { table_of create.now.name tables.old ≡ None }
    requires query { MayQuery p.now (query_tree create.now.query) tables.old }
    ensures { RunsStatement p.now tables.old (tree.create create.now.name (query_tree create.now.query)) tables.old tables.new result }
{
    match query_table(alloc, &create.query, tables, p, steps) {
        Ok(table) => {
            let held = HeldTable::of(alloc, table)?;
            tables.put(create.name.share()?, held)?;
            Ok(())
        }
        Err(error) => Err(named(alloc, &create.name, error)),
    }
}

/// Carries out a statement: the table of an INPUT or of a CREATE is held behind the others. An EXPORT is given in the
/// end. It fails with the fault of a CREATE's query, and if memory runs out.
pub fn run_statement<L: Ledger>(
    alloc: Global,
    statement: &Statement,
    inputs: &Inputs,
    tables: &mut HeldTables,
    p: &Profile,
    steps: &mut Steps<L>,
) -> Result<(), RunErr>
    requires { MayRun p.now inputs.now (statement_tree statement.now) tables.old }
    ensures { RunsStatement p.now inputs.now (statement_tree statement.now) tables.old tables.new result }
{
    match statement {
        Statement::Input(input) => {
            run_input(alloc, input, inputs, tables)?;
            Ok(())
        }
        Statement::Create(create) => run_create(alloc, create, tables, p, steps),
        Statement::Export(_) => Ok(()),
    }
}
