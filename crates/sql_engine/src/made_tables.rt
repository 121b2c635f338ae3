// The tables that the statements of a script make.
ghost use Rattle.std.specs.Prelude.{◌≤◌, length, map};
ghost use Rattle.grammar_forms.specs.Written.{Each};
ghost use Rattle.sql_tree.specs.Formed.{IsStatement};
ghost use Rattle.sql_tree.specs.Grammar.{most_levels};
ghost use Rattle.sql_tree.specs.View.{statement_tree};
ghost use Rattle.sql_check_parts.specs.Statements.{nothing};
ghost use Rattle.sql_check_laws.specs.Statements.{AreTyped};
ghost use Rattle.sql_engine.specs.Held.{Make};
ghost use Rattle.sql_engine.specs.InputTables.{AreInputsInRange, HaveInputTables};
ghost use Rattle.sql_engine.specs.LastReads.{AreNoted, EachExported, IsReadFrom};

use crate::expression_reads::LastReads;
use crate::last_reads::last_reads;
use crate::letting_go::{let_go_behind, read_last};
use crate::statements::run_statement;
use sql_from::HeldTables;
use sql_tree::Statement;
use std::alloc::Global;
use std::sync::ledger::Ledger;
use vtl_decimal::Profile;
use vtl_index::Steps;
use vtl_rows::Inputs;
use vtl_scalar::RunErr;

// The tables of INPUTs and CREATEs, carried out in order. Rows that no later statement reads are let go.
fn run_each<L: Ledger>(
    alloc: Global,
    statements: &[Statement],
    inputs: &Inputs,
    last: &LastReads,
    p: &Profile,
    steps: &mut Steps<L>,
) -> Result<HeldTables, RunErr>
    requires scale { p.now.scale ≤ 9 }
    requires formed { Each (IsStatement most_levels) (map statement_tree statements.now) }
    requires typed { AreTyped p.now nothing (map statement_tree statements.now) }
    requires there { HaveInputTables inputs.now (map statement_tree statements.now) }
    requires in_range { AreInputsInRange p.now inputs.now (map statement_tree statements.now) }
    requires created { AreNoted last.now 0 (map statement_tree statements.now) }
    requires exported { EachExported (IsReadFrom (length statements.now) last.now) (map statement_tree statements.now) }
    ensures { Make p.now inputs.now (map statement_tree statements.now) result }
{
    let mut tables = HeldTables::new(alloc);
    let names = read_last(alloc, last, statements.len())?;
    for place in 0..statements.len() {
        let statement = &statements[place];
        run_statement(alloc, statement, inputs, &mut tables, p, steps)?;
        let_go_behind(
            alloc,
            &mut tables,
            statement,
            &names[place],
            last,
            place + 1,
        )?;
    }
    Ok(tables)
}

/// The tables of INPUTs and CREATEs, carried out in order. Those that are exported have their rows, and others may have
/// been let go of. It fails with the first fault of a CREATE's query, and if memory runs out.
pub fn made_tables<L: Ledger>(
    alloc: Global,
    statements: &[Statement],
    inputs: &Inputs,
    p: &Profile,
    steps: &mut Steps<L>,
) -> Result<HeldTables, RunErr>
    requires scale { p.now.scale ≤ 9 }
    requires formed { Each (IsStatement most_levels) (map statement_tree statements.now) }
    requires typed { AreTyped p.now nothing (map statement_tree statements.now) }
    requires there { HaveInputTables inputs.now (map statement_tree statements.now) }
    requires in_range { AreInputsInRange p.now inputs.now (map statement_tree statements.now) }
    ensures { Make p.now inputs.now (map statement_tree statements.now) result }
{
    let last = last_reads(alloc, statements)?;
    run_each(alloc, statements, inputs, &last, p, steps)
}
