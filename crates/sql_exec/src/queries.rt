// Queries.
//
// The kinds of a query's columns are found before a row is made, since a select makes its values of the kinds that
// all selects share. So each select's expressions are resolved twice, once for their kinds and once for its rows, and
// its sources are named twice: both go with the length of the query and not with its rows.
//
// `exec` promises rows in any order, though it gives those of the meaning in its order: a plan that finds pairs
// otherwise may take its place.
ghost use Rattle.std.specs.Prelude.{◌≡◌, ◌+◌, ◌≤◌, ◌∷◌, [], true, IfOk, length, map};
ghost use Rattle.vtl_scalar.specs.Answers.{AnswersBy};
ghost use Rattle.sql_tree.specs.Formed.{IsQuery};
ghost use Rattle.sql_tree.specs.Grammar.{most_levels};
ghost use Rattle.sql_tree.specs.Trees.{SelectTree};
ghost use Rattle.sql_tree.specs.View.{query_tree};
ghost use Rattle.sql_meaning.specs.Plans.{indexed_in, is_indexed};
ghost use Rattle.sql_check_parts.specs.Queries.{query_columns, scope_of};
ghost use Rattle.sql_check_laws.specs.Selects.{IsQueryTyped};
ghost use Rattle.sql_meaning.specs.From.{source_rows};
ghost use Rattle.sql_meaning.specs.Profiles.{IsLawful};
ghost use Rattle.sql_from.specs.Steps.{IsPlainJoin, most_steps};
ghost use Rattle.sql_meaning.specs.Selects.{query_value};
ghost use Rattle.sql_meaning.specs.Tables.{column_entry};
ghost use Rattle.sql_from.specs.Columns.{source_columns};
ghost use Rattle.sql_from.specs.FromTables.{from_given};
ghost use Rattle.sql_from.specs.Held.{base_held, tables_held};
ghost use Rattle.sql_exec.specs.Answers.{Gives};

use crate::columns::{named_columns, query_kinds};
use crate::from_each::from_each;
use crate::output::Output;
use crate::selects::add_selects;
use sql_from::{ExecErr, FromTables, Given, HeldTables, given_for};
use sql_meaning::Plan;
use std::alloc::Global;
use std::sync::ledger::Ledger;
use vtl_decimal::Profile;
use vtl_index::Steps;
use vtl_rows::Table;

// The table of a query, over the tables that are made for it: those of FROM, and those of EXISTS.
fn exec_over<L: Ledger>(
    alloc: Global,
    plan: &Plan,
    tables: &Given<'_>,
    from: &[FromTables<'_>],
    p: &Profile,
    steps: &mut Steps<L>,
) -> Result<Table, ExecErr>
    requires formed { IsQuery most_levels (query_tree plan.now.query) }
    requires typed { IsQueryTyped p.now (tables_held tables.now) (query_tree plan.now.query) }
    requires lawful { IsLawful (base_held p.now tables.now) }
    requires from { from.now ≡ map (from_given tables.now) (query_tree plan.now.query) }
    ensures columns { IfOk result (λ t. map column_entry t.columns ≡ query_columns (tables_held tables.now) (query_tree plan.now.query)) }
    ensures rows { Gives (query_value (base_held p.now tables.now) (query_tree plan.now.query)) result }
    ensures steps { (s : SelectTree) → query_tree plan.now.query ≡ s ∷ [] → is_indexed (indexed_in plan.now.ways 0) 0 ≡ true → IsPlainJoin s → steps.new ≤ steps.old + most_steps (base_held p.now tables.now) s }
{
    let selects = plan.query().selects.as_slice();
    let kinds = query_kinds(alloc, p, tables, from, selects)?;
    let columns = named_columns(alloc, selects[0].items.as_slice(), &kinds)?;
    let mut out = Output::new(alloc, columns);
    add_selects(
        alloc, &mut out, plan, selects, from, &kinds, tables, p, steps,
    )?;
    out.finish()
}

/// The table of a query: its columns with their names and kinds, and its rows, each as often, in any order. Joins that
/// its plan lists go by an index, and every other join tries each pair; parts of a WHERE that it lists are tried before
/// a join too, which sees the rows at which they are true.
///
/// A step is one row that is added to a look-up, one that asks it, or one pair of rows that a join takes. One select over
/// two sources, whose join the plan lists, takes at most one for each row of both and for each row that FROM gives, if it
/// is not grouped and asks no EXISTS.
///
/// # Errors
///
/// The query's fault is a division by zero or a number out of its range; or there was not enough memory.
pub fn exec<L: Ledger>(
    alloc: Global,
    plan: &Plan,
    tables: &HeldTables,
    p: &Profile,
    steps: &mut Steps<L>,
) -> Result<Table, ExecErr>
    requires formed { IsQuery most_levels (query_tree plan.now.query) }
    requires typed { IsQueryTyped p.now (tables_held tables.now) (query_tree plan.now.query) }
    requires lawful { IsLawful (base_held p.now tables.now) }
    ensures columns { IfOk result (λ t. map column_entry t.columns ≡ query_columns (tables_held tables.now) (query_tree plan.now.query)) }
    ensures rows { Gives (query_value (base_held p.now tables.now) (query_tree plan.now.query)) result }
    ensures steps { (s : SelectTree) → query_tree plan.now.query ≡ s ∷ [] → is_indexed (indexed_in plan.now.ways 0) 0 ≡ true → IsPlainJoin s → steps.new ≤ steps.old + most_steps (base_held p.now tables.now) s }
{
    let selects = plan.query().selects.as_slice();
    let given = given_for(alloc, tables, selects)?;
    let from = from_each(alloc, tables, selects)?;
    exec_over(alloc, plan, &given, &from, p, steps)
}

/// The table of the rows that FROM gives and WHERE keeps in a query of one select: the columns of its sources in order,
/// each named by the alias, a line feed and its name.
///
/// # Errors
///
/// The fault of an ON or of WHERE is a division by zero or a number out of its range; or there was not enough memory.
pub fn source_rows<L: Ledger>(
    alloc: Global,
    plan: &Plan,
    tables: &HeldTables,
    p: &Profile,
    steps: &mut Steps<L>,
) -> Result<Table, ExecErr>
    requires one { length (query_tree plan.now.query) ≡ 1 }
    requires typed { IsQueryTyped p.now (tables_held tables.now) (query_tree plan.now.query) }
    ensures columns { (s : SelectTree) → query_tree plan.now.query ≡ s ∷ [] → IfOk result (λ t. t.columns ≡ source_columns (scope_of (tables_held tables.now) s)) }
    ensures rows { (s : SelectTree) → query_tree plan.now.query ≡ s ∷ [] → AnswersBy (λ t. t.rows) result (source_rows (base_held p.now tables.now) s) }
{
    let selects = plan.query().selects.as_slice();
    let select = &selects[0];
    let given = given_for(alloc, tables, selects)?;
    let from = FromTables::of(alloc, tables, select)?;
    sql_from::source_rows(alloc, select, &from, &given, p, steps)
}
