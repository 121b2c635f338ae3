// Grouped selects.
//
// One walk over the groups: HAVING, then the items where it keeps the group, with one joined fault. That this is
// HAVING over all groups and then the items over those that are kept, as the meaning has it, is list calculus
// (`one_walk`).
ghost use Rattle.std.specs.Prelude.{◌≡◌, ◌++◌, true, Ok, map, option_map, zip};
ghost use Rattle.vtl_cell.specs.Outcome.{after};
ghost use Rattle.vtl_scalar.specs.Answers.{AnswersBy};
ghost use Rattle.vtl_rows.specs.Tables.{column_kinds};
ghost use Rattle.sql_tree.specs.View.{expr_tree, item_tree, select_tree};
ghost use Rattle.sql_check_parts.specs.Queries.{is_grouped, kinds_of, scope_of};
ghost use Rattle.sql_check_parts.specs.Scopes.{row_of};
ghost use Rattle.sql_check_laws.specs.Selects.{IsSelectTyped};
ghost use Rattle.sql_meaning.specs.Selects.{grouped_rows};
ghost use Rattle.sql_meaning.specs.Tables.{RowsFit};
ghost use Rattle.sql_from.specs.Held.{base_held, tables_held};
ghost use Rattle.sql_meaning.specs.Profiles.{AreOfProfile, IsLawful};
ghost use Rattle.sql_from.specs.Sources.{scope_held};
ghost use Rattle.sql_from.specs.Standing.{rows_for, sight_of};
ghost use Rattle.sql_groups.specs.Resolved.{AreLifted};

use crate::resolving::resolve_groups;
use crate::rows::push_groups;
use sql_from::TupleRows;
use sql_tree::Select;
use std::alloc::Global;
use std::sync::ledger::Ledger;
use vtl_cell::Kind;
use vtl_decimal::Profile;
use vtl_index::Steps;
use vtl_rows::Table;
use vtl_scalar::ScalarErr;

/// Puts the rows of a grouped select behind others, which the rows of FROM that WHERE keeps give: one for each group
/// that HAVING keeps, in the order of the groups' first rows, each cell of the kind of its column.
///
/// DivZero where HAVING at some group, or an item at one that it keeps, divides by zero; otherwise Range where one of
/// these is out of range; otherwise it fails only if memory runs out. Which rows stand behind the others is told only
/// where it succeeds.
pub fn push_grouped<L: Ledger>(
    alloc: Global,
    table: &mut Table,
    select: &Select,
    rows: &TupleRows<'_>,
    kinds: &[Kind],
    p: &Profile,
    steps: &mut Steps<L>,
) -> Result<(), ScalarErr>
    requires grouped { is_grouped (select_tree select.now) ≡ true }
    requires typed { IsSelectTyped p.now (tables_held rows.now.sources.held) (select_tree select.now) }
    requires scope { scope_held rows.now.sources.sources ≡ scope_of (tables_held rows.now.sources.held) (select_tree select.now) }
    requires fit { RowsFit (row_of (scope_held rows.now.sources.sources)) (rows_for rows.now.sources rows.now.tuples) }
    requires lawful { IsLawful (base_held p.now rows.now.sources.held) }
    requires ranged { AreOfProfile p.now (rows_for rows.now.sources rows.now.tuples) }
    requires lifted { AreLifted kinds.now (kinds_of (tables_held rows.now.sources.held) (select_tree select.now)) }
    requires columns { column_kinds table.old.columns ≡ kinds.now }
    ensures columns { table.new.columns ≡ table.old.columns }
    ensures rows { AnswersBy (λ u. table.new.rows) result (after (grouped_rows (sight_of p.now rows.now.sources) (zip (map item_tree select.now.items) kinds.now) select.now.group (option_map expr_tree select.now.having) (rows_for rows.now.sources rows.now.tuples)) (λ made. Ok (table.old.rows ++ made))) }
{
    let resolved = resolve_groups(alloc, p, &rows.sources, select, kinds)?;
    push_groups(
        alloc,
        table,
        &resolved,
        rows,
        select.group.as_slice(),
        p,
        steps,
    )
}
