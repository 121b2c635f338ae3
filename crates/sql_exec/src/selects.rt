// Selects: FROM and WHERE first, and then items or groups.
//
// A select of all columns of its only source, in order, shares the cells of that source's table (`whole_source`)
// where FROM and WHERE leave all its rows: such selects give tables new names of columns, of which translation writes
// many.
ghost use Rattle.std.specs.List.{AllByRecursion, list_any};
ghost use Rattle.std.specs.Prelude.{◌≡◌, ◌+◌, ◌≤◌, ◌==◌, ◌∷◌, [], length, map, zip, true, false, None, IfErr, IfOk, OnOk};
ghost use Rattle.vtl_rows.specs.Tables.{column_kinds};
ghost use Rattle.sql_tree.specs.Trees.{SelectTree};
ghost use Rattle.sql_tree.specs.View.{item_tree, select_tree};
ghost use Rattle.sql_meaning.specs.Plans.{IsPlan, indexed_in, is_indexed, planned_selects, planned_source_rows};
ghost use Rattle.sql_from.specs.Asking.{item_asks};
ghost use Rattle.sql_check_parts.specs.Queries.{is_grouped, scope_of};
ghost use Rattle.sql_check_parts.specs.Scopes.{row_of};
ghost use Rattle.sql_meaning.specs.Outcomes.{row_at};
ghost use Rattle.sql_meaning.specs.Selects.{appended, item_value, plain_rows, second_phase};
ghost use Rattle.sql_meaning.specs.Profiles.{AreOfProfile, IsLawful};
ghost use Rattle.sql_meaning.specs.Tables.{RowsFit};
ghost use Rattle.sql_from.specs.FromTables.{from_given};
ghost use Rattle.sql_from.specs.Held.{base_held, tables_held};
ghost use Rattle.sql_from.specs.Sources.{scope_held};
ghost use Rattle.sql_from.specs.Standing.{rows_for, sight_of};
ghost use Rattle.sql_from.specs.Steps.{IsPlainJoin, most_steps};
ghost use Rattle.sql_check_parts.specs.Expressions.{site};
ghost use Rattle.sql_check_laws.specs.Selects.{IsItemTyped};
ghost use Rattle.sql_exec.specs.Outputs.{Adds};
ghost use Rattle.sql_exec.specs.Parts.{HasRowsOf, IsPart, MakesKinds, phase_of};

use crate::gathered::{add_gathered, column_places};
use crate::items::{ItemValues, RowItem, row_items};
use crate::output::Output;
use crate::planned::PlannedSelects;
use crate::simple_items::{add_simple, simple_items};
use sql_check_queries::is_grouped;
use sql_from::{FromTables, Given, Partners, Sources, TupleRows, asks, source_tuples};
use sql_groups::push_grouped;
use sql_meaning::{Early, Plan};
use sql_tree::{Item, ItemValue, Select};
use std::alloc::{AllocError, Global};
use std::sync::ledger::Ledger;
use vtl_cell::Kind;
use vtl_decimal::Profile;
use vtl_index::Steps;
use vtl_scalar::ScalarErr;

fn item_asks(item: &Item) -> bool
    ensures { result ≡ item_asks (item_tree item.now) }
{
    match &item.value {
        ItemValue::Expr(e) => asks(e),
        ItemValue::Window(_) => false,
    }
}

// Whether one of these items asks EXISTS.
fn any_asks(items: &[Item]) -> bool
    ensures { result ≡ list_any item_asks (map item_tree items.now) }
{
    for item in items {
        if item_asks(item) {
            return true;
        }
    }
    false
}

// The look-ups for the EXISTS of resolved items.
fn item_partners<'a, L: Ledger>(
    alloc: Global,
    sources: &'a Sources<'a>,
    resolved: &[RowItem],
    p: &Profile,
    steps: &mut Steps<L>,
) -> Result<Partners<'a>, AllocError>
    requires { IsLawful (base_held p.now sources.now.held) }
    ensures { IfOk result (λ x. x ≡ sources.now) }
{
    let mut partners = Partners::none(alloc, sources);
    for item in resolved {
        if let ItemValues::Expression(e) = &item.values {
            partners = partners.with(alloc, e, p, steps)?;
        }
    }
    Ok(partners)
}

// The same, where an item asks one. The items are given as they are written, too.
fn wanted_partners<'a, L: Ledger>(
    alloc: Global,
    sources: &'a Sources<'a>,
    items: &[Item],
    resolved: &[RowItem],
    p: &Profile,
    steps: &mut Steps<L>,
) -> Result<Partners<'a>, AllocError>
    requires { IsLawful (base_held p.now sources.now.held) }
    ensures sources { IfOk result (λ x. x ≡ sources.now) }
    ensures steps { list_any item_asks (map item_tree items.now) ≡ false → steps.new ≡ steps.old }
{
    if any_asks(items) {
        item_partners(alloc, sources, resolved, p, steps)
    } else {
        Ok(Partners::none(alloc, sources))
    }
}

// Adds a row of the items for each row of FROM. Where all items are columns, their cells are gathered; where they are
// columns and windows, no expression is evaluated.
fn add_rows<L: Ledger>(
    alloc: Global,
    out: &mut Output,
    items: &[Item],
    rows: &TupleRows<'_>,
    kinds: &[Kind],
    p: &Profile,
    steps: &mut Steps<L>,
) -> Result<(), ScalarErr>
    requires lawful { IsLawful (base_held p.now rows.now.sources.held) }
    requires typed { AllByRecursion (IsItemTyped (site p.now (tables_held rows.now.sources.held) (scope_held rows.now.sources.sources)) None) (map item_tree items.now) }
    requires many { length kinds.now ≡ length items.now }
    requires columns { column_kinds out.old.table.columns ≡ kinds.now }
    requires fit { RowsFit (row_of (scope_held rows.now.sources.sources)) (rows_for rows.now.sources rows.now.tuples) }
    requires fitting { MakesKinds (scope_held rows.now.sources.sources) kinds.now (λ all. row_at (item_value (sight_of p.now rows.now.sources) all) (zip (map item_tree items.now) kinds.now)) }
    ensures adds { OnOk result (Adds (plain_rows (sight_of p.now rows.now.sources) (zip (map item_tree items.now) kinds.now) (rows_for rows.now.sources rows.now.tuples)) out.old out.new) }
    ensures steps { list_any item_asks (map item_tree items.now) ≡ false → steps.new ≡ steps.old }
    ensures err { IfErr result (λ e. e ≡ ScalarErr.OutOfMemory) }
{
    if let Some(places) = column_places(alloc, &rows.sources, items, kinds)? {
        add_gathered(alloc, out, rows, &places)?;
        return Ok(());
    }
    if let Some(simple) = simple_items(alloc, &rows.sources, items, kinds)? {
        return add_simple(alloc, out, items, &simple, rows, kinds, p);
    }
    let resolved = row_items(alloc, p, rows, items, kinds)?;
    let partners = wanted_partners(alloc, &rows.sources, items, &resolved, p, steps)?;
    out.table.reserve_rows(rows.len())?;
    for number in 0..rows.len() {
        out.add_row(
            alloc,
            &resolved,
            &(&*rows).partnered(number, &partners),
            number,
            p,
        )?;
    }
    Ok(())
}

// Adds what the select makes of the rows that FROM and WHERE give.
fn add_phase<L: Ledger>(
    alloc: Global,
    out: &mut Output,
    select: &Select,
    rows: &TupleRows<'_>,
    kinds: &[Kind],
    p: &Profile,
    steps: &mut Steps<L>,
) -> Result<(), ScalarErr>
    requires lawful { IsLawful (base_held p.now rows.now.sources.held) }
    requires scope { scope_held rows.now.sources.sources ≡ scope_of (tables_held rows.now.sources.held) (select_tree select.now) }
    requires part { IsPart (base_held p.now rows.now.sources.held) kinds.now (select_tree select.now) }
    requires columns { column_kinds out.old.table.columns ≡ kinds.now }
    requires ranged { AreOfProfile p.now (rows_for rows.now.sources rows.now.tuples) }
    requires fit { RowsFit (row_of (scope_held rows.now.sources.sources)) (rows_for rows.now.sources rows.now.tuples) }
    ensures adds { OnOk result (Adds (second_phase (sight_of p.now rows.now.sources) (zip (select_tree select.now).items kinds.now) (select_tree select.now) (rows_for rows.now.sources rows.now.tuples)) out.old out.new) }
    ensures steps { is_grouped (select_tree select.now) ≡ false → list_any item_asks (select_tree select.now).items ≡ false → steps.new ≡ steps.old }
    ensures err { IfErr result (λ e. e ≡ ScalarErr.OutOfMemory) }
{
    if !is_grouped(select) {
        let items = select.items.as_slice();
        return add_rows(alloc, out, items, rows, kinds, p, steps);
    }
    match push_grouped(alloc, &mut out.table, select, &*rows, kinds, p, steps) {
        Ok(()) => Ok(()),
        Err(error) => out.see(error),
    }
}

// Adds the rows of a select, or its fault. Its joins that are listed go by a look-up, and the parts of its WHERE that are
// listed are tried early.
fn add_select<L: Ledger>(
    alloc: Global,
    out: &mut Output,
    select: &Select,
    by_index: &[usize],
    early: &[Early],
    from: &FromTables<'_>,
    kinds: &[Kind],
    tables: &Given<'_>,
    p: &Profile,
    steps: &mut Steps<L>,
) -> Result<(), ScalarErr>
    requires from { from.now ≡ from_given tables.now (select_tree select.now) }
    requires part { IsPart (base_held p.now tables.now) kinds.now (select_tree select.now) }
    requires lawful { IsLawful (base_held p.now tables.now) }
    requires same { HasRowsOf (base_held p.now tables.now) early.now (select_tree select.now) }
    requires columns { column_kinds out.old.table.columns ≡ kinds.now }
    ensures adds { OnOk result (Adds (phase_of (base_held p.now tables.now) kinds.now (select_tree select.now) (planned_source_rows (base_held p.now tables.now) (select_tree select.now) [] early.now)) out.old out.new) }
    ensures steps { list_any (λ n. n == 0) by_index.now ≡ true → IsPlainJoin (select_tree select.now) → steps.new ≤ steps.old + most_steps (base_held p.now tables.now) (select_tree select.now) }
    ensures err { IfErr result (λ e. e ≡ ScalarErr.OutOfMemory) }
{
    match source_tuples(alloc, select, from, tables, Some(by_index), early, p, steps) {
        Ok(rows) => add_phase(alloc, out, select, &rows, kinds, p, steps),
        Err(error) => out.see(error),
    }
}

/// Adds the rows of all selects, or the worst of their faults, as the plan of the query has them: each select is carried
/// out, whatever those before it give, with the joins by an index and the parts of WHERE that the plan lists for it.
pub(crate) fn add_selects<L: Ledger>(
    alloc: Global,
    out: &mut Output,
    plan: &Plan,
    selects: &[Select],
    from: &[FromTables<'_>],
    kinds: &[Kind],
    tables: &Given<'_>,
    p: &Profile,
    steps: &mut Steps<L>,
) -> Result<(), ScalarErr>
    requires from { from.now ≡ map (from_given tables.now) (map select_tree selects.now) }
    requires parts { AllByRecursion (IsPart (base_held p.now tables.now) kinds.now) (map select_tree selects.now) }
    requires plan { IsPlan (map select_tree selects.now) plan.now.ways }
    requires lawful { IsLawful (base_held p.now tables.now) }
    requires columns { column_kinds out.old.table.columns ≡ kinds.now }
    ensures adds { OnOk result (Adds (appended (planned_selects (base_held p.now tables.now) kinds.now plan.now.ways 0 (map select_tree selects.now))) out.old out.new) }
    ensures steps { (s : SelectTree) → map select_tree selects.now ≡ s ∷ [] → is_indexed (indexed_in plan.now.ways 0) 0 ≡ true → IsPlainJoin s → steps.new ≤ steps.old + most_steps (base_held p.now tables.now) s }
    ensures err { IfErr result (λ e. e ≡ ScalarErr.OutOfMemory) }
{
    let planned = PlannedSelects::of(alloc, plan, selects.len())?;
    for place in 0..selects.len() {
        let select = &selects[place];
        let by_index = planned.joins[place].as_slice();
        let early = planned.early[place].as_slice();
        add_select(
            alloc,
            out,
            select,
            by_index,
            early,
            &from[place],
            kinds,
            tables,
            p,
            steps,
        )?;
    }
    Ok(())
}
