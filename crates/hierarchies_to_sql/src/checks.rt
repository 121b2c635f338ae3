// The query of `check_hierarchy`: a select for each rule.
//
// Both sides of a rule are compared and subtracted wherever it has a point. Where only points are shown at which it does not hold,
// both stand in WHERE, and errors are constants; elsewhere they stand in items, and the truth value is asked for each error that
// is written.
ghost use Rattle.std.specs.Prelude.{◌≡◌, ◌+◌, ◌++◌, ◌∷◌, [], ℕ, List as ListOf, length, map, pos, IfOk, OnOk};
ghost use Rattle.std.specs.Option.{option_map};
ghost use Rattle.vtl_tree.specs.Checks.{rule_id};
ghost use Rattle.vtl_tree.specs.RuleItems.{left_item};
ghost use Rattle.vtl_tree.specs.Columns.{identifiers_of};
ghost use Rattle.vtl_tree.specs.Shown.{shown};
ghost use Rattle.vtl_tree.specs.Structure.{columns_of};
ghost use Rattle.vtl_meaning.specs.Turned.{other_identifiers};
ghost use Rattle.sql_tree.specs.View.{expr_tree, item_tree, query_tree, select_tree, statement_tree};
ghost use Rattle.vtl_rulings.specs.HierarchyChecks.{ruled_by};
ghost use Rattle.selects_to_sql.specs.NamedItems.{AreNext};
ghost use Rattle.selects_to_sql.specs.Queries.{alias_of, items_as};
ghost use Rattle.vtl_tree.specs.ClauseShapes.{first_kind};
ghost use Rattle.selects_to_sql.specs.Tables.{by_names, create_for, numbered};
ghost use Rattle.rules_to_sql.specs.Items.{denied, errors_as, errors_as_at, level_as, text_as, written_as_where};
ghost use Rattle.hierarchies_to_sql.specs.CheckTables.{check_hierarchy_made, checked_items, sided};
ghost use Rattle.hierarchies_to_sql.specs.ItemTables.{item_tables, tables_by};
ghost use Rattle.hierarchies_to_sql.specs.RuleItems.{checked_select_as, checked_selects_as, keys_as, leaves_of, ruled_of, tables_in};
ghost use Rattle.hierarchies_to_sql.specs.SideExps.{level_of};
ghost use Rattle.hierarchies_to_sql.specs.SideItems.{appears_as, check_parts_as, check_where_as, failing_as, fails_as, gap_as, left_as, truth_as};

use crate::item_tables::{combinations, each_once, item_tables, other_identifiers};
use crate::rule_selects::{
    Tabled, aliases, beside, items, left_item, push_items, push_keys, rule_id, tables_of,
};
use crate::sides::{Measured, appears, gap, left_side, missing, truth};
use rules_to_sql::{choice, code, denied, level, level_as, no_code, no_level, text_as};
use selects_to_sql::{Draft, Operand, Writer, between, name_of_first, push_next, when};
use sql_tree::{Constant, Item, Query, Select, SqlExpr};
use std::alloc::{AllocError, Global};
use vtl_cell::{Kind, ScalarOp, integer_written};
use vtl_decimal::Profile;
use vtl_syntax::{CheckOut, HierRule, Mode};
use vtl_text::{List, Txt};
use vtl_tree::{Component, HierRules, Role, Structure};

/// A rule under a mode, over the sources of its items.
#[derive(Drop)]
pub(crate) struct Sided<'a> {
    pub(crate) rule: &'a HierRule,
    pub(crate) mode: Mode,
    pub(crate) level: Option<i64>,
    pub(crate) aliases: &'a [Txt],
}

// ---- errors

// The text of an error where the rule does not hold.
fn code_at(
    alloc: Global,
    writer: &Writer,
    measured: &Measured<'_>,
    sided: &Sided<'_>,
) -> Result<SqlExpr, AllocError>
    ensures { IfOk result (λ e. expr_tree e ≡ written_as_where text_as [] (denied (truth_as writer.now sided.now.mode measured.now.kind sided.now.rule.now (leaves_of measured.now sided.now.aliases.now))) sided.now.rule.now.error.code) }
{
    let Some(text) = &sided.rule.error.code else {
        return no_code(alloc);
    };
    let holds = truth(
        alloc,
        writer,
        measured,
        sided.mode,
        sided.rule,
        sided.aliases,
    )?;
    when(alloc, denied(alloc, holds)?, text_as(text)?, Constant::Null)
}

// The level of an error where the rule does not hold.
fn level_at(
    alloc: Global,
    writer: &Writer,
    measured: &Measured<'_>,
    sided: &Sided<'_>,
) -> Result<SqlExpr, AllocError>
    ensures { IfOk result (λ e. expr_tree e ≡ written_as_where level_as (pos 0) (denied (truth_as writer.now sided.now.mode measured.now.kind sided.now.rule.now (leaves_of measured.now sided.now.aliases.now))) sided.now.level) }
{
    let Some(number) = sided.level else {
        return no_level(alloc, writer);
    };
    let holds = truth(
        alloc,
        writer,
        measured,
        sided.mode,
        sided.rule,
        sided.aliases,
    )?;
    let value = level_as(alloc, writer, number)?;
    when(alloc, denied(alloc, holds)?, value, Constant::Null)
}

// ---- the condition

// The rule fails, and its difference is evaluated too.
fn fails(
    alloc: Global,
    writer: &Writer,
    measured: &Measured<'_>,
    sided: &Sided<'_>,
) -> Result<SqlExpr, AllocError>
    ensures { IfOk result (λ e. expr_tree e ≡ fails_as (truth_as writer.now sided.now.mode measured.now.kind sided.now.rule.now (leaves_of measured.now sided.now.aliases.now)) (gap_as writer.now sided.now.mode measured.now.kind sided.now.rule.now (leaves_of measured.now sided.now.aliases.now))) }
{
    let holds = truth(
        alloc,
        writer,
        measured,
        sided.mode,
        sided.rule,
        sided.aliases,
    )?;
    let gap = gap(
        alloc,
        writer,
        measured,
        sided.mode,
        sided.rule,
        sided.aliases,
    )?;
    let always = SqlExpr::Constant(Constant::True);
    let evaluated = between(alloc, missing(alloc, gap)?, ScalarOp::Or, always)?;
    between(alloc, denied(alloc, holds)?, ScalarOp::And, evaluated)
}

// The rule has a point and fails.
fn failing(
    alloc: Global,
    writer: &Writer,
    measured: &Measured<'_>,
    sided: &Sided<'_>,
) -> Result<SqlExpr, AllocError>
    ensures { IfOk result (λ e. expr_tree e ≡ failing_as writer.now sided.now.mode measured.now.kind sided.now.rule.now (leaves_of measured.now sided.now.aliases.now) (appears_as writer.now sided.now.mode measured.now.kind (leaves_of measured.now sided.now.aliases.now))) }
{
    let fails = fails(alloc, writer, measured, sided)?;
    match appears(alloc, writer, measured, sided.mode, sided.aliases)? {
        None => Ok(fails),
        Some(appears) => {
            let never = SqlExpr::Constant(Constant::False);
            choice(alloc, appears, fails, never)
        }
    }
}

// The condition of the points that an output shows.
fn shown_where(
    alloc: Global,
    writer: &Writer,
    measured: &Measured<'_>,
    sided: &Sided<'_>,
    output: CheckOut,
) -> Result<Option<SqlExpr>, AllocError>
    ensures { IfOk result (λ o. option_map expr_tree o ≡ check_where_as writer.now sided.now.mode measured.now.kind sided.now.rule.now (leaves_of measured.now sided.now.aliases.now) output) }
{
    match output {
        CheckOut::Invalid => Ok(Some(failing(alloc, writer, measured, sided)?)),
        CheckOut::All | CheckOut::AllMeasures => {
            appears(alloc, writer, measured, sided.mode, sided.aliases)
        }
    }
}

// ---- items

fn push_left(
    alloc: Global,
    writer: &Writer,
    items: &mut Vec<Item>,
    measured: &Measured<'_>,
    sided: &Sided<'_>,
    columns: &[&Component],
) -> Result<(), AllocError>
    ensures { OnOk result (AreNext items.old.items items.new.items (left_as writer.now sided.now.mode measured.now.kind (leaves_of measured.now sided.now.aliases.now) ∷ []) (shown columns.now)) }
{
    let left = left_side(alloc, writer, measured, sided.mode, sided.aliases)?;
    push_next(items, left, columns)?;
    Ok(())
}

fn push_gap(
    alloc: Global,
    writer: &Writer,
    items: &mut Vec<Item>,
    measured: &Measured<'_>,
    sided: &Sided<'_>,
    columns: &[&Component],
) -> Result<(), AllocError>
    ensures { OnOk result (AreNext items.old.items items.new.items (gap_as writer.now sided.now.mode measured.now.kind sided.now.rule.now (leaves_of measured.now sided.now.aliases.now) ∷ []) (shown columns.now)) }
{
    let gap = gap(
        alloc,
        writer,
        measured,
        sided.mode,
        sided.rule,
        sided.aliases,
    )?;
    push_next(items, gap, columns)?;
    Ok(())
}

// Adds the difference of the sides, and the errors as constants.
fn push_failed(
    alloc: Global,
    writer: &Writer,
    items: &mut Vec<Item>,
    measured: &Measured<'_>,
    sided: &Sided<'_>,
    columns: &[&Component],
) -> Result<(), AllocError>
    ensures { OnOk result (AreNext items.old.items items.new.items (gap_as writer.now sided.now.mode measured.now.kind sided.now.rule.now (leaves_of measured.now sided.now.aliases.now) ∷ errors_as sided.now.rule.now.error.code sided.now.level) (shown columns.now)) }
{
    push_gap(alloc, writer, items, measured, sided, columns)?;
    push_next(items, code(alloc, &sided.rule.error.code)?, columns)?;
    push_next(items, level(alloc, writer, sided.level)?, columns)?;
    Ok(())
}

// Adds the truth value, the difference of the sides, and the errors where the rule does not hold.
fn push_truth(
    alloc: Global,
    writer: &Writer,
    items: &mut Vec<Item>,
    measured: &Measured<'_>,
    sided: &Sided<'_>,
    columns: &[&Component],
) -> Result<(), AllocError>
    ensures { OnOk result (AreNext items.old.items items.new.items (truth_as writer.now sided.now.mode measured.now.kind sided.now.rule.now (leaves_of measured.now sided.now.aliases.now) ∷ gap_as writer.now sided.now.mode measured.now.kind sided.now.rule.now (leaves_of measured.now sided.now.aliases.now) ∷ errors_as_at (truth_as writer.now sided.now.mode measured.now.kind sided.now.rule.now (leaves_of measured.now sided.now.aliases.now)) sided.now.rule.now.error.code sided.now.level) (shown columns.now)) }
{
    let holds = truth(
        alloc,
        writer,
        measured,
        sided.mode,
        sided.rule,
        sided.aliases,
    )?;
    push_next(items, holds, columns)?;
    push_gap(alloc, writer, items, measured, sided, columns)?;
    push_next(items, code_at(alloc, writer, measured, sided)?, columns)?;
    push_next(items, level_at(alloc, writer, measured, sided)?, columns)?;
    Ok(())
}

// Adds the left side, and what stands behind it where only points are shown at which the rule fails.
fn push_invalid(
    alloc: Global,
    writer: &Writer,
    items: &mut Vec<Item>,
    measured: &Measured<'_>,
    sided: &Sided<'_>,
    columns: &[&Component],
) -> Result<(), AllocError>
    ensures { OnOk result (AreNext items.old.items items.new.items (left_as writer.now sided.now.mode measured.now.kind (leaves_of measured.now sided.now.aliases.now) ∷ (gap_as writer.now sided.now.mode measured.now.kind sided.now.rule.now (leaves_of measured.now sided.now.aliases.now) ∷ errors_as sided.now.rule.now.error.code sided.now.level)) (shown columns.now)) }
{
    push_left(alloc, writer, items, measured, sided, columns)?;
    push_failed(alloc, writer, items, measured, sided, columns)?;
    Ok(())
}

// Adds the left side, and what stands behind it where all points are shown.
fn push_measured(
    alloc: Global,
    writer: &Writer,
    items: &mut Vec<Item>,
    measured: &Measured<'_>,
    sided: &Sided<'_>,
    columns: &[&Component],
) -> Result<(), AllocError>
    ensures { OnOk result (AreNext items.old.items items.new.items (left_as writer.now sided.now.mode measured.now.kind (leaves_of measured.now sided.now.aliases.now) ∷ (truth_as writer.now sided.now.mode measured.now.kind sided.now.rule.now (leaves_of measured.now sided.now.aliases.now) ∷ gap_as writer.now sided.now.mode measured.now.kind sided.now.rule.now (leaves_of measured.now sided.now.aliases.now) ∷ errors_as_at (truth_as writer.now sided.now.mode measured.now.kind sided.now.rule.now (leaves_of measured.now sided.now.aliases.now)) sided.now.rule.now.error.code sided.now.level)) (shown columns.now)) }
{
    push_left(alloc, writer, items, measured, sided, columns)?;
    push_truth(alloc, writer, items, measured, sided, columns)?;
    Ok(())
}

// Adds what an output shows behind the identifiers.
fn push_parts(
    alloc: Global,
    writer: &Writer,
    items: &mut Vec<Item>,
    measured: &Measured<'_>,
    sided: &Sided<'_>,
    output: CheckOut,
    columns: &[&Component],
) -> Result<(), AllocError>
    requires { sided.now.level ≡ level_of writer.now sided.now.rule.now }
    ensures { OnOk result (AreNext items.old.items items.new.items (check_parts_as writer.now sided.now.mode measured.now.kind sided.now.rule.now (leaves_of measured.now sided.now.aliases.now) output) (shown columns.now)) }
{
    match output {
        CheckOut::Invalid => push_invalid(alloc, writer, items, measured, sided, columns),
        CheckOut::All => push_truth(alloc, writer, items, measured, sided, columns),
        CheckOut::AllMeasures => push_measured(alloc, writer, items, measured, sided, columns),
    }
}

// ---- the select of a rule

// The level of an error, which is written in digits.
fn level_written(profile: &Profile, rule: &HierRule) -> Option<i64>
    ensures { result ≡ level_of profile.now rule.now }
{
    let digits = rule.error.level.as_ref()?;
    integer_written(profile, digits)
}

// What the selects of a call show: the identifiers of the operand, and the columns of the result.
#[derive(Drop)]
struct Columns<'c, 'a, 'b> {
    identifiers: &'c [&'a Component],
    result: &'c [&'b Component],
}

// The points of a rule that an output shows, as the columns of the result.
fn checked_items(
    alloc: Global,
    writer: &Writer,
    tabled: &Tabled<'_>,
    sided: &Sided<'_>,
    first: &Txt,
    id: &Txt,
    output: CheckOut,
    columns: &Columns<'_, '_, '_>,
) -> Result<Vec<Item>, AllocError>
    requires { sided.now.level ≡ level_of writer.now sided.now.rule.now }
    ensures { IfOk result (λ v. map item_tree v.items ≡ items_as (keys_as tabled.now.measured.id.now first.now (left_item sided.now.rule.now) (shown columns.now.identifiers.now) ++ (text_as id.now ∷ check_parts_as writer.now sided.now.mode tabled.now.measured.kind sided.now.rule.now (leaves_of tabled.now.measured sided.now.aliases.now) output)) (shown columns.now.result.now)) }
{
    let measured = &tabled.measured;
    let identifiers = columns.identifiers;
    let result = columns.result;
    let mut items = Vec::with_capacity(alloc, result.len())?;
    let left = left_item(sided.rule);
    push_keys(&mut items, measured.id, first, left, identifiers, result)?;
    push_next(&mut items, text_as(id)?, result)?;
    push_parts(alloc, writer, &mut items, measured, sided, output, result)?;
    Ok(items)
}

// The select of the rule of a number.
fn checked_select(
    alloc: Global,
    writer: &Writer,
    profile: &Profile,
    tabled: &Tabled<'_>,
    rule: &HierRule,
    number: u64,
    mode: Mode,
    output: CheckOut,
    columns: &Columns<'_, '_, '_>,
) -> Result<Select, AllocError>
    requires { profile.now ≡ writer.now }
    ensures { IfOk result (λ x. select_tree x ≡ checked_select_as writer.now (ruled_of tabled.now.measured) mode (alias_of 0) tabled.now.keys (shown tabled.now.others.items) (tables_in tabled.now.tables) output (shown columns.now.identifiers.now) (shown columns.now.result.now) (rule_id number rule.now.name, rule.now)) }
{
    let names = items(alloc, rule)?;
    let level = level_written(profile, rule);
    let aliases = aliases(alloc, writer, &names)?;
    let sided = Sided {
        rule,
        mode,
        level,
        aliases: &aliases,
    };
    let first = writer.alias(alloc, 0)?;
    let id = rule_id(alloc, rule, number)?;
    let shown = checked_items(alloc, writer, tabled, &sided, &first, &id, output, columns)?;
    let condition = shown_where(alloc, writer, &tabled.measured, &sided, output)?;
    let tables = tables_of(alloc, &tabled.tables, &names)?;
    beside(
        alloc,
        &first,
        &tabled.others,
        &tabled.keys,
        sided.aliases,
        &tables,
        shown,
        condition,
    )
}

// A select for each rule. Rules are numbered from 1.
fn checked_selects(
    alloc: Global,
    writer: &Writer,
    profile: &Profile,
    tabled: &Tabled<'_>,
    rules: &[HierRule],
    mode: Mode,
    output: CheckOut,
    columns: &Columns<'_, '_, '_>,
) -> Result<Vec<Select>, AllocError>
    requires { profile.now ≡ writer.now }
    ensures { IfOk result (λ v. map select_tree v.items ≡ checked_selects_as writer.now (ruled_of tabled.now.measured) mode (alias_of 0) tabled.now.keys (shown tabled.now.others.items) (tables_in tabled.now.tables) output (shown columns.now.identifiers.now) (shown columns.now.result.now) 1 rules.now) }
{
    let mut selects = Vec::with_capacity(alloc, rules.len())?;
    let mut number = 0;
    for rule in rules {
        number += 1;
        selects.push(checked_select(
            alloc, writer, profile, tabled, rule, number, mode, output, columns,
        )?)?;
    }
    Ok(selects)
}

// A select for each rule, with the columns of a result.
fn checked_query(
    alloc: Global,
    writer: &Writer,
    profile: &Profile,
    tabled: &Tabled<'_>,
    rules: &[HierRule],
    mode: Mode,
    output: CheckOut,
    a: &Structure,
    s: &Structure,
) -> Result<Query, AllocError>
    requires { profile.now ≡ writer.now }
    ensures { IfOk result (λ q. query_tree q ≡ checked_selects_as writer.now (ruled_of tabled.now.measured) mode (alias_of 0) tabled.now.keys (shown tabled.now.others.items) (tables_in tabled.now.tables) output (identifiers_of a.now) (columns_of s.now) 1 rules.now) }
{
    let identifiers = a.identifiers(alloc)?;
    let result = s.columns(alloc)?;
    let columns = Columns {
        identifiers: &identifiers,
        result: &result,
    };
    let selects = checked_selects(
        alloc, writer, profile, tabled, rules, mode, output, &columns,
    )?;
    Ok(Query {
        selects: List::of(selects),
    })
}

// ---- the call

// The items of rules, each once.
fn items_once(alloc: Global, rules: &[HierRule]) -> Result<Vec<Txt>, AllocError>
    ensures { IfOk result (λ v. v.items ≡ checked_items rules.now) }
{
    let mut all = Vec::new(alloc);
    for rule in rules {
        push_items(&mut all, rule)?;
    }
    each_once(alloc, &all)
}

/// The tables on which the selects of rules stand: the combinations, and a table for each item. It fails only if memory runs
/// out.
pub(crate) fn tabled<'a>(
    alloc: Global,
    writer: &Writer,
    measured: Measured<'a>,
    items: &[Txt],
    a: &Operand<'a>,
    target: &Txt,
    draft: &mut Draft,
) -> Result<Tabled<'a>, AllocError>
    ensures measured { IfOk result (λ t. ruled_of t.measured ≡ ruled_of measured.entry) }
    ensures others { IfOk result (λ t. shown t.others.items ≡ other_identifiers (ruled_of measured.entry).id a.now.structure.now) }
    ensures keys { IfOk result (λ t. t.keys ≡ numbered target.now (draft.old.next + 1)) }
    ensures names { IfOk result (λ t. (item : ListOf ℕ) → tables_in t.tables item ≡ tables_by items.now (item_tables writer.now target.now (ruled_of measured.entry) a.now.structure.now (a.now.table.now ∷ []) items.now (draft.old.next + 2)).names item) }
    ensures tables { OnOk result (map statement_tree draft.new.statements.items ≡ map statement_tree draft.old.statements.items ++ map create_for (sided writer.now target.now (ruled_of measured.entry) a.now.structure.now items.now (a.now.table.now ∷ []) draft.old.next).tables) }
    ensures next { OnOk result (draft.new.next ≡ draft.old.next + 2 + length items.now) }
{
    let others = other_identifiers(alloc, a.structure, measured.id)?;
    let keys = combinations(alloc, writer, &others, a.table, target, draft)?;
    let tables = item_tables(
        alloc, writer, &measured, &others, items, a.table, target, draft,
    )?;
    Ok(Tabled {
        measured,
        others,
        keys,
        tables,
    })
}

// `check_hierarchy` by these rules, of an operand whose items are known.
fn ruled_query<'a>(
    alloc: Global,
    writer: &Writer,
    profile: &Profile,
    rules: &[HierRule],
    measured: Measured<'a>,
    mode: Mode,
    output: CheckOut,
    a: &Operand<'a>,
    s: &Structure,
    target: &Txt,
    draft: &mut Draft,
) -> Result<Query, AllocError>
    requires { profile.now ≡ writer.now }
    ensures query { IfOk result (λ q. query_tree q ≡ (check_hierarchy_made writer.now target.now (ruled_of measured.entry) mode output rules.now a.now.structure.now s.now (by_names (a.now.table.now ∷ []) draft.old.next)).query) }
    ensures tables { OnOk result (map statement_tree draft.new.statements.items ≡ map statement_tree draft.old.statements.items ++ map create_for (check_hierarchy_made writer.now target.now (ruled_of measured.entry) mode output rules.now a.now.structure.now s.now (by_names (a.now.table.now ∷ []) draft.old.next)).tables) }
    ensures next { OnOk result (draft.new.next ≡ (check_hierarchy_made writer.now target.now (ruled_of measured.entry) mode output rules.now a.now.structure.now s.now (by_names (a.now.table.now ∷ []) draft.old.next)).next) }
{
    let items = items_once(alloc, rules)?;
    let tabled = tabled(alloc, writer, measured, &items, a, target, draft)?;
    checked_query(
        alloc,
        writer,
        profile,
        &tabled,
        rules,
        mode,
        output,
        a.structure,
        s,
    )
}

/// The kind of the first component, or null where there is none.
pub(crate) fn first_kind(components: &[&Component]) -> Kind
    ensures { result ≡ first_kind (shown components.now) }
{
    match components {
        [] => Kind::Null,
        [component, ..] => component.kind,
    }
}

/// `check_hierarchy` of an operand, with the structure of the result. Its tables are the combinations of the other identifiers
/// and one for each item; its query has a select for each rule. It fails only if memory runs out.
pub fn check_hierarchy_query(
    alloc: Global,
    writer: &Writer,
    profile: &Profile,
    rules: &HierRules,
    mode: Mode,
    output: CheckOut,
    a: &Operand<'_>,
    s: &Structure,
    target: &Txt,
    draft: &mut Draft,
) -> Result<Query, AllocError>
    requires { profile.now ≡ writer.now }
    ensures query { IfOk result (λ q. query_tree q ≡ (check_hierarchy_made writer.now target.now (ruled_by rules.now a.now.structure.now) mode output rules.now.rules a.now.structure.now s.now (by_names (a.now.table.now ∷ []) draft.old.next)).query) }
    ensures tables { OnOk result (map statement_tree draft.new.statements.items ≡ map statement_tree draft.old.statements.items ++ map create_for (check_hierarchy_made writer.now target.now (ruled_by rules.now a.now.structure.now) mode output rules.now.rules a.now.structure.now s.now (by_names (a.now.table.now ∷ []) draft.old.next)).tables) }
    ensures next { OnOk result (draft.new.next ≡ (check_hierarchy_made writer.now target.now (ruled_by rules.now a.now.structure.now) mode output rules.now.rules a.now.structure.now s.now (by_names (a.now.table.now ∷ []) draft.old.next)).next) }
{
    let measures = a.structure.of_role(alloc, Role::Measure)?;
    let measure = name_of_first(alloc, &measures)?;
    let measured = Measured {
        id: &rules.variable,
        measure: &measure,
        kind: first_kind(&measures),
    };
    let rules = rules.rules.as_slice();
    ruled_query(
        alloc, writer, profile, rules, measured, mode, output, a, s, target, draft,
    )
}
