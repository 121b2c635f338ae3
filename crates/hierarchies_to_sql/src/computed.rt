// The tables of the points that `hierarchy` computes, and the query that has them.
//
// Each rule that computes an item becomes a table of the shape of an item's, in the order in which rules can be computed; so a rule
// does not care whether an item's table comes from the operand or from a rule. Where a computed value gives way to the operand's if
// it is null, a table behind that of the rule has both merged.
ghost use Rattle.std.specs.Prelude.{◌≡◌, ◌≤◌, ◌+◌, ◌++◌, ◌∷◌, [], ℕ, List as ListOf, filter, length, map, IfOk, OnOk};
ghost use Rattle.std.specs.List.{flat_map, list_any};
ghost use Rattle.std.specs.Map.{keys_of};
ghost use Rattle.vtl_text.specs.Texts.{same_text};
ghost use Rattle.vtl_syntax.specs.declared.word_groups.HierInput.TheVariants as input;
ghost use Rattle.vtl_syntax.specs.declared.word_groups.Mode.{Mode as ModeOf};
ghost use Rattle.vtl_tree.specs.Columns.{identifiers_of};
ghost use Rattle.vtl_tree.specs.Names.{is_among};
ghost use Rattle.vtl_tree.specs.Structure.{columns_of};
ghost use Rattle.vtl_tree.specs.RuleItems.{definitions, is_equation, left_item, right_items};
ghost use Rattle.vtl_tree.specs.Shown.{shown};
ghost use Rattle.vtl_tree.specs.declared.structure.Structure.{Structure as StructureOf};
ghost use Rattle.vtl_rulings.specs.HierarchyChecks.{ruled_by};
ghost use Rattle.sql_tree.specs.Trees as tree;
ghost use Rattle.sql_tree.specs.declared.parts.Constant.TheVariants as constant;
ghost use Rattle.sql_tree.specs.View.{expr_tree, item_tree, query_tree, select_tree, statement_tree};
ghost use Rattle.selects_to_sql.specs.Queries.{alias_of, items_as};
ghost use Rattle.selects_to_sql.specs.Tables.{by_names, create_for, numbered, table_of};
ghost use Rattle.joins_to_sql.specs.JoinItems.{column_from};
ghost use Rattle.vtl_rulings.specs.Ordered.{rules_at};
ghost use Rattle.hierarchies_to_sql.specs.ComputedTables.{computed_by, computed_made, first_name, given_items, is_given, no_points_query, run_tables, taken_table};
ghost use Rattle.hierarchies_to_sql.specs.ItemTables.{tables_by, with_table};
ghost use Rattle.hierarchies_to_sql.specs.RuleItems.{IsShaped, computed_as, leaf_of, leaves_of, merged_as, one_there_as, points_as, ruled_of, tables_in, true_as, value_of_two_as};
ghost use Rattle.hierarchies_to_sql.specs.SideItems.{right_as};

use crate::checks::{first_kind, tabled};
use crate::item_tables::{each_once, item_structure, put_first};
use crate::rule_selects::{
    Tabled, aliases, always, beside, left_item, push_from, push_keys, push_right_items,
    right_items, table_of, tables_of,
};
use crate::sides::{Measured, appears, column, missing, right_side};
use rules_to_sql::denied;
use selects_to_sql::{
    Draft, Operand, Writer, between, from_one, from_table, name_of_first, one_select, push_next,
    push_own,
};
use sql_tree::{Constant, Item, Query, Select, SqlExpr};
use std::alloc::{AllocError, Global};
use vtl_cell::ScalarOp;
use vtl_syntax::{Comparison, HierInput, HierRule, Mode};
use vtl_text::{ByName, List, Txt};
use vtl_tree::{Component, HierRules, Role, Structure};

/// What the tables of computed items stand in: the combinations, and the columns of such a table.
#[derive(Drop)]
struct Shape<'b, 'a> {
    measured: &'b Measured<'a>,
    others: &'b [&'a Component],
    keys: &'b Txt,
    columns: &'b [&'b Component],
}

// Whether the rule computes its item, and not only compares it.
fn is_equation(rule: &HierRule) -> bool
    ensures { result ≡ is_equation rule.now }
{
    match rule.comparison {
        Comparison::Equal => true,
        _ => false,
    }
}

// The rules that compute an item.
fn definitions<'a>(alloc: Global, rules: &'a [HierRule]) -> Result<Vec<&'a HierRule>, AllocError>
    ensures { IfOk result (λ v. shown v.items ≡ definitions rules.now) }
{
    let mut found = Vec::new(alloc);
    for rule in rules {
        if is_equation(rule) {
            found.push(rule)?;
        }
    }
    Ok(found)
}

// The rules of these places.
fn rules_at<'a>(
    alloc: Global,
    rules: &'a [HierRule],
    order: &[usize],
) -> Result<Vec<&'a HierRule>, AllocError>
    ensures { IfOk result (λ v. shown v.items ≡ rules_at rules.now order.now) }
{
    let mut found = Vec::new(alloc);
    for place in order {
        if let Some(rule) = rules.get(*place) {
            found.push(rule)?;
        }
    }
    Ok(found)
}

// ---- items that the operand gives

// The items that rules compute.
fn left_items(alloc: Global, rules: &[&HierRule]) -> Result<Vec<Txt>, AllocError>
    ensures { IfOk result (λ v. v.items ≡ map left_item (shown rules.now)) }
{
    let mut items = Vec::with_capacity(alloc, rules.len())?;
    for rule in rules {
        items.push(left_item(rule).share()?)?;
    }
    Ok(items)
}

// The items on the right of rules.
fn all_right(alloc: Global, rules: &[&HierRule]) -> Result<Vec<Txt>, AllocError>
    ensures { IfOk result (λ v. v.items ≡ flat_map right_items (shown rules.now)) }
{
    let mut all = Vec::new(alloc);
    for rule in rules {
        push_right_items(&mut all, rule)?;
    }
    Ok(all)
}

// These items as names alone.
#[tactic(auto, using(crate::proofs::KnownNames::names_new, crate::proofs::KnownNames::names_old, std::proofs::lemmas::Grind::common_steps))]
fn names_of(alloc: Global, items: &[Txt]) -> Result<ByName<()>, AllocError>
    ensures { IfOk result (λ named. (q : ListOf ℕ) → list_any (same_text q) (keys_of named) ≡ is_among q items.now) }
{
    let mut names = ByName::new(alloc);
    for item in items {
        if !names.has(item) {
            names.put(item.share()?, ())?;
        }
    }
    Ok(names)
}

// Those of these items that no rule computes.
fn undefined(alloc: Global, rules: &[&HierRule], items: &[Txt]) -> Result<Vec<Txt>, AllocError>
    ensures { IfOk result (λ v. v.items ≡ filter (is_given input.Rule (shown rules.now)) items.now) }
{
    let lefts = left_items(alloc, rules)?;
    let defined = names_of(alloc, &lefts)?;
    let mut left = Vec::new(alloc);
    for item in items {
        if !defined.has(item) {
            left.push(item.share()?)?;
        }
    }
    Ok(left)
}

// The items on the right that the operand gives, each once.
fn given_items(alloc: Global, input: HierInput, rules: &[&HierRule]) -> Result<Vec<Txt>, AllocError>
    ensures { IfOk result (λ v. v.items ≡ given_items input (shown rules.now)) }
{
    let all = all_right(alloc, rules)?;
    let items = each_once(alloc, &all)?;
    match input {
        HierInput::Dataset | HierInput::RulePriority => Ok(items),
        HierInput::Rule => undefined(alloc, rules, &items),
    }
}

// ---- the table of a rule

// What a rule computes at each combination, as the columns of an item's table.
fn computed_items(
    alloc: Global,
    writer: &Writer,
    shape: &Shape<'_, '_>,
    rule: &HierRule,
    mode: Mode,
    first: &Txt,
    aliases: &[Txt],
) -> Result<Vec<Item>, AllocError>
    ensures { IfOk result (λ v. map item_tree v.items ≡ items_as (map (column_from first.now) (shown shape.now.others.now) ++ (right_as writer.now mode shape.now.measured.now.kind rule.now (leaves_of shape.now.measured.now aliases.now) ∷ true_as ∷ [])) (shown shape.now.columns.now)) }
{
    let columns = shape.columns;
    let mut items = Vec::with_capacity(alloc, columns.len())?;
    push_from(&mut items, first, shape.others, columns)?;
    let value = right_side(alloc, writer, shape.measured, mode, rule, aliases)?;
    push_next(&mut items, value, columns)?;
    push_next(&mut items, always(), columns)?;
    Ok(items)
}

fn computed_query(
    alloc: Global,
    writer: &Writer,
    shape: &Shape<'_, '_>,
    tables: &ByName<Txt>,
    rule: &HierRule,
    mode: Mode,
) -> Result<Query, AllocError>
    ensures { IfOk result (λ q. query_tree q ≡ computed_as writer.now (ruled_of shape.now.measured.now) mode (alias_of 0) shape.now.keys.now (shown shape.now.others.now) (tables_in tables.now) (shown shape.now.columns.now) rule.now ∷ []) }
{
    let names = right_items(alloc, rule)?;
    let aliases = aliases(alloc, writer, &names)?;
    let found = tables_of(alloc, tables, &names)?;
    let first = writer.alias(alloc, 0)?;
    let items = computed_items(alloc, writer, shape, rule, mode, &first, &aliases)?;
    let condition = appears(alloc, writer, shape.measured, mode, &aliases)?;
    let select = beside(
        alloc,
        &first,
        shape.others,
        shape.keys,
        &aliases,
        &found,
        items,
        condition,
    )?;
    one_select(alloc, select)
}

// ---- a computed item and the operand's

// The computed value where it is not null, and otherwise the operand's.
fn value_of_two(
    alloc: Global,
    measured: &Measured<'_>,
    made: &Txt,
    given: &Txt,
) -> Result<SqlExpr, AllocError>
    ensures { IfOk result (λ e. expr_tree e ≡ value_of_two_as (leaf_of measured.now made.now) (leaf_of measured.now given.now)) }
{
    let mut operands = Vec::with_capacity(alloc, 2)?;
    operands.push(column(made, measured.measure)?)?;
    operands.push(column(given, measured.measure)?)?;
    Ok(SqlExpr::Call {
        function: ScalarOp::ValueOr,
        operands,
    })
}

// Both, as the columns of an item's table.
fn merged_items(
    alloc: Global,
    shape: &Shape<'_, '_>,
    first: &Txt,
    made: &Txt,
    given: &Txt,
) -> Result<Vec<Item>, AllocError>
    ensures { IfOk result (λ v. map item_tree v.items ≡ items_as (map (column_from first.now) (shown shape.now.others.now) ++ (value_of_two_as (leaf_of shape.now.measured.now made.now) (leaf_of shape.now.measured.now given.now) ∷ true_as ∷ [])) (shown shape.now.columns.now)) }
{
    let columns = shape.columns;
    let mut items = Vec::with_capacity(alloc, columns.len())?;
    push_from(&mut items, first, shape.others, columns)?;
    let value = value_of_two(alloc, shape.measured, made, given)?;
    push_next(&mut items, value, columns)?;
    push_next(&mut items, always(), columns)?;
    Ok(items)
}

// One of them is there.
fn one_there(
    alloc: Global,
    measured: &Measured<'_>,
    made: &Txt,
    given: &Txt,
) -> Result<SqlExpr, AllocError>
    ensures { IfOk result (λ e. expr_tree e ≡ one_there_as (leaf_of measured.now made.now) (leaf_of measured.now given.now)) }
{
    let value = column(made, measured.measure)?;
    let filled = denied(alloc, missing(alloc, value)?)?;
    let there = column(given, measured.id)?;
    between(alloc, filled, ScalarOp::Or, there)
}

fn two_texts(alloc: Global, first: Txt, second: Txt) -> Result<Vec<Txt>, AllocError>
    ensures { IfOk result (λ v. v.items ≡ first ∷ second ∷ []) }
{
    let mut texts = Vec::with_capacity(alloc, 2)?;
    texts.push(first)?;
    texts.push(second)?;
    Ok(texts)
}

fn merged_query(
    alloc: Global,
    writer: &Writer,
    shape: &Shape<'_, '_>,
    made: &Txt,
    given: &Txt,
) -> Result<Query, AllocError>
    ensures { IfOk result (λ q. query_tree q ≡ merged_as (ruled_of shape.now.measured.now) (alias_of 0) shape.now.keys.now (shown shape.now.others.now) (shown shape.now.columns.now) made.now given.now ∷ []) }
{
    let first = writer.alias(alloc, 0)?;
    let one = writer.alias(alloc, 1)?;
    let two = writer.alias(alloc, 2)?;
    let items = merged_items(alloc, shape, &first, &one, &two)?;
    let condition = one_there(alloc, shape.measured, &one, &two)?;
    let aliases = two_texts(alloc, one, two)?;
    let tables = two_texts(alloc, made.share()?, given.share()?)?;
    let select = beside(
        alloc,
        &first,
        shape.others,
        shape.keys,
        &aliases,
        &tables,
        items,
        Some(condition),
    )?;
    one_select(alloc, select)
}

// ---- rules one after the other

// Puts a table in place of the one of an item, or behind the others where there is none.
fn set_table(tables: &mut ByName<Txt>, item: &Txt, table: Txt) -> Result<(), AllocError>
    ensures { OnOk result ((q : ListOf ℕ) → tables_in tables.new q ≡ with_table item.now table (tables_in tables.old) q) }
{
    if tables.has(item) {
        let _before = tables.replace(item, table);
        return Ok(());
    }
    tables.put(item.share()?, table)?;
    Ok(())
}

// The operand's table of an item and that of a rule, in one table, whose name is given.
fn merge(
    alloc: Global,
    writer: &Writer,
    shape: &Shape<'_, '_>,
    tables: &ByName<Txt>,
    item: &Txt,
    made: &Txt,
    target: &Txt,
    draft: &mut Draft,
) -> Result<Txt, AllocError>
    ensures name { IfOk result (λ t. t ≡ numbered target.now draft.old.next) }
    ensures tables { OnOk result (map statement_tree draft.new.statements.items ≡ map statement_tree draft.old.statements.items ++ create_for (table_of (numbered target.now draft.old.next) (merged_as (ruled_of shape.now.measured.now) (alias_of 0) shape.now.keys.now (shown shape.now.others.now) (shown shape.now.columns.now) made.now (tables_in tables.now item.now) ∷ [])) ∷ []) }
    ensures next { OnOk result (draft.new.next ≡ draft.old.next + 1) }
{
    let own = table_of(alloc, tables, item)?;
    let query = merged_query(alloc, writer, shape, made, &own)?;
    draft.store(alloc, target, query)
}
// The table from which the rules behind take an item that was computed into this one.
fn taken(
    alloc: Global,
    writer: &Writer,
    input: HierInput,
    given: &ByName<()>,
    shape: &Shape<'_, '_>,
    tables: &ByName<Txt>,
    rule: &HierRule,
    made: &Txt,
    target: &Txt,
    draft: &mut Draft,
) -> Result<Txt, AllocError>
    ensures name { IfOk result (λ t. (m : ModeOf) (a : StructureOf) (items : ListOf (ListOf ℕ)) → IsShaped (ruled_of shape.now.measured.now) (shown shape.now.others.now) (shown shape.now.columns.now) given.now a items → t ≡ first_name (taken_table writer.now target.now (ruled_of shape.now.measured.now) m input a shape.now.keys.now items input (tables_in tables.now) rule.now made.now draft.old.next).names) }
    ensures tables { OnOk result ((m : ModeOf) (a : StructureOf) (items : ListOf (ListOf ℕ)) → IsShaped (ruled_of shape.now.measured.now) (shown shape.now.others.now) (shown shape.now.columns.now) given.now a items → map statement_tree draft.new.statements.items ≡ map statement_tree draft.old.statements.items ++ map create_for (taken_table writer.now target.now (ruled_of shape.now.measured.now) m input a shape.now.keys.now items input (tables_in tables.now) rule.now made.now draft.old.next).tables) }
    ensures next { OnOk result ((m : ModeOf) (a : StructureOf) (items : ListOf (ListOf ℕ)) → IsShaped (ruled_of shape.now.measured.now) (shown shape.now.others.now) (shown shape.now.columns.now) given.now a items → draft.new.next ≡ (taken_table writer.now target.now (ruled_of shape.now.measured.now) m input a shape.now.keys.now items input (tables_in tables.now) rule.now made.now draft.old.next).next) }
{
    let item = left_item(rule);
    match input {
        HierInput::Dataset => table_of(alloc, tables, item),
        HierInput::Rule => made.share(),
        HierInput::RulePriority => {
            if given.has(item) {
                merge(alloc, writer, shape, tables, item, made, target, draft)
            } else {
                made.share()
            }
        }
    }
}

// The tables of rules, each behind those of its items.
fn run_tables(
    alloc: Global,
    writer: &Writer,
    mode: Mode,
    input: HierInput,
    rules: &[&HierRule],
    given: &ByName<()>,
    shape: &Shape<'_, '_>,
    mut tables: ByName<Txt>,
    target: &Txt,
    draft: &mut Draft,
) -> Result<Vec<Txt>, AllocError>
    ensures count { IfOk result (λ v. length v.items ≡ length rules.now) }
    ensures names { IfOk result (λ v. (a : StructureOf) (items : ListOf (ListOf ℕ)) → IsShaped (ruled_of shape.now.measured.now) (shown shape.now.others.now) (shown shape.now.columns.now) given.now a items → v.items ≡ (run_tables writer.now target.now (ruled_of shape.now.measured.now) mode input a shape.now.keys.now items (tables_in tables) (shown rules.now) draft.old.next).names) }
    ensures tables { OnOk result ((a : StructureOf) (items : ListOf (ListOf ℕ)) → IsShaped (ruled_of shape.now.measured.now) (shown shape.now.others.now) (shown shape.now.columns.now) given.now a items → map statement_tree draft.new.statements.items ≡ map statement_tree draft.old.statements.items ++ map create_for (run_tables writer.now target.now (ruled_of shape.now.measured.now) mode input a shape.now.keys.now items (tables_in tables) (shown rules.now) draft.old.next).tables) }
    ensures next { OnOk result ((a : StructureOf) (items : ListOf (ListOf ℕ)) → IsShaped (ruled_of shape.now.measured.now) (shown shape.now.others.now) (shown shape.now.columns.now) given.now a items → draft.new.next ≡ (run_tables writer.now target.now (ruled_of shape.now.measured.now) mode input a shape.now.keys.now items (tables_in tables) (shown rules.now) draft.old.next).next) }
{
    let mut names = Vec::with_capacity(alloc, rules.len())?;
    for rule in rules {
        let query = computed_query(alloc, writer, shape, &tables, rule, mode)?;
        let made = draft.store(alloc, target, query)?;
        let taken = taken(
            alloc, writer, input, given, shape, &tables, rule, &made, target, draft,
        )?;
        set_table(&mut tables, left_item(rule), taken)?;
        names.push(made)?;
    }
    Ok(names)
}

// ---- the computed points

// The tables of items, by names: where an item comes again, its first one.
fn tables_by(alloc: Global, items: &[Txt], names: &[Txt]) -> Result<ByName<Txt>, AllocError>
    requires { length names.now ≡ length items.now }
    ensures { IfOk result (λ named. (q : ListOf ℕ) → tables_in named q ≡ tables_by items.now names.now q) }
{
    let mut named = ByName::new(alloc);
    for i in 0..items.len() {
        put_first(&mut named, &items[i], names[i].share()?)?;
    }
    Ok(named)
}

// The points of an item, from a table of its values.
fn points_select(
    alloc: Global,
    writer: &Writer,
    measured: &Measured<'_>,
    identifiers: &[&Component],
    columns: &[&Component],
    rule: &HierRule,
    computed: &ByName<Txt>,
) -> Result<Select, AllocError>
    ensures { IfOk result (λ x. select_tree x ≡ points_as (ruled_of measured.now) (shown identifiers.now) (shown columns.now) (tables_in computed.now) rule.now) }
{
    let item = left_item(rule);
    let table = table_of(alloc, computed, item)?;
    let source = writer.source(&table)?;
    let mut items = Vec::with_capacity(alloc, columns.len())?;
    push_keys(
        &mut items,
        measured.id,
        &source.alias,
        item,
        identifiers,
        columns,
    )?;
    push_next(&mut items, writer.column(measured.measure)?, columns)?;
    from_one(alloc, writer, items, None, &table)
}

// Rule after rule.
fn all_points(
    alloc: Global,
    writer: &Writer,
    measured: &Measured<'_>,
    rules: &[&HierRule],
    computed: &ByName<Txt>,
    identifiers: &[&Component],
    columns: &[&Component],
) -> Result<Vec<Select>, AllocError>
    ensures { IfOk result (λ v. map select_tree v.items ≡ map (points_as (ruled_of measured.now) (shown identifiers.now) (shown columns.now) (tables_in computed.now)) (shown rules.now)) }
{
    let mut selects = Vec::with_capacity(alloc, rules.len())?;
    for rule in rules {
        selects.push(points_select(
            alloc,
            writer,
            measured,
            identifiers,
            columns,
            rule,
            computed,
        )?)?;
    }
    Ok(selects)
}

// Rule after rule, where the rules that were run have these tables.
fn all_of_points(
    alloc: Global,
    writer: &Writer,
    measured: &Measured<'_>,
    rules: &[&HierRule],
    order: &[&HierRule],
    names: &[Txt],
    a: &Structure,
    s: &Structure,
) -> Result<Query, AllocError>
    requires { length names.now ≡ length order.now }
    ensures { IfOk result (λ q. query_tree q ≡ map (points_as (ruled_of measured.now) (identifiers_of a.now) (columns_of s.now) (tables_by (map left_item (shown order.now)) names.now)) (shown rules.now)) }
{
    let items = left_items(alloc, order)?;
    let computed = tables_by(alloc, &items, names)?;
    let identifiers = a.identifiers(alloc)?;
    let result = s.columns(alloc)?;
    let selects = all_points(
        alloc,
        writer,
        measured,
        rules,
        &computed,
        &identifiers,
        &result,
    )?;
    Ok(Query {
        selects: List::of(selects),
    })
}

// A condition that never holds.
fn never() -> SqlExpr
    ensures { expr_tree result ≡ tree.constant constant.False }
{
    SqlExpr::Constant(Constant::False)
}

// Where no rule computes an item there is no point.
fn no_points(
    alloc: Global,
    writer: &Writer,
    a: &Operand<'_>,
    s: &Structure,
) -> Result<Query, AllocError>
    ensures { IfOk result (λ q. query_tree q ≡ no_points_query writer.now a.now.structure.now s.now a.now.table.now) }
{
    let columns = s.columns(alloc)?;
    let mut items = Vec::with_capacity(alloc, columns.len())?;
    push_own(writer, &mut items, &columns, &columns)?;
    from_table(alloc, writer, items, Some(never()), a.table)
}

// The points of these rules, one at least, over the tables that they need; the rules are run in this order.
fn computed_points<'a>(
    alloc: Global,
    writer: &Writer,
    rules: &[&HierRule],
    order: &[&HierRule],
    mode: Mode,
    input: HierInput,
    measured: Measured<'a>,
    a: &Operand<'a>,
    s: &Structure,
    target: &Txt,
    draft: &mut Draft,
) -> Result<Query, AllocError>
    requires { 1 ≤ length rules.now }
    ensures query { IfOk result (λ q. query_tree q ≡ (computed_by writer.now target.now (ruled_of measured.entry) mode input (shown rules.now) (shown order.now) a.now.structure.now s.now (by_names (a.now.table.now ∷ []) draft.old.next)).query) }
    ensures tables { OnOk result (map statement_tree draft.new.statements.items ≡ map statement_tree draft.old.statements.items ++ map create_for (computed_by writer.now target.now (ruled_of measured.entry) mode input (shown rules.now) (shown order.now) a.now.structure.now s.now (by_names (a.now.table.now ∷ []) draft.old.next)).tables) }
    ensures next { OnOk result (draft.new.next ≡ (computed_by writer.now target.now (ruled_of measured.entry) mode input (shown rules.now) (shown order.now) a.now.structure.now s.now (by_names (a.now.table.now ∷ []) draft.old.next)).next) }
{
    let given = given_items(alloc, input, rules)?;
    let tabled = tabled(alloc, writer, measured, &given, a, target, draft)?;
    let Tabled {
        measured,
        others,
        keys,
        tables,
    } = tabled;
    let structure = item_structure(alloc, &measured, &others)?;
    let columns = structure.columns(alloc)?;
    let shape = Shape {
        measured: &measured,
        others: &others,
        keys: &keys,
        columns: &columns,
    };
    let known = names_of(alloc, &given)?;
    let names = run_tables(
        alloc, writer, mode, input, order, &known, &shape, tables, target, draft,
    )?;
    all_of_points(
        alloc,
        writer,
        &measured,
        rules,
        order,
        &names,
        a.structure,
        s,
    )
}

/// The points that `hierarchy` computes of an operand, with the structure of the result; the rules are run in the order of
/// these places. Its tables are the combinations of the other identifiers, one for each item that the operand gives, and one
/// or two for each rule that computes an item. It fails only if memory runs out.
pub fn computed_points_query(
    alloc: Global,
    writer: &Writer,
    rules: &HierRules,
    order: &[usize],
    mode: Mode,
    input: HierInput,
    a: &Operand<'_>,
    s: &Structure,
    target: &Txt,
    draft: &mut Draft,
) -> Result<Query, AllocError>
    ensures query { IfOk result (λ q. query_tree q ≡ (computed_made writer.now target.now (ruled_by rules.now a.now.structure.now) mode input rules.now.rules order.now a.now.structure.now s.now (by_names (a.now.table.now ∷ []) draft.old.next)).query) }
    ensures tables { OnOk result (map statement_tree draft.new.statements.items ≡ map statement_tree draft.old.statements.items ++ map create_for (computed_made writer.now target.now (ruled_by rules.now a.now.structure.now) mode input rules.now.rules order.now a.now.structure.now s.now (by_names (a.now.table.now ∷ []) draft.old.next)).tables) }
    ensures next { OnOk result (draft.new.next ≡ (computed_made writer.now target.now (ruled_by rules.now a.now.structure.now) mode input rules.now.rules order.now a.now.structure.now s.now (by_names (a.now.table.now ∷ []) draft.old.next)).next) }
{
    let all = rules.rules.as_slice();
    let computing = definitions(alloc, all)?;
    if computing.is_empty() {
        return no_points(alloc, writer, a, s);
    }
    let ordered = rules_at(alloc, all, order)?;
    let measures = a.structure.of_role(alloc, Role::Measure)?;
    let measure = name_of_first(alloc, &measures)?;
    let measured = Measured {
        id: &rules.variable,
        measure: &measure,
        kind: first_kind(&measures),
    };
    computed_points(
        alloc, writer, &computing, &ordered, mode, input, measured, a, s, target, draft,
    )
}
