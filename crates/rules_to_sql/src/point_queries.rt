// The query of `check_datapoint`: a select for each rule.
//
// Where only points are shown at which a rule does not hold, its truth value is the condition of its select, and errors are
// constants. Elsewhere every point is shown, and the truth value stands in items alone: as a column, and as the test of each
// error that is written.
ghost use Rattle.std.specs.Prelude.{◌≡◌, ◌++◌, ◌∷◌, [], map, pos, IfOk, OnOk};
ghost use Rattle.std.specs.Option.{option_map};
ghost use Rattle.vtl_tree.specs.NodeView.{point_rule_tree};
ghost use Rattle.vtl_tree.specs.Shown.{shown};
ghost use Rattle.vtl_tree.specs.Checks.{output_parts, rule_id};
ghost use Rattle.sql_tree.specs.View.{expr_tree, item_tree, query_tree, select_tree};
ghost use Rattle.selects_to_sql.specs.NamedItems.{AreNext, own_columns};
ghost use Rattle.selects_to_sql.specs.Queries.{items_as};
ghost use Rattle.rules_to_sql.specs.Items.{denied, errors_as, errors_as_at, level_as, rule_errors_as, ruled_as, ruled_select_as, ruled_selects_as, ruled_where_as, text_as, truth_as, written_as_where};
ghost use Rattle.rules_to_sql.specs.PointQueries.{datapoint_query};

use crate::conditions::{denied, truth};
use crate::errors::{code, level, level_as, no_code, no_level, text_as};
use selects_to_sql::{Operand, Writer, from_one, push_next, push_own, when};
use sql_tree::{Constant, Item, Query, Select, SqlExpr};
use std::alloc::{AllocError, Global};
use vtl_syntax::CheckOut;
use vtl_text::{List, Txt};
use vtl_tree::{Component, DatapointRule, Role, Structure};

// The text of a rule's error where the rule does not hold.
fn code_at(alloc: Global, writer: &Writer, rule: &DatapointRule) -> Result<SqlExpr, AllocError>
    ensures { IfOk result (λ e. expr_tree e ≡ written_as_where text_as [] (denied (truth_as writer.now (point_rule_tree rule.now))) rule.now.errorcode) }
{
    let Some(text) = &rule.errorcode else {
        return no_code(alloc);
    };
    let test = denied(alloc, truth(alloc, writer, rule)?)?;
    when(alloc, test, text_as(text)?, Constant::Null)
}

// The level of a rule's error where the rule does not hold.
fn level_at(alloc: Global, writer: &Writer, rule: &DatapointRule) -> Result<SqlExpr, AllocError>
    ensures { IfOk result (λ e. expr_tree e ≡ written_as_where level_as (pos 0) (denied (truth_as writer.now (point_rule_tree rule.now))) rule.now.errorlevel) }
{
    let Some(number) = rule.errorlevel else {
        return no_level(alloc, writer);
    };
    let test = denied(alloc, truth(alloc, writer, rule)?)?;
    when(
        alloc,
        test,
        level_as(alloc, writer, number)?,
        Constant::Null,
    )
}

// Adds a rule's errors as constants.
fn push_errors(
    alloc: Global,
    writer: &Writer,
    items: &mut Vec<Item>,
    rule: &DatapointRule,
    columns: &[&Component],
) -> Result<(), AllocError>
    ensures { OnOk result (AreNext items.old.items items.new.items (errors_as rule.now.errorcode rule.now.errorlevel) (shown columns.now)) }
{
    push_next(items, code(alloc, &rule.errorcode)?, columns)?;
    push_next(items, level(alloc, writer, rule.errorlevel)?, columns)?;
    Ok(())
}

// Adds a rule's truth value, and its errors where it does not hold.
fn push_truth(
    alloc: Global,
    writer: &Writer,
    items: &mut Vec<Item>,
    rule: &DatapointRule,
    columns: &[&Component],
) -> Result<(), AllocError>
    ensures { OnOk result (AreNext items.old.items items.new.items (truth_as writer.now (point_rule_tree rule.now) ∷ errors_as_at (truth_as writer.now (point_rule_tree rule.now)) rule.now.errorcode rule.now.errorlevel) (shown columns.now)) }
{
    push_next(items, truth(alloc, writer, rule)?, columns)?;
    push_next(items, code_at(alloc, writer, rule)?, columns)?;
    push_next(items, level_at(alloc, writer, rule)?, columns)?;
    Ok(())
}

// Adds the measures, and a rule's errors as constants.
fn push_invalid(
    alloc: Global,
    writer: &Writer,
    items: &mut Vec<Item>,
    rule: &DatapointRule,
    measures: &[&Component],
    columns: &[&Component],
) -> Result<(), AllocError>
    ensures { OnOk result (AreNext items.old.items items.new.items (own_columns (shown measures.now) ++ errors_as rule.now.errorcode rule.now.errorlevel) (shown columns.now)) }
{
    push_own(writer, items, measures, columns)?;
    push_errors(alloc, writer, items, rule, columns)?;
    Ok(())
}

// Adds the measures, and a rule's truth value with its errors.
fn push_measured(
    alloc: Global,
    writer: &Writer,
    items: &mut Vec<Item>,
    rule: &DatapointRule,
    measures: &[&Component],
    columns: &[&Component],
) -> Result<(), AllocError>
    ensures { OnOk result (AreNext items.old.items items.new.items (own_columns (shown measures.now) ++ (truth_as writer.now (point_rule_tree rule.now) ∷ errors_as_at (truth_as writer.now (point_rule_tree rule.now)) rule.now.errorcode rule.now.errorlevel)) (shown columns.now)) }
{
    push_own(writer, items, measures, columns)?;
    push_truth(alloc, writer, items, rule, columns)?;
    Ok(())
}

// Adds what an output shows of a rule behind the identifiers.
fn push_parts(
    alloc: Global,
    writer: &Writer,
    items: &mut Vec<Item>,
    rule: &DatapointRule,
    output: CheckOut,
    measures: &[&Component],
    columns: &[&Component],
) -> Result<(), AllocError>
    ensures { OnOk result (AreNext items.old.items items.new.items (output_parts output (own_columns (shown measures.now)) (truth_as writer.now (point_rule_tree rule.now)) (rule_errors_as output (truth_as writer.now (point_rule_tree rule.now)) rule.now.errorcode rule.now.errorlevel)) (shown columns.now)) }
{
    match output {
        CheckOut::Invalid => push_invalid(alloc, writer, items, rule, measures, columns),
        CheckOut::All => push_truth(alloc, writer, items, rule, columns),
        CheckOut::AllMeasures => push_measured(alloc, writer, items, rule, measures, columns),
    }
}

// The name of a rule, or its number where it has none.
fn rule_id(alloc: Global, rule: &DatapointRule, number: u64) -> Result<Txt, AllocError>
    ensures { IfOk result (λ t. t ≡ rule_id number rule.now.name) }
{
    match &rule.name {
        Some(name) => name.share(),
        None => {
            let text = format!(in alloc; "{}", number)?;
            Txt::new(alloc, &text)
        }
    }
}

// The condition of the points that an output shows.
fn shown_where(
    alloc: Global,
    writer: &Writer,
    rule: &DatapointRule,
    output: CheckOut,
) -> Result<Option<SqlExpr>, AllocError>
    ensures { IfOk result (λ o. option_map expr_tree o ≡ ruled_where_as writer.now output (point_rule_tree rule.now)) }
{
    match output {
        CheckOut::Invalid => {
            let condition = truth(alloc, writer, rule)?;
            Ok(Some(denied(alloc, condition)?))
        }
        CheckOut::All | CheckOut::AllMeasures => Ok(None),
    }
}

// The points of a rule that an output shows, as the columns of the result.
fn ruled_items(
    alloc: Global,
    writer: &Writer,
    rule: &DatapointRule,
    id: &Txt,
    output: CheckOut,
    identifiers: &[&Component],
    measures: &[&Component],
    columns: &[&Component],
) -> Result<Vec<Item>, AllocError>
    ensures { IfOk result (λ v. map item_tree v.items ≡ items_as (ruled_as writer.now output (shown identifiers.now) (shown measures.now) (id.now, point_rule_tree rule.now)) (shown columns.now)) }
{
    let mut items = Vec::with_capacity(alloc, columns.len())?;
    push_own(writer, &mut items, identifiers, columns)?;
    push_next(&mut items, text_as(id)?, columns)?;
    push_parts(alloc, writer, &mut items, rule, output, measures, columns)?;
    Ok(items)
}

// The select of the rule of a number.
fn ruled_select(
    alloc: Global,
    writer: &Writer,
    rule: &DatapointRule,
    number: u64,
    output: CheckOut,
    identifiers: &[&Component],
    measures: &[&Component],
    columns: &[&Component],
    table: &Txt,
) -> Result<Select, AllocError>
    ensures { IfOk result (λ x. select_tree x ≡ ruled_select_as writer.now output (shown identifiers.now) (shown measures.now) (shown columns.now) table.now (rule_id number rule.now.name, point_rule_tree rule.now)) }
{
    let id = rule_id(alloc, rule, number)?;
    let items = ruled_items(
        alloc,
        writer,
        rule,
        &id,
        output,
        identifiers,
        measures,
        columns,
    )?;
    let condition = shown_where(alloc, writer, rule, output)?;
    from_one(alloc, writer, items, condition, table)
}

// A select for each rule. Rules are numbered from 1.
fn ruled_selects(
    alloc: Global,
    writer: &Writer,
    rules: &[DatapointRule],
    output: CheckOut,
    identifiers: &[&Component],
    measures: &[&Component],
    columns: &[&Component],
    table: &Txt,
) -> Result<Vec<Select>, AllocError>
    ensures { IfOk result (λ v. map select_tree v.items ≡ ruled_selects_as writer.now output (shown identifiers.now) (shown measures.now) (shown columns.now) table.now 1 (map point_rule_tree rules.now)) }
{
    let mut selects = Vec::with_capacity(alloc, rules.len())?;
    let mut number = 0;
    for rule in rules {
        number += 1;
        selects.push(ruled_select(
            alloc,
            writer,
            rule,
            number,
            output,
            identifiers,
            measures,
            columns,
            table,
        )?)?;
    }
    Ok(selects)
}

/// `check_datapoint` of an operand, with the structure of the result: a select for each rule. It fails only if memory runs
/// out.
pub fn datapoint_query(
    alloc: Global,
    writer: &Writer,
    rules: &[DatapointRule],
    output: CheckOut,
    a: &Operand<'_>,
    s: &Structure,
) -> Result<Query, AllocError>
    ensures { IfOk result (λ q. query_tree q ≡ datapoint_query writer.now (map point_rule_tree rules.now) output a.now.structure.now s.now a.now.table.now) }
{
    let identifiers = a.structure.identifiers(alloc)?;
    let measures = a.structure.of_role(alloc, Role::Measure)?;
    let columns = s.columns(alloc)?;
    let selects = ruled_selects(
        alloc,
        writer,
        rules,
        output,
        &identifiers,
        &measures,
        &columns,
        a.table,
    )?;
    Ok(Query {
        selects: List::of(selects),
    })
}
