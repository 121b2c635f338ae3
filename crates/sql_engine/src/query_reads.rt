// The tables that queries read, with the place of the statement.
ghost use Rattle.std.specs.Option.{option_map};
ghost use Rattle.std.specs.Prelude.{OnOk, map};
ghost use Rattle.std.specs.List.{AllByRecursion};
ghost use Rattle.sql_tree.specs.View.{expr_tree, item_tree, join_tree, query_tree, select_tree};
ghost use Rattle.sql_engine.specs.LastReads.{IsNoted};
ghost use Rattle.sql_engine.specs.Reads.{EachOfItem, EachOfJoin, EachOfMaybe, EachOfQuery, EachOfSelect};

use crate::expression_reads::{LastReads, note, note_expression};
use sql_tree::{Item, ItemValue, Join, Query, Select, SqlExpr};
use std::alloc::AllocError;

fn note_maybe(
    condition: &Option<SqlExpr>,
    last: &mut LastReads,
    place: usize,
) -> Result<(), AllocError>
    ensures { OnOk result (IsNoted place last.old last.new (λ P. EachOfMaybe P (option_map expr_tree condition.now))) }
{
    match condition {
        Some(condition) => note_expression(condition, last, place),
        None => Ok(()),
    }
}

fn note_item(item: &Item, last: &mut LastReads, place: usize) -> Result<(), AllocError>
    ensures { OnOk result (IsNoted place last.old last.new (λ P. EachOfItem P (item_tree item.now))) }
{
    match &item.value {
        ItemValue::Expr(expression) => note_expression(expression, last, place),
        ItemValue::Window(_) => Ok(()),
    }
}

fn note_items(items: &[Item], last: &mut LastReads, place: usize) -> Result<(), AllocError>
    ensures { OnOk result (IsNoted place last.old last.new (λ P. AllByRecursion (EachOfItem P) (map item_tree items.now))) }
{
    for item in items {
        note_item(item, last, place)?;
    }
    Ok(())
}

fn note_join(join: &Join, last: &mut LastReads, place: usize) -> Result<(), AllocError>
    ensures { OnOk result (IsNoted place last.old last.new (λ P. EachOfJoin P (join_tree join.now))) }
{
    match join {
        Join::On {
            source,
            condition,
            ..
        } => {
            note(&source.table, last, place)?;
            note_expression(condition, last, place)
        }
        Join::Cross(source) => note(&source.table, last, place),
    }
}

fn note_joins(joins: &[Join], last: &mut LastReads, place: usize) -> Result<(), AllocError>
    ensures { OnOk result (IsNoted place last.old last.new (λ P. AllByRecursion (EachOfJoin P) (map join_tree joins.now))) }
{
    for join in joins {
        note_join(join, last, place)?;
    }
    Ok(())
}

fn note_select(select: &Select, last: &mut LastReads, place: usize) -> Result<(), AllocError>
    ensures { OnOk result (IsNoted place last.old last.new (λ P. EachOfSelect P (select_tree select.now))) }
{
    note(&select.from.table, last, place)?;
    note_joins(select.joins.as_slice(), last, place)?;
    note_maybe(&select.condition, last, place)?;
    note_maybe(&select.having, last, place)?;
    note_items(select.items.as_slice(), last, place)
}

/// Notes that a statement reads the tables that a query names in FROM and in EXISTS. It fails only if memory runs out.
pub fn note_query(query: &Query, last: &mut LastReads, place: usize) -> Result<(), AllocError>
    ensures { OnOk result (IsNoted place last.old last.new (λ P. EachOfQuery P (query_tree query.now))) }
{
    for select in query.selects.as_slice() {
        note_select(select, last, place)?;
    }
    Ok(())
}
