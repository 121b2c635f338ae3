// The totals at the points of an operand: null where the operand is null.
ghost use Rattle.std.specs.Prelude.{◌≡◌, ◌++◌, ◌∷◌, [], map, IfOk, OnOk};
ghost use Rattle.vtl_tree.specs.Columns.{identifiers_of, measures_of};
ghost use Rattle.vtl_tree.specs.Shown.{shown};
ghost use Rattle.sql_tree.specs.Trees.{on};
ghost use Rattle.sql_tree.specs.View.{expr_tree, item_tree, join_tree, query_tree, select_tree};
ghost use Rattle.sql_tree.specs.declared.word_groups.JoinKind.TheVariants as joining;
ghost use Rattle.selects_to_sql.specs.Items.{all_of, for_each_two};
ghost use Rattle.selects_to_sql.specs.PairItems.{agreement_on, lead_column, lead_item};
ghost use Rattle.selects_to_sql.specs.Queries.{second_alias, source_as};
ghost use Rattle.times_to_sql.specs.Flows.{stock_query};
ghost use Rattle.times_to_sql.specs.StockItems.{null_or_total, stock_item, stock_select};

use selects_to_sql::{Operand, Writer, agreement, from_two, one_select, push_item};
use sql_tree::{Branch, Constant, Item, Join, JoinKind, Query, Select, SqlExpr};
use std::alloc::{AllocError, Global};
use vtl_text::Txt;
use vtl_tree::{Component, Role, Structure, place_of};

// A column of the operand, which has these columns.
fn lead_column(writer: &Writer, columns: &[&Component], name: &Txt) -> Result<SqlExpr, AllocError>
    ensures { IfOk result (λ e. expr_tree e ≡ lead_column (shown columns.now) name.now) }
{
    writer.column_at(place_of(columns, name), columns.len(), name)
}

// Null where a measure is null, else its total.
fn null_or_total(
    alloc: Global,
    writer: &Writer,
    columns: &[&Component],
    name: &Txt,
) -> Result<SqlExpr, AllocError>
    ensures { IfOk result (λ e. expr_tree e ≡ null_or_total (shown columns.now) name.now) }
{
    let condition = SqlExpr::IsNull {
        operand: Box::new(alloc, lead_column(writer, columns, name)?)?,
        negated: false,
    };
    let mut branches = Vec::with_capacity(alloc, 1)?;
    branches.push(Branch {
        condition,
        value: SqlExpr::Constant(Constant::Null),
    })?;
    let other = Box::new(alloc, writer.other_column(name)?)?;
    Ok(SqlExpr::Case { branches, other })
}

// Adds columns of the operand.
fn push_lead(
    writer: &Writer,
    items: &mut Vec<Item>,
    columns: &[&Component],
    names: &[&Component],
) -> Result<(), AllocError>
    ensures { OnOk result (map item_tree items.new.items ≡ map item_tree items.old.items ++ map (lead_item (shown columns.now)) (shown names.now)) }
{
    for column in names {
        let name = &column.name;
        push_item(items, lead_column(writer, columns, name)?, name)?;
    }
    Ok(())
}

// Adds the total of a measure, which becomes another one.
fn push_stock(
    alloc: Global,
    writer: &Writer,
    items: &mut Vec<Item>,
    columns: &[&Component],
    measure: &Component,
    made: &Component,
) -> Result<(), AllocError>
    ensures { OnOk result (map item_tree items.new.items ≡ map item_tree items.old.items ++ stock_item (shown columns.now) measure.now made.now ∷ []) }
{
    let value = null_or_total(alloc, writer, columns, &measure.name)?;
    push_item(items, value, &made.name)
}

// Adds the total of each measure.
#[tactic(auto, using(selects_to_sql::proofs::Written::all_two))]
fn push_stocks(
    alloc: Global,
    writer: &Writer,
    items: &mut Vec<Item>,
    columns: &[&Component],
    measures: &[&Component],
    made: &[&Component],
) -> Result<(), AllocError>
    ensures { OnOk result (map item_tree items.new.items ≡ map item_tree items.old.items ++ for_each_two (stock_item (shown columns.now)) (shown measures.now) (shown made.now)) }
{
    for i in 0..measures.len().min(made.len()) {
        push_stock(alloc, writer, items, columns, measures[i], made[i])?;
    }
    Ok(())
}

// The identifiers of the result, and the total of each measure.
fn stock_items(
    alloc: Global,
    writer: &Writer,
    columns: &[&Component],
    a: &Structure,
    s: &Structure,
) -> Result<Vec<Item>, AllocError>
    ensures { IfOk result (λ v. map item_tree v.items ≡ map (lead_item (shown columns.now)) (identifiers_of s.now) ++ for_each_two (stock_item (shown columns.now)) (measures_of a.now) (measures_of s.now)) }
{
    let ours = a.of_role(alloc, Role::Measure)?;
    let made = s.of_role(alloc, Role::Measure)?;
    let mut items = Vec::new(alloc);
    push_lead(writer, &mut items, columns, &s.identifiers(alloc)?)?;
    push_stocks(alloc, writer, &mut items, columns, &ours, &made)?;
    Ok(items)
}

// The table of the totals, whose points agree with those of the operand, which has these columns.
fn joined(
    alloc: Global,
    writer: &Writer,
    columns: &[&Component],
    s: &Structure,
    parts: &Txt,
) -> Result<Join, AllocError>
    ensures { IfOk result (λ j. join_tree j ≡ on joining.Inner (source_as second_alias parts.now) (all_of (map (agreement_on (shown columns.now)) (identifiers_of s.now)))) }
{
    let identifiers = s.identifiers(alloc)?;
    Ok(Join::On {
        kind: JoinKind::Inner,
        source: writer.other_source(parts)?,
        condition: agreement(alloc, writer, columns, &identifiers)?,
    })
}

fn stock_select(
    alloc: Global,
    writer: &Writer,
    a: &Operand<'_>,
    s: &Structure,
    parts: &Txt,
) -> Result<Select, AllocError>
    ensures { IfOk result (λ x. select_tree x ≡ stock_select a.now.structure.now s.now a.now.table.now parts.now) }
{
    let columns = a.structure.columns(alloc)?;
    let items = stock_items(alloc, writer, &columns, a.structure, s)?;
    let join = joined(alloc, writer, &columns, s, parts)?;
    from_two(alloc, writer, items, a.table, join, None)
}

/// The totals at the points of an operand: null where the operand is null. It fails only if memory runs out.
pub(crate) fn stock_query(
    alloc: Global,
    writer: &Writer,
    a: &Operand<'_>,
    s: &Structure,
    parts: &Txt,
) -> Result<Query, AllocError>
    ensures { IfOk result (λ q. query_tree q ≡ stock_query writer.now a.now.structure.now s.now a.now.table.now parts.now) }
{
    let select = stock_select(alloc, writer, a, s, parts)?;
    one_select(alloc, select)
}
