// The query of analytic operators: a window for each call.
ghost use Rattle.std.specs.Prelude.{◌≡◌, map, IfOk};
ghost use Rattle.vtl_tree.specs.Structure.{columns_of};
ghost use Rattle.vtl_tree.specs.NodeView.{analytic_tree, value_tree as made_tree};
ghost use Rattle.sql_tree.specs.Trees.{column, expression, window};
ghost use Rattle.sql_tree.specs.View.{item_tree, query_tree, value_tree};
ghost use Rattle.expressions_to_sql.specs.ToSql.{column_of};
ghost use Rattle.selects_to_sql.specs.Queries.{first_alias};
ghost use Rattle.groups_to_sql.specs.Windowed.{analytic_item, analytic_query, made_to_sql, window_to_sql};
ghost use Rattle.groups_to_sql.specs.WindowItems.{analytic_items};

use crate::window_calls::argument;
use crate::windows::window;
use selects_to_sql::{Writer, from_table, target_named};
use sql_tree::{Item, ItemValue, Query};
use std::alloc::{AllocError, Global};
use vtl_text::Txt;
use vtl_tree::{AnalyticCall, AnalyticSpec, CalcValue, Component, Role, Structure, is_same_role};

// The window of a call.
fn call_window(
    alloc: Global,
    writer: &Writer,
    a: &Structure,
    call: &AnalyticCall,
) -> Result<ItemValue, AllocError>
    ensures { IfOk result (λ v. value_tree v ≡ window (window_to_sql writer.now a.now call.now)) }
{
    let column = argument(alloc, writer, &call.component)?;
    let window = window(alloc, writer, a, &call.op, column, &call.window)?;
    Ok(ItemValue::Window(window))
}

// What a target makes.
fn target_value(
    alloc: Global,
    writer: &Writer,
    a: &Structure,
    value: &CalcValue,
) -> Result<ItemValue, AllocError>
    ensures { IfOk result (λ v. value_tree v ≡ made_to_sql writer.now a.now (made_tree value.now)) }
{
    match value {
        CalcValue::Scalar(e) => Ok(ItemValue::Expr(writer.expression(alloc, e)?)),
        CalcValue::Analytic(call) => call_window(alloc, writer, a, call),
    }
}

// A column as it was.
fn own_value(writer: &Writer, name: &Txt) -> Result<ItemValue, AllocError>
    ensures { IfOk result (λ v. value_tree v ≡ expression (column (column_of first_alias name.now))) }
{
    Ok(ItemValue::Expr(writer.column(name)?))
}

// What makes a column of the result, or the column as it was.
fn analytic_value(
    alloc: Global,
    writer: &Writer,
    spec: &AnalyticSpec,
    a: &Structure,
    column: &Component,
) -> Result<ItemValue, AllocError>
    ensures { IfOk result (λ v. value_tree v ≡ (analytic_item writer.now (analytic_tree spec.now) a.now column.now).value) }
{
    let name = &column.name;
    match spec {
        AnalyticSpec::Measures { op, window: seen } => {
            if is_same_role(column.role, Role::Measure) {
                let measure = writer.first(name)?;
                let window = window(alloc, writer, a, op, measure, seen)?;
                Ok(ItemValue::Window(window))
            } else {
                own_value(writer, name)
            }
        }
        AnalyticSpec::Calc(targets) => match target_named(targets.as_slice(), name) {
            Some(target) => target_value(alloc, writer, a, &target.value),
            None => own_value(writer, name),
        },
    }
}

/// The columns of the result. It fails only if memory runs out.
pub fn analytic_items(
    alloc: Global,
    writer: &Writer,
    spec: &AnalyticSpec,
    a: &Structure,
    s: &Structure,
) -> Result<Vec<Item>, AllocError>
    ensures { IfOk result (λ v. map item_tree v.items ≡ analytic_items writer.now (analytic_tree spec.now) a.now (columns_of s.now)) }
{
    let columns = s.columns(alloc)?;
    let mut items = Vec::with_capacity(alloc, columns.len())?;
    for column in columns.as_slice() {
        let value = analytic_value(alloc, writer, spec, a, column)?;
        let name = column.name.share()?;
        items.push(Item { value, name })?;
    }
    Ok(items)
}

/// The values that an analytic operator makes at each row of a table. It fails only if memory runs out.
pub fn analytic_query(
    alloc: Global,
    writer: &Writer,
    spec: &AnalyticSpec,
    a: &Structure,
    s: &Structure,
    table: &Txt,
) -> Result<Query, AllocError>
    ensures { IfOk result (λ q. query_tree q ≡ analytic_query writer.now (analytic_tree spec.now) a.now s.now table.now) }
{
    let items = analytic_items(alloc, writer, spec, a, s)?;
    from_table(alloc, writer, items, None, table)
}
