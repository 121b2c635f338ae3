// The query of an aggregate: a group for each tuple of the grouping identifiers.
//
// Without grouping identifiers a condition of `having` stands inside a CASE on MIN ( TRUE ): behind an AND it would
// be evaluated at the group of no rows, where VTL evaluates nothing, and `1 / count()` has a fault there. With
// grouping identifiers no group is without rows, and the condition stands as it is.
ghost use Rattle.std.specs.Prelude.{◌≡◌, [], map, IfOk, Some};
ghost use Rattle.std.specs.Option.{option_copied, option_map};
ghost use Rattle.vtl_tree.specs.Structure.{columns_of};
ghost use Rattle.vtl_tree.specs.View.{comp_exp_of};
ghost use Rattle.vtl_tree.specs.declared.structure.Structure.{Structure as StructureOf};
ghost use Rattle.vtl_tree.specs.NodeView.{agg_tree};
ghost use Rattle.vtl_meaning.specs.Aggregates.{measure_call, target_named};
ghost use Rattle.expressions_to_sql.specs.ToSql.{aggregate_to_sql};
ghost use Rattle.sql_tree.specs.View.{expr_tree, item_tree, query_tree};
ghost use Rattle.groups_to_sql.specs.Grouped.{aggregate_query, kept_where, where_rows};
ghost use Rattle.groups_to_sql.specs.GroupedItems.{aggregated_items, aggregated_value, call_value, made_value};
ghost use Rattle.selects_to_sql.specs.Queries.{condition_for, of_one};

use selects_to_sql::{
    Writer, aggregate, group_columns, grouped, has_rows, one_select, push_item, when,
};
use sql_tree::{Constant, Item, Query, SqlExpr};
use std::alloc::{AllocError, Global};
use vtl_cell::AggKind;
use vtl_text::Txt;
use vtl_tree::{AggItems, AggSpec, AggTarget, CompExpr, Component, Role, Structure, is_same_role};

// An aggregate of a component, or how many rows there are.
fn of_component(
    alloc: Global,
    writer: &Writer,
    kind: AggKind,
    component: &Option<Txt>,
) -> Result<SqlExpr, AllocError>
    ensures { IfOk result (λ e. expr_tree e ≡ aggregate_to_sql of_one kind component.now) }
{
    match component {
        None => Ok(SqlExpr::CountAll),
        Some(name) => aggregate(alloc, kind, writer.column(name)?),
    }
}

// An aggregate of a measure; `count` is how many rows there are.
fn of_measure(
    alloc: Global,
    writer: &Writer,
    kind: AggKind,
    name: &Txt,
) -> Result<SqlExpr, AllocError>
    ensures { IfOk result (λ e. expr_tree e ≡ call_value (measure_call kind name.now)) }
{
    match kind {
        AggKind::Count => Ok(SqlExpr::CountAll),
        _ => aggregate(alloc, kind, writer.column(name)?),
    }
}

// The target of a name.
fn target_named<'a>(targets: &'a [AggTarget], name: &Txt) -> Option<&'a AggTarget>
    ensures { option_copied result ≡ target_named targets.now name.now }
{
    for target in targets {
        if target.target == *name {
            return Some(target);
        }
    }
    None
}

// What makes the column of a name.
fn made_value(
    alloc: Global,
    writer: &Writer,
    made: &AggItems,
    name: &Txt,
) -> Result<SqlExpr, AllocError>
    ensures { IfOk result (λ e. expr_tree e ≡ made_value made.now name.now) }
{
    match made {
        AggItems::Measures(kind) => of_measure(alloc, writer, *kind, name),
        AggItems::Targets(targets) => match target_named(targets.as_slice(), name) {
            Some(target) => of_component(alloc, writer, target.call.kind, &target.call.component),
            None => Ok(SqlExpr::Constant(Constant::Null)),
        },
    }
}

// A grouping identifier, or what makes another column.
fn aggregated_value(
    alloc: Global,
    writer: &Writer,
    made: &AggItems,
    column: &Component,
) -> Result<SqlExpr, AllocError>
    ensures { IfOk result (λ e. expr_tree e ≡ aggregated_value made.now column.now) }
{
    if is_same_role(column.role, Role::Identifier) {
        writer.column(&column.name)
    } else {
        made_value(alloc, writer, made, &column.name)
    }
}

// The columns of the result.
fn aggregated_items(
    alloc: Global,
    writer: &Writer,
    made: &AggItems,
    s: &Structure,
) -> Result<Vec<Item>, AllocError>
    ensures { IfOk result (λ v. map item_tree v.items ≡ aggregated_items made.now (columns_of s.now)) }
{
    let columns = s.columns(alloc)?;
    let mut items = Vec::with_capacity(alloc, columns.len())?;
    for column in columns.as_slice() {
        let value = aggregated_value(alloc, writer, made, column)?;
        push_item(&mut items, value, &column.name)?;
    }
    Ok(items)
}

// The condition of groups, where one is written.
fn condition(
    alloc: Global,
    writer: &Writer,
    having: &Option<CompExpr>,
) -> Result<Option<SqlExpr>, AllocError>
    ensures { IfOk result (λ o. option_map expr_tree o ≡ condition_for writer.now of_one (option_map comp_exp_of having.now)) }
{
    match having {
        Some(e) => Ok(Some(writer.expression(alloc, e)?)),
        None => Ok(None),
    }
}

// A condition that is evaluated only where a group has a row.
fn where_rows(alloc: Global, condition: SqlExpr) -> Result<SqlExpr, AllocError>
    ensures { IfOk result (λ e. expr_tree e ≡ where_rows (expr_tree condition)) }
{
    when(alloc, has_rows(alloc)?, condition, Constant::False)
}

// The condition of the only group that there is without grouping identifiers: it must have a row.
fn whole_condition(
    alloc: Global,
    writer: &Writer,
    having: &Option<CompExpr>,
) -> Result<SqlExpr, AllocError>
    ensures { IfOk result (λ e. Some (expr_tree e) ≡ kept_where writer.now [] (option_map comp_exp_of having.now)) }
{
    match having {
        Some(e) => where_rows(alloc, writer.expression(alloc, e)?),
        None => has_rows(alloc),
    }
}

// The condition of the groups that are kept.
fn kept_where(
    alloc: Global,
    writer: &Writer,
    names: &[Txt],
    having: &Option<CompExpr>,
) -> Result<Option<SqlExpr>, AllocError>
    ensures { IfOk result (λ o. option_map expr_tree o ≡ kept_where writer.now names.now (option_map comp_exp_of having.now)) }
{
    match names {
        [] => Ok(Some(whole_condition(alloc, writer, having)?)),
        [_, ..] => condition(alloc, writer, having),
    }
}

/// The aggregates of each group of the rows of a table that is kept. It fails only if memory runs out.
pub fn aggregate_query(
    alloc: Global,
    writer: &Writer,
    spec: &AggSpec,
    s: &Structure,
    table: &Txt,
) -> Result<Query, AllocError>
    ensures { IfOk result (λ q. (a : StructureOf) → query_tree q ≡ aggregate_query writer.now (agg_tree spec.now) a s.now table.now) }
{
    let names = spec.grouping.as_slice();
    let items = aggregated_items(alloc, writer, &spec.items, s)?;
    let group = group_columns(alloc, writer, names)?;
    let having = kept_where(alloc, writer, names, &spec.having)?;
    one_select(alloc, grouped(alloc, writer, items, table, group, having)?)
}
