// The query of `pivot`: a group for each tuple of the other identifiers.
//
// `pivot` is one grouped select with a MAX of a CASE for each code, since a group has one value at most for each.
// Where no identifier is left, a select of groups gives one row even over no rows; HAVING MIN ( TRUE ), which is null
// there, keeps it out.
ghost use Rattle.std.specs.Prelude.{◌≡◌, map, IfOk, OnOk};
ghost use Rattle.std.specs.Option.{option_map};
ghost use Rattle.vtl_tree.specs.Shown.{shown};
ghost use Rattle.vtl_meaning.specs.Turned.{codes_of, other_identifiers};
ghost use Rattle.sql_tree.specs.View.{expr_tree, item_tree, query_tree, select_tree};
ghost use Rattle.selects_to_sql.specs.NamedItems.{AreNext};
ghost use Rattle.selects_to_sql.specs.Queries.{items_as};
ghost use Rattle.groups_to_sql.specs.Turned.{coded_item, kept_groups, pivot_query, where_coded};
ghost use Rattle.groups_to_sql.specs.TurnedItems.{coded_values, grouped_by};

use crate::unpivot_queries::text_constant;
use selects_to_sql::{
    Writer, aggregate, between, group_of, grouped, has_rows, one_select, push_next, push_own, when,
};
use sql_tree::{Constant, Item, Query, Select, SqlExpr};
use std::alloc::{AllocError, Global};
use std::slice;
use vtl_cell::{AggKind, ScalarOp};
use vtl_text::Txt;
use vtl_tree::{Choice, Component, Structure, component_of, is_chosen};

// The identifiers but one.
fn other_identifiers<'a>(
    alloc: Global,
    structure: &'a Structure,
    id: &Txt,
) -> Result<Vec<&'a Component>, AllocError>
    ensures { IfOk result (λ v. shown v.items ≡ other_identifiers id.now structure.now) }
{
    let mut others = Vec::new(alloc);
    for component in structure.components.as_slice() {
        if is_chosen(Choice::Except, slice::from_ref(id), component) {
            others.push(component)?;
        }
    }
    Ok(others)
}

// The codes of an identifier, in the order in which they are declared.
fn codes_of<'a>(structure: &'a Structure, id: &Txt) -> &'a [Txt]
    ensures { result.now ≡ codes_of id.now structure.now }
{
    let Some(component) = component_of(id, structure.components.as_slice()) else {
        return &[];
    };
    match &component.codes {
        Some(codes) => codes.as_slice(),
        None => &[],
    }
}

// A measure where an identifier has a code, and null elsewhere.
fn where_coded(
    alloc: Global,
    writer: &Writer,
    id: &Txt,
    measure: &Txt,
    code: &Txt,
) -> Result<SqlExpr, AllocError>
    ensures { IfOk result (λ e. expr_tree e ≡ where_coded id.now measure.now code.now) }
{
    let condition = between(
        alloc,
        writer.column(id)?,
        ScalarOp::Equal,
        text_constant(code)?,
    )?;
    when(alloc, condition, writer.column(measure)?, Constant::Null)
}

// Adds the value of a measure at each code of an identifier as the next columns of a result.
fn push_coded(
    alloc: Global,
    writer: &Writer,
    items: &mut Vec<Item>,
    id: &Txt,
    measure: &Txt,
    codes: &[Txt],
    columns: &[&Component],
) -> Result<(), AllocError>
    ensures { OnOk result (AreNext items.old.items items.new.items (map (coded_item id.now measure.now) codes.now) (shown columns.now)) }
{
    for code in codes {
        let value = where_coded(alloc, writer, id, measure, code)?;
        push_next(items, aggregate(alloc, AggKind::Max, value)?, columns)?;
    }
    Ok(())
}

// The other identifiers and the value of a measure at each code, as the columns of the result.
fn coded_values(
    alloc: Global,
    writer: &Writer,
    others: &[&Component],
    id: &Txt,
    measure: &Txt,
    codes: &[Txt],
    columns: &[&Component],
) -> Result<Vec<Item>, AllocError>
    ensures { IfOk result (λ v. map item_tree v.items ≡ items_as (coded_values (shown others.now) id.now measure.now codes.now) (shown columns.now)) }
{
    let mut items = Vec::with_capacity(alloc, columns.len())?;
    push_own(writer, &mut items, others, columns)?;
    push_coded(alloc, writer, &mut items, id, measure, codes, columns)?;
    Ok(items)
}

// The condition of the groups: without identifiers the only group must have a row.
fn kept_groups(alloc: Global, identifiers: &[&Component]) -> Result<Option<SqlExpr>, AllocError>
    ensures { IfOk result (λ o. option_map expr_tree o ≡ kept_groups (shown identifiers.now)) }
{
    match identifiers {
        [] => Ok(Some(has_rows(alloc)?)),
        [_, ..] => Ok(None),
    }
}

// A group for each tuple of identifiers.
fn grouped_by(
    alloc: Global,
    writer: &Writer,
    identifiers: &[&Component],
    items: Vec<Item>,
    table: &Txt,
) -> Result<Select, AllocError>
    ensures { IfOk result (λ x. select_tree x ≡ grouped_by (shown identifiers.now) (map item_tree items.items) table.now) }
{
    let group = group_of(alloc, writer, identifiers)?;
    let having = kept_groups(alloc, identifiers)?;
    grouped(alloc, writer, items, table, group, having)
}

/// `pivot`: a row for each tuple of the other identifiers, with a column for each code of an identifier, which has the
/// measure's value there. It fails only if memory runs out.
pub fn pivot_query(
    alloc: Global,
    writer: &Writer,
    id: &Txt,
    measure: &Txt,
    a: &Structure,
    s: &Structure,
    table: &Txt,
) -> Result<Query, AllocError>
    ensures { IfOk result (λ q. query_tree q ≡ pivot_query writer.now id.now measure.now a.now s.now table.now) }
{
    let others = other_identifiers(alloc, a, id)?;
    let columns = s.columns(alloc)?;
    let codes = codes_of(a, id);
    let items = coded_values(alloc, writer, &others, id, measure, codes, &columns)?;
    one_select(alloc, grouped_by(alloc, writer, &others, items, table)?)
}
