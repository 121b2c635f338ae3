// The queries of `check`: a select from the operand's table.
//
// The imbalance is a second source behind a left join on equalities of all its identifiers, so that a row meets one row at
// most, found by its key, and a point that the imbalance lacks has a null there.
ghost use Rattle.std.specs.Prelude.{◌≡◌, ◌++◌, [], map, length, pos, IfOk, OnOk};
ghost use Rattle.std.specs.Option.{option_map};
ghost use Rattle.vtl_tree.specs.ClauseShapes.{first_kind};
ghost use Rattle.vtl_tree.specs.Columns.{identifiers_of, measures_of};
ghost use Rattle.vtl_tree.specs.Shown.{shown};
ghost use Rattle.vtl_tree.specs.Structure.{columns_of, key_width};
ghost use Rattle.sql_tree.specs.Trees.{column as column_tree};
ghost use Rattle.sql_tree.specs.View.{expr_tree, item_tree, join_tree, query_tree};
ghost use Rattle.selects_to_sql.specs.NamedItems.{AreNext, own_columns};
ghost use Rattle.selects_to_sql.specs.Queries.{items_as, name_of_first, of_two};
ghost use Rattle.rules_to_sql.specs.CheckQueries.{check_query, imbalance_query};
ghost use Rattle.rules_to_sql.specs.Items.{checked_parts_as, checked_where_as, columns_as, columns_of_two, denied, imbalance_as, left_join_as, level_as, null_like, number_as, text_as, written_as_where, zero_as};

use crate::conditions::{choice, denied};
use crate::errors::{level_as, no_code, no_level, null_like, text_as};
use selects_to_sql::{
    Operand, Writer, agreement, from_one, from_two, name_of_first, one_select, push_next, push_own,
    when,
};
use sql_tree::{Column, Constant, Item, Join, JoinKind, Query, SqlExpr};
use std::alloc::{AllocError, Global};
use vtl_cell::{Cell, Kind};
use vtl_decimal::Dec;
use vtl_syntax::BasicOut;
use vtl_text::Txt;
use vtl_tree::{CheckSpec, Component, Role, Structure, place_of};

// ---- columns

// A column as an expression.
fn column(column: &Column) -> Result<SqlExpr, AllocError>
    ensures { IfOk result (λ e. expr_tree e ≡ column_tree column.now) }
{
    Ok(SqlExpr::Column(Column {
        source: column.source.share()?,
        name: column.name.share()?,
    }))
}

// The column at a place of two sources, of which the first has so many columns.
fn column_of_two(
    writer: &Writer,
    place: usize,
    width: usize,
    name: &Txt,
) -> Result<Column, AllocError>
    ensures { IfOk result (λ c. c ≡ of_two width place name.now) }
{
    if place < width {
        writer.first(name)
    } else {
        writer.second(name)
    }
}

// The name of the first measure.
fn measure(alloc: Global, a: &Structure) -> Result<Txt, AllocError>
    ensures { IfOk result (λ t. t ≡ name_of_first (measures_of a.now)) }
{
    name_of_first(alloc, &a.of_role(alloc, Role::Measure)?)
}

// ---- the imbalance

// The number 0.
fn zero() -> Dec
    ensures { result ≡ pos 0 }
{
    match Dec::from_k(0) {
        Some(zero) => zero,
        None => unreachable!(),
    }
}

fn zero_as(alloc: Global, writer: &Writer) -> Result<SqlExpr, AllocError>
    ensures { IfOk result (λ e. expr_tree e ≡ zero_as writer.now) }
{
    writer.constant(alloc, &Cell::Num(zero()))
}

// No number.
fn no_imbalance(alloc: Global, writer: &Writer) -> Result<SqlExpr, AllocError>
    ensures { IfOk result (λ e. expr_tree e ≡ null_like (zero_as writer.now)) }
{
    let zero = zero_as(alloc, writer)?;
    null_like(alloc, zero)
}

// A value of a kind as a number.
fn number_as(
    alloc: Global,
    writer: &Writer,
    kind: Kind,
    value: SqlExpr,
) -> Result<SqlExpr, AllocError>
    ensures { IfOk result (λ e. expr_tree e ≡ number_as writer.now kind (expr_tree value)) }
{
    match kind {
        Kind::Num => Ok(value),
        Kind::Null | Kind::Bool | Kind::Int | Kind::Text | Kind::Day | Kind::Period => {
            let always = SqlExpr::Constant(Constant::True);
            choice(alloc, always, value, zero_as(alloc, writer)?)
        }
    }
}

// The kind of the first component, or null where there is none.
fn first_kind(components: &[&Component]) -> Kind
    ensures { result ≡ first_kind (shown components.now) }
{
    match components {
        [] => Kind::Null,
        [component, ..] => component.kind,
    }
}

// The measure of the second source as a number.
fn imbalance(alloc: Global, writer: &Writer, b: &Structure) -> Result<SqlExpr, AllocError>
    ensures { IfOk result (λ e. expr_tree e ≡ imbalance_as writer.now b.now) }
{
    let measures = b.of_role(alloc, Role::Measure)?;
    let name = name_of_first(alloc, &measures)?;
    number_as(
        alloc,
        writer,
        first_kind(&measures),
        writer.other_column(&name)?,
    )
}

// ---- items

// Adds the columns of these identifiers of the first of two sources, which has these columns.
fn push_leading(
    writer: &Writer,
    items: &mut Vec<Item>,
    own: &[&Component],
    identifiers: &[&Component],
    columns: &[&Component],
) -> Result<(), AllocError>
    ensures { OnOk result (AreNext items.old.items items.new.items (columns_as (columns_of_two (shown own.now) (shown identifiers.now))) (shown columns.now)) }
{
    for identifier in identifiers {
        let name = &identifier.name;
        let value = writer.column_at(place_of(own, name), own.len(), name)?;
        push_next(items, value, columns)?;
    }
    Ok(())
}

// The text of an error where a truth value is false.
fn code_at(alloc: Global, truth: &Column, code: &Option<Txt>) -> Result<SqlExpr, AllocError>
    ensures { IfOk result (λ e. expr_tree e ≡ written_as_where text_as [] (denied (column_tree truth.now)) code.now) }
{
    let Some(text) = code else {
        return no_code(alloc);
    };
    let test = denied(alloc, column(truth)?)?;
    when(alloc, test, text_as(text)?, Constant::Null)
}

// The level of an error where a truth value is false.
fn level_at(
    alloc: Global,
    writer: &Writer,
    truth: &Column,
    level: Option<i64>,
) -> Result<SqlExpr, AllocError>
    ensures { IfOk result (λ e. expr_tree e ≡ written_as_where level_as (pos 0) (denied (column_tree truth.now)) level) }
{
    let Some(number) = level else {
        return no_level(alloc, writer);
    };
    let test = denied(alloc, column(truth)?)?;
    when(
        alloc,
        test,
        level_as(alloc, writer, number)?,
        Constant::Null,
    )
}

// Adds what stands behind the identifiers.
fn push_checked(
    alloc: Global,
    writer: &Writer,
    items: &mut Vec<Item>,
    spec: &CheckSpec,
    truth: &Column,
    imbalance: SqlExpr,
    columns: &[&Component],
) -> Result<(), AllocError>
    ensures { OnOk result (AreNext items.old.items items.new.items (checked_parts_as truth.now (expr_tree imbalance) spec.now.errorcode spec.now.errorlevel) (shown columns.now)) }
{
    push_next(items, column(truth)?, columns)?;
    push_next(items, imbalance, columns)?;
    push_next(items, code_at(alloc, truth, &spec.errorcode)?, columns)?;
    let level = level_at(alloc, writer, truth, spec.errorlevel)?;
    push_next(items, level, columns)?;
    Ok(())
}

// The condition of the points that an output shows.
fn shown_where(
    alloc: Global,
    output: BasicOut,
    truth: &Column,
) -> Result<Option<SqlExpr>, AllocError>
    ensures { IfOk result (λ o. option_map expr_tree o ≡ checked_where_as output truth.now) }
{
    match output {
        BasicOut::Invalid => Ok(Some(denied(alloc, column(truth)?)?)),
        BasicOut::All => Ok(None),
    }
}

// ---- queries

// The items of an operand without an imbalance.
fn plain_items(
    alloc: Global,
    writer: &Writer,
    spec: &CheckSpec,
    a: &Structure,
    truth: &Column,
    s: &Structure,
) -> Result<Vec<Item>, AllocError>
    ensures { IfOk result (λ v. map item_tree v.items ≡ items_as (own_columns (identifiers_of a.now) ++ checked_parts_as truth.now (null_like (zero_as writer.now)) spec.now.errorcode spec.now.errorlevel) (columns_of s.now)) }
{
    let identifiers = a.identifiers(alloc)?;
    let columns = s.columns(alloc)?;
    let mut items = Vec::with_capacity(alloc, columns.len())?;
    push_own(writer, &mut items, &identifiers, &columns)?;
    let imbalance = no_imbalance(alloc, writer)?;
    push_checked(alloc, writer, &mut items, spec, truth, imbalance, &columns)?;
    Ok(items)
}

/// `check` of an operand without an imbalance, with the structure of the result. It fails only if memory runs out.
pub fn check_query(
    alloc: Global,
    writer: &Writer,
    spec: &CheckSpec,
    a: &Operand<'_>,
    s: &Structure,
) -> Result<Query, AllocError>
    ensures { IfOk result (λ q. query_tree q ≡ check_query writer.now spec.now a.now.structure.now s.now a.now.table.now) }
{
    let name = measure(alloc, a.structure)?;
    let truth = writer.first(&name)?;
    let items = plain_items(alloc, writer, spec, a.structure, &truth, s)?;
    let condition = shown_where(alloc, spec.output, &truth)?;
    let select = from_one(alloc, writer, items, condition, a.table)?;
    one_select(alloc, select)
}

// The truth value of the first of two sources: its measure, which stands behind the identifiers.
fn leading_truth(alloc: Global, writer: &Writer, a: &Structure) -> Result<Column, AllocError>
    ensures { IfOk result (λ c. c ≡ of_two (length (columns_of a.now)) (key_width a.now) (name_of_first (measures_of a.now))) }
{
    let name = measure(alloc, a)?;
    let identifiers = a.identifiers(alloc)?;
    let columns = a.columns(alloc)?;
    column_of_two(writer, identifiers.len(), columns.len(), &name)
}

// The items of an operand with an imbalance, where the operand has these columns.
fn imbalance_items(
    alloc: Global,
    writer: &Writer,
    spec: &CheckSpec,
    own: &[&Component],
    a: &Structure,
    b: &Structure,
    truth: &Column,
    s: &Structure,
) -> Result<Vec<Item>, AllocError>
    ensures { IfOk result (λ v. map item_tree v.items ≡ items_as (columns_as (columns_of_two (shown own.now) (identifiers_of a.now)) ++ checked_parts_as truth.now (imbalance_as writer.now b.now) spec.now.errorcode spec.now.errorlevel) (columns_of s.now)) }
{
    let identifiers = a.identifiers(alloc)?;
    let columns = s.columns(alloc)?;
    let mut items = Vec::with_capacity(alloc, columns.len())?;
    push_leading(writer, &mut items, own, &identifiers, &columns)?;
    let imbalance = imbalance(alloc, writer, b)?;
    push_checked(alloc, writer, &mut items, spec, truth, imbalance, &columns)?;
    Ok(items)
}

// A further source behind a left join, whose identifiers agree with their namesakes in the first, which has these columns.
fn left_join(
    alloc: Global,
    writer: &Writer,
    own: &[&Component],
    other: &Operand<'_>,
) -> Result<Join, AllocError>
    ensures { IfOk result (λ j. join_tree j ≡ left_join_as (shown own.now) (identifiers_of other.now.structure.now) other.now.table.now) }
{
    let identifiers = other.structure.identifiers(alloc)?;
    let source = writer.other_source(other.table)?;
    Ok(Join::On {
        kind: JoinKind::Left,
        source,
        condition: agreement(alloc, writer, own, &identifiers)?,
    })
}

/// `check` of an operand with an imbalance, with the structure of the result. It fails only if memory runs out.
pub fn imbalance_query(
    alloc: Global,
    writer: &Writer,
    spec: &CheckSpec,
    a: &Operand<'_>,
    b: &Operand<'_>,
    s: &Structure,
) -> Result<Query, AllocError>
    ensures { IfOk result (λ q. query_tree q ≡ imbalance_query writer.now spec.now a.now.structure.now b.now.structure.now s.now a.now.table.now b.now.table.now) }
{
    let own = a.structure.columns(alloc)?;
    let truth = leading_truth(alloc, writer, a.structure)?;
    let items = imbalance_items(
        alloc,
        writer,
        spec,
        &own,
        a.structure,
        b.structure,
        &truth,
        s,
    )?;
    let join = left_join(alloc, writer, &own, b)?;
    let condition = shown_where(alloc, spec.output, &truth)?;
    let select = from_two(alloc, writer, items, a.table, join, condition)?;
    one_select(alloc, select)
}
