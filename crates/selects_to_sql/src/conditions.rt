// Conditions of selects.
//
// Conditions that hold together are joined two by two, so that what holds for many is not deep.
ghost use Rattle.std.specs.Prelude.{◌≡◌, ◌≤◌, length, map, IfOk};
ghost use Rattle.sql_tree.specs.Trees.{binary, branch, case_when, constant, no_branches};
ghost use Rattle.sql_tree.specs.View.{expr_tree};
ghost use Rattle.vtl_tree.specs.Shown.{shown};
ghost use Rattle.vtl_tree.specs.Structure.{columns_of, key_width};
ghost use Rattle.vtl_tree.specs.Columns.{measures_of};
ghost use Rattle.selects_to_sql.specs.Items.{all_of, both_of, value_equality};
ghost use Rattle.vtl_lists.specs.Balanced.{first_or, paired};
ghost use Rattle.selects_to_sql.specs.PairItems.{agreement_on, chosen, not_chosen};
ghost use Rattle.selects_to_sql.specs.Queries.{name_of_first};

use crate::writer::Writer;
use sql_tree::{Branch, Constant, SqlExpr};
use std::alloc::{AllocError, Global};
use vtl_cell::ScalarOp;
use vtl_text::Txt;
use vtl_tree::{Component, Role, Structure, SubItem, place_of};

/// An operator between two operands. It fails only if memory runs out.
pub fn between(
    alloc: Global,
    left: SqlExpr,
    op: ScalarOp,
    right: SqlExpr,
) -> Result<SqlExpr, AllocError>
    ensures { IfOk result (λ e. expr_tree e ≡ binary (expr_tree left) op (expr_tree right)) }
{
    Ok(SqlExpr::Binary {
        left: Box::new(alloc, left)?,
        op,
        right: Box::new(alloc, right)?,
    })
}

// Joins neighbours.
fn paired(alloc: Global, conditions: Vec<SqlExpr>) -> Result<Vec<SqlExpr>, AllocError>
    ensures { IfOk result (λ v. map expr_tree v.items ≡ paired both_of (map expr_tree conditions.items)) }
{
    let mut joined = Vec::new(alloc);
    let mut rest = conditions.into_iter();
    while let Some(first) = rest.next() {
        match rest.next() {
            Some(second) => joined.push(between(alloc, first, ScalarOp::And, second)?)?,
            None => joined.push(first)?,
        }
    }
    Ok(joined)
}

// The condition of a list of one at most: with none it is always true.
fn last_of(conditions: Vec<SqlExpr>) -> SqlExpr
    requires { length conditions.items ≤ 1 }
    ensures { expr_tree result ≡ first_or (constant Constant.True) (map expr_tree conditions.items) }
{
    let mut conditions = conditions;
    match conditions.pop() {
        Some(condition) => condition,
        None => SqlExpr::Constant(Constant::True),
    }
}

/// All conditions, joined two by two: with none it is always true. It fails only if memory runs out.
pub fn all_of(alloc: Global, conditions: Vec<SqlExpr>) -> Result<SqlExpr, AllocError>
    ensures { IfOk result (λ e. expr_tree e ≡ all_of (map expr_tree conditions.items)) }
{
    let mut rest = conditions;
    while rest.len() > 1 {
        rest = paired(alloc, rest)?;
    }
    Ok(last_of(rest))
}

// An identifier has a value.
fn value_equality(alloc: Global, writer: &Writer, item: &SubItem) -> Result<SqlExpr, AllocError>
    ensures { IfOk result (λ e. expr_tree e ≡ value_equality writer.now item.now) }
{
    let column = writer.column(&item.id)?;
    between(
        alloc,
        column,
        ScalarOp::Equal,
        writer.constant(alloc, &item.value)?,
    )
}

/// All identifiers have their values. It fails only if memory runs out.
pub(crate) fn value_equalities(
    alloc: Global,
    writer: &Writer,
    items: &[SubItem],
) -> Result<SqlExpr, AllocError>
    ensures { IfOk result (λ e. expr_tree e ≡ all_of (map (value_equality writer.now) items.now)) }
{
    let mut conditions = Vec::with_capacity(alloc, items.len())?;
    for item in items {
        conditions.push(value_equality(alloc, writer, item)?)?;
    }
    all_of(alloc, conditions)
}

// An identifier of the second source agrees with its namesake in the first, which has these columns.
fn agreement_on(
    alloc: Global,
    writer: &Writer,
    columns: &[&Component],
    identifier: &Component,
) -> Result<SqlExpr, AllocError>
    ensures { IfOk result (λ e. expr_tree e ≡ agreement_on (shown columns.now) identifier.now) }
{
    let name = &identifier.name;
    let theirs = writer.other_column(name)?;
    let ours = writer.column_at(place_of(columns, name), columns.len(), name)?;
    between(alloc, theirs, ScalarOp::Equal, ours)
}

/// The identifiers of the second source agree with their namesakes in the first, which has these columns. It fails only
/// if memory runs out.
pub fn agreement(
    alloc: Global,
    writer: &Writer,
    columns: &[&Component],
    identifiers: &[&Component],
) -> Result<SqlExpr, AllocError>
    ensures { IfOk result (λ e. expr_tree e ≡ all_of (map (agreement_on (shown columns.now)) (shown identifiers.now))) }
{
    let mut conditions = Vec::with_capacity(alloc, identifiers.len())?;
    for identifier in identifiers {
        conditions.push(agreement_on(alloc, writer, columns, identifier)?)?;
    }
    all_of(alloc, conditions)
}

/// The name of the first component, or none. It fails only if memory runs out.
pub fn name_of_first(alloc: Global, components: &[&Component]) -> Result<Txt, AllocError>
    ensures { IfOk result (λ t. t ≡ name_of_first (shown components.now)) }
{
    match components {
        [] => Txt::new(alloc, ""),
        [component, ..] => component.name.share(),
    }
}

/// The first branch is chosen: the measure of the condition, which is the first source, is true. It fails only if memory
/// runs out.
pub(crate) fn chosen(
    alloc: Global,
    writer: &Writer,
    condition: &Structure,
) -> Result<SqlExpr, AllocError>
    ensures { IfOk result (λ e. expr_tree e ≡ chosen (length (columns_of condition.now)) (key_width condition.now) (measures_of condition.now)) }
{
    let columns = condition.columns(alloc)?;
    let identifiers = condition.identifiers(alloc)?;
    let name = name_of_first(alloc, &condition.of_role(alloc, Role::Measure)?)?;
    writer.column_at(identifiers.len(), columns.len(), &name)
}

/// A value where a condition is true, and a constant elsewhere. It fails only if memory runs out.
pub fn when(
    alloc: Global,
    condition: SqlExpr,
    value: SqlExpr,
    elsewhere: Constant,
) -> Result<SqlExpr, AllocError>
    ensures { IfOk result (λ e. expr_tree e ≡ case_when (branch (expr_tree condition) (expr_tree value) no_branches) (constant elsewhere)) }
{
    let mut branches = Vec::with_capacity(alloc, 1)?;
    branches.push(Branch { condition, value })?;
    let other = Box::new(alloc, SqlExpr::Constant(elsewhere))?;
    Ok(SqlExpr::Case { branches, other })
}

/// The second branch is chosen: the first one is not. It fails only if memory runs out.
pub(crate) fn not_chosen(alloc: Global, condition: SqlExpr) -> Result<SqlExpr, AllocError>
    ensures { IfOk result (λ e. expr_tree e ≡ not_chosen (expr_tree condition)) }
{
    when(
        alloc,
        condition,
        SqlExpr::Constant(Constant::False),
        Constant::True,
    )
}
