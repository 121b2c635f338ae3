// The items of joins, and their conditions.
ghost use Rattle.std.specs.Prelude.{◌≡◌, ◌++◌, map, option_map, IfOk, OnOk};
ghost use Rattle.vtl_tree.specs.Shown.{shown};
ghost use Rattle.vtl_tree.specs.Structure.{columns_of, of_role};
ghost use Rattle.sql_tree.specs.View.{expr_tree, item_tree};
ghost use Rattle.sql_tree.specs.Trees as tree;
ghost use Rattle.expressions_to_sql.specs.ToSql.{column_of, to_sql};
ghost use Rattle.selects_to_sql.specs.Items.{all_of};
ghost use Rattle.joins_to_sql.specs.JoinItems.{aliased_of, column_from, columns_from, columns_from_all, column_picked, picked_column, tied_with};
ghost use Rattle.joins_to_sql.specs.FilteredJoins.{condition_of, shown_by};
ghost use Rattle.selects_to_sql.specs.Queries.{items_as};

use crate::join_operands::Aliased;
use expressions_to_sql::{Aliases, comp_to_sql};
use selects_to_sql::{Writer, all_of, between, push_item};
use sql_tree::{Column, Item, SqlExpr};
use std::alloc::{AllocError, Global};
use vtl_cell::ScalarOp;
use vtl_text::Txt;
use vtl_tree::{CompExpr, Component, Role, Structure};

/// A column of an operand: the alias of its source, and its name.
#[derive(Drop)]
pub(crate) struct Picked<'a, 'b> {
    alias: &'a Txt,
    name: &'b Txt,
}

// A column of a source.
fn column(alias: &Txt, name: &Txt) -> Result<SqlExpr, AllocError>
    ensures { IfOk result (λ e. expr_tree e ≡ tree.column (column_of alias.now name.now)) }
{
    Ok(SqlExpr::Column(Column {
        source: alias.share()?,
        name: name.share()?,
    }))
}

/// Adds columns of a source. It fails only if memory runs out.
pub(crate) fn push_columns<'a, 'b>(
    picked: &mut Vec<Picked<'a, 'b>>,
    alias: &'a Txt,
    components: &[&'b Component],
) -> Result<(), AllocError>
    ensures { OnOk result (map picked_column picked.new.items ≡ map picked_column picked.old.items ++ map (column_from alias.now) (shown components.now)) }
{
    for component in components {
        let name = &component.name;
        picked.push(Picked { alias, name })?;
    }
    Ok(())
}

// Adds the columns of a role of an operand.
fn push_role<'a, 'b>(
    alloc: Global,
    picked: &mut Vec<Picked<'a, 'b>>,
    operand: &'a Aliased<'b>,
    role: Role,
) -> Result<(), AllocError>
    ensures { OnOk result (map picked_column picked.new.items ≡ map picked_column picked.old.items ++ columns_from (of_role role) (aliased_of operand.now)) }
{
    let components = operand.structure.of_role(alloc, role)?;
    push_columns(picked, &operand.alias, &components)
}

/// Adds the columns of a role of all operands. It fails only if memory runs out.
pub(crate) fn push_roles<'a, 'b>(
    alloc: Global,
    picked: &mut Vec<Picked<'a, 'b>>,
    operands: &'a [Aliased<'b>],
    role: Role,
) -> Result<(), AllocError>
    ensures { OnOk result (map picked_column picked.new.items ≡ map picked_column picked.old.items ++ columns_from_all (of_role role) (map aliased_of operands.now)) }
{
    for operand in operands {
        push_role(alloc, picked, operand, role)?;
    }
    Ok(())
}

/// Columns under the names of others. It fails only if memory runs out.
#[tactic(auto, using(crate::proofs::JoinWritten::all_named))]
pub(crate) fn named_items(
    alloc: Global,
    picked: &[Picked<'_, '_>],
    s: &Structure,
) -> Result<Vec<Item>, AllocError>
    ensures { IfOk result (λ v. map item_tree v.items ≡ items_as (map picked_column picked.now) (columns_of s.now)) }
{
    let names = s.columns(alloc)?;
    let mut items = Vec::with_capacity(alloc, names.len())?;
    push_named(&mut items, picked, &names)?;
    Ok(items)
}

// Adds columns under the names of others.
#[tactic(auto, using(crate::proofs::JoinWritten::all_named))]
fn push_named(
    items: &mut Vec<Item>,
    picked: &[Picked<'_, '_>],
    names: &[&Component],
) -> Result<(), AllocError>
    ensures { OnOk result (map item_tree items.new.items ≡ map item_tree items.old.items ++ items_as (map picked_column picked.now) (shown names.now)) }
{
    for i in 0..picked.len().min(names.len()) {
        let next = &picked[i];
        push_item(items, column(next.alias, next.name)?, &names[i].name)?;
    }
    Ok(())
}

// A column has the value that the column of its name has in the first source.
fn tied_with(
    alloc: Global,
    first: &Txt,
    alias: &Txt,
    component: &Component,
) -> Result<SqlExpr, AllocError>
    ensures { IfOk result (λ e. expr_tree e ≡ tied_with first.now alias.now component.now) }
{
    let name = &component.name;
    between(
        alloc,
        column(alias, name)?,
        ScalarOp::Equal,
        column(first, name)?,
    )
}

/// Columns have the values that the columns of their names have in the first source. It fails only if memory runs out.
pub fn all_tied(
    alloc: Global,
    first: &Txt,
    alias: &Txt,
    components: &[&Component],
) -> Result<SqlExpr, AllocError>
    ensures { IfOk result (λ e. expr_tree e ≡ all_of (map (tied_with first.now alias.now) (shown components.now))) }
{
    let mut conditions = Vec::with_capacity(alloc, components.len())?;
    for component in components {
        conditions.push(tied_with(alloc, first, alias, component)?)?;
    }
    all_of(alloc, conditions)
}

// Columns of sources that were picked.
fn columns_picked(alloc: Global, picked: &[Picked<'_, '_>]) -> Result<Vec<Column>, AllocError>
    ensures { IfOk result (λ v. v.items ≡ map column_picked picked.now) }
{
    let mut columns = Vec::with_capacity(alloc, picked.len())?;
    for one in picked {
        columns.push(Column {
            source: one.alias.share()?,
            name: one.name.share()?,
        })?;
    }
    Ok(columns)
}

/// A condition over the points that a select of picked columns shows, over the columns of its sources. It fails only if
/// memory runs out.
pub(crate) fn condition_over(
    alloc: Global,
    writer: &Writer,
    picked: &[Picked<'_, '_>],
    s: &Structure,
    condition: Option<&CompExpr>,
) -> Result<Option<SqlExpr>, AllocError>
    ensures { IfOk result (λ c. option_map expr_tree c ≡ option_map (to_sql writer.now (shown_by (items_as (map picked_column picked.now) (columns_of s.now)))) (condition_of condition.entry)) }
{
    let Some(condition) = condition else {
        return Ok(None);
    };
    let names = s.columns(alloc)?;
    let many = picked.len().min(names.len());
    let columns = columns_picked(alloc, &picked[..many])?;
    let at = Aliases::Each(&columns);
    Ok(Some(comp_to_sql(alloc, condition, &at, writer.profile())?))
}
