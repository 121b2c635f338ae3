// The SERIES that the EXISTS of a query ask.
ghost use Rattle.std.specs.Prelude.{◌≡◌, IfOk};

use crate::{Given, HeldTables};
use sql_tree::{Branch, Item, ItemValue, Join, Select, SqlExpr};
use std::alloc::{AllocError, Global};

// Makes the tables of the SERIES that the EXISTS of an expression ask.
#[cycle(made)]
fn make_asked(alloc: Global, e: &SqlExpr, given: &mut Given<'_>) -> Result<(), AllocError>
    ensures { given.new ≡ given.old }
{
    match e {
        SqlExpr::Binary { left, right, .. } => {
            make_asked(alloc, left, given)?;
            make_asked(alloc, right, given)
        }
        SqlExpr::Unary { operand, .. }
        | SqlExpr::IsNull { operand, .. }
        | SqlExpr::InList { operand, .. }
        | SqlExpr::Aggregate { operand, .. } => make_asked(alloc, operand, given),
        SqlExpr::Constant(_) | SqlExpr::Column(_) | SqlExpr::CountAll => Ok(()),
        SqlExpr::Call { operands, .. } => make_all(alloc, operands, given),
        SqlExpr::Case { branches, other } => {
            make_branches(alloc, branches, given)?;
            make_asked(alloc, other, given)
        }
        SqlExpr::Exists { source, .. } => given.make(alloc, source),
    }
}

#[cycle(made)]
fn make_all(alloc: Global, es: &[SqlExpr], given: &mut Given<'_>) -> Result<(), AllocError>
    ensures { given.new ≡ given.old }
{
    for e in es {
        make_asked(alloc, e, given)?;
    }
    Ok(())
}

#[cycle(made)]
fn make_branches(
    alloc: Global,
    branches: &[Branch],
    given: &mut Given<'_>,
) -> Result<(), AllocError>
    ensures { given.new ≡ given.old }
{
    for branch in branches {
        make_asked(alloc, &branch.condition, given)?;
        make_asked(alloc, &branch.value, given)?;
    }
    Ok(())
}

fn make_maybe(
    alloc: Global,
    condition: &Option<SqlExpr>,
    given: &mut Given<'_>,
) -> Result<(), AllocError>
    ensures { given.new ≡ given.old }
{
    match condition {
        Some(condition) => make_asked(alloc, condition, given),
        None => Ok(()),
    }
}

fn make_join(alloc: Global, join: &Join, given: &mut Given<'_>) -> Result<(), AllocError>
    ensures { given.new ≡ given.old }
{
    match join {
        Join::On { condition, .. } => make_asked(alloc, condition, given),
        Join::Cross(_) => Ok(()),
    }
}

fn make_joins(alloc: Global, joins: &[Join], given: &mut Given<'_>) -> Result<(), AllocError>
    ensures { given.new ≡ given.old }
{
    for join in joins {
        make_join(alloc, join, given)?;
    }
    Ok(())
}

fn make_item(alloc: Global, item: &Item, given: &mut Given<'_>) -> Result<(), AllocError>
    ensures { given.new ≡ given.old }
{
    match &item.value {
        ItemValue::Expr(e) => make_asked(alloc, e, given),
        ItemValue::Window(_) => Ok(()),
    }
}

fn make_items(alloc: Global, items: &[Item], given: &mut Given<'_>) -> Result<(), AllocError>
    ensures { given.new ≡ given.old }
{
    for item in items {
        make_item(alloc, item, given)?;
    }
    Ok(())
}

fn make_select(alloc: Global, select: &Select, given: &mut Given<'_>) -> Result<(), AllocError>
    ensures { given.new ≡ given.old }
{
    make_joins(alloc, select.joins.as_slice(), given)?;
    make_maybe(alloc, &select.condition, given)?;
    make_maybe(alloc, &select.having, given)?;
    make_items(alloc, select.items.as_slice(), given)
}

/// The tables that the program holds, with those of the SERIES that the EXISTS of these selects ask. It takes time for the
/// rows of their tables and for those that the SERIES give. It fails only if memory runs out.
pub fn given_for<'a>(
    alloc: Global,
    held: &'a HeldTables,
    selects: &[Select],
) -> Result<Given<'a>, AllocError>
    ensures { IfOk result (λ g. g ≡ held.now) }
{
    let mut given = Given::over(alloc, held);
    for select in selects {
        make_select(alloc, select, &mut given)?;
    }
    Ok(given)
}
