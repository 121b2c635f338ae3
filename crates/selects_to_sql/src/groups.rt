// Selects of groups of the rows of a table.
ghost use Rattle.std.specs.Prelude.{◌≡◌, map, IfOk};
ghost use Rattle.std.specs.Option.{option_map};
ghost use Rattle.vtl_tree.specs.Shown.{shown};
ghost use Rattle.expressions_to_sql.specs.ToSql.{group_columns};
ghost use Rattle.sql_tree.specs.Trees.{aggregate};
ghost use Rattle.sql_tree.specs.View.{expr_tree, item_tree, select_tree};
ghost use Rattle.selects_to_sql.specs.Queries.{first_alias, source_as};
ghost use Rattle.selects_to_sql.specs.Groups.{grouped_as, has_rows, group_of};

use crate::writer::Writer;
use sql_tree::{Column, Constant, Item, Select, SqlExpr};
use std::alloc::{AllocError, Global};
use vtl_cell::AggKind;
use vtl_text::{List, Txt};
use vtl_tree::Component;

/// An aggregate function of an operand. It fails only if memory runs out.
pub fn aggregate(alloc: Global, function: AggKind, operand: SqlExpr) -> Result<SqlExpr, AllocError>
    ensures { IfOk result (λ e. expr_tree e ≡ aggregate function (expr_tree operand)) }
{
    Ok(SqlExpr::Aggregate {
        function,
        operand: Box::new(alloc, operand)?,
    })
}

/// The condition that a group has a row: it is null where there is none. It fails only if memory runs out.
pub fn has_rows(alloc: Global) -> Result<SqlExpr, AllocError>
    ensures { IfOk result (λ e. expr_tree e ≡ has_rows) }
{
    aggregate(alloc, AggKind::Min, SqlExpr::Constant(Constant::True))
}

/// The columns of components of a table, by which its rows are grouped. It fails only if memory runs out.
pub fn group_of(
    alloc: Global,
    writer: &Writer,
    components: &[&Component],
) -> Result<Vec<Column>, AllocError>
    ensures { IfOk result (λ v. v.items ≡ group_of (shown components.now)) }
{
    let mut columns = Vec::with_capacity(alloc, components.len())?;
    for component in components {
        columns.push(writer.first(&component.name)?)?;
    }
    Ok(columns)
}

/// The columns of these names. It fails only if memory runs out.
pub fn group_columns(
    alloc: Global,
    writer: &Writer,
    names: &[Txt],
) -> Result<Vec<Column>, AllocError>
    ensures { IfOk result (λ v. v.items ≡ group_columns first_alias names.now) }
{
    let mut columns = Vec::with_capacity(alloc, names.len())?;
    for name in names {
        columns.push(writer.first(name)?)?;
    }
    Ok(columns)
}

/// A group for each tuple of columns of a table, which is kept where a condition is true. It fails only if memory runs
/// out.
pub fn grouped(
    alloc: Global,
    writer: &Writer,
    items: Vec<Item>,
    table: &Txt,
    group: Vec<Column>,
    having: Option<SqlExpr>,
) -> Result<Select, AllocError>
    ensures { IfOk result (λ x. select_tree x ≡ grouped_as (map item_tree items.items) (source_as first_alias table.now) group.items (option_map expr_tree having)) }
{
    Ok(Select {
        items: List::of(items),
        from: writer.source(table)?,
        joins: List::of(Vec::new(alloc)),
        condition: None,
        group: List::of(group),
        having,
    })
}
