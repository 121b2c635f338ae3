// The query of each form of one operand, over the table of the operand.
ghost use Rattle.std.specs.Prelude.{◌≡◌, ◌∷◌, [], map, IfOk};
ghost use Rattle.std.specs.Option.{option_map};
ghost use Rattle.vtl_tree.specs.View.{comp_exp_of};
ghost use Rattle.vtl_tree.specs.declared.structure.Structure.{Structure as StructureOf};
ghost use Rattle.vtl_tree.specs.NodeView.{item_tree as target_tree, measure_tree};
ghost use Rattle.sql_tree.specs.View.{expr_tree, item_tree, query_tree, select_tree};
ghost use Rattle.selects_to_sql.specs.Items.{from_one, from_table};
ghost use Rattle.selects_to_sql.specs.Queries.{calc_query, filter_query, left_query, measures_query, rename_query, sub_query};

use crate::conditions::value_equalities;
use crate::items::{calculated_items, measured_items, renamed_items};
use crate::writer::Writer;
use sql_tree::{Item, Query, Select, SqlExpr};
use std::alloc::{AllocError, Global};
use vtl_text::{List, Txt};
use vtl_tree::{CalcItem, CompExpr, MeasureOp, Structure, SubItem};

/// A select from one table. It fails only if memory runs out.
pub fn from_one(
    alloc: Global,
    writer: &Writer,
    items: Vec<Item>,
    condition: Option<SqlExpr>,
    table: &Txt,
) -> Result<Select, AllocError>
    ensures { IfOk result (λ x. select_tree x ≡ from_one (map item_tree items.items) (option_map expr_tree condition) table.now) }
{
    Ok(Select {
        items: List::of(items),
        from: writer.source(table)?,
        joins: List::of(Vec::new(alloc)),
        condition,
        group: List::of(Vec::new(alloc)),
        having: None,
    })
}

/// A query of one select. It fails only if memory runs out.
pub fn one_select(alloc: Global, select: Select) -> Result<Query, AllocError>
    ensures { IfOk result (λ q. query_tree q ≡ select_tree select ∷ []) }
{
    let mut selects = Vec::with_capacity(alloc, 1)?;
    selects.push(select)?;
    Ok(Query {
        selects: List::of(selects),
    })
}

/// A query of two selects. It fails only if memory runs out.
pub fn two_selects(alloc: Global, first: Select, second: Select) -> Result<Query, AllocError>
    ensures { IfOk result (λ q. query_tree q ≡ select_tree first ∷ select_tree second ∷ []) }
{
    let mut selects = Vec::with_capacity(alloc, 2)?;
    selects.push(first)?;
    selects.push(second)?;
    Ok(Query {
        selects: List::of(selects),
    })
}

/// A query of one select from one table. It fails only if memory runs out.
pub fn from_table(
    alloc: Global,
    writer: &Writer,
    items: Vec<Item>,
    condition: Option<SqlExpr>,
    table: &Txt,
) -> Result<Query, AllocError>
    ensures { IfOk result (λ q. query_tree q ≡ from_table (map item_tree items.items) (option_map expr_tree condition) table.now) }
{
    one_select(alloc, from_one(alloc, writer, items, condition, table)?)
}

/// The columns that are left, of a table that has them.
pub fn left_query(
    alloc: Global,
    writer: &Writer,
    s: &Structure,
    table: &Txt,
) -> Result<Query, AllocError>
    ensures { IfOk result (λ q. (a : StructureOf) → query_tree q ≡ left_query writer.now a s.now table.now) }
{
    let items = renamed_items(alloc, writer, s, s)?;
    from_table(alloc, writer, items, None, table)
}

/// `filter`
pub fn filter_query(
    alloc: Global,
    writer: &Writer,
    condition: &CompExpr,
    s: &Structure,
    table: &Txt,
) -> Result<Query, AllocError>
    ensures { IfOk result (λ q. query_tree q ≡ filter_query writer.now (comp_exp_of condition.now) s.now table.now) }
{
    let items = renamed_items(alloc, writer, s, s)?;
    let condition = writer.expression(alloc, condition)?;
    from_table(alloc, writer, items, Some(condition), table)
}

/// `rename`
pub fn rename_query(
    alloc: Global,
    writer: &Writer,
    a: &Structure,
    s: &Structure,
    table: &Txt,
) -> Result<Query, AllocError>
    ensures { IfOk result (λ q. query_tree q ≡ rename_query writer.now a.now s.now table.now) }
{
    let items = renamed_items(alloc, writer, a, s)?;
    from_table(alloc, writer, items, None, table)
}

/// `sub`: the columns that are left, where identifiers have their values.
pub fn sub_query(
    alloc: Global,
    writer: &Writer,
    values: &[SubItem],
    s: &Structure,
    table: &Txt,
) -> Result<Query, AllocError>
    ensures { IfOk result (λ q. (a : StructureOf) → query_tree q ≡ sub_query writer.now values.now a s.now table.now) }
{
    let items = renamed_items(alloc, writer, s, s)?;
    let condition = value_equalities(alloc, writer, values)?;
    from_table(alloc, writer, items, Some(condition), table)
}

/// `calc`
pub fn calc_query(
    alloc: Global,
    writer: &Writer,
    targets: &[CalcItem],
    s: &Structure,
    table: &Txt,
) -> Result<Query, AllocError>
    ensures { IfOk result (λ q. (a : StructureOf) → query_tree q ≡ calc_query writer.now (map target_tree targets.now) a s.now table.now) }
{
    let items = calculated_items(alloc, writer, targets, s)?;
    from_table(alloc, writer, items, None, table)
}

/// An operator on each measure.
pub fn measures_query(
    alloc: Global,
    writer: &Writer,
    op: &MeasureOp,
    a: &Structure,
    s: &Structure,
    table: &Txt,
) -> Result<Query, AllocError>
    ensures { IfOk result (λ q. query_tree q ≡ measures_query writer.now (measure_tree op.now) a.now s.now table.now) }
{
    let items = measured_items(alloc, writer, op, a, s)?;
    from_table(alloc, writer, items, None, table)
}

/// No query: what no operands give.
pub fn no_query(alloc: Global) -> Query
    ensures { query_tree result ≡ [] }
{
    Query {
        selects: List::of(Vec::new(alloc)),
    }
}
