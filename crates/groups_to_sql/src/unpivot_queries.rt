// The query of `unpivot`: a select for each measure.
ghost use Rattle.std.specs.Prelude.{◌≡◌, map, IfOk};
ghost use Rattle.vtl_tree.specs.Shown.{shown};
ghost use Rattle.sql_tree.specs.View.{expr_tree, item_tree, query_tree, select_tree};
ghost use Rattle.selects_to_sql.specs.Queries.{items_as};
ghost use Rattle.groups_to_sql.specs.Turned.{is_filled, text_constant, unpivot_query};
ghost use Rattle.groups_to_sql.specs.TurnedItems.{measure_select, named_values};

use selects_to_sql::{Writer, from_one, push_next, push_own};
use sql_tree::{Constant, Item, Query, Select, SqlExpr};
use std::alloc::{AllocError, Global};
use vtl_text::{List, Txt};
use vtl_tree::{Component, Role, Structure};

/// A text as a constant. It fails only if memory runs out.
pub(crate) fn text_constant(text: &Txt) -> Result<SqlExpr, AllocError>
    ensures { IfOk result (λ e. expr_tree e ≡ text_constant text.now) }
{
    Ok(SqlExpr::Constant(Constant::Text(text.share()?)))
}

// A column has a value.
fn is_filled(alloc: Global, writer: &Writer, name: &Txt) -> Result<SqlExpr, AllocError>
    ensures { IfOk result (λ e. expr_tree e ≡ is_filled name.now) }
{
    Ok(SqlExpr::IsNull {
        operand: Box::new(alloc, writer.column(name)?)?,
        negated: true,
    })
}

// The identifiers, the name of a measure and its value, as the columns of the result.
fn named_values(
    alloc: Global,
    writer: &Writer,
    identifiers: &[&Component],
    measure: &Component,
    columns: &[&Component],
) -> Result<Vec<Item>, AllocError>
    ensures { IfOk result (λ v. map item_tree v.items ≡ items_as (named_values (shown identifiers.now) measure.now) (shown columns.now)) }
{
    let mut items = Vec::with_capacity(alloc, columns.len())?;
    push_own(writer, &mut items, identifiers, columns)?;
    push_next(&mut items, text_constant(&measure.name)?, columns)?;
    push_next(&mut items, writer.column(&measure.name)?, columns)?;
    Ok(items)
}

// The points at which a measure has a value.
fn measure_select(
    alloc: Global,
    writer: &Writer,
    identifiers: &[&Component],
    measure: &Component,
    columns: &[&Component],
    table: &Txt,
) -> Result<Select, AllocError>
    ensures { IfOk result (λ x. select_tree x ≡ measure_select (shown identifiers.now) (shown columns.now) table.now measure.now) }
{
    let items = named_values(alloc, writer, identifiers, measure, columns)?;
    let condition = is_filled(alloc, writer, &measure.name)?;
    from_one(alloc, writer, items, Some(condition), table)
}

// A select for each measure.
fn measure_selects(
    alloc: Global,
    writer: &Writer,
    identifiers: &[&Component],
    measures: &[&Component],
    columns: &[&Component],
    table: &Txt,
) -> Result<Query, AllocError>
    ensures { IfOk result (λ q. query_tree q ≡ map (measure_select (shown identifiers.now) (shown columns.now) table.now) (shown measures.now)) }
{
    let mut selects = Vec::with_capacity(alloc, measures.len())?;
    for measure in measures {
        selects.push(measure_select(alloc, writer, identifiers, measure, columns, table)?)?;
    }
    Ok(Query {
        selects: List::of(selects),
    })
}

/// `unpivot`: each point once for each of its measures that has a value. It fails only if memory runs out.
pub fn unpivot_query(
    alloc: Global,
    writer: &Writer,
    a: &Structure,
    s: &Structure,
    table: &Txt,
) -> Result<Query, AllocError>
    ensures { IfOk result (λ q. query_tree q ≡ unpivot_query writer.now a.now s.now table.now) }
{
    let identifiers = a.identifiers(alloc)?;
    let columns = s.columns(alloc)?;
    let measures = a.of_role(alloc, Role::Measure)?;
    measure_selects(alloc, writer, &identifiers, &measures, &columns, table)
}
