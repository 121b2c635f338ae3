// The items of selects from two tables, of which the first has the columns that stand first.
ghost use Rattle.std.specs.Prelude.{◌≡◌, ◌++◌, ◌∷◌, [], map, IfOk, OnOk};
ghost use Rattle.vtl_tree.specs.Shown.{shown};
ghost use Rattle.vtl_tree.specs.CompExp.{column};
ghost use Rattle.vtl_tree.specs.View.{comp_exp_of};
ghost use Rattle.vtl_cell.specs.declared.kind.Kind.TheVariants as k;
ghost use Rattle.vtl_tree.specs.Columns.{identifiers_of, measures_of};
ghost use Rattle.sql_tree.specs.View.{expr_tree, item_tree};
ghost use Rattle.selects_to_sql.specs.Items.{for_each_two};
ghost use Rattle.selects_to_sql.specs.PairItems.{between_places, lead_item, namesake, namesake_item, second_item};

use crate::items::push_item;
use crate::writer::Writer;
use sql_tree::{Item, SqlExpr};
use std::alloc::{AllocError, Global};
use vtl_cell::{Kind, ScalarOp};
use vtl_text::Txt;
use vtl_tree::{CompExpr, Component, Role, Structure, place_of};

// A column at a place. What kind its values have does not show in SQL.
fn column_at(place: usize, name: &Txt) -> Result<CompExpr, AllocError>
    ensures { IfOk result (λ e. comp_exp_of e ≡ column place name.now k.Null) }
{
    Ok(CompExpr::Column {
        place,
        name: name.share()?,
        kind: Kind::Null,
    })
}

// An operator between the columns at two places.
fn between_places(
    alloc: Global,
    writer: &Writer,
    width: usize,
    op: ScalarOp,
    left: usize,
    right: usize,
    name: &Txt,
) -> Result<SqlExpr, AllocError>
    ensures { IfOk result (λ e. expr_tree e ≡ between_places writer.now width op left right name.now) }
{
    let mut args = Vec::with_capacity(alloc, 2)?;
    args.push(column_at(left, name)?)?;
    args.push(column_at(right, name)?)?;
    let value = CompExpr::Apply {
        op,
        kind: Kind::Null,
        args,
    };
    writer.expression_of_two(alloc, &value, width)
}

/// An operator between measures and their namesakes.
#[derive(Clone, Copy)]
pub(crate) struct Namesakes {
    /// The operator.
    pub(crate) op: ScalarOp,
    /// The left operand is the first source.
    pub(crate) left_leads: bool,
}

// The operator between a measure of the left operand and its namesake.
fn namesake(
    alloc: Global,
    writer: &Writer,
    operator: Namesakes,
    columns: &[&Component],
    name: &Txt,
) -> Result<SqlExpr, AllocError>
    ensures { IfOk result (λ e. expr_tree e ≡ namesake writer.now operator.op operator.left_leads (shown columns.now) name.now) }
{
    let width = columns.len();
    let place = place_of(columns, name);
    if operator.left_leads {
        between_places(alloc, writer, width, operator.op, place, width, name)
    } else {
        between_places(alloc, writer, width, operator.op, width, place, name)
    }
}

// Adds the operator at a measure of the left operand and its namesake.
fn push_namesake(
    alloc: Global,
    writer: &Writer,
    items: &mut Vec<Item>,
    operator: Namesakes,
    columns: &[&Component],
    measure: &Component,
    made: &Component,
) -> Result<(), AllocError>
    ensures { OnOk result (map item_tree items.new.items ≡ map item_tree items.old.items ++ namesake_item writer.now operator.op operator.left_leads (shown columns.now) measure.now made.now ∷ []) }
{
    let value = namesake(alloc, writer, operator, columns, &measure.name)?;
    push_item(items, value, &made.name)
}

// Adds the operator at each measure of the left operand and its namesake.
#[tactic(auto, using(crate::proofs::Written::all_two))]
fn push_namesakes(
    alloc: Global,
    writer: &Writer,
    items: &mut Vec<Item>,
    operator: Namesakes,
    columns: &[&Component],
    measures: &[&Component],
    made: &[&Component],
) -> Result<(), AllocError>
    ensures { OnOk result (map item_tree items.new.items ≡ map item_tree items.old.items ++ for_each_two (namesake_item writer.now operator.op operator.left_leads (shown columns.now)) (shown measures.now) (shown made.now)) }
{
    for i in 0..measures.len().min(made.len()) {
        push_namesake(
            alloc,
            writer,
            items,
            operator,
            columns,
            measures[i],
            made[i],
        )?;
    }
    Ok(())
}

// Adds columns of the first source.
fn push_lead(
    writer: &Writer,
    items: &mut Vec<Item>,
    columns: &[&Component],
    names: &[&Component],
) -> Result<(), AllocError>
    ensures { OnOk result (map item_tree items.new.items ≡ map item_tree items.old.items ++ map (lead_item (shown columns.now)) (shown names.now)) }
{
    for column in names {
        let name = &column.name;
        push_item(
            items,
            writer.column_at(place_of(columns, name), columns.len(), name)?,
            name,
        )?;
    }
    Ok(())
}

// Adds columns of the second source.
fn push_second(
    writer: &Writer,
    items: &mut Vec<Item>,
    names: &[&Component],
) -> Result<(), AllocError>
    ensures { OnOk result (map item_tree items.new.items ≡ map item_tree items.old.items ++ map second_item (shown names.now)) }
{
    for column in names {
        push_item(items, writer.other_column(&column.name)?, &column.name)?;
    }
    Ok(())
}

// The identifiers of a structure, from the first source.
fn identifier_items(
    alloc: Global,
    writer: &Writer,
    columns: &[&Component],
    s: &Structure,
) -> Result<Vec<Item>, AllocError>
    ensures { IfOk result (λ v. map item_tree v.items ≡ map (lead_item (shown columns.now)) (identifiers_of s.now)) }
{
    let identifiers = s.identifiers(alloc)?;
    let mut items = Vec::new(alloc);
    push_lead(writer, &mut items, columns, &identifiers)?;
    Ok(items)
}

/// The identifiers of a result, and an operator at each measure of the left operand and its namesake. It fails only if
/// memory runs out.
pub(crate) fn paired_items(
    alloc: Global,
    writer: &Writer,
    operator: Namesakes,
    columns: &[&Component],
    a: &Structure,
    s: &Structure,
) -> Result<Vec<Item>, AllocError>
    ensures { IfOk result (λ v. map item_tree v.items ≡ map (lead_item (shown columns.now)) (identifiers_of s.now) ++ for_each_two (namesake_item writer.now operator.op operator.left_leads (shown columns.now)) (measures_of a.now) (measures_of s.now)) }
{
    let ours = a.of_role(alloc, Role::Measure)?;
    let made = s.of_role(alloc, Role::Measure)?;
    let mut items = identifier_items(alloc, writer, columns, s)?;
    push_namesakes(alloc, writer, &mut items, operator, columns, &ours, &made)?;
    Ok(items)
}

/// The identifiers of a result from the first source, and its measures from the second. It fails only if memory runs
/// out.
pub(crate) fn chosen_items(
    alloc: Global,
    writer: &Writer,
    columns: &[&Component],
    s: &Structure,
) -> Result<Vec<Item>, AllocError>
    ensures { IfOk result (λ v. map item_tree v.items ≡ map (lead_item (shown columns.now)) (identifiers_of s.now) ++ map second_item (measures_of s.now)) }
{
    let made = s.of_role(alloc, Role::Measure)?;
    let mut items = identifier_items(alloc, writer, columns, s)?;
    push_second(writer, &mut items, &made)?;
    Ok(items)
}
