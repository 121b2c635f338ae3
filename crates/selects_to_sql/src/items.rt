// The items of selects from one table.
ghost use Rattle.std.specs.Prelude.{◌≡◌, ◌++◌, ◌∷◌, [], map, IfOk, OnOk};
ghost use Rattle.std.specs.Option.{option_map};
ghost use Rattle.vtl_tree.specs.Shown.{shown};
ghost use Rattle.vtl_tree.specs.Structure.{columns_of};
ghost use Rattle.vtl_tree.specs.View.{comp_exp_of};
ghost use Rattle.vtl_tree.specs.Columns.{identifiers_of, measures_of};
ghost use Rattle.vtl_meaning.specs.Operators.{target_named, value_exp, with_measure};
ghost use Rattle.vtl_tree.specs.NodeView.{item_tree as target_tree, measure_tree, value_tree};
ghost use Rattle.sql_tree.specs.View.{expr_tree, item_tree};
ghost use Rattle.expressions_to_sql.specs.ToSql.{to_sql};
ghost use Rattle.selects_to_sql.specs.Items.{calculated_item, for_each_two, measured_item, renamed_item, own_item, own_items};
ghost use Rattle.selects_to_sql.specs.Queries.{item_as, of_one};

use crate::writer::Writer;
use sql_tree::{Constant, Item, ItemValue, SqlExpr};
use std::alloc::{AllocError, Global};
use vtl_text::Txt;
use vtl_tree::{
    CalcItem, CalcValue, CompExpr, Component, MeasureOp, Role, Structure, copied, push_column,
};

/// Adds an item. It fails only if memory runs out.
pub fn push_item(items: &mut Vec<Item>, value: SqlExpr, name: &Txt) -> Result<(), AllocError>
    ensures { OnOk result (map item_tree items.new.items ≡ map item_tree items.old.items ++ item_as name.now (expr_tree value) ∷ []) }
{
    let name = name.share()?;
    items.push(Item {
        value: ItemValue::Expr(value),
        name,
    })?;
    Ok(())
}

// Adds columns under the names of others.
#[tactic(auto, using(crate::proofs::Written::all_two))]
fn push_renamed(
    writer: &Writer,
    items: &mut Vec<Item>,
    columns: &[&Component],
    names: &[&Component],
) -> Result<(), AllocError>
    ensures { OnOk result (map item_tree items.new.items ≡ map item_tree items.old.items ++ for_each_two renamed_item (shown columns.now) (shown names.now)) }
{
    for i in 0..columns.len().min(names.len()) {
        push_item(items, writer.column(&columns[i].name)?, &names[i].name)?;
    }
    Ok(())
}

/// The columns of a structure under the names of those of another. It fails only if memory runs out.
pub fn renamed_items(
    alloc: Global,
    writer: &Writer,
    a: &Structure,
    s: &Structure,
) -> Result<Vec<Item>, AllocError>
    ensures { IfOk result (λ v. map item_tree v.items ≡ for_each_two renamed_item (columns_of a.now) (columns_of s.now)) }
{
    let columns = a.columns(alloc)?;
    let names = s.columns(alloc)?;
    let mut items = Vec::with_capacity(alloc, names.len())?;
    push_renamed(writer, &mut items, &columns, &names)?;
    Ok(items)
}

/// The target of a name.
pub fn target_named<'a>(targets: &'a [CalcItem], name: &Txt) -> Option<&'a CalcItem>
    ensures { option_map (λ i. target_tree i.now) result ≡ target_named (map target_tree targets.now) name.now }
{
    for target in targets {
        if target.target == *name {
            return Some(target);
        }
    }
    None
}

// The expression of a target, which is no analytic call.
fn target_value(alloc: Global, writer: &Writer, value: &CalcValue) -> Result<SqlExpr, AllocError>
    ensures { IfOk result (λ e. expr_tree e ≡ to_sql writer.now of_one (value_exp (value_tree value.now))) }
{
    match value {
        CalcValue::Scalar(e) => writer.expression(alloc, e),
        CalcValue::Analytic(_) => Ok(SqlExpr::Constant(Constant::Null)),
    }
}

// Adds what a column of the result is made of: the target of its name, or the column as it was.
fn push_calculated(
    alloc: Global,
    writer: &Writer,
    items: &mut Vec<Item>,
    targets: &[CalcItem],
    column: &Component,
) -> Result<(), AllocError>
    ensures { OnOk result (map item_tree items.new.items ≡ map item_tree items.old.items ++ calculated_item writer.now (map target_tree targets.now) column.now ∷ []) }
{
    match target_named(targets, &column.name) {
        Some(target) => {
            push_item(
                items,
                target_value(alloc, writer, &target.value)?,
                &column.name,
            )
        }
        None => push_item(items, writer.column(&column.name)?, &column.name),
    }
}

// Adds what each column of a result of `calc` is made of.
fn push_all_calculated(
    alloc: Global,
    writer: &Writer,
    items: &mut Vec<Item>,
    targets: &[CalcItem],
    columns: &[&Component],
) -> Result<(), AllocError>
    ensures { OnOk result (map item_tree items.new.items ≡ map item_tree items.old.items ++ map (calculated_item writer.now (map target_tree targets.now)) (shown columns.now)) }
{
    for column in columns {
        push_calculated(alloc, writer, items, targets, column)?;
    }
    Ok(())
}

/// What each column of a result of `calc` is made of. It fails only if memory runs out.
pub(crate) fn calculated_items(
    alloc: Global,
    writer: &Writer,
    targets: &[CalcItem],
    s: &Structure,
) -> Result<Vec<Item>, AllocError>
    ensures { IfOk result (λ v. map item_tree v.items ≡ map (calculated_item writer.now (map target_tree targets.now)) (columns_of s.now)) }
{
    let columns = s.columns(alloc)?;
    let mut items = Vec::with_capacity(alloc, columns.len())?;
    push_all_calculated(alloc, writer, &mut items, targets, &columns)?;
    Ok(items)
}

// Puts equal expressions after others.
fn push_copies(alloc: Global, out: &mut Vec<CompExpr>, exps: &[CompExpr]) -> Result<(), AllocError>
    ensures { OnOk result (map comp_exp_of out.new.items ≡ map comp_exp_of out.old.items ++ map comp_exp_of exps.now) }
{
    for e in exps {
        out.push(copied(alloc, e)?)?;
    }
    Ok(())
}

// The operator at a measure, which becomes another one.
fn with_measure(
    alloc: Global,
    op: &MeasureOp,
    columns: &[&Component],
    measure: &Component,
    made: &Component,
) -> Result<CompExpr, AllocError>
    ensures { IfOk result (λ e. comp_exp_of e ≡ with_measure (measure_tree op.now) (shown columns.now) measure.now made.now) }
{
    let mut args = Vec::new(alloc);
    push_copies(alloc, &mut args, op.before.as_slice())?;
    push_column(&mut args, columns, &measure.name)?;
    push_copies(alloc, &mut args, op.after.as_slice())?;
    Ok(CompExpr::Apply {
        op: op.op,
        kind: made.kind,
        args,
    })
}

// Adds the operator at a measure, which becomes another one.
fn push_measured(
    alloc: Global,
    writer: &Writer,
    items: &mut Vec<Item>,
    op: &MeasureOp,
    columns: &[&Component],
    measure: &Component,
    made: &Component,
) -> Result<(), AllocError>
    ensures { OnOk result (map item_tree items.new.items ≡ map item_tree items.old.items ++ measured_item writer.now (measure_tree op.now) (shown columns.now) measure.now made.now ∷ []) }
{
    let value = with_measure(alloc, op, columns, measure, made)?;
    push_item(items, writer.expression(alloc, &value)?, &made.name)
}

// Adds an operator at each measure, which becomes another one.
#[tactic(auto, using(crate::proofs::Written::all_two))]
fn push_all_measured(
    alloc: Global,
    writer: &Writer,
    items: &mut Vec<Item>,
    op: &MeasureOp,
    columns: &[&Component],
    measures: &[&Component],
    made: &[&Component],
) -> Result<(), AllocError>
    ensures { OnOk result (map item_tree items.new.items ≡ map item_tree items.old.items ++ for_each_two (measured_item writer.now (measure_tree op.now) (shown columns.now)) (shown measures.now) (shown made.now)) }
{
    for i in 0..measures.len().min(made.len()) {
        push_measured(alloc, writer, items, op, columns, measures[i], made[i])?;
    }
    Ok(())
}

// Adds a column under its own name.
fn push_own(writer: &Writer, items: &mut Vec<Item>, column: &Component) -> Result<(), AllocError>
    ensures { OnOk result (map item_tree items.new.items ≡ map item_tree items.old.items ++ own_item column.now ∷ []) }
{
    let name = &column.name;
    push_item(items, writer.column(name)?, name)
}

/// Columns under their own names. It fails only if memory runs out.
pub fn own_items(
    alloc: Global,
    writer: &Writer,
    columns: &[&Component],
) -> Result<Vec<Item>, AllocError>
    ensures { IfOk result (λ v. map item_tree v.items ≡ own_items (shown columns.now)) }
{
    let mut items = Vec::with_capacity(alloc, columns.len())?;
    for column in columns {
        push_own(writer, &mut items, column)?;
    }
    Ok(items)
}

// The identifiers of a structure.
fn identifier_items(alloc: Global, writer: &Writer, s: &Structure) -> Result<Vec<Item>, AllocError>
    ensures { IfOk result (λ v. map item_tree v.items ≡ for_each_two renamed_item (identifiers_of s.now) (identifiers_of s.now)) }
{
    let identifiers = s.identifiers(alloc)?;
    let mut items = Vec::new(alloc);
    push_renamed(writer, &mut items, &identifiers, &identifiers)?;
    Ok(items)
}

/// The identifiers of a result, and an operator at each measure of an operand, which becomes one of the result. It fails
/// only if memory runs out.
pub(crate) fn measured_items(
    alloc: Global,
    writer: &Writer,
    op: &MeasureOp,
    a: &Structure,
    s: &Structure,
) -> Result<Vec<Item>, AllocError>
    ensures { IfOk result (λ v. map item_tree v.items ≡ for_each_two renamed_item (identifiers_of s.now) (identifiers_of s.now) ++ for_each_two (measured_item writer.now (measure_tree op.now) (columns_of a.now)) (measures_of a.now) (measures_of s.now)) }
{
    let columns = a.columns(alloc)?;
    let ours = a.of_role(alloc, Role::Measure)?;
    let made = s.of_role(alloc, Role::Measure)?;
    let mut items = identifier_items(alloc, writer, s)?;
    push_all_measured(alloc, writer, &mut items, op, &columns, &ours, &made)?;
    Ok(items)
}
