// `calc`
ghost use Rattle.std.specs.Option.{option_map};
ghost use Rattle.std.specs.Prelude.{◌≡◌, ◌++◌, ◌∷◌, [], map, IfOk, OnOk};
ghost use Rattle.vtl_rows.specs.Tables.{listed};
ghost use Rattle.vtl_scalar.specs.Answers.{Answers, AnswersBy};
ghost use Rattle.vtl_tree.specs.Shown.{shown};
ghost use Rattle.vtl_tree.specs.Structure.{columns_of};
ghost use Rattle.vtl_tree.specs.View.{comp_exp_of};
ghost use Rattle.vtl_tree.specs.NodeView.{item_tree, value_tree};
ghost use Rattle.vtl_sets.specs.DataSets.{with_structure};
ghost use Rattle.vtl_meaning.specs.Made.{IsCalculated};
ghost use Rattle.vtl_meaning.specs.Operators.{calculated_exp, calculated_of, target_named, value_exp};
ghost use Rattle.vtl_sets.specs.TableOf.{IsTableOf};

use std::alloc::{AllocError, Global};
use vtl_cell::Cell;
use vtl_decimal::Profile;
use vtl_expr::each_point;
use vtl_rows::Table;
use vtl_scalar::ScalarErr;
use vtl_sets::DataSet;
use vtl_text::Txt;
use vtl_tree::{CalcItem, CalcValue, CompExpr, Component, Structure, copied, push_column};

// The target of a name.
fn target_named<'a>(items: &'a [CalcItem], name: &Txt) -> Option<&'a CalcItem>
    ensures { option_map (λ i. item_tree i.now) result ≡ target_named (map item_tree items.now) name.now }
{
    for item in items {
        if item.target == *name {
            return Some(item);
        }
    }
    None
}

// The expression of a target, which is no analytic call.
fn value_exp(alloc: Global, value: &CalcValue) -> Result<CompExpr, AllocError>
    ensures { IfOk result (λ e. comp_exp_of e ≡ value_exp (value_tree value.now)) }
{
    match value {
        CalcValue::Scalar(e) => copied(alloc, e),
        CalcValue::Analytic(_) => Ok(CompExpr::Const(Cell::Null)),
    }
}

// Adds what a column of the result is made of: the target of its name, or the column as it was.
fn push_calculated(
    alloc: Global,
    exps: &mut Vec<CompExpr>,
    items: &[CalcItem],
    columns: &[&Component],
    column: &Component,
) -> Result<(), AllocError>
    ensures { OnOk result (map comp_exp_of exps.new.items ≡ map comp_exp_of exps.old.items ++ calculated_exp (map item_tree items.now) (shown columns.now) column.now ∷ []) }
{
    match target_named(items, &column.name) {
        Some(item) => exps.push(value_exp(alloc, &item.value)?)?,
        None => push_column(exps, columns, &column.name)?,
    }
    Ok(())
}

// What the columns with these names are made of.
fn calculated_exps(
    alloc: Global,
    items: &[CalcItem],
    a: &Structure,
    wanted: &[&Component],
) -> Result<Vec<CompExpr>, AllocError>
    ensures { IfOk result (λ v. map comp_exp_of v.items ≡ map (calculated_exp (map item_tree items.now) (columns_of a.now)) (shown wanted.now)) }
{
    let columns = a.columns(alloc)?;
    let mut exps = Vec::with_capacity(alloc, wanted.len())?;
    for column in wanted {
        push_calculated(alloc, &mut exps, items, &columns, column)?;
    }
    Ok(exps)
}

fn calculated_table(
    alloc: Global,
    a: &DataSet,
    items: &[CalcItem],
    made: &Structure,
    p: &Profile,
) -> Result<Table, ScalarErr>
    requires { IsCalculated p.now (map item_tree items.now) a.now.structure made.now }
    ensures table { IfOk result (λ t. IsTableOf made.now (listed t)) }
    ensures rows { AnswersBy (λ t. t.rows) result (calculated_of p.now (map item_tree items.now) a.now made.now) }
{
    let wanted = made.columns(alloc)?;
    let exps = calculated_exps(alloc, items, a.structure(), &wanted)?;
    each_point(alloc, &exps, a, made, p)
}

/// The points with the values of the targets, each computed from the point as it was, as a data set of the structure
/// that typing gives. No target is an analytic call. The answer is DivZero where any value divides by zero, otherwise
/// Range where any is out of range; otherwise it fails only if memory runs out.
pub fn calc(
    alloc: Global,
    a: &DataSet,
    items: &[CalcItem],
    made: &Structure,
    p: &Profile,
) -> Result<DataSet, ScalarErr>
    requires { IsCalculated p.now (map item_tree items.now) a.now.structure made.now }
    ensures { Answers result (with_structure made.now (calculated_of p.now (map item_tree items.now) a.now made.now)) }
{
    let table = calculated_table(alloc, a, items, made, p);
    DataSet::answered(alloc, made, table)
}
