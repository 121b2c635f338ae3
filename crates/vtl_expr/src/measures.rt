// An operator on each measure of a data set.
ghost use Rattle.std.specs.Prelude.{◌≡◌, ◌++◌, ◌∷◌, [], map, IfOk, OnOk};
ghost use Rattle.vtl_rows.specs.Tables.{listed};
ghost use Rattle.vtl_scalar.specs.Answers.{Answers, AnswersBy};
ghost use Rattle.vtl_tree.specs.Shown.{shown};
ghost use Rattle.vtl_tree.specs.Structure.{columns_of};
ghost use Rattle.vtl_tree.specs.View.{comp_exp_of};
ghost use Rattle.vtl_tree.specs.NodeView.{measure_tree};
ghost use Rattle.vtl_sets.specs.DataSets.{with_structure};
ghost use Rattle.vtl_meaning.specs.Made.{IsMeasured};
ghost use Rattle.vtl_meaning.specs.Operators.{for_measures, measured_exps, measured_of, with_measure};
ghost use Rattle.vtl_sets.specs.TableOf.{IsTableOf};

use crate::columns::measures;
use crate::expressions::{columns_named, push_copies};
use crate::points::each_point;
use std::alloc::{AllocError, Global};
use vtl_decimal::Profile;
use vtl_rows::Table;
use vtl_scalar::ScalarErr;
use vtl_sets::DataSet;
use vtl_tree::{CompExpr, Component, MeasureOp, Structure, push_column};

// The operator at a measure, which becomes another measure.
fn with_measure(
    alloc: Global,
    op: &MeasureOp,
    columns: &[&Component],
    measure: &Component,
    made: &Component,
) -> Result<CompExpr, AllocError>
    ensures { IfOk result (λ e. comp_exp_of e ≡ with_measure (measure_tree op.now) (shown columns.now) measure.now made.now) }
{
    let mut args = Vec::new(alloc);
    push_copies(alloc, &mut args, op.before.as_slice())?;
    push_column(&mut args, columns, &measure.name)?;
    push_copies(alloc, &mut args, op.after.as_slice())?;
    Ok(CompExpr::Apply {
        op: op.op,
        kind: made.kind,
        args,
    })
}

// Adds the operator at each measure.
fn push_measured(
    alloc: Global,
    exps: &mut Vec<CompExpr>,
    op: &MeasureOp,
    structure: &Structure,
    measures: &[&Component],
    made: &[&Component],
) -> Result<(), AllocError>
    ensures { OnOk result (map comp_exp_of exps.new.items ≡ map comp_exp_of exps.old.items ++ for_measures (with_measure (measure_tree op.now) (columns_of structure.now)) (shown measures.now) (shown made.now)) }
{
    let columns = structure.columns(alloc)?;
    for i in 0..measures.len().min(made.len()) {
        exps.push(with_measure(alloc, op, &columns, measures[i], made[i])?)?;
    }
    Ok(())
}

// What the columns of the result are made of.
fn measured_exps(
    alloc: Global,
    op: &MeasureOp,
    a: &Structure,
    made: &Structure,
) -> Result<Vec<CompExpr>, AllocError>
    ensures { IfOk result (λ v. map comp_exp_of v.items ≡ measured_exps (measure_tree op.now) a.now made.now) }
{
    let ours = measures(alloc, a)?;
    let theirs = measures(alloc, made)?;
    let mut exps = columns_named(alloc, a, &made.identifiers(alloc)?)?;
    push_measured(alloc, &mut exps, op, a, &ours, &theirs)?;
    Ok(exps)
}

fn measured_table(
    alloc: Global,
    op: &MeasureOp,
    a: &DataSet,
    made: &Structure,
    p: &Profile,
) -> Result<Table, ScalarErr>
    requires { IsMeasured p.now (measure_tree op.now) a.now.structure made.now }
    ensures table { IfOk result (λ t. IsTableOf made.now (listed t)) }
    ensures rows { AnswersBy (λ t. t.rows) result (measured_of p.now (measure_tree op.now) a.now made.now) }
{
    let exps = measured_exps(alloc, op, a.structure(), made)?;
    each_point(alloc, &exps, a, made, p)
}

/// The operator's value at each measure of each point, as a data set of the structure that typing gives: its
/// identifiers, and no attributes. The other operands are evaluated at each point. The answer is DivZero where any
/// value divides by zero, otherwise Range where any is out of range; otherwise it fails only if memory runs out.
pub fn map_measures(
    alloc: Global,
    op: &MeasureOp,
    a: &DataSet,
    made: &Structure,
    p: &Profile,
) -> Result<DataSet, ScalarErr>
    requires { IsMeasured p.now (measure_tree op.now) a.now.structure made.now }
    ensures { Answers result (with_structure made.now (measured_of p.now (measure_tree op.now) a.now made.now)) }
{
    let table = measured_table(alloc, op, a, made, p);
    DataSet::answered(alloc, made, table)
}
