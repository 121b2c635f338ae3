// An operator at the measures of two operands, over the cells of one followed by those of the other.
ghost use Rattle.std.specs.Prelude.{◌≡◌, ◌++◌, ◌∷◌, [], map, length, IfOk, OnOk};
ghost use Rattle.vtl_tree.specs.Shown.{shown};
ghost use Rattle.vtl_tree.specs.Structure.{columns_of};
ghost use Rattle.vtl_tree.specs.View.{comp_exp_of};
ghost use Rattle.vtl_tree.specs.Columns.{columns_named, identifiers_of, measures_of};
ghost use Rattle.vtl_meaning.specs.Operators.{for_measures, with_namesake};
ghost use Rattle.vtl_expr.specs.Sides.{side_column};

use crate::columns::measures;
use crate::expressions::columns_named;
use std::alloc::{AllocError, Global};
use vtl_cell::ScalarOp;
use vtl_text::Txt;
use vtl_tree::{CompExpr, Component, Structure, column_behind};

// The columns of an operand, and those that stand before them.
#[derive(Drop)]
pub(crate) struct Side<'a> {
    pub(crate) before: Vec<&'a Component>,
    pub(crate) columns: Vec<&'a Component>,
}

impl<'a> Side<'a> {
    // The columns of the operand that leads.
    pub(crate) fn leading(alloc: Global, lead: &'a Structure) -> Result<Side<'a>, AllocError>
        ensures before { IfOk result (λ side. length side.before.items ≡ 0) }
        ensures columns { IfOk result (λ side. shown side.columns.items ≡ columns_of lead.now) }
    {
        Ok(Side {
            before: Vec::new(alloc),
            columns: lead.columns(alloc)?,
        })
    }

    // The columns of the other operand.
    pub(crate) fn behind(
        alloc: Global,
        lead: &'a Structure,
        other: &'a Structure,
    ) -> Result<Side<'a>, AllocError>
        ensures before { IfOk result (λ side. length side.before.items ≡ length (columns_of lead.now)) }
        ensures columns { IfOk result (λ side. shown side.columns.items ≡ columns_of other.now) }
    {
        Ok(Side {
            before: lead.columns(alloc)?,
            columns: other.columns(alloc)?,
        })
    }

    // The column of a name as an expression.
    fn column(&self, name: &Txt) -> Result<CompExpr, AllocError>
        ensures { IfOk result (λ e. comp_exp_of e ≡ side_column self.now name.now) }
    {
        column_behind(&self.before, &self.columns, name)
    }
}

// The operator at a measure and its namesake, which become another measure.
fn with_namesake(
    alloc: Global,
    op: ScalarOp,
    left: &Side<'_>,
    right: &Side<'_>,
    measure: &Component,
    made: &Component,
) -> Result<CompExpr, AllocError>
    ensures { IfOk result (λ e. comp_exp_of e ≡ with_namesake op (side_column left.now) (side_column right.now) measure.now made.now) }
{
    let mut args = Vec::with_capacity(alloc, 2)?;
    args.push(left.column(&measure.name)?)?;
    args.push(right.column(&measure.name)?)?;
    Ok(CompExpr::Apply {
        op,
        kind: made.kind,
        args,
    })
}

// Adds the operator at each measure and its namesake.
fn push_namesakes(
    alloc: Global,
    exps: &mut Vec<CompExpr>,
    op: ScalarOp,
    left: &Side<'_>,
    right: &Side<'_>,
    measures: &[&Component],
    made: &[&Component],
) -> Result<(), AllocError>
    ensures { OnOk result (map comp_exp_of exps.new.items ≡ map comp_exp_of exps.old.items ++ for_measures (with_namesake op (side_column left.now) (side_column right.now)) (shown measures.now) (shown made.now)) }
{
    for i in 0..measures.len().min(made.len()) {
        exps.push(with_namesake(alloc, op, left, right, measures[i], made[i])?)?;
    }
    Ok(())
}

// What the columns of the result are made of: the identifiers of the operand that leads, and the operator at the
// measures of the left one and their namesakes.
pub(crate) fn namesake_exps(
    alloc: Global,
    op: ScalarOp,
    lead: &Structure,
    left: &Side<'_>,
    right: &Side<'_>,
    a: &Structure,
    made: &Structure,
) -> Result<Vec<CompExpr>, AllocError>
    ensures { IfOk result (λ v. map comp_exp_of v.items ≡ columns_named (columns_of lead.now) (identifiers_of made.now) ++ for_measures (with_namesake op (side_column left.now) (side_column right.now)) (measures_of a.now) (measures_of made.now)) }
{
    let ours = measures(alloc, a)?;
    let theirs = measures(alloc, made)?;
    let mut exps = columns_named(alloc, lead, &made.identifiers(alloc)?)?;
    push_namesakes(alloc, &mut exps, op, left, right, &ours, &theirs)?;
    Ok(exps)
}
