// The columns that a condition equates.
ghost use Rattle.std.specs.Prelude.{◌≡◌, ◌+◌, Ok, IfOk, IfSome, OnOk, map};
ghost use Rattle.std.specs.List.{AllByRecursion};
ghost use Rattle.vtl_cell.specs.Row.{Row, column_of};
ghost use Rattle.vtl_cell.specs.declared.kind.Kind.{Kind};
ghost use Rattle.vtl_decimal.specs.Settings.{Settings};
ghost use Rattle.vtl_tree.specs.CompExp.{CompExp, call};
ghost use Rattle.vtl_tree.specs.Value.{value};
ghost use Rattle.vtl_tree.specs.View.{comp_exp_of, comp_exps_of};
ghost use Rattle.vtl_join_filter.specs.Equalities.{Equates, Implies, is_conjunction, is_equality};

use std::alloc::{AllocError, Global};
use vtl_cell::ScalarOp;
use vtl_tree::CompExpr;

// Two columns of points.
#[derive(Clone, Copy)]
pub(crate) struct Equated {
    pub(crate) left: usize,
    pub(crate) right: usize,
}

// The place of a column.
fn column_place(e: &CompExpr) -> Option<usize>
    ensures { IfSome result (λ place. (p : Settings) (r : Row) → value p (comp_exp_of e.now) r ≡ Ok (column_of place r)) }
{
    match e {
        CompExpr::Column { place, .. } => Some(*place),
        _ => None,
    }
}

// Adds the columns of an equality of two.
fn push_columns(pairs: &mut Vec<Equated>, args: &[CompExpr]) -> Result<(), AllocError>
    ensures { OnOk result ((p : Settings) (e : CompExp) (kind : Kind) → Implies p e (call ScalarOp.Equal kind (comp_exps_of (map comp_exp_of args.now))) → AllByRecursion (Equates p e) pairs.old.items → AllByRecursion (Equates p e) pairs.new.items) }
{
    if args.len() != 2 {
        return Ok(());
    }
    if let (Some(left), Some(right)) = (column_place(&args[0]), column_place(&args[1])) {
        pairs.push(Equated { left, right })?;
    }
    Ok(())
}

// Whether an operator is `and`.
fn is_conjunction(op: ScalarOp) -> bool
    ensures { result ≡ is_conjunction op }
{
    matches!(op, ScalarOp::And)
}

// Whether it is `=`.
fn is_equality(op: ScalarOp) -> bool
    ensures { result ≡ is_equality op }
{
    matches!(op, ScalarOp::Equal)
}

// Adds columns that are equal wherever a condition is true: where it is an equality of two, or joins such by `and`.
#[cycle(equated)]
fn push_equated(pairs: &mut Vec<Equated>, condition: &CompExpr) -> Result<(), AllocError>
    ensures { OnOk result ((p : Settings) (e : CompExp) → Implies p e (comp_exp_of condition.now) → AllByRecursion (Equates p e) pairs.old.items → AllByRecursion (Equates p e) pairs.new.items) }
{
    match condition {
        CompExpr::Apply { op, args, .. } => {
            let operands = args.as_slice();
            if is_conjunction(*op) {
                push_each(pairs, operands)
            } else if is_equality(*op) {
                push_columns(pairs, operands)
            } else {
                Ok(())
            }
        }
        _ => Ok(()),
    }
}

#[cycle(equated)]
fn push_each(pairs: &mut Vec<Equated>, conditions: &[CompExpr]) -> Result<(), AllocError>
    ensures { OnOk result ((p : Settings) (e : CompExp) → AllByRecursion (Implies p e) (map comp_exp_of conditions.now) → AllByRecursion (Equates p e) pairs.old.items → AllByRecursion (Equates p e) pairs.new.items) }
{
    for condition in conditions {
        push_equated(pairs, condition)?;
    }
    Ok(())
}

// Columns that are equal wherever a condition is true.
pub(crate) fn equated_columns(
    alloc: Global,
    condition: &CompExpr,
) -> Result<Vec<Equated>, AllocError>
    ensures { IfOk result (λ v. (p : Settings) → AllByRecursion (Equates p (comp_exp_of condition.now)) v.items) }
{
    let mut pairs = Vec::new(alloc);
    push_equated(&mut pairs, condition)?;
    Ok(pairs)
}
