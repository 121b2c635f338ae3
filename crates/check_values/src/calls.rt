// What operators give for typed operands.
ghost use Rattle.std.specs.Prelude.{◌≡◌, IfOk, is_some, map};
ghost use Rattle.vtl_tree.specs.View.{comp_exp_of};
ghost use Rattle.check_faults.specs.Answers.{Answers};
ghost use Rattle.check_values.specs.Calls.{call_form, call_kind};
ghost use Rattle.vtl_tree.specs.Kinds.{exp_kind};
ghost use Rattle.vtl_cell.specs.OperatorKinds.{kind_by_operands};

use check_faults::{Rule, TypeErr};
use std::alloc::{AllocError, Global};
use vtl_cell::{Kind, ScalarOp, kind_by_operands, operator_kind};
use vtl_tree::{CompExpr, kind};

/// The kinds of values.
pub fn kinds_in(alloc: Global, args: &[CompExpr]) -> Result<Vec<Kind>, AllocError>
    ensures { IfOk result (λ v. v.items ≡ map exp_kind (map comp_exp_of args.now)) }
{
    let mut kinds = Vec::new(alloc);
    for arg in args {
        kinds.push(kind(arg))?;
    }
    Ok(kinds)
}

// Whether the operands that need not be literals meet an operator's row, and the kind of its value.
fn row_met(
    alloc: Global,
    op: ScalarOp,
    args: &[CompExpr],
) -> Result<(bool, Option<Kind>), AllocError>
    ensures met { IfOk result (λ r. r.0 ≡ is_some (kind_by_operands op (map exp_kind (map comp_exp_of args.now)))) }
    ensures kind { IfOk result (λ r. r.1 ≡ call_kind op (map comp_exp_of args.now)) }
{
    let kinds = kinds_in(alloc, args)?;
    let by_operands = kind_by_operands(alloc, op, &kinds)?;
    Ok((by_operands.is_some(), operator_kind(op, &kinds)))
}

// An operator on values, where it is known whether the operands that need not be literals meet its row, and its kind.
fn call_of_kind(
    op: ScalarOp,
    met: bool,
    kind: Option<Kind>,
    literals: bool,
    args: Vec<CompExpr>,
) -> Result<CompExpr, TypeErr>
    requires met { met ≡ is_some (kind_by_operands op (map exp_kind (map comp_exp_of args.items))) }
    requires kind { kind ≡ call_kind op (map comp_exp_of args.items) }
    ensures { Answers comp_exp_of result (call_form op literals (map comp_exp_of args.items)) }
{
    match kind {
        _ if !met => Err(TypeErr::Broken(Rule::WrongKind)),
        Some(kind) if literals => Ok(CompExpr::Apply { op, kind, args }),
        _ => Err(TypeErr::Broken(Rule::WrongLiteral)),
    }
}

/// An operator on values. Whether those that have to be literals are literals is given by the caller, which sees how
/// they are written.
pub fn call(
    alloc: Global,
    op: ScalarOp,
    literals: bool,
    args: Vec<CompExpr>,
) -> Result<CompExpr, TypeErr>
    ensures { Answers comp_exp_of result (call_form op literals (map comp_exp_of args.items)) }
{
    let (met, kind) = row_met(alloc, op, &args)?;
    call_of_kind(op, met, kind, literals, args)
}
