// The value of an expression at a point or over a group.
//
// One evaluator serves points and groups (`value_at` over `Cells`): what it is evaluated at says what a column is and
// what an aggregate is, as in the definition (`value_over`). A prepared expression has the value of its tree whatever
// these are (`SameValue`), so one proof serves both.
ghost use Rattle.std.specs.Prelude.{◌≡◌, ◌∷◌, length, map};
ghost use Rattle.vtl_cell.specs.Outcome.{Outcome, after};
ghost use Rattle.vtl_cell.specs.Outcomes.{all_of};
ghost use Rattle.vtl_cell.specs.ScalarComparison.{membership_of, truth};
ghost use Rattle.vtl_cell.specs.declared.cell.Cell.{Cell};
ghost use Rattle.vtl_meaning.specs.GroupExpressions.{value_over, values_over};
ghost use Rattle.vtl_scalar.specs.Answers.{AnswersBy};
ghost use Rattle.vtl_scalar.specs.Given.{given_cell};
ghost use Rattle.vtl_tree.specs.Value.{called, is_choice};
ghost use Rattle.vtl_tree.specs.View.{comp_exps_of};
ghost use Rattle.vtl_expr.specs.Prepared.{asked, prepared_exp};

use crate::cells::Cells;
use crate::prepared::Prepared;
use std::alloc::Global;
use vtl_cell::{Cell, Kind, ScalarOp, not3};
use vtl_decimal::Profile;
use vtl_scalar::{
    Given, Members, ScalarErr, apply, first_chosen, given_of_kind, made_of_kind, truth,
    value_of_one, value_of_three, value_of_two,
};

/// The value of a prepared expression at a point or over a group: operands from left to right, the first fault is the
/// answer, and `if` evaluates its condition and the branch that it chooses alone. A value that stands in the point, in
/// the group or in the expression is lent; memory is taken for new texts, and where an aggregate asks for it.
#[cycle(evaluation)]
pub fn value_at<'v, R: Cells>(
    alloc: Global,
    e: &'v Prepared,
    at: &'v R,
    p: &Profile,
) -> Result<Given<'v>, ScalarErr>
    ensures { AnswersBy given_cell result (value_over p.now (R.columns at.now) (R.aggregates at.now p.now) (prepared_exp e.now)) }
{
    match e {
        Prepared::Column { place, name } => Ok(at.column(*place, name)),
        Prepared::Const(cell) => Ok(Given::Lent(cell)),
        Prepared::Apply { op, kind, args } => called(alloc, *op, *kind, args, at, p),
        Prepared::Aggregate(call) => Ok(Given::Made(at.aggregate(alloc, call, p)?)),
        Prepared::Membership {
            is_in,
            operand,
            members,
        } => asked(*is_in, value_at(alloc, operand, at, p), members, p),
    }
}

// The value of an operator on its operands.
#[cycle(evaluation)]
fn called<'v, R: Cells>(
    alloc: Global,
    op: ScalarOp,
    kind: Kind,
    args: &'v [Prepared],
    at: &'v R,
    p: &Profile,
) -> Result<Given<'v>, ScalarErr>
    ensures { AnswersBy given_cell result (called p.now kind (values_over p.now (R.columns at.now) (R.aggregates at.now p.now) (comp_exps_of (map prepared_exp args.now))) op) }
{
    let count = args.len();
    if count == 3 {
        return called_on_three(alloc, op, kind, args, at, p);
    }
    match count {
        1 => {
            let a = value_at(alloc, &args[0], at, p);
            value_of_one(alloc, op, kind, a, p)
        }
        2 => {
            let a = value_at(alloc, &args[0], at, p);
            let b = value_at(alloc, &args[1], at, p);
            value_of_two(alloc, op, kind, a, b, p)
        }
        _ => {
            let values = all_values(alloc, args, at, p)?;
            made_of_kind(apply(alloc, op, &values, p), kind, p)
        }
    }
}

// The value of an operator on three operands: `if` asks for the branch that it chooses alone.
#[cycle(evaluation)]
fn called_on_three<'v, R: Cells>(
    alloc: Global,
    op: ScalarOp,
    kind: Kind,
    args: &'v [Prepared],
    at: &'v R,
    p: &Profile,
) -> Result<Given<'v>, ScalarErr>
    requires { length args.now ≡ 3 }
    ensures { AnswersBy given_cell result (called p.now kind (values_over p.now (R.columns at.now) (R.aggregates at.now p.now) (comp_exps_of (map prepared_exp args.now))) op) }
{
    let a = value_at(alloc, &args[0], at, p);
    if !is_choice(op) {
        let b = value_at(alloc, &args[1], at, p);
        let c = value_at(alloc, &args[2], at, p);
        return value_of_three(alloc, op, kind, a, b, c, p);
    }
    match first_chosen(a?.cell()) {
        Some(true) => given_of_kind(value_at(alloc, &args[1], at, p), kind, p),
        Some(false) => given_of_kind(value_at(alloc, &args[2], at, p), kind, p),
        None => given_of_kind(Ok(Given::Made(Cell::Null)), kind, p),
    }
}

// The values of all operands, or the first fault from the left.
#[cycle(evaluation)]
fn all_values<'v, R: Cells>(
    alloc: Global,
    args: &'v [Prepared],
    at: &'v R,
    p: &Profile,
) -> Result<Vec<Cell>, ScalarErr>
    ensures { AnswersBy (λ v. v.items) result (all_of (values_over p.now (R.columns at.now) (R.aggregates at.now p.now) (comp_exps_of (map prepared_exp args.now)))) }
{
    let mut all = Vec::with_capacity(alloc, args.len())?;
    for arg in args {
        let given = value_at(alloc, arg, at, p)?;
        all.push(given.into_cell()?)?;
    }
    Ok(all)
}

// Whether an operator on three operands is `if`.
fn is_choice(op: ScalarOp) -> bool
    ensures { result ≡ is_choice op 3 }
{
    matches!(op, ScalarOp::If)
}

// The answer to the question whether a value is in a set, or whether it is not.
fn asked<'v>(
    is_in: bool,
    answer: Result<Given<'v>, ScalarErr>,
    members: &Members,
    p: &Profile,
) -> Result<Given<'v>, ScalarErr>
    ensures { (m : Outcome Cell) → AnswersBy given_cell answer.entry m → AnswersBy given_cell result (after m (λ a. Ok (truth (asked is_in (membership_of p.now (a ∷ members.now)))))) }
{
    let found = members.has(answer?.cell(), p);
    Ok(Given::Made(truth(if is_in { found } else { not3(found) })))
}
