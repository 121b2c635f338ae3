// The value of an expression at a row or at a group.
ghost use Rattle.std.specs.Prelude.{map};
ghost use Rattle.vtl_cell.specs.Outcome.{Outcome, after};
ghost use Rattle.vtl_cell.specs.Outcomes.{all_of};
ghost use Rattle.vtl_cell.specs.declared.cell.Cell.{Cell};
ghost use Rattle.vtl_scalar.specs.Answers.{AnswersBy};
ghost use Rattle.vtl_scalar.specs.Given.{given_cell};
ghost use Rattle.sql_meaning.specs.Outcomes.{operated};
ghost use Rattle.sql_eval.specs.Placed.{membership_value, placed_choice, placed_value, placed_values};
ghost use Rattle.sql_eval.specs.View.{branch_of, branches_of, placed_of, placeds_of};

use crate::{Cells, Resolved, ResolvedBranch};
use std::alloc::Global;
use vtl_cell::{Cell, Kind, ScalarOp, not3};
use vtl_decimal::Profile;
use vtl_scalar::{
    Given, Members, ScalarErr, apply, first_chosen, given_of_kind, made_of_kind, truth,
    value_of_one, value_of_three, value_of_two,
};

/// The value of an expression at a row, or at a group: all operands are evaluated, and the first fault from the left is
/// the answer; of CASE the conditions are evaluated up to the first that is true, and then the value behind it alone.
/// A value that stands in the row or in the expression is lent, and memory is taken for new texts alone, unless EXISTS
/// or an aggregate asks for it.
#[cycle(evaluation)]
pub fn value_at<'v, R: Cells>(
    alloc: Global,
    e: &'v Resolved,
    at: &'v R,
    p: &Profile,
) -> Result<Given<'v>, ScalarErr>
    ensures { AnswersBy given_cell result (placed_value p.now (R.tables at.now) (placed_of e.now) (R.cells at.now) (R.group at.now)) }
{
    match e {
        Resolved::Column(place) => Ok(Given::Lent(at.cell(*place))),
        Resolved::Const(cell) => Ok(Given::Lent(cell)),
        Resolved::Apply { op, kind, args } => called(alloc, *op, *kind, args, at, p),
        Resolved::Membership {
            operand,
            negated,
            members,
        } => asked(*negated, value_at(alloc, operand, at, p), members, p),
        Resolved::Choose { kind, branches } => given_of_kind(
            chosen(alloc, branches, at, p),
            *kind,
            p,
        ),
        Resolved::Exists(test) => Ok(Given::Made(Cell::Bool(at.is_there(alloc, test, p)?))),
        Resolved::CountAll => Ok(Given::Made(at.count_all(p)?)),
        Resolved::Aggregate { function, operand } => {
            Ok(Given::Made(at.aggregate(alloc, *function, operand, p)?))
        }
    }
}

// The value of an operator on its operands.
#[cycle(evaluation)]
fn called<'v, R: Cells>(
    alloc: Global,
    op: ScalarOp,
    kind: Kind,
    args: &'v [Resolved],
    at: &'v R,
    p: &Profile,
) -> Result<Given<'v>, ScalarErr>
    ensures { AnswersBy given_cell result (operated p.now kind (placed_values p.now (R.tables at.now) (placeds_of (map placed_of args.now)) (R.cells at.now) (R.group at.now)) op) }
{
    match args.len() {
        1 => {
            let a = value_at(alloc, &args[0], at, p);
            value_of_one(alloc, op, kind, a, p)
        }
        2 => {
            let a = value_at(alloc, &args[0], at, p);
            let b = value_at(alloc, &args[1], at, p);
            value_of_two(alloc, op, kind, a, b, p)
        }
        3 => {
            let a = value_at(alloc, &args[0], at, p);
            let b = value_at(alloc, &args[1], at, p);
            let c = value_at(alloc, &args[2], at, p);
            value_of_three(alloc, op, kind, a, b, c, p)
        }
        _ => {
            let values = all_values(alloc, args, at, p)?;
            made_of_kind(apply(alloc, op, &values, p), kind, p)
        }
    }
}

// The values of all operands, or the first fault from the left.
#[cycle(evaluation)]
fn all_values<'v, R: Cells>(
    alloc: Global,
    args: &'v [Resolved],
    at: &'v R,
    p: &Profile,
) -> Result<Vec<Cell>, ScalarErr>
    ensures { AnswersBy (λ v. v.items) result (all_of (placed_values p.now (R.tables at.now) (placeds_of (map placed_of args.now)) (R.cells at.now) (R.group at.now))) }
{
    let mut all = Vec::with_capacity(alloc, args.len())?;
    for arg in args {
        let given = value_at(alloc, arg, at, p)?;
        all.push(given.into_cell()?)?;
    }
    Ok(all)
}

// The value behind the first condition that is true, or null where none is.
#[cycle(evaluation)]
fn chosen<'v, R: Cells>(
    alloc: Global,
    branches: &'v [ResolvedBranch],
    at: &'v R,
    p: &Profile,
) -> Result<Given<'v>, ScalarErr>
    ensures { AnswersBy given_cell result (placed_choice p.now (R.tables at.now) (branches_of (map branch_of branches.now)) (R.cells at.now) (R.group at.now)) }
{
    for branch in branches {
        let condition = value_at(alloc, &branch.condition, at, p)?;
        match first_chosen(condition.cell()) {
            Some(true) => return value_at(alloc, &branch.value, at, p),
            Some(false) => {}
            None => return Ok(Given::Made(Cell::Null)),
        }
    }
    Ok(Given::Made(Cell::Null))
}

// The answer to the question whether a value is in a set, or whether it is not.
fn asked<'v>(
    negated: bool,
    answer: Result<Given<'v>, ScalarErr>,
    members: &Members,
    p: &Profile,
) -> Result<Given<'v>, ScalarErr>
    ensures { (m : Outcome Cell) → AnswersBy given_cell answer.entry m → AnswersBy given_cell result (after m (membership_value p.now negated members.now)) }
{
    let found = members.has(answer?.cell(), p);
    Ok(Given::Made(truth(if negated { not3(found) } else { found })))
}
