// The operators by the number of their operands.
ghost use Rattle.std.specs.Prelude.{◌≡◌, ◌∷◌, []};
ghost use Rattle.vtl_cell.specs.Scalars.{unary_of, binary_of, ternary_of, by_number_of_operands, scalar_of};
ghost use Rattle.vtl_scalar.specs.Answers.{Answers};

use crate::comparison::{between, member, member_of_two, membership, order, truth};
use crate::error::ScalarErr;
use crate::operands::alike;
use crate::{arithmetic, choice, periods, texts};
use std::alloc::Global;
use std::slice;
use vtl_cell::{Cell, ScalarOp, not3};
use vtl_decimal::{Fault, Profile};

/// The value of an operator for its operands, by the table of scalar operators.
///
/// `in` and `not_in` take a value and then the members of the set. `if` takes its condition and both branches; a caller
/// that must evaluate only the chosen branch chooses before it evaluates. An integer where a number is wanted stands
/// for the number that equals it. The value is null where the operands do not meet the operator's row.
///
/// DivZero and Range as the row says; Range too for an integer that is none of the profile where a number is wanted.
/// OutOfMemory only if memory runs out.
pub fn apply(alloc: Global, op: ScalarOp, args: &[Cell], p: &Profile) -> Result<Cell, ScalarErr>
    ensures { Answers result (scalar_of p.now op args.now) }
{
    match op {
        ScalarOp::In => Ok(truth(membership(args, p))),
        ScalarOp::NotIn => Ok(truth(not3(membership(args, p)))),
        _ => by_number_of_operands(alloc, op, args, p),
    }
}

/// The value of an operator for one operand, as `apply` gives it, with the same faults.
#[tactic(auto, using(crate::proofs::OperandLemmas::scalar_of_one))]
pub fn apply_one(alloc: Global, op: ScalarOp, a: &Cell, p: &Profile) -> Result<Cell, ScalarErr>
    ensures { Answers result (scalar_of p.now op (a.now ∷ [])) }
{
    unary(alloc, op, a, p)
}

/// The value of an operator for two operands, as `apply` gives it, with the same faults.
pub fn apply_two(
    alloc: Global,
    op: ScalarOp,
    a: &Cell,
    b: &Cell,
    p: &Profile,
) -> Result<Cell, ScalarErr>
    ensures { Answers result (scalar_of p.now op (a.now ∷ b.now ∷ [])) }
{
    match op {
        ScalarOp::In => Ok(truth(member(a, slice::from_ref(b), p))),
        ScalarOp::NotIn => Ok(truth(not3(member(a, slice::from_ref(b), p)))),
        _ => binary(alloc, op, a, b, p),
    }
}

/// The value of an operator for three operands, as `apply` gives it, with the same faults.
pub fn apply_three(
    alloc: Global,
    op: ScalarOp,
    a: &Cell,
    x: &Cell,
    y: &Cell,
    p: &Profile,
) -> Result<Cell, ScalarErr>
    ensures { Answers result (scalar_of p.now op (a.now ∷ x.now ∷ y.now ∷ [])) }
{
    match op {
        ScalarOp::In => Ok(truth(member_of_two(a, x, y, p))),
        ScalarOp::NotIn => Ok(truth(not3(member_of_two(a, x, y, p)))),
        _ => ternary(alloc, op, a, x, y, p),
    }
}

fn by_number_of_operands(
    alloc: Global,
    op: ScalarOp,
    args: &[Cell],
    p: &Profile,
) -> Result<Cell, ScalarErr>
    ensures { Answers result (by_number_of_operands p.now op args.now) }
{
    match args {
        [a] => unary(alloc, op, a, p),
        [a, b] => binary(alloc, op, a, b, p),
        [a, x, y] => ternary(alloc, op, a, x, y, p),
        _ => Ok(Cell::Null),
    }
}

// The answer of an operator that takes no memory.
fn answered(v: Result<Cell, Fault>) -> Result<Cell, ScalarErr>
    ensures { Answers result v }
{
    Ok(v?)
}

fn unary(alloc: Global, op: ScalarOp, a: &Cell, p: &Profile) -> Result<Cell, ScalarErr>
    ensures { Answers result (unary_of p.now op a.now) }
{
    match op {
        ScalarOp::Identity => Ok(arithmetic::identity(a)),
        ScalarOp::Negate => answered(arithmetic::negation(a, p)),
        ScalarOp::Absolute => answered(arithmetic::absolute(a, p)),
        ScalarOp::Floor => answered(arithmetic::floor(a, p)),
        ScalarOp::Ceil => answered(arithmetic::ceil(a, p)),
        ScalarOp::Trim => Ok(texts::trim(alloc, a)?),
        ScalarOp::TrimLeft => Ok(texts::trim_left(alloc, a)?),
        ScalarOp::TrimRight => Ok(texts::trim_right(alloc, a)?),
        ScalarOp::Length => answered(texts::length(a, p)),
        ScalarOp::Not => Ok(choice::not(a)),
        ScalarOp::IsNull => Ok(Cell::Bool(choice::is_null(a))),
        ScalarOp::PeriodFrequency => Ok(periods::frequency(alloc, a)?),
        _ => Ok(Cell::Null),
    }
}

fn binary(alloc: Global, op: ScalarOp, a: &Cell, b: &Cell, p: &Profile) -> Result<Cell, ScalarErr>
    ensures { Answers result (binary_of p.now op a.now b.now) }
{
    match op {
        ScalarOp::Add => answered(arithmetic::sum(alike(a, b, p)?, p)),
        ScalarOp::Subtract => answered(arithmetic::difference(alike(a, b, p)?, p)),
        ScalarOp::Multiply => answered(arithmetic::product(alike(a, b, p)?, p)),
        ScalarOp::Divide => answered(arithmetic::quotient(alike(a, b, p)?, p)),
        ScalarOp::Modulo => answered(arithmetic::remainder(alike(a, b, p)?, p)),
        ScalarOp::Round => answered(arithmetic::rounded(a, b, p)),
        ScalarOp::Truncate => answered(arithmetic::truncated(a, b, p)),
        ScalarOp::Concat => Ok(texts::joined(alloc, a, b)?),
        ScalarOp::Substring => Ok(texts::part_from(alloc, a, b)?),
        ScalarOp::Replace => Ok(texts::removed(alloc, a, b)?),
        ScalarOp::Position => answered(texts::position(a, b, p)),
        ScalarOp::Equal => Ok(truth(order(a, b, p).map(|o| o.is_eq()))),
        ScalarOp::NotEqual => Ok(truth(order(a, b, p).map(|o| o.is_ne()))),
        ScalarOp::Less => Ok(truth(order(a, b, p).map(|o| o.is_lt()))),
        ScalarOp::LessOrEqual => Ok(truth(order(a, b, p).map(|o| o.is_le()))),
        ScalarOp::Greater => Ok(truth(order(a, b, p).map(|o| o.is_gt()))),
        ScalarOp::GreaterOrEqual => Ok(truth(order(a, b, p).map(|o| o.is_ge()))),
        ScalarOp::And => Ok(choice::and(a, b)),
        ScalarOp::Or => Ok(choice::or(a, b)),
        ScalarOp::Xor => Ok(choice::xor(a, b)),
        ScalarOp::ValueOr => choice::value_or(a, b, p),
        ScalarOp::PeriodShift => answered(periods::shifted(a, b)),
        _ => Ok(Cell::Null),
    }
}

fn ternary(
    alloc: Global,
    op: ScalarOp,
    a: &Cell,
    x: &Cell,
    y: &Cell,
    p: &Profile,
) -> Result<Cell, ScalarErr>
    ensures { Answers result (ternary_of p.now op a.now x.now y.now) }
{
    match op {
        ScalarOp::Substring => Ok(texts::part_within(alloc, a, x, y)?),
        ScalarOp::Replace => Ok(texts::replaced(alloc, a, x, y)?),
        ScalarOp::Between => Ok(truth(between(a, x, y, p))),
        ScalarOp::If => choice::chosen(a, x, y, p),
        _ => Ok(Cell::Null),
    }
}
