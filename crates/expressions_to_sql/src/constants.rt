// Values as constants and as literals.
//
// That constants are values that a program holds is shown by the walk of the program (clause `held`), not by a law on
// typing: trees of definitions have lost the invariants of numbers, days and periods. In a set only constants are
// asked, since the walk makes literals of them and goes into nothing else.
//
// A number always has a point, at every scale: digits alone are an integer in SQL. A negative constant is `-` before
// its size, since expressions have no signed constants; in a set the sign belongs to the literal.
ghost use Rattle.std.specs.Prelude.{◌≡◌, IfOk};
ghost use Rattle.vtl_cell.specs.Held.{IsHeld};
ghost use Rattle.sql_tree.specs.View.{expr_tree};
ghost use Rattle.expressions_to_sql.specs.Constants.{const_to_sql, literal_to_sql, signed, truth_constant, truth_literal};

use crate::texts::{day_digits, integer_digits, number_digits, period_digits, same_text};
use sql_tree::{Constant, Literal, Numeral, SqlExpr};
use std::alloc::{AllocError, Global};
use vtl_cell::{Cell, ScalarOp};
use vtl_decimal::Profile;

// A number, behind a sign where it is negative.
#[tactic(auto, using(crate::proofs::Views::views))]
fn signed(alloc: Global, negative: bool, size: Numeral) -> Result<SqlExpr, AllocError>
    ensures { IfOk result (λ x. expr_tree x ≡ signed negative size) }
{
    let size = SqlExpr::Constant(Constant::Number(size));
    if !negative {
        return Ok(size);
    }
    Ok(SqlExpr::Unary {
        op: ScalarOp::Negate,
        operand: Box::new(alloc, size)?,
    })
}

fn truth(b: bool) -> Constant
    ensures { result ≡ truth_constant b }
{
    if b { Constant::True } else { Constant::False }
}

/// A value as a constant: numbers are written with a point, and negative ones behind a sign. It fails only if memory
/// runs out.
#[tactic(auto, using(crate::proofs::Views::views))]
pub fn const_to_sql(alloc: Global, cell: &Cell, p: &Profile) -> Result<SqlExpr, AllocError>
    ensures exp { IfOk result (λ x. expr_tree x ≡ const_to_sql p.now cell.now) }
    ensures held { IfOk result (λ x. IsHeld cell.now) }
{
    match cell {
        Cell::Null => Ok(SqlExpr::Constant(Constant::Null)),
        Cell::Bool(b) => Ok(SqlExpr::Constant(truth(*b))),
        Cell::Int(n) => signed(alloc, *n < 0, Numeral::Int(integer_digits(alloc, *n)?)),
        Cell::Num(d) => signed(alloc, d.k() < 0, Numeral::Dec(number_digits(alloc, *d, p)?)),
        Cell::Text(t) => Ok(SqlExpr::Constant(Constant::Text(same_text(t)?))),
        Cell::Day(d) => Ok(SqlExpr::Constant(Constant::Date(day_digits(alloc, *d)?))),
        Cell::Period(q) => Ok(SqlExpr::Constant(Constant::Period(period_digits(alloc, *q)?))),
    }
}

fn truth_literal(b: bool) -> Literal
    ensures { result ≡ truth_literal b }
{
    if b { Literal::True } else { Literal::False }
}

/// A value as a literal, which no null has. It fails only if memory runs out.
pub fn literal_to_sql(alloc: Global, cell: &Cell, p: &Profile) -> Result<Literal, AllocError>
    ensures literal { IfOk result (λ x. x ≡ literal_to_sql p.now cell.now) }
    ensures held { IfOk result (λ x. IsHeld cell.now) }
{
    match cell {
        Cell::Null => Ok(Literal::False),
        Cell::Bool(b) => Ok(truth_literal(*b)),
        Cell::Int(n) => Ok(Literal::Number {
            negative: *n < 0,
            number: Numeral::Int(integer_digits(alloc, *n)?),
        }),
        Cell::Num(d) => Ok(Literal::Number {
            negative: d.k() < 0,
            number: Numeral::Dec(number_digits(alloc, *d, p)?),
        }),
        Cell::Text(t) => Ok(Literal::Text(same_text(t)?)),
        Cell::Day(d) => Ok(Literal::Date(day_digits(alloc, *d)?)),
        Cell::Period(q) => Ok(Literal::Period(period_digits(alloc, *q)?)),
    }
}
