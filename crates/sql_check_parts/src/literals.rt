// Literals.
ghost use Rattle.std.specs.List.{list_any};
ghost use Rattle.std.specs.Prelude.{◌≡◌, ◌∷◌, IfOk, ℤ, map};
ghost use Rattle.sql_tree.specs.Trees.{exps_of};
ghost use Rattle.sql_tree.specs.View.{expr_tree};
ghost use Rattle.sql_check_parts.specs.Expressions.{constant_breaks, list_breaks};
ghost use Rattle.sql_check_parts.specs.Literals.{constant_kind, constant_value, has_no_value, integer_in, is_place, is_signed, is_size, literal_kind, literal_value, literals_fit, numeral_kind, numeral_value, second_passes};
ghost use Rattle.sql_check_parts.specs.Rules.{least};
ghost use Rattle.sql_check_parts.specs.Told.{IsTold};

use crate::operators::operator_kind;
use crate::{SqlRule, Test, Told, least_broken};
use sql_tree::{Constant, Literal, Numeral, SqlExpr};
use std::alloc::{AllocError, Global};
use vtl_cell::{
    Cell, Kind, LARGEST_PLACE, LONGEST_REACH, ScalarOp, integer_cell, integer_written,
    lies_between, number_cell, with_sign, written,
};
use vtl_decimal::Profile;

fn numeral_kind(numeral: &Numeral) -> Kind
    ensures { result ≡ numeral_kind numeral.now }
{
    match numeral {
        Numeral::Int(_) => Kind::Int,
        Numeral::Dec(_) => Kind::Num,
    }
}

fn numeral_value(profile: &Profile, numeral: &Numeral) -> Option<Cell>
    ensures { result ≡ numeral_value profile.now numeral.now }
{
    match numeral {
        Numeral::Int(digits) => integer_cell(profile, digits),
        Numeral::Dec(digits) => number_cell(profile, digits),
    }
}

fn constant_kind(constant: &Constant) -> Kind
    ensures { result ≡ constant_kind constant.now }
{
    match constant {
        Constant::Number(numeral) => numeral_kind(numeral),
        Constant::Text(_) => Kind::Text,
        Constant::True | Constant::False => Kind::Bool,
        Constant::Null => Kind::Null,
        Constant::Date(_) => Kind::Day,
        Constant::Period(_) => Kind::Period,
    }
}

/// The value of a constant, where it has one. It fails only if memory runs out.
pub fn constant_value(
    alloc: Global,
    profile: &Profile,
    constant: &Constant,
) -> Result<Option<Cell>, AllocError>
    ensures { IfOk result (λ value. value ≡ constant_value profile.now constant.now) }
{
    match constant {
        Constant::Number(numeral) => Ok(numeral_value(profile, numeral)),
        Constant::Text(text) => Ok(Some(Cell::Text(text.share()?))),
        Constant::True => Ok(Some(Cell::Bool(true))),
        Constant::False => Ok(Some(Cell::Bool(false))),
        Constant::Null => Ok(Some(Cell::Null)),
        Constant::Date(text) => written(alloc, profile, Kind::Day, text),
        Constant::Period(text) => written(alloc, profile, Kind::Period, text),
    }
}

/// A constant. It fails only if memory runs out.
pub fn constant(alloc: Global, profile: &Profile, constant: &Constant) -> Result<Told, AllocError>
    ensures { IfOk result (IsTold (constant_kind constant.now) (constant_breaks profile.now constant.now)) }
{
    let value = constant_value(alloc, profile, constant)?;
    Ok(Told {
        kind: constant_kind(constant),
        fault: least_broken(&[Test {
            rule: SqlRule::UnfitLiteral,
            is_broken: value.is_none(),
        }]),
    })
}

/// The kind of a literal.
pub(crate) fn literal_kind(literal: &Literal) -> Kind
    ensures { result ≡ literal_kind literal.now }
{
    match literal {
        Literal::Number { number, .. } => numeral_kind(number),
        Literal::Text(_) => Kind::Text,
        Literal::True | Literal::False => Kind::Bool,
        Literal::Date(_) => Kind::Day,
        Literal::Period(_) => Kind::Period,
    }
}

/// The value of a literal, where it has one. It fails only if memory runs out.
pub fn literal_value(
    alloc: Global,
    profile: &Profile,
    literal: &Literal,
) -> Result<Option<Cell>, AllocError>
    ensures { IfOk result (λ value. value ≡ literal_value profile.now literal.now) }
{
    match literal {
        Literal::Number { negative, number } => {
            Ok(with_sign(profile, *negative, numeral_value(profile, number)))
        }
        Literal::Text(text) => Ok(Some(Cell::Text(text.share()?))),
        Literal::True => Ok(Some(Cell::Bool(true))),
        Literal::False => Ok(Some(Cell::Bool(false))),
        Literal::Date(text) => written(alloc, profile, Kind::Day, text),
        Literal::Period(text) => written(alloc, profile, Kind::Period, text),
    }
}

/// Whether a literal has no value. It fails only if memory runs out.
pub(crate) fn has_no_value(
    alloc: Global,
    profile: &Profile,
    literal: &Literal,
) -> Result<bool, AllocError>
    ensures { IfOk result (λ b. b ≡ has_no_value profile.now literal.now) }
{
    Ok(literal_value(alloc, profile, literal)?.is_none())
}

fn any_has_no_value(
    alloc: Global,
    profile: &Profile,
    literals: &[Literal],
) -> Result<bool, AllocError>
    ensures { IfOk result (λ b. b ≡ list_any (has_no_value profile.now) literals.now) }
{
    for literal in literals {
        if has_no_value(alloc, profile, literal)? {
            return Ok(true);
        }
    }
    Ok(false)
}

// The kind of an operand, and those of literals after it.
fn member_kinds(alloc: Global, operand: Kind, literals: &[Literal]) -> Result<Vec<Kind>, AllocError>
    ensures { IfOk result (λ kinds. kinds.items ≡ operand ∷ map literal_kind literals.now) }
{
    let mut kinds = Vec::new(alloc);
    kinds.push(operand)?;
    for literal in literals {
        kinds.push(literal_kind(literal))?;
    }
    Ok(kinds)
}

/// The literals of IN after an operand of this kind. It fails only if memory runs out.
pub fn list_fault(
    alloc: Global,
    profile: &Profile,
    kind: Kind,
    literals: &[Literal],
) -> Result<Option<SqlRule>, AllocError>
    ensures { IfOk result (λ fault. fault ≡ least (list_breaks profile.now kind literals.now)) }
{
    let kinds = member_kinds(alloc, kind, literals)?;
    let given = operator_kind(alloc, ScalarOp::In, &kinds)?;
    let no_value = any_has_no_value(alloc, profile, literals)?;
    Ok(least_broken(&[
        Test {
            rule: SqlRule::UnfitKind,
            is_broken: given.is_none(),
        },
        Test {
            rule: SqlRule::UnfitLiteral,
            is_broken: no_value,
        },
    ]))
}

// The integer that an expression is, without a sign.
fn integer_in(profile: &Profile, e: &SqlExpr) -> Option<i64>
    ensures { result ≡ integer_in profile.now (expr_tree e.now) }
{
    match e {
        SqlExpr::Constant(Constant::Number(Numeral::Int(digits))) => {
            integer_written(profile, digits)
        }
        _ => None,
    }
}

fn is_place(profile: &Profile, e: &SqlExpr) -> bool
    ensures { result ≡ is_place profile.now (expr_tree e.now) }
{
    lies_between(1, LARGEST_PLACE, integer_in(profile, e))
}

fn is_size(profile: &Profile, e: &SqlExpr) -> bool
    ensures { result ≡ is_size profile.now (expr_tree e.now) }
{
    lies_between(0, LARGEST_PLACE, integer_in(profile, e))
}

// An integer of at most this size, before which one `-` may stand.
fn is_signed(profile: &Profile, most: i64, e: &SqlExpr) -> bool
    ensures { result ≡ is_signed profile.now most (expr_tree e.now) }
{
    match e {
        SqlExpr::Unary {
            op: ScalarOp::Negate,
            operand,
        } => lies_between(0, most, integer_in(profile, operand)),
        _ => lies_between(0, most, integer_in(profile, e)),
    }
}

#[tactic(auto, using(crate::proofs::FewOperands::second_short))]
fn second_is_signed(profile: &Profile, most: i64, operands: &[SqlExpr]) -> bool
    ensures { result ≡ second_passes (is_signed profile.now most) (exps_of (map expr_tree operands.now)) }
{
    match operands {
        [_, second, ..] => is_signed(profile, most, second),
        _ => true,
    }
}

#[tactic(auto, using(crate::proofs::FewOperands::places_short))]
fn are_places(profile: &Profile, operands: &[SqlExpr]) -> bool
    ensures { result ≡ literals_fit profile.now ScalarOp.Substring (exps_of (map expr_tree operands.now)) }
{
    match operands {
        [_, start, size, ..] => is_place(profile, start) && is_size(profile, size),
        [_, start] => is_place(profile, start),
        _ => true,
    }
}

/// Whether the operands of a function that have to be literals are literals in their intervals.
pub fn literals_fit(profile: &Profile, function: ScalarOp, operands: &[SqlExpr]) -> bool
    ensures { result ≡ literals_fit profile.now function (exps_of (map expr_tree operands.now)) }
{
    match function {
        ScalarOp::Round | ScalarOp::Truncate => second_is_signed(profile, 9, operands),
        ScalarOp::PeriodShift => second_is_signed(profile, LONGEST_REACH, operands),
        ScalarOp::Substring => are_places(profile, operands),
        _ => true,
    }
}
