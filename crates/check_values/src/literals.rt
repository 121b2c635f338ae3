// The values of literals.
//
// What stands where an integer literal has to stand counts as an integer for rule 7: a string there breaks 8 alone,
// and `round` of a string breaks 7 whatever its digits are.
ghost use Rattle.std.specs.Prelude.{◌≡◌, ◌++◌, ℤ, IfOk, map};
ghost use Rattle.vtl_syntax.specs.Trees.{exps_of};
ghost use Rattle.vtl_syntax.specs.View.{expr_tree};
ghost use Rattle.vtl_tree.specs.View.{comp_exp_of};
ghost use Rattle.check_faults.specs.Answers.{Answers};
ghost use Rattle.check_values.specs.Literals.{are_digits, beside_all, cast_kind, constant_cell, constant_typed, integer_in, kind_met, lies_in, literal_cell, literal_kind, literals_fit, members_typed, met_beside, numeral_cell, numeral_kind, second_passes, set_typed, shared_beside, shared_or, stands_beside, third_passes, valued};
ghost use Rattle.vtl_cell.specs.Literals.{integer_written, is_null_kind};

use check_faults::{Rule, TypeErr, broken};
use std::alloc::{AllocError, Global};
use vtl_cell::{
    Cell, Kind, LARGEST_PLACE, integer_cell, integer_written, is_null_kind, lies_between, meets,
    number_cell, shared_kind, with_sign, written,
};
use vtl_decimal::Profile;
use vtl_syntax::{CastKind, Constant, Expr, FunctionName, Literal, Numeral, UnaryOp};
use vtl_text::List;
use vtl_tree::CompExpr;

fn numeral_kind(numeral: &Numeral) -> Kind
    ensures { result ≡ numeral_kind numeral.now }
{
    match numeral {
        Numeral::Integer(_) => Kind::Int,
        Numeral::Decimal(_) => Kind::Num,
    }
}

fn cast_kind(kind: CastKind) -> Kind
    ensures { result ≡ cast_kind kind }
{
    match kind {
        CastKind::Date => Kind::Day,
        CastKind::TimePeriod => Kind::Period,
    }
}

fn numeral_cell(profile: &Profile, numeral: &Numeral) -> Option<Cell>
    ensures { result ≡ numeral_cell profile.now numeral.now }
{
    match numeral {
        Numeral::Integer(digits) => integer_cell(profile, digits),
        Numeral::Decimal(digits) => number_cell(profile, digits),
    }
}

fn constant_cell(
    alloc: Global,
    profile: &Profile,
    constant: &Constant,
) -> Result<Option<Cell>, AllocError>
    ensures { IfOk result (λ o. o ≡ constant_cell profile.now constant.now) }
{
    match constant {
        Constant::Number(numeral) => Ok(numeral_cell(profile, numeral)),
        Constant::String(text) => Ok(Some(Cell::Text(text.share()?))),
        Constant::Boolean(b) => Ok(Some(Cell::Bool(*b))),
        Constant::Null => Ok(Some(Cell::Null)),
        Constant::Cast { text, kind } => written(alloc, profile, cast_kind(*kind), text),
    }
}

fn literal_cell(
    alloc: Global,
    profile: &Profile,
    literal: &Literal,
) -> Result<Option<Cell>, AllocError>
    ensures { IfOk result (λ o. o ≡ literal_cell profile.now literal.now) }
{
    match literal {
        Literal::Number { negative, numeral } => {
            Ok(with_sign(profile, *negative, numeral_cell(profile, numeral)))
        }
        Literal::String(text) => Ok(Some(Cell::Text(text.share()?))),
        Literal::Boolean(b) => Ok(Some(Cell::Bool(*b))),
        Literal::Cast { text, kind } => written(alloc, profile, cast_kind(*kind), text),
    }
}

/// The kind of a literal.
pub fn literal_kind(literal: &Literal) -> Kind
    ensures { result ≡ literal_kind literal.now }
{
    match literal {
        Literal::Number { numeral, .. } => numeral_kind(numeral),
        Literal::String(_) => Kind::Text,
        Literal::Boolean(_) => Kind::Bool,
        Literal::Cast { kind, .. } => cast_kind(*kind),
    }
}

fn valued(cell: Option<Cell>) -> Result<Cell, TypeErr>
    ensures { Answers (λ cell. cell) result (valued cell) }
{
    match cell {
        Some(cell) => Ok(cell),
        None => Err(TypeErr::Broken(Rule::WrongLiteral)),
    }
}

/// The value of a literal.
pub fn literal(alloc: Global, profile: &Profile, literal: &Literal) -> Result<Cell, TypeErr>
    ensures { Answers (λ cell. cell) result (valued (literal_cell profile.now literal.now)) }
{
    valued(literal_cell(alloc, profile, literal)?)
}

/// A constant as an expression.
pub fn constant(alloc: Global, profile: &Profile, constant: &Constant) -> Result<CompExpr, TypeErr>
    ensures { Answers comp_exp_of result (constant_typed profile.now constant.now) }
{
    match constant_cell(alloc, profile, constant)? {
        Some(cell) => Ok(CompExpr::Const(cell)),
        None => Err(TypeErr::Broken(Rule::WrongLiteral)),
    }
}

/// A literal of one kind where a value of another is wanted: it breaks `WrongKind` where it cannot stand for one.
pub fn kind_met(wanted: Kind, given: Kind) -> Result<(), TypeErr>
    ensures { Answers (λ met. met) result (kind_met wanted given) }
{
    broken(Rule::WrongKind, !meets(wanted, given))
}

fn stands_beside(given: Kind, kind: Kind) -> bool
    ensures { result ≡ stands_beside given kind }
{
    is_null_kind(kind) || meets(kind, given)
}

fn beside_all(kinds: &[Kind], given: Kind) -> bool
    ensures { result ≡ beside_all kinds.now given }
{
    for kind in kinds {
        if !stands_beside(given, *kind) {
            return false;
        }
    }
    true
}

/// A literal beside an operand whose values have these kinds: it breaks `WrongKind` where it fits one of them not.
pub fn met_beside(kinds: &[Kind], given: Kind) -> Result<(), TypeErr>
    ensures { Answers (λ met. met) result (met_beside kinds.now given) }
{
    broken(Rule::WrongKind, !beside_all(kinds, given))
}

// The kind that the members of a set share up to one of this kind.
fn shared_beside(kinds: &[Kind], shared: Kind, given: Kind) -> Option<Kind>
    ensures { result ≡ shared_beside kinds.now shared given }
{
    if beside_all(kinds, given) {
        shared_kind(shared, given)
    } else {
        None
    }
}

fn shared_or(kind: Option<Kind>) -> Result<Kind, TypeErr>
    ensures { Answers (λ kind. kind) result (shared_or kind) }
{
    match kind {
        Some(kind) => Ok(kind),
        None => Err(TypeErr::Broken(Rule::WrongKind)),
    }
}

/// The members of a set after an operand whose values have these kinds.
pub fn set(
    alloc: Global,
    profile: &Profile,
    kinds: &[Kind],
    literals: &[Literal],
) -> Result<List<Cell>, TypeErr>
    ensures { Answers (λ cells. cells) result (set_typed profile.now kinds.now literals.now) }
{
    let mut shared = Kind::Null;
    let mut cells = Vec::new(alloc);
    for member in literals {
        shared = shared_or(shared_beside(kinds, shared, literal_kind(member)))?;
        cells.push(literal(alloc, profile, member)?)?;
    }
    Ok(List::of(cells))
}

// The integer that an expression is, without a sign.
fn integer_in(profile: &Profile, e: &Expr) -> Option<i64>
    ensures { result ≡ integer_in profile.now (expr_tree e.now) }
{
    match e {
        Expr::Constant(Constant::Number(Numeral::Integer(digits))) => {
            integer_written(profile, digits)
        }
        _ => None,
    }
}

fn lies_in(profile: &Profile, low: i64, high: i64, e: &Expr) -> bool
    ensures { result ≡ lies_in profile.now low high (expr_tree e.now) }
{
    lies_between(low, high, integer_in(profile, e))
}

fn are_digits(profile: &Profile, e: &Expr) -> bool
    ensures { result ≡ are_digits profile.now (expr_tree e.now) }
{
    match e {
        Expr::Unary {
            op: UnaryOp::Minus,
            operand,
        } => lies_in(profile, 0, 9, operand),
        _ => lies_in(profile, 0, 9, e),
    }
}

#[tactic(auto, using(crate::proofs::LiteralLemmas::second_short))]
fn second_are_digits(profile: &Profile, operands: &[Expr]) -> bool
    ensures { result ≡ second_passes (are_digits profile.now) (exps_of (map expr_tree operands.now)) }
{
    match operands {
        [_, digits, ..] => are_digits(profile, digits),
        _ => true,
    }
}

#[tactic(auto, using(crate::proofs::LiteralLemmas::places_short))]
fn are_places(profile: &Profile, operands: &[Expr]) -> bool
    ensures { result ≡ literals_fit profile.now FunctionName.Substr (exps_of (map expr_tree operands.now)) }
{
    match operands {
        [_, start, length, ..] => {
            lies_in(profile, 1, LARGEST_PLACE, start) && lies_in(profile, 0, LARGEST_PLACE, length)
        }
        [_, start] => lies_in(profile, 1, LARGEST_PLACE, start),
        _ => true,
    }
}

/// Whether the operands of a function that have to be literals are literals in their intervals.
pub fn literals_fit(profile: &Profile, function: FunctionName, operands: &[Expr]) -> bool
    ensures { result ≡ literals_fit profile.now function (exps_of (map expr_tree operands.now)) }
{
    match function {
        FunctionName::Round | FunctionName::Trunc => second_are_digits(profile, operands),
        FunctionName::Substr => are_places(profile, operands),
        _ => true,
    }
}
