// The kinds of operators on values of given kinds.
ghost use Rattle.std.specs.Prelude.{◌≡◌, [], ◌∷◌, IfOk, option_and_then, option_map, if◌then◌else◌};
ghost use Rattle.std.specs.List.{list_all};
ghost use Rattle.vtl_cell.specs.ScalarKinds.{common_kind, first_met, is_set_of, kinds_of, meet, meets, numeric_one, numeric_two, only, shared_kind, to, truth_of_set};
ghost use Rattle.vtl_cell.specs.OperatorKinds.{counted_kinds, kind_by_operands, takes_literals};

use crate::{Kind, ScalarOp};
use std::alloc::{AllocError, Global};

/// Whether a value of a kind may stand where a kind is wanted: null anywhere, an integer for a number.
pub fn meets(wanted: Kind, given: Kind) -> bool
    ensures { result ≡ meets wanted given }
{
    match (wanted, given) {
        (_, Kind::Null) => true,
        (Kind::Bool, Kind::Bool) => true,
        (Kind::Int, Kind::Int) => true,
        (Kind::Num, Kind::Int) => true,
        (Kind::Num, Kind::Num) => true,
        (Kind::Text, Kind::Text) => true,
        (Kind::Day, Kind::Day) => true,
        (Kind::Period, Kind::Period) => true,
        _ => false,
    }
}

/// The kind that two values share: null has each kind, and an integer with a number is a number.
pub fn shared_kind(a: Kind, b: Kind) -> Option<Kind>
    ensures { result ≡ shared_kind a b }
{
    match (a, b) {
        (Kind::Null, b) => Some(b),
        (a, Kind::Null) => Some(a),
        (Kind::Bool, Kind::Bool) => Some(Kind::Bool),
        (Kind::Int, Kind::Int) => Some(Kind::Int),
        (Kind::Int, Kind::Num) => Some(Kind::Num),
        (Kind::Num, Kind::Int) => Some(Kind::Num),
        (Kind::Num, Kind::Num) => Some(Kind::Num),
        (Kind::Text, Kind::Text) => Some(Kind::Text),
        (Kind::Day, Kind::Day) => Some(Kind::Day),
        (Kind::Period, Kind::Period) => Some(Kind::Period),
        _ => None,
    }
}

// A kind together with the kind that others share.
fn with_common(kind: Kind, common: Option<Kind>) -> Option<Kind>
    ensures { result ≡ option_and_then (shared_kind kind) common }
{
    shared_kind(kind, common?)
}

/// The kind that all share.
#[tactic(auto, using(crate::proofs::KindLemmas::kinds_step))]
pub fn common_kind(kinds: &[Kind]) -> Option<Kind>
    ensures { result ≡ common_kind kinds.now }
{
    let mut common = Some(Kind::Null);
    for i in 0..kinds.len() {
        common = with_common(kinds[kinds.len() - 1 - i], common);
    }
    common
}

// One operand of this kind.
#[tactic(auto, using(crate::proofs::KindLemmas::meet_long))]
fn one(wanted: Kind, kinds: &[Kind]) -> bool
    ensures { result ≡ meet (wanted ∷ []) kinds.now }
{
    match kinds {
        [a] => meets(wanted, *a),
        _ => false,
    }
}

// Two operands of these kinds.
#[tactic(auto, using(crate::proofs::KindLemmas::meet_long))]
fn two(first: Kind, second: Kind, kinds: &[Kind]) -> bool
    ensures { result ≡ meet (first ∷ second ∷ []) kinds.now }
{
    match kinds {
        [a, b] => meets(first, *a) && meets(second, *b),
        _ => false,
    }
}

// A text and then two operands of this kind.
#[tactic(auto, using(crate::proofs::KindLemmas::meet_long))]
fn text_and_two(wanted: Kind, kinds: &[Kind]) -> bool
    ensures { result ≡ meet (Kind.Text ∷ wanted ∷ wanted ∷ []) kinds.now }
{
    match kinds {
        [a, x, y] => meets(Kind::Text, *a) && meets(wanted, *x) && meets(wanted, *y),
        _ => false,
    }
}

fn given_if(met: bool, kind: Kind) -> Option<Kind>
    ensures { result ≡ (if met then Some kind else None) }
{
    if met { Some(kind) } else { None }
}

// A text and then one or two operands of this kind.
fn text_and(wanted: Kind, kinds: &[Kind]) -> Option<Kind>
    ensures { result ≡ first_met (to (Kind.Text ∷ wanted ∷ []) Kind.Text ∷ to (Kind.Text ∷ wanted ∷ wanted ∷ []) Kind.Text ∷ []) kinds.now }
{
    if two(Kind::Text, wanted, kinds) {
        Some(Kind::Text)
    } else {
        given_if(text_and_two(wanted, kinds), Kind::Text)
    }
}

fn numeric_one(kinds: &[Kind]) -> Option<Kind>
    ensures { result ≡ first_met numeric_one kinds.now }
{
    if one(Kind::Int, kinds) {
        Some(Kind::Int)
    } else {
        given_if(one(Kind::Num, kinds), Kind::Num)
    }
}

fn numeric_two(kinds: &[Kind]) -> Option<Kind>
    ensures { result ≡ first_met numeric_two kinds.now }
{
    if two(Kind::Int, Kind::Int, kinds) {
        Some(Kind::Int)
    } else {
        given_if(two(Kind::Num, Kind::Num, kinds), Kind::Num)
    }
}

// A boolean, where there is a kind.
fn truth(kind: Option<Kind>) -> Option<Kind>
    ensures { result ≡ option_map (λ kind. Kind.Bool) kind }
{
    match kind {
        Some(_) => Some(Kind::Bool),
        None => None,
    }
}

// A comparison of two.
fn compared(kinds: &[Kind]) -> Option<Kind>
    ensures { result ≡ kinds_of ScalarOp.Equal kinds.now }
{
    match kinds {
        [_, _] => truth(common_kind(kinds)),
        _ => None,
    }
}

fn between(kinds: &[Kind]) -> Option<Kind>
    ensures { result ≡ kinds_of ScalarOp.Between kinds.now }
{
    match kinds {
        [_, _, _] => truth(common_kind(kinds)),
        _ => None,
    }
}

fn all_meet(wanted: Kind, kinds: &[Kind]) -> bool
    ensures { result ≡ list_all (meets wanted) kinds.now }
{
    for given in kinds {
        if !meets(wanted, *given) {
            return false;
        }
    }
    true
}

// Whether the members are a set of the operand's kind.
fn is_set_of(operand: Kind, members: &[Kind]) -> bool
    ensures { result ≡ is_set_of operand members.now }
{
    match operand {
        Kind::Null => common_kind(members).is_some(),
        other => all_meet(other, members),
    }
}

fn member(kinds: &[Kind]) -> Option<Kind>
    ensures { result ≡ kinds_of ScalarOp.In kinds.now }
{
    match kinds {
        [operand, members @ ..] if !members.is_empty() && is_set_of(*operand, members) => {
            Some(Kind::Bool)
        }
        _ => None,
    }
}

fn tested(kinds: &[Kind]) -> Option<Kind>
    ensures { result ≡ kinds_of ScalarOp.IsNull kinds.now }
{
    match kinds {
        [_] => Some(Kind::Bool),
        _ => None,
    }
}

fn value_or(kinds: &[Kind]) -> Option<Kind>
    ensures { result ≡ kinds_of ScalarOp.ValueOr kinds.now }
{
    match kinds {
        [_, _] => common_kind(kinds),
        _ => None,
    }
}

fn chosen(kinds: &[Kind]) -> Option<Kind>
    ensures { result ≡ kinds_of ScalarOp.If kinds.now }
{
    match kinds {
        [test, branches @ ..] if branches.len() == 2 && meets(Kind::Bool, *test) => {
            common_kind(branches)
        }
        _ => None,
    }
}

/// The kind of an operator's value on operands of these kinds, where they meet its row in the table of operators.
pub fn operator_kind(op: ScalarOp, kinds: &[Kind]) -> Option<Kind>
    ensures { result ≡ kinds_of op kinds.now }
{
    match op {
        ScalarOp::Identity | ScalarOp::Negate | ScalarOp::Absolute => numeric_one(kinds),
        ScalarOp::Add | ScalarOp::Subtract | ScalarOp::Multiply | ScalarOp::Modulo => {
            numeric_two(kinds)
        }
        ScalarOp::Divide => given_if(two(Kind::Num, Kind::Num, kinds), Kind::Num),
        ScalarOp::Floor | ScalarOp::Ceil => given_if(one(Kind::Num, kinds), Kind::Int),
        ScalarOp::Round | ScalarOp::Truncate => given_if(
            two(Kind::Num, Kind::Int, kinds),
            Kind::Num,
        ),
        ScalarOp::Concat => given_if(two(Kind::Text, Kind::Text, kinds), Kind::Text),
        ScalarOp::Trim | ScalarOp::TrimLeft | ScalarOp::TrimRight => {
            given_if(one(Kind::Text, kinds), Kind::Text)
        }
        ScalarOp::Substring => text_and(Kind::Int, kinds),
        ScalarOp::Replace => text_and(Kind::Text, kinds),
        ScalarOp::Position => given_if(two(Kind::Text, Kind::Text, kinds), Kind::Int),
        ScalarOp::Length => given_if(one(Kind::Text, kinds), Kind::Int),
        ScalarOp::Equal | ScalarOp::NotEqual => compared(kinds),
        ScalarOp::Less | ScalarOp::LessOrEqual => compared(kinds),
        ScalarOp::Greater | ScalarOp::GreaterOrEqual => compared(kinds),
        ScalarOp::Between => between(kinds),
        ScalarOp::In | ScalarOp::NotIn => member(kinds),
        ScalarOp::And | ScalarOp::Or | ScalarOp::Xor => {
            given_if(two(Kind::Bool, Kind::Bool, kinds), Kind::Bool)
        }
        ScalarOp::Not => given_if(one(Kind::Bool, kinds), Kind::Bool),
        ScalarOp::IsNull => tested(kinds),
        ScalarOp::ValueOr => value_or(kinds),
        ScalarOp::If => chosen(kinds),
        ScalarOp::PeriodShift => given_if(two(Kind::Period, Kind::Int, kinds), Kind::Period),
        ScalarOp::PeriodFrequency => given_if(one(Kind::Period, kinds), Kind::Text),
    }
}

fn takes_literals(op: ScalarOp) -> bool
    ensures { result ≡ takes_literals op }
{
    match op {
        ScalarOp::Round | ScalarOp::Truncate => true,
        ScalarOp::Substring | ScalarOp::PeriodShift => true,
        _ => false,
    }
}

fn counted_kind(op: ScalarOp, kind: Kind) -> Kind
    ensures { result ≡ (if takes_literals op then Kind.Int else kind) }
{
    if takes_literals(op) { Kind::Int } else { kind }
}

/// The kinds of operands after the first, where whatever stands for an integer literal counts as one.
pub fn counted_kinds(alloc: Global, op: ScalarOp, kinds: &[Kind]) -> Result<Vec<Kind>, AllocError>
    ensures { IfOk result (λ v. v.items ≡ counted_kinds op kinds.now) }
{
    let mut counted = Vec::new(alloc);
    for kind in kinds {
        counted.push(counted_kind(op, *kind))?;
    }
    Ok(counted)
}

/// The kind of an operator's value on operands of these kinds, where those that need not be literals meet its row.
pub fn kind_by_operands(
    alloc: Global,
    op: ScalarOp,
    kinds: &[Kind],
) -> Result<Option<Kind>, AllocError>
    ensures { IfOk result (λ kind. kind ≡ kind_by_operands op kinds.now) }
{
    match kinds {
        [] => Ok(operator_kind(op, &[])),
        [first, rest @ ..] => {
            let mut counted = counted_kinds(alloc, op, rest)?;
            counted.insert(0, *first)?;
            Ok(operator_kind(op, &counted))
        }
    }
}
