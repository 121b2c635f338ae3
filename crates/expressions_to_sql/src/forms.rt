// How calls of operators are written.
//
// An operator stands where the grammar of SQL has it (`is_binary`, `is_unary` of `sql_tree`): no second table says
// so.
ghost use Rattle.std.specs.Prelude.{◌≡◌};
ghost use Rattle.expressions_to_sql.specs.CallForms.{HasCount, at_count, set_at, form_at};

use vtl_cell::ScalarOp;

/// How a call of an operator is written.
#[derive(Clone, Copy)]
pub(crate) enum CallForm {
    /// `a IS NULL`
    NullTest,
    /// `a IN (..)`, or `a NOT IN (..)` where it is negated
    Set {
        /// With `NOT`.
        negated: bool,
    },
    /// `CASE WHEN a THEN b ELSE c END`
    Choice,
    /// `REPLACE(a, b, '')`
    Removal,
    /// Between the operands.
    Between,
    /// Before the operand.
    Before,
    /// Before operands in brackets.
    InBrackets,
}

// A form that asks for so many operands.
fn at_count(wanted: usize, count: usize, form: CallForm) -> CallForm
    ensures { result ≡ at_count wanted count form }
{
    if count == wanted {
        form
    } else {
        CallForm::InBrackets
    }
}

// A set behind an operand.
fn set(count: usize, negated: bool) -> CallForm
    ensures { result ≡ set_at count negated }
{
    if count > 0 {
        CallForm::Set { negated }
    } else {
        CallForm::InBrackets
    }
}

/// How a call of an operator on so many operands is written.
pub(crate) fn form_at(op: ScalarOp, count: usize) -> CallForm
    ensures form { result ≡ form_at op count }
    ensures count { HasCount result count }
{
    match op {
        ScalarOp::IsNull => at_count(1, count, CallForm::NullTest),
        ScalarOp::In => set(count, false),
        ScalarOp::NotIn => set(count, true),
        ScalarOp::If => at_count(3, count, CallForm::Choice),
        ScalarOp::Replace => at_count(2, count, CallForm::Removal),
        ScalarOp::Not | ScalarOp::Identity | ScalarOp::Negate => {
            at_count(1, count, CallForm::Before)
        }
        ScalarOp::Or
        | ScalarOp::Xor
        | ScalarOp::And
        | ScalarOp::Equal
        | ScalarOp::NotEqual
        | ScalarOp::Less
        | ScalarOp::LessOrEqual
        | ScalarOp::Greater
        | ScalarOp::GreaterOrEqual
        | ScalarOp::Add
        | ScalarOp::Subtract
        | ScalarOp::Concat
        | ScalarOp::Multiply
        | ScalarOp::Divide => at_count(2, count, CallForm::Between),
        _ => CallForm::InBrackets,
    }
}
