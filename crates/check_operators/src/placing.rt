// Which operators take data sets, and where.
ghost use Rattle.std.specs.Prelude.{◌≡◌};
ghost use Rattle.check_operators.specs.Operators.{is_binary, is_choice, misplaced_rule, outcome_of, takes_dataset, takes_first};
ghost use Rattle.vtl_cell.specs.OperatorKinds.{takes_literals};

use check_faults::Rule;
use vtl_cell::ScalarOp;
use vtl_tree::Outcome;

/// Whether an operator stands between two operands, either of which may be a data set.
pub(crate) fn is_binary(op: ScalarOp) -> bool
    ensures { result ≡ is_binary op }
{
    match op {
        ScalarOp::Add | ScalarOp::Subtract | ScalarOp::Multiply => true,
        ScalarOp::Divide | ScalarOp::Modulo | ScalarOp::Concat => true,
        ScalarOp::Equal | ScalarOp::NotEqual => true,
        ScalarOp::Less | ScalarOp::LessOrEqual => true,
        ScalarOp::Greater | ScalarOp::GreaterOrEqual => true,
        ScalarOp::And | ScalarOp::Or | ScalarOp::Xor => true,
        _ => false,
    }
}

/// Whether the operands of an operator after the first have to be integer literals.
pub(crate) fn takes_literals(op: ScalarOp) -> bool
    ensures { result ≡ takes_literals op }
{
    match op {
        ScalarOp::Round | ScalarOp::Truncate => true,
        ScalarOp::Substring | ScalarOp::PeriodShift => true,
        _ => false,
    }
}

fn takes_first(op: ScalarOp) -> bool
    ensures { result ≡ takes_first op }
{
    match op {
        ScalarOp::Length | ScalarOp::Position | ScalarOp::If => false,
        _ => true,
    }
}

/// Whether an operator takes a data set after this many values.
pub(crate) fn takes_dataset(op: ScalarOp, values: usize) -> bool
    ensures { result ≡ takes_dataset op values }
{
    (takes_first(op) && values == 0) || (is_binary(op) && values == 1)
}

/// Whether an operator is `if`.
pub(crate) fn is_choice(op: ScalarOp) -> bool
    ensures { result ≡ is_choice op }
{
    match op {
        ScalarOp::If => true,
        _ => false,
    }
}

/// Which measures an operator asks for and gives: comparisons and tests want one and give `bool_var`.
pub(crate) fn outcome_of(op: ScalarOp) -> Outcome
    ensures { result ≡ outcome_of op }
{
    match op {
        ScalarOp::Equal | ScalarOp::NotEqual => Outcome::Truth,
        ScalarOp::Less | ScalarOp::LessOrEqual => Outcome::Truth,
        ScalarOp::Greater | ScalarOp::GreaterOrEqual => Outcome::Truth,
        ScalarOp::Between | ScalarOp::In | ScalarOp::NotIn => Outcome::Truth,
        ScalarOp::IsNull => Outcome::Truth,
        _ => Outcome::Each,
    }
}

/// The rule that is broken where a data set stands and the operator takes none.
pub(crate) fn misplaced_rule(number: bool, literals: bool) -> Rule
    ensures { result ≡ misplaced_rule number literals }
{
    match (number, literals) {
        (false, _) => Rule::WrongKind,
        (true, false) => Rule::WrongLiteral,
        (true, true) => Rule::DatasetOrValue,
    }
}
