// The scalar operators that signs and functions stand for.
ghost use Rattle.std.specs.Prelude.{◌≡◌};
ghost use Rattle.check_values.specs.Operators.{of_binary, of_function, of_unary, takes};

use vtl_cell::ScalarOp;
use vtl_syntax::{BinaryOp, FunctionName, UnaryOp};

/// The scalar operator of a sign between two operands.
pub fn binary_operator(sign: BinaryOp) -> ScalarOp
    ensures { result ≡ of_binary sign }
{
    match sign {
        BinaryOp::Or => ScalarOp::Or,
        BinaryOp::Xor => ScalarOp::Xor,
        BinaryOp::And => ScalarOp::And,
        BinaryOp::Equal => ScalarOp::Equal,
        BinaryOp::NotEqual => ScalarOp::NotEqual,
        BinaryOp::Less => ScalarOp::Less,
        BinaryOp::LessOrEqual => ScalarOp::LessOrEqual,
        BinaryOp::Greater => ScalarOp::Greater,
        BinaryOp::GreaterOrEqual => ScalarOp::GreaterOrEqual,
        BinaryOp::Add => ScalarOp::Add,
        BinaryOp::Subtract => ScalarOp::Subtract,
        BinaryOp::Concat => ScalarOp::Concat,
        BinaryOp::Multiply => ScalarOp::Multiply,
        BinaryOp::Divide => ScalarOp::Divide,
    }
}

/// The scalar operator of a sign before its operand.
pub fn unary_operator(sign: UnaryOp) -> ScalarOp
    ensures { result ≡ of_unary sign }
{
    match sign {
        UnaryOp::Plus => ScalarOp::Identity,
        UnaryOp::Minus => ScalarOp::Negate,
        UnaryOp::Not => ScalarOp::Not,
    }
}

/// The scalar operator of a function.
pub fn function_operator(function: FunctionName) -> ScalarOp
    ensures { result ≡ of_function function }
{
    match function {
        FunctionName::Abs => ScalarOp::Absolute,
        FunctionName::Floor => ScalarOp::Floor,
        FunctionName::Ceil => ScalarOp::Ceil,
        FunctionName::Round => ScalarOp::Round,
        FunctionName::Trunc => ScalarOp::Truncate,
        FunctionName::Mod => ScalarOp::Modulo,
        FunctionName::Trim => ScalarOp::Trim,
        FunctionName::Ltrim => ScalarOp::TrimLeft,
        FunctionName::Rtrim => ScalarOp::TrimRight,
        FunctionName::Substr => ScalarOp::Substring,
        FunctionName::Replace => ScalarOp::Replace,
        FunctionName::Instr => ScalarOp::Position,
        FunctionName::Length => ScalarOp::Length,
        FunctionName::Isnull => ScalarOp::IsNull,
        FunctionName::Nvl => ScalarOp::ValueOr,
        FunctionName::Between => ScalarOp::Between,
    }
}

/// Whether a function takes this many operands.
pub fn takes(function: FunctionName, operands: usize) -> bool
    ensures { result ≡ takes function operands }
{
    match function {
        FunctionName::Abs | FunctionName::Floor | FunctionName::Ceil => operands == 1,
        FunctionName::Trim | FunctionName::Ltrim | FunctionName::Rtrim => operands == 1,
        FunctionName::Length | FunctionName::Isnull => operands == 1,
        FunctionName::Round | FunctionName::Trunc | FunctionName::Mod => operands == 2,
        FunctionName::Instr | FunctionName::Nvl => operands == 2,
        FunctionName::Substr | FunctionName::Replace => operands == 2 || operands == 3,
        FunctionName::Between => operands == 3,
    }
}
