// Words that each stand for one thing, and the levels of operators.
ghost use Rattle.std.specs.Prelude.{◌≡◌};
ghost use Rattle.sql_tree.specs.Printing.{aggregate_word, direction_word, join_word, kind_word, left_level, op_level, op_word, right_level, rounding_word, shift_word, side_word, span_word, unary_level, value_word};

use sql_lexer::Word;
use sql_tree::{Direction, JoinKind, ShiftFunction, Side, Span, ValueFunction};
use vtl_cell::{AggKind, Kind, ScalarOp};
use vtl_decimal::Rounding;

pub(crate) fn op_word(op: ScalarOp) -> Word
    ensures { result ≡ op_word op }
{
    match op {
        ScalarOp::Identity => Word::Plus,
        ScalarOp::Negate => Word::Minus,
        ScalarOp::Add => Word::Plus,
        ScalarOp::Subtract => Word::Minus,
        ScalarOp::Multiply => Word::Star,
        ScalarOp::Divide => Word::Slash,
        ScalarOp::Modulo => Word::Mod,
        ScalarOp::Absolute => Word::Abs,
        ScalarOp::Floor => Word::Floor,
        ScalarOp::Ceil => Word::Ceil,
        ScalarOp::Round => Word::Round,
        ScalarOp::Truncate => Word::Trunc,
        ScalarOp::Concat => Word::Concat,
        ScalarOp::Trim => Word::Trim,
        ScalarOp::TrimLeft => Word::Ltrim,
        ScalarOp::TrimRight => Word::Rtrim,
        ScalarOp::Substring => Word::Substr,
        ScalarOp::Replace => Word::Replace,
        ScalarOp::Position => Word::Instr,
        ScalarOp::Length => Word::Length,
        ScalarOp::Equal => Word::Equal,
        ScalarOp::NotEqual => Word::NotEqual,
        ScalarOp::Less => Word::Less,
        ScalarOp::LessOrEqual => Word::LessOrEqual,
        ScalarOp::Greater => Word::Greater,
        ScalarOp::GreaterOrEqual => Word::GreaterOrEqual,
        ScalarOp::Between => Word::Between,
        ScalarOp::In => Word::In,
        ScalarOp::NotIn => Word::Not,
        ScalarOp::And => Word::And,
        ScalarOp::Or => Word::Or,
        ScalarOp::Xor => Word::Xor,
        ScalarOp::Not => Word::Not,
        ScalarOp::IsNull => Word::Is,
        ScalarOp::ValueOr => Word::Coalesce,
        ScalarOp::If => Word::Case,
        ScalarOp::PeriodShift => Word::PeriodShift,
        ScalarOp::PeriodFrequency => Word::PeriodFrequency,
    }
}

pub(crate) fn op_level(op: ScalarOp) -> u8
    ensures { result ≡ op_level op }
{
    match op {
        ScalarOp::Or | ScalarOp::Xor => 7,
        ScalarOp::And => 6,
        ScalarOp::Add | ScalarOp::Subtract | ScalarOp::Concat => 3,
        ScalarOp::Multiply | ScalarOp::Divide => 2,
        _ => 4,
    }
}

pub(crate) fn left_level(op: ScalarOp) -> u8
    ensures { result ≡ left_level op }
{
    match op {
        ScalarOp::Or | ScalarOp::Xor => 7,
        ScalarOp::And => 6,
        ScalarOp::Multiply | ScalarOp::Divide => 2,
        _ => 3,
    }
}

pub(crate) fn right_level(op: ScalarOp) -> u8
    ensures { result ≡ right_level op }
{
    match op {
        ScalarOp::Or | ScalarOp::Xor => 6,
        ScalarOp::And => 5,
        ScalarOp::Add | ScalarOp::Subtract | ScalarOp::Concat => 2,
        ScalarOp::Multiply | ScalarOp::Divide => 1,
        _ => 3,
    }
}

pub(crate) fn unary_level(op: ScalarOp) -> u8
    ensures { result ≡ unary_level op }
{
    match op {
        ScalarOp::Not => 5,
        _ => 1,
    }
}

pub(crate) fn aggregate_word(function: AggKind) -> Word
    ensures { result ≡ aggregate_word function }
{
    match function {
        AggKind::Sum => Word::Sum,
        AggKind::Avg => Word::Avg,
        AggKind::Count => Word::Count,
        AggKind::Min => Word::Min,
        AggKind::Max => Word::Max,
        AggKind::Median => Word::Median,
    }
}

pub(crate) fn kind_word(kind: Kind) -> Word
    ensures { result ≡ kind_word kind }
{
    match kind {
        Kind::Null => Word::Null,
        Kind::Bool => Word::Boolean,
        Kind::Int => Word::Integer,
        Kind::Num => Word::Number,
        Kind::Text => Word::Text,
        Kind::Day => Word::Date,
        Kind::Period => Word::Period,
    }
}

pub(crate) fn rounding_word(rounding: Rounding) -> Word
    ensures { result ≡ rounding_word rounding }
{
    match rounding {
        Rounding::HalfUp => Word::HalfUp,
        Rounding::HalfEven => Word::HalfEven,
        Rounding::Down => Word::Down,
    }
}

pub(crate) fn join_word(kind: JoinKind) -> Word
    ensures { result ≡ join_word kind }
{
    match kind {
        JoinKind::Inner => Word::Inner,
        JoinKind::Left => Word::Left,
        JoinKind::Full => Word::Full,
    }
}

pub(crate) fn direction_word(direction: Direction) -> Word
    ensures { result ≡ direction_word direction }
{
    match direction {
        Direction::Ascending => Word::Asc,
        Direction::Descending => Word::Desc,
    }
}

pub(crate) fn side_word(side: Side) -> Word
    ensures { result ≡ side_word side }
{
    match side {
        Side::Preceding => Word::Preceding,
        Side::Following => Word::Following,
    }
}

pub(crate) fn span_word(span: Span) -> Word
    ensures { result ≡ span_word span }
{
    match span {
        Span::Single => Word::Single,
        Span::All => Word::All,
    }
}

pub(crate) fn value_word(function: ValueFunction) -> Word
    ensures { result ≡ value_word function }
{
    match function {
        ValueFunction::FirstValue => Word::FirstValue,
        ValueFunction::LastValue => Word::LastValue,
        ValueFunction::RatioToReport => Word::RatioToReport,
    }
}

pub(crate) fn shift_word(function: ShiftFunction) -> Word
    ensures { result ≡ shift_word function }
{
    match function {
        ShiftFunction::Lag => Word::Lag,
        ShiftFunction::Lead => Word::Lead,
    }
}
