// The operators on values and on lists of values.
ghost use Rattle.std.specs.Prelude.{◌≡◌};

/// A scalar operator (VTL 2.0, Reference Manual, by the operators' names).
#[derive(Clone, Copy, Debug, PartialEq, Eq)]
pub enum ScalarOp {
    /// `+a`: the operand
    Identity,
    /// `-a`: the operand with its sign changed
    Negate,
    /// `a + b`
    Add,
    /// `a - b`
    Subtract,
    /// `a * b`
    Multiply,
    /// `a / b`
    Divide,
    /// `mod(a, b)`
    Modulo,
    /// `abs(a)`
    Absolute,
    /// `floor(a)`
    Floor,
    /// `ceil(a)`
    Ceil,
    /// `round(a, d)`
    Round,
    /// `trunc(a, d)`
    Truncate,
    /// `a || b`
    Concat,
    /// `trim(a)`
    Trim,
    /// `ltrim(a)`
    TrimLeft,
    /// `rtrim(a)`
    TrimRight,
    /// `substr(a, i)` and `substr(a, i, l)`
    Substring,
    /// `replace(a, p)` and `replace(a, p, r)`
    Replace,
    /// `instr(a, p)`
    Position,
    /// `length(a)`
    Length,
    /// `a = b`
    Equal,
    /// `a <> b`
    NotEqual,
    /// `a < b`
    Less,
    /// `a <= b`
    LessOrEqual,
    /// `a > b`
    Greater,
    /// `a >= b`
    GreaterOrEqual,
    /// `between(a, x, y)`
    Between,
    /// `a in {x, y}`: the first operand, then the members of the set
    In,
    /// `a not_in {x, y}`: the first operand, then the members of the set
    NotIn,
    /// `a and b`
    And,
    /// `a or b`
    Or,
    /// `a xor b`
    Xor,
    /// `not a`
    Not,
    /// `isnull(a)`
    IsNull,
    /// `nvl(a, x)`
    ValueOr,
    /// `if c then a else b`
    If,
    /// The period so many places later in its frequency, or earlier for a negative number; VTL has no spelling.
    PeriodShift,
    /// The letter of a period's frequency, as a text: `A`, `S`, `Q` or `M`; VTL has no spelling.
    PeriodFrequency,
}

/// An operator on the values of a group.
#[derive(Clone, Copy, Debug, PartialEq, Eq)]
pub enum AggKind {
    /// The exact total.
    Sum,
    /// The exact total divided by the count.
    Avg,
    /// How many values there are.
    Count,
    /// The least value.
    Min,
    /// The greatest value.
    Max,
    /// The middle value, or half the sum of the two middle ones.
    Median,
}
