// Where an expression may stand.

/// A place of the grammar, the one that binds tightest first. What may stand at one place may stand at each later one.
#[derive(Clone, Copy, Debug, PartialEq, Eq)]
pub enum Level {
    /// A name, a constant, brackets, a call or a join.
    Primary,
    /// With clauses and members after it.
    Postfix,
    /// With signs or `not` before it.
    Unary,
    /// `*` and `/`
    Multiply,
    /// `+`, `-` and `||`
    Add,
    /// Comparisons, `in` and `not_in`.
    Compare,
    /// `and`
    And,
    /// `or` and `xor`
    Or,
    /// Any expression, including a choice.
    Expression,
}
