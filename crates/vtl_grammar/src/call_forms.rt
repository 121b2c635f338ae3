// What stands before an opening bracket.

use vtl_syntax::{
    AggregateName, DifferenceName, FunctionName, JoinKind, SetOpName, ShiftName, TimeName,
    ValueWindowName,
};

/// A word that an opening bracket follows, by what may stand in the brackets.
#[derive(Clone, Copy, Debug, PartialEq, Eq)]
pub enum CallForm {
    /// A function.
    Function(FunctionName),
    /// An aggregate.
    Aggregate(AggregateName),
    /// A function over a window.
    ValueWindow(ValueWindowName),
    /// A look back or ahead.
    Shift(ShiftName),
    /// `rank`
    Rank,
    /// A set operator of two or more operands.
    SetOp(SetOpName),
    /// A set operator of two operands.
    Difference(DifferenceName),
    /// `exists_in`
    ExistsIn,
    /// A time operator.
    Time(TimeName),
    /// `check`
    Check,
    /// `check_datapoint`
    CheckDatapoint,
    /// `check_hierarchy`
    CheckHierarchy,
    /// `hierarchy`
    Hierarchy,
    /// A join.
    Join(JoinKind),
    /// `cast`
    Cast,
}
