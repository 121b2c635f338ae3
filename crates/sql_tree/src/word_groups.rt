// Groups of words, one of which stands at a place.

/// Which rows a join with a condition keeps.
#[derive(Clone, Copy, Debug, PartialEq, Eq)]
pub enum JoinKind {
    /// `INNER`: the pairs
    Inner,
    /// `LEFT`: the pairs, and the left rows without one
    Left,
    /// `FULL`: the pairs, and the rows of either side without one
    Full,
}

/// How the rows of a partition are sorted by a column.
#[derive(Clone, Copy, Debug, PartialEq, Eq)]
pub enum Direction {
    /// `ASC`
    Ascending,
    /// `DESC`
    Descending,
}

/// From which period to which one a series goes.
#[derive(Clone, Copy, Debug, PartialEq, Eq)]
pub enum Span {
    /// `SINGLE`: from its own first one to its own last one
    Single,
    /// `ALL`: from the first one to the last one of all rows with its frequency
    All,
}

/// On which side of a row.
#[derive(Clone, Copy, Debug, PartialEq, Eq)]
pub enum Side {
    /// `PRECEDING`
    Preceding,
    /// `FOLLOWING`
    Following,
}

/// A function of a column over a window that is no aggregate.
#[derive(Clone, Copy, Debug, PartialEq, Eq)]
pub enum ValueFunction {
    /// `FIRST_VALUE`
    FirstValue,
    /// `LAST_VALUE`
    LastValue,
    /// `RATIO_TO_REPORT`
    RatioToReport,
}

/// A function that gives the value of another row.
#[derive(Clone, Copy, Debug, PartialEq, Eq)]
pub enum ShiftFunction {
    /// `LAG`: of a row before
    Lag,
    /// `LEAD`: of a later row
    Lead,
}
