// Windows.

use crate::{Column, Direction, Literal, ShiftFunction, Side, ValueFunction};
use vtl_cell::AggKind;
use vtl_text::{List, Txt};

/// `call OVER (over)`
#[derive(Drop)]
pub struct Window {
    /// What is computed.
    pub call: WindowCall,
    /// Over which rows.
    pub over: Over,
}

/// What a window computes.
#[derive(Drop)]
pub enum WindowCall {
    /// `function(column)`, with an aggregate other than the median
    Aggregate {
        function: AggKind,
        column: Column,
    },
    /// `function(column)`
    Value {
        function: ValueFunction,
        column: Column,
    },
    /// `function(column, rows, default)`; `NULL` where there is no default
    Shift {
        function: ShiftFunction,
        column: Column,
        rows: Txt,
        default: Option<Literal>,
    },
    /// `RANK()`
    Rank,
}

/// `PARTITION BY partition ORDER BY order ROWS BETWEEN ..`
#[derive(Drop)]
pub struct Over {
    /// The columns on which the rows of a partition agree; none where no PARTITION BY is written.
    pub partition: List<Column>,
    /// How a partition is sorted; none where no ORDER BY is written.
    pub order: List<WindowKey>,
    /// The rows of the partition that are seen from a row, where they are limited.
    pub frame: Option<Frame>,
}

/// `column direction`
#[derive(Drop)]
pub struct WindowKey {
    /// The column.
    pub column: Column,
    /// The direction, where one is written.
    pub direction: Option<Direction>,
}

/// `ROWS BETWEEN first AND last`
#[derive(Drop)]
pub struct Frame {
    /// The first row.
    pub first: Bound,
    /// The last row.
    pub last: Bound,
}

/// An end of a frame.
#[derive(Drop)]
pub enum Bound {
    /// `UNBOUNDED side`
    Unbounded(Side),
    /// `count side`
    Rows { count: Txt, side: Side },
    /// `CURRENT ROW`
    CurrentRow,
}
