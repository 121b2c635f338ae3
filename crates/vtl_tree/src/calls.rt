// Calls over groups, over windows and over series.

use vtl_cell::Cell;
use vtl_syntax::Filling;
use vtl_text::{List, Txt};

/// An analytic call: a value of each point from the points of its window.
#[derive(Drop)]
pub struct AnalyticCall {
    /// The operator.
    pub op: AnalyticOp,
    /// The component, or none for `rank`.
    pub component: Option<Txt>,
    /// The window.
    pub window: Window,
}

/// An analytic operator.
#[derive(Drop)]
pub enum AnalyticOp {
    /// `sum`
    Sum,
    /// `avg`
    Avg,
    /// `count`
    Count,
    /// `min`
    Min,
    /// `max`
    Max,
    /// `first_value`
    FirstValue,
    /// `last_value`
    LastValue,
    /// `rank`
    Rank,
    /// `ratio_to_report`
    RatioToReport,
    /// `lag`: the value this many points before, or the default
    Lag { offset: u32, default: Cell },
    /// `lead`: the value this many points after, or the default
    Lead { offset: u32, default: Cell },
}

/// The points that an analytic call sees from a point.
#[derive(Drop)]
pub struct Window {
    /// The components on which the points of a partition agree.
    pub partition: List<Txt>,
    /// The order of a partition.
    pub order: List<OrderKey>,
    /// The frame, where one is written.
    pub frame: Option<Frame>,
}

/// A key of the order of a partition.
#[derive(Drop)]
pub struct OrderKey {
    /// The component.
    pub component: Txt,
    /// Whether the greatest value stands first.
    pub falling: bool,
}

/// A part of a partition.
#[derive(Clone, Copy, Debug, PartialEq, Eq)]
pub struct Frame {
    /// Its first place.
    pub start: Bound,
    /// Its last place.
    pub end: Bound,
}

/// A place in a partition, as seen from a point.
#[derive(Clone, Copy, Debug, PartialEq, Eq)]
pub enum Bound {
    /// The place of the first point.
    UnboundedPreceding,
    /// This many places before.
    Preceding(u32),
    /// The place of the point.
    Current,
    /// This many places after.
    Following(u32),
    /// The place of the last point.
    UnboundedFollowing,
}

/// A time operator with what it is given besides its operand.
#[derive(Clone, Copy, Debug, PartialEq, Eq)]
pub enum TimeOp {
    /// `timeshift`: so many periods later, or earlier where the number is negative
    Shift(i64),
    /// `fill_time_series`
    Fill(Filling),
    /// `flow_to_stock`
    FlowToStock,
    /// `stock_to_flow`
    StockToFlow,
}
