// Groups of words and signs.

/// An operator between two operands.
#[derive(Clone, Copy, Debug, PartialEq, Eq)]
pub enum BinaryOp {
    /// `or`
    Or,
    /// `xor`
    Xor,
    /// `and`
    And,
    /// `=`
    Equal,
    /// `<>`
    NotEqual,
    /// `<`
    Less,
    /// `<=`
    LessOrEqual,
    /// `>`
    Greater,
    /// `>=`
    GreaterOrEqual,
    /// `+`
    Add,
    /// `-`
    Subtract,
    /// `||`
    Concat,
    /// `*`
    Multiply,
    /// `/`
    Divide,
}

/// An operator before its operand.
#[derive(Clone, Copy, Debug, PartialEq, Eq)]
pub enum UnaryOp {
    /// `+`
    Plus,
    /// `-`
    Minus,
    /// `not`
    Not,
}

/// A function of one to four operands.
#[derive(Clone, Copy, Debug, PartialEq, Eq)]
pub enum FunctionName {
    /// `abs`
    Abs,
    /// `floor`
    Floor,
    /// `ceil`
    Ceil,
    /// `round`
    Round,
    /// `trunc`
    Trunc,
    /// `mod`
    Mod,
    /// `trim`
    Trim,
    /// `ltrim`
    Ltrim,
    /// `rtrim`
    Rtrim,
    /// `substr`
    Substr,
    /// `replace`
    Replace,
    /// `instr`
    Instr,
    /// `length`
    Length,
    /// `isnull`
    Isnull,
    /// `nvl`
    Nvl,
    /// `between`
    Between,
}

/// An aggregate function.
#[derive(Clone, Copy, Debug, PartialEq, Eq)]
pub enum AggregateName {
    /// `sum`
    Sum,
    /// `avg`
    Avg,
    /// `count`
    Count,
    /// `min`
    Min,
    /// `max`
    Max,
    /// `median`
    Median,
}

/// A function over a window with one operand and nothing else.
#[derive(Clone, Copy, Debug, PartialEq, Eq)]
pub enum ValueWindowName {
    /// `first_value`
    FirstValue,
    /// `last_value`
    LastValue,
    /// `ratio_to_report`
    RatioToReport,
}

/// A function that looks a number of points back or ahead.
#[derive(Clone, Copy, Debug, PartialEq, Eq)]
pub enum ShiftName {
    /// `lag`
    Lag,
    /// `lead`
    Lead,
}

/// A set operator of two or more operands.
#[derive(Clone, Copy, Debug, PartialEq, Eq)]
pub enum SetOpName {
    /// `union`
    Union,
    /// `intersect`
    Intersect,
}

/// A set operator of two operands.
#[derive(Clone, Copy, Debug, PartialEq, Eq)]
pub enum DifferenceName {
    /// `setdiff`
    Setdiff,
    /// `symdiff`
    Symdiff,
}

/// A kind of join.
#[derive(Clone, Copy, Debug, PartialEq, Eq)]
pub enum JoinKind {
    /// `inner_join`
    Inner,
    /// `left_join`
    Left,
    /// `full_join`
    Full,
    /// `cross_join`
    Cross,
}

/// How a hierarchical rule takes missing points.
#[derive(Clone, Copy, Debug, PartialEq, Eq)]
pub enum Mode {
    /// `non_null`
    NonNull,
    /// `non_zero`
    NonZero,
    /// `partial_null`
    PartialNull,
    /// `partial_zero`
    PartialZero,
    /// `always_null`
    AlwaysNull,
    /// `always_zero`
    AlwaysZero,
}

/// What `check` gives.
#[derive(Clone, Copy, Debug, PartialEq, Eq)]
pub enum BasicOut {
    /// `invalid`
    Invalid,
    /// `all`
    All,
}

/// What a check by a ruleset gives.
#[derive(Clone, Copy, Debug, PartialEq, Eq)]
pub enum CheckOut {
    /// `invalid`
    Invalid,
    /// `all`
    All,
    /// `all_measures`
    AllMeasures,
}

/// Where the items of a hierarchical rule come from.
#[derive(Clone, Copy, Debug, PartialEq, Eq)]
pub enum HierInput {
    /// `dataset`
    Dataset,
    /// `rule`
    Rule,
    /// `rule_priority`
    RulePriority,
}

/// What `hierarchy` gives.
#[derive(Clone, Copy, Debug, PartialEq, Eq)]
pub enum HierOut {
    /// `computed`
    Computed,
    /// `all`
    All,
}

/// Which points `exists_in` gives.
#[derive(Clone, Copy, Debug, PartialEq, Eq)]
pub enum Retain {
    /// `all`
    All,
    /// `true`
    True,
    /// `false`
    False,
}

/// A time operator.
#[derive(Clone, Copy, Debug, PartialEq, Eq)]
pub enum TimeName {
    /// `timeshift`
    Timeshift,
    /// `fill_time_series`
    FillTimeSeries,
    /// `flow_to_stock`
    FlowToStock,
    /// `stock_to_flow`
    StockToFlow,
}

/// From where to where `fill_time_series` fills a series.
#[derive(Clone, Copy, Debug, PartialEq, Eq)]
pub enum Filling {
    /// `single`: from its own first period to its own last
    Single,
    /// `all`: from the first to the last period of its frequency that any series has
    All,
}

/// A role that a calculated component may be given.
#[derive(Clone, Copy, Debug, PartialEq, Eq)]
pub enum WrittenRole {
    /// `measure`
    Measure,
    /// `attribute`
    Attribute,
}

/// Whether the names of a grouping stay or go.
#[derive(Clone, Copy, Debug, PartialEq, Eq)]
pub enum GroupKind {
    /// `by`
    By,
    /// `except`
    Except,
}

/// A direction of an order.
#[derive(Clone, Copy, Debug, PartialEq, Eq)]
pub enum Direction {
    /// `asc`
    Ascending,
    /// `desc`
    Descending,
}

/// A side of a point.
#[derive(Clone, Copy, Debug, PartialEq, Eq)]
pub enum Side {
    /// `preceding`
    Preceding,
    /// `following`
    Following,
}

/// What a text is cast to.
#[derive(Clone, Copy, Debug, PartialEq, Eq)]
pub enum CastKind {
    /// `date`
    Date,
    /// `time_period`
    TimePeriod,
}

/// How the two sides of a hierarchical rule compare.
#[derive(Clone, Copy, Debug, PartialEq, Eq)]
pub enum Comparison {
    /// `=`
    Equal,
    /// `<`
    Less,
    /// `<=`
    LessOrEqual,
    /// `>`
    Greater,
    /// `>=`
    GreaterOrEqual,
}

/// The sign of an item of a hierarchical rule.
#[derive(Clone, Copy, Debug, PartialEq, Eq)]
pub enum Addition {
    /// `+`
    Plus,
    /// `-`
    Minus,
}

/// How a result is assigned.
#[derive(Clone, Copy, Debug, PartialEq, Eq)]
pub enum AssignKind {
    /// `:=`
    Temporary,
    /// `<-`
    Persistent,
}
