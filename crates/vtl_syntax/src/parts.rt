// Parts of expressions and rules that hold no expression.

use crate::{Addition, CastKind, Direction, Filling, GroupKind, Side};
use vtl_text::{List, Txt};

/// The name of a component.
#[derive(Debug, Drop)]
pub enum Comp {
    /// A word that is not reserved.
    Name(Txt),
    /// A name between two `'`, without them.
    Quoted(Txt),
}

/// An unsigned number, as its characters.
#[derive(Debug, Drop)]
pub enum Numeral {
    /// Digits.
    Integer(Txt),
    /// Digits, a point and digits.
    Decimal(Txt),
}

/// A constant of an expression.
#[derive(Debug, Drop)]
pub enum Constant {
    /// A number.
    Number(Numeral),
    /// A text, without the `"` around it.
    String(Txt),
    /// `true` or `false`.
    Boolean(bool),
    /// `null`
    Null,
    /// `cast(text, kind)`
    Cast { text: Txt, kind: CastKind },
}

/// A value of a list of values.
#[derive(Debug, Drop)]
pub enum Literal {
    /// A number, after a `-` where it is negative.
    Number { negative: bool, numeral: Numeral },
    /// A text, without the `"` around it.
    String(Txt),
    /// `true` or `false`.
    Boolean(bool),
    /// `cast(text, kind)`
    Cast { text: Txt, kind: CastKind },
}

/// A component, or a component of a named operand.
#[derive(Debug, Drop)]
pub enum Reference {
    /// `comp`
    Component(Comp),
    /// `name#comp`
    Member { operand: Txt, component: Comp },
}

/// `from to name`
#[derive(Debug, Drop)]
pub struct RenamePart {
    /// What is renamed.
    pub from: Reference,
    /// The new name.
    pub to: Comp,
}

/// `component = value`
#[derive(Debug, Drop)]
pub struct SubPart {
    /// The identifier.
    pub component: Comp,
    /// Its value.
    pub value: Literal,
}

/// `keep references` or `drop references`
#[derive(Debug, Drop)]
pub enum Keeping {
    /// `keep references`
    Keep(List<Reference>),
    /// `drop references`
    Drop(List<Reference>),
}

/// `group by names` or `group except names`
#[derive(Debug, Drop)]
pub struct GroupPart {
    /// Whether the names stay or go.
    pub kind: GroupKind,
    /// The names.
    pub names: List<Comp>,
}

/// A key of an order.
#[derive(Debug, Drop)]
pub struct OrderPart {
    /// The component.
    pub component: Comp,
    /// Its direction, where one is written.
    pub direction: Option<Direction>,
}

/// A bound of a frame.
#[derive(Debug, Drop)]
pub enum Limit {
    /// `unbounded side`
    Unbounded(Side),
    /// `points side`
    Points { points: Txt, side: Side },
    /// `current data point`
    Current,
}

/// `data points between from and to`
#[derive(Debug, Drop)]
pub struct DataPoints {
    /// The first bound.
    pub from: Limit,
    /// The last bound.
    pub to: Limit,
}

/// `over (partition by names order by keys points)`
#[derive(Debug, Drop)]
pub struct OverPart {
    /// The names of `partition by`.
    pub partition: Option<List<Comp>>,
    /// The keys of `order by`.
    pub order: Option<List<OrderPart>>,
    /// The frame.
    pub points: Option<DataPoints>,
}

/// A time operator with what it is given behind its operand.
#[derive(Debug, Drop)]
pub enum TimeCall {
    /// `timeshift`, with the digits of a number of periods, after a `-` where it is negative
    Timeshift { negative: bool, periods: Txt },
    /// `fill_time_series`, with how far it fills where that is written
    FillTimeSeries(Option<Filling>),
    /// `flow_to_stock`
    FlowToStock,
    /// `stock_to_flow`
    StockToFlow,
}

/// `errorcode code errorlevel level`
#[derive(Debug, Drop)]
pub struct ErrorPart {
    /// The text of the code.
    pub code: Option<Txt>,
    /// The digits of the level.
    pub level: Option<Txt>,
}

/// An item of a hierarchical rule with its sign.
#[derive(Debug, Drop)]
pub struct SignedComp {
    /// Its sign.
    pub sign: Addition,
    /// The item.
    pub item: Comp,
}
