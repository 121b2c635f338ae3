// What the operators on data sets are given besides their operands.

use crate::{AggCall, AnalyticOp, CalcItem, CompExpr, Role, Window};
use vtl_cell::AggKind;
use vtl_syntax::{BasicOut, JoinKind};
use vtl_text::{List, Txt};

/// What an aggregate operator makes of each group.
#[derive(Drop)]
pub struct AggSpec {
    /// What is made.
    pub items: AggItems,
    /// The grouping identifiers, in the operand's order.
    pub grouping: List<Txt>,
    /// The condition of the groups, where one is written.
    pub having: Option<CompExpr>,
}

/// What is made of each group.
#[derive(Drop)]
pub enum AggItems {
    /// An aggregate of each measure; for `count` the number of points.
    Measures(AggKind),
    /// The targets of `aggr`.
    Targets(List<AggTarget>),
}

/// A target of `aggr`.
#[derive(Drop)]
pub struct AggTarget {
    /// The role, where one is written.
    pub role: Option<Role>,
    /// The name of the component that is made.
    pub target: Txt,
    /// Its value.
    pub call: AggCall,
}

/// What an analytic operator makes of each point.
#[derive(Drop)]
pub enum AnalyticSpec {
    /// A value for each measure.
    Measures { op: AnalyticOp, window: Window },
    /// A clause `calc` with an analytic call among its targets.
    Calc(List<CalcItem>),
}

/// A kind of join, with the identifiers on which its operands meet.
#[derive(Drop)]
pub struct JoinSpec {
    /// The kind.
    pub kind: JoinKind,
    /// The names of `using`, where they are written.
    pub using: Option<List<Txt>>,
}

/// What `check` gives.
#[derive(Drop)]
pub struct CheckSpec {
    /// The text of an error, where one is written.
    pub errorcode: Option<Txt>,
    /// The level of an error, where one is written.
    pub errorlevel: Option<i64>,
    /// The points that it gives.
    pub output: BasicOut,
}
