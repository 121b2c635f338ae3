// What clauses make and name.

use crate::{AnalyticCall, CompExpr, Role};
use vtl_cell::Cell;
use vtl_text::Txt;

/// A target of `calc`.
#[derive(Drop)]
pub struct CalcItem {
    /// The role, where one is written.
    pub role: Option<Role>,
    /// The name of the component that is made.
    pub target: Txt,
    /// Its value.
    pub value: CalcValue,
}

/// The value of a target of `calc`.
#[derive(Drop)]
pub enum CalcValue {
    /// A value from the components of the point alone.
    Scalar(CompExpr),
    /// A value from the window of the point.
    Analytic(AnalyticCall),
}

/// An identifier and the value at which it is taken.
#[derive(Drop)]
pub struct SubItem {
    /// The identifier.
    pub id: Txt,
    /// The value, of exactly the identifier's kind.
    pub value: Cell,
}
