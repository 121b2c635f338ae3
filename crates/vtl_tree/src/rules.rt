// Rulesets as calls hold them.

use crate::CompExpr;
use vtl_syntax::HierRule;
use vtl_text::{List, Txt};

/// A datapoint ruleset, typed over the components of an operand.
#[derive(Drop)]
pub struct DatapointRules {
    /// The components that its conditions name.
    pub variables: List<Txt>,
    /// The rules, in order.
    pub rules: List<DatapointRule>,
}

/// A rule of a datapoint ruleset.
#[derive(Drop)]
pub struct DatapointRule {
    /// Its name, where one is written.
    pub name: Option<Txt>,
    /// The condition of the points that it speaks of, where one is written.
    pub antecedent: Option<CompExpr>,
    /// What has to hold.
    pub condition: CompExpr,
    /// The text of an error, where one is written.
    pub errorcode: Option<Txt>,
    /// The level of an error, where one is written.
    pub errorlevel: Option<i64>,
}

/// A hierarchical ruleset.
#[derive(Drop)]
pub struct HierRules {
    /// The identifier whose values are the items.
    pub variable: Txt,
    /// The rules, in order.
    pub rules: List<HierRule>,
    /// The order in which they are computed, for `hierarchy`.
    pub order: Option<List<usize>>,
}
