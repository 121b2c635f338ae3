//! What rulesets have to be by themselves, the order in which hierarchical rules are computed, and what calls of rulesets
//! ask of their operand.
//!
//! A definition is tested where it stands (names, levels, identifiers, items); its conditions are typed at each call,
//! which is `check_expressions`' part: the columns that they see are made here. `order` gives the order of the `=` rules,
//! or the items that depend on themselves; `hierarchy_order` is the same as a test of typing. A call has a structure,
//! from the operand's alone.
//! It knows no syntax trees of expressions, no names of scripts and no points.
//! Begin with specs/Definitions.antt, specs/Order.antt and specs/Calls.antt.
#![tactic(auto)]

mod calls;
mod components;
mod conditions;
mod copies;
mod cycle;
mod definitions;
mod items;
mod laws;
mod names;
mod ordering;
mod places;
mod run;

pub use calls::{hierarchy_checked, hierarchy_made, point_checked, variables_known};
pub use conditions::{seen_columns, sees_names};
pub use copies::share_rules;
pub use definitions::{datapoint_defined, hierarchical_defined};
pub use laws::{items_without_order_depend_on_themselves, orders_have_each_rule_in_turn};
pub use ordering::{OrderErr, hierarchy_order, order};
