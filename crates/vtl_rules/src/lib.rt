//! Checks and hierarchies on data sets: `check_datapoint` by a datapoint ruleset, `check`, and `check_hierarchy` and
//! `hierarchy` by a hierarchical ruleset.
//!
//! It decides how rules are gone through: one after the other, each prepared once and evaluated at every point or
//! combination, whatever the output shows. What is meant is defined in `vtl_rulings`; the values of conditions come from
//! `vtl_expr`, the point that another one or an item asks for from `vtl_index`, and the structure of a result and the
//! order in which rules are run are passed in as typing found them.
//! It knows no script, no statement, no file and no text format.
//! Begin with `outputs.rt` and `rulings.rt`, then `datapoints.rt` and `checking.rt`; for hierarchical rules with
//! `items.rt` and `sides.rt`, then `hierarchy_checks.rt` and `hierarchies.rt`.
#![tactic(auto)]

mod checking;
mod datapoints;
mod hierarchies;
mod hierarchy_checks;
mod items;
mod outputs;
mod rulings;
mod sides;

pub use checking::check;
pub use datapoints::check_datapoint;
pub use hierarchies::hierarchy;
pub use hierarchy_checks::check_hierarchy;
