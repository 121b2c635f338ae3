//! What checks and hierarchies mean: `check`, `check_datapoint`, `check_hierarchy` and `hierarchy`. Definitions and their
//! laws; it has no code.
//!
//! A check gives a truth value at each point, or at each rule and point; which points an output shows, and which cells
//! stand behind their identifiers, is said once for all checks (specs/Outputs.antt). Conditions say which structure a
//! result has (specs/Shaped.antt, HierarchyShapes.antt), not how typing found it.
//! What a mode makes of items is one table (specs/Modes.antt); a hierarchy is defined by recursion over how deep items
//! depend on one another (specs/Hierarchies.antt), so no definition speaks of the order in which rules are run.
//! It knows no tables, no files and no program: `vtl_rules` computes checks.
//! Begin with specs/Outputs.antt, PointChecks.antt and Shaped.antt, then Modes.antt; proofs/Examples.antt and
//! HierarchyExamples.antt work them out.
#![tactic(auto)]

mod laws;

pub use laws::{
    checks_are_of_the_profile, checks_do_not_see_order, checks_keep_data_sets,
    each_rule_is_at_each_point, hierarchies_do_not_see_order, hierarchies_keep_data_sets,
    invalid_is_what_is_false, runs_in_order_are_the_recursion,
};
