//! Translates hierarchical rulesets: `check_hierarchy` and `hierarchy` of VTL as queries of the SQL dialect, and says what these
//! queries mean.
//!
//! The combinations of the other identifiers get a table, and each item one with its value at each combination. A rule is a
//! select of the combinations beside the tables of its items. `hierarchy` is the points that rules compute; its output of all
//! points is these and the operand's, as `union` has them, and is put together by the crate above.
//! It knows no tree of an expression on data sets, no script, and no program that runs either language.
//! Begin with specs/SideExps.antt, ItemTables.antt and RuleSelects.antt, then CheckTables.antt and ComputedTables.antt.
#![tactic(auto)]

mod checks;
mod computed;
mod item_tables;
mod rule_selects;
mod sides;

pub use checks::check_hierarchy_query;
pub use computed::computed_points_query;
