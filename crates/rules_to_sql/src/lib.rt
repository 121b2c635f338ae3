//! Translates rules: ruleset calls of VTL, and `check`, as queries of the SQL dialect, and says what these queries mean.
//!
//! A datapoint ruleset becomes one query with a select for each of its rules, so that all of them are evaluated in one table
//! and in one phase of each select: the truth value of a rule stands in WHERE alone, or in items alone. `check` is one select.
//! This crate decides how a truth value is written and where errors stand; what a rule means it takes from `vtl_rulings`, how
//! a condition is written from `expressions_to_sql`, and what a select means from `selects_to_sql`.
//! It knows no tree of an expression on data sets, no script, and no program that runs either language.
//! Begin with specs/Conditions.antt, PointQueries.antt and CheckQueries.antt, then `point_queries.rt`, and proofs/Composed.antt,
//! by which the tables of a call mean it.
#![tactic(auto)]

mod check_queries;
mod conditions;
mod errors;
mod point_queries;

pub use check_queries::{check_query, imbalance_query};
pub use conditions::{choice, denied};
pub use errors::{code, level, level_as, no_code, no_level, text_as};
pub use point_queries::datapoint_query;
