//! Aggregates and analytic calls on typed operands: of the measures of a data set, of a component over groups, over
//! windows.
//!
//! It decides which of them may stand where (`AggregateMisuse` and `AnalyticMisuse`), what they ask of measures, and
//! what they give. It is independent of `check_clauses`: neither calls the other, and what they share is in the crates
//! below. It walks no tree and computes no aggregate.
//! Begin with specs/Aggregates.antt, then Windowed.antt.
#![tactic(auto)]

mod aggregates;
mod arguments;
mod calc_targets;
mod call_windows;
mod calls;
mod kinds;
mod over_kinds;
mod over_nodes;
mod windowed;

pub use aggregates::{aggregate, aggregate_value, count_call};
pub use calc_targets::target;
pub use calls::{Call, Needed};
pub use windowed::over;
