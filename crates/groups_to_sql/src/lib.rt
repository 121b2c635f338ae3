//! Aggregates, analytic operators, `pivot` and `unpivot` of VTL in SQL, and what their selects mean.
//!
//! An aggregate and `pivot` group the rows of a table, an analytic operator is a window over them, and `unpivot` is a select
//! for each measure. This crate decides what is grouped and which rows a window holds; what a select over a table is it leaves
//! to `selects_to_sql`.
//! It knows no tree of an expression on data sets but the calls that it translates, no join and no script.
//! Begin with specs/Grouped.antt, Turned.antt and Windowed.antt, then `grouped_queries.rt`.
#![tactic(auto)]

mod grouped_queries;
mod pivot_queries;
mod unpivot_queries;
mod window_calls;
mod window_frames;
mod window_orders;
mod windowed_queries;
mod windows;

pub use grouped_queries::aggregate_query;
pub use pivot_queries::pivot_query;
pub use unpivot_queries::unpivot_query;
pub use windowed_queries::{analytic_items, analytic_query};
