//! The time operators of VTL in SQL, and what their selects mean.
//!
//! `timeshift` is one select over the operand's table. The others have a table of their own first: `fill_time_series` the
//! identifiers of the points of the filled series, `flow_to_stock` and `stock_to_flow` the totals and the previous values of
//! the points of each frequency; the result is a join of that table with the operand's. This crate decides what these tables
//! are made of; what a select over tables is it leaves to `selects_to_sql`, and what a left join with identifiers is to
//! `joins_to_sql`.
//! It knows no tree of an expression on data sets but the operators that it translates, and no script.
//! Begin with specs/Shifts.antt, Fills.antt, Flows.antt and TimeTables.antt, then `time_queries.rt`.
#![tactic(auto)]

mod columns;
mod fill_queries;
mod flow_queries;
mod parts_queries;
mod shift_queries;
mod stock_queries;
mod time_queries;

pub use time_queries::time_query;
