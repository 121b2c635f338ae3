//! Analytic operators on data sets: a value for each point from the points of its window.
//!
//! It decides how windows are gone over: the points are sorted once for a call, each partition is taken in turn, and
//! each value is put back at its point. What windows, their values and their faults are is defined in `vtl_meaning`; the
//! structure of a result is decided where scripts are checked, and passed in.
//! It knows no script, no statement, no file and no text format.
//! Begin with specs/Calls.antt, then `values.rt` and `analysis.rt`.
#![tactic(auto)]

mod analysis;
mod call;
mod column;
mod columns;
mod faults;
mod frames;
mod keys;
mod maker;
mod partition;
mod putting_back;
mod values;

pub use analysis::analytic;
