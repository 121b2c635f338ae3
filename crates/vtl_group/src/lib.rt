//! Aggregates of data sets: operators on the measures over groups, and the clause `aggr`.
//!
//! It decides how groups are gone over: their rows are found at once, and then each group is taken in turn, with one
//! accumulator for one column after the other. What groups, their values and their faults are is defined in
//! `vtl_meaning`; the structure of a result is decided where scripts are checked, and passed in.
//! It knows no script, no statement, no file, no window and no text format.
//! Begin with specs/Calls.antt, then `calls.rt`, `condition.rt`, `recipe.rt` and `aggregation.rt`.
#![tactic(auto)]

mod aggregation;
mod calls;
mod condition;
mod recipe;

pub use aggregation::aggregate;
