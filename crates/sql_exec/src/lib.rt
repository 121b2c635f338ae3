//! The engine of queries, on tables that the program holds.
//!
//! It decides how a select is carried out on the rows that FROM and WHERE keep, in two phases, and how the selects of a
//! UNION ALL become one table, with the fault of all of them. The rows of FROM and WHERE come from `sql_from`, groups
//! from `sql_groups`, the values of windows from `sql_window`, those of expressions from `sql_eval`.
//! It knows no statement, no script, no rule of typing, and nothing of VTL.
//! Begin with specs/Answers.antt and specs/Items.antt, then `queries.rt`, `selects.rt` and `items.rt`.
#![tactic(auto)]

mod columns;
mod from_each;
mod gathered;
mod item_cells;
mod items;
mod output;
mod planned;
mod queries;
mod selects;
mod simple_items;
mod window_kinds;

pub use queries::{exec, source_rows};
