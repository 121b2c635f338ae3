//! Joins of VTL in SQL: one select over all operands, and what it means.
//!
//! An inner, left or cross join is one select, each operand a source behind those before it; a full join has first the
//! identifiers of all operands in a table of their own. This crate decides in what order operands stand and how they are
//! tied; what a select over tables is it leaves to `selects_to_sql`.
//! It knows no tree of an expression on data sets and no script: operands are structures, with the names of their tables.
//! Begin with specs/Joins.antt, FullJoins.antt and JoinTables.antt, then `all_joins.rt`.
#![tactic(auto)]

mod all_joins;
mod full_joins;
mod join_items;
mod join_operands;
mod join_queries;

pub use all_joins::{filtered_join_query, join_query};
pub use full_joins::{full_query, key_structure, keys_query, once_query};
pub use join_items::all_tied;
