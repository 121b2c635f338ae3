//! The engine of the SQL dialect: runs typed scripts over tables.
//!
//! It carries out the CREATEs of a script in order, each by `sql_exec`, lets go of the rows that no later statement
//! reads, and gives the exports in their order. It decides which structure an INPUT declares and what a fault is named.
//! How a query is planned and carried out is left to `sql_plan` and `sql_exec`.
//! It knows no text of a script, no rule of typing, no file, and nothing of VTL but its structures.
//! Begin with specs/Runs.antt, then `engine.rt` and `made_tables.rt`.
#![tactic(auto)]

mod engine;
mod exports;
mod expression_reads;
mod faults;
mod last_reads;
mod laws;
mod letting_go;
mod made_tables;
mod orders;
mod query_reads;
mod statements;
mod structures;

pub use engine::{run, run_as_made};
pub use laws::{inputs_are_data_sets, queries_depend_on_what_they_read};
pub use structures::{not_null_of, structure_of};
