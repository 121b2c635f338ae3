//! Data sets in tables: a structure, and a table of its points.
//!
//! It stands apart so that reading files, evaluating and every back end that runs scripts share one kind of data set.
//! It decides which columns the table of a structure has, and what it is for a table to be that of a data set; a
//! `DataSet` cannot be made from any other table. What operators make of data sets is left to others.
//! It knows no operator, no rule of typing, no script, no file and no text format.
//! Begin with specs/TableOf, then `data_set.rt`.
#![tactic(auto)]

mod columns;
mod data_set;

pub use columns::{new_table, table_column, table_columns};
pub use data_set::DataSet;
