//! Tables: columns, and rows of cells, which contracts see as the list of the rows, and nothing of how cells are kept.
//!
//! All cells of a table stand in pages, row after row. Sorting and the test of a key are fast by guesses and hashes, and right
//! whatever these give; no choice of cells makes them slow. `SharedTable` has several owners, `Tables` holds tables
//! by name.
//! It knows a column's name and kind, but no roles, structures or data sets (`vtl_tree`, `vtl_sets`).
//! Begin with specs/Tables.antt and specs/Keys.antt.
#![tactic(auto)]

mod alphabets;
mod cells;
mod column;
mod copies;
mod digits;
mod distinct;
mod gather;
mod guess;
mod laws;
mod order;
mod project;
mod ranking;
mod repeats;
mod runs;
mod seen;
mod shared;
mod table;
mod tables;

pub use column::{Column, SortKey};
pub use gather::{Pick, gather_beside};
pub use laws::{all_columns_end_ties, all_columns_order_rows};
pub use project::are_all;
pub use runs::ranks;
pub use shared::SharedTable;
pub use table::Table;
pub use tables::{Inputs, Outputs, Tables};
