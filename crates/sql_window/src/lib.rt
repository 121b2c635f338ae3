//! Windows of a select of the SQL dialect: the value of a call OVER at each row of FROM that WHERE keeps.
//!
//! The rows are seen as a table, that of their only source where it is lent (`tabled_rows.rt`). They are sorted once, by
//! the columns of PARTITION BY, then by the keys of ORDER BY, then, but for a rank, by all columns; so each partition is a
//! stretch of row numbers in order, over which the call's values are computed (`vtl_frames`), and these are put back at
//! their rows. Rows that are alike are told apart by their numbers.
//! It decides how a window is sorted and cut into partitions; what a window gives is defined in `sql_meaning`.
//! It knows no items, no other selects, and nothing of VTL. What the crate above names of FROM and of groups (`sql_groups`)
//! it passes on.
//! Begin with specs/Runs.antt and `windows.rt`, then `calls.rt`.
#![tactic(auto)]

mod calls;
mod frames;
mod keys;
mod tabled_rows;
mod windows;

pub use tabled_rows::TabledRows;
pub use windows::window_values;
