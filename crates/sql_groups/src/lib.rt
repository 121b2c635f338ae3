//! Grouped selects of the SQL dialect: GROUP BY, HAVING, aggregates and the items of groups, over the rows of FROM that
//! WHERE keeps.
//!
//! Rows are grouped in the table of their only source where it is lent, and else in a table of their keys; a group is the
//! numbers of its rows, whose cells are lent, and its key is read from the first of them. It decides in which order groups
//! come, by their first rows, and which of several faults is the answer. FROM and WHERE, and EXISTS, are left to `sql_from`,
//! values to `sql_eval`, what an aggregate gives to `vtl_agg`; the fault of FROM and WHERE comes before all that is done here.
//! It knows no other selects, no union, no statement, no window, and nothing of VTL.
//! Begin with `push_grouped` in `select.rt` and specs/Items.antt, then specs/Grouped.antt and `grouping.rt`.
#![tactic(auto)]

mod asked;
mod group_partners;
mod group_row;
mod grouping;
mod items;
mod laws;
mod resolving;
mod rows;
mod select;
mod totals;

pub use laws::items_are_lifted_to_columns;
pub use select::push_grouped;
