//! Selects over the tables that stand for data sets, and what they mean.
//!
//! A form of expression on data sets becomes a select over one table or over two, of rows or of groups of them. This crate
//! decides what such a select is made of, how tables are named, and what it is for tables that are made one after the other to
//! stand for data sets; the crates above make of it joins, groups and windows, sets and scripts. How a component expression is
//! written it leaves to `expressions_to_sql`.
//! It knows no tree of an expression on data sets, no statement of VTL, and no program that runs either language.
//! Begin with specs/Queries.antt, Tables.antt and Means.antt, then `queries.rt` and `draft.rt`.
#![tactic(auto)]

mod conditions;
mod draft;
mod groups;
mod items;
mod named_items;
mod pair_items;
mod pair_queries;
mod queries;
mod writer;

pub use conditions::{agreement, all_of, between, name_of_first, when};
pub use draft::Draft;
pub use groups::{aggregate, group_columns, group_of, grouped, has_rows};
pub use items::{own_items, push_item, renamed_items, target_named};
pub use named_items::{push_next, push_own};
pub use pair_queries::{Operand, choose_query, from_two, pair_query};
pub use queries::{
    calc_query, filter_query, from_one, from_table, left_query, measures_query, no_query,
    one_select, rename_query, sub_query, two_selects,
};
pub use writer::Writer;
