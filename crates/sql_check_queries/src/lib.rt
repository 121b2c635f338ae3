//! The typing of the SQL dialect's selects and queries: sources and their joins, groups, items, and the columns of
//! a union; with the least rule that is broken.
//!
//! It builds the scope of each select from the left and asks `sql_check_expressions` for each condition and item;
//! the columns that a query gives are those that later statements see.
//! It knows no statement (`sql_check` puts tables in and takes columns out), no rows, and nothing of VTL.
//! Begin with sql_check_parts/specs/Queries.antt, then specs/Told.antt.
//!
//! A typed query and a whole one: typed is what one select needs to be carried out; whole has besides no column that
//! is null alone, as a CREATE needs.
#![tactic(auto)]

mod groups;
mod items;
mod queries;
mod selects;
mod sources;
mod unions;

pub use groups::is_grouped;
pub use queries::{QueryTold, query};
pub use sources::join_source;
pub use unions::{all_some, share_kinds};
