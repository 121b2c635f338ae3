//! A look-up from keys, which are rows of one width, to the numbers that were added with them, in the order of
//! adding.
//!
//! By hash first and by order where a bucket is full, so no choice of keys makes it slow. Null is a key like any
//! other: a caller that must not match nulls looks before probing. Each call counts one step, for callers that bound
//! their work.
//! `Index` knows no tables: a number is whatever the caller means by it.
//!
//! `Groups` holds which rows have one key, each known by its lead, the first row that has its key. `RowIndex` finds the
//! rows of a table by the cells of listed columns, and keeps no cells; `Seeker` tells the first of them; `Matches` holds
//! what each row of another table finds. Leads are found by hash, by another hash where many keys have like ones, and by
//! a sort where cells were chosen to have like hashes both ways, so no choice of cells makes them slow.
//! Begin with specs/Lookup.antt, then specs/Index.antt; for groups with specs/Leads.antt, then specs/Groups.antt; for
//! keys of tables with specs/RowKeys.antt, then specs/RowIndex.antt, and specs/Seekers.antt for the first row of a key,
//! specs/Matches.antt for the rows of many keys.
#![tactic(auto)]

mod bucket;
mod by_columns;
mod entries;
mod finder;
mod firsts;
mod grouped_rows;
mod groups;
mod index;
mod keys;
mod laws;
mod matches;
mod members;
mod places;
mod row_index;
mod row_keys;
mod row_numbers;
mod row_order;
mod row_slots;
mod seeker;
mod steps;

pub use groups::Groups;
pub use index::{Index, rows_are_those_added};
pub use laws::{each_once_is_a_set, groups_are_keys};
pub use matches::Matches;
pub use row_index::RowIndex;
pub use row_keys::{KeyColumn, KeyForm, NullKeys};
pub use seeker::Seeker;
pub use steps::Steps;
