//! What five definitions of the SQL dialect say, in the words of a reader: the place of a row in a window, the rows of a
//! join, the kinds of a union's columns, what a plan lists, and how many steps a join may take. Laws alone; no code.
//!
//! The definitions are shaped for proofs: they count from behind, join items of any type, fold over selects, and walk
//! with a counter. Each law says that such a definition is what one would write down at once. They stand apart, since no
//! other proof needs them: no crate stands on this one, so that a better wording costs nothing.
//! It knows definitions alone: no program that evaluates, plans or types, no file, nothing of VTL.
//! Begin with specs/Places.antt, Joins.antt, Columns.antt and Listed.antt, and src/windows.rt.
#![tactic(auto)]

mod joins;
mod plans;
mod steps;
mod unions;
mod windows;

pub use joins::{equality_joins_pair_equal_cells, joins_are_pairs_and_what_meets_none};
pub use plans::{early_parts_are_chosen_part_by_part, equality_joins_are_chosen_join_by_join};
pub use steps::one_join_takes_its_rows_and_those_it_gives;
pub use unions::columns_of_unions_have_common_kinds;
pub use windows::rows_stand_behind_those_before_them;
