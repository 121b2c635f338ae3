//! Joins of data sets: operands that come one after the other, and the joined set, which is made of all of them at once.
//!
//! It decides how the points that go together are found, by which rows a join is led, and how the cells of a result are
//! gathered, each of them once. What a join is, is defined in `vtl_meaning` (specs/Joined.antt) over all operands at once;
//! the structure of the result is decided where scripts are checked, and passed in.
//! It knows no clause of a join's body, no expression, no script, no file and no text format.
//! Begin with specs/Joining.antt and `joined.rt`, then `closing.rt`; specs/Finding.antt says which rows are found.
//!
//! A join is evaluated on row numbers: each operand is found by one look-up a row of the reference, a number past the
//! last row is a missing part, and each cell of the result is copied once. A full join first makes the table of all
//! identifiers, with a spare column, so that operands without identifiers are no case of their own. `step` only
//! collects, so that no product larger than the result is made whatever the order of the operands. Who wants the points
//! of a join a few at a time gathers those of some tuples at a time: he makes them for a cross join (`product`), and is given
//! them for an inner or a left one (`parts_beside`).
#![tactic(auto)]

mod closing;
mod columns;
mod crossing;
mod found_rows;
mod gathering;
mod joined;
mod keys;
mod reference;
mod sources;
mod tuples;

pub use closing::{BesideParts, close, parts_beside, product};
pub use gathering::Gathering;
pub use joined::{Joined, Operand, open, step};
