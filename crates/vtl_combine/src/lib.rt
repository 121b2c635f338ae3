//! Operators that put data sets together or turn them: `union`, `intersect`, `setdiff`, `symdiff`, `exists_in`, and
//! the clauses `pivot` and `unpivot`.
//!
//! It stands apart from joins, so that neither is long to prove, and from clauses, since all it does goes by
//! identifiers: points are found or told apart by them, and hardly a value is made. Look-ups and groups come from
//! `vtl_index`, so no choice of points makes an operator slow, whatever their number and that of the operands. What is
//! meant is defined in `vtl_meaning`; the structure of a result is passed in as typing found it.
//! It knows no expression, no script, no statement, no file and no text format.
//! Begin with `rows.rt` and `retaining.rt`, then `unions.rt`.
#![tactic(auto)]

mod differences;
mod existence;
mod firsts;
mod intersections;
mod pivoting;
mod retaining;
mod rows;
mod unions;
mod unpivoting;

pub use differences::{setdiff, symdiff};
pub use existence::exists_in;
pub use intersections::{intersect, intersect_all};
pub use pivoting::pivot;
pub use unions::{union, union_all};
pub use unpivoting::unpivot;
