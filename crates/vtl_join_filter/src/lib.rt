//! Joins with a filter: the points of the joined set at which a condition is true.
//!
//! It stands apart from joins and from clauses, so that the condition is asked of a few points at a time as they are
//! made: a product of which few points are kept is never held. It decides in which order the tuples of a cross join are
//! made, which of them need not be made, and how many wait. How points are put together is left to `vtl_join`, and how a
//! condition is asked to `vtl_clause`. What a join and a filter are, is defined in `vtl_meaning` (specs/Joined.antt) and in `vtl_tree`
//! (specs/Clauses.antt), one after the other.
//! It knows no other clause, no script, no statement, no file and no text format.
//! Begin with specs/Sifting.antt and `filtering.rt`, then `sieve.rt`, and specs/Partners.antt for what need not be made.
#![tactic(auto)]

mod crossing;
mod equated;
mod filtering;
mod keys;
mod partners;
mod safety;
mod sieve;

pub use filtering::filter_joined;
