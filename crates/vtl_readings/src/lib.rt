//! The definitions that are longest to read, in a reader's words, and laws that they are the ones that hold.
//!
//! The definitions of `vtl_meaning` and `vtl_scripts` are shaped for proofs of code: they are walked by place and key,
//! as the code goes. Those here are shaped for reading: each is a sentence on data sets, groups, pairs of points and
//! operands. Each law says that the two give the same, so whoever has read the sentence knows what the other one means.
//! Two further laws are of hierarchies, item by item: which points they compute, and that they change nothing where every
//! check holds.
//! It has no code, and no crate stands on it.
//! Begin with specs/Aggregates.antt, Expressions.antt and Pairs.antt; then src/laws.rt. Of hierarchies specs/Hierarchies.antt
//! comes before src/hierarchies.rt.
#![tactic(auto)]

mod hierarchies;
mod laws;

pub use hierarchies::{hierarchies_compute_left_items, hierarchies_that_hold_change_nothing};
pub use laws::{
    aggregates_are_read_by_groups, expressions_are_read_by_operands,
    operators_are_read_by_agreeing_pairs,
};
