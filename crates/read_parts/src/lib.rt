//! Reads the parts of statements that hold no expression from the front of some tokens: names, constants, literals
//! and their sets, references, groupings, windows, error parts, words of a group.
//!
//! Each function gives what the grammar reads there and the tokens that are left, or answers that the part does not
//! stand there. A crate of its own, so that the circle of expressions is proved over finished parts.
//! It looks at tokens from the left and at nothing else: it knows no expression, no statement, no place in the
//! text, and nothing of structures or kinds.
//! Begin with specs/Fronts.antt, then src/front.rt.
#![tactic(auto)]

mod calls;
mod clauses;
mod front;
mod lists;
mod literals;
mod names;
mod windows;
mod words;

pub use calls::{retain_part, rule_part, ruleset_part, shift_part, time_part};
pub use clauses::{
    alias_part, error_part, group_part, maybe_keeping, maybe_renames, sub_parts, two_comps,
    using_part,
};
pub use front::{Front, Unread, after_keyword, after_sign, next};
pub use lists::{Item, comps, listed};
pub use literals::{cast_part, literal, literal_set};
pub use names::{comp, constant, integer, name, numeral, string};
pub use windows::over_part;
pub use words::{WordGroup, maybe_word, word};
