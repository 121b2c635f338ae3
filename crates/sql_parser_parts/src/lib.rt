//! Reads the parts of SQL scripts that hold no expression from the front of some tokens: names, constants, literals,
//! columns, sources, windows, tests of operands without the operand; and lists of any parts.
//!
//! Each function gives what the grammar reads there and the tokens that are left, or answers that the part does not
//! stand there, or that memory ran out. A crate of its own, so that the circle of expressions is proved over finished
//! parts.
//! It knows no expression, no query, no statement, no place in the text and no types.
//! Begin with specs/Answers.antt, then src/front.rt.
#![tactic(auto)]

mod conditions;
mod front;
mod lists;
mod parts;
mod windows;
mod words;

pub use conditions::{membership, null_test, sought};
pub use front::{Front, Tokens, Unread, before, both, optional};
pub use lists::{Commas, ListKind, Part, listed, more};
pub use parts::{bracketed_texts, column, columns_after, constant, int, name, names, source};
pub use windows::{bracketed_over, call_over};
pub use words::{key, two_keys, word};
