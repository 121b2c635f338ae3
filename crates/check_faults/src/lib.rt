//! The rules that a part of a script can break, by name, and the first that is broken of a list of tests.
//!
//! Every checker of VTL answers in these words: a part gives what is typed, or the least rule of the first wrong
//! part. The number of a rule is that of docs/TYPES.md, and is given only where a fault leaves the checker.
//! It knows no part of the language: which tests a form has is for the crates above to say.
//! Begin with specs/Rules.antt.
#![tactic(auto)]

mod error;
mod laws;
mod rules;

pub use error::{TypeErr, broken};
pub use laws::in_turn_is_place_by_place;
pub use rules::Rule;
