//! Reads scripts: `parse` gives the script that a text is, or its fault, each exactly.
//!
//! Rules, statements and the script itself are read here; a fault is the number of statements that stand at the
//! front of the text and the byte at which what follows them starts.
//! It knows no structures and no types: a script that reads may still be mistyped (`vtl_check`).
//! Begin with specs/Parsed.antt, then src/parsing.rt.
#![tactic(auto)]

mod heads;
mod hier_rules;
mod laws;
mod parsing;
mod point_rules;
mod rules;
mod statements;

pub use laws::{scripts_are_written, texts_are_read_once};
pub use parsing::{ParseErr, parse};
