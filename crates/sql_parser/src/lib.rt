//! Reads scripts of the SQL dialect: `parse` gives the script that a text is, or its fault, each exactly.
//!
//! Each function reads what one form of the grammar reads, and its contract says so; the laws of forms do the rest.
//! Parts that hold no expression are read by `sql_parser_parts`; expressions, queries and statements are read here.
//! Depth is bounded by a budget of 512.
//! It knows no types (`sql_check`) and nothing of VTL's own reader.
//! Begin with specs/Parsed.antt, then src/parsing.rt and src/grammar.rt.
#![tactic(auto)]

mod deep;
mod expressions;
mod grammar;
mod laws;
mod levels;
mod parsing;
mod queries;
mod reading;
mod scripts;
mod statements;

pub use laws::texts_are_read_once;
pub use parsing::{SqlErr, parse};
