//! Scripts of the SQL dialect as text that reads back as the same script and no other.
//!
//! A tree is first written as tokens and these then as text: where brackets stand is decided on trees, where lines end
//! on tokens, and neither proof speaks of the other. The layout itself is not promised.
//! It knows no types; it is independent of `sql_parser`: neither calls the other.
//! Begin with specs/Printed.antt, and sql_tree/specs/Printing.antt for the tokens.
#![tactic(auto)]

mod expressions;
mod gaps;
mod layout;
mod parts;
mod printing;
mod queries;
mod statements;
mod windows;
mod word_groups;
mod writing;

pub use printing::print;
