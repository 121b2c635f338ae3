//! The tokens of the SQL dialect: those of a text before the first byte from which none starts, and a token as
//! text.
//!
//! One function says how a token is spelled, and reading and writing cite it, so that written tokens read back.
//! Each token is the longest one possible; a keyword needs no word boundary after it.
//! It knows no grammar and no types.
//! Begin with specs/Spelling.antt and specs/Lexed.antt.

#![tactic(auto)]

mod finding;
mod lexing;
mod names;
mod numbers;
mod quotes;
mod runs;
mod token;
mod words;
mod writing;

pub use lexing::{Lexed, lex, tokens_are_determined};
pub use names::is_name;
pub use token::{Token, TokenKind, Word};
pub use writing::{write_token, written_tokens_are_read};
