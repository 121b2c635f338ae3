//! The tokens of a script: `lex` gives them all with their places, or the first byte from which none starts.
//!
//! The definition is a relation on bytes, not a reader; that it determines the answer is a law. White space ends here;
//! `comments` tells where comments stand, and `parts_before_fault` has tokens and comments in one list.
//! It knows which words are reserved (`vtl_text` has the list) and nothing of how tokens follow each other
//! (`vtl_grammar`).
//! Begin with specs/Spelling.antt, Tokens.antt, Lexed.antt and Parts.antt.
#![tactic(auto)]

mod finding;
mod gaps;
mod keyword;
mod lead;
mod lexing;
mod numbers;
mod parts;
mod quotes;
mod searches;
mod signs;
mod token;
mod words;
mod writing;

pub use keyword::{Keyword, is_same_keyword, keyword_of};
pub use lexing::{LexErr, Lexed, lex, tokens_are_determined, tokens_before_fault};
pub use parts::{Comment, Part, Parted, comments, parts_are_determined, parts_before_fault};
pub use token::{Sign, Token, TokenKind};
pub use writing::{pieces_can_be_written, written_pieces_are_read};
