//! Copies of statements and expressions of scripts.
//!
//! A script's statements are one shared list, so what is to be a script of its own with some of them, or with one of
//! them changed, holds copies: other memory with the same trees. Texts have several owners, and are shared.
//! It knows no grammar and no types: whatever is written is copied, brackets too.
//! Begin with `expressions.rt`.
#![tactic(auto)]

mod calls;
mod expressions;
mod operators;
mod part;
mod parts;
mod statements;

pub use expressions::copy_expression;
pub use statements::copy_statement;
