// The tokens of a text.
//
// The definition of tokens is a relation with no function that reads; that it determines the answer is a law, so the
// answer is exact both ways without a second description of the lexer.
ghost use Rattle.std.specs.Prelude.{◌≡◌, ℕ, List as Items, Option, None, IfOk, MatchResult};
ghost use Rattle.vtl_lexer.specs.Answered.{IsErrorOf, IsFault};
ghost use Rattle.vtl_lexer.specs.Lexed.{IsLexed};
ghost use Rattle.vtl_lexer.specs.Parts.{tokens_of};

use crate::Token;
use crate::parts::{Part, Parted, parts_before_fault};
use std::alloc::{AllocError, Global};
use vtl_text::List;

/// Why a text was not read as tokens.
#[derive(Debug, Drop)]
pub enum LexErr {
    /// At this byte of the text neither a token nor white space nor a comment starts.
    Bad {
        /// The place of the byte, from 0.
        byte: usize,
    },
    /// There was not enough memory.
    OutOfMemory,
}

impl From<AllocError> for LexErr {
    ghost use Rattle.vtl_lexer.specs.declared.lexing.LexErr.TheVariants.{OutOfMemory};

    ghost from_gives = { λ e r. r ≡ OutOfMemory };

    fn from(_: AllocError) -> LexErr {
        LexErr::OutOfMemory
    }
}

/// The tokens of a text before the first byte from which none starts.
#[derive(Debug, Drop)]
pub struct Lexed {
    /// The tokens, in order.
    pub tokens: List<Token>,
    /// The place of that byte, if there is one; otherwise the tokens are all of the text.
    pub bad: Option<usize>,
}

/// The tokens of `text`, each with the bytes where it starts and ends. It fails at the first byte from which no token
/// starts, and if memory runs out.
pub fn lex(alloc: Global, text: &str) -> Result<Vec<Token>, LexErr>
    ensures answer { MatchResult result (λ tokens. IsLexed text.now tokens.items None) (λ error. IsFault text.now error) }
    ensures only { (tokens : Items Token) (bad : Option ℕ) → IsLexed text.now tokens bad
        → MatchResult result (λ read. (read.items ≡ tokens) × (bad ≡ None)) (λ error. IsErrorOf bad error) }
{
    let lexed = tokens_before_fault(alloc, text)?;
    match lexed.bad {
        Some(byte) => Err(LexErr::Bad { byte }),
        None => Ok(lexed.tokens.into_vec()),
    }
}

/// The tokens of `text` before the first byte from which none starts, and that byte. It fails only if memory runs out.
pub fn tokens_before_fault(alloc: Global, text: &str) -> Result<Lexed, AllocError>
    ensures { IfOk result (λ lexed. IsLexed text.now lexed.tokens lexed.bad) }
{
    let Parted { parts, bad } = parts_before_fault(alloc, text)?;
    let tokens = List::of(tokens_of(alloc, parts.into_vec())?);
    Ok(Lexed { tokens, bad })
}

// Those of the parts that are tokens.
fn tokens_of(alloc: Global, parts: Vec<Part>) -> Result<Vec<Token>, AllocError>
    ensures { IfOk result (λ tokens. tokens.items ≡ tokens_of parts.items) }
{
    let mut tokens = Vec::new(alloc);
    for part in parts {
        if let Part::Token(token) = part {
            tokens.push(token)?;
        }
    }
    Ok(tokens)
}

/// A text has one list of tokens: two answers for it are equal.
pub fn tokens_are_determined()
    ensures { (text : Items ℕ) (tokens others : Items Token) (bad worse : Option ℕ)
        → IsLexed text tokens bad → IsLexed text others worse → (tokens ≡ others) × (bad ≡ worse) }
{}
