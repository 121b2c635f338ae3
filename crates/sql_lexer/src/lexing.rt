// The tokens of a text.
ghost use Rattle.std.specs.Prelude.{◌≡◌, ℕ, List as Items, Option, IfOk};
ghost use Rattle.sql_lexer.specs.Lexed.{IsLexed};

use crate::Token;
use crate::finding::token_at_front;
use crate::runs::split_white_space;
use std::alloc::{AllocError, Global};
use vtl_text::List;

/// The tokens of a text before the first byte from which none starts.
#[derive(Debug, Drop)]
pub struct Lexed {
    /// The tokens, in order.
    pub tokens: List<Token>,
    /// The place of that byte, if there is one; otherwise the tokens are all of the text.
    pub fault: Option<usize>,
}

/// The tokens of `text` before the first byte from which none starts, and that byte. It fails only if memory runs out.
/// Its time grows with the length of the text.
pub fn lex(alloc: Global, text: &str) -> Result<Lexed, AllocError>
    ensures { IfOk result (λ lexed. IsLexed text.now lexed.tokens lexed.fault) }
{
    let mut tokens = Vec::new(alloc);
    let (_, mut rest) = split_white_space(text);
    while !rest.is_empty() {
        let start = text.len() - rest.len();
        let Some((kind, behind)) = token_at_front(alloc, rest)? else {
            return Ok(Lexed {
                tokens: List::of(tokens),
                fault: Some(start),
            });
        };
        let end = text.len() - behind.len();
        tokens.push(Token { kind, start, end })?;
        let (_, left) = split_white_space(behind);
        rest = left;
    }
    Ok(Lexed {
        tokens: List::of(tokens),
        fault: None,
    })
}

/// A text has one list of tokens: two answers for it are equal.
pub fn tokens_are_determined()
    ensures { (text : Items ℕ) (tokens others : Items Token) (fault worse : Option ℕ)
        → IsLexed text tokens fault → IsLexed text others worse → (tokens ≡ others) × (fault ≡ worse) }
{}
