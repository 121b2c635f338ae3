// The token at the front of a text.
ghost use Rattle.std.specs.Prelude.{IfOk, chars};
ghost use Rattle.sql_lexer.specs.Front.{IsFoundIn};

use crate::TokenKind;
use crate::numbers::number;
use crate::quotes::{Quotes, quoted};
use crate::words::word_at_front;
use std::alloc::{AllocError, Global};

// The longest token at the front, if one starts there, and what follows it.
pub(crate) fn token_at_front(
    alloc: Global,
    text: &str,
) -> Result<Option<(TokenKind, &str)>, AllocError>
    ensures { IfOk result (λ found. IsFoundIn (chars text.now) found) }
{
    if let Some(body) = text.strip_prefix('"') {
        return quoted(alloc, Quotes::Name, body);
    }
    if let Some(body) = text.strip_prefix('\'') {
        return quoted(alloc, Quotes::Text, body);
    }
    if let Some(found) = number(alloc, text)? {
        return Ok(Some(found));
    }
    match word_at_front(text) {
        Some((word, rest)) => Ok(Some((TokenKind::Word(word), rest))),
        None => Ok(None),
    }
}
