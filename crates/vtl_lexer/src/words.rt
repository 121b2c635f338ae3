// Words.
ghost use Rattle.std.specs.Prelude.{◌≡◌, IfOk, true};
ghost use Rattle.vtl_text.specs.Words.{is_word};
ghost use Rattle.vtl_lexer.specs.Found.{IsFoundIn, IsWordKind};
ghost use Rattle.vtl_lexer.specs.Leads.{lead_of};

use crate::keyword::keyword_of;
use crate::lead::Lead;
use crate::searches::word_len;
use crate::token::{Found, TokenKind};
use std::alloc::{AllocError, Global};
use vtl_text::Txt;

// The most bytes of a word.
const MAX_WORD_BYTES: usize = 64;

// The word at the front. No part of one that is too long is a token.
pub(crate) fn word(alloc: Global, text: &str) -> Result<Option<Found>, AllocError>
    requires { lead_of text.now ≡ Lead.Letter }
    ensures { IfOk result (λ found. IsFoundIn text.now found) }
{
    let size = word_len(text.as_bytes());
    if size > MAX_WORD_BYTES {
        return Ok(None);
    }
    let kind = word_kind(alloc, &text[..size])?;
    Ok(Some(Found { kind, size }))
}

fn word_kind(alloc: Global, word: &str) -> Result<TokenKind, AllocError>
    requires { is_word word.now ≡ true }
    ensures { IfOk result (λ kind. IsWordKind kind word.now) }
{
    Ok(match keyword_of(word) {
        Some(keyword) => TokenKind::Keyword(keyword),
        None => TokenKind::Name(Txt::new(alloc, word)?),
    })
}
