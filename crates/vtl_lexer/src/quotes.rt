// Quoted names and strings.
ghost use Rattle.std.specs.Prelude.{◌≡◌, IfOk, MatchOption};
ghost use Rattle.vtl_lexer.specs.Found.{IsFoundIn};
ghost use Rattle.vtl_lexer.specs.Leads.{lead_of};
ghost use Rattle.vtl_lexer.specs.Strings.{EndsNowhere, IsLongestEnd};

use crate::lead::Lead;
use crate::searches::{byte_or_space, place_of_byte};
use crate::token::{Found, TokenKind};
use std::alloc::{AllocError, Global};
use vtl_text::{Txt, is_component_name, replace};

// The quoted name at the front.
pub(crate) fn quoted_name(alloc: Global, text: &str) -> Result<Option<Found>, AllocError>
    requires { lead_of text.now ≡ Lead.Quote }
    ensures { IfOk result (λ found. IsFoundIn text.now found) }
{
    let inner = &text[1..];
    let Some(size) = place_of_byte(b'\'', inner.as_bytes()) else {
        return Ok(None);
    };
    let name = &inner[..size];
    if !is_component_name(name) {
        return Ok(None);
    }
    Ok(Some(Found {
        kind: TokenKind::QuotedName(Txt::new(alloc, name)?),
        size: size + 2,
    }))
}

// The longest string at the front.
pub(crate) fn string(alloc: Global, text: &str) -> Result<Option<Found>, AllocError>
    requires { lead_of text.now ≡ Lead.DoubleQuote }
    ensures { IfOk result (λ found. IsFoundIn text.now found) }
{
    let inner = &text[1..];
    let Some(size) = last_end(inner.as_bytes()) else {
        return Ok(None);
    };
    Ok(Some(Found {
        kind: TokenKind::String(replace(alloc, &inner[..size], "\"\"", "\"")?),
        size: size + 2,
    }))
}

// The last place at which a string that begins before `text` can end: each `"` before it is doubled.
fn last_end(text: &[u8]) -> Option<usize>
    ensures { MatchOption result (EndsNowhere text.now) (λ place. IsLongestEnd text.now place) }
{
    let mut last = None;
    let mut from = 0;
    while let Some(plain) = place_of_byte(b'"', &text[from..]) {
        let end = from + plain;
        last = Some(end);
        if byte_or_space(text, end + 1) != b'"' {
            return last;
        }
        from = end + 2;
    }
    last
}
