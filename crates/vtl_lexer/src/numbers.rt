// Numbers.
ghost use Rattle.std.specs.Prelude.{◌≡◌, IfOk, MatchOption};
ghost use Rattle.vtl_lexer.specs.Found.{HasNoFraction, IsFoundIn, IsFractionOf};
ghost use Rattle.vtl_lexer.specs.Leads.{lead_of};

use crate::lead::Lead;
use crate::searches::digits_len;
use crate::token::{Found, TokenKind};
use std::alloc::{AllocError, Global};
use vtl_text::Txt;

// The number at the front.
pub(crate) fn number(alloc: Global, text: &str) -> Result<Option<Found>, AllocError>
    requires { lead_of text.now ≡ Lead.Digit }
    ensures { IfOk result (λ found. IsFoundIn text.now found) }
{
    let bytes = text.as_bytes();
    let whole = digits_len(bytes);
    match fraction_len(bytes.split_at(whole).1) {
        None => Ok(Some(Found {
            kind: TokenKind::Integer(Txt::new(alloc, &text[..whole])?),
            size: whole,
        })),
        Some(fraction) => Ok(Some(Found {
            kind: TokenKind::Decimal(Txt::new(alloc, &text[..whole + fraction])?),
            size: whole + fraction,
        })),
    }
}

// How many bytes the point and the digits at the front have, if they stand there.
fn fraction_len(text: &[u8]) -> Option<usize>
    ensures { MatchOption result (HasNoFraction text.now) (λ size. IsFractionOf text.now size) }
{
    let digits = digits_len(text.strip_prefix(b".")?);
    if digits == 0 {
        return None;
    }
    Some(digits + 1)
}
