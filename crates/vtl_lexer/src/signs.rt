// Signs.
ghost use Rattle.std.specs.Prelude.{◌≡◌};
ghost use Rattle.vtl_lexer.specs.Found.{IsFoundIn};
ghost use Rattle.vtl_lexer.specs.Leads.{lead_of};
ghost use Rattle.vtl_lexer.specs.Signs.{begins_comment, sign_of_one, sign_of_two};

use crate::Sign;
use crate::lead::Lead;
use crate::searches::byte_or_space;
use crate::token::{Found, TokenKind};

fn sign_of_two(first: u8, second: u8) -> Option<Sign>
    ensures { result ≡ sign_of_two first second }
{
    match (first, second) {
        (b':', b'=') => Some(Sign::Assign),
        (b'<', b'-') => Some(Sign::Persist),
        (b'<', b'>') => Some(Sign::NotEqual),
        (b'<', b'=') => Some(Sign::LessOrEqual),
        (b'>', b'=') => Some(Sign::GreaterOrEqual),
        (b'|', b'|') => Some(Sign::Concat),
        _ => None,
    }
}

fn sign_of_one(byte: u8) -> Option<Sign>
    ensures { result ≡ sign_of_one byte }
{
    match byte {
        b'<' => Some(Sign::Less),
        b'>' => Some(Sign::Greater),
        b'=' => Some(Sign::Equal),
        b'+' => Some(Sign::Plus),
        b'-' => Some(Sign::Minus),
        b'*' => Some(Sign::Star),
        b'/' => Some(Sign::Slash),
        b'(' => Some(Sign::OpenBracket),
        b')' => Some(Sign::CloseBracket),
        b'[' => Some(Sign::OpenSquare),
        b']' => Some(Sign::CloseSquare),
        b'{' => Some(Sign::OpenBrace),
        b'}' => Some(Sign::CloseBrace),
        b',' => Some(Sign::Comma),
        b';' => Some(Sign::Semicolon),
        b':' => Some(Sign::Colon),
        b'#' => Some(Sign::Hash),
        _ => None,
    }
}

// The longest sign at the front. A `/` that begins a comment is none.
pub(crate) fn sign(text: &[u8]) -> Option<Found>
    requires { lead_of text.now ≡ Lead.Other }
    ensures { IsFoundIn text.now result }
{
    let first = *text.first()?;
    let second = byte_or_space(text, 1);
    if let Some(sign) = sign_of_two(first, second) {
        return Some(Found {
            kind: TokenKind::Sign(sign),
            size: 2,
        });
    }
    if begins_comment(first, second) {
        return None;
    }
    Some(Found {
        kind: TokenKind::Sign(sign_of_one(first)?),
        size: 1,
    })
}

fn begins_comment(first: u8, second: u8) -> bool
    ensures { result ≡ begins_comment first second }
{
    first == b'/' && (second == b'*' || second == b'/')
}
