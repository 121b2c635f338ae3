// Names, texts and numbers at the front of some tokens.
ghost use Rattle.vtl_grammar.specs.Faults.{kinds};
ghost use Rattle.vtl_grammar.specs.Reading.{word};
ghost use Rattle.vtl_grammar.specs.Words.{comp_at, constant_at, integer_at, name_at, numeral_at, string_at};
ghost use Rattle.read_parts.specs.Fronts.{ReadsAs};

use crate::front::{Front, Unread, next};
use std::alloc::Global;
use vtl_lexer::{Keyword, Token, TokenKind};
use vtl_syntax::{Comp, Constant, Numeral};
use vtl_text::Txt;

/// A name that is not quoted.
pub fn name(tokens: &[Token]) -> Result<Front<'_, Txt>, Unread>
    ensures { ReadsAs (word name_at (kinds tokens.now)) result }
{
    match next(tokens) {
        Some((TokenKind::Name(name), rest)) => Ok(Front {
            part: name.share()?,
            rest,
        }),
        _ => Err(Unread::Absent),
    }
}

/// A text between `"`.
pub fn string(tokens: &[Token]) -> Result<Front<'_, Txt>, Unread>
    ensures { ReadsAs (word string_at (kinds tokens.now)) result }
{
    match next(tokens) {
        Some((TokenKind::String(text), rest)) => Ok(Front {
            part: text.share()?,
            rest,
        }),
        _ => Err(Unread::Absent),
    }
}

/// Digits.
pub fn integer(tokens: &[Token]) -> Result<Front<'_, Txt>, Unread>
    ensures { ReadsAs (word integer_at (kinds tokens.now)) result }
{
    match next(tokens) {
        Some((TokenKind::Integer(digits), rest)) => Ok(Front {
            part: digits.share()?,
            rest,
        }),
        _ => Err(Unread::Absent),
    }
}

/// A number without a sign.
pub fn numeral(tokens: &[Token]) -> Result<Front<'_, Numeral>, Unread>
    ensures { ReadsAs (word numeral_at (kinds tokens.now)) result }
{
    match next(tokens) {
        Some((TokenKind::Integer(digits), rest)) => Ok(Front {
            part: Numeral::Integer(digits.share()?),
            rest,
        }),
        Some((TokenKind::Decimal(digits), rest)) => Ok(Front {
            part: Numeral::Decimal(digits.share()?),
            rest,
        }),
        _ => Err(Unread::Absent),
    }
}

/// The name of a component.
pub fn comp(tokens: &[Token]) -> Result<Front<'_, Comp>, Unread>
    ensures { ReadsAs (word comp_at (kinds tokens.now)) result }
{
    match next(tokens) {
        Some((TokenKind::Name(name), rest)) => Ok(Front {
            part: Comp::Name(name.share()?),
            rest,
        }),
        Some((TokenKind::QuotedName(name), rest)) => Ok(Front {
            part: Comp::Quoted(name.share()?),
            rest,
        }),
        _ => Err(Unread::Absent),
    }
}

/// A constant of one token.
pub fn constant(tokens: &[Token]) -> Result<Front<'_, Constant>, Unread>
    ensures { ReadsAs (word constant_at (kinds tokens.now)) result }
{
    let Some((first, rest)) = next(tokens) else {
        return Err(Unread::Absent);
    };
    let part = match first {
        TokenKind::Integer(digits) => Constant::Number(Numeral::Integer(digits.share()?)),
        TokenKind::Decimal(digits) => Constant::Number(Numeral::Decimal(digits.share()?)),
        TokenKind::String(text) => Constant::String(text.share()?),
        TokenKind::Keyword(Keyword::True) => Constant::Boolean(true),
        TokenKind::Keyword(Keyword::False) => Constant::Boolean(false),
        TokenKind::Keyword(Keyword::Null) => Constant::Null,
        _ => return Err(Unread::Absent),
    };
    Ok(Front { part, rest })
}
