// Literals and the texts of `cast`.
ghost use Rattle.vtl_grammar.specs.Faults.{kinds};
ghost use Rattle.vtl_grammar.specs.ReadParts.{cast_literal, cast_part, literal, literal_of, literal_set, literals_listed};
ghost use Rattle.std.specs.Prelude.{◌≡◌};
ghost use Rattle.read_parts.specs.Fronts.{ReadsAs};

use crate::front::{Front, Unread, after_keyword, after_sign};
use crate::lists::{Item, listed};
use crate::names::{constant, numeral, string};
use crate::words::word;
use std::alloc::Global;
use vtl_lexer::{Keyword, Sign, Token};
use vtl_syntax::{CastKind, Constant, Literal};
use vtl_text::{List, Txt};

/// What stands between the brackets of `cast`.
#[tactic(auto, unfolding(vtl_grammar::specs::ReadParts::cast_part))]
pub fn cast_part(tokens: &[Token]) -> Result<Front<'_, (Txt, CastKind)>, Unread>
    ensures { ReadsAs (cast_part (kinds tokens.now)) result }
{
    let text = string(tokens)?;
    let after = after_sign(text.rest, Sign::Comma).ok_or(Unread::Absent)?;
    let kind = word(after).ok_or(Unread::Absent)?;
    Ok(Front {
        part: (text.part, kind.part),
        rest: kind.rest,
    })
}

// The literal that a constant is.
fn literal_of(constant: Constant) -> Option<Literal>
    ensures { result ≡ literal_of constant }
{
    match constant {
        Constant::Number(numeral) => Some(Literal::Number {
            negative: false,
            numeral,
        }),
        Constant::String(text) => Some(Literal::String(text)),
        Constant::Boolean(value) => Some(Literal::Boolean(value)),
        Constant::Null => None,
        Constant::Cast { text, kind } => Some(Literal::Cast { text, kind }),
    }
}

// `cast(text, kind)`
#[tactic(auto, unfolding(vtl_grammar::specs::ReadParts::cast_literal))]
fn cast_literal(tokens: &[Token]) -> Result<Front<'_, Literal>, Unread>
    ensures { ReadsAs (cast_literal (kinds tokens.now)) result }
{
    let after = after_keyword(tokens, Keyword::Cast).ok_or(Unread::Absent)?;
    let inner = after_sign(after, Sign::OpenBracket).ok_or(Unread::Absent)?;
    let Front {
        part: (text, kind),
        rest,
    } = cast_part(inner)?;
    let rest = after_sign(rest, Sign::CloseBracket).ok_or(Unread::Absent)?;
    Ok(Front {
        part: Literal::Cast { text, kind },
        rest,
    })
}

/// A literal of a list of values.
#[tactic(auto, unfolding(vtl_grammar::specs::ReadParts::literal))]
pub fn literal(tokens: &[Token]) -> Result<Front<'_, Literal>, Unread>
    ensures { ReadsAs (literal (kinds tokens.now)) result }
{
    if let Some(after) = after_sign(tokens, Sign::Minus) {
        let number = numeral(after)?;
        return Ok(Front {
            part: Literal::Number {
                negative: true,
                numeral: number.part,
            },
            rest: number.rest,
        });
    }
    match constant(tokens) {
        Ok(front) => Ok(Front {
            part: literal_of(front.part).ok_or(Unread::Absent)?,
            rest: front.rest,
        }),
        Err(Unread::Absent) => cast_literal(tokens),
        Err(Unread::OutOfMemory) => Err(Unread::OutOfMemory),
    }
}

impl Item for Literal {
    ghost use Rattle.vtl_grammar.specs.ReadParts.{literal};

    ghost reads = { literal };

    fn read(_: Global, tokens: &[Token]) -> Result<Front<'_, Literal>, Unread> {
        literal(tokens)
    }
}

/// Literals between braces.
#[tactic(auto, unfolding(vtl_grammar::specs::ReadParts::literal_set, vtl_grammar::specs::ReadParts::literals_listed))]
pub fn literal_set(alloc: Global, tokens: &[Token]) -> Result<Front<'_, List<Literal>>, Unread>
    ensures { ReadsAs (literal_set (kinds tokens.now)) result }
{
    let after = after_sign(tokens, Sign::OpenBrace).ok_or(Unread::Absent)?;
    let literals = listed(alloc, after)?;
    let rest = after_sign(literals.rest, Sign::CloseBrace).ok_or(Unread::Absent)?;
    Ok(Front {
        part: literals.part,
        rest,
    })
}
