// Tokens as text.
ghost use Rattle.std.specs.Prelude.{◌≡◌, ◌++◌, ℕ, List as Items, None, IfOk, chars, string_bytes};
ghost use Rattle.sql_lexer.specs.Front.{mark_of};
ghost use Rattle.sql_lexer.specs.Lexed.{IsLexed, kinds_of};
ghost use Rattle.sql_lexer.specs.Spelling.{quoted, spelled};
ghost use Rattle.sql_lexer.specs.Writing.{IsGap, Written};

use crate::quotes::Quotes;
use crate::{Token, TokenKind};
use std::alloc::AllocError;

/// Appends the spelling of a token, with no gap. It fails only if memory runs out.
pub fn write_token(kind: &TokenKind, out: &mut String) -> Result<(), AllocError>
    ensures { IfOk result (λ done. chars (string_bytes out.new) ≡ chars (string_bytes out.old) ++ spelled kind.now) }
{
    match kind {
        TokenKind::Word(word) => out.push_str(word.spelling()),
        TokenKind::Name(name) => write_quoted(Quotes::Name, name.as_str(), out),
        TokenKind::Text(text) => write_quoted(Quotes::Text, text.as_str(), out),
        TokenKind::Int(digits) => out.push_str(digits.as_str()),
        TokenKind::Dec(number) => out.push_str(number.as_str()),
    }
}

fn write_quoted(quotes: Quotes, text: &str, out: &mut String) -> Result<(), AllocError>
    ensures { IfOk result (λ done. chars (string_bytes out.new) ≡ chars (string_bytes out.old) ++ quoted (mark_of quotes) (chars text.now)) }
{
    out.push(quotes.mark())?;
    let mut rest = text;
    while let Some((plain, behind)) = rest.split_once(quotes.mark()) {
        out.push_str(plain)?;
        out.push(quotes.mark())?;
        out.push(quotes.mark())?;
        rest = behind;
    }
    out.push_str(rest)?;
    out.push(quotes.mark())
}

/// A text that is written from tokens, separated where they need it, has these tokens and no others.
pub fn written_tokens_are_read()
    ensures { (text : Items ℕ) (kinds : Items TokenKind) (front gap : Items ℕ) → Written kinds front → IsGap gap → chars text ≡ front ++ gap
        → (tokens : Items Token) × IsLexed text tokens None × (kinds_of tokens ≡ kinds) }
{}
