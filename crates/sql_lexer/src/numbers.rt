// Numbers.
ghost use Rattle.std.specs.Prelude.{◌≡◌, ◌++◌, ℕ, List, IfOk, chars};
ghost use Rattle.sql_lexer.specs.Front.{EndsIn, IsNumberIn};

use crate::TokenKind;
use crate::runs::split_digits;
use std::alloc::{AllocError, Global};
use vtl_text::Txt;

// What stands before `rest`, which `text` ends with.
fn before<'a>(text: &'a str, rest: &str) -> &'a str
    requires { EndsIn (chars text.now) (chars rest.now) }
    ensures { (front : List ℕ) → chars text.now ≡ front ++ chars rest.now → chars result.now ≡ front }
{
    let (front, _) = text.split_at(text.len() - rest.len());
    front
}

// The number at the front, and what follows it.
pub(crate) fn number(alloc: Global, text: &str) -> Result<Option<(TokenKind, &str)>, AllocError>
    ensures { IfOk result (λ found. IsNumberIn (chars text.now) found) }
{
    let (whole, behind) = split_digits(text);
    if whole.is_empty() {
        return Ok(None);
    }
    if let Some(fraction) = behind.strip_prefix('.') {
        let (part, rest) = split_digits(fraction);
        if !part.is_empty() {
            return Ok(Some((TokenKind::Dec(Txt::new(alloc, before(text, rest))?), rest)));
        }
    }
    Ok(Some((TokenKind::Int(Txt::new(alloc, whole)?), behind)))
}
