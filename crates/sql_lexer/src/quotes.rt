// Names and texts: what stands between two of their quotes.
ghost use Rattle.std.specs.Prelude.{◌≡◌, ◌∷◌, ◌++◌, IfOk, chars};
ghost use Rattle.sql_lexer.specs.Front.{IsFoundIn, IsNextPart, allows, kind_of, mark_of};

use crate::TokenKind;
use crate::names::{is_name, is_quoted_name};
use std::alloc::{AllocError, Global};
use vtl_text::Txt;

#[derive(Clone, Copy)]
pub(crate) enum Quotes {
    Name,
    Text,
}

impl Quotes {
    pub(crate) fn mark(self) -> char
        ensures { result ≡ mark_of self }
    {
        match self {
            Quotes::Name => '"',
            Quotes::Text => '\'',
        }
    }

    fn allows(self, content: &str) -> bool
        ensures { result ≡ allows self (chars content.now) }
    {
        match self {
            Quotes::Name => is_name(content),
            Quotes::Text => true,
        }
    }

    fn allows_more(self, content: &str, part: &str) -> bool
        ensures { result ≡ allows self (chars content.now ++ mark_of self ∷ chars part.now) }
    {
        match self {
            Quotes::Name => is_quoted_name(content, part),
            Quotes::Text => true,
        }
    }

    fn kind(self, content: Txt) -> TokenKind
        ensures { result ≡ kind_of self content }
    {
        match self {
            Quotes::Name => TokenKind::Name(content),
            Quotes::Text => TokenKind::Text(content),
        }
    }
}

// What the content continues with where its closing quote begins a doubled one, and what follows the next quote. The
// content and `behind` stand on either side of that closing quote.
fn next_part<'a>(quotes: Quotes, content: &str, behind: &'a str) -> Option<(&'a str, &'a str)>
    ensures { IsNextPart quotes (chars content.now) (chars behind.now) result }
{
    let more = behind.strip_prefix(quotes.mark())?;
    let (part, rest) = more.split_once(quotes.mark())?;
    if !quotes.allows_more(content, part) {
        return None;
    }
    Some((part, rest))
}

// The longest token whose opening quote stands before `body`, and what follows it.
pub(crate) fn quoted(
    alloc: Global,
    quotes: Quotes,
    body: &str,
) -> Result<Option<(TokenKind, &str)>, AllocError>
    ensures { IfOk result (λ found. IsFoundIn (mark_of quotes ∷ chars body.now) found) }
{
    let Some((plain, mut behind)) = body.split_once(quotes.mark()) else {
        return Ok(None);
    };
    let mut content = String::from_str(alloc, plain)?;
    while let Some((part, rest)) = next_part(quotes, content.as_str(), behind) {
        content.push(quotes.mark())?;
        content.push_str(part)?;
        behind = rest;
    }
    if !quotes.allows(content.as_str()) {
        return Ok(None);
    }
    Ok(Some((quotes.kind(Txt::new(alloc, content.as_str())?), behind)))
}
