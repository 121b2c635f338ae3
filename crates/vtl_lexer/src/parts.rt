// The tokens and the comments of a text.
ghost use Rattle.std.specs.Prelude.{◌≡◌, ℕ, List as Items, Option, None, IfOk, MatchResult};
ghost use Rattle.vtl_lexer.specs.Answered.{IsErrorOf, IsFault};
ghost use Rattle.vtl_lexer.specs.Lexed.{mark_len};
ghost use Rattle.vtl_lexer.specs.Parts.{HasComments, HasParts, comments_of};

use crate::Token;
use crate::finding::{Piece, piece_at_front};
use crate::lexing::LexErr;
use std::alloc::{AllocError, Global};
use vtl_text::List;

/// A comment of a script. The carriage returns before the end of its line are no part of a `//` comment.
#[derive(Clone, Copy, Debug, PartialEq, Eq)]
pub struct Comment {
    /// The byte of the text at which it starts.
    pub start: usize,
    /// The byte after its last one.
    pub end: usize,
}

/// What a script has beside white space.
#[derive(Debug, Drop)]
pub enum Part {
    /// A token.
    Token(Token),
    /// A comment.
    Comment(Comment),
}

/// The tokens and the comments of a text before the first byte from which none starts.
#[derive(Debug, Drop)]
pub struct Parted {
    /// The tokens and the comments, in order.
    pub parts: List<Part>,
    /// The place of that byte, if there is one; otherwise the parts are all of the text.
    pub bad: Option<usize>,
}

/// The comments of `text`, in order. It fails at the first byte from which no token starts, as `lex` does, and if memory
/// runs out.
pub fn comments(alloc: Global, text: &str) -> Result<Vec<Comment>, LexErr>
    ensures answer { MatchResult result (λ comments. HasComments text.now comments.items None) (λ error. IsFault text.now error) }
    ensures only { (comments : Items Comment) (bad : Option ℕ) → HasComments text.now comments bad
        → MatchResult result (λ read. (read.items ≡ comments) × (bad ≡ None)) (λ error. IsErrorOf bad error) }
{
    let parted = parts_before_fault(alloc, text)?;
    match parted.bad {
        Some(byte) => Err(LexErr::Bad { byte }),
        None => Ok(comments_of(alloc, parted.parts.as_slice())?),
    }
}

// Those of the parts that are comments.
fn comments_of(alloc: Global, parts: &[Part]) -> Result<Vec<Comment>, AllocError>
    ensures { IfOk result (λ comments. comments.items ≡ comments_of parts.now) }
{
    let mut comments = Vec::new(alloc);
    for part in parts {
        if let Part::Comment(comment) = part {
            comments.push(*comment)?;
        }
    }
    Ok(comments)
}

/// The tokens and the comments of `text` before the first byte from which none starts, and that byte. It fails only if
/// memory runs out.
pub fn parts_before_fault(alloc: Global, text: &str) -> Result<Parted, AllocError>
    ensures { IfOk result (λ parted. HasParts text.now parted.parts parted.bad) }
{
    let mut parts = Vec::new(alloc);
    let mut at = mark_len(text);
    let mut rest = &text[at..];
    while !rest.is_empty() {
        let size = match piece_at_front(alloc, rest)? {
            Piece::Space(size) => size,
            Piece::Comment { size, content } => {
                parts.push(Part::Comment(Comment {
                    start: at,
                    end: at + content,
                }))?;
                size
            }
            Piece::Token(found) => {
                let end = at + found.size;
                parts.push(Part::Token(Token {
                    kind: found.kind,
                    start: at,
                    end,
                }))?;
                found.size
            }
            Piece::Fault => {
                return Ok(Parted {
                    parts: List::of(parts),
                    bad: Some(at),
                });
            }
        };
        rest = &rest[size..];
        at += size;
    }
    Ok(Parted {
        parts: List::of(parts),
        bad: None,
    })
}

// The bytes of the mark at the start.
fn mark_len(text: &str) -> usize
    ensures { result ≡ mark_len text.now }
{
    if text.as_bytes().starts_with(b"\xef\xbb\xbf") {
        3
    } else {
        0
    }
}

/// A text has one list of parts: two answers for it are equal.
pub fn parts_are_determined()
    ensures { (text : Items ℕ) (parts others : Items Part) (bad worse : Option ℕ)
        → HasParts text parts bad → HasParts text others worse → (parts ≡ others) × (bad ≡ worse) }
{}
