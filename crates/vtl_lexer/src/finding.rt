// What stands at the front of a text.
ghost use Rattle.std.specs.Prelude.{◌≤◌, IfOk, length};
ghost use Rattle.vtl_lexer.specs.Found.{IsFoundIn, IsGapPieceOf, IsPieceOf};

use crate::gaps::{content_len, gap_len, is_comment};
use crate::lead::{Lead, lead_of};
use crate::numbers::number;
use crate::quotes::{quoted_name, string};
use crate::signs::sign;
use crate::token::Found;
use crate::words::word;
use std::alloc::{AllocError, Global};

// What stands at the front of a text.
#[derive(Drop)]
pub(crate) enum Piece {
    // White space, of this many bytes.
    Space(usize),
    // A comment, of this many bytes; so many of them stand before the carriage returns at its end.
    Comment { size: usize, content: usize },
    Token(Found),
    // Neither starts here.
    Fault,
}

pub(crate) fn piece_at_front(alloc: Global, text: &str) -> Result<Piece, AllocError>
    ensures { IfOk result (λ found. IsPieceOf text.now found) }
{
    let bytes = text.as_bytes();
    if let Some(size) = gap_len(bytes) {
        return Ok(gap_piece(bytes, size));
    }
    Ok(match token_at_front(alloc, text)? {
        Some(found) => Piece::Token(found),
        None => Piece::Fault,
    })
}

// The gap at the front, of this many bytes.
fn gap_piece(text: &[u8], size: usize) -> Piece
    requires { size ≤ length text.now }
    ensures { IsGapPieceOf text.now size result }
{
    let gap = &text[..size];
    if is_comment(gap) {
        Piece::Comment {
            size,
            content: content_len(gap),
        }
    } else {
        Piece::Space(size)
    }
}

// The token at the front, if one starts there.
fn token_at_front(alloc: Global, text: &str) -> Result<Option<Found>, AllocError>
    ensures { IfOk result (λ found. IsFoundIn text.now found) }
{
    match lead_of(text) {
        Lead::Nothing => Ok(None),
        Lead::Letter => word(alloc, text),
        Lead::Digit => number(alloc, text),
        Lead::Quote => quoted_name(alloc, text),
        Lead::DoubleQuote => string(alloc, text),
        Lead::Other => Ok(sign(text.as_bytes())),
    }
}
