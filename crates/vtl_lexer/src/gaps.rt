// White space and comments.
ghost use Rattle.std.specs.Prelude.{◌≡◌, MatchOption, length};
ghost use Rattle.vtl_lexer.specs.Found.{IsGapOf};
ghost use Rattle.vtl_lexer.specs.Gaps.{NoGap, is_white_space};
ghost use Rattle.vtl_lexer.specs.Parts.{is_comment, without_returns};

use crate::searches::{place_of_byte, place_of_end};

fn is_white_space(byte: u8) -> bool
    ensures { result ≡ is_white_space byte }
{
    byte == b' ' || byte == b'\t' || byte == b'\r' || byte == b'\n'
}

// How many bytes the white space or the comment at the front has, if one starts there.
pub(crate) fn gap_len(text: &[u8]) -> Option<usize>
    ensures { MatchOption result (NoGap text.now) (λ size. IsGapOf text.now size) }
{
    let first = *text.first()?;
    if is_white_space(first) {
        return Some(1);
    }
    if text.starts_with(b"//") {
        return Some(place_of_byte(b'\n', text).unwrap_or(text.len()));
    }
    if text.starts_with(b"/*") {
        return Some(place_of_end(&text[2..])? + 4);
    }
    None
}

// Whether the gap is a comment.
pub(crate) fn is_comment(gap: &[u8]) -> bool
    ensures { result ≡ is_comment gap.now }
{
    match gap.first() {
        Some(first) => *first == b'/',
        None => false,
    }
}

// How many bytes stand before the carriage returns at the end.
pub(crate) fn content_len(gap: &[u8]) -> usize
    ensures { result ≡ length (without_returns gap.now) }
{
    let mut size = gap.len();
    while size > 0 {
        if gap[size - 1] != b'\r' {
            return size;
        }
        size -= 1;
    }
    size
}
