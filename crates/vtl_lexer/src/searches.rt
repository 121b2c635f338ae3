// Searches in bytes.
ghost use Rattle.std.specs.Prelude.{◌≡◌, ℕ, MatchOption, slice_get};
ghost use Rattle.std.specs.Option.{unwrap_or};
ghost use Rattle.std.specs.Char.{is_ascii_digit};
ghost use Rattle.std.specs.List.{prefix_len};
ghost use Rattle.vtl_text.specs.Words.{is_word_character};
ghost use Rattle.vtl_lexer.specs.Gaps.{HasNoEnd};
ghost use Rattle.vtl_lexer.specs.Searches.{EndsFirst, StandsFirst};
ghost use Rattle.vtl_lexer.specs.Spelling.{Lacks};

use memchr::{memchr, memmem};

// Where the byte stands first.
pub(crate) fn place_of_byte(byte: u8, text: &[u8]) -> Option<usize>
    ensures { MatchOption result (Lacks byte text.now) (λ place. StandsFirst byte text.now place) }
{
    memchr(byte, text)
}

// Where `*/` stands first.
pub(crate) fn place_of_end(text: &[u8]) -> Option<usize>
    ensures { MatchOption result (HasNoEnd text.now) (λ place. EndsFirst text.now place) }
{
    memmem::find(text, b"*/")
}

fn is_word_byte(byte: u8) -> bool
    ensures { result ≡ is_word_character byte }
{
    byte.is_ascii_alphanumeric() || byte == b'_' || byte == b'.'
}

// How many word characters stand at the front.
pub(crate) fn word_len(text: &[u8]) -> usize
    ensures { result ≡ prefix_len is_word_character text.now }
{
    text.iter().take_while(|byte| is_word_byte(**byte)).count()
}

// How many digits stand at the front.
pub(crate) fn digits_len(text: &[u8]) -> usize
    ensures { result ≡ prefix_len is_ascii_digit text.now }
{
    text.iter().take_while(|byte| byte.is_ascii_digit()).count()
}

// The byte at a place. The end of the text separates as a space does.
pub(crate) fn byte_or_space(text: &[u8], place: usize) -> u8
    ensures { result ≡ unwrap_or (slice_get text.now place) 32 }
{
    text.get(place).copied().unwrap_or(b' ')
}
