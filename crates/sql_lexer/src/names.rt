// Names.
ghost use Rattle.std.specs.Prelude.{◌≡◌, ◌∷◌, ◌++◌, chars};
ghost use Rattle.sql_lexer.specs.Spelling.{fits_name, has_no_control, is_name};

// The most bytes of a name.
const MAX_NAME_BYTES: usize = 256;

fn fits_name(bytes: usize) -> bool
    ensures { result ≡ fits_name bytes }
{
    1 <= bytes && bytes <= MAX_NAME_BYTES
}

fn has_no_control(text: &str) -> bool
    ensures { result ≡ has_no_control (chars text.now) }
{
    text.chars().all(|c| !c.is_control())
}

/// Whether a table or a column may have this name: 1 to 256 bytes without control characters.
pub fn is_name(text: &str) -> bool
    ensures { result ≡ is_name (chars text.now) }
{
    fits_name(text.len()) && has_no_control(text)
}

// Whether `front`, a `"` and `back` are a name together.
pub(crate) fn is_quoted_name(front: &str, back: &str) -> bool
    ensures { result ≡ is_name (chars front.now ++ 34 ∷ chars back.now) }
{
    back.len() < MAX_NAME_BYTES.saturating_sub(front.len())
        && has_no_control(front)
        && has_no_control(back)
}
