// Runs of characters of one class.
ghost use Rattle.std.specs.Prelude.{◌≡◌};
ghost use Rattle.std.specs.Char.{is_ascii_digit};
ghost use Rattle.std.specs.List.{prefix_len};
ghost use Rattle.sql_lexer.specs.Front.{Run};
ghost use Rattle.sql_lexer.specs.Lexed.{is_white_space};

fn is_white_space(byte: u8) -> bool
    ensures { result ≡ is_white_space byte }
{
    byte == b' ' || byte == b'\t' || byte == b'\n' || byte == b'\r'
}

fn digits_len(text: &[u8]) -> usize
    ensures { result ≡ prefix_len is_ascii_digit text.now }
{
    text.iter().take_while(|byte| byte.is_ascii_digit()).count()
}

fn white_space_len(text: &[u8]) -> usize
    ensures { result ≡ prefix_len is_white_space text.now }
{
    text.iter()
        .take_while(|byte| is_white_space(**byte))
        .count()
}

// The digits at the front, and what follows them.
pub(crate) fn split_digits(text: &str) -> (&str, &str)
    ensures { Run is_ascii_digit text.now result.0.now result.1.now }
{
    text.split_at(digits_len(text.as_bytes()))
}

// The white space at the front, and what follows it.
pub(crate) fn split_white_space(text: &str) -> (&str, &str)
    ensures { Run is_white_space text.now result.0.now result.1.now }
{
    text.split_at(white_space_len(text.as_bytes()))
}
