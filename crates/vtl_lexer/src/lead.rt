// What a text begins with.
ghost use Rattle.std.specs.Prelude.{◌≡◌};
ghost use Rattle.vtl_lexer.specs.Leads.{lead_byte_of, lead_of};

// What the first byte of a text says about the token that starts there.
#[derive(Clone, Copy, Debug, PartialEq, Eq)]
pub(crate) enum Lead {
    Nothing,
    Letter,
    Digit,
    Quote,
    DoubleQuote,
    Other,
}

pub(crate) fn lead_of(text: &str) -> Lead
    ensures { result ≡ lead_of text.now }
{
    match text.as_bytes().first() {
        None => Lead::Nothing,
        Some(first) => lead_byte(*first),
    }
}

fn lead_byte(first: u8) -> Lead
    ensures { result ≡ lead_byte_of first }
{
    if first.is_ascii_alphabetic() {
        Lead::Letter
    } else if first.is_ascii_digit() {
        Lead::Digit
    } else if first == b'\'' {
        Lead::Quote
    } else if first == b'"' {
        Lead::DoubleQuote
    } else {
        Lead::Other
    }
}
