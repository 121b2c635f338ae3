// Tokens.
//
// The table of tokens says what may stand after each (`goes_on`): so of a word that is too long no part is a token,
// and a comment comes before the sign `/` without an order among rules.

use crate::Keyword;
use vtl_text::Txt;

/// A token of a script.
#[derive(Debug, Drop)]
pub struct Token {
    /// What it is.
    pub kind: TokenKind,
    /// The byte of the text at which it starts.
    pub start: usize,
    /// The byte after its last one.
    pub end: usize,
}

/// What a token is, with what it holds.
#[derive(Debug, Drop)]
pub enum TokenKind {
    /// A word that is not reserved.
    Name(Txt),
    /// A reserved word.
    Keyword(Keyword),
    /// A name between two `'`; it holds what stands between them.
    QuotedName(Txt),
    /// Digits.
    Integer(Txt),
    /// Digits, a point and digits.
    Decimal(Txt),
    /// A text between two `"`; it holds the text that is meant, each doubled `"` once.
    String(Txt),
    /// A sign.
    Sign(Sign),
}

/// A sign.
#[derive(Clone, Copy, Debug, PartialEq, Eq)]
pub enum Sign {
    /// `:=`
    Assign,
    /// `<-`
    Persist,
    /// `<>`
    NotEqual,
    /// `<=`
    LessOrEqual,
    /// `>=`
    GreaterOrEqual,
    /// `||`
    Concat,
    /// `<`
    Less,
    /// `>`
    Greater,
    /// `=`
    Equal,
    /// `+`
    Plus,
    /// `-`
    Minus,
    /// `*`
    Star,
    /// `/`
    Slash,
    /// `(`
    OpenBracket,
    /// `)`
    CloseBracket,
    /// `[`
    OpenSquare,
    /// `]`
    CloseSquare,
    /// `{`
    OpenBrace,
    /// `}`
    CloseBrace,
    /// `,`
    Comma,
    /// `;`
    Semicolon,
    /// `:`
    Colon,
    /// `#`
    Hash,
}

// A token at the front of a text.
#[derive(Drop)]
pub(crate) struct Found {
    pub(crate) kind: TokenKind,
    // Its bytes.
    pub(crate) size: usize,
}
