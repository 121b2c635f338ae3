// What stands between two tokens.
ghost use Rattle.std.specs.Prelude.{◌≡◌, ◌++◌, ◌∷◌, [], true, ℕ, List, chars};
ghost use Rattle.sql_lexer.specs.Spelling.{spelled};
ghost use Rattle.sql_lexer.specs.Writing.{IsApart};
ghost use Rattle.sql_lexer.specs.declared.token.TokenKind.{TokenKind};
ghost use Rattle.sql_print.specs.Gaps.{gap_text};

use sql_lexer::{TokenKind, Word};

// What stands between two tokens.
#[derive(Clone, Copy, Debug, PartialEq, Eq)]
pub(crate) enum Gap {
    // nothing
    Nothing,
    // a space
    Space,
    // a line's end, before a statement
    Statement,
    // a line's end and two spaces, before a clause of a query
    Clause,
    // a line's end and four spaces, within a list that fills a line
    Item,
}

impl Gap {
    pub(crate) fn text(self) -> &'static str
        ensures { chars result.now ≡ gap_text self }
    {
        match self {
            Gap::Nothing => "",
            Gap::Space => " ",
            Gap::Statement => "\n",
            Gap::Clause => "\n  ",
            Gap::Item => "\n    ",
        }
    }
}

// Whether a clause of a query begins with the token.
pub(crate) fn starts_clause(kind: &TokenKind) -> bool {
    matches!(
        kind,
        TokenKind::Word(
            Word::Select
                | Word::From
                | Word::Inner
                | Word::Left
                | Word::Full
                | Word::Cross
                | Word::Where
                | Word::Group
                | Word::Having
                | Word::Union
        )
    )
}

// Whether an operand ends with the token.
fn ends_operand(kind: &TokenKind) -> bool {
    match kind {
        TokenKind::Word(word) => matches!(
            word,
            Word::Close | Word::True | Word::False | Word::Null | Word::End
        ),
        _ => true,
    }
}

// Whether the token is a function, whose bracket stands right after it.
fn is_function(kind: &TokenKind) -> bool {
    match kind {
        TokenKind::Word(word) => is_function_word(*word),
        _ => false,
    }
}

fn is_function_word(word: Word) -> bool {
    matches!(
        word,
        Word::Abs
            | Word::Avg
            | Word::Between
            | Word::Ceil
            | Word::Coalesce
            | Word::Count
            | Word::FirstValue
            | Word::Floor
            | Word::Instr
            | Word::Lag
            | Word::LastValue
            | Word::Lead
            | Word::Length
            | Word::Ltrim
            | Word::Max
            | Word::Median
            | Word::Min
            | Word::Mod
            | Word::PeriodFrequency
            | Word::PeriodShift
            | Word::Rank
            | Word::RatioToReport
            | Word::Replace
            | Word::Round
            | Word::Rtrim
            | Word::Substr
            | Word::Sum
            | Word::Trim
            | Word::Trunc
    )
}

// Whether the sign stands before an operand, and not between two; `ahead` is the token before it.
pub(crate) fn is_prefix(ahead: Option<&TokenKind>, sign: &TokenKind) -> bool {
    match ahead {
        Some(kind) => is_sign(sign) && !ends_operand(kind),
        None => false,
    }
}

fn is_sign(kind: &TokenKind) -> bool {
    matches!(kind, TokenKind::Word(Word::Plus | Word::Minus))
}

// Whether a token stands right after another, as a closing bracket does; `prefix` says that the first is a sign before
// its operand.
pub(crate) fn is_tight(before: &TokenKind, kind: &TokenKind, prefix: bool) -> bool
    ensures { result ≡ true → (kinds : List TokenKind) → IsApart (kinds ++ before.now ∷ []) (spelled kind.now) }
{
    is_quiet_behind(before, kind) || is_open_ended(before, kind, prefix) || is_column(before, kind)
}

// Whether the token is a mark that continues no token, and stands right after the one before it.
#[tactic(auto, using(crate::proofs::GapLaws::aparts))]
fn is_quiet_behind(before: &TokenKind, kind: &TokenKind) -> bool
    ensures { result ≡ true → (kinds : List TokenKind) → IsApart kinds (spelled kind.now) }
{
    match kind {
        TokenKind::Word(Word::Close) => true,
        TokenKind::Word(Word::Comma) => true,
        TokenKind::Word(Word::Semicolon) => true,
        TokenKind::Word(Word::Open) => is_function(before),
        _ => false,
    }
}

// Whether no token continues the one before, and the next stands right after it. Two signs are parted: in other
// dialects `--` begins a comment.
#[tactic(auto, using(crate::proofs::GapLaws::aparts))]
fn is_open_ended(before: &TokenKind, kind: &TokenKind, prefix: bool) -> bool
    ensures { result ≡ true → (kinds : List TokenKind) (text : List ℕ) → IsApart (kinds ++ before.now ∷ []) text }
{
    match before {
        TokenKind::Word(Word::Open) => true,
        TokenKind::Word(Word::Dot) => true,
        TokenKind::Word(Word::Plus) => prefix && !is_sign(kind),
        TokenKind::Word(Word::Minus) => prefix && !is_sign(kind),
        _ => false,
    }
}

// Whether they are a name and the point after it.
#[tactic(auto, using(crate::proofs::GapLaws::aparts))]
fn is_column(before: &TokenKind, kind: &TokenKind) -> bool
    ensures { result ≡ true → (kinds : List TokenKind) → IsApart (kinds ++ before.now ∷ []) (spelled kind.now) }
{
    match (before, kind) {
        (TokenKind::Name(_), TokenKind::Word(Word::Dot)) => true,
        _ => false,
    }
}
