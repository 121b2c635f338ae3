// What stands between two tokens.
ghost use Rattle.std.specs.Prelude.{◌≡◌, ◌++◌, ◌+◌, ◌*◌, ◌^◌, ◌<◌, ◌∷◌, IfOk, replicate, string_bytes};
ghost use Rattle.vtl_format.specs.Layout.{broken_gap, closes, definition_gap, depth_behind, gap_between, gap_text, is_comma, is_define, is_end, is_open_bracket, is_tight, leans_back, leans_on, opens, precedes_rule, space};

use crate::calls::is_call;
use std::alloc::AllocError;
use vtl_lexer::{Keyword, Sign, TokenKind};

// How the lines of a statement break.
#[derive(Clone, Copy, Debug, PartialEq, Eq)]
pub(crate) enum Style {
    // Nowhere.
    OneLine,
    // At brackets and commas.
    Broken,
    // Before each rule of a definition, and before its `end`.
    Definition,
}

// What stands between two tokens.
#[derive(Clone, Copy, Debug, PartialEq, Eq)]
pub(crate) enum Gap {
    Nothing,
    Space,
    // A line's end, and two spaces so many times.
    Line(usize),
}

fn opens(kind: &TokenKind) -> bool
    ensures { result ≡ opens kind.now }
{
    matches!(
        kind,
        TokenKind::Sign(Sign::OpenBracket | Sign::OpenSquare | Sign::OpenBrace)
    )
}

fn closes(kind: &TokenKind) -> bool
    ensures { result ≡ closes kind.now }
{
    matches!(
        kind,
        TokenKind::Sign(Sign::CloseBracket | Sign::CloseSquare | Sign::CloseBrace)
    )
}

// Whether no space stands before it.
fn leans_back(kind: &TokenKind) -> bool
    ensures { result ≡ leans_back kind.now }
{
    matches!(
        kind,
        TokenKind::Sign(
            Sign::Comma
                | Sign::Semicolon
                | Sign::Colon
                | Sign::CloseBracket
                | Sign::CloseSquare
                | Sign::CloseBrace
                | Sign::OpenSquare
                | Sign::Hash
        )
    )
}

// Whether no space stands behind it.
fn leans_on(kind: &TokenKind) -> bool
    ensures { result ≡ leans_on kind.now }
{
    matches!(
        kind,
        TokenKind::Sign(Sign::OpenBracket | Sign::OpenSquare | Sign::OpenBrace | Sign::Hash)
    )
}

fn is_open_bracket(kind: &TokenKind) -> bool
    ensures { result ≡ is_open_bracket kind.now }
{
    matches!(kind, TokenKind::Sign(Sign::OpenBracket))
}

fn is_comma(kind: &TokenKind) -> bool
    ensures { result ≡ is_comma kind.now }
{
    matches!(kind, TokenKind::Sign(Sign::Comma))
}

pub(crate) fn is_define(kind: &TokenKind) -> bool
    ensures { result ≡ is_define kind.now }
{
    matches!(kind, TokenKind::Keyword(Keyword::Define))
}

fn is_end(kind: &TokenKind) -> bool
    ensures { result ≡ is_end kind.now }
{
    matches!(kind, TokenKind::Keyword(Keyword::End))
}

// Whether a rule of a definition, or its `end`, stands behind it.
fn precedes_rule(kind: &TokenKind) -> bool
    ensures { result ≡ precedes_rule kind.now }
{
    matches!(
        kind,
        TokenKind::Keyword(Keyword::Is) | TokenKind::Sign(Sign::Semicolon)
    )
}

// How many brackets are open behind the token.
pub(crate) fn depth_behind(depth: usize, kind: &TokenKind) -> usize
    requires { depth + 1 < 2 ^ 64 }
    ensures { result ≡ depth_behind depth kind.now }
{
    if opens(kind) {
        depth + 1
    } else if closes(kind) {
        depth.saturating_sub(1)
    } else {
        depth
    }
}

fn is_tight(before: &TokenKind, kind: &TokenKind) -> bool
    ensures { result ≡ is_tight before.now kind.now }
{
    leans_back(kind) || leans_on(before) || (is_open_bracket(kind) && is_call(before))
}

fn space(before: &TokenKind, kind: &TokenKind) -> Gap
    ensures { result ≡ space before.now kind.now }
{
    if is_tight(before, kind) {
        Gap::Nothing
    } else {
        Gap::Space
    }
}

fn broken_gap(depth: usize, before: &TokenKind, kind: &TokenKind) -> Gap
    ensures { result ≡ broken_gap depth before.now kind.now }
{
    if closes(kind) {
        Gap::Line(depth.saturating_sub(1))
    } else if opens(before) || is_comma(before) {
        Gap::Line(depth)
    } else {
        space(before, kind)
    }
}

fn definition_gap(before: &TokenKind, kind: &TokenKind) -> Gap
    ensures { result ≡ definition_gap before.now kind.now }
{
    if is_end(kind) {
        Gap::Line(0)
    } else if precedes_rule(before) {
        Gap::Line(1)
    } else {
        space(before, kind)
    }
}

// What stands between two tokens, with so many brackets open behind the first.
pub(crate) fn gap_between(style: Style, depth: usize, before: &TokenKind, kind: &TokenKind) -> Gap
    ensures { result ≡ gap_between style depth before.now kind.now }
{
    match style {
        Style::OneLine => space(before, kind),
        Style::Broken => broken_gap(depth, before, kind),
        Style::Definition => definition_gap(before, kind),
    }
}

// Appends the gap.
pub(crate) fn write_gap(gap: Gap, out: &mut String) -> Result<(), AllocError>
    ensures { IfOk result (λ done. string_bytes out.new ≡ string_bytes out.old ++ gap_text gap) }
{
    match gap {
        Gap::Nothing => Ok(()),
        Gap::Space => out.push_str(" "),
        Gap::Line(depth) => write_line_end(depth, out),
    }
}

fn write_line_end(depth: usize, out: &mut String) -> Result<(), AllocError>
    ensures { IfOk result (λ done. string_bytes out.new ≡ string_bytes out.old ++ 10 ∷ replicate (2 * depth) 32) }
{
    out.push_str("\n")?;
    for _ in 0..depth {
        out.push_str("  ")?;
    }
    Ok(())
}
