// A statement as text.
ghost use Rattle.std.specs.Prelude.{◌≡◌, ◌++◌, ◌+◌, ◌<◌, ◌≤◌, ◌^◌, ℕ, List, IfOk, drop, string_bytes};
ghost use Rattle.std.specs.List.{AllByRecursion, slice_range};
ghost use Rattle.vtl_lexer.specs.Pieces.{IsCut, IsCutOf};
ghost use Rattle.vtl_format.specs.Form.{lexemes_at};
ghost use Rattle.vtl_format.specs.Layout.{gap_behind, is_definition, laid, statement_form};

use crate::gaps::{Style, depth_behind, gap_between, is_define, write_gap};
use std::alloc::{AllocError, Global};
use vtl_lexer::{Token, TokenKind};
use vtl_text::length;

// The most characters of a transformation that stands on one line, with its `;`.
const MOST_CHARACTERS: usize = 100;

// The tokens of a statement as they are laid out.
pub(crate) fn statement_form(
    alloc: Global,
    text: &str,
    tokens: &[Token],
) -> Result<String, AllocError>
    requires { AllByRecursion (IsCutOf text.now) tokens.now }
    ensures { IfOk result (λ form. string_bytes form ≡ statement_form (lexemes_at text.now tokens.now)) }
{
    if is_definition(tokens) {
        return laid(alloc, Style::Definition, text, tokens);
    }
    let line = laid(alloc, Style::OneLine, text, tokens)?;
    if length(line.as_str()) <= MOST_CHARACTERS {
        return Ok(line);
    }
    laid(alloc, Style::Broken, text, tokens)
}

fn is_definition(tokens: &[Token]) -> bool
    ensures { (text : List ℕ) → result ≡ is_definition (lexemes_at text tokens.now) }
{
    match tokens.split_first() {
        Some((first, _)) => is_define(&first.kind),
        None => false,
    }
}

fn laid(alloc: Global, style: Style, text: &str, tokens: &[Token]) -> Result<String, AllocError>
    requires { AllByRecursion (IsCutOf text.now) tokens.now }
    ensures { IfOk result (λ out. string_bytes out ≡ laid style 0 (lexemes_at text.now tokens.now)) }
{
    let mut out = String::new(alloc);
    let mut depth = 0;
    for i in 0..tokens.len() {
        let next = write_first(style, depth, text, &tokens[i..], &mut out)?;
        depth = next;
    }
    Ok(out)
}

// Appends the first token and what stands behind it, and gives how many brackets are then open.
fn write_first(
    style: Style,
    depth: usize,
    text: &str,
    tokens: &[Token],
    out: &mut String,
) -> Result<usize, AllocError>
    requires cut { AllByRecursion (IsCutOf text.now) tokens.now }
    requires room { depth + 1 < 2 ^ 64 }
    ensures written { IfOk result (λ next. string_bytes out.new ++ laid style next (lexemes_at text.now (drop 1 tokens.now))
        ≡ string_bytes out.old ++ laid style depth (lexemes_at text.now tokens.now)) }
    ensures next { IfOk result (λ next. next ≤ depth + 1) }
{
    let Some((token, rest)) = tokens.split_first() else {
        return Ok(depth);
    };
    write_range(text, token.start, token.end, out)?;
    let next = depth_behind(depth, &token.kind);
    write_gap_behind(style, next, &token.kind, rest, out)?;
    Ok(next)
}

// Appends what stands between two places of the text.
fn write_range(text: &str, start: usize, end: usize, out: &mut String) -> Result<(), AllocError>
    requires { IsCut text.now start end }
    ensures { IfOk result (λ done. string_bytes out.new ≡ string_bytes out.old ++ slice_range text.now start end) }
{
    out.push_str(&text[start..end])
}

// Appends what stands between a token and those that follow it.
fn write_gap_behind(
    style: Style,
    depth: usize,
    kind: &TokenKind,
    rest: &[Token],
    out: &mut String,
) -> Result<(), AllocError>
    ensures { IfOk result (λ done. (text : List ℕ) → string_bytes out.new ≡ string_bytes out.old ++ gap_behind style depth kind.now (lexemes_at text rest.now)) }
{
    match rest.split_first() {
        Some((next, _)) => write_gap(gap_between(style, depth, kind, &next.kind), out),
        None => Ok(()),
    }
}
