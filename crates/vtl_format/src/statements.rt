// The text statement by statement.
ghost use Rattle.std.specs.Prelude.{◌≡◌, ◌++◌, ◌∷◌, [], ℕ, List, Option, IfOk, string_bytes};
ghost use Rattle.std.specs.List.{AllByRecursion, slice_range};
ghost use Rattle.vtl_lexer.specs.Parts.{HasParts};
ghost use Rattle.vtl_lexer.specs.Pieces.{IsCut, IsCutAt, IsCutOf, Piece, a_token, piece_of, pieces_of};
ghost use Rattle.vtl_format.specs.Form.{ends_statement, form_of_pieces, is_inside, lexemes_at};
ghost use Rattle.vtl_format.specs.Layout.{statement_form};
ghost use Rattle.vtl_format.specs.Written.{written};

use crate::layout::statement_form;
use std::alloc::{AllocError, Global};
use vtl_lexer::{Comment, Keyword, Part, Parted, Sign, Token, TokenKind, parts_before_fault};

// The tokens of the statement that has begun.
#[derive(Drop)]
struct Held {
    tokens: Vec<Token>,
    // Whether a `;` would stand within a definition.
    inside: bool,
}

// Whether a `;` would stand within a definition, behind this token.
fn is_inside(inside: bool, kind: &TokenKind) -> bool
    ensures { result ≡ is_inside inside kind.now }
{
    match kind {
        TokenKind::Keyword(Keyword::Define) => true,
        TokenKind::Keyword(Keyword::End) => false,
        _ => inside,
    }
}

fn ends_statement(inside: bool, kind: &TokenKind) -> bool
    ensures { result ≡ ends_statement inside kind.now }
{
    match kind {
        TokenKind::Sign(Sign::Semicolon) => !inside,
        _ => false,
    }
}

// Appends a line.
fn write_line(line: &str, out: &mut String) -> Result<(), AllocError>
    ensures { IfOk result (λ done. string_bytes out.new ≡ string_bytes out.old ++ (line.now ++ 10 ∷ [])) }
{
    out.push_str(line)?;
    out.push_str("\n")
}

// Appends a comment, on a line of its own.
fn write_comment(text: &str, comment: Comment, out: &mut String) -> Result<(), AllocError>
    requires { IsCut text.now comment.start comment.end }
    ensures { IfOk result (λ done. string_bytes out.new ≡ string_bytes out.old ++ (slice_range text.now comment.start comment.end ++ 10 ∷ [])) }
{
    write_line(&text[comment.start..comment.end], out)
}

// Appends a statement, and the end of its line.
fn write_statement(
    alloc: Global,
    text: &str,
    tokens: &[Token],
    out: &mut String,
) -> Result<(), AllocError>
    requires { AllByRecursion (IsCutOf text.now) tokens.now }
    ensures { IfOk result (λ done. string_bytes out.new ≡ string_bytes out.old ++ (statement_form (lexemes_at text.now tokens.now) ++ 10 ∷ [])) }
{
    let form = statement_form(alloc, text, tokens)?;
    write_line(form.as_str(), out)
}

// Takes one part more: a comment is written before the statement that it stands in, and a statement with its last token.
fn take_part(
    alloc: Global,
    text: &str,
    part: Part,
    held: &mut Held,
    out: &mut String,
) -> Result<(), AllocError>
    requires part { IsCutAt text.now part }
    requires held { AllByRecursion (IsCutOf text.now) held.old.tokens.items }
    ensures held { IfOk result (λ done. AllByRecursion (IsCutOf text.now) held.new.tokens.items) }
    ensures written { IfOk result (λ done. (pieces : List Piece)
        → string_bytes out.new ++ written held.new.inside (lexemes_at text.now held.new.tokens.items) pieces
        ≡ string_bytes out.old ++ written held.old.inside (lexemes_at text.now held.old.tokens.items) (piece_of text.now part ∷ pieces)) }
{
    match part {
        Part::Comment(comment) => write_comment(text, comment, out),
        Part::Token(token) => take_token(alloc, text, token, held, out),
    }
}

fn take_token(
    alloc: Global,
    text: &str,
    token: Token,
    held: &mut Held,
    out: &mut String,
) -> Result<(), AllocError>
    requires token { IsCutOf text.now token }
    requires held { AllByRecursion (IsCutOf text.now) held.old.tokens.items }
    ensures held { IfOk result (λ done. AllByRecursion (IsCutOf text.now) held.new.tokens.items) }
    ensures written { IfOk result (λ done. (pieces : List Piece)
        → string_bytes out.new ++ written held.new.inside (lexemes_at text.now held.new.tokens.items) pieces
        ≡ string_bytes out.old ++ written held.old.inside (lexemes_at text.now held.old.tokens.items)
        (a_token token.kind (slice_range text.now token.start token.end) ∷ pieces)) }
{
    if ends_statement(held.inside, &token.kind) {
        end_statement(alloc, text, token, held, out)
    } else {
        hold(token, held)
    }
}

// Holds a token back.
fn hold(token: Token, held: &mut Held) -> Result<(), AllocError>
    ensures tokens { IfOk result (λ done. held.new.tokens.items ≡ held.old.tokens.items ++ token ∷ []) }
    ensures inside { IfOk result (λ done. held.new.inside ≡ is_inside held.old.inside token.kind) }
{
    held.inside = is_inside(held.inside, &token.kind);
    held.tokens.push(token)?;
    Ok(())
}

// Appends the statement that ends with the token.
fn end_statement(
    alloc: Global,
    text: &str,
    token: Token,
    held: &mut Held,
    out: &mut String,
) -> Result<(), AllocError>
    requires token { IsCutOf text.now token }
    requires held { AllByRecursion (IsCutOf text.now) held.old.tokens.items }
    ensures tokens { IfOk result (λ done. held.new.tokens.items ≡ []) }
    ensures inside { IfOk result (λ done. held.new.inside ≡ held.old.inside) }
    ensures written { IfOk result (λ done. string_bytes out.new
        ≡ string_bytes out.old ++ (statement_form (lexemes_at text.now (held.old.tokens.items ++ token ∷ [])) ++ 10 ∷ [])) }
{
    held.tokens.push(token)?;
    write_statement(alloc, text, held.tokens.as_slice(), out)?;
    held.tokens.clear();
    Ok(())
}

// The canonical text of the tokens and comments of `text` before the first byte from which none starts.
pub(crate) fn form(alloc: Global, text: &str) -> Result<String, AllocError>
    ensures { IfOk result (λ out. (parts : List Part) × (bad : Option ℕ) × HasParts text.now parts bad × (string_bytes out ≡ form_of_pieces (pieces_of text.now parts))) }
{
    let Parted { parts, .. } = parts_before_fault(alloc, text)?;
    form_of(alloc, text, parts.into_vec())
}

fn form_of(alloc: Global, text: &str, parts: Vec<Part>) -> Result<String, AllocError>
    requires { AllByRecursion (IsCutAt text.now) parts.items }
    ensures { IfOk result (λ out. string_bytes out ≡ form_of_pieces (pieces_of text.now parts.items)) }
{
    let mut out = String::new(alloc);
    let mut held = Held {
        tokens: Vec::new(alloc),
        inside: false,
    };
    for part in parts {
        take_part(alloc, text, part, &mut held, &mut out)?;
    }
    if held.tokens.is_empty() {
        return Ok(out);
    }
    write_statement(alloc, text, held.tokens.as_slice(), &mut out)?;
    Ok(out)
}
