// Tokens as text: each statement on a line, each clause of a query on a line of its own, and lists filled to a line's
// width.
//
// The layout has no definition: that a gap is white space where tokens need it is proved; lines and widths are no
// promise.
ghost use Rattle.std.specs.Prelude.{◌≡◌, ◌+◌, ◌<◌, ◌++◌, ℕ, List, length, take, chars, string_bytes, IfOk};
ghost use Rattle.sql_print.specs.Gaps.{Fits, WrittenAs, gap_text};
ghost use Rattle.sql_print.specs.declared.gaps.Gap.TheVariants as gap;

use crate::gaps::{Gap, is_prefix, is_tight, starts_clause};
use sql_lexer::{TokenKind, Word, write_token};
use std::alloc::{AllocError, Global};

const WIDTH: usize = 100;

// Where the text stands.
#[derive(Clone, Copy)]
struct Place {
    // How many brackets are open.
    depth: usize,
    // The depth at which lists are filled.
    lists: usize,
    // The characters of the line.
    width: usize,
}

impl Place {
    // The place after the token.
    fn behind(self, gap: Gap, kind: &TokenKind) -> Place {
        let start = match gap {
            Gap::Nothing => self.width,
            Gap::Space => self.width.saturating_add(1),
            Gap::Statement => 0,
            Gap::Clause => 2,
            Gap::Item => 4,
        };
        Place {
            depth: depth_behind(self.depth, kind),
            lists: lists_behind(self.lists, kind),
            width: start.saturating_add(width_of(kind)),
        }
    }
}

fn depth_behind(depth: usize, kind: &TokenKind) -> usize {
    match kind {
        TokenKind::Word(Word::Open) => depth.saturating_add(1),
        TokenKind::Word(Word::Close) => depth.saturating_sub(1),
        TokenKind::Word(Word::Semicolon) => 0,
        _ => depth,
    }
}

// The lists of INPUT stand in brackets.
fn lists_behind(lists: usize, kind: &TokenKind) -> usize {
    match kind {
        TokenKind::Word(Word::Input) => 1,
        TokenKind::Word(Word::Semicolon) => 0,
        _ => lists,
    }
}

// The characters of the token, not counting doubled quotes.
fn width_of(kind: &TokenKind) -> usize {
    match kind {
        TokenKind::Word(word) => word.spelling().len(),
        TokenKind::Name(text) | TokenKind::Text(text) => {
            text.as_str().chars().count().saturating_add(2)
        }
        TokenKind::Int(digits) | TokenKind::Dec(digits) => digits.as_str().len(),
    }
}

// The characters that an item of a list takes, up to what ends it.
fn item_width(ahead: &[TokenKind]) -> usize {
    let mut depth = 0;
    let mut width = 0usize;
    let mut front = None;
    let mut before = None;
    for kind in ahead {
        if depth == 0 && (ends_item(kind) || starts_clause(kind)) {
            break;
        }
        width = width.saturating_add(space_behind(front, before, kind));
        width = width.saturating_add(width_of(kind));
        depth = depth_behind(depth, kind);
        front = before;
        before = Some(kind);
    }
    width
}

fn ends_item(kind: &TokenKind) -> bool {
    matches!(
        kind,
        TokenKind::Word(Word::Comma | Word::Close | Word::Semicolon)
    )
}

fn space_behind(front: Option<&TokenKind>, before: Option<&TokenKind>, kind: &TokenKind) -> usize {
    match before {
        Some(before) if !is_tight(before, kind, is_prefix(front, before)) => 1,
        _ => 0,
    }
}

// Whether the next item of a list has room on the line, with the comma after it.
fn has_room(place: Place, ahead: &[TokenKind]) -> bool {
    place
        .width
        .saturating_add(item_width(ahead))
        .saturating_add(2)
        <= WIDTH
}

// What stands before the token, after those that are done.
#[tactic(auto, using(crate::proofs::GapLaws::fits))]
fn gap_behind(done: &[TokenKind], kind: &TokenKind, ahead: &[TokenKind], place: Place) -> Gap
    ensures { Fits done.now result kind.now }
{
    let Some((before, front)) = done.split_last() else {
        return Gap::Nothing;
    };
    if is_word(before, Word::Semicolon) {
        return Gap::Statement;
    }
    if place.depth == 0 && starts_clause(kind) {
        return Gap::Clause;
    }
    if is_tight(before, kind, is_prefix(front.last(), before)) {
        return Gap::Nothing;
    }
    if is_word(before, Word::Comma) && place.depth == place.lists && !has_room(place, ahead) {
        return Gap::Item;
    }
    Gap::Space
}

fn is_word(kind: &TokenKind, word: Word) -> bool {
    match kind {
        TokenKind::Word(other) => *other == word,
        _ => false,
    }
}

// Appends the token at a place of the list, and gives the place after it.
fn turn(tokens: &[TokenKind], i: usize, place: Place, out: &mut String) -> Result<Place, AllocError>
    requires { i < length tokens.now }
    ensures { IfOk result (λ next. WrittenAs tokens.now (take i tokens.now) (chars (string_bytes out.old)) → WrittenAs tokens.now (take (i + 1) tokens.now) (chars (string_bytes out.new))) }
{
    let (done, ahead) = tokens.split_at(i);
    let kind = &tokens[i];
    let gap = gap_behind(done, kind, ahead, place);
    out.push_str(gap.text())?;
    write_token(kind, out)?;
    Ok(place.behind(gap, kind))
}

// The text of the tokens, with the end of a line after them.
pub(crate) fn lay_out(alloc: Global, tokens: &[TokenKind]) -> Result<String, AllocError>
    ensures { IfOk result (λ text. (front : List ℕ) × (chars (string_bytes text) ≡ front ++ gap_text gap.Statement) × WrittenAs tokens.now tokens.now front) }
{
    let mut out = String::new(alloc);
    let mut place = Place {
        depth: 0,
        lists: 0,
        width: 0,
    };
    for i in 0..tokens.len() {
        place = turn(tokens, i, place, &mut out)?;
    }
    out.push_str(Gap::Statement.text())?;
    Ok(out)
}
