// What stands at the front of some tokens.
ghost use Rattle.std.specs.Prelude.{◌≡◌, ◌∷◌, [], MatchOption, option_map};
ghost use Rattle.vtl_grammar.specs.Faults.{kinds};
ghost use Rattle.vtl_grammar.specs.Reading.{after_keyword, after_sign, is_keyword, is_sign};

use std::alloc::{AllocError, AllocFailed};
use vtl_lexer::{Keyword, Sign, Token, TokenKind, is_same_keyword};

/// What stands at the front of some tokens, and the tokens after it.
#[derive(Drop)]
pub struct Front<'t, T> {
    /// What was read.
    pub part: T,
    /// The tokens that are left.
    pub rest: &'t [Token],
}

/// Why a part was not read.
#[derive(Clone, Copy, Debug, PartialEq, Eq)]
pub enum Unread {
    /// It does not stand there.
    Absent,
    /// There was not enough memory.
    OutOfMemory,
}

impl From<AllocError> for Unread {
    ghost use Rattle.read_parts.specs.declared.front.Unread.TheVariants.{OutOfMemory};

    ghost from_gives = { λ _ e. e ≡ OutOfMemory };

    fn from(_: AllocError) -> Unread {
        Unread::OutOfMemory
    }
}

impl<T: Drop> From<AllocFailed<T>> for Unread {
    ghost use Rattle.read_parts.specs.declared.front.Unread.TheVariants.{OutOfMemory};

    ghost from_gives = { λ _ e. e ≡ OutOfMemory };

    fn from(_: AllocFailed<T>) -> Unread {
        Unread::OutOfMemory
    }
}

/// The first token and those after it.
#[tactic(auto, unfolding(vtl_grammar::specs::Faults::kinds))]
pub fn next(tokens: &[Token]) -> Option<(&TokenKind, &[Token])>
    ensures { MatchOption result (kinds tokens.now ≡ []) (λ p. kinds tokens.now ≡ p.0.now ∷ kinds p.1.now) }
{
    let (first, rest) = tokens.split_first()?;
    Some((&first.kind, rest))
}

fn is_keyword(kind: &TokenKind, keyword: Keyword) -> bool
    ensures { result ≡ is_keyword keyword kind.now }
{
    match kind {
        TokenKind::Keyword(word) => is_same_keyword(*word, keyword),
        _ => false,
    }
}

fn is_sign(kind: &TokenKind, sign: Sign) -> bool
    ensures { result ≡ is_sign sign kind.now }
{
    match kind {
        TokenKind::Sign(other) => *other as u8 == sign as u8,
        _ => false,
    }
}

/// The tokens after the keyword, where it stands first.
#[tactic(auto, unfolding(vtl_grammar::specs::Reading::after_keyword))]
pub fn after_keyword(tokens: &[Token], keyword: Keyword) -> Option<&[Token]>
    ensures { option_map (λ rest. kinds rest.now) result ≡ after_keyword keyword (kinds tokens.now) }
{
    match next(tokens) {
        Some((first, rest)) if is_keyword(first, keyword) => Some(rest),
        _ => None,
    }
}

/// The tokens after the sign, where it stands first.
#[tactic(auto, unfolding(vtl_grammar::specs::Reading::after_sign))]
pub fn after_sign(tokens: &[Token], sign: Sign) -> Option<&[Token]>
    ensures { option_map (λ rest. kinds rest.now) result ≡ after_sign sign (kinds tokens.now) }
{
    match next(tokens) {
        Some((first, rest)) if is_sign(first, sign) => Some(rest),
        _ => None,
    }
}

// An optional part that was read.
pub(crate) fn some<T>(front: Front<'_, T>) -> Front<'_, Option<T>>
    ensures part { result.part ≡ Some front.entry.part }
    ensures rest { result.rest.now ≡ front.entry.rest.now }
{
    Front {
        part: Some(front.part),
        rest: front.rest,
    }
}

// An optional part that does not stand there.
pub(crate) fn absent<T>(tokens: &[Token]) -> Front<'_, Option<T>>
    ensures part { result.part ≡ None }
    ensures rest { result.rest.now ≡ tokens.now }
{
    Front {
        part: None,
        rest: tokens,
    }
}
