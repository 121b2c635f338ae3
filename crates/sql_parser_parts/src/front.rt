// What stands at the front of some tokens.
ghost use Rattle.std.specs.Prelude.{◌≡◌, ◌∷◌, [], None, Some, MatchOption, MatchResult};
ghost use Rattle.sql_parser_parts.specs.Answers.{both_of, kinds, marked, optional_of};
ghost use Rattle.sql_parser_parts.specs.declared.front.Unread.TheVariants as unread;
ghost use Rattle.sql_tree.specs.Grammar.{key};

use crate::words::key;
use sql_lexer::{Token, TokenKind, Word};
use std::alloc::{AllocError, AllocFailed};

/// Tokens, lent.
pub type Tokens<'t> = &'t [Token];

/// What stands at the front of some tokens, and the tokens after it.
#[derive(Drop)]
pub struct Front<'t, T> {
    /// What was read.
    pub part: T,
    /// The tokens that are left.
    pub rest: Tokens<'t>,
}

/// Why a part was not read.
#[derive(Clone, Copy)]
pub enum Unread {
    /// It does not stand there.
    Absent,
    /// There was not enough memory.
    OutOfMemory,
}

impl From<AllocError> for Unread {
    ghost use Rattle.std.specs.Prelude.{◌≡◌};
    ghost use Rattle.sql_parser_parts.specs.declared.front.Unread.TheVariants.{OutOfMemory};

    ghost from_gives = { λ _ e. e ≡ OutOfMemory };

    fn from(_: AllocError) -> Unread {
        Unread::OutOfMemory
    }
}

impl<T: Drop> From<AllocFailed<T>> for Unread {
    ghost use Rattle.std.specs.Prelude.{◌≡◌};
    ghost use Rattle.sql_parser_parts.specs.declared.front.Unread.TheVariants.{OutOfMemory};

    ghost from_gives = { λ _ e. e ≡ OutOfMemory };

    fn from(_: AllocFailed<T>) -> Unread {
        Unread::OutOfMemory
    }
}

// The first token and those after it.
#[tactic(auto, unfolding(crate::specs::Answers::kinds))]
pub(crate) fn next(tokens: Tokens<'_>) -> Option<(&TokenKind, Tokens<'_>)>
    ensures { MatchOption result (kinds tokens.now ≡ []) (λ p. kinds tokens.now ≡ p.0.now ∷ kinds p.1.now) }
{
    let (first, rest) = tokens.split_first()?;
    Some((&first.kind, rest))
}

/// What was read, or nothing where it does not stand there. It fails only if memory ran out.
pub fn optional<T>(read: Result<Front<'_, T>, Unread>) -> Result<Option<Front<'_, T>>, Unread>
    ensures { result ≡ optional_of read.entry }
{
    match read {
        Ok(front) => Ok(Some(front)),
        Err(Unread::Absent) => Ok(None),
        Err(Unread::OutOfMemory) => Err(Unread::OutOfMemory),
    }
}

/// What was read, where the word stands after it.
pub fn before<T: Drop>(read: Front<'_, T>, word: Word) -> Result<Front<'_, T>, Unread>
    ensures { MatchResult result (λ front. (front.part ≡ read.entry.part) × ((key word).reads (kinds read.entry.rest.now) ≡ Some (marked (kinds front.rest.now)))) (λ e. ((key word).reads (kinds read.entry.rest.now) ≡ None) × (e ≡ unread.Absent)) }
{
    let rest = key(read.rest, word)?;
    Ok(Front {
        part: read.part,
        rest,
    })
}

/// A part that was read, and the one after it, as a pair.
pub fn both<A: Drop, B>(
    first: A,
    second: Result<Front<'_, B>, Unread>,
) -> Result<Front<'_, (A, B)>, Unread>
    ensures { result ≡ both_of first second.entry }
{
    match second {
        Ok(second) => Ok(Front {
            part: (first, second.part),
            rest: second.rest,
        }),
        Err(unread) => Err(unread),
    }
}
