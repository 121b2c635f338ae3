// Equalities of EXISTS: whether two lists are the same, and which columns they equate.
ghost use Rattle.std.specs.Prelude.{◌≡◌, ◌<◌, ◌++◌, ◌∷◌, [], List, true, IfOk, IfSome, length};
ghost use Rattle.sql_from.specs.Partners.{AreTiedBy, AreTiesImplying, IsTiedBy};

use crate::Sources;
use crate::key_pairs::KeyPair;
use sql_eval::{Side, Tie};
use std::alloc::{AllocError, Global};

fn is_same_side(a: Side, b: Side) -> bool
    ensures { result ≡ true → a ≡ b }
{
    match (a, b) {
        (Side::Inner(i), Side::Inner(j)) => i == j,
        (Side::Outer(i), Side::Outer(j)) => i == j,
        _ => false,
    }
}

fn is_same_tie(a: Tie, b: Tie) -> bool
    ensures { result ≡ true → a ≡ b }
{
    is_same_side(a.left, b.left) && is_same_side(a.right, b.right)
}

/// Whether two lists of equalities are known to be the same.
pub(crate) fn are_same_ties(a: &[Tie], b: &[Tie]) -> bool
    ensures { result ≡ true → a.now ≡ b.now }
{
    if a.len() != b.len() {
        return false;
    }
    for i in 0..a.len() {
        if !is_same_tie(a[i], b[i]) {
            return false;
        }
    }
    true
}

// The columns of a table of EXISTS and of the source that leads, where a cell of FROM is of that source.
fn pair_at(sources: &Sources<'_>, lead: usize, own: usize, place: usize) -> Option<KeyPair>
    ensures inner { IfSome result (IsTiedBy sources.now lead (record { left = Side.Inner own; right = Side.Outer place })) }
    ensures outer { IfSome result (IsTiedBy sources.now lead (record { left = Side.Outer place; right = Side.Inner own })) }
{
    let pick = sources.pick(place)?;
    if pick.part == lead {
        Some(KeyPair {
            own,
            asked: pick.column,
        })
    } else {
        None
    }
}

// The columns that an equality ties: one of the table of EXISTS, and one of the source that leads.
fn tie_pair(sources: &Sources<'_>, lead: usize, tie: Tie) -> Option<KeyPair>
    ensures { IfSome result (IsTiedBy sources.now lead tie) }
{
    match (tie.left, tie.right) {
        (Side::Inner(own), Side::Outer(place)) => pair_at(sources, lead, own, place),
        (Side::Outer(place), Side::Inner(own)) => pair_at(sources, lead, own, place),
        _ => None,
    }
}

// Puts the columns that an equality ties behind those of others, if it ties a column of the table of EXISTS and one of the
// source that leads, and tells whether it does.
fn push_tie(
    keys: &mut Vec<KeyPair>,
    sources: &Sources<'_>,
    lead: usize,
    tie: Tie,
) -> Result<bool, AllocError>
    ensures implied { IfOk result (λ _. (ties : List Tie) → AreTiesImplying sources.now lead ties keys.old.items → AreTiesImplying sources.now lead (ties ++ tie ∷ []) keys.new.items) }
    ensures tied { IfOk result (λ b. b ≡ true → (ties : List Tie) → AreTiedBy sources.now lead ties keys.old.items → AreTiedBy sources.now lead (ties ++ tie ∷ []) keys.new.items) }
{
    match tie_pair(sources, lead, tie) {
        Some(pair) => {
            keys.push(pair)?;
            Ok(true)
        }
        None => Ok(false),
    }
}

/// The columns that equalities tie, of those that tie a column of the table of EXISTS and one of the source that leads, and
/// whether all do. It fails only if memory runs out.
pub(crate) fn tied_columns(
    alloc: Global,
    sources: &Sources<'_>,
    lead: usize,
    ties: &[Tie],
) -> Result<(Vec<KeyPair>, bool), AllocError>
    ensures implied { IfOk result (λ r. AreTiesImplying sources.now lead ties.now r.0.items) }
    ensures tied { IfOk result (λ r. r.1 ≡ true → AreTiedBy sources.now lead ties.now r.0.items) }
{
    let mut keys = Vec::new(alloc);
    let mut is_whole = true;
    for tie in ties {
        let here = push_tie(&mut keys, sources, lead, *tie)?;
        is_whole = is_whole && here;
    }
    Ok((keys, is_whole))
}

// The source whose cell an equality asks for beside one of the table of EXISTS, if it is such a one.
fn lead_of_tie(sources: &Sources<'_>, tie: Tie) -> Option<usize>
    ensures { IfSome result (λ n. n < length sources.now.sources) }
{
    match (tie.left, tie.right) {
        (Side::Inner(_), Side::Outer(place)) => Some(sources.pick(place)?.part),
        (Side::Outer(place), Side::Inner(_)) => Some(sources.pick(place)?.part),
        _ => None,
    }
}

/// The source whose cell the first such equality asks for, if there is one.
pub(crate) fn lead_of_ties(sources: &Sources<'_>, ties: &[Tie]) -> Option<usize>
    ensures { IfSome result (λ n. n < length sources.now.sources) }
{
    for tie in ties {
        if let Some(lead) = lead_of_tie(sources, *tie) {
            return Some(lead);
        }
    }
    None
}
