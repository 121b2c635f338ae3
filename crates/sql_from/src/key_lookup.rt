// Rows of the last source, found by the cells of a row of another one.
//
// Keys of one other source alone: a look-up is asked with a row of that source as it lies in its table, and no cell
// is copied. It is asked once for each row of that table (`Matches`), and not for each tuple, so that a tuple finds
// its rows by a number.
ghost use Rattle.std.specs.List.{list_all};
ghost use Rattle.std.specs.Prelude.{◌≡◌, ℕ, ◌+◌, ◌<◌, ◌≤◌, true, IfOk, IfSome, IsSome, Some, length, slice_index};
ghost use Rattle.vtl_rows.specs.Tables.{listed};
ghost use Rattle.vtl_index.specs.Matches.{matched};
ghost use Rattle.sql_meaning.specs.Early.{is_safe};
ghost use Rattle.sql_meaning.specs.Profiles.{IsLawful};
ghost use Rattle.sql_from.specs.Conditions.{AreSound, conditions_at, trees_of};
ghost use Rattle.sql_from.specs.Held.{base_held};
ghost use Rattle.sql_from.specs.Keys.{AllImplied, AllPaired, AreLinked, last_of, linked_count};
ghost use Rattle.sql_from.specs.Lookups.{Finds, IsKeyed};

use crate::Sources;
use crate::key_pairs::{KeyPair, asked_columns, lead_of, own_columns, push_pairs};
use sql_plan::is_safe;
use sql_tree::SqlExpr;
use std::alloc::{AllocError, Global};
use std::sync::ledger::Ledger;
use vtl_decimal::Profile;
use vtl_index::{Matches, NullKeys, RowIndex, Steps};
use vtl_rows::Table;

/// For each row of the source that leads, the rows of the last source that have its key, and how many rows that source
/// has. A key with null has none.
pub(crate) struct KeyLookup<'a> {
    pub(crate) lead: usize,
    pub(crate) count: usize,
    pub(crate) matches: Matches<'a>,
}

// Written out, so that a proof sees one call and not the drop of each part.
impl Drop for KeyLookup<'_> {
    fn drop(self) {
        let KeyLookup {
            lead: _,
            count: _,
            matches: _matches,
        } = self;
    }
}

impl KeyLookup<'_> {
    /// The rows that are found for a tuple, rising. It takes no memory.
    pub(crate) fn found(&self, front: &[usize]) -> &[usize]
        requires { self.now.lead < length front.now }
        ensures { result.now ≡ matched self.now.matches (slice_index front.now self.now.lead) }
    {
        self.matches.rows(front[self.lead])
    }
}

/// The look-up of the rows of a table by columns of its own, asked with the rows of a source that leads, which has this
/// place and this table. It takes a step for each row of both. It fails only if memory runs out.
pub(crate) fn keyed<'a, L: Ledger>(
    alloc: Global,
    own: &'a Table,
    lead: usize,
    table: &'a Table,
    keys: &[KeyPair],
    p: &Profile,
    steps: &mut Steps<L>,
) -> Result<KeyLookup<'a>, AllocError>
    ensures keyed { IfOk result (IsKeyed (listed own.now) lead (listed table.now) keys.now p.now) }
    ensures steps { steps.new ≤ steps.old + (length table.now.rows + length own.now.rows) }
{
    let columns = own_columns(alloc, keys)?;
    let asked = asked_columns(alloc, keys)?;
    let index = RowIndex::of(alloc, own, columns, NullKeys::NotFound, p, steps)?;
    Ok(KeyLookup {
        lead,
        count: own.len(),
        matches: index.into_matches(alloc, table, asked, steps)?,
    })
}

/// A look-up of the rows of the last source for conditions: each row is found with which they are true of a tuple, and of a
/// whole look-up they are true with each row that is found.
pub(crate) struct JoinLookup<'a> {
    pub(crate) keys: KeyLookup<'a>,
    pub(crate) is_whole: bool,
}

// Written out, so that a proof sees one call and not the drop of each part.
impl Drop for JoinLookup<'_> {
    fn drop(self) {
        let JoinLookup {
            keys: _keys,
            is_whole: _,
        } = self;
    }
}

fn are_safe(conditions: &[&SqlExpr]) -> bool
    ensures { result ≡ list_all is_safe (trees_of conditions.now) }
{
    for condition in conditions {
        if !is_safe(condition) {
            return false;
        }
    }
    true
}

// The source that the first equality of a column of the last source and of another one asks for a cell.
fn first_lead(sources: &Sources<'_>, conditions: &[&SqlExpr]) -> Option<usize>
    ensures within { IfSome result (λ n. n + 1 < length sources.now.sources) }
    ensures is { (lead : ℕ) → AreLinked sources.now lead (trees_of conditions.now) → result ≡ Some lead }
{
    for condition in conditions {
        if let Some(lead) = lead_of(sources, condition) {
            return Some(lead);
        }
    }
    None
}

// The pairs of columns that conditions equate, and whether they are conjunctions of such equalities alone.
fn pairs_of(
    alloc: Global,
    sources: &Sources<'_>,
    lead: usize,
    conditions: &[&SqlExpr],
) -> Result<(Vec<KeyPair>, bool), AllocError>
    requires { lead + 1 < length sources.now.sources }
    ensures implied { IfOk result (λ r. AllImplied sources.now lead (trees_of conditions.now) r.0.items) }
    ensures paired { IfOk result (λ r. r.1 ≡ true → AllPaired sources.now lead (trees_of conditions.now) r.0.items) }
    ensures whole { IfOk result (λ r. AreLinked sources.now lead (trees_of conditions.now) → r.1 ≡ true) }
{
    let mut keys = Vec::new(alloc);
    let mut is_whole = true;
    for condition in conditions {
        let here = push_pairs(&mut keys, sources, lead, condition)?;
        is_whole = is_whole && here;
    }
    Ok((keys, is_whole))
}

/// The look-up of the rows of the last source for conditions, if none of them can have a fault and one of their parts is an
/// equality of a column of that source and one of another one; else none. All such equalities that ask the first such
/// source are its key. It takes a step for each row of both sources. It fails only if memory runs out.
pub(crate) fn lookup_of<'a, L: Ledger>(
    alloc: Global,
    sources: &Sources<'a>,
    conditions: &[&SqlExpr],
    p: &Profile,
    steps: &mut Steps<L>,
) -> Result<Option<JoinLookup<'a>>, AllocError>
    requires { IsLawful (base_held p.now sources.now.held) }
    ensures rows { IfOk result (λ o. IfSome o (λ l. l.keys.count ≡ length (last_of sources.now).rows)) }
    ensures some { (lead : ℕ) → AreLinked sources.now lead (trees_of conditions.now) → IfOk result IsSome }
    ensures whole { (lead : ℕ) → AreLinked sources.now lead (trees_of conditions.now) → IfOk result (λ o. IfSome o (λ l. l.is_whole ≡ true)) }
    ensures steps { (lead : ℕ) → AreLinked sources.now lead (trees_of conditions.now) → steps.new ≤ steps.old + linked_count sources.now lead }
    ensures sound { IfOk result (λ o. IfSome o (λ l. AreSound p.now sources.now (trees_of conditions.now))) }
    ensures finds { IfOk result (λ o. IfSome o (Finds (length sources.now.sources) (conditions_at p.now sources.now (trees_of conditions.now)))) }
{
    if !are_safe(conditions) {
        return Ok(None);
    }
    let Some(lead) = first_lead(sources, conditions) else {
        return Ok(None);
    };
    let (keys, is_whole) = pairs_of(alloc, sources, lead, conditions)?;
    let own = sources.table(sources.len() - 1);
    let table = sources.table(lead);
    Ok(Some(JoinLookup {
        keys: keyed(alloc, own, lead, table, &keys, p, steps)?,
        is_whole,
    }))
}
