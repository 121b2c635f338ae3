// The first row that agrees with one before it.
ghost use Rattle.std.specs.Prelude.{◌≡◌, ◌<◌, ◌≤◌, ◌^◌, ◌&&◌, nat_lt, None, length, All, IfOk, IfSome, IsPermutation, if◌then◌else◌};
ghost use Rattle.std.specs.Bool.{OnTrue};
ghost use Rattle.std.specs.List.{range_with_len};
ghost use Rattle.vtl_rows.specs.Keys.{FindsRepeat, FindsSame, apart, tie_by};
ghost use Rattle.vtl_rows.specs.Places.{IsOrderOf, ties_before};
ghost use Rattle.vtl_rows.specs.Seen.{IsNewUpTo, TellsUpTo};

use crate::guess::guessed_order;
use crate::order::{
    begins_block, compare_places, fetched, is_in_order, numbers_below, rising_keys, sorted_places,
};
use crate::seen::{Meeting, Probe, Seen};
use crate::{SortKey, Table};
use std::alloc::{AllocError, Global};

// The slots of this many rows are fetched side by side.
const BLOCK: usize = 32;

// Adds the rows from one up to another to those that were seen. The first of them that ties with one before it, if
// there is one; None where the search is given up.
fn repeat_in_block(
    seen: &mut Seen,
    table: &Table,
    keys: &[SortKey],
    first: usize,
    end: usize,
    probes: &mut Vec<Probe>,
) -> Result<Option<Option<usize>>, AllocError>
    requires small { end < 2 ^ 32 }
    requires from { first ≤ end }
    requires within { end ≤ length table.now.rows }
    requires new { IsNewUpTo keys.now table.now.rows seen.old.mask seen.old.slots.items first }
    ensures { IfOk result (TellsUpTo keys.now table.now.rows seen.new.mask seen.new.slots.items end) }
{
    seen.probe_rows(table, keys, first, end, probes)?;
    // A few rows never come to this sum: it is asked for so that no compiler leaves out the reads.
    if seen.fetched(probes) == usize::MAX {
        return Ok(None);
    }
    for probe in probes.iter() {
        match seen.add(table, keys, *probe) {
            Meeting::New => {}
            Meeting::Repeat => return Ok(Some(Some(probe.row))),
            Meeting::Unknown => return Ok(None),
        }
    }
    Ok(Some(None))
}

// The first row that ties with one before it, if there is one, found by hash. None where the search is given up.
fn repeat_by_hash(
    alloc: Global,
    table: &Table,
    keys: &[SortKey],
) -> Result<Option<Option<usize>>, AllocError>
    ensures { IfOk result (λ o. IfSome o (FindsSame (tie_by keys.now) table.now.rows)) }
{
    if table.len() > u32::MAX as usize {
        return Ok(None);
    }
    let mut seen = Seen::new(alloc, table.len())?;
    let mut probes = Vec::with_capacity(alloc, table.len().min(BLOCK))?;
    let mut first = 0;
    while first < table.len() {
        let end = first.saturating_add(BLOCK).min(table.len());
        match repeat_in_block(&mut seen, table, keys, first, end, &mut probes)? {
            Some(None) => first = end,
            told => return Ok(told),
        }
    }
    Ok(Some(None))
}

// The lesser of two numbers; the first counts only where the row at that place ties with one before it.
fn lesser(table: &Table, keys: &[SortKey], before: usize, place: usize, least: usize) -> usize
    ensures { result ≡ if nat_lt place least && ties_before keys.now table.now.rows before place then place else least }
{
    if place < least && before < place && compare_places(table, keys, before, place).is_eq() {
        return place;
    }
    least
}

// The same, from the places of the rows in order: the least later one of two neighbours that tie.
fn repeat_in_order(table: &Table, places: &[usize], keys: &[SortKey]) -> Option<usize>
    requires { IsOrderOf keys.now table.now.rows places.now }
    ensures { FindsSame (tie_by keys.now) table.now.rows result }
{
    let mut least = table.len();
    for i in 0..places.len().saturating_sub(1) {
        least = lesser(table, keys, places[i], places[i + 1], least);
    }
    if least < table.len() {
        Some(least)
    } else {
        None
    }
}

// Whether the rows at these places are each before the next one; then none ties with another.
fn rise_strictly(table: &Table, keys: &[SortKey], places: &[usize]) -> bool
    requires { IsPermutation (range_with_len 0 (length table.now.rows)) places.now }
    ensures { OnTrue result (FindsSame (tie_by keys.now) table.now.rows None) }
{
    for i in 0..places.len().saturating_sub(1) {
        // As in `are_placed`.
        if begins_block(i) && fetched(table, keys, &places[i..]) == usize::MAX {
            return false;
        }
        if !compare_places(table, keys, places[i + 1], places[i]).is_gt() {
            return false;
        }
    }
    true
}

// The same, by hash, and by a sort where cells were chosen to have one hash.
fn repeat_of(alloc: Global, table: &Table, keys: &[SortKey]) -> Result<Option<usize>, AllocError>
    ensures { IfOk result (FindsSame (tie_by keys.now) table.now.rows) }
{
    if is_in_order(table, keys) {
        let places = numbers_below(alloc, table.len())?;
        return Ok(repeat_in_order(table, &places, keys));
    }
    if let Some(found) = repeat_by_hash(alloc, table, keys)? {
        return Ok(found);
    }
    let guess = guessed_order(alloc, table, keys)?;
    if rise_strictly(table, keys, &guess) {
        return Ok(None);
    }
    let places = sorted_places(table, keys, guess)?;
    Ok(repeat_in_order(table, &places, keys))
}

impl Table {
    /// The place of the first row that agrees in the columns with a row before it, if there is one. It fails only if
    /// memory runs out.
    pub fn first_repeat(
        &self,
        alloc: Global,
        columns: &[usize],
    ) -> Result<Option<usize>, AllocError>
        requires { All (λ i. i < length self.now.columns) columns.now }
        ensures { IfOk result (FindsRepeat columns.now self.now.rows) }
    {
        let keys = rising_keys(alloc, columns)?;
        repeat_of(alloc, self, &keys)
    }

    /// Whether no two rows agree in the columns. It fails only if memory runs out.
    #[tactic(auto, using(crate::proofs::Firsts::found_or_apart))]
    pub fn is_key(&self, alloc: Global, columns: &[usize]) -> Result<bool, AllocError>
        requires { All (λ i. i < length self.now.columns) columns.now }
        ensures { IfOk result (λ b. b ≡ apart columns.now self.now.rows) }
    {
        Ok(self.first_repeat(alloc, columns)?.is_none())
    }
}
