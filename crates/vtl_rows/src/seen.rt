// Rows that were seen, found by the hash of their cells in the columns of keys.
ghost use Rattle.std.specs.Prelude.{◌≡◌, ◌<◌, ◌≤◌, ◌^◌, ◌+◌, ◌-◌, length, OnOk};
ghost use Rattle.vtl_rows.specs.Places.{row_at};
ghost use Rattle.vtl_rows.specs.Seen.{Covers, Finds, Tells, is_match, probe_of, probes_of, row_hash, tag_of};

use crate::order::{compare_places, row_or_none};
use crate::{SortKey, Table};
use std::alloc::{AllocError, Global};
use std::hash::{FoldHasher, Hash, Hasher};
use vtl_cell::Cell;

// There are at least this many slots for each row.
const SLOTS_FOR_A_ROW: usize = 2;

// This many slots follow those at which a row is first looked for.
const MORE_SLOTS: usize = 256;

// No more than this many slots are looked at for each row on average, nor than these for one row: with more, the cost
// would depend on luck. Rows whose hashes were not chosen need one or two on average, and never as many.
const MAX_STEPS: usize = 4;

const MAX_STEPS_FOR_A_ROW: usize = 128;

// A row, and a part of its hash. The number of a row that was not seen stands for none.
#[derive(Clone, Copy)]
pub(crate) struct Slot {
    pub(crate) tag: u32,
    pub(crate) row: u32,
}

// The first place at which a row is looked for, the part of its hash, and its number.
#[derive(Clone, Copy)]
pub(crate) struct Probe {
    pub(crate) start: usize,
    pub(crate) tag: u32,
    pub(crate) row: usize,
}

// Where a search ended: at a row that is the same, at a free slot, or before it came to either.
pub(crate) enum Place {
    Same,
    Free(usize),
    Unknown,
}

// What a row is in relation to those before it: new, a repeat, or unknown.
pub(crate) enum Meeting {
    New,
    Repeat,
    Unknown,
}

#[derive(Drop)]
pub(crate) struct Seen {
    mask: usize,
    left: usize,
    slots: Vec<Slot>,
}

impl Seen {
    // No row yet, of this many.
    pub(crate) fn new(alloc: Global, count: usize) -> Result<Seen, AllocError> {
        let room = count
            .saturating_mul(SLOTS_FOR_A_ROW)
            .checked_next_power_of_two()
            .unwrap_or(1);
        Ok(Seen {
            mask: room.saturating_sub(1),
            left: count.saturating_mul(MAX_STEPS),
            slots: free_slots(alloc, room.saturating_add(MORE_SLOTS))?,
        })
    }

    // What to look for of the rows from one up to another, in place of what the list held.
    pub(crate) fn probe_rows(
        &self,
        table: &Table,
        keys: &[SortKey],
        first: usize,
        end: usize,
        probes: &mut Vec<Probe>,
    ) -> Result<(), AllocError>
        requires { first ≤ end }
        ensures { OnOk result (probes.new.items ≡ probes_of keys.now self.now.mask table.now.rows first (end - first)) }
    {
        probes.clear();
        for i in first..end {
            probes.push(probe_of(row_or_none(table, i), keys, self.mask, i))?;
        }
        Ok(())
    }

    // A sum over the slots at which rows are first looked for. No read of it waits for another, so the processor
    // fetches the slots side by side; a search would fetch one after the other.
    pub(crate) fn fetched(&self, probes: &[Probe]) -> usize {
        let mut sum: usize = 0;
        for probe in probes {
            if let Some(slot) = self.slots.get(probe.start) {
                sum = sum.wrapping_add(slot.row as usize);
            }
        }
        sum
    }

    // Looks for a row among those before it, and adds it where it is new.
    pub(crate) fn add(&mut self, table: &Table, keys: &[SortKey], probe: Probe) -> Meeting
        requires small { probe.row < 2 ^ 32 }
        requires of_row { probe ≡ probe_of keys.now self.old.mask (row_at table.now.rows probe.row) probe.row }
        requires covers { Covers keys.now table.now.rows self.old.mask self.old.slots.items probe.row }
        ensures same_mask { self.new.mask ≡ self.old.mask }
        ensures tells { Tells keys.now table.now.rows probe.row self.new.mask self.new.slots.items result }
    {
        let steps = self.left.min(MAX_STEPS_FOR_A_ROW);
        let end = probe.start.saturating_add(steps).min(self.slots.len());
        match seek(&self.slots, probe, end, table, keys) {
            Place::Same => Meeting::Repeat,
            Place::Unknown => Meeting::Unknown,
            Place::Free(place) => {
                self.left = self.left.saturating_sub(place - probe.start + 1);
                self.slots[place] = Slot {
                    tag: probe.tag,
                    row: probe.row as u32,
                };
                Meeting::New
            }
        }
    }
}

// This many slots of no row.
fn free_slots(alloc: Global, count: usize) -> Result<Vec<Slot>, AllocError> {
    let mut slots = Vec::with_capacity(alloc, count)?;
    for _ in 0..count {
        slots.push(Slot {
            tag: 0,
            row: u32::MAX,
        })?;
    }
    Ok(slots)
}

// The hash of a row's cells. Its seed is fixed, so nothing but time may depend on it, and not much of that.
fn hash_of(row: &[Cell], keys: &[SortKey]) -> u64
    ensures { result ≡ row_hash keys.now row.now }
{
    let null = Cell::Null;
    let mut state = FoldHasher::default();
    for key in keys {
        row.get(key.column).unwrap_or(&null).hash(&mut state);
    }
    state.finish()
}

// The upper half of a hash.
fn tag_of(hash: u64) -> u32
    ensures { result ≡ tag_of hash }
{
    (hash / (1 << 32)) as u32
}

fn probe_of(row: &[Cell], keys: &[SortKey], mask: usize, i: usize) -> Probe
    ensures { result ≡ probe_of keys.now mask row.now i }
{
    let hash = hash_of(row, keys);
    Probe {
        start: hash as usize & mask,
        tag: tag_of(hash),
        row: i,
    }
}

// Whether a slot holds a row that was seen before and is the same.
fn is_same(slot: Slot, probe: Probe, table: &Table, keys: &[SortKey]) -> bool
    ensures { result ≡ is_match keys.now table.now.rows probe slot }
{
    slot.tag == probe.tag && compare_places(table, keys, slot.row as usize, probe.row).is_eq()
}

// Looks for a row from a place on, among the slots up to another.
fn seek(slots: &[Slot], probe: Probe, end: usize, table: &Table, keys: &[SortKey]) -> Place
    requires { end ≤ length slots.now }
    ensures { Finds keys.now table.now.rows slots.now probe result }
{
    for i in probe.start..end {
        let slot = slots[i];
        if slot.row as usize >= probe.row {
            return Place::Free(i);
        }
        if is_same(slot, probe, table, keys) {
            return Place::Same;
        }
    }
    Place::Unknown
}
