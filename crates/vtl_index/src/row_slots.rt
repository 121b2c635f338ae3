// The first row of each key, found by the hash of the key.
//
// A row that needs more than a fixed number of slots ends the search by hash for the whole table: then keys are
// hashed behind one cell more, and where that ends too, rows are found in an order of their keys, by halves. So
// neither building nor asking rests on luck, and cells that were chosen for one hash cost little more than others:
// what makes hashes alike is the state that the hasher has come to, which is another one behind that cell. Who
// chooses cells for both still gets the sort.
//
// Slots for few keys come first (8,192): rows that are grouped mostly have few keys, whose slots then stay near the
// processor, where two slots a row lie anywhere in 16 MB. Once more keys come the rows are gone over anew with slots
// for all of them; what is lost is the rows that had 8,192 keys among them.
ghost use Rattle.std.specs.Prelude.{◌≡◌, ◌<◌, ◌-◌, ◌^◌, replicate, IfOk};
ghost use Rattle.vtl_index.specs.FirstRows.{FindsFirst};
ghost use Rattle.vtl_index.specs.RowKeys.{count_in, hash_by, key_of, keys_in};
ghost use Rattle.vtl_index.specs.RowSlots.{IsFilled, Meets, Seeks, end_of, start_of};

use crate::row_keys::{Hashing, KeyedRows, RowKey, tag_of};
use std::alloc::{AllocError, Global};

// There are this many slots for each key.
const SLOTS_FOR_A_KEY: usize = 2;

// No more than this many slots are looked at for a key: with more, the cost would depend on luck.
const MAX_PROBES: usize = 128;

// The number that stands for no row.
const NO_ROW: u32 = u32::MAX;

// A row, and a part of the hash of its key.
#[derive(Clone, Copy)]
pub(crate) struct RowSlot {
    pub(crate) tag: u32,
    pub(crate) row: u32,
}

// Where a search for a key ended: at a row that has it, at a free slot, or before it came to either.
pub(crate) enum Place {
    Held(usize),
    Free(usize),
    Unknown,
}

// The keys of rows, each in a slot, and how many more keys are taken in.
#[derive(Drop)]
pub(crate) struct RowSlots {
    pub(crate) hashing: Hashing,
    pub(crate) mask: usize,
    pub(crate) slots: Vec<RowSlot>,
    left: usize,
}

// This many slots of no row.
fn free_slots(alloc: Global, count: usize) -> Result<Vec<RowSlot>, AllocError>
    ensures { IfOk result (λ slots. slots.items ≡ replicate count (record { tag = 0; row = 2 ^ 32 - 1 })) }
{
    let mut slots = Vec::with_capacity(alloc, count)?;
    for _ in 0..count {
        slots.push(RowSlot {
            tag: 0,
            row: NO_ROW,
        })?;
    }
    Ok(slots)
}

impl RowSlots {
    // No rows yet, of the rows of a table, with slots for so many keys.
    pub(crate) fn new(
        alloc: Global,
        keyed: &KeyedRows,
        hashing: Hashing,
        count: usize,
    ) -> Result<RowSlots, AllocError>
        requires { count_in keyed.now < 2 ^ 32 }
        ensures { IfOk result (λ t. IsFilled t.hashing (keys_in keyed.now) (count_in keyed.now) t.mask t.slots.items 0) }
    {
        let room = count
            .saturating_mul(SLOTS_FOR_A_KEY)
            .checked_next_power_of_two()
            .unwrap_or(1);
        let slots = free_slots(alloc, room.saturating_add(MAX_PROBES))?;
        Ok(RowSlots {
            hashing,
            mask: room.saturating_sub(1),
            slots,
            left: count,
        })
    }

    // The place at which a hash is first looked for.
    fn start_of(&self, hash: u64) -> usize
        ensures { result ≡ start_of self.now.mask hash }
    {
        hash as usize & self.mask
    }

    // The place before which it is found, or not at all.
    fn end_of(&self, hash: u64) -> usize
        ensures { result ≡ end_of self.now.mask self.now.slots.items hash }
    {
        self.start_of(hash)
            .saturating_add(MAX_PROBES)
            .min(self.slots.len())
    }

    // Looks for a key.
    fn seek(&self, keyed: &KeyedRows, hash: u64, key: &RowKey) -> Place
        requires { hash ≡ hash_by self.now.hashing (key_of key.now) }
        ensures { Seeks self.now.hashing (keys_in keyed.now) (count_in keyed.now) self.now.mask self.now.slots.items (key_of key.now) result }
    {
        let tag = tag_of(hash);
        for place in self.start_of(hash)..self.end_of(hash) {
            let slot = self.slots[place];
            let row = slot.row as usize;
            if row >= keyed.len() {
                return Place::Free(place);
            }
            if slot.tag == tag && keyed.has(row, key) {
                return Place::Held(row);
            }
        }
        Place::Unknown
    }

    // A sum over the slots at which keys of these hashes are first looked for, and over the rows that stand there and
    // may have one of them; it is never the most there is. No read of it waits for another but that of a row's text for
    // that of its slot, so the processor fetches what many keys need side by side; a search would fetch it for one after
    // the other.
    pub(crate) fn fetched(&self, keyed: &KeyedRows, hashes: &[u64]) -> usize {
        let mut sum = 0usize;
        for hash in hashes {
            if let Some(slot) = self.slots.get(self.start_of(*hash)) {
                sum = sum.saturating_add(slot.row as usize);
            }
        }
        for hash in hashes {
            if let Some(slot) = self.slots.get(self.start_of(*hash)) {
                if slot.tag == tag_of(*hash) {
                    sum = sum.saturating_add(keyed.sample(slot.row as usize));
                }
            }
        }
        sum
    }

    // The first row that has a key, of which this is the hash.
    pub(crate) fn find(&self, keyed: &KeyedRows, key: &RowKey, hash: u64) -> Option<usize>
        requires hash { hash ≡ hash_by self.now.hashing (key_of key.now) }
        requires filled { IsFilled self.now.hashing (keys_in keyed.now) (count_in keyed.now) self.now.mask self.now.slots.items (count_in keyed.now) }
        ensures { FindsFirst (keys_in keyed.now) (count_in keyed.now) (key_of key.now) result }
    {
        match self.seek(keyed, hash, key) {
            Place::Held(row) => Some(row),
            Place::Free(_) => None,
            Place::Unknown => None,
        }
    }

    // The first row that has the key of a row, of which this is the hash. Where the row itself is the first, it is put in a
    // slot. None where the search is given up, or more keys came than slots were made for.
    pub(crate) fn meet(&mut self, keyed: &KeyedRows, i: usize, hash: u64) -> Option<usize>
        requires few { count_in keyed.now < 2 ^ 32 }
        requires within { i < count_in keyed.now }
        requires hash { hash ≡ hash_by self.old.hashing (keys_in keyed.now i) }
        requires filled { IsFilled self.old.hashing (keys_in keyed.now) (count_in keyed.now) self.old.mask self.old.slots.items i }
        ensures hashing { self.new.hashing ≡ self.old.hashing }
        ensures meets { Meets self.new.hashing (keys_in keyed.now) (count_in keyed.now) self.new.mask self.new.slots.items i result }
    {
        let key = keyed.key(i);
        match self.seek(keyed, hash, &key) {
            Place::Held(row) => Some(row),
            Place::Unknown => None,
            Place::Free(place) => {
                if self.left == 0 {
                    return None;
                }
                self.left -= 1;
                self.slots[place] = RowSlot {
                    tag: tag_of(hash),
                    row: i as u32,
                };
                Some(i)
            }
        }
    }
}
