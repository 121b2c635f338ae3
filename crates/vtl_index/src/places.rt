// Where keys are found: by their hashes, and those for which a bucket has no slot by their order. So no choice of keys
// makes a look-up longer than the logarithm of their number.
ghost use Rattle.std.specs.Prelude.{◌≡◌, ℕ, ◌<◌, ◌*◌, ◌^◌, true, false, length, Some, None, [], IfOk, OnOk, OnErr, if◌then◌else◌};
ghost use Rattle.vtl_index.specs.Keys.{key_hash, key_at, is_at};
ghost use Rattle.vtl_index.specs.Buckets.{IsFilled, bucket_at, in_slots, is_free, slots_at};
ghost use Rattle.std.specs.List.{list_any};
ghost use Rattle.vtl_index.specs.Places.{AllFound, FindsSame, IsApart, IsBacked, KeepsOthers, TakesPlace, in_others, seek};

use crate::bucket::{Bucket, SLOTS, Slot, fill, has_free};
use crate::keys::{Keys, copied, hash_of};
use std::alloc::{AllocError, Global};
use std::collections::BTreeMap;
use vtl_cell::Cell;

#[derive(Drop)]
pub(crate) struct Places {
    pub(crate) buckets: Vec<Bucket>,
    pub(crate) others: BTreeMap<Vec<Cell>, usize>,
}

// The bucket of a hash among this many, a power of two.
fn bucket_at(hash: u64, count: usize) -> usize
    ensures { result ≡ bucket_at hash count }
{
    hash as usize & count.saturating_sub(1)
}

// Fills the first free slot of a hash, where there is one.
fn fill_bucket(buckets: &mut Vec<Bucket>, slot: Slot) -> bool
    requires { 0 < length buckets.old.items }
    ensures filled { IsFilled slot buckets.old.items buckets.new.items }
    ensures found { result ≡ list_any is_free (slots_at buckets.old.items slot.hash) }
{
    let at = bucket_at(slot.hash, buckets.len());
    let bucket = &mut buckets[at];
    fill(&mut bucket.slots, slot)
}

// The place of a key among slots.
fn in_slots(slots: &[Slot], keys: &Keys, hash: u64, key: &[Cell]) -> Option<usize>
    requires { length keys.now.cells.now ≡ keys.now.count * keys.now.width }
    ensures { result ≡ in_slots (is_at keys.now.cells.now keys.now.width keys.now.count key.now) hash slots.now }
{
    slots
        .iter()
        .find(|slot| slot.hash == hash && keys.has(slot.place, key))
        .map(|slot| slot.place)
}

impl Places {
    // No places, in this many buckets.
    pub(crate) fn new(alloc: Global, count: usize) -> Result<Places, AllocError>
        ensures buckets { IfOk result (λ places. length places.buckets.items ≡ count) }
        ensures backed { IfOk result (λ places. IsBacked places.buckets.items places.others) }
    {
        let bucket = Bucket {
            slots: [Slot::free(); SLOTS],
        };
        let mut buckets = Vec::with_capacity(alloc, count)?;
        for _ in 0..count {
            buckets.push(bucket)?;
        }
        Ok(Places {
            buckets,
            others: BTreeMap::new(alloc),
        })
    }

    fn slots_at(&self, hash: u64) -> &[Slot]
        ensures { result.now ≡ slots_at self.now.buckets.items hash }
    {
        match self.buckets.get(bucket_at(hash, self.buckets.len())) {
            Some(bucket) => &bucket.slots,
            None => &[],
        }
    }

    // The place of a key.
    pub(crate) fn find(&self, keys: &Keys, hash: u64, key: &[Cell]) -> Option<usize>
        requires whole { length keys.now.cells.now ≡ keys.now.count * keys.now.width }
        requires hash { hash ≡ key_hash key.now }
        ensures { result ≡ seek (is_at keys.now.cells.now keys.now.width keys.now.count key.now) key.now self.now.buckets.items self.now.others }
    {
        let slots = self.slots_at(hash);
        match in_slots(slots, keys, hash, key) {
            Some(place) => Some(place),
            None => self.behind(slots, keys, key),
        }
    }

    // The place of a key that is not in its slots.
    fn behind(&self, slots: &[Slot], keys: &Keys, key: &[Cell]) -> Option<usize>
        requires { length keys.now.cells.now ≡ keys.now.count * keys.now.width }
        ensures { result ≡ (if list_any is_free slots.now then None else in_others (is_at keys.now.cells.now keys.now.width keys.now.count key.now) key.now self.now.others) }
    {
        if has_free(slots) {
            return None;
        }
        self.in_others(keys, key)
    }

    fn in_others(&self, keys: &Keys, key: &[Cell]) -> Option<usize>
        requires { length keys.now.cells.now ≡ keys.now.count * keys.now.width }
        ensures { result ≡ in_others (is_at keys.now.cells.now keys.now.width keys.now.count key.now) key.now self.now.others }
    {
        let place = *self.others.get(key)?;
        if keys.has(place, key) {
            Some(place)
        } else {
            None
        }
    }

    // Puts the place of a key. It fails only if memory runs out, and then leaves the places as they were.
    pub(crate) fn put(
        &mut self,
        alloc: Global,
        hash: u64,
        key: &[Cell],
        place: usize,
    ) -> Result<(), AllocError>
        requires hash { hash ≡ key_hash key.now }
        requires buckets { 0 < length self.old.buckets.items }
        requires backed { IsBacked self.old.buckets.items self.old.others }
        ensures count { length self.new.buckets.items ≡ length self.old.buckets.items }
        ensures backed { IsBacked self.new.buckets.items self.new.others }
        ensures kept { OnOk result (KeepsOthers key.now place self.old.buckets.items self.old.others self.new.buckets.items self.new.others) }
        ensures taken { OnOk result (TakesPlace key.now place self.new.buckets.items self.new.others) }
        ensures err { OnErr result (FindsSame self.old.buckets.items self.old.others self.new.buckets.items self.new.others) }
    {
        if fill_bucket(&mut self.buckets, Slot { hash, place }) {
            return Ok(());
        }
        self.others.insert(copied(alloc, key)?, place)?;
        Ok(())
    }

    // The places of keys of which no two are alike.
    pub(crate) fn of(alloc: Global, keys: &Keys, count: usize) -> Result<Places, AllocError>
        requires whole { length keys.now.cells.now ≡ keys.now.count * keys.now.width }
        requires apart { IsApart keys.now.cells.now keys.now.width keys.now.count }
        requires some { 0 < count }
        ensures buckets { IfOk result (λ places. length places.buckets.items ≡ count) }
        ensures backed { IfOk result (λ places. IsBacked places.buckets.items places.others) }
        ensures found { IfOk result (λ places. AllFound keys.now.cells.now keys.now.width keys.now.count places.buckets.items places.others) }
    {
        let mut places = Places::new(alloc, count)?;
        for place in 0..keys.count {
            let key = keys.at(place);
            places.put(alloc, hash_of(key), key, place)?;
        }
        Ok(places)
    }
}
