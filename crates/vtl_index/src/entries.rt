// Keys, the rows of each, and where each key is found.
ghost use Rattle.std.specs.Prelude.{◌≡◌, ◌*◌, ◌<◌, None, Some, length, OnOk, OnErr};
ghost use Rattle.vtl_index.specs.Entries.{IsIndexed, place_in, rows_in};
ghost use Rattle.vtl_index.specs.Keys.{key_hash};
ghost use Rattle.vtl_index.specs.Lookup.{with_row};

use crate::keys::{Keys, copied, hash_of};
use crate::places::Places;
use crate::row_numbers::RowNumbers;
use std::alloc::{AllocError, Global};
use std::collections::BTreeMap;
use vtl_cell::Cell;

// There are at most this many keys for each bucket, half as many as it has slots.
const MAX_LOAD: usize = 4;

// There are at least this many buckets, once there is a key.
const MIN_BUCKETS: usize = 8;

// The cells of the keys, one after the other, and for each key its rows.
#[derive(Drop)]
pub(crate) struct Entries {
    pub(crate) alloc: Global,
    pub(crate) width: usize,
    pub(crate) cells: Vec<Cell>,
    pub(crate) rows: Vec<RowNumbers>,
    pub(crate) places: Places,
}

impl Entries {
    pub(crate) fn new(alloc: Global, width: usize) -> Entries
        ensures width { result.width ≡ width }
        ensures indexed { IsIndexed result }
        ensures none { length result.rows.items ≡ 0 }
    {
        Entries {
            alloc,
            width,
            cells: Vec::new(alloc),
            rows: Vec::new(alloc),
            places: Places {
                buckets: Vec::new(alloc),
                others: BTreeMap::new(alloc),
            },
        }
    }

    fn keys(&self) -> Keys<'_>
        ensures cells { result.cells.now ≡ self.now.cells.items }
        ensures width { result.width ≡ self.now.width }
        ensures count { result.count ≡ length self.now.rows.items }
    {
        Keys {
            cells: self.cells.as_slice(),
            width: self.width,
            count: self.rows.len(),
        }
    }

    // The place of a key.
    fn find(&self, hash: u64, key: &[Cell]) -> Option<usize>
        requires indexed { IsIndexed self.now }
        requires hash { hash ≡ key_hash key.now }
        ensures { result ≡ place_in self.now key.now }
    {
        self.places.find(&self.keys(), hash, key)
    }

    // The rows of a key.
    pub(crate) fn rows_of(&self, key: &[Cell]) -> &[usize]
        requires { IsIndexed self.now }
        ensures { result.now ≡ rows_in self.now key.now }
    {
        match self.find(hash_of(key), key) {
            Some(place) => self.rows[place].as_slice(),
            None => &[],
        }
    }

    // Adds a row after the others of its key.
    pub(crate) fn add(&mut self, key: &[Cell], row: usize) -> Result<(), AllocError>
        requires indexed { IsIndexed self.old }
        requires width { length key.now ≡ self.old.width }
        ensures indexed { IsIndexed self.new }
        ensures width { self.new.width ≡ self.old.width }
        ensures rows { OnOk result (rows_in self.new ≡ with_row key.now row (rows_in self.old)) }
        ensures err { OnErr result (rows_in self.new ≡ rows_in self.old) }
    {
        let hash = hash_of(key);
        match self.find(hash, key) {
            Some(place) => self.rows[place].push(self.alloc, row),
            None => self.add_key(hash, key, row),
        }
    }

    // Adds the first row of a key.
    fn add_key(&mut self, hash: u64, key: &[Cell], row: usize) -> Result<(), AllocError>
        requires indexed { IsIndexed self.old }
        requires hash { hash ≡ key_hash key.now }
        requires width { length key.now ≡ self.old.width }
        requires absent { place_in self.old key.now ≡ None }
        ensures indexed { IsIndexed self.new }
        ensures width { self.new.width ≡ self.old.width }
        ensures rows { OnOk result (rows_in self.new ≡ with_row key.now row (rows_in self.old)) }
        ensures err { OnErr result (rows_in self.new ≡ rows_in self.old) }
    {
        self.make_room()?;
        let mut copy = copied(self.alloc, key)?;
        self.cells.reserve(copy.len())?;
        self.rows.reserve(1)?;
        let place = self.rows.len();
        self.places.put(self.alloc, hash, key, place)?;
        // There is room for both.
        self.cells.append(&mut copy)?;
        self.rows.push(RowNumbers::of(row))?;
        Ok(())
    }

    // Makes more buckets, where there are too few for one more key.
    fn make_room(&mut self) -> Result<(), AllocError>
        requires { IsIndexed self.old }
        ensures indexed { IsIndexed self.new }
        ensures width { self.new.width ≡ self.old.width }
        ensures rows { self.new.rows.items ≡ self.old.rows.items }
        ensures places { place_in self.new ≡ place_in self.old }
        ensures room { OnOk result (0 < length self.new.places.buckets.items) }
    {
        let count = self.places.buckets.len();
        if self.rows.len() / MAX_LOAD >= count {
            let count = count.saturating_mul(2).max(MIN_BUCKETS);
            self.places = Places::of(self.alloc, &self.keys(), count)?;
        }
        Ok(())
    }
}
