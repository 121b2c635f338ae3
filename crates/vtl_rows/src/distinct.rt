// The distinct cells of a column, found by their hashes as long as they are few.

use crate::Table;
use crate::order::cell_at;
use std::alloc::{AllocError, Global};
use std::hash::{FoldHasher, Hash, Hasher};
use vtl_cell::Cell;

// No more distinct cells than this are told apart.
const MAX_DISTINCT: usize = 65_536;

// A cell is looked for in at most this many slots, so that cells of one hash cost no more than this many comparisons
// each.
const MAX_PROBES: usize = 32;

// The rows of the distinct cells that were found so far, and slots with their places, counted from 1, by hash.
#[derive(Drop)]
pub(crate) struct Distinct {
    column: usize,
    rows: Vec<usize>,
    slots: Vec<usize>,
}

impl Distinct {
    // None yet, for a column of a number of rows.
    pub(crate) fn new(alloc: Global, column: usize, count: usize) -> Result<Distinct, AllocError> {
        let room = count
            .min(MAX_DISTINCT)
            .saturating_mul(2)
            .checked_next_power_of_two()
            .unwrap_or(1);
        Ok(Distinct {
            column,
            rows: Vec::new(alloc),
            slots: zeros(alloc, room)?,
        })
    }

    // A row for each distinct cell.
    pub(crate) fn rows(&self) -> &[usize] {
        self.rows.as_slice()
    }

    // The place of a row's cell among the distinct ones, the last where it is new. None where there are too many, or
    // too many have one hash.
    pub(crate) fn place_of(
        &mut self,
        table: &Table,
        i: usize,
    ) -> Result<Option<usize>, AllocError> {
        let Some(cell) = cell_at(table, i, self.column) else {
            return Ok(None);
        };
        let hash = hash_of(cell);
        for step in 0..MAX_PROBES {
            let slot = hash.wrapping_add(step) & self.slots.len().saturating_sub(1);
            match self.slots.get(slot).copied() {
                None => return Ok(None),
                Some(0) => return self.put(slot, i),
                Some(k) => {
                    if self.has(table, k - 1, cell) {
                        return Ok(Some(k - 1));
                    }
                }
            }
        }
        Ok(None)
    }

    // Whether the cell at a place is equal to this one.
    fn has(&self, table: &Table, place: usize, cell: &Cell) -> bool {
        match self.rows.get(place) {
            Some(i) => cell_at(table, *i, self.column).is_some_and(|c| c == cell),
            None => false,
        }
    }

    // Puts a row's cell after the others.
    fn put(&mut self, slot: usize, i: usize) -> Result<Option<usize>, AllocError> {
        let place = self.rows.len();
        if place >= MAX_DISTINCT {
            return Ok(None);
        }
        self.rows.push(i)?;
        if let Some(k) = self.slots.get_mut(slot) {
            *k = place + 1;
        }
        Ok(Some(place))
    }
}

fn hash_of(cell: &Cell) -> usize {
    let mut state = FoldHasher::default();
    cell.hash(&mut state);
    state.finish() as usize
}

// This many zeros.
pub(crate) fn zeros(alloc: Global, count: usize) -> Result<Vec<usize>, AllocError> {
    let mut zeros = Vec::with_capacity(alloc, count)?;
    for _ in 0..count {
        zeros.push(0)?;
    }
    Ok(zeros)
}
