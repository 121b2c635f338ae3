// The least and the greatest cell of a frame, by a queue of places.
//
// The queue holds the places of the values that no value behind them beats, and its first is the best. What it holds
// is a function of the frame's places alone (`best_places`), so coming and going are two equations.
ghost use Rattle.std.specs.List.{All};
ghost use Rattle.std.specs.Prelude.{◌≡◌, ◌<◌, [], IfOk, OnOk, length};
ghost use Rattle.vtl_cell.specs.Row.{column_of};
ghost use Rattle.vtl_cell.specs.declared.cell.Cell.TheVariants as c;
ghost use Rattle.vtl_frames.specs.Best.{cell_in, first_of, is_last_beaten, le_of, with_place, without_beaten, without_place};
ghost use Rattle.vtl_frames.specs.Picks.{cell_or};

use crate::Partition;
use std::alloc::{AllocError, Global};
use std::collections::VecDeque;
use vtl_cell::{AggKind, Cell, clone_cell, compare};

// The places of the values that no value behind them beats. So the first of them is the best, and each is at least as
// good as those behind it.
pub(crate) struct Best {
    kind: AggKind,
    places: VecDeque<usize>,
}

// Written out, so that each owner sees one call and not the drop of each part.
impl Drop for Best {
    fn drop(self) {
        let Best {
            kind: _,
            places: _places,
        } = self;
    }
}

// Whether a cell is at least as good as another.
fn is_as_good(kind: AggKind, c: &Cell, other: &Cell) -> bool
    ensures { result ≡ le_of kind c.now other.now }
{
    match kind {
        AggKind::Max => !compare(c, other).is_lt(),
        _ => !compare(other, c).is_lt(),
    }
}

impl Best {
    // Of no cells.
    pub(crate) fn new(alloc: Global, kind: AggKind) -> Best
        ensures kind { result.kind ≡ kind }
        ensures places { result.places.items ≡ [] }
    {
        Best {
            kind,
            places: VecDeque::new(alloc),
        }
    }

    // Whether the last place has a cell that another beats.
    fn is_last_beaten<P: Partition>(&self, cells: &P, c: &Cell) -> bool
        requires { All (λ k. k < length (P.cells cells.now)) self.now.places.items }
        ensures { result ≡ is_last_beaten (λ k. le_of self.now.kind c.now (cell_in (P.cells cells.now) k)) self.now.places.items }
    {
        match self.places.back() {
            Some(place) => is_as_good(self.kind, c, cells.cell(*place)),
            None => false,
        }
    }

    // Lets the places go at the end whose cells another beats.
    fn let_beaten_go<P: Partition>(&mut self, cells: &P, c: &Cell)
        requires { All (λ k. k < length (P.cells cells.now)) self.old.places.items }
        ensures kind { self.new.kind ≡ self.old.kind }
        ensures places { self.new.places.items ≡ without_beaten (λ k. le_of self.old.kind c.now (cell_in (P.cells cells.now) k)) self.old.places.items }
    {
        while self.is_last_beaten(cells, c) {
            self.places.pop_back();
        }
    }

    // One more cell, behind the others.
    pub(crate) fn enter<P: Partition>(&mut self, cells: &P, place: usize) -> Result<(), AllocError>
        requires place { place < length (P.cells cells.now) }
        requires places { All (λ k. k < length (P.cells cells.now)) self.old.places.items }
        ensures kind { self.new.kind ≡ self.old.kind }
        ensures places { OnOk result (self.new.places.items ≡ with_place (le_of self.old.kind) (cell_in (P.cells cells.now)) self.old.places.items place) }
    {
        let cell = cells.cell(place);
        if let Cell::Null = cell {
            return Ok(());
        }
        self.let_beaten_go(cells, cell);
        self.places.push_back(place)?;
        Ok(())
    }

    // Without the first cell, which has this place.
    pub(crate) fn leave(&mut self, place: usize)
        ensures kind { self.new.kind ≡ self.old.kind }
        ensures places { self.new.places.items ≡ without_place place self.old.places.items }
    {
        if self.places.front() == Some(&place) {
            self.places.pop_front();
        }
    }

    // The best cell, null where there is no value; its text is shared.
    pub(crate) fn value<P: Partition>(&self, cells: &P) -> Result<Cell, AllocError>
        requires { All (λ k. k < length (P.cells cells.now)) self.now.places.items }
        ensures { IfOk result (λ x. x ≡ cell_or c.Null (P.cells cells.now) (first_of self.now.places.items)) }
    {
        match self.places.front() {
            Some(place) => clone_cell(cells.cell(*place)),
            None => Ok(Cell::Null),
        }
    }
}
