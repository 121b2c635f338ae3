// What is kept of the cells of a frame that moves up its partition.
//
// What is kept is said by places, not by a list of cells: a place more behind and a place less in front are the only
// steps.
ghost use Rattle.std.specs.Prelude.{◌≡◌, ◌+◌, ◌<◌, ◌≤◌, ◌^◌, ◌++◌, ◌∷◌, [], ℕ, List, IfOk, OnOk, true, length};
ghost use Rattle.vtl_cell.specs.Groups.{group_value};
ghost use Rattle.vtl_cell.specs.declared.cell.Cell as cells;
ghost use Rattle.vtl_frames.specs.Best.{cell_in};
ghost use Rattle.vtl_frames.specs.Framed.{cells_at, places_from};
ghost use Rattle.vtl_frames.specs.Kept.{Keeps, AreAbove, AreIn, is_moved};

use crate::Partition;
use crate::best::Best;
use crate::bounds::Cut;
use crate::totals::Totals;
use std::alloc::{AllocError, Global};
use vtl_cell::{AggKind, Cell};
use vtl_decimal::{Fault, Profile};

// The totals, or the best cells.
#[derive(Drop)]
pub(crate) enum State {
    Totals(Totals),
    Best(Best),
}

// The cells of a frame, for an aggregate other than a median.
pub(crate) struct Kept {
    kind: AggKind,
    state: State,
}

// Written out, so that each owner sees one call and not the drop of each part.
impl Drop for Kept {
    fn drop(self) {
        let Kept {
            kind: _,
            state: _state,
        } = self;
    }
}

impl Kept {
    // Of no cells.
    pub(crate) fn new(alloc: Global, kind: AggKind) -> Kept
        requires { is_moved kind ≡ true }
        ensures kind { result.kind ≡ kind }
        ensures keeps { (at : ℕ → cells.Cell) → Keeps at [] result }
    {
        let state = match kind {
            AggKind::Min | AggKind::Max => State::Best(Best::new(alloc, kind)),
            _ => State::Totals(Totals::new()),
        };
        Kept { kind, state }
    }

    // The cell at the place behind those that are kept comes.
    fn enter<P: Partition>(&mut self, cells: &P, place: usize) -> Result<(), AllocError>
        requires keeps { (ks : List ℕ) × Keeps (cell_in (P.cells cells.now)) ks self.old × AreIn (P.cells cells.now) ks × (length ks < 2 ^ 61) }
        requires place { place < length (P.cells cells.now) }
        ensures kind { self.new.kind ≡ self.old.kind }
        ensures keeps { OnOk result ((ks : List ℕ) → Keeps (cell_in (P.cells cells.now)) ks self.old → Keeps (cell_in (P.cells cells.now)) (ks ++ place ∷ []) self.new) }
    {
        match &mut self.state {
            State::Totals(totals) => {
                totals.enter(cells.cell(place));
                Ok(())
            }
            State::Best(best) => best.enter(cells, place),
        }
    }

    // The cell at the first place that is kept goes.
    fn leave<P: Partition>(&mut self, cells: &P, place: usize)
        requires keeps { (ks : List ℕ) × Keeps (cell_in (P.cells cells.now)) (place ∷ ks) self.old × (length ks + 1 < 2 ^ 61) }
        requires place { place < length (P.cells cells.now) }
        ensures kind { self.new.kind ≡ self.old.kind }
        ensures keeps { (ks : List ℕ) → AreAbove place ks → Keeps (cell_in (P.cells cells.now)) (place ∷ ks) self.old → Keeps (cell_in (P.cells cells.now)) ks self.new }
    {
        match &mut self.state {
            State::Totals(totals) => totals.leave(cells.cell(place)),
            State::Best(best) => best.leave(place),
        }
    }

    // Cells come up to before a place.
    fn enter_up_to<P: Partition>(
        &mut self,
        cells: &P,
        from: Cut,
        end: usize,
    ) -> Result<(), AllocError>
        requires order { from.start ≤ from.end }
        requires up { from.end ≤ end }
        requires within { end ≤ length (P.cells cells.now) }
        requires few { length (P.cells cells.now) < 2 ^ 61 }
        requires keeps { Keeps (cell_in (P.cells cells.now)) (places_from from.start from.end) self.old }
        ensures kind { self.new.kind ≡ self.old.kind }
        ensures keeps { OnOk result (Keeps (cell_in (P.cells cells.now)) (places_from from.start end) self.new) }
    {
        for place in from.end..end {
            self.enter(cells, place)?;
        }
        Ok(())
    }

    // Cells before a place go.
    fn leave_up_to<P: Partition>(&mut self, cells: &P, from: Cut, start: usize)
        requires up { from.start ≤ start }
        requires order { start ≤ from.end }
        requires within { from.end ≤ length (P.cells cells.now) }
        requires few { length (P.cells cells.now) < 2 ^ 61 }
        requires keeps { Keeps (cell_in (P.cells cells.now)) (places_from from.start from.end) self.old }
        ensures kind { self.new.kind ≡ self.old.kind }
        ensures keeps { Keeps (cell_in (P.cells cells.now)) (places_from start from.end) self.new }
    {
        for place in from.start..start {
            self.leave(cells, place);
        }
    }

    // The frame moves up.
    pub(crate) fn move_up<P: Partition>(
        &mut self,
        cells: &P,
        from: Cut,
        to: Cut,
    ) -> Result<(), AllocError>
        requires from { from.start ≤ from.end }
        requires to { to.start ≤ to.end }
        requires start { from.start ≤ to.start }
        requires end { from.end ≤ to.end }
        requires within { to.end ≤ length (P.cells cells.now) }
        requires few { length (P.cells cells.now) < 2 ^ 61 }
        requires keeps { Keeps (cell_in (P.cells cells.now)) (places_from from.start from.end) self.old }
        ensures kind { self.new.kind ≡ self.old.kind }
        ensures keeps { OnOk result (Keeps (cell_in (P.cells cells.now)) (places_from to.start to.end) self.new) }
    {
        self.enter_up_to(cells, from, to.end)?;
        let grown = Cut {
            start: from.start,
            end: to.end,
        };
        self.leave_up_to(cells, grown, to.start);
        Ok(())
    }

    // The value of the aggregate of the cells that are kept. It fails only if memory runs out.
    pub(crate) fn value<P: Partition>(
        &self,
        cells: &P,
        p: &Profile,
    ) -> Result<Result<Cell, Fault>, AllocError>
        requires { (ks : List ℕ) × Keeps (cell_in (P.cells cells.now)) ks self.now × AreIn (P.cells cells.now) ks × (length ks < 2 ^ 61) }
        ensures { IfOk result (λ x. (ks : List ℕ) → Keeps (cell_in (P.cells cells.now)) ks self.now → x ≡ group_value p.now self.now.kind (cells_at (P.cells cells.now) ks)) }
    {
        Ok(match &self.state {
            State::Totals(totals) => totals.value(self.kind, p),
            State::Best(best) => Ok(best.value(cells)?),
        })
    }
}
