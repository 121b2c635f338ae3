// The accumulator of an aggregate.
//
// Accumulators take cells of any kinds. What an aggregate gives is defined for every list of cells, and the evaluator
// asks nothing of typing; so an accumulator keeps the total of the integers and that of the numbers apart, and puts
// them together in units at the end. Where they do not fit in 128 bits they are out of range in any case. The median
// keeps units.
ghost use Rattle.std.specs.Prelude.{◌≡◌, false, IsOk, List, [], ◌∷◌, ◌++◌, OnOk, OnErr};
ghost use Rattle.vtl_agg.specs.Added.{HasRoom, IsAdded, takes_memory};
ghost use Rattle.vtl_cell.specs.Groups.{group_value};
ghost use Rattle.vtl_cell.specs.declared.cell.Cell as cells;

use crate::state::{State, add_value, counted, median, nothing};
use std::alloc::{AllocError, Global};
use std::marker::Model;
use vtl_cell::{AggKind, Cell};
use vtl_decimal::{Fault, Profile};

/// What an aggregate needs of the cells added so far. A contract sees the profile, the aggregate, and what is known of
/// the cells: `IsAdded` says of which list of cells that is.
pub struct Acc {
    profile: Profile,
    kind: AggKind,
    state: State,
}

// Written out, so that a proof above sees one call and not the drop of each part.
impl Drop for Acc {
    fn drop(self) {
        let Acc {
            profile: _,
            kind: _,
            state: _state,
        } = self;
    }
}

impl Model for Acc {
    ghost use Rattle.vtl_agg.specs.Added.{Added};
    ghost use Rattle.vtl_agg.specs.States.{known};

    ghost Value = { Added };

    ghost view = { λ a. record { settings = a.profile; kind = a.kind; known = known a.state } };
}

impl Acc {
    /// An accumulator of an aggregate, to which no cell was added.
    pub fn new(alloc: Global, kind: AggKind, p: &Profile) -> Acc
        ensures settings { result.settings ≡ p.now }
        ensures kind { result.kind ≡ kind }
        ensures added { IsAdded result [] }
    {
        Acc {
            profile: *p,
            kind,
            state: nothing(alloc, kind),
        }
    }

    /// Adds a cell, of whatever kind. It takes 2^63 cells and no more.
    ///
    /// It fails only if memory runs out, which a total, an average and a count do not take; then nothing was added.
    pub fn add(&mut self, c: &Cell) -> Result<(), AllocError>
        requires { HasRoom self.old }
        ensures settings { self.new.settings ≡ self.old.settings }
        ensures kind { self.new.kind ≡ self.old.kind }
        ensures added { OnOk result ((xs : List cells.Cell) → IsAdded self.old xs → IsAdded self.new (xs ++ c.now ∷ [])) }
        ensures err { OnErr result (self.new ≡ self.old) }
        ensures sure { takes_memory self.old.kind ≡ false → IsOk result }
    {
        if let Cell::Null = c {
            return Ok(());
        }
        add_value(&mut self.state, self.kind, c, &self.profile)
    }

    /// The value of the aggregate of the cells that were added.
    ///
    /// Range where it has more than 18 digits, whatever the partial totals were.
    pub fn finish(self) -> Result<Cell, Fault>
        ensures { (xs : List cells.Cell) → IsAdded self xs → result ≡ group_value self.settings self.kind xs }
    {
        let Acc {
            profile: p,
            kind,
            state,
        } = self;
        match state {
            State::Count(count) => counted(count, &p),
            State::Totals(totals) => totals.value(kind, &p),
            State::First(first) => Ok(first),
            State::Units(units) => median(units, &p),
        }
    }
}
