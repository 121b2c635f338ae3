// The row of FROM that a tuple of row numbers stands for, with look-ups for EXISTS.
ghost use Rattle.std.specs.Prelude.{◌≡◌, ◌+◌, ◌++◌, ◌∷◌, [], length};
ghost use Rattle.sql_from.specs.Held.{rows_held};
ghost use Rattle.sql_from.specs.Rows.{combined};
ghost use Rattle.sql_from.specs.Sources.{parts_of};

use crate::{Partners, TupleRow};
use sql_eval::{Cells, Existence, Resolved};
use std::alloc::{AllocError, Global};
use vtl_cell::{AggKind, Cell};
use vtl_decimal::Profile;
use vtl_scalar::ScalarErr;

/// The row of FROM of a tuple of row numbers, at which EXISTS is asked by a look-up where there is one for it.
#[derive(Clone, Copy)]
pub struct PartneredRow<'a> {
    row: TupleRow<'a>,
    partners: &'a Partners<'a>,
    ghost is_of: { row.sources.now ≡ partners.now },
}

impl<'a> PartneredRow<'a> {
    /// A row, with look-ups over its sources.
    pub fn at(row: TupleRow<'a>, partners: &'a Partners<'a>) -> PartneredRow<'a>
        requires { row.sources.now ≡ partners.now }
        ensures { result.row ≡ row.entry }
    {
        PartneredRow { row, partners }
    }

    /// The row of a tuple, whose last number is given apart.
    pub fn of(partners: &'a Partners<'a>, front: &'a [usize], last: usize) -> PartneredRow<'a>
        requires { length front.now + 1 ≡ length partners.now.sources }
        ensures partners { result.partners.now ≡ partners.now }
        ensures sources { result.row.sources.now ≡ partners.now }
        ensures front { result.row.front.now ≡ front.now }
        ensures last { result.row.last ≡ last }
    {
        PartneredRow {
            row: TupleRow::of(partners.sources(), front, last),
            partners,
        }
    }
}

impl<'a> Cells for PartneredRow<'a> {
    ghost cells = { λ r. combined (parts_of r.row.sources.now.sources) (r.row.front.now ++ r.row.last ∷ []) };

    ghost group = { λ r. [] };

    ghost tables = { λ r. rows_held r.row.sources.now.held };

    fn cell(&self, place: usize) -> &Cell {
        self.row.cell(place)
    }

    fn is_there(&self, alloc: Global, test: &Existence, p: &Profile) -> Result<bool, AllocError> {
        match self.partners.answer(alloc, test, &self.row, p)? {
            Some(found) => Ok(found),
            None => self.row.is_there(alloc, test, p),
        }
    }

    fn count_all(&self, p: &Profile) -> Result<Cell, ScalarErr> {
        self.row.count_all(p)
    }

    fn aggregate(
        &self,
        alloc: Global,
        function: AggKind,
        operand: &Resolved,
        p: &Profile,
    ) -> Result<Cell, ScalarErr> {
        self.row.aggregate(alloc, function, operand, p)
    }
}
