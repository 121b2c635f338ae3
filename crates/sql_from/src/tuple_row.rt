// The row of FROM that a tuple of row numbers stands for, as expressions see it.
ghost use Rattle.std.specs.Prelude.{◌≡◌, ◌+◌, ◌<◌, ◌++◌, ◌∷◌, [], length};
ghost use Rattle.vtl_cell.specs.Groups.{of_nothing};
ghost use Rattle.sql_from.specs.Held.{rows_held};
ghost use Rattle.sql_from.specs.Sources.{parts_of};
ghost use Rattle.sql_from.specs.Rows.{combined};

use crate::{OuterRow, Sources, has_partner};
use sql_eval::{Cells, Existence, Resolved};
use std::alloc::{AllocError, Global};
use vtl_cell::{AggKind, Cell};
use vtl_decimal::Profile;
use vtl_scalar::ScalarErr;

/// The row of FROM of a tuple of row numbers, one for each source. Its cells are lent, and none is copied.
#[derive(Clone, Copy)]
pub struct TupleRow<'a> {
    pub(crate) sources: &'a Sources<'a>,
    pub(crate) front: &'a [usize],
    pub(crate) last: usize,
    ghost is_whole: { length front.now + 1 ≡ length sources.now.sources },
}

impl<'a> TupleRow<'a> {
    /// The row of a tuple, whose last number is given apart.
    pub fn of(sources: &'a Sources<'a>, front: &'a [usize], last: usize) -> TupleRow<'a>
        requires { length front.now + 1 ≡ length sources.now.sources }
        ensures sources { result.sources.now ≡ sources.now }
        ensures front { result.front.now ≡ front.now }
        ensures last { result.last ≡ last }
    {
        TupleRow {
            sources,
            front,
            last,
        }
    }

    /// The row of a whole tuple.
    pub fn whole(sources: &'a Sources<'a>, tuple: &'a [usize]) -> TupleRow<'a>
        requires some { 0 < length tuple.now }
        requires whole { length tuple.now ≡ length sources.now.sources }
        ensures sources { result.sources.now ≡ sources.now }
        ensures tuple { result.front.now ++ result.last ∷ [] ≡ tuple.now }
    {
        let last = tuple.len() - 1;
        TupleRow::of(sources, &tuple[..last], tuple[last])
    }
}

// An aggregate over no rows.
fn of_nothing(function: AggKind) -> Cell
    ensures { result ≡ of_nothing function }
{
    match function {
        AggKind::Count => Cell::Int(0),
        _ => Cell::Null,
    }
}

impl<'a> OuterRow for TupleRow<'a> {
    ghost lends = { λ r. combined (parts_of r.sources.now.sources) (r.front.now ++ r.last ∷ []) };

    fn lent(&self, place: usize) -> &Cell {
        self.sources.cell(self.front, self.last, place)
    }
}

impl<'a> Cells for TupleRow<'a> {
    ghost cells = { λ r. combined (parts_of r.sources.now.sources) (r.front.now ++ r.last ∷ []) };

    ghost group = { λ r. [] };

    ghost tables = { λ r. rows_held r.sources.now.held };

    fn cell(&self, place: usize) -> &Cell {
        self.lent(place)
    }

    fn is_there(&self, alloc: Global, test: &Existence, p: &Profile) -> Result<bool, AllocError> {
        has_partner(alloc, self.sources.held(), test, self, p)
    }

    fn count_all(&self, _: &Profile) -> Result<Cell, ScalarErr> {
        Ok(Cell::Int(0))
    }

    fn aggregate(
        &self,
        _: Global,
        function: AggKind,
        _: &Resolved,
        _: &Profile,
    ) -> Result<Cell, ScalarErr> {
        Ok(of_nothing(function))
    }
}
