// A group, as HAVING and items see it.
ghost use Rattle.std.specs.Prelude.{◌≡◌};
ghost use Rattle.vtl_cell.specs.declared.cell.Cell.TheVariants.{Null};
ghost use Rattle.sql_groups.specs.Grouped.{AreWithin, rows_at};
ghost use Rattle.sql_groups.specs.Kept.{rows_of};
ghost use Rattle.sql_groups.specs.Partners.{MayAsk};

use crate::group_partners::GroupPartners;
use crate::totals::aggregate;
use sql_eval::{Cells, Existence, Resolved};
use sql_from::{OuterRow, TupleRows, has_partner};
use std::alloc::{AllocError, Global};
use std::marker::Model;
use vtl_cell::{AggKind, Cell};
use vtl_decimal::{Profile, whole};
use vtl_scalar::ScalarErr;

/// A group: its key, which holds the cells of the columns of GROUP BY, and its rows. All cells are lent. EXISTS is asked by
/// a look-up where there is one for it.
pub(crate) struct GroupRow<'a, 'r> {
    rows: &'a TupleRows<'r>,
    partners: &'a GroupPartners<'a>,
    key: &'a [Cell],
    numbers: &'a [usize],
    null: &'a Cell,
}

// Written out, so that an owner sees one call.
impl Drop for GroupRow<'_, '_> {
    fn drop(self) {
        let GroupRow {
            rows: _,
            partners: _,
            key: _,
            numbers: _,
            null: _,
        } = self;
    }
}

impl<'a, 'r> Model for GroupRow<'a, 'r> {
    ghost use Rattle.std.specs.Prelude.{◌≡◌};
    ghost use Rattle.vtl_cell.specs.declared.cell.Cell.TheVariants.{Null};
    ghost use Rattle.sql_groups.specs.Grouped.{AreWithin, Group, rows_at};
    ghost use Rattle.sql_groups.specs.Kept.{rows_of};
    ghost use Rattle.sql_groups.specs.Partners.{MayAsk};

    ghost Value = { Group };

    ghost view = { λ g. record { held = g.rows.now.sources.held; key = g.key.now; rows = rows_at (rows_of g.rows.now) g.numbers.now } };

    ghost invariant = { λ g. AreWithin (rows_of g.rows.now) g.numbers.now × (g.null.now ≡ Null) × MayAsk g.rows.now g.partners.now g.key.now };
}

impl<'a, 'r> GroupRow<'a, 'r> {
    /// The group of a key and the rows with these numbers, with look-ups over the rows; a null is lent where a place is past
    /// the last cell of the key.
    pub(crate) fn of(
        rows: &'a TupleRows<'r>,
        partners: &'a GroupPartners<'a>,
        key: &'a [Cell],
        numbers: &'a [usize],
        null: &'a Cell,
    ) -> GroupRow<'a, 'r>
        requires numbers { AreWithin (rows_of rows.now) numbers.now }
        requires null { null.now ≡ Null }
        requires partners { MayAsk rows.now partners.now key.now }
        ensures held { result.held ≡ rows.now.sources.held }
        ensures key { result.key ≡ key.now }
        ensures rows { result.rows ≡ rows_at (rows_of rows.now) numbers.now }
    {
        GroupRow {
            rows,
            partners,
            key,
            numbers,
            null,
        }
    }
}

impl<'a, 'r> OuterRow for GroupRow<'a, 'r> {
    ghost lends = { λ g. g.key };

    fn lent(&self, place: usize) -> &Cell {
        match self.key.get(place) {
            Some(cell) => cell,
            None => self.null,
        }
    }
}

impl<'a, 'r> Cells for GroupRow<'a, 'r> {
    ghost use Rattle.sql_from.specs.Held.{rows_held};

    ghost cells = { λ g. g.key };

    ghost group = { λ g. g.rows };

    ghost tables = { λ g. rows_held g.held };

    fn cell(&self, place: usize) -> &Cell {
        self.lent(place)
    }

    fn is_there(&self, alloc: Global, test: &Existence, p: &Profile) -> Result<bool, AllocError> {
        match self.partners.keys.answer(test, self.key, p) {
            Some(found) => Ok(found),
            None => has_partner(alloc, self.rows.sources.held(), test, self, p),
        }
    }

    fn count_all(&self, p: &Profile) -> Result<Cell, ScalarErr> {
        Ok(Cell::Int(whole(self.numbers.len() as i128, p)?))
    }

    fn aggregate(
        &self,
        alloc: Global,
        function: AggKind,
        operand: &Resolved,
        p: &Profile,
    ) -> Result<Cell, ScalarErr> {
        aggregate(
            alloc,
            self.rows,
            &self.partners.rows,
            self.numbers,
            function,
            operand,
            p,
        )
    }
}
