// The points of a data set by their identifiers.
//
// Partners are found by places: a look-up in the other operand's table is asked by the places of its identifiers in
// the row that asks, so no key is copied and asking cannot fail.
ghost use Rattle.std.specs.Prelude.{◌≡◌, IfOk};
ghost use Rattle.std.specs.Option.{option_copied};
ghost use Rattle.vtl_expr.specs.Partners.{found, sought_by};

use crate::places::places_in;
use std::alloc::{AllocError, Global};
use std::marker::Model;
use std::sync::ledger::Ledger;
use vtl_cell::Cell;
use vtl_index::{Seeker, Steps};
use vtl_rows::Table;
use vtl_sets::DataSet;
use vtl_tree::Structure;

// The points of a data set, found by rows that have its identifiers at these places.
pub(crate) struct Partners<'a> {
    table: &'a Table,
    seeker: Seeker<'a>,
}

// Written out, so that each owner sees one call and not the drop of each part.
impl<'a> Drop for Partners<'a> {
    fn drop(self) {
        let Partners {
            table: _table,
            seeker: _seeker,
        } = self;
    }
}

impl<'a> Model for Partners<'a> {
    ghost use Rattle.std.specs.Prelude.{◌≡◌, length};
    ghost use Rattle.vtl_expr.specs.Partners.{AreFirst, Sought};

    ghost Value = { Sought };

    ghost view = { λ p. record { places = p.seeker.asked; points = p.seeker.rows } };

    ghost invariant = { λ p. (p.table.now.rows ≡ p.seeker.rows) × AreFirst p.seeker.own (length p.seeker.asked) p.seeker.rows };
}

impl<'a> Partners<'a> {
    // The points of an operand, for rows of a structure that has its identifiers.
    pub(crate) fn of<L: Ledger>(
        alloc: Global,
        asking: &Structure,
        other: &'a DataSet,
        steps: &mut Steps<L>,
    ) -> Result<Partners<'a>, AllocError>
        ensures { IfOk result (λ partners. partners ≡ sought_by asking.now other.now) }
    {
        let structure = other.structure();
        let identifiers = structure.identifiers(alloc)?;
        let asked = places_in(alloc, asking, &identifiers)?;
        let own = places_in(alloc, structure, &identifiers)?;
        let table = other.table();
        let seeker = Seeker::of(alloc, table, &own, &asked, steps)?;
        Ok(Partners { table, seeker })
    }

    // The point with the identifiers of a row.
    pub(crate) fn find<L: Ledger>(&self, row: &[Cell], steps: &mut Steps<L>) -> Option<&'a [Cell]>
        ensures { option_copied result ≡ found self.now row.now }
    {
        let table = self.table;
        let place = self.seeker.first(row, steps);
        if place < table.len() {
            Some(table.row(place))
        } else {
            None
        }
    }
}
