// For each row of a table that asks, the rows of another table that have its key.
//
// Many keys are looked for at once (`into_matches`, `firsts`), so that they can be hashed and what they are looked
// for in can be fetched 32 at a time; the answer is a number for each row that asks, and the slots are let go. A row
// that is the only one of its key is lent from that list itself, which is walked in order, and no other memory is
// read.
ghost use Rattle.std.specs.Prelude.{◌≡◌, ◌+◌, ◌≤◌, length, IfOk, OnOk};
ghost use Rattle.vtl_index.specs.Matches.{matched};

use crate::Steps;
use crate::grouped_rows::GroupedRows;
use crate::row_index::{RowIndex, count_rows};
use crate::row_keys::KeyColumn;
use std::alloc::{AllocError, Global};
use std::marker::Model;
use std::sync::ledger::Ledger;
use vtl_rows::Table;

/// For each row of a table that asks, the rows of another table that have its key. A contract sees the look-up that
/// they were found by, the columns of the key's cells in rows that ask, and these rows.
///
/// It takes 8 bytes for each row that asks, beside the groups: what keys were found by is let go.
pub struct Matches<'t> {
    rows: GroupedRows<'t>,
    asking: &'t Table,
    at: Vec<KeyColumn>,
    // One more than there are rows that ask: the last is that of a row without cells.
    firsts: Vec<usize>,
}

// Written out, so that a proof above sees one call and not the drop of each part.
impl<'t> Drop for Matches<'t> {
    fn drop(self) {
        let Matches {
            rows: _rows,
            asking: _asking,
            at: _at,
            firsts: _firsts,
        } = self;
    }
}

impl<'t> Model for Matches<'t> {
    ghost use Rattle.std.specs.Prelude.{◌≡◌, ◌+◌, length};
    ghost use Rattle.vtl_index.specs.GroupedRows.{AreByKey, lookup_of};
    ghost use Rattle.vtl_index.specs.Matches.{Matched, asked_keys, firsts_by};

    ghost Value = { Matched };

    ghost view = { λ x. record { index = lookup_of x.rows; at = x.at.items; asking = x.asking.now.rows } };

    ghost invariant = { λ x. AreByKey x.rows × (x.firsts.items ≡ firsts_by (lookup_of x.rows) (asked_keys (record { index = lookup_of x.rows; at = x.at.items; asking = x.asking.now.rows })) (length x.asking.now.rows + 1)) };
}

impl<'t> RowIndex<'t> {
    /// The rows that each row of a table finds, whose key's cells stand at these columns there. It takes one step for
    /// each row that asks. It fails only if memory runs out.
    pub fn into_matches<L: Ledger>(
        self,
        alloc: Global,
        asking: &'t Table,
        at: Vec<KeyColumn>,
        steps: &mut Steps<L>,
    ) -> Result<Matches<'t>, AllocError>
        ensures value { IfOk result (λ m. m ≡ record { index = self.entry; at = at.items; asking = asking.now.rows }) }
        ensures steps { OnOk result (steps.new ≡ steps.old + length asking.now.rows) }
        ensures bound { steps.new ≤ steps.old + length asking.now.rows }
    {
        count_rows(asking, steps);
        let firsts = self.firsts(alloc, asking, &at, asking.len() + 1)?;
        let rows = self.into_rows();
        Ok(Matches {
            rows,
            asking,
            at,
            firsts,
        })
    }
}

impl Matches<'_> {
    /// The numbers of the rows that have the key of the row at a place, rising; past the last row those that have the
    /// key of a row without cells. It takes no memory.
    pub fn rows(&self, number: usize) -> &[usize]
        ensures { result.now ≡ matched self.now number }
    {
        let first = &self.firsts[number.min(self.asking.len())];
        if *first < self.rows.table.len() {
            self.rows.groups.beside_at(first)
        } else {
            &[]
        }
    }
}
