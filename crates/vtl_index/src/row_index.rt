// A look-up from keys to the rows of a table that have them.
//
// A look-up in a table keeps numbers of rows and no cells (`RowIndex`), and is asked with a row and the places of its
// key there: no key is copied. So `vtl_index` stands on `vtl_rows`.
ghost use Rattle.std.specs.Prelude.{◌≡◌, ◌+◌, ◌<◌, ◌≤◌, length, nat_lt, IfOk, OnOk};
ghost use Rattle.vtl_index.specs.GroupedRows.{AreByKey, lookup_of};
ghost use Rattle.vtl_index.specs.Matches.{asked_keys, firsts_by};
ghost use Rattle.vtl_index.specs.RowIndex.{first_found, found_rows};
ghost use Rattle.vtl_index.specs.RowKeys.{key_at, key_of};

use crate::finder::{Finder, Led, led_of};
use crate::firsts::{first_of, firsts_of};
use crate::grouped_rows::GroupedRows;
use crate::row_keys::{KeyColumn, KeyedRows, NullKeys, RowKey};
use crate::{Groups, Steps};
use std::alloc::{AllocError, Global};
use std::marker::Model;
use std::sync::ledger::Ledger;
use vtl_cell::Cell;
use vtl_decimal::Profile;
use vtl_rows::Table;

/// A look-up from keys to the rows of a table that have them. A key is made of the cells of a row at listed columns.
/// It keeps numbers of rows and no cells. A contract sees the rows, the columns of the key, what becomes of keys that
/// have a null, and the profile by which an integer is made a number.
///
/// It takes 16 to 32 bytes a row beside its groups, or 8 where cells were chosen to have like hashes. A probe then
/// compares its key with as many others as the logarithm of the number of rows, and looks at no more than 128 slots
/// otherwise, whatever the cells are.
pub struct RowIndex<'t> {
    rows: GroupedRows<'t>,
    finder: Finder,
}

// Written out, so that a proof above sees one call and not the drop of each part.
impl<'t> Drop for RowIndex<'t> {
    fn drop(self) {
        let RowIndex {
            rows: _rows,
            finder: _finder,
        } = self;
    }
}

impl<'t> Model for RowIndex<'t> {
    ghost use Rattle.std.specs.Prelude.{length};
    ghost use Rattle.vtl_index.specs.Finders.{IsFinder};
    ghost use Rattle.vtl_index.specs.GroupedRows.{AreByKey, keys_of, lookup_of};
    ghost use Rattle.vtl_index.specs.RowIndex.{RowLookup};

    ghost Value = { RowLookup };

    ghost view = { λ x. lookup_of x.rows };

    ghost invariant = { λ x. AreByKey x.rows × IsFinder (keys_of (lookup_of x.rows)) (length x.rows.table.now.rows) x.finder };
}

// Counts a step for each row.
pub(crate) fn count_rows<L: Ledger>(table: &Table, steps: &mut Steps<L>)
    ensures { steps.new ≡ steps.old + length table.now.rows }
{
    for _ in 0..table.len() {
        steps.tick();
    }
}

impl<'t> RowIndex<'t> {
    /// The look-up of a table's rows by the cells of these columns. It takes one step for each row, whether it finds
    /// them by hash or by order. It fails only if memory runs out.
    pub fn of<L: Ledger>(
        alloc: Global,
        table: &'t Table,
        key: Vec<KeyColumn>,
        nulls: NullKeys,
        p: &Profile,
        steps: &mut Steps<L>,
    ) -> Result<RowIndex<'t>, AllocError>
        ensures value { IfOk result (λ x. x ≡ record { rows = table.now.rows; key = key.items; nulls = nulls; p = p.now }) }
        ensures steps { OnOk result (steps.new ≡ steps.old + length table.now.rows) }
        ensures bound { steps.new ≤ steps.old + length table.now.rows }
    {
        count_rows(table, steps);
        let Led { leads, finder } = led_of(
            alloc,
            &KeyedRows {
                table,
                columns: &key,
                p,
            },
        )?;
        let groups = Groups::from_leads(alloc, leads)?;
        let rows = GroupedRows {
            table,
            key,
            nulls,
            p: *p,
            groups,
        };
        Ok(RowIndex { rows, finder })
    }

    /// The numbers of the rows that have the key of this row, rising. The cells of the row's key stand at these
    /// columns there. It takes one step, and no memory.
    pub fn probe<L: Ledger>(&self, row: &[Cell], at: &[KeyColumn], steps: &mut Steps<L>) -> &[usize]
        ensures rows { result.now ≡ found_rows self.now (key_at self.now.p at.now row.now) }
        ensures steps { steps.new ≡ steps.old + 1 }
    {
        steps.tick();
        let key = RowKey {
            row,
            columns: at,
            p: &self.rows.p,
        };
        self.rows_of(&key)
    }

    // The rows of a key.
    fn rows_of(&self, key: &RowKey) -> &[usize]
        ensures { result.now ≡ found_rows self.now (key_of key.now) }
    {
        let first = self.first_of(key);
        if first < self.rows.table.len() {
            self.rows.groups.beside(first)
        } else {
            &[]
        }
    }

    // The number of the first row that has a key, or how many rows there are.
    fn first_of(&self, key: &RowKey) -> usize
        ensures { result ≡ first_found self.now (key_of key.now) }
    {
        let hash = key.hash(self.finder.hashing());
        first_of(&self.rows, &self.finder, key, hash)
    }

    // For each of the first `count` rows of the table `asking`: the number of the first row here that has its key, or how
    // many rows there are here. The cells of the keys stand at the columns `at` of `asking`. Past the last row of
    // `asking` it asks for a row without cells.
    pub(crate) fn firsts(
        &self,
        alloc: Global,
        asking: &Table,
        at: &[KeyColumn],
        count: usize,
    ) -> Result<Vec<usize>, AllocError>
        ensures { IfOk result (λ v. v.items ≡ firsts_by self.now (asked_keys (record { index = self.now; at = at.now; asking = asking.now.rows })) count) }
    {
        let asked = KeyedRows {
            table: asking,
            columns: at,
            p: &self.rows.p,
        };
        firsts_of(alloc, &self.rows, &self.finder, &asked, count)
    }

    /// Whether a row has the key of this row, whose cells stand at these columns there. It takes one step, and no
    /// memory.
    pub fn has<L: Ledger>(&self, row: &[Cell], at: &[KeyColumn], steps: &mut Steps<L>) -> bool
        ensures found { result ≡ nat_lt 0 (length (found_rows self.now (key_at self.now.p at.now row.now))) }
        ensures steps { steps.new ≡ steps.old + 1 }
    {
        !self.probe(row, at, steps).is_empty()
    }

    /// The table.
    pub fn table(&self) -> &'t Table
        ensures { result.now.rows ≡ self.now.rows }
    {
        self.rows.table
    }

    // The rows without what finds a key.
    pub(crate) fn into_rows(self) -> GroupedRows<'t>
        ensures value { lookup_of result ≡ self.entry }
        ensures grouped { AreByKey result }
    {
        let RowIndex {
            rows,
            finder: _finder,
        } = self;
        rows
    }
}
