// Rows of a table, found by the cells of other rows.
ghost use Rattle.std.specs.Prelude.{◌≡◌, ◌+◌, length, map, IfOk, OnOk};
ghost use Rattle.vtl_index.specs.Seekers.{first_meant, is_any_meant};

use crate::by_columns::{any_profile, key_of_columns};
use crate::row_index::{RowIndex, count_rows};
use crate::row_keys::{KeyColumn, NullKeys};
use crate::steps::Steps;
use std::alloc::{AllocError, Global};
use std::marker::Model;
use std::sync::ledger::Ledger;
use vtl_cell::Cell;
use vtl_rows::Table;

/// Rows of a table, found by the cells of rows that ask, null being a value like any other. A contract sees the rows,
/// the columns of their keys, and the columns of the same cells in rows that ask.
pub struct Seeker<'t> {
    index: RowIndex<'t>,
    asked: Vec<KeyColumn>,
}

// Written out, so that a proof above sees one call and not the drop of each part.
impl<'t> Drop for Seeker<'t> {
    fn drop(self) {
        let Seeker {
            index: _index,
            asked: _asked,
        } = self;
    }
}

impl<'t> Model for Seeker<'t> {
    ghost use Rattle.std.specs.Prelude.{◌≡◌, map};
    ghost use Rattle.vtl_index.specs.RowKeys.{as_it_is};
    ghost use Rattle.vtl_index.specs.Seekers.{Sought, columns_in};
    ghost use Rattle.vtl_index.specs.declared.row_keys.NullKeys.TheVariants.{Found};

    ghost Value = { Sought };

    ghost view = { λ x. record { own = columns_in x.index.key; asked = columns_in x.asked.items; rows = x.index.rows } };

    ghost invariant = { λ x. (x.index.nulls ≡ Found) × (x.index.key ≡ map as_it_is (columns_in x.index.key)) × (x.asked.items ≡ map as_it_is (columns_in x.asked.items)) };
}

impl<'t> Seeker<'t> {
    /// The rows of a table by the cells of its own columns, which rows that ask have at the columns asked. It takes one
    /// step for each row. It fails only if memory runs out.
    pub fn of<L: Ledger>(
        alloc: Global,
        table: &'t Table,
        own: &[usize],
        asked: &[usize],
        steps: &mut Steps<L>,
    ) -> Result<Seeker<'t>, AllocError>
        ensures value { IfOk result (λ x. x ≡ record { own = own.now; asked = asked.now; rows = table.now.rows }) }
        ensures steps { OnOk result (steps.new ≡ steps.old + length table.now.rows) }
    {
        let asked = key_of_columns(alloc, asked)?;
        let key = key_of_columns(alloc, own)?;
        let index = RowIndex::of(alloc, table, key, NullKeys::Found, &any_profile(), steps)?;
        Ok(Seeker { index, asked })
    }

    /// The number of the first row that a row asks for, or how many rows there are. It takes one step, and no memory.
    pub fn first<L: Ledger>(&self, row: &[Cell], steps: &mut Steps<L>) -> usize
        ensures place { result ≡ first_meant self.now row.now }
        ensures steps { steps.new ≡ steps.old + 1 }
    {
        self.index
            .probe(row, &self.asked, steps)
            .first()
            .copied()
            .unwrap_or(self.len())
    }

    /// For each row of a table the number of the first row that it asks for, or how many rows there are. It takes one
    /// step for each row that asks. It fails only if memory runs out.
    pub fn firsts<L: Ledger>(
        &self,
        alloc: Global,
        asking: &Table,
        steps: &mut Steps<L>,
    ) -> Result<Vec<usize>, AllocError>
        ensures places { IfOk result (λ v. v.items ≡ map (first_meant self.now) asking.now.rows) }
        ensures steps { OnOk result (steps.new ≡ steps.old + length asking.now.rows) }
    {
        count_rows(asking, steps);
        self.index.firsts(alloc, asking, &self.asked, asking.len())
    }

    /// How many rows there are.
    pub fn len(&self) -> usize
        ensures { result ≡ length self.now.rows }
    {
        self.index.table().len()
    }

    /// Whether there is a row that a row asks for. It takes one step, and no memory.
    pub fn has<L: Ledger>(&self, row: &[Cell], steps: &mut Steps<L>) -> bool
        ensures found { result ≡ is_any_meant self.now row.now }
        ensures steps { steps.new ≡ steps.old + 1 }
    {
        self.index.has(row, &self.asked, steps)
    }
}
