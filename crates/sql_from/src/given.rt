// The tables that the EXISTS of a query ask.
//
// Each SERIES that EXISTS asks is made once, when the query is begun (`given_for`), so that it makes no row at each row
// that asks. Where one stands among those that are made is found by the order of what it is made of (`Origin`), so many of
// them take no time with the square of their number, and what is found is compared once more (`is_same`). No contract says
// that all are made: one that is not found is made by who asks (`has_partner`), or has no look-up.
ghost use Rattle.std.specs.Prelude.{◌≡◌, IfSome};
ghost use Rattle.sql_eval.specs.Origins.{rows_at};
ghost use Rattle.sql_from.specs.Held.{rows_held};

use crate::series_places::series_places;
use crate::series_table::table_of_series;
use crate::{HeldTable, HeldTables};
use sql_eval::Origin;
use sql_tree::Source;
use std::alloc::{AllocError, Global};
use std::collections::BTreeMap;
use std::marker::Model;

// The table of a SERIES, and what it is made of.
pub(crate) struct MadeSeries {
    pub(crate) origin: Origin,
    pub(crate) table: HeldTable,
}

// Written out, so that a proof sees one call and not the drop of each part.
impl Drop for MadeSeries {
    fn drop(self) {
        let MadeSeries {
            origin: _origin,
            table: _table,
        } = self;
    }
}

/// The tables that the program holds, and those of the SERIES that the EXISTS of a query ask. A contract sees the tables that are held.
pub struct Given<'a> {
    held: &'a HeldTables,
    made: Vec<MadeSeries>,
    places: BTreeMap<Origin, usize>,
}

// Written out, so that a proof above sees one call and not the drop of each part.
impl Drop for Given<'_> {
    fn drop(self) {
        let Given {
            held: _,
            made: _made,
            places: _places,
        } = self;
    }
}

impl<'a> Model for Given<'a> {
    ghost use Rattle.std.specs.List.{AllByRecursion};
    ghost use Rattle.vtl_rows.specs.Named.{NamedTables};
    ghost use Rattle.sql_from.specs.Given.{IsMade};

    ghost Value = { NamedTables };

    ghost view = { λ g. g.held.now };

    ghost invariant = { λ g. AllByRecursion (IsMade g.held.now) g.made.items };
}

impl<'a> Given<'a> {
    /// The tables that the program holds, and no SERIES.
    pub(crate) fn over(alloc: Global, held: &'a HeldTables) -> Given<'a>
        ensures { result ≡ held.now }
    {
        Given {
            held,
            made: Vec::new(alloc),
            places: BTreeMap::new(alloc),
        }
    }

    /// The tables that the program holds.
    pub(crate) fn held(&self) -> &'a HeldTables
        ensures { result.now ≡ self.now }
    {
        self.held
    }

    /// The table of a SERIES, if it is made.
    pub(crate) fn series(&self, origin: &Origin) -> Option<&HeldTable>
        ensures { IfSome result (λ t. t.now.rows ≡ rows_at (rows_held self.now) origin.now) }
    {
        let place = self.places.get(origin).copied()?;
        if place < self.made.len() {
            let made = &self.made[place];
            if made.origin.is_same(origin) {
                return Some(&made.table);
            }
        }
        None
    }

    /// A table that is held, or that of a SERIES, if it is made. It takes no memory.
    pub(crate) fn found(&self, origin: &Origin) -> Option<&HeldTable>
        ensures { IfSome result (λ t. t.now.rows ≡ rows_at (rows_held self.now) origin.now) }
    {
        match &origin.series {
            Some(_) => self.series(origin),
            None => self.held.held(&origin.table),
        }
    }

    // Puts the table of a SERIES behind the others.
    fn put(&mut self, alloc: Global, origin: Origin, table: HeldTable) -> Result<(), AllocError>
        requires { table.rows ≡ rows_at (rows_held self.old) origin }
        ensures { self.new ≡ self.old }
    {
        self.places.insert(origin.copy(alloc)?, self.made.len())?;
        self.made.push(MadeSeries { origin, table })?;
        Ok(())
    }

    /// Makes the table of a source, if it is a SERIES over a table that is held, and is not made yet. It fails only if memory
    /// runs out.
    pub(crate) fn make(&mut self, alloc: Global, source: &Source) -> Result<(), AllocError>
        ensures { self.new ≡ self.old }
    {
        let held = self.held;
        let Some(series) = &source.series else {
            return Ok(());
        };
        let Some(table) = held.held(&source.table) else {
            return Ok(());
        };
        let places = series_places(alloc, Some(table), series)?;
        let origin = Origin {
            table: source.table.share()?,
            series: Some(places.copy(alloc)?),
        };
        if self.places.get(&origin).is_some() {
            return Ok(());
        }
        let made = table_of_series(alloc, table, &places)?;
        self.put(alloc, origin, made)
    }
}
