// The tables of the sources of a select.
//
// A source is a table that the program holds, or a SERIES over one, whose table is made here, before the select runs:
// from then on it is a table like any other, and lent as one. Two SERIES that are equal are made twice; each costs the
// rows that it gives, and the text of the select names both.
ghost use Rattle.std.specs.Option.{option_copied};
ghost use Rattle.std.specs.Prelude.{◌≡◌, IfOk};
ghost use Rattle.sql_tree.specs.View.{join_tree, select_tree};
ghost use Rattle.sql_check_parts.specs.Queries.{join_source};
ghost use Rattle.sql_from.specs.FromTables.{from_at, from_given, kept_table, maybe_given};

use crate::series_places::series_places;
use crate::series_table::table_of_series;
use crate::{HeldTable, HeldTables};
use sql_tree::{Join, Select, Source};
use std::alloc::{AllocError, Global};
use std::marker::Model;

// The table of a source.
pub(crate) enum FromTable<'a> {
    // There is no table of this name.
    Missing,
    // One that the program holds.
    Held(&'a HeldTable),
    // That of a SERIES.
    Made(HeldTable),
}

// Written out, so that a proof sees one call and not the drop of each part.
impl Drop for FromTable<'_> {
    fn drop(self) {
        match self {
            FromTable::Missing => {}
            FromTable::Held(_table) => {}
            FromTable::Made(_table) => {}
        }
    }
}

impl<'a> FromTable<'a> {
    // That of a source. It fails only if memory runs out.
    fn of(alloc: Global, held: &'a HeldTables, source: &Source) -> Result<FromTable<'a>, AllocError>
        ensures { IfOk result (λ t. kept_table t ≡ maybe_given held.now source.now) }
    {
        let Some(table) = held.held(&source.table) else {
            return Ok(FromTable::Missing);
        };
        let Some(series) = &source.series else {
            return Ok(FromTable::Held(table));
        };
        let places = series_places(alloc, Some(table), series)?;
        Ok(FromTable::Made(table_of_series(alloc, table, &places)?))
    }

    fn table(&self) -> Option<&HeldTable>
        ensures { option_copied result ≡ kept_table self.now }
    {
        match self {
            FromTable::Missing => None,
            FromTable::Held(table) => Some(*table),
            FromTable::Made(table) => Some(table),
        }
    }
}

/// The source of a join.
pub(crate) fn source_of(join: &Join) -> &Source
    ensures { result.now ≡ join_source (join_tree join.now) }
{
    match join {
        Join::On { source, .. } => source,
        Join::Cross(source) => source,
    }
}

/// The tables of the sources of a select, from the left: FROM's, and then that of each join. Those of SERIES are made, the
/// others are tables that the program holds. A contract sees a table for each source, none where there is none of its name.
pub struct FromTables<'a> {
    tables: Vec<FromTable<'a>>,
}

// Written out, so that a proof above sees one call and not the drop of each part.
impl Drop for FromTables<'_> {
    fn drop(self) {
        let FromTables { tables: _tables } = self;
    }
}

impl<'a> Model for FromTables<'a> {
    ghost use Rattle.std.specs.Prelude.{List, Option, map};
    ghost use Rattle.vtl_rows.specs.Tables.{Listed};
    ghost use Rattle.sql_from.specs.FromTables.{kept_table};

    ghost Value = { List (Option Listed) };

    ghost view = { λ f. map kept_table f.tables.items };
}

impl<'a> FromTables<'a> {
    /// The tables of a select's sources. It takes time and room for the rows that its SERIES give, and fails only if
    /// memory runs out.
    pub fn of(
        alloc: Global,
        held: &'a HeldTables,
        select: &Select,
    ) -> Result<FromTables<'a>, AllocError>
        ensures { IfOk result (λ f. f ≡ from_given held.now (select_tree select.now)) }
    {
        let mut tables = Vec::new(alloc);
        let first = FromTable::of(alloc, held, &select.from)?;
        tables.push(first)?;
        for join in select.joins.as_slice() {
            let table = FromTable::of(alloc, held, source_of(join))?;
            tables.push(table)?;
        }
        Ok(FromTables { tables })
    }

    /// The table of the source at a place; none where there is none of its name, and past the last source.
    pub fn at(&self, place: usize) -> Option<&HeldTable>
        ensures { option_copied result ≡ from_at self.now place }
    {
        self.tables.get(place)?.table()
    }
}
