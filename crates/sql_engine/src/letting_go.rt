// Rows that no statement reads any more.
//
// A table that no later statement reads keeps its columns and loses its rows: what typing knows of the tables then
// stays the same. That a query's value does not see these rows is a law (`queries_depend_on_what_they_read`).
//
// Behind a statement only those tables are looked at that it reads as the last one, and the one that it makes
// (`read_last`): each table twice in a run, whatever the number of statements.
ghost use Rattle.std.specs.Prelude.{◌≡◌, IfOk, OnOk, length};
ghost use Rattle.vtl_rows.specs.Tables.{listed};
ghost use Rattle.sql_engine.specs.Held.{MayLetGo, without_rows};
ghost use Rattle.sql_engine.specs.LastReads.{is_read_from};

use crate::expression_reads::LastReads;
use crate::last_reads::is_read_from;
use sql_from::{HeldTable, HeldTables, no_lists};
use sql_tree::Statement;
use std::alloc::{AllocError, Global};
use vtl_rows::{Column, Table};
use vtl_text::Txt;

/// A table of the same columns and no rows. It fails only if memory runs out.
pub(crate) fn without_rows(alloc: Global, table: &Table) -> Result<HeldTable, AllocError>
    ensures { IfOk result (λ t. t ≡ without_rows (listed table.now)) }
{
    let mut columns = Vec::new(alloc);
    for column in table.columns() {
        columns.push(Column {
            name: column.name.share()?,
            kind: column.kind,
        })?;
    }
    HeldTable::of(alloc, Table::new(alloc, columns))
}

/// The tables that each of so many statements reads as the last one. It fails only if memory runs out.
pub(crate) fn read_last(
    alloc: Global,
    last: &LastReads,
    count: usize,
) -> Result<Vec<Vec<Txt>>, AllocError>
    ensures { IfOk result (λ v. length v.items ≡ count) }
{
    let mut names = no_lists(alloc, count)?;
    for i in 0..last.len() {
        let (name, place) = last.at(i);
        if *place < count {
            names[*place].push(name.share()?)?;
        }
    }
    Ok(names)
}

// Lets go of the rows of a table, where no statement at a place or behind it reads it.
fn let_go_of(
    alloc: Global,
    tables: &mut HeldTables,
    name: &Txt,
    last: &LastReads,
    place: usize,
) -> Result<(), AllocError>
    ensures { OnOk result (MayLetGo (is_read_from place last.now) tables.old tables.new) }
{
    if is_read_from(place, last, name) {
        return Ok(());
    }
    let Some(table) = tables.get(name) else {
        return Ok(());
    };
    let empty = without_rows(alloc, table)?;
    let _before = tables.replace(name, empty);
    Ok(())
}

// Lets go of the rows of the table that a statement makes, where no statement at a place or behind it reads it.
fn let_go_made(
    alloc: Global,
    tables: &mut HeldTables,
    statement: &Statement,
    last: &LastReads,
    place: usize,
) -> Result<(), AllocError>
    ensures { OnOk result (MayLetGo (is_read_from place last.now) tables.old tables.new) }
{
    match statement {
        Statement::Input(input) => let_go_of(alloc, tables, &input.name, last, place),
        Statement::Create(create) => let_go_of(alloc, tables, &create.name, last, place),
        Statement::Export(_) => Ok(()),
    }
}

// Lets go of the rows of those of some tables that no statement at a place or behind it reads.
fn let_go_each(
    alloc: Global,
    tables: &mut HeldTables,
    names: &[Txt],
    last: &LastReads,
    place: usize,
) -> Result<(), AllocError>
    ensures { OnOk result (MayLetGo (is_read_from place last.now) tables.old tables.new) }
{
    for name in names {
        let_go_of(alloc, tables, name, last, place)?;
    }
    Ok(())
}

/// Lets go of the rows that no statement at a place or behind it reads: of the table that the statement before the place
/// makes, and of these, which are those that it reads as the last one. It fails only if memory runs out.
pub(crate) fn let_go_behind(
    alloc: Global,
    tables: &mut HeldTables,
    statement: &Statement,
    names: &[Txt],
    last: &LastReads,
    place: usize,
) -> Result<(), AllocError>
    ensures { OnOk result (MayLetGo (is_read_from place last.now) tables.old tables.new) }
{
    let_go_made(alloc, tables, statement, last, place)?;
    let_go_each(alloc, tables, names, last, place)
}
