// The last statement that reads each table.
//
// What is read is noted in two passes, CREATEs at their places and then EXPORTs behind all statements, so the last
// note of a name is its greatest place.
//
// What is noted is said of all later notes (`IsNoted`), and what is read as a condition on each name (`EachRead`):
// then a part of a query joins the next without a lemma on lists of names.
ghost use Rattle.std.specs.Prelude.{◌≡◌, ◌∷◌, [], IfOk, OnOk, length, map};
ghost use Rattle.sql_tree.specs.View.{statement_tree};
ghost use Rattle.sql_engine.specs.LastReads.{AreNoted, EachCreated, EachExported, IsNoted, IsReadFrom, LastPlaces, StaysRead, is_read_from};

use crate::expression_reads::{LastReads, note};
use crate::query_reads::note_query;
use sql_tree::Statement;
use std::alloc::{AllocError, Global};
use vtl_text::Txt;

fn note_create(statement: &Statement, last: &mut LastReads, place: usize) -> Result<(), AllocError>
    ensures { OnOk result (IsNoted place last.old last.new (λ P. EachCreated P (statement_tree statement.now))) }
{
    match statement {
        Statement::Create(create) => note_query(&create.query, last, place),
        Statement::Input(_) => Ok(()),
        Statement::Export(_) => Ok(()),
    }
}

// Notes what each CREATE reads, at its place.
fn note_creates(statements: &[Statement], last: &mut LastReads) -> Result<(), AllocError>
    ensures { OnOk result ((later : LastPlaces) → StaysRead (length statements.now) last.new later → AreNoted later 0 (map statement_tree statements.now)) }
{
    for place in 0..statements.len() {
        note_create(&statements[place], last, place)?;
    }
    Ok(())
}

fn note_export(statement: &Statement, last: &mut LastReads, place: usize) -> Result<(), AllocError>
    ensures { OnOk result (IsNoted place last.old last.new (λ P. EachExported P (statement_tree statement.now ∷ []))) }
{
    match statement {
        Statement::Export(export) => note(&export.name, last, place),
        Statement::Input(_) => Ok(()),
        Statement::Create(_) => Ok(()),
    }
}

// Notes what EXPORTs read, at a place behind all statements.
fn note_exports(
    statements: &[Statement],
    last: &mut LastReads,
    place: usize,
) -> Result<(), AllocError>
    ensures { OnOk result (IsNoted place last.old last.new (λ P. EachExported P (map statement_tree statements.now))) }
{
    for statement in statements {
        note_export(statement, last, place)?;
    }
    Ok(())
}

/// The last statement that reads each table: exports are read behind all statements. It fails only if memory runs out.
pub fn last_reads(alloc: Global, statements: &[Statement]) -> Result<LastReads, AllocError>
    ensures created { IfOk result (λ last. AreNoted last 0 (map statement_tree statements.now)) }
    ensures exported { IfOk result (λ last. EachExported (IsReadFrom (length statements.now) last) (map statement_tree statements.now)) }
{
    let mut last = LastReads::new(alloc);
    note_creates(statements, &mut last)?;
    note_exports(statements, &mut last, statements.len())?;
    Ok(last)
}

/// Whether a statement at a place or behind it reads a table.
pub fn is_read_from(place: usize, last: &LastReads, name: &Txt) -> bool
    ensures { result ≡ is_read_from place last.now name.now }
{
    match last.get(name) {
        Some(read) => place <= *read,
        None => false,
    }
}
