// Statements.
ghost use Rattle.std.specs.Map.{keys_of};
ghost use Rattle.std.specs.Prelude.{◌≡◌, None, false, IfOk, OnOk};
ghost use Rattle.sql_tree.specs.View.{query_tree, statement_tree};
ghost use Rattle.sql_tree.specs.Trees as tree;
ghost use Rattle.sql_check_parts.specs.Statements.{with_export, with_table};
ghost use Rattle.sql_check_parts.specs.Scopes.{is_among, or_nothing};
ghost use Rattle.sql_check.specs.Answers.{IsSettled, IsStep, MayPut, given_view};

use crate::exports::export_fault;
use crate::given::SoFar;
use crate::inputs::{input_columns, input_fault};
use sql_check_parts::{Columns, SqlRule, Test, least_broken, lesser};
use sql_check_queries::query;
use sql_tree::{SqlCreate, SqlExport, SqlInput, Statement};
use std::alloc::{AllocError, Global};
use vtl_decimal::Profile;
use vtl_text::Txt;

// Puts the table of a statement after the others. It fails only if memory runs out.
fn put(given: &mut SoFar, name: &Txt, columns: Option<Columns>) -> Result<(), AllocError>
    requires { MayPut given.old.tables name.now columns }
    ensures { OnOk result (given_view given.new ≡ with_table (given_view given.old) name.now (or_nothing columns)) }
{
    match columns {
        Some(columns) => given.tables.put(name, columns),
        None => unreachable!(),
    }
}

// The fault of a statement; where it has none, its table is put after the others. It fails only if memory runs out.
fn settle(
    given: &mut SoFar,
    name: &Txt,
    columns: Option<Columns>,
    fault: Option<SqlRule>,
) -> Result<Option<SqlRule>, AllocError>
    requires { fault ≡ None → MayPut given.old.tables name.now columns }
    ensures { IfOk result (IsSettled (given_view given.old) (given_view given.new) name.now columns fault) }
{
    match fault {
        Some(rule) => Ok(Some(rule)),
        None => {
            put(given, name, columns)?;
            Ok(None)
        }
    }
}

fn input(
    alloc: Global,
    profile: &Profile,
    given: &mut SoFar,
    input: &SqlInput,
) -> Result<Option<SqlRule>, AllocError>
    ensures { IfOk result (IsStep profile.now (given_view given.old) (given_view given.new) (tree.input input.now)) }
{
    let columns = input_columns(alloc, input)?;
    let fault = input_fault(alloc, &given.tables, input, &columns)?;
    settle(given, &input.name, columns, fault)
}

fn create(
    alloc: Global,
    profile: &Profile,
    given: &mut SoFar,
    create: &SqlCreate,
) -> Result<Option<SqlRule>, AllocError>
    ensures { IfOk result (IsStep profile.now (given_view given.old) (given_view given.new) (tree.create create.now.name (query_tree create.now.query))) }
{
    let typed = query(alloc, profile, &given.tables, &create.query)?;
    let taken = least_broken(&[Test {
        rule: SqlRule::MisnamedTable,
        is_broken: given.tables.has(&create.name),
    }]);
    let columns = Columns::of(alloc, typed.names.as_slice(), typed.kinds.as_slice())?;
    settle(given, &create.name, columns, lesser(taken, typed.fault))
}

// Puts the name of an export after the others. It fails only if memory runs out.
fn put_export(given: &mut SoFar, name: &Txt) -> Result<(), AllocError>
    requires { is_among name.now (keys_of given.old.exported) ≡ false }
    ensures { OnOk result (given_view given.new ≡ with_export (given_view given.old) name.now) }
{
    given.exported.put(name.share()?, ())?;
    Ok(())
}

fn export(
    alloc: Global,
    profile: &Profile,
    given: &mut SoFar,
    export: &SqlExport,
) -> Result<Option<SqlRule>, AllocError>
    ensures { IfOk result (IsStep profile.now (given_view given.old) (given_view given.new) (tree.export export.now)) }
{
    let fault = export_fault(alloc, given, export)?;
    if fault.is_none() {
        put_export(given, &export.name)?;
    }
    Ok(fault)
}

/// A statement: the least of the rules that it breaks; where it breaks none, what it gives is added. It fails only if
/// memory runs out.
pub fn statement(
    alloc: Global,
    profile: &Profile,
    given: &mut SoFar,
    statement: &Statement,
) -> Result<Option<SqlRule>, AllocError>
    ensures { IfOk result (IsStep profile.now (given_view given.old) (given_view given.new) (statement_tree statement.now)) }
{
    match statement {
        Statement::Input(statement) => input(alloc, profile, given, statement),
        Statement::Create(statement) => create(alloc, profile, given, statement),
        Statement::Export(statement) => export(alloc, profile, given, statement),
    }
}
