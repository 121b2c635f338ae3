// The tuples of identifiers that the operands of a full join have, each once.
ghost use Rattle.std.specs.Prelude.{◌≡◌, ◌<◌, map, IfOk};
ghost use Rattle.std.specs.List.{AllByRecursion};
ghost use Rattle.vtl_index.specs.Groups.{AreLeads, firsts};
ghost use Rattle.vtl_rows.specs.Tables.{column_kinds};
ghost use Rattle.vtl_tree.specs.Shown.{shown};
ghost use Rattle.vtl_tree.specs.Structure.{columns_of};
ghost use Rattle.vtl_meaning.specs.Joined.{all_keys};
ghost use Rattle.vtl_meaning.specs.Made.{AreAmong};
ghost use Rattle.vtl_join.specs.Joining.{sets_of};
ghost use Rattle.vtl_join.specs.Keys.{all_key_rows, key_cells, key_kinds, key_places, key_rows};

use crate::gathering::push_picks;
use crate::joined::Operand;
use crate::tuples::up_to;
use std::alloc::{AllocError, Global};
use vtl_cell::Kind;
use vtl_index::Groups;
use vtl_rows::{Column, Table, gather_beside};
use vtl_sets::{DataSet, table_column};
use vtl_text::Txt;
use vtl_tree::{Component, Structure, places_in};

// The columns of keys: those of identifiers, and a spare one, so that there is one where there are no identifiers.
fn key_columns(alloc: Global, identifiers: &[&Component]) -> Result<Vec<Column>, AllocError>
    ensures { IfOk result (λ v. column_kinds v.items ≡ key_kinds (shown identifiers.now)) }
{
    let mut columns = Vec::with_capacity(alloc, identifiers.len().saturating_add(1))?;
    for identifier in identifiers {
        columns.push(table_column(identifier)?)?;
    }
    columns.push(Column {
        name: Txt::new(alloc, "")?,
        kind: Kind::Null,
    })?;
    Ok(columns)
}

// The places of identifiers, and one behind all columns, for the spare one.
fn key_places(
    alloc: Global,
    identifiers: &[&Component],
    structure: &Structure,
) -> Result<Vec<usize>, AllocError>
    ensures { IfOk result (λ v. v.items ≡ key_places (shown identifiers.now) structure.now) }
{
    let columns = structure.columns(alloc)?;
    let mut places = places_in(alloc, &columns, identifiers)?;
    places.push(columns.len())?;
    Ok(places)
}

// The keys of an operand, one for each of its rows.
fn keys_of(
    alloc: Global,
    identifiers: &[&Component],
    operand: &DataSet,
) -> Result<Table, AllocError>
    requires { AreAmong (shown identifiers.now) (columns_of operand.now.structure) }
    ensures columns { IfOk result (λ t. column_kinds t.columns ≡ key_kinds (shown identifiers.now)) }
    ensures rows { IfOk result (λ t. t.rows ≡ key_rows (shown identifiers.now) operand.now) }
{
    let table = operand.table();
    let places = key_places(alloc, identifiers, operand.structure())?;
    let mut picks = Vec::with_capacity(alloc, places.len())?;
    push_picks(&mut picks, 0, &places)?;
    let rows = up_to(alloc, table.len())?;
    gather_beside(
        alloc,
        &[table],
        &rows,
        &picks,
        key_columns(alloc, identifiers)?,
    )
}

// The keys of all operands, operand by operand.
fn key_table(
    alloc: Global,
    identifiers: &[&Component],
    operands: &[Operand],
) -> Result<Table, AllocError>
    requires { AllByRecursion (λ d. AreAmong (shown identifiers.now) (columns_of d.structure)) (sets_of operands.now) }
    ensures columns { IfOk result (λ t. column_kinds t.columns ≡ key_kinds (shown identifiers.now)) }
    ensures rows { IfOk result (λ t. t.rows ≡ all_key_rows (shown identifiers.now) (sets_of operands.now)) }
{
    let mut keys = Table::new(alloc, key_columns(alloc, identifiers)?);
    for operand in operands {
        keys.append(keys_of(alloc, identifiers, &operand.set)?)?;
    }
    Ok(keys)
}

// The first rows of groups.
fn first_rows(alloc: Global, groups: &Groups) -> Result<Vec<usize>, AllocError>
    requires { AreLeads groups.now }
    ensures { IfOk result (λ v. v.items ≡ firsts groups.now) }
{
    let mut rows = Vec::with_capacity(alloc, groups.len())?;
    for group in 0..groups.len() {
        rows.push(groups.rows(group)[0])?;
    }
    Ok(rows)
}

// A table that has each tuple of identifiers of the operands once, in the first cells of its rows.
pub(crate) fn lead_of_keys(
    alloc: Global,
    identifiers: &[&Component],
    operands: &[Operand],
) -> Result<Table, AllocError>
    requires { AllByRecursion (λ d. AreAmong (shown identifiers.now) (columns_of d.structure)) (sets_of operands.now) }
    ensures columns { IfOk result (λ t. column_kinds t.columns ≡ key_kinds (shown identifiers.now)) }
    ensures keys { IfOk result (λ t. map (key_cells (shown identifiers.now)) t.rows ≡ all_keys (shown identifiers.now) (sets_of operands.now)) }
{
    let keys = key_table(alloc, identifiers, operands)?;
    let own = up_to(alloc, identifiers.len())?;
    let groups = Groups::by(alloc, &keys, &own)?;
    keys.gather(alloc, &first_rows(alloc, &groups)?)
}
