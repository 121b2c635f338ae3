// Data sets: what a CSV file of one is read as, written again.
ghost use Rattle.vtl_rows.specs.Tables.{listed};
ghost use Rattle.vtl_tree.specs.Structure.{IsStructure};
ghost use Rattle.vtl_sets.specs.TableOf.{IsTableOf};

use crate::notation::{profile, text_of};
use crate::rows::Row;
use crate::trouble::CaseErr;
use std::alloc::{AllocError, Global};
use vtl_csv::{InputErr, StructErr, read_dataset, read_structures, write_dataset};
use vtl_decimal::Profile;
use vtl_rows::Table;
use vtl_tree::{Structure, Structures};

// The text of the data set that is read, or the first fault.
pub(crate) fn rewritten(alloc: Global, row: &Row) -> Result<String, CaseErr> {
    let profile = profile(row.field(0), row.field(1))?;
    match read_structures(alloc, row.field(2).as_bytes()) {
        Ok(declared) => one_read(alloc, &declared.structures, row.field(3), &profile),
        Err(StructErr::Structure { .. }) => Err(CaseErr::Structures),
        Err(StructErr::OutOfMemory) => Err(CaseErr::OutOfMemory),
    }
}

fn one_read(
    alloc: Global,
    structures: &Structures,
    text: &str,
    profile: &Profile,
) -> Result<String, CaseErr> {
    if structures.len() == 1 {
        read(alloc, structures.at(0).1, text.as_bytes(), profile)
    } else {
        Err(CaseErr::Structures)
    }
}

fn read(
    alloc: Global,
    structure: &Structure,
    text: &[u8],
    profile: &Profile,
) -> Result<String, CaseErr>
    requires { IsStructure structure.now }
{
    match read_dataset(alloc, text, structure, &[], profile) {
        Ok(table) => written(alloc, &table, structure, profile),
        Err(error) => fault(alloc, error),
    }
}

fn fault(alloc: Global, error: InputErr) -> Result<String, CaseErr> {
    match error {
        InputErr::Fault { line, column, kind } => Ok(format!(in alloc;
            "line {line} column {column} {kind:?}"
        )?),
        InputErr::OutOfMemory => Err(CaseErr::OutOfMemory),
    }
}

fn written(
    alloc: Global,
    table: &Table,
    structure: &Structure,
    profile: &Profile,
) -> Result<String, CaseErr>
    requires { IsTableOf structure.now (listed table.now) }
{
    text_of(file(alloc, table, structure, profile)?)
}

// The bytes that are written, without what is promised about them.
fn file(
    alloc: Global,
    table: &Table,
    structure: &Structure,
    profile: &Profile,
) -> Result<Vec<u8>, AllocError>
    requires { IsTableOf structure.now (listed table.now) }
{
    write_dataset(alloc, table, structure, profile)
}
