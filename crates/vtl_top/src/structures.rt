// What the structures file declares.
ghost use Rattle.vtl_top.specs.Refusal.{Settles};
ghost use Rattle.vtl_top.specs.Structures.{declared, structures_in};
ghost use Rattle.vtl_csv.specs.StructuresFile.{structures_of_file};

use crate::refusal::not_text;
use std::alloc::Global;
use std::str;
use vtl_csv::{Declared, StructErr, read_structures};
use vtl_status::Status;

/// What the bytes of the file at a path declare, or the status of their first fault; or that memory ran out.
pub fn structures_of(alloc: Global, path: &str, bytes: &[u8]) -> Result<Declared, Status>
    ensures { Settles (structures_in path.now bytes.now) result }
{
    match str::from_utf8(bytes) {
        Ok(_) => declared(alloc, bytes),
        Err(_) => Err(not_text(alloc, path)),
    }
}

// What a text declares.
fn declared(alloc: Global, text: &[u8]) -> Result<Declared, Status>
    ensures { Settles (declared (structures_of_file text.now)) result }
{
    match read_structures(alloc, text) {
        Ok(declared) => Ok(declared),
        Err(StructErr::Structure { line, rule }) => Err(Status::Structure { line, rule }),
        Err(StructErr::OutOfMemory) => Err(Status::Memory),
    }
}
