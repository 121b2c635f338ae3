// A write that takes nothing of a piece that is not empty is a fault, so that writing ends.
ghost use Rattle.std.specs.Prelude.{◌≡◌, ◌≢◌, ◌≤◌, ◌<◌, true, Err, OnOk, OnErr, IfOk, IfSome, length, vec_len};
ghost use Rattle.vtl_files.specs.Outside.{Rose, FaultAt, bytes_at, AppendsAll, TakesAll};
ghost use Rattle.vtl_files.specs.Whole.{ReadsAll, CountsAbsent, AppendsFront, TakesFront};

use crate::failed::Failed;
use crate::files::Files;
use crate::read_err::ReadErr;
use crate::sink::Sink;
use std::alloc::{AllocError, Global};

/// How many bytes are asked for at a time.
const BLOCK: usize = 65536;

/// Reads the file `name` whole, if it has at most `limit` bytes. It stops at the first read that goes beyond the limit;
/// each read takes at least one byte.
///
/// # Errors
///
/// See [`ReadErr`].
pub fn read_all<F: Files>(
    alloc: Global,
    f: &mut F,
    name: &str,
    limit: usize,
) -> Result<Vec<u8>, ReadErr>
    ensures held { F.held f.new ≡ F.held f.old }
    ensures written { F.written f.new ≡ F.written f.old }
    ensures creating { F.creating f.new ≡ F.creating f.old }
    ensures misuses { F.misuses f.new ≡ F.misuses f.old }
    ensures faults { F.faults f.old ≤ F.faults f.new }
    ensures absences { F.absences f.old ≤ F.absences f.new }
    ensures within { IfOk result (λ read. vec_len read ≤ limit) }
    ensures told { IfSome (F.held f.old) (λ files. ReadsAll (bytes_at name.now files) limit result) }
    ensures absent { CountsAbsent result (F.absences f.old) (F.absences f.new) }
    ensures failed { result ≡ Err ReadErr.Failed
        → FaultAt (F.faults f.old) (F.faults f.new) (F.mark f.new) (F.place f.new) name.now }
    ensures place { result ≢ Err ReadErr.OutOfMemory → F.place f.new ≡ name.now }
{
    let owned = String::from_str(alloc, name)?;
    let mut room = block(alloc)?;
    if !f.open(owned)? {
        return Err(ReadErr::Absent);
    }
    read_rest(alloc, f, &mut room, limit)
}

/// Writes all bytes to the file that is being created.
///
/// # Errors
///
/// A write failed. Some first part of the bytes was written.
pub fn write_all<F: Files>(f: &mut F, bytes: &[u8]) -> Result<(), Failed>
    ensures held { F.held f.new ≡ F.held f.old }
    ensures creating { F.creating f.new ≡ F.creating f.old }
    ensures place { F.place f.new ≡ F.place f.old }
    ensures mark { F.mark f.new ≡ F.mark f.old }
    ensures opened { F.opened f.new ≡ F.opened f.old }
    ensures left { F.left f.new ≡ F.left f.old }
    ensures absences { F.absences f.new ≡ F.absences f.old }
    ensures misuses { F.misuses f.old ≤ F.misuses f.new }
    ensures used { F.creating f.old ≡ true → F.misuses f.new ≡ F.misuses f.old }
    ensures faults { F.faults f.old ≤ F.faults f.new }
    ensures failed { OnErr result (Rose (F.faults f.old) (F.faults f.new)) }
    ensures written { OnOk result (AppendsAll (F.written f.old) (F.written f.new) bytes.now) }
    ensures front { OnErr result (AppendsFront (F.written f.old) (F.written f.new) bytes.now) }
{
    let mut rest = bytes;
    while !rest.is_empty() {
        let count = f.write(rest)?;
        if count == 0 {
            return Err(Failed);
        }
        rest = &rest[count..];
    }
    Ok(())
}

/// Hands all bytes to the sink.
///
/// # Errors
///
/// The sink failed. It has taken some first part of the bytes.
pub fn sink_all<O: Sink>(o: &mut O, bytes: &[u8]) -> Result<(), Failed>
    ensures faults { O.faults o.old ≤ O.faults o.new }
    ensures failed { OnErr result (Rose (O.faults o.old) (O.faults o.new)) }
    ensures taken { OnOk result (TakesAll (O.taken o.old) (O.taken o.new) bytes.now) }
    ensures front { OnErr result (TakesFront (O.taken o.old) (O.taken o.new) bytes.now) }
{
    let mut rest = bytes;
    while !rest.is_empty() {
        let count = o.write(rest)?;
        if count == 0 {
            return Err(Failed);
        }
        rest = &rest[count..];
    }
    Ok(())
}

// Room for one read.
fn block(alloc: Global) -> Result<Vec<u8>, AllocError>
    ensures { IfOk result (λ room. 0 < vec_len room) }
{
    vec![in alloc; 0u8; BLOCK]
}

// Reads what is left of the opened file by way of `room`, if it has at most `limit` bytes.
fn read_rest<F: Files>(
    alloc: Global,
    f: &mut F,
    room: &mut [u8],
    limit: usize,
) -> Result<Vec<u8>, ReadErr>
    requires { 0 < length room.old }
    ensures held { F.held f.new ≡ F.held f.old }
    ensures written { F.written f.new ≡ F.written f.old }
    ensures creating { F.creating f.new ≡ F.creating f.old }
    ensures misuses { F.misuses f.new ≡ F.misuses f.old }
    ensures place { F.place f.new ≡ F.place f.old }
    ensures mark { F.mark f.new ≡ F.mark f.old }
    ensures absences { F.absences f.new ≡ F.absences f.old }
    ensures faults { F.faults f.old ≤ F.faults f.new }
    ensures failed { result ≡ Err ReadErr.Failed → Rose (F.faults f.old) (F.faults f.new) }
    ensures not_absent { result ≢ Err ReadErr.Absent }
    ensures within { IfOk result (λ read. vec_len read ≤ limit) }
    ensures told { IfOk result (λ read. IfSome (F.left f.old) (λ left. left ≡ read.items)) }
    ensures too_long { result ≡ Err ReadErr.TooLong → IfSome (F.left f.old) (λ left. limit < length left) }
{
    let mut bytes = Vec::new(alloc);
    while bytes.len() <= limit {
        let count = f.read(room)?;
        if count == 0 {
            return Ok(bytes);
        }
        bytes.extend_from_slice(&room[..count])?;
    }
    Err(ReadErr::TooLong)
}
