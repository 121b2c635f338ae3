// The name that a fault tells.
ghost use Rattle.std.specs.Prelude.{◌≡◌, IfOk, OnOk};
ghost use Rattle.sql_meaning.specs.Scripts.{fault_name};
ghost use Rattle.sql_engine.specs.Runs.{Faults};

use sql_from::ExecErr;
use std::alloc::{AllocError, Global};
use vtl_scalar::RunErr;
use vtl_text::Txt;

// The name of a table up to the first `$`.
fn fault_name(alloc: Global, name: &Txt) -> Result<Txt, AllocError>
    ensures { IfOk result (λ front. front ≡ fault_name name.now) }
{
    match name.as_str().split_once('$') {
        Some((front, _)) => Txt::new(alloc, front),
        None => name.share(),
    }
}

/// The fault of a table's query, with the name of the table up to the first `$`. Where there is no memory for the name,
/// want of memory is told.
pub fn named(alloc: Global, name: &Txt, error: ExecErr) -> RunErr
    ensures { Faults name.now error result }
{
    match (fault_name(alloc, name), error) {
        (Ok(front), ExecErr::DivZero) => RunErr::DivZero(front),
        (Ok(front), ExecErr::Range) => RunErr::Range(front),
        _ => RunErr::OutOfMemory,
    }
}
