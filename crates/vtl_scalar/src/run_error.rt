// How a run of a script can fail, in VTL and in SQL.
use std::alloc::{AllocError, AllocFailed};
use vtl_text::Txt;

/// Why a script gives no outputs, or its text in SQL no exports. A name is that of a result in VTL, and that of a table up to
/// its first `$` in SQL.
#[derive(Debug, Drop)]
pub enum RunErr {
    /// A statement divides by zero: its name.
    DivZero(Txt),
    /// A number of a statement is out of range: its name.
    Range(Txt),
    /// There was not enough memory.
    OutOfMemory,
}

impl From<AllocError> for RunErr {
    ghost use Rattle.std.specs.Prelude.{◌≡◌};
    ghost use Rattle.vtl_scalar.specs.declared.run_error.RunErr.TheVariants.{OutOfMemory};

    ghost from_gives = { λ _ e. e ≡ OutOfMemory };

    fn from(_: AllocError) -> RunErr {
        RunErr::OutOfMemory
    }
}

impl<T: Drop> From<AllocFailed<T>> for RunErr {
    ghost use Rattle.std.specs.Prelude.{◌≡◌};
    ghost use Rattle.vtl_scalar.specs.declared.run_error.RunErr.TheVariants.{OutOfMemory};

    ghost from_gives = { λ _ e. e ≡ OutOfMemory };

    fn from(_: AllocFailed<T>) -> RunErr {
        RunErr::OutOfMemory
    }
}
