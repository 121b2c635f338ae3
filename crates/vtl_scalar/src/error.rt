// Why an operator has no value.
ghost use Rattle.vtl_scalar.specs.Operands.{error_of};

use std::alloc::{AllocError, AllocFailed};
use vtl_decimal::Fault;

/// Why an expression has no value.
#[derive(Clone, Copy, Debug, PartialEq, Eq)]
pub enum ScalarErr {
    /// A division by zero.
    DivZero,
    /// A number out of its range.
    Range,
    /// There was not enough memory.
    OutOfMemory,
}

impl From<AllocError> for ScalarErr {
    ghost use Rattle.std.specs.Prelude.{◌≡◌};
    ghost use Rattle.vtl_scalar.specs.declared.error.ScalarErr.TheVariants.{OutOfMemory};

    ghost from_gives = { λ _ e. e ≡ OutOfMemory };

    fn from(_: AllocError) -> Self {
        ScalarErr::OutOfMemory
    }
}

impl<T: Drop> From<AllocFailed<T>> for ScalarErr {
    ghost use Rattle.std.specs.Prelude.{◌≡◌};
    ghost use Rattle.vtl_scalar.specs.declared.error.ScalarErr.TheVariants.{OutOfMemory};

    ghost from_gives = { λ _ e. e ≡ OutOfMemory };

    fn from(_: AllocFailed<T>) -> Self {
        ScalarErr::OutOfMemory
    }
}

impl From<Fault> for ScalarErr {
    ghost use Rattle.std.specs.Prelude.{◌≡◌};
    ghost use Rattle.vtl_scalar.specs.Operands.{error_of};

    ghost from_gives = { λ fault e. e ≡ error_of fault };

    fn from(fault: Fault) -> Self {
        match fault {
            Fault::DivZero => ScalarErr::DivZero,
            Fault::Range => ScalarErr::Range,
        }
    }
}
