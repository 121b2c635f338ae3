// What can go wrong in checking a script.
use std::alloc::{AllocError, AllocFailed};

/// Why a script is not typed.
#[derive(Clone, Copy, Debug, PartialEq, Eq)]
pub enum CheckErr {
    /// A statement breaks a rule: the first that breaks one, counted from 1 with all statements, and the rule.
    Mistyped {
        /// The number of the statement.
        statement: usize,
        /// The number of the rule (docs/TYPES.md).
        rule: u8,
    },
    /// There was not enough memory.
    OutOfMemory,
}

impl From<AllocError> for CheckErr {
    ghost use Rattle.std.specs.Prelude.{◌≡◌};
    ghost use Rattle.vtl_check.specs.declared.error.CheckErr.TheVariants.{OutOfMemory};

    ghost from_gives = { λ _ e. e ≡ OutOfMemory };

    fn from(_: AllocError) -> CheckErr {
        CheckErr::OutOfMemory
    }
}

impl<T: Drop> From<AllocFailed<T>> for CheckErr {
    ghost use Rattle.std.specs.Prelude.{◌≡◌};
    ghost use Rattle.vtl_check.specs.declared.error.CheckErr.TheVariants.{OutOfMemory};

    ghost from_gives = { λ _ e. e ≡ OutOfMemory };

    fn from(_: AllocFailed<T>) -> CheckErr {
        CheckErr::OutOfMemory
    }
}
