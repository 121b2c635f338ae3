// Why a script is not typed.
use std::alloc::AllocError;

/// Why a script is not typed.
#[derive(Clone, Copy, Debug, PartialEq, Eq)]
pub enum SqlTypeErr {
    /// A statement breaks a rule.
    Mistyped {
        /// The first such statement, counted from 1 with SET.
        statement: usize,
        /// The least rule that it breaks, from 1 (`UnknownTable`) to 13 (`MisnamedSeries`).
        rule: u8,
    },
    /// There was not enough memory.
    OutOfMemory,
}

impl From<AllocError> for SqlTypeErr {
    ghost use Rattle.std.specs.Prelude.{◌≡◌};
    ghost use Rattle.sql_check.specs.declared.error.SqlTypeErr.TheVariants.{OutOfMemory};

    ghost from_gives = { λ _ e. e ≡ OutOfMemory };

    fn from(_: AllocError) -> SqlTypeErr {
        SqlTypeErr::OutOfMemory
    }
}
