// The fault that a walk over many points or tuples has seen.
ghost use Rattle.std.specs.Prelude.{◌≡◌};
ghost use Rattle.vtl_cell.specs.Outcome.{unless};
ghost use Rattle.vtl_scalar.specs.Seen.{answer_of, seen_of, SeesAlso};

use crate::error::ScalarErr;

/// The fault that was seen so far: a division by zero comes before a number out of range.
#[derive(Clone, Copy, Debug, PartialEq, Eq)]
pub enum Seen {
    /// No fault.
    Nothing,
    /// A number out of its range, and no division by zero.
    Range,
    /// A division by zero.
    DivZero,
}

impl Seen {
    /// With one more fault. That memory ran out is no such fault, and is passed on.
    pub fn and(self, error: ScalarErr) -> Result<Seen, ScalarErr>
        ensures { SeesAlso result (seen_of self) error }
    {
        match error {
            ScalarErr::DivZero => Ok(Seen::DivZero),
            ScalarErr::Range => match self {
                Seen::DivZero => Ok(Seen::DivZero),
                _ => Ok(Seen::Range),
            },
            ScalarErr::OutOfMemory => Err(ScalarErr::OutOfMemory),
        }
    }

    /// The value, unless a fault was seen.
    pub fn unless<T: Drop>(self, value: T) -> Result<T, ScalarErr>
        ensures { result ≡ answer_of (unless (seen_of self) value) }
    {
        match self {
            Seen::Nothing => Ok(value),
            Seen::Range => Err(ScalarErr::Range),
            Seen::DivZero => Err(ScalarErr::DivZero),
        }
    }
}
