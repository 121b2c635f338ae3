// What can go wrong in typing.
ghost use Rattle.std.specs.Prelude.{◌≡◌, [], ◌∷◌};
ghost use Rattle.check_faults.specs.Answers.{Answers};
ghost use Rattle.check_faults.specs.Rules.{ruled};

use crate::rules::Rule;
use std::alloc::{AllocError, AllocFailed};

/// Why a part of a script is not typed.
#[derive(Clone, Copy, Debug, PartialEq, Eq)]
pub enum TypeErr {
    /// This rule is broken.
    Broken(Rule),
    /// There was not enough memory.
    OutOfMemory,
}

impl From<AllocError> for TypeErr {
    ghost use Rattle.std.specs.Prelude.{◌≡◌};
    ghost use Rattle.check_faults.specs.declared.error.TypeErr.TheVariants.{OutOfMemory};

    ghost from_gives = { λ _ e. e ≡ OutOfMemory };

    fn from(_: AllocError) -> TypeErr {
        TypeErr::OutOfMemory
    }
}

impl<T: Drop> From<AllocFailed<T>> for TypeErr {
    ghost use Rattle.std.specs.Prelude.{◌≡◌};
    ghost use Rattle.check_faults.specs.declared.error.TypeErr.TheVariants.{OutOfMemory};

    ghost from_gives = { λ _ e. e ≡ OutOfMemory };

    fn from(_: AllocFailed<T>) -> TypeErr {
        TypeErr::OutOfMemory
    }
}

/// The fault of a rule, where it is broken.
pub fn broken(rule: Rule, is_broken: bool) -> Result<(), TypeErr>
    ensures { Answers (λ done. done) result (ruled ((rule, is_broken) ∷ []) tt) }
{
    if is_broken {
        Err(TypeErr::Broken(rule))
    } else {
        Ok(())
    }
}
