// Conditions at tuples of row numbers.
ghost use Rattle.std.specs.Prelude.{◌≡◌, ◌+◌, ◌∷◌, ◌++◌, [], ℕ, length};
ghost use Rattle.vtl_scalar.specs.Answers.{Answers};
ghost use Rattle.sql_from.specs.Joins.{Test, told};

use std::alloc::Global;
use vtl_scalar::ScalarErr;

/// A condition on tuples of row numbers, which has a value or a fault at each of them.
pub(crate) trait Condition {
    ghost width: { Self → ℕ };

    ghost value: { Self → Test };

    /// How many numbers a tuple has.
    fn width(&self) -> usize
        ensures { result ≡ width self.now };

    /// Whether it is known to be true at every tuple. Nothing but the room that is asked for goes by it.
    fn is_always(&self) -> bool;

    /// Whether it is true at a tuple, whose last number is given apart; or its fault.
    fn at(&self, alloc: Global, front: &[usize], last: usize) -> Result<bool, ScalarErr>
        requires { length front.now + 1 ≡ width self.now }
        ensures { Answers result (told (value self.now (front.now ++ last ∷ []))) };
}
