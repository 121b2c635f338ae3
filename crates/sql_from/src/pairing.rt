// How the rows are found that go together with a tuple, and which tuples of the join are kept.
//
// Pairs are found through one trait (`Pairing`), whose contract says nothing of how: each row is tried (`EachRow`),
// or rows are looked up (`Lookup`). What is known of a look-up, that it finds each row with which ON is true and that
// ON has no fault (`Finds`), is a ghost member of the trait that each caller is asked for.
// A filter is tried on each tuple as it is made, so that no tuple is held which WHERE does not keep.
ghost use Rattle.std.specs.List.{list_any};
ghost use Rattle.std.specs.Prelude.{◌≡◌, ℕ, ◌+◌, ◌++◌, ◌∷◌, [], length, IfErr, IfOk};
ghost use Rattle.sql_from.specs.Gains.{Gains, Tries};
ghost use Rattle.sql_from.specs.Joins.{Test, numbers_to, passes};

use crate::pairs::Walked;
use std::alloc::Global;
use vtl_scalar::ScalarErr;

/// The rows of a further source, by number, how those are found that a condition keeps beside a tuple, and a filter on the
/// tuples that are made.
pub(crate) trait Pairing {
    ghost width: { Self → ℕ };

    ghost count: { Self → ℕ };

    ghost value: { Self → Test };

    /// The filter.
    ghost keeps: { Self → Test };

    /// What is known of it wherever it is asked.
    ghost is_sound: { Self → Type 0 };

    /// How many numbers a tuple has with one of the rows.
    fn width(&self) -> usize
        ensures { result ≡ width self.now };

    /// How many rows there are.
    fn count(&self) -> usize
        ensures { result ≡ count self.now };

    /// For how many tuples room is asked at once where so many are joined: for all of a product; for none where some may be
    /// left out.
    fn room(&self, tuples: usize) -> usize;

    /// Puts a tuple behind the others where the filter is true at it. Its last number is given apart.
    fn keep(
        &self,
        alloc: Global,
        front: &[usize],
        last: usize,
        so_far: &mut Walked,
    ) -> Result<(), ScalarErr>
        requires sound { is_sound self.now }
        requires front { length front.now + 1 ≡ so_far.old.rows.width }
        requires width { width self.now ≡ so_far.old.rows.width }
        ensures gains { IfOk result (λ _. Gains (keeps self.now) None ((front.now ++ last ∷ []) ∷ []) so_far.old so_far.new) }
        ensures err { IfErr result (λ e. e ≡ ScalarErr.OutOfMemory) };

    /// Tries one tuple with all rows: marks the rows with which it is a pair, by number, puts those of the pairs behind the
    /// tuples at which the filter is true, and tells whether there is a pair.
    fn add_pairs(
        &self,
        alloc: Global,
        front: &[usize],
        met: &mut Vec<bool>,
        so_far: &mut Walked,
    ) -> Result<bool, ScalarErr>
        requires sound { is_sound self.now }
        requires front { length front.now + 1 ≡ so_far.old.rows.width }
        requires width { width self.now ≡ so_far.old.rows.width }
        ensures met { IfOk result (λ b. b ≡ list_any (passes (value self.now) front.now) (numbers_to (count self.now))) }
        ensures tries { IfOk result (λ _. Tries (value self.now) (keeps self.now) front.now (numbers_to (count self.now)) so_far.old so_far.new met.old.items met.new.items) }
        ensures err { IfErr result (λ e. e ≡ ScalarErr.OutOfMemory) };
}
