// Pairs of a tuple and a row, by a look-up.
//
// A look-up is right whatever a plan lists: the columns of its key are read from the conditions themselves. Where these are
// more than the equalities of the key, they are tried on each pair that is found.
ghost use Rattle.std.specs.List.{flat_map, list_any};
ghost use Rattle.std.specs.Prelude.{◌≡◌, ◌+◌, ◌++◌, ◌∷◌, [], length, map, true, None, IfErr, IfOk};
ghost use Rattle.sql_from.specs.Gains.{AreMarked, Gains, Tries};
ghost use Rattle.sql_from.specs.Joins.{pairs_with, passes, with_number};
ghost use Rattle.sql_from.specs.Lookups.{Finds, IsSound};

use crate::Tuples;
use crate::condition::Condition;
use crate::counting::count_each;
use crate::key_lookup::JoinLookup;
use crate::pairing::Pairing;
use crate::pairs::{Walked, keep_tuple, mark, try_pair};
use std::alloc::Global;
use std::sync::ledger::Ledger;
use vtl_index::Steps;
use vtl_scalar::ScalarErr;

/// The rows of a source, of which those are looked up that a condition keeps beside a tuple.
#[derive(Drop)]
pub(crate) struct Lookup<'c, 'f, 'l, 'k, C, F> {
    pub(crate) condition: &'c C,
    pub(crate) filter: &'f F,
    pub(crate) rows: &'l JoinLookup<'k>,
}

// Makes the pairs of one tuple with the rows of these numbers, and marks the rows.
fn add_found<F: Condition>(
    alloc: Global,
    filter: &F,
    front: &[usize],
    found: &[usize],
    met: &mut Vec<bool>,
    so_far: &mut Walked,
) -> Result<(), ScalarErr>
    requires front { length front.now + 1 ≡ so_far.old.rows.width }
    requires width { F.width filter.now ≡ so_far.old.rows.width }
    ensures gains { IfOk result (λ _. Gains (F.value filter.now) None (map (with_number front.now) found.now) so_far.old so_far.new) }
    ensures marked { IfOk result (λ _. AreMarked found.now met.old.items met.new.items) }
    ensures err { IfErr result (λ e. e ≡ ScalarErr.OutOfMemory) }
{
    for number in found {
        mark(met, *number);
        keep_tuple(alloc, filter, front, *number, so_far)?;
    }
    Ok(())
}

// Tries one tuple with the rows of these numbers, and tells whether there is a pair.
fn try_found<C: Condition, F: Condition>(
    alloc: Global,
    condition: &C,
    filter: &F,
    front: &[usize],
    found: &[usize],
    met: &mut Vec<bool>,
    so_far: &mut Walked,
) -> Result<bool, ScalarErr>
    requires front { length front.now + 1 ≡ so_far.old.rows.width }
    requires width { C.width condition.now ≡ so_far.old.rows.width }
    requires filter { F.width filter.now ≡ so_far.old.rows.width }
    ensures met { IfOk result (λ b. b ≡ list_any (passes (C.value condition.now) front.now) found.now) }
    ensures tries { IfOk result (λ _. Tries (C.value condition.now) (F.value filter.now) front.now found.now so_far.old so_far.new met.old.items met.new.items) }
    ensures err { IfErr result (λ e. e ≡ ScalarErr.OutOfMemory) }
{
    let mut any = false;
    for number in found {
        let here = try_pair(alloc, condition, filter, front, *number, met, so_far)?;
        any = any || here;
    }
    Ok(any)
}

impl<'c, 'f, 'l, 'k, C: Condition, F: Condition> Lookup<'c, 'f, 'l, 'k, C, F> {
    /// Counts a step for each row that is found of a tuple.
    pub(crate) fn count_found<L: Ledger>(&self, left: &Tuples, steps: &mut Steps<L>)
        requires finds { Finds (C.width self.now.condition.now) (C.value self.now.condition.now) self.now.rows.now }
        requires width { C.width self.now.condition.now ≡ left.now.width + 1 }
        ensures { self.now.rows.now.is_whole ≡ true → steps.new ≡ steps.old + length (flat_map (pairs_with (C.value self.now.condition.now) self.now.rows.now.keys.count) left.now.tuples) }
    {
        for i in 0..left.len() {
            count_each(self.rows.keys.found(left.tuple(i)).len(), steps);
        }
    }
}

impl<'c, 'f, 'l, 'k, C: Condition, F: Condition> Pairing for Lookup<'c, 'f, 'l, 'k, C, F> {
    ghost width = { λ l. C.width l.condition.now };

    ghost count = { λ l. l.rows.now.keys.count };

    ghost value = { λ l. C.value l.condition.now };

    ghost keeps = { λ l. F.value l.filter.now };

    ghost is_sound = { λ l. IsSound (F.width l.filter.now) (C.width l.condition.now) (C.value l.condition.now) l.rows.now };

    fn width(&self) -> usize {
        self.condition.width()
    }

    fn count(&self) -> usize {
        self.rows.keys.count
    }

    fn room(&self, _tuples: usize) -> usize {
        0
    }

    fn keep(
        &self,
        alloc: Global,
        front: &[usize],
        last: usize,
        so_far: &mut Walked,
    ) -> Result<(), ScalarErr> {
        keep_tuple(alloc, self.filter, front, last, so_far)
    }

    fn add_pairs(
        &self,
        alloc: Global,
        front: &[usize],
        met: &mut Vec<bool>,
        so_far: &mut Walked,
    ) -> Result<bool, ScalarErr> {
        let found = self.rows.keys.found(front);
        if self.rows.is_whole {
            add_found(alloc, self.filter, front, found, met, so_far)?;
            Ok(!found.is_empty())
        } else {
            try_found(
                alloc,
                self.condition,
                self.filter,
                front,
                found,
                met,
                so_far,
            )
        }
    }
}
