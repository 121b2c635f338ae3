// Pairs of a tuple and a row, and nested loops.
ghost use Rattle.std.specs.List.{flat_map, list_any};
ghost use Rattle.std.specs.Prelude.{◌≡◌, ◌+◌, ◌++◌, ◌∷◌, [], filter, length, None, IfErr, IfOk};
ghost use Rattle.vtl_cell.specs.Outcome.{faults_by, join, unless};
ghost use Rattle.sql_from.specs.Gains.{AreMarked, Gains, Tries};
ghost use Rattle.sql_from.specs.Joins.{fault_of, from_left, kept_fault, kept_tuples, numbers_to, pairs_fault, partner_numbers, passes};
ghost use Rattle.vtl_scalar.specs.Seen.{answer_of, seen_of};

use crate::Tuples;
use crate::condition::Condition;
use crate::pairing::Pairing;
use std::alloc::Global;
use vtl_scalar::{ScalarErr, Seen};

// The tuples so far, and the fault of the conditions so far.
pub(crate) struct Walked {
    pub(crate) rows: Tuples,
    pub(crate) seen: Seen,
}

// Written out, so that a proof sees one call and not the drop of each part.
impl Drop for Walked {
    fn drop(self) {
        let Walked {
            rows: _rows,
            seen: _,
        } = self;
    }
}

impl Walked {
    // The tuples, unless a fault was seen.
    pub(crate) fn finish(self) -> Result<Tuples, ScalarErr>
        ensures { result ≡ answer_of (unless (seen_of self.seen) self.rows) }
    {
        let Walked { rows, seen } = self;
        seen.unless(rows)
    }
}

// Puts a tuple behind the others where the filter is true at it.
pub(crate) fn keep_tuple<F: Condition>(
    alloc: Global,
    filter: &F,
    front: &[usize],
    last: usize,
    so_far: &mut Walked,
) -> Result<(), ScalarErr>
    requires front { length front.now + 1 ≡ so_far.old.rows.width }
    requires width { F.width filter.now ≡ so_far.old.rows.width }
    ensures gains { IfOk result (λ _. Gains (F.value filter.now) None ((front.now ++ last ∷ []) ∷ []) so_far.old so_far.new) }
    ensures err { IfErr result (λ e. e ≡ ScalarErr.OutOfMemory) }
{
    match filter.at(alloc, front, last) {
        Ok(true) => {
            so_far.rows.push(front, last)?;
            Ok(())
        }
        Ok(false) => Ok(()),
        Err(error) => {
            so_far.seen = so_far.seen.and(error)?;
            Ok(())
        }
    }
}

// Marks a number, if it is among those that are marked.
pub(crate) fn mark(met: &mut Vec<bool>, number: usize)
    ensures { AreMarked (number ∷ []) met.old.items met.new.items }
{
    if number < met.len() {
        met[number] = true;
    }
}

// Tries a pair of a tuple and a row: where it is one, the row is marked, and it is put behind the tuples if the filter is
// true at it. Tells whether it is one.
pub(crate) fn try_pair<C: Condition, F: Condition>(
    alloc: Global,
    condition: &C,
    filter: &F,
    front: &[usize],
    last: usize,
    met: &mut Vec<bool>,
    so_far: &mut Walked,
) -> Result<bool, ScalarErr>
    requires front { length front.now + 1 ≡ so_far.old.rows.width }
    requires width { C.width condition.now ≡ so_far.old.rows.width }
    requires filter { F.width filter.now ≡ so_far.old.rows.width }
    ensures met { IfOk result (λ b. b ≡ passes (C.value condition.now) front.now last) }
    ensures tries { IfOk result (λ _. Tries (C.value condition.now) (F.value filter.now) front.now (last ∷ []) so_far.old so_far.new met.old.items met.new.items) }
    ensures err { IfErr result (λ e. e ≡ ScalarErr.OutOfMemory) }
{
    match condition.at(alloc, front, last) {
        Ok(true) => {
            mark(met, last);
            keep_tuple(alloc, filter, front, last, so_far)?;
            Ok(true)
        }
        Ok(false) => Ok(false),
        Err(error) => {
            so_far.seen = so_far.seen.and(error)?;
            Ok(false)
        }
    }
}

// Tries one tuple with so many rows, and tells whether there is a pair.
fn pairs_of<C: Condition, F: Condition>(
    alloc: Global,
    condition: &C,
    filter: &F,
    front: &[usize],
    count: usize,
    met: &mut Vec<bool>,
    so_far: &mut Walked,
) -> Result<bool, ScalarErr>
    requires front { length front.now + 1 ≡ so_far.old.rows.width }
    requires width { C.width condition.now ≡ so_far.old.rows.width }
    requires filter { F.width filter.now ≡ so_far.old.rows.width }
    ensures met { IfOk result (λ b. b ≡ list_any (passes (C.value condition.now) front.now) (numbers_to count)) }
    ensures tries { IfOk result (λ _. Tries (C.value condition.now) (F.value filter.now) front.now (numbers_to count) so_far.old so_far.new met.old.items met.new.items) }
    ensures err { IfErr result (λ e. e ≡ ScalarErr.OutOfMemory) }
{
    let mut any = false;
    for j in 0..count {
        let here = try_pair(alloc, condition, filter, front, j, met, so_far)?;
        any = any || here;
    }
    Ok(any)
}

/// The rows of a source, each of which is tried.
#[derive(Drop)]
pub(crate) struct EachRow<'c, 'f, C, F> {
    pub(crate) condition: &'c C,
    pub(crate) filter: &'f F,
    pub(crate) count: usize,
}

impl<'c, 'f, C: Condition, F: Condition> Pairing for EachRow<'c, 'f, C, F> {
    ghost width = { λ e. C.width e.condition.now };

    ghost count = { λ e. e.count };

    ghost value = { λ e. C.value e.condition.now };

    ghost keeps = { λ e. F.value e.filter.now };

    ghost is_sound = { λ e. F.width e.filter.now ≡ C.width e.condition.now };

    fn width(&self) -> usize {
        self.condition.width()
    }

    fn count(&self) -> usize {
        self.count
    }

    fn room(&self, tuples: usize) -> usize {
        if self.condition.is_always() && self.filter.is_always() {
            tuples.saturating_mul(self.count)
        } else {
            0
        }
    }

    fn keep(
        &self,
        alloc: Global,
        front: &[usize],
        last: usize,
        so_far: &mut Walked,
    ) -> Result<(), ScalarErr> {
        keep_tuple(alloc, self.filter, front, last, so_far)
    }

    fn add_pairs(
        &self,
        alloc: Global,
        front: &[usize],
        met: &mut Vec<bool>,
        so_far: &mut Walked,
    ) -> Result<bool, ScalarErr> {
        pairs_of(
            alloc,
            self.condition,
            self.filter,
            front,
            self.count,
            met,
            so_far,
        )
    }
}

// Tries one left tuple: what becomes of it is put behind the tuples where the filter is true.
fn left_row<P: Pairing>(
    alloc: Global,
    keeps: bool,
    pairing: &P,
    front: &[usize],
    met: &mut Vec<bool>,
    so_far: &mut Walked,
) -> Result<(), ScalarErr>
    requires sound { P.is_sound pairing.now }
    requires front { length front.now + 1 ≡ so_far.old.rows.width }
    requires width { P.width pairing.now ≡ so_far.old.rows.width }
    ensures gains { IfOk result (λ _. Gains (P.keeps pairing.now) (faults_by (fault_of (P.value pairing.now) front.now) (numbers_to (P.count pairing.now))) (from_left keeps (P.value pairing.now) (P.count pairing.now) front.now) so_far.old so_far.new) }
    ensures met { IfOk result (λ _. AreMarked (filter (passes (P.value pairing.now) front.now) (numbers_to (P.count pairing.now))) met.old.items met.new.items) }
    ensures err { IfErr result (λ e. e ≡ ScalarErr.OutOfMemory) }
{
    let count = pairing.count();
    let any = pairing.add_pairs(alloc, front, met, so_far)?;
    if keeps && !any {
        pairing.keep(alloc, front, count, so_far)?;
    }
    Ok(())
}

// What becomes of all left tuples and is kept by the filter, and the fault beside the one that was seen before. All room of
// a product is asked for at once, so one that memory does not hold is refused before a tuple is made.
pub(crate) fn left_rows<P: Pairing>(
    alloc: Global,
    keeps: bool,
    pairing: &P,
    left: &Walked,
    met: &mut Vec<bool>,
) -> Result<Walked, ScalarErr>
    requires sound { P.is_sound pairing.now }
    requires width { P.width pairing.now ≡ left.now.rows.width + 1 }
    ensures width { IfOk result (λ w. w.rows.width ≡ left.now.rows.width + 1) }
    ensures rows { IfOk result (λ w. w.rows.tuples ≡ kept_tuples (P.keeps pairing.now) (flat_map (from_left keeps (P.value pairing.now) (P.count pairing.now)) left.now.rows.tuples)) }
    ensures seen { IfOk result (λ w. seen_of w.seen ≡ join (seen_of left.now.seen) (join (pairs_fault (P.value pairing.now) (P.count pairing.now) left.now.rows.tuples) (kept_fault (P.keeps pairing.now) (flat_map (from_left keeps (P.value pairing.now) (P.count pairing.now)) left.now.rows.tuples)))) }
    ensures met { IfOk result (λ _. AreMarked (partner_numbers (P.value pairing.now) (P.count pairing.now) left.now.rows.tuples) met.old.items met.new.items) }
    ensures err { IfErr result (λ e. e ≡ ScalarErr.OutOfMemory) }
{
    let room = pairing.room(left.rows.len());
    let mut so_far = Walked {
        rows: Tuples::with_room(alloc, pairing.width(), room)?,
        seen: left.seen,
    };
    for i in 0..left.rows.len() {
        left_row(alloc, keeps, pairing, left.rows.tuple(i), met, &mut so_far)?;
    }
    Ok(so_far)
}
