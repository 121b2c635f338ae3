// Joins of tuples with the rows of a further source, whose tuples are tried by a filter as they are made, and WHERE.
//
// FULL marks the rows that are met as pairs are made, before the filter is tried, so that what is kept of the pairs
// decides nothing about which rows stand alone.
ghost use Rattle.std.specs.List.{flat_map};
ghost use Rattle.std.specs.Prelude.{◌≡◌, ◌+◌, false, length, true, replicate, None, IfErr, IfOk, if◌then◌else◌};
ghost use Rattle.vtl_cell.specs.Outcome.{join};
ghost use Rattle.sql_from.specs.Gains.{Gains};
ghost use Rattle.sql_from.specs.Joins.{joined_tuples, keeps_left, keeps_right, kept_fault, kept_tuples, pairs_fault, pairs_with, unmarked};
ghost use Rattle.sql_from.specs.Lookups.{Finds};
ghost use Rattle.vtl_scalar.specs.Seen.{seen_of};

use crate::Tuples;
use crate::condition::Condition;
use crate::key_lookup::JoinLookup;
use crate::lookup::Lookup;
use crate::pairing::Pairing;
use crate::pairs::{EachRow, Walked, keep_tuple, left_rows};
use sql_tree::JoinKind;
use std::alloc::{AllocError, Global};
use std::sync::ledger::Ledger;
use vtl_index::Steps;
use vtl_scalar::ScalarErr;

fn keeps_left(kind: JoinKind) -> bool
    ensures { result ≡ keeps_left kind }
{
    !matches!(kind, JoinKind::Inner)
}

fn keeps_right(kind: JoinKind) -> bool
    ensures { result ≡ keeps_right kind }
{
    matches!(kind, JoinKind::Full)
}

// A mark for each of so many rows, none of which is set; no marks where the join asks for none.
fn no_marks(alloc: Global, kind: JoinKind, count: usize) -> Result<Vec<bool>, AllocError>
    ensures { IfOk result (λ v. v.items ≡ replicate (if keeps_right kind then count else 0) false) }
{
    let marked = if keeps_right(kind) { count } else { 0 };
    vec![in alloc; false; marked]
}

// Puts the rows that are not marked behind the tuples, each behind the marks of missing parts, where the filter is true.
fn add_unmet<P: Pairing>(
    alloc: Global,
    pairing: &P,
    marks: &[usize],
    met: &[bool],
    so_far: &mut Walked,
) -> Result<(), ScalarErr>
    requires sound { P.is_sound pairing.now }
    requires marks { length marks.now + 1 ≡ so_far.old.rows.width }
    requires width { P.width pairing.now ≡ so_far.old.rows.width }
    ensures gains { IfOk result (λ _. Gains (P.keeps pairing.now) None (unmarked marks.now met.now) so_far.old so_far.new) }
    ensures err { IfErr result (λ e. e ≡ ScalarErr.OutOfMemory) }
{
    for j in 0..met.len() {
        if !met[j] {
            pairing.keep(alloc, marks, j, so_far)?;
        }
    }
    Ok(())
}

// The tuples behind a join with the rows of a source that its filter keeps, and the faults of its condition over all pairs
// and of its filter over all tuples of the join, beside the one that was seen before.
pub(crate) fn join_step<P: Pairing>(
    alloc: Global,
    kind: JoinKind,
    pairing: &P,
    left: &Walked,
    marks: &[usize],
) -> Result<Walked, ScalarErr>
    requires sound { P.is_sound pairing.now }
    requires width { P.width pairing.now ≡ left.now.rows.width + 1 }
    requires marks { length marks.now ≡ left.now.rows.width }
    ensures width { IfOk result (λ w. w.rows.width ≡ left.now.rows.width + 1) }
    ensures rows { IfOk result (λ w. w.rows.tuples ≡ kept_tuples (P.keeps pairing.now) (joined_tuples kind (P.value pairing.now) marks.now (P.count pairing.now) left.now.rows.tuples)) }
    ensures seen { IfOk result (λ w. seen_of w.seen ≡ join (seen_of left.now.seen) (join (pairs_fault (P.value pairing.now) (P.count pairing.now) left.now.rows.tuples) (kept_fault (P.keeps pairing.now) (joined_tuples kind (P.value pairing.now) marks.now (P.count pairing.now) left.now.rows.tuples)))) }
    ensures err { IfErr result (λ e. e ≡ ScalarErr.OutOfMemory) }
{
    let mut met = no_marks(alloc, kind, pairing.count())?;
    let mut so_far = left_rows(alloc, keeps_left(kind), pairing, left, &mut met)?;
    add_unmet(alloc, pairing, marks, &met, &mut so_far)?;
    Ok(so_far)
}

// The same for a join with so many rows, of which each is tried.
pub(crate) fn join_each<C: Condition, F: Condition>(
    alloc: Global,
    kind: JoinKind,
    condition: &C,
    filter: &F,
    left: &Walked,
    marks: &[usize],
    count: usize,
) -> Result<Walked, ScalarErr>
    requires width { C.width condition.now ≡ left.now.rows.width + 1 }
    requires filter { F.width filter.now ≡ C.width condition.now }
    requires marks { length marks.now ≡ left.now.rows.width }
    ensures width { IfOk result (λ w. w.rows.width ≡ left.now.rows.width + 1) }
    ensures rows { IfOk result (λ w. w.rows.tuples ≡ kept_tuples (F.value filter.now) (joined_tuples kind (C.value condition.now) marks.now count left.now.rows.tuples)) }
    ensures seen { IfOk result (λ w. seen_of w.seen ≡ join (seen_of left.now.seen) (join (pairs_fault (C.value condition.now) count left.now.rows.tuples) (kept_fault (F.value filter.now) (joined_tuples kind (C.value condition.now) marks.now count left.now.rows.tuples)))) }
    ensures err { IfErr result (λ e. e ≡ ScalarErr.OutOfMemory) }
{
    let each = EachRow {
        condition,
        filter,
        count,
    };
    join_step(alloc, kind, &each, left, marks)
}

// The same for a join with rows that are looked up, with which the condition has no fault. It takes a step for each row that
// is found of a tuple.
pub(crate) fn join_found<C: Condition, F: Condition, L: Ledger>(
    alloc: Global,
    kind: JoinKind,
    condition: &C,
    filter: &F,
    rows: &JoinLookup<'_>,
    left: &Walked,
    marks: &[usize],
    steps: &mut Steps<L>,
) -> Result<Walked, ScalarErr>
    requires finds { Finds (C.width condition.now) (C.value condition.now) rows.now }
    requires width { C.width condition.now ≡ left.now.rows.width + 1 }
    requires filter { F.width filter.now ≡ C.width condition.now }
    requires marks { length marks.now ≡ left.now.rows.width }
    ensures width { IfOk result (λ w. w.rows.width ≡ left.now.rows.width + 1) }
    ensures rows { IfOk result (λ w. w.rows.tuples ≡ kept_tuples (F.value filter.now) (joined_tuples kind (C.value condition.now) marks.now rows.now.keys.count left.now.rows.tuples)) }
    ensures seen { IfOk result (λ w. seen_of w.seen ≡ join (seen_of left.now.seen) (join (pairs_fault (C.value condition.now) rows.now.keys.count left.now.rows.tuples) (kept_fault (F.value filter.now) (joined_tuples kind (C.value condition.now) marks.now rows.now.keys.count left.now.rows.tuples)))) }
    ensures steps { rows.now.is_whole ≡ true → steps.new ≡ steps.old + length (flat_map (pairs_with (C.value condition.now) rows.now.keys.count) left.now.rows.tuples) }
    ensures err { IfErr result (λ e. e ≡ ScalarErr.OutOfMemory) }
{
    let found = Lookup {
        condition,
        filter,
        rows,
    };
    found.count_found(&left.rows, steps);
    join_step(alloc, kind, &found, left, marks)
}

// The tuples at which a condition is true, and its fault beside the one that was seen before.
pub(crate) fn keep<C: Condition>(
    alloc: Global,
    condition: &C,
    from: &Walked,
) -> Result<Walked, ScalarErr>
    requires { C.width condition.now ≡ from.now.rows.width }
    ensures width { IfOk result (λ w. w.rows.width ≡ from.now.rows.width) }
    ensures rows { IfOk result (λ w. w.rows.tuples ≡ kept_tuples (C.value condition.now) from.now.rows.tuples) }
    ensures seen { IfOk result (λ w. seen_of w.seen ≡ join (seen_of from.now.seen) (kept_fault (C.value condition.now) from.now.rows.tuples)) }
    ensures err { IfErr result (λ e. e ≡ ScalarErr.OutOfMemory) }
{
    let width = from.rows.width();
    let mut kept = Walked {
        rows: Tuples::new(alloc, width),
        seen: from.seen,
    };
    for i in 0..from.rows.len() {
        let tuple = from.rows.tuple(i);
        keep_tuple(
            alloc,
            condition,
            &tuple[..width - 1],
            tuple[width - 1],
            &mut kept,
        )?;
    }
    Ok(kept)
}
