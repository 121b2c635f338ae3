// The tuples of a cross join, one after the other.
ghost use Rattle.std.specs.Prelude.{◌≡◌, ◌+◌, ◌∷◌, [], length, map, IfErr, OnOk};
ghost use Rattle.std.specs.List.{AllByRecursion};
ghost use Rattle.vtl_join.specs.Crossing.{tuples_behind};
ghost use Rattle.vtl_join.specs.Gatherings.{point_of, width_of};
ghost use Rattle.vtl_join_filter.specs.Partners.{IsPartner};
ghost use Rattle.vtl_join_filter.specs.Sifting.{IsReady, asked_of, so_far};

use crate::partners::{Partner, numbers_behind};
use crate::sieve::{Asked, Sieve};
use std::alloc::Global;
use vtl_scalar::ScalarErr;

// Adds every combination of numbers below these counts, each behind what stands in front of it, but for some at which the
// condition is not true and has no fault; the first numbers are the slowest. It leaves the front as it was.
fn add_combined(
    alloc: Global,
    asked: &Asked<'_>,
    partners: &[Partner<'_>],
    sieve: &mut Sieve,
    front: &mut Vec<usize>,
    counts: &[usize],
) -> Result<(), ScalarErr>
    requires partners { AllByRecursion (IsPartner asked.now) partners.now }
    requires ready { IsReady asked.now sieve.old }
    requires wide { length front.old.items + length counts.now ≡ width_of asked.now.gathering }
    ensures ready { OnOk result (IsReady asked.now sieve.new) }
    ensures front { OnOk result (front.new.items ≡ front.old.items) }
    ensures found { OnOk result (so_far asked.now sieve.new ≡ asked_of asked.now (so_far asked.now sieve.old) (map (point_of asked.now.gathering) (tuples_behind front.old.items counts.now))) }
    ensures err { IfErr result (λ e. e ≡ ScalarErr.OutOfMemory) }
{
    let Some((count, rest)) = counts.split_first() else {
        return sieve.add(alloc, asked, front);
    };
    let width = front.len();
    let numbers = numbers_behind(partners, front, *count);
    for i in 0..numbers.len() {
        front.push(numbers.at(i))?;
        add_combined(alloc, asked, partners, sieve, front, rest)?;
        front.truncate(width);
    }
    Ok(())
}

// The same, each behind a number of the lead, which nothing asks for. Where a count is 0 there is none, and no step is
// taken.
pub(crate) fn add_all(
    alloc: Global,
    asked: &Asked<'_>,
    partners: &[Partner<'_>],
    sieve: &mut Sieve,
    counts: &[usize],
) -> Result<(), ScalarErr>
    requires partners { AllByRecursion (IsPartner asked.now) partners.now }
    requires ready { IsReady asked.now sieve.old }
    requires wide { length counts.now + 1 ≡ width_of asked.now.gathering }
    ensures ready { OnOk result (IsReady asked.now sieve.new) }
    ensures found { OnOk result (so_far asked.now sieve.new ≡ asked_of asked.now (so_far asked.now sieve.old) (map (point_of asked.now.gathering) (tuples_behind (0 ∷ []) counts.now))) }
    ensures err { IfErr result (λ e. e ≡ ScalarErr.OutOfMemory) }
{
    if counts.contains(&0) {
        return Ok(());
    }
    let mut front = Vec::with_capacity(alloc, counts.len().saturating_add(1))?;
    front.push(0)?;
    add_combined(alloc, asked, partners, sieve, &mut front, counts)
}
