// Steps that are counted in one go.
//
// Pairs are counted in one go, behind a join by a look-up as many as it gives, before any other join as many as it
// tries: a loop that only counts costs nothing, and a loop that joins knows no steps.
ghost use Rattle.std.specs.Prelude.{◌≡◌, ◌+◌, ◌*◌};

use std::sync::ledger::Ledger;
use vtl_index::Steps;

/// Counts so many steps.
pub(crate) fn count_each<L: Ledger>(count: usize, steps: &mut Steps<L>)
    ensures { steps.new ≡ steps.old + count }
{
    for _ in 0..count {
        steps.tick();
    }
}

/// Counts a step for each pair of one of so many rows and one of so many others.
pub(crate) fn count_pairs<L: Ledger>(rows: usize, others: usize, steps: &mut Steps<L>)
    ensures { steps.new ≡ steps.old + rows * others }
{
    for _ in 0..rows {
        count_each(others, steps);
    }
}
