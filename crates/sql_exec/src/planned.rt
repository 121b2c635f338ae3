// What a plan lists, for each select of its query.
//
// A plan lists entries in any order, so each is put to its select once: a query then takes no time with the product of
// its selects and of what is listed.
ghost use Rattle.std.specs.Prelude.{◌≡◌, ◌<◌, length, map, IfOk};
ghost use Rattle.sql_meaning.specs.Plans.{early_in, indexed_in};
ghost use Rattle.sql_from.specs.PlacedLists.{AreLists};

use sql_from::{no_lists, put_at};
use sql_meaning::{Early, Plan};
use std::alloc::{AllocError, Global};

/// The joins that go by an index and the parts of WHERE that are tried early, for each select.
pub(crate) struct PlannedSelects {
    pub(crate) joins: Vec<Vec<usize>>,
    pub(crate) early: Vec<Vec<Early>>,
}

// Written out, so that a proof sees one call and not the drop of each part.
impl Drop for PlannedSelects {
    fn drop(self) {
        let PlannedSelects {
            joins: _joins,
            early: _early,
        } = self;
    }
}

// The joins that go by an index, for each select.
fn indexed_joins(alloc: Global, plan: &Plan, count: usize) -> Result<Vec<Vec<usize>>, AllocError>
    ensures many { IfOk result (λ v. length v.items ≡ count) }
    ensures lists { IfOk result (λ v. AreLists (λ n. map (λ i. i.join) (indexed_in plan.now.ways n)) count v.items) }
{
    let indexed = plan.indexed();
    let mut joins = no_lists(alloc, count)?;
    for entry in indexed {
        put_at(&mut joins, entry.select, entry.join)?;
    }
    Ok(joins)
}

// The parts of WHERE that are tried early, for each select.
fn early_parts(alloc: Global, plan: &Plan, count: usize) -> Result<Vec<Vec<Early>>, AllocError>
    ensures many { IfOk result (λ v. length v.items ≡ count) }
    ensures lists { IfOk result (λ v. AreLists (early_in plan.now.ways) count v.items) }
{
    let early = plan.early();
    let mut parts = no_lists(alloc, count)?;
    for entry in early {
        put_at(&mut parts, entry.select, *entry)?;
    }
    Ok(parts)
}

impl PlannedSelects {
    /// What a plan lists for each of so many selects. It fails only if memory runs out.
    pub(crate) fn of(alloc: Global, plan: &Plan, count: usize) -> Result<PlannedSelects, AllocError>
        ensures many { IfOk result (λ x. (length x.joins.items ≡ count) × (length x.early.items ≡ count)) }
        ensures joins { IfOk result (λ x. AreLists (λ n. map (λ i. i.join) (indexed_in plan.now.ways n)) count x.joins.items) }
        ensures early { IfOk result (λ x. AreLists (early_in plan.now.ways) count x.early.items) }
    {
        Ok(PlannedSelects {
            joins: indexed_joins(alloc, plan, count)?,
            early: early_parts(alloc, plan, count)?,
        })
    }
}
