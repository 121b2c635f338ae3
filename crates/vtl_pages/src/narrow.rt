//! Pages of fewer items a run.
ghost use Rattle.std.specs.Prelude.{◌≡◌, ℕ, ◌*◌, ◌%◌, ◌<◌, ◌≤◌, [], length, take, drop, All, IfOk, OnOk};
ghost use Rattle.std.specs.List.{flat_map};
ghost use Rattle.vtl_pages.specs.Chosen.{AreRising, items_at, runs};

use crate::leaving::Leaving;
use crate::pages::Pages;
use std::alloc::{AllocError, Global};

impl<T: Drop> Pages<T> {
    /// The items at rising places of each run, in pages whose width is the number of the places. The other items are
    /// dropped, none is copied, and each block is given back as its last item leaves it: so both pages together take
    /// little more memory than these.
    ///
    /// It fails only if memory runs out. All items are dropped then.
    pub fn narrowed(self, alloc: Global, places: &[usize]) -> Result<Pages<T>, AllocError>
        requires some { 0 < length places.now }
        requires rising { AreRising places.now }
        requires within { All (λ i. i < self.width) places.now }
        requires whole { length self.items % self.width ≡ 0 }
        ensures items { IfOk result (λ p. (d : T) (n : ℕ) → length self.items ≡ n * self.width → p.items ≡ flat_map (items_at d places.now) (runs self.width n self.items)) }
        ensures width { IfOk result (λ p. p.width ≡ length places.now) }
    {
        let width = self.width();
        let count = self.len() / width;
        let mut run = Vec::with_capacity(alloc, places.len())?;
        let mut narrow = Pages::new(alloc, places.len());
        let mut items = self.into_leaving();
        for _run in 0..count {
            narrow.reserve(places.len())?;
            keep(&mut items, width, places, &mut run)?;
            narrow.push_run(&mut run);
        }
        Ok(narrow)
    }
}

// Moves the items at rising places of a run behind others, and drops the other items of the run.
fn keep<T: Drop>(
    items: &mut Leaving<T>,
    width: usize,
    places: &[usize],
    kept: &mut Vec<T>,
) -> Result<(), AllocError>
    requires run { width ≤ length items.old }
    requires rising { AreRising places.now }
    requires within { All (λ i. i < width) places.now }
    requires none { kept.old.items ≡ [] }
    ensures items { OnOk result (items.new ≡ drop width items.old) }
    ensures count { OnOk result (length kept.new.items ≡ length places.now) }
    ensures kept { OnOk result ((d : T) → kept.new.items ≡ items_at d places.now (take width items.old)) }
{
    let mut next = 0;
    for place in 0..width {
        let item = items.next();
        if next < places.len() && places[next] == place {
            kept.push(item)?;
            next += 1;
        }
    }
    Ok(())
}
