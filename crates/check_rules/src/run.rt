// Rules that are put in their order, one after the other.
ghost use Rattle.std.specs.List.{enumerate_from, list_all};
ghost use Rattle.std.specs.Prelude.{◌≡◌, ◌<◌, ◌≤◌, ◌++◌, ◌∷◌, [], IfOk, OnOk, ℕ, List as Items, cond, false, length, map, take, true};
ghost use Rattle.check_rules.specs.Order.{is_left, left_behind};
ghost use Rattle.vtl_tree.specs.RuleItems.{right_items};
ghost use Rattle.check_rules.specs.Running.{AreUsers, Finishes, IsStep, Runs, count_at, is_free_by, times_computed};

use crate::items::{is_equation, left_item, right_item, right_len};
use crate::places::{count_rule, discount, is_free};
use std::alloc::{AllocError, Global};
use std::collections::BTreeSet;
use vtl_syntax::HierRule;
use vtl_text::{ByName, List, Txt};

/// Rules on the way to their order.
#[derive(Drop)]
pub(crate) struct Run {
    /// How many rules that are left compute an item.
    pub(crate) awaited: ByName<usize>,
    /// How many items on the right of each rule, from the left, are not awaited.
    pub(crate) free: Vec<usize>,
    /// The places of the rules that are ready.
    pub(crate) ready: BTreeSet<usize>,
    /// The places of the rules that are done, in order.
    pub(crate) order: Vec<usize>,
}

// How many items on the right, from the left, are not awaited, where so many are known not to be.
fn free_from(awaited: &ByName<usize>, rule: &HierRule, known: usize) -> usize
    ensures within { result ≤ length (right_items rule.now) }
    ensures free { list_all (is_free_by awaited.now) (take known (right_items rule.now)) ≡ true → list_all (is_free_by awaited.now) (take result (right_items rule.now)) ≡ true }
    ensures awaited { result < length (right_items rule.now) → list_all (is_free_by awaited.now) (right_items rule.now) ≡ false }
{
    for k in known..right_len(rule) {
        if !is_free(awaited, right_item(rule, k)) {
            return k;
        }
    }
    right_len(rule)
}

// How many `=` rules compute each item.
fn all_awaited(alloc: Global, rules: &[HierRule]) -> Result<ByName<usize>, AllocError>
    ensures { IfOk result (λ awaited. (q : Items ℕ) → count_at q awaited ≡ times_computed [] q (enumerate_from 0 rules.now)) }
{
    let mut awaited = ByName::new(alloc);
    for place in 0..rules.len() {
        count_rule(&mut awaited, &rules[place])?;
    }
    Ok(awaited)
}

fn push_equation(places: &mut Vec<usize>, rule: &HierRule, place: usize) -> Result<(), AllocError>
    ensures { OnOk result (places.new.items ≡ places.old.items ++ cond (is_left [] (place, rule.now)) (place ∷ []) []) }
{
    if !is_equation(rule) {
        return Ok(());
    }
    places.push(place)?;
    Ok(())
}

/// The places of the `=` rules. It fails only if memory runs out.
pub(crate) fn equations(alloc: Global, rules: &[HierRule]) -> Result<Vec<usize>, AllocError>
    ensures { IfOk result (λ v. v.items ≡ map (λ x. x.0) (left_behind rules.now [])) }
{
    let mut places = Vec::new(alloc);
    for place in 0..rules.len() {
        push_equation(&mut places, &rules[place], place)?;
    }
    Ok(places)
}

impl Run {
    /// No rule is done, and none is known to be ready. It fails only if memory runs out.
    fn new(alloc: Global, rules: &[HierRule]) -> Result<Run, AllocError>
        ensures running { IfOk result (Runs rules.now (map (λ x. x.0) (left_behind rules.now []))) }
        ensures order { IfOk result (λ run. run.order.items ≡ []) }
    {
        let awaited = all_awaited(alloc, rules)?;
        let free = vec![in alloc; 0; rules.len()]?;
        let ready = BTreeSet::new(alloc);
        let order = Vec::new(alloc);
        Ok(Run {
            awaited,
            free,
            ready,
            order,
        })
    }

    // Looks whether a rule is ready.
    fn settle(&mut self, rules: &[HierRule], place: usize) -> Result<(), AllocError>
        requires within { place < length rules.now }
        requires many { length self.old.free.items ≡ length rules.now }
        ensures running { OnOk result ((pending : Items ℕ) → Runs rules.now (place ∷ pending) self.old → Runs rules.now pending self.new) }
        ensures order { OnOk result (self.new.order.items ≡ self.old.order.items) }
    {
        let rule = &rules[place];
        let free = free_from(&self.awaited, rule, self.free[place]);
        self.free[place] = free;
        if free < right_len(rule) {
            return Ok(());
        }
        self.ready.insert(place)?;
        Ok(())
    }

    /// Looks which of some rules are ready. It fails only if memory runs out.
    fn settle_all(&mut self, rules: &[HierRule], places: &[usize]) -> Result<(), AllocError>
        requires { Runs rules.now places.now self.old }
        ensures running { OnOk result (Runs rules.now [] self.new) }
        ensures order { OnOk result (self.new.order.items ≡ self.old.order.items) }
    {
        for i in 0..places.len() {
            self.settle(rules, places[i])?;
        }
        Ok(())
    }

    /// The rules that await nothing are ready, and none is done. It fails only if memory runs out.
    pub(crate) fn started(
        alloc: Global,
        rules: &[HierRule],
        equations: &[usize],
    ) -> Result<Run, AllocError>
        requires { equations.now ≡ map (λ x. x.0) (left_behind rules.now []) }
        ensures running { IfOk result (Runs rules.now []) }
        ensures order { IfOk result (λ run. run.order.items ≡ []) }
    {
        let mut run = Run::new(alloc, rules)?;
        run.settle_all(rules, equations)?;
        Ok(run)
    }

    // A rule is done: nothing of it is awaited any more, and rules that use its item may be ready.
    fn finish(
        &mut self,
        rules: &[HierRule],
        users: &ByName<List<usize>>,
        place: usize,
    ) -> Result<(), AllocError>
        requires within { place < length rules.now }
        requires users { AreUsers rules.now users.now }
        requires ready { Finishes rules.now place self.old }
        ensures running { OnOk result (Runs rules.now [] self.new) }
        ensures order { OnOk result (self.new.order.items ≡ self.old.order.items ++ place ∷ []) }
    {
        let item = left_item(&rules[place]);
        self.order.push(place)?;
        discount(&mut self.awaited, item);
        if !is_free(&self.awaited, item) {
            return Ok(());
        }
        match users.get(item) {
            Some(places) => self.settle_all(rules, places.as_slice()),
            None => Ok(()),
        }
    }

    /// Takes the next rule as done, and tells whether there is one. It fails only if memory runs out.
    pub(crate) fn step(
        &mut self,
        rules: &[HierRule],
        users: &ByName<List<usize>>,
    ) -> Result<bool, AllocError>
        requires running { Runs rules.now [] self.old }
        requires users { AreUsers rules.now users.now }
        ensures running { OnOk result (Runs rules.now [] self.new) }
        ensures step { IfOk result (λ taken. IsStep rules.now self.old.order.items taken self.new.order.items) }
    {
        match self.ready.pop_first() {
            Some(place) => {
                self.finish(rules, users, place)?;
                Ok(true)
            }
            None => Ok(false),
        }
    }

    /// The places of the rules that are done, in order.
    pub(crate) fn into_order(self) -> Vec<usize>
        ensures { result.items ≡ self.order.items }
    {
        let Run {
            awaited: _awaited,
            free: _free,
            ready: _ready,
            order,
        } = self;
        order
    }
}
