// Numbers and places by item.
ghost use Rattle.std.specs.Prelude.{◌≡◌, ◌+◌, ◌^◌, ◌<◌, ◌-◌, ◌++◌, ◌∷◌, [], if◌then◌else◌, IfOk, OnOk, ℕ, List as Items, cond};
ghost use Rattle.vtl_text.specs.Texts.{same_text};
ghost use Rattle.check_rules.specs.RuleItems.{defines};
ghost use Rattle.vtl_tree.specs.RuleItems.{left_item, right_items};
ghost use Rattle.check_rules.specs.Running.{AreMakers, AreUsers, count_at, is_free_by, makes_of, places_at, places_of, uses_of};

use crate::items::{is_equation, left_item, right_item, right_len};
use std::alloc::{AllocError, Global};
use vtl_syntax::HierRule;
use vtl_text::{ByName, List, Txt};

// Counts an item once more.
fn count(counts: &mut ByName<usize>, item: &Txt) -> Result<(), AllocError>
    requires { count_at item.now counts.old + 1 < 2 ^ 64 }
    ensures { OnOk result ((q : Items ℕ) → count_at q counts.new ≡ (if same_text q item.now then count_at q counts.old + 1 else count_at q counts.old)) }
{
    match counts.get(item).copied() {
        Some(n) => {
            counts.replace(item, n + 1);
            Ok(())
        }
        None => counts.put(item.share()?, 1),
    }
}

/// Counts the item of an `=` rule once more.
pub(crate) fn count_rule(counts: &mut ByName<usize>, rule: &HierRule) -> Result<(), AllocError>
    requires { count_at (left_item rule.now) counts.old + 1 < 2 ^ 64 }
    ensures { OnOk result ((q : Items ℕ) → count_at q counts.new ≡ (if defines q rule.now then count_at q counts.old + 1 else count_at q counts.old)) }
{
    if !is_equation(rule) {
        return Ok(());
    }
    count(counts, left_item(rule))
}

/// Counts an item once less.
pub(crate) fn discount(counts: &mut ByName<usize>, item: &Txt)
    ensures { (q : Items ℕ) → count_at q counts.new ≡ (if same_text q item.now then count_at q counts.old - 1 else count_at q counts.old) }
{
    if let Some(n) = counts.get(item).copied() {
        if 1 <= n {
            counts.replace(item, n - 1);
        }
    }
}

/// Whether no rule that is counted computes an item.
pub(crate) fn is_free(awaited: &ByName<usize>, item: &Txt) -> bool
    ensures { result ≡ is_free_by awaited.now item.now }
{
    match awaited.get(item).copied() {
        Some(n) => n == 0,
        None => true,
    }
}

// Notes a place behind those of an item.
fn note(
    alloc: Global,
    places: &mut ByName<List<usize>>,
    item: &Txt,
    place: usize,
) -> Result<(), AllocError>
    ensures { OnOk result ((q : Items ℕ) → places_at q places.new ≡ places_at q places.old ++ cond (same_text q item.now) (place ∷ []) []) }
{
    match places.replace(item, List::of(Vec::new(alloc))) {
        Some(noted) => {
            let mut noted = noted.into_vec();
            noted.push(place)?;
            places.replace(item, List::of(noted));
            Ok(())
        }
        None => {
            let mut noted = Vec::new(alloc);
            noted.push(place)?;
            places.put(item.share()?, List::of(noted))
        }
    }
}

// Notes the place of a rule at some items.
fn note_right(
    alloc: Global,
    places: &mut ByName<List<usize>>,
    rule: &HierRule,
    place: usize,
) -> Result<(), AllocError>
    ensures { OnOk result ((q : Items ℕ) → places_at q places.new ≡ places_at q places.old ++ places_of place q (right_items rule.now)) }
{
    for k in 0..right_len(rule) {
        note(alloc, places, right_item(rule, k), place)?;
    }
    Ok(())
}

// Notes an `=` rule at each item on its right.
fn note_uses(
    alloc: Global,
    places: &mut ByName<List<usize>>,
    rule: &HierRule,
    place: usize,
) -> Result<(), AllocError>
    ensures { OnOk result ((q : Items ℕ) → places_at q places.new ≡ places_at q places.old ++ uses_of q (place, rule.now)) }
{
    if !is_equation(rule) {
        return Ok(());
    }
    note_right(alloc, places, rule, place)
}

// Notes an `=` rule at the item that it computes.
fn note_maker(
    alloc: Global,
    places: &mut ByName<List<usize>>,
    rule: &HierRule,
    place: usize,
) -> Result<(), AllocError>
    ensures { OnOk result ((q : Items ℕ) → places_at q places.new ≡ places_at q places.old ++ makes_of q (place, rule.now)) }
{
    if !is_equation(rule) {
        return Ok(());
    }
    note(alloc, places, left_item(rule), place)
}

/// The places of the `=` rules that have an item on the right, by the items. It fails only if memory runs out.
pub(crate) fn users(alloc: Global, rules: &[HierRule]) -> Result<ByName<List<usize>>, AllocError>
    ensures { IfOk result (AreUsers rules.now) }
{
    let mut users = ByName::new(alloc);
    for place in 0..rules.len() {
        note_uses(alloc, &mut users, &rules[place], place)?;
    }
    Ok(users)
}

/// The places of the `=` rules that compute an item, by the items. It fails only if memory runs out.
pub(crate) fn makers(alloc: Global, rules: &[HierRule]) -> Result<ByName<List<usize>>, AllocError>
    ensures { IfOk result (AreMakers rules.now) }
{
    let mut makers = ByName::new(alloc);
    for place in 0..rules.len() {
        note_maker(alloc, &mut makers, &rules[place], place)?;
    }
    Ok(makers)
}
