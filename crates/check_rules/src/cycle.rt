// Items that depend on themselves.
ghost use Rattle.std.specs.Map.{keys_of};
ghost use Rattle.std.specs.Prelude.{◌≡◌, IfOk, OnOk, true};
ghost use Rattle.vtl_tree.specs.Structure.{same_name};
ghost use Rattle.check_rules.specs.Found.{Adds, AreWithin, Finds, IsOnRight, IsOnRightAt, TellsDependence};
ghost use Rattle.check_rules.specs.Order.{IsCycle, IsMadeOf};
ghost use Rattle.check_rules.specs.Running.{AreMakers};

use crate::items::{is_equation, left_item, right_item, right_len};
use crate::places::makers;
use std::alloc::{AllocError, Global};
use vtl_syntax::HierRule;
use vtl_text::{ByName, List, Txt};

// Finds an item, where it is not found yet.
fn find(found: &mut ByName<()>, part: &Txt) -> Result<(), AllocError>
    ensures { OnOk result (Finds (λ name. same_name name part.now ≡ true) (keys_of found.old) (keys_of found.new)) }
{
    if found.has(part) {
        return Ok(());
    }
    found.put(part.share()?, ())
}

// Finds the items on the right of a rule.
fn find_right(found: &mut ByName<()>, rule: &HierRule) -> Result<(), AllocError>
    ensures { OnOk result (Finds (IsOnRight rule.now) (keys_of found.old) (keys_of found.new)) }
{
    for k in 0..right_len(rule) {
        find(found, right_item(rule, k))?;
    }
    Ok(())
}

// Finds the items on the right of the rules at some places.
fn find_right_at(
    found: &mut ByName<()>,
    rules: &[HierRule],
    places: &[usize],
) -> Result<(), AllocError>
    requires { AreWithin rules.now places.now }
    ensures { OnOk result (Finds (IsOnRightAt rules.now places.now) (keys_of found.old) (keys_of found.new)) }
{
    for i in 0..places.len() {
        find_right(found, &rules[places[i]])?;
    }
    Ok(())
}

// Finds the items of which an item is made.
fn find_parts(
    found: &mut ByName<()>,
    rules: &[HierRule],
    makers: &ByName<List<usize>>,
    item: &Txt,
) -> Result<(), AllocError>
    requires { AreMakers rules.now makers.now }
    ensures { OnOk result (Finds (IsMadeOf rules.now item.now) (keys_of found.old) (keys_of found.new)) }
{
    match makers.get(item) {
        Some(places) => find_right_at(found, rules, places.as_slice()),
        None => Ok(()),
    }
}

// Whether an item depends on itself: all that it depends on is found, and it is among them or not.
fn depends_on_itself(
    alloc: Global,
    rules: &[HierRule],
    makers: &ByName<List<usize>>,
    item: &Txt,
) -> Result<bool, AllocError>
    requires { AreMakers rules.now makers.now }
    ensures { IfOk result (TellsDependence rules.now item.now) }
{
    let mut found = ByName::new(alloc);
    find_parts(&mut found, rules, makers, item)?;
    let mut at = 0;
    while at < found.len() {
        let (part, _) = found.at(at);
        let part = part.share()?;
        find_parts(&mut found, rules, makers, &part)?;
        at += 1;
    }
    Ok(found.has(item))
}

// Puts the item of a rule behind others, where the rule computes it and it depends on itself.
fn push_circular(
    alloc: Global,
    items: &mut Vec<Txt>,
    rules: &[HierRule],
    makers: &ByName<List<usize>>,
    rule: &HierRule,
) -> Result<(), AllocError>
    requires { AreMakers rules.now makers.now }
    ensures { OnOk result (Adds rules.now rule.now items.old.items items.new.items) }
{
    if !is_equation(rule) {
        return Ok(());
    }
    let item = left_item(rule);
    let is_circular = depends_on_itself(alloc, rules, makers, item)?;
    if !is_circular {
        return Ok(());
    }
    items.push(item.share()?)?;
    Ok(())
}

/// The computed items that depend on themselves, in written order. It fails only if memory runs out.
pub(crate) fn cycle(alloc: Global, rules: &[HierRule]) -> Result<Vec<Txt>, AllocError>
    ensures { IfOk result (λ v. IsCycle rules.now v.items) }
{
    let makers = makers(alloc, rules)?;
    let mut items = Vec::new(alloc);
    for place in 0..rules.len() {
        push_circular(alloc, &mut items, rules, &makers, &rules[place])?;
    }
    Ok(items)
}
