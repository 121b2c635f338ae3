// The items of hierarchical rules.
ghost use Rattle.std.specs.Prelude.{◌≡◌, ◌+◌, ◌<◌, IfOk, Some, length, slice_get};
ghost use Rattle.vtl_tree.specs.RuleItems.{is_equation, items_of, left_item, right_items};

use check_values::name;
use std::alloc::{AllocError, Global};
use vtl_syntax::{Comparison, HierRule};
use vtl_text::Txt;

/// The item that a rule is about.
pub(crate) fn left_item(rule: &HierRule) -> &Txt
    ensures { result.now ≡ left_item rule.now }
{
    name(&rule.item)
}

/// How many items stand on the right.
pub(crate) fn right_len(rule: &HierRule) -> usize
    ensures { result ≡ length (right_items rule.now) }
{
    rule.others.as_slice().len() + 1
}

/// An item on the right.
pub(crate) fn right_item(rule: &HierRule, k: usize) -> &Txt
    requires { k < length (right_items rule.now) }
    ensures { slice_get (right_items rule.now) k ≡ Some result.now }
{
    if k == 0 {
        name(&rule.first)
    } else {
        name(&rule.others.as_slice()[k - 1].item)
    }
}

/// Whether the rule computes its item, and not only compares it.
pub(crate) fn is_equation(rule: &HierRule) -> bool
    ensures { result ≡ is_equation rule.now }
{
    match rule.comparison {
        Comparison::Equal => true,
        _ => false,
    }
}

/// All items of a rule, the one on the left first. It fails only if memory runs out.
pub(crate) fn items(alloc: Global, rule: &HierRule) -> Result<Vec<Txt>, AllocError>
    ensures { IfOk result (λ v. v.items ≡ items_of rule.now) }
{
    let mut items = Vec::new(alloc);
    items.push(left_item(rule).share()?)?;
    items.push(name(&rule.first).share()?)?;
    let others = rule.others.as_slice();
    for other in others {
        items.push(name(&other.item).share()?)?;
    }
    Ok(items)
}
