// The order in which the `=` rules of a hierarchical ruleset are computed.
ghost use Rattle.std.specs.Option.{option_map};
ghost use Rattle.std.specs.Prelude.{◌≡◌, ◌++◌, ◌∷◌, [], IfOk, OnOk};
ghost use Rattle.vtl_lists.specs.Apart.{all_apart};
ghost use Rattle.vtl_tree.specs.Structure.{same_name};
ghost use Rattle.check_faults.specs.Answers.{Answers};
ghost use Rattle.check_rules.specs.Order.{Orders, computed_items, hierarchy_order, order_of};

use crate::cycle::cycle;
use crate::items::{is_equation, left_item};
use crate::places::users;
use crate::run::{Run, equations};
use check_faults::{Rule, TypeErr, broken};
use std::alloc::{AllocError, Global};
use vtl_syntax::HierRule;
use vtl_text::{List, Txt, are_distinct};
use vtl_tree::HierRules;

/// Why rules have no order.
#[derive(Debug, Drop)]
pub enum OrderErr {
    /// These items depend on themselves: in written order, without those that only depend on them.
    Cycle(List<Txt>),
    /// There was not enough memory.
    OutOfMemory,
}

impl From<AllocError> for OrderErr {
    ghost use Rattle.std.specs.Prelude.{◌≡◌};
    ghost use Rattle.check_rules.specs.declared.ordering.OrderErr.TheVariants.{OutOfMemory};

    ghost from_gives = { λ _ e. e ≡ OutOfMemory };

    fn from(_: AllocError) -> OrderErr {
        OrderErr::OutOfMemory
    }
}

// The order, or none where rules wait for one another.
fn placed(alloc: Global, rules: &[HierRule]) -> Result<Option<Vec<usize>>, AllocError>
    ensures { IfOk result (λ o. option_map (λ v. v.items) o ≡ order_of rules.now) }
{
    let equations = equations(alloc, rules)?;
    let users = users(alloc, rules)?;
    let mut run = Run::started(alloc, rules, &equations)?;
    for done in 0..equations.len() {
        let taken = run.step(rules, &users)?;
        if !taken {
            return Ok(None);
        }
    }
    Ok(Some(run.into_order()))
}

/// The places of the `=` rules in the order in which they are computed: again and again the first of those that are
/// left, in written order, whose items on the right no rule that is left computes. Where a rule cannot be placed so,
/// the answer tells the items that depend on themselves. It takes about linear time where there is an order, and a
/// look at all rules for each of them where there is none.
pub fn order(alloc: Global, rules: &HierRules) -> Result<Vec<usize>, OrderErr>
    ensures { Orders rules.now.rules result }
{
    let rules = rules.rules.as_slice();
    match placed(alloc, rules)? {
        Some(order) => Ok(order),
        None => Err(OrderErr::Cycle(List::of(cycle(alloc, rules)?))),
    }
}

// Puts the item of an `=` rule behind others.
fn push_computed(items: &mut Vec<Txt>, rule: &HierRule) -> Result<(), AllocError>
    ensures { OnOk result (items.new.items ≡ items.old.items ++ computed_items (rule.now ∷ [])) }
{
    if !is_equation(rule) {
        return Ok(());
    }
    items.push(left_item(rule).share()?)?;
    Ok(())
}

// Whether no two `=` rules compute one item.
fn computed_differ(alloc: Global, rules: &[HierRule]) -> Result<bool, AllocError>
    ensures { IfOk result (λ b. b ≡ all_apart same_name (computed_items rules.now)) }
{
    let mut items = Vec::new(alloc);
    for place in 0..rules.len() {
        push_computed(&mut items, &rules[place])?;
    }
    are_distinct(alloc, &items)
}

/// The order of the rules of a `hierarchy` call. It breaks `CircularHierarchy` where two `=` rules compute one item,
/// and where an item depends on itself.
pub fn hierarchy_order(alloc: Global, rules: &[HierRule]) -> Result<List<usize>, TypeErr>
    ensures { Answers (λ order. order) result (hierarchy_order rules.now) }
{
    let are_apart = computed_differ(alloc, rules)?;
    broken(Rule::CircularHierarchy, !are_apart)?;
    match placed(alloc, rules)? {
        Some(order) => Ok(List::of(order)),
        None => Err(TypeErr::Broken(Rule::CircularHierarchy)),
    }
}
