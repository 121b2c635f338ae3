// Rules are copied: their texts are shared.
ghost use Rattle.std.specs.Prelude.{◌≡◌, IfOk};

use check_values::share_text;
use std::alloc::{AllocError, Global};
use vtl_syntax::{Comp, ErrorPart, HierRule, SignedComp};
use vtl_text::{List, Txt};

fn share_comp(component: &Comp) -> Result<Comp, AllocError>
    ensures { IfOk result (λ copy. copy ≡ component.now) }
{
    match component {
        Comp::Name(name) => Ok(Comp::Name(name.share()?)),
        Comp::Quoted(name) => Ok(Comp::Quoted(name.share()?)),
    }
}

fn share_error(error: &ErrorPart) -> Result<ErrorPart, AllocError>
    ensures { IfOk result (λ copy. copy ≡ error.now) }
{
    Ok(ErrorPart {
        code: share_text(&error.code)?,
        level: share_text(&error.level)?,
    })
}

fn share_signed(item: &SignedComp) -> Result<SignedComp, AllocError>
    ensures { IfOk result (λ copy. copy ≡ item.now) }
{
    Ok(SignedComp {
        sign: item.sign,
        item: share_comp(&item.item)?,
    })
}

fn share_others(alloc: Global, others: &[SignedComp]) -> Result<List<SignedComp>, AllocError>
    ensures { IfOk result (λ copy. copy ≡ others.now) }
{
    let mut copies = Vec::new(alloc);
    for other in others {
        copies.push(share_signed(other)?)?;
    }
    Ok(List::of(copies))
}

fn share_rule(alloc: Global, rule: &HierRule) -> Result<HierRule, AllocError>
    ensures { IfOk result (λ copy. copy ≡ rule.now) }
{
    Ok(HierRule {
        name: share_text(&rule.name)?,
        item: share_comp(&rule.item)?,
        comparison: rule.comparison,
        sign: rule.sign,
        first: share_comp(&rule.first)?,
        others: share_others(alloc, rule.others.as_slice())?,
        error: share_error(&rule.error)?,
    })
}

/// Equal rules, whose texts are shared. It fails only if memory runs out.
pub fn share_rules(alloc: Global, rules: &[HierRule]) -> Result<List<HierRule>, AllocError>
    ensures { IfOk result (λ copy. copy ≡ rules.now) }
{
    let mut copies = Vec::new(alloc);
    for rule in rules {
        copies.push(share_rule(alloc, rule)?)?;
    }
    Ok(List::of(copies))
}
