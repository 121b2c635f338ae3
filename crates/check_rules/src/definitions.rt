// What the definitions of rulesets have to be by themselves.
ghost use Rattle.std.specs.List.{list_all};
ghost use Rattle.std.specs.Prelude.{◌≡◌, ◌+◌, ◌++◌, ◌∷◌, [], IfOk, OnOk, length, map};
ghost use Rattle.vtl_lists.specs.Apart.{all_apart};
ghost use Rattle.vtl_syntax.specs.View.{point_rule_tree};
ghost use Rattle.vtl_tree.specs.Structure.{same_name};
ghost use Rattle.check_faults.specs.Answers.{Answers};
ghost use Rattle.vtl_tree.specs.Names.{name_of};
ghost use Rattle.check_rules.specs.Definitions.{are_told_apart, datapoint_defined, hier_rule_defined, hier_rules_defined, hierarchical_defined, level_fits, point_rule_error, point_rule_name};
ghost use Rattle.vtl_tree.specs.Checks.{rule_id};
ghost use Rattle.vtl_tree.specs.RuleItems.{items_of};

use crate::items::items;
use crate::names::names_of;
use check_faults::{Rule, TypeErr, broken};
use std::alloc::{AllocError, Global};
use vtl_cell::integer_written;
use vtl_decimal::Profile;
use vtl_syntax::{Comp, ErrorPart, HierRule, PointRule};
use vtl_text::{Txt, are_distinct};

fn level_fits(profile: &Profile, error: &ErrorPart) -> bool
    ensures { result ≡ level_fits profile.now error.now }
{
    match &error.level {
        Some(digits) => integer_written(profile, digits).is_some(),
        None => true,
    }
}

fn levels_fit(profile: &Profile, rules: &[PointRule]) -> bool
    ensures { result ≡ list_all (λ r. level_fits profile.now (point_rule_error r)) (map point_rule_tree rules.now) }
{
    for rule in rules {
        if !level_fits(profile, &rule.error) {
            return false;
        }
    }
    true
}

fn names_differ(alloc: Global, components: &[Comp]) -> Result<bool, AllocError>
    ensures { IfOk result (λ b. b ≡ all_apart same_name (map name_of components.now)) }
{
    let names = names_of(alloc, components)?;
    are_distinct(alloc, &names)
}

fn items_differ(alloc: Global, rule: &HierRule) -> Result<bool, AllocError>
    ensures { IfOk result (λ b. b ≡ all_apart same_name (items_of rule.now)) }
{
    let items = items(alloc, rule)?;
    are_distinct(alloc, &items)
}

// The digits of a number.
fn digits(alloc: Global, number: usize) -> Result<Txt, AllocError>
    ensures { IfOk result (λ t. t ≡ rule_id number None) }
{
    let digits = format!(in alloc; "{}", number)?;
    Txt::new(alloc, &digits)
}

fn identifier(alloc: Global, number: usize, name: &Option<Txt>) -> Result<Txt, AllocError>
    ensures { IfOk result (λ t. t ≡ rule_id number name.now) }
{
    match name {
        Some(name) => name.share(),
        None => digits(alloc, number),
    }
}

// Puts the identifier of one more rule behind those of the rules before it.
fn push_identifier(
    alloc: Global,
    identifiers: &mut Vec<Txt>,
    name: &Option<Txt>,
) -> Result<(), AllocError>
    ensures { OnOk result (identifiers.new.items ≡ identifiers.old.items ++ rule_id (length identifiers.old.items + 1) name.now ∷ []) }
{
    let number = identifiers.len() + 1;
    identifiers.push(identifier(alloc, number, name)?)?;
    Ok(())
}

fn point_rules_differ(alloc: Global, rules: &[PointRule]) -> Result<bool, AllocError>
    ensures { IfOk result (λ b. b ≡ are_told_apart (map point_rule_name (map point_rule_tree rules.now))) }
{
    let mut identifiers = Vec::new(alloc);
    for rule in rules {
        push_identifier(alloc, &mut identifiers, &rule.name)?;
    }
    are_distinct(alloc, &identifiers)
}

fn hier_rules_differ(alloc: Global, rules: &[HierRule]) -> Result<bool, AllocError>
    ensures { IfOk result (λ b. b ≡ are_told_apart (map (λ r. r.name) rules.now)) }
{
    let mut identifiers = Vec::new(alloc);
    for rule in rules {
        push_identifier(alloc, &mut identifiers, &rule.name)?;
    }
    are_distinct(alloc, &identifiers)
}

/// What a datapoint ruleset has to be where it is defined: it breaks `RepeatedName` where a variable occurs twice,
/// `WrongLiteral` where the level of an error is out of range, and `RepeatedRule` where two rules have one identifier.
pub fn datapoint_defined(
    alloc: Global,
    profile: &Profile,
    variables: &[Comp],
    rules: &[PointRule],
) -> Result<(), TypeErr>
    ensures { Answers (λ done. done) result (datapoint_defined profile.now variables.now (map point_rule_tree rules.now)) }
{
    let are_variables = names_differ(alloc, variables)?;
    broken(Rule::RepeatedName, !are_variables)?;
    broken(Rule::WrongLiteral, !levels_fit(profile, rules))?;
    let are_told_apart = point_rules_differ(alloc, rules)?;
    broken(Rule::RepeatedRule, !are_told_apart)
}

fn hier_rule_defined(alloc: Global, profile: &Profile, rule: &HierRule) -> Result<(), TypeErr>
    ensures { Answers (λ done. done) result (hier_rule_defined profile.now rule.now) }
{
    broken(Rule::WrongLiteral, !level_fits(profile, &rule.error))?;
    let are_items = items_differ(alloc, rule)?;
    broken(Rule::RepeatedRule, !are_items)
}

fn hier_rules_defined(alloc: Global, profile: &Profile, rules: &[HierRule]) -> Result<(), TypeErr>
    ensures { Answers (λ done. done) result (hier_rules_defined profile.now rules.now) }
{
    for rule in rules {
        hier_rule_defined(alloc, profile, rule)?;
    }
    Ok(())
}

/// What a hierarchical ruleset has to be where it is defined: rule after rule, it breaks `WrongLiteral` where the level
/// of an error is out of range, and `RepeatedRule` where an item occurs twice; and at its end `RepeatedRule` where two
/// rules have one identifier.
pub fn hierarchical_defined(
    alloc: Global,
    profile: &Profile,
    rules: &[HierRule],
) -> Result<(), TypeErr>
    ensures { Answers (λ done. done) result (hierarchical_defined profile.now rules.now) }
{
    hier_rules_defined(alloc, profile, rules)?;
    let are_told_apart = hier_rules_differ(alloc, rules)?;
    broken(Rule::RepeatedRule, !are_told_apart)
}
