// Operators on several data sets.
ghost use Rattle.std.specs.List.{list_all, list_any};
ghost use Rattle.std.specs.Option.{option_copied, option_to_list};
ghost use Rattle.std.specs.Prelude.{◌≡◌, ◌++◌, [], IfOk, OnOk, filter};
ghost use Rattle.vtl_tree.specs.Shown.{shown};
ghost use Rattle.check_faults.specs.Answers.{Answers};
ghost use Rattle.vtl_tree.specs.Choices.{is_identifier as is_id};
ghost use Rattle.vtl_tree.specs.Measures.{measures};
ghost use Rattle.vtl_tree.specs.Pairs.{check_measures, contains, is_common};
ghost use Rattle.check_shapes.specs.Pairs.{are_choices, check_form, exists_form, has_one_number, identified, if_form, is_at_odds, pair_form, set_form};

use crate::checks::{bool_var, errorcode, errorlevel, imbalance};
use crate::measures::{any_unmet, is_miscounted, push_given};
use crate::{Operator, shaped};
use check_faults::{Rule, TypeErr, broken};
use std::alloc::{AllocError, Global};
use vtl_cell::Kind;
use vtl_tree::{
    Compared, Component, Outcome, Role, Structure, agree, all_agree, all_meet, contains,
    count_measures, has_one_measure, is_identifier, is_there, push_identifiers, push_measures,
    push_pair_identifiers,
};

/// An operator on the measures of two data sets. It breaks `WrongKind` where a measure and its namesake do not meet the
/// operator's row, `IdentifiersDisagree` where neither operand's identifiers contain the other's, and
/// `MeasuresDisagree` where the names of the measures differ or their number is not the one that the operator asks for.
pub fn pair<F: Operator>(
    alloc: Global,
    outcome: Outcome,
    operator: &F,
    left: &Structure,
    right: &Structure,
) -> Result<Structure, TypeErr>
    ensures { Answers (λ s. s) result (pair_form outcome (F.gives operator.now) left.now right.now) }
{
    let ours = left.components.as_slice();
    let theirs = right.components.as_slice();
    broken(Rule::WrongKind, any_unmet(operator, Some(theirs), ours))?;
    broken(
        Rule::IdentifiersDisagree,
        !(contains(left, right) || contains(right, left)),
    )?;
    let is_named_alike = agree(Compared::Names, Role::Measure, ours, theirs);
    broken(
        Rule::MeasuresDisagree,
        !is_named_alike || is_miscounted(outcome, count_measures(ours)),
    )?;
    let mut out = Vec::new(alloc);
    push_pair_identifiers(&mut out, left, right)?;
    push_given(alloc, &mut out, outcome, operator, Some(theirs), ours)?;
    shaped(alloc, out)
}

// The identifiers of the first operand and its measures.
fn with_measures(
    alloc: Global,
    identifiers: &Structure,
    others: &[&Structure],
    measured: &Structure,
) -> Result<Structure, TypeErr>
    ensures { Answers (λ s. s) result (identified (shown others.now) identifiers.now (measures measured.now.components)) }
{
    let mut out = Vec::new(alloc);
    push_identifiers(&mut out, others, identifiers.components.as_slice())?;
    push_measures(&mut out, measured.components.as_slice())?;
    shaped(alloc, out)
}

fn are_choices(condition: &Structure, then: &Structure, other: &Structure) -> bool
    ensures { result ≡ are_choices condition.now then.now other.now }
{
    let chosen = then.components.as_slice();
    count_measures(condition.components.as_slice()) == 1
        && count_measures(chosen) != 0
        && agree(
            Compared::Kinds,
            Role::Measure,
            chosen,
            other.components.as_slice(),
        )
}

/// `if` on data sets. It breaks `WrongKind` where the measure of the condition is not boolean, `IdentifiersDisagree`
/// where the identifiers are not those of the condition, and `MeasuresDisagree` where the condition does not have
/// exactly one measure, or the choices have none or not the same ones.
pub fn choose_by(
    alloc: Global,
    condition: &Structure,
    then: &Structure,
    other: &Structure,
) -> Result<Structure, TypeErr>
    ensures { Answers (λ s. s) result (if_form condition.now then.now other.now) }
{
    let conditions = condition.components.as_slice();
    broken(Rule::WrongKind, !all_meet(Kind::Bool, conditions))?;
    broken(
        Rule::IdentifiersDisagree,
        !all_agree(
            Compared::Kinds,
            Role::Identifier,
            conditions,
            &[then, other],
        ),
    )?;
    broken(Rule::MeasuresDisagree, !are_choices(condition, then, other))?;
    with_measures(alloc, condition, &[then, other], then)
}

/// `union`, `intersect`, `setdiff` or `symdiff` of an operand and others. It breaks `IdentifiersDisagree` where the
/// identifiers are not the same, and `MeasuresDisagree` where the measures are not.
pub fn set_operator(
    alloc: Global,
    first: &Structure,
    others: &[&Structure],
) -> Result<Structure, TypeErr>
    ensures { Answers (λ s. s) result (set_form first.now (shown others.now)) }
{
    let components = first.components.as_slice();
    broken(
        Rule::IdentifiersDisagree,
        !all_agree(Compared::Kinds, Role::Identifier, components, others),
    )?;
    broken(
        Rule::MeasuresDisagree,
        !all_agree(Compared::Kinds, Role::Measure, components, others),
    )?;
    with_measures(alloc, first, others, first)
}

fn is_common(other: &Structure, component: &Component) -> bool
    ensures { result ≡ is_common other.now component.now }
{
    is_there(Compared::Names, other.components.as_slice(), component)
}

fn is_at_odds(other: &Structure, component: &Component) -> bool
    ensures { result ≡ is_at_odds other.now component.now }
{
    is_common(other, component)
        && !is_there(Compared::Kinds, other.components.as_slice(), component)
}

fn any_common(other: &Structure, components: &[Component]) -> bool
    ensures { result ≡ list_any (is_common other.now) (filter is_id components.now) }
{
    for component in components {
        if is_identifier(component) && is_common(other, component) {
            return true;
        }
    }
    false
}

fn any_at_odds(other: &Structure, components: &[Component]) -> bool
    ensures { result ≡ list_any (is_at_odds other.now) (filter is_id components.now) }
{
    for component in components {
        if is_identifier(component) && is_at_odds(other, component) {
            return true;
        }
    }
    false
}

/// `exists_in`. It breaks `IdentifiersDisagree` where the operands have no identifier in common, or a common one has
/// different kinds.
pub fn exists_in(alloc: Global, left: &Structure, right: &Structure) -> Result<Structure, TypeErr>
    ensures { Answers (λ s. s) result (exists_form left.now right.now) }
{
    let components = left.components.as_slice();
    broken(
        Rule::IdentifiersDisagree,
        !any_common(right, components) || any_at_odds(right, components),
    )?;
    let mut out = Vec::new(alloc);
    push_identifiers(&mut out, &[right], components)?;
    out.push(bool_var(alloc)?)?;
    shaped(alloc, out)
}

fn push_check_measures(alloc: Global, out: &mut Vec<Component>) -> Result<(), AllocError>
    ensures { OnOk result (out.new.items ≡ out.old.items ++ check_measures) }
{
    out.push(bool_var(alloc)?)?;
    out.push(imbalance(alloc)?)?;
    out.push(errorcode(alloc)?)?;
    out.push(errorlevel(alloc)?)?;
    Ok(())
}

fn have_one_number(structures: &[&Structure]) -> bool
    ensures { result ≡ list_all has_one_number (shown structures.now) }
{
    for structure in structures {
        if !has_one_measure(Kind::Num, structure.components.as_slice()) {
            return false;
        }
    }
    true
}

fn checked(
    alloc: Global,
    structure: &Structure,
    others: &[&Structure],
) -> Result<Structure, TypeErr>
    ensures { Answers (λ s. s) result (identified (shown others.now) structure.now check_measures) }
{
    let mut out = Vec::new(alloc);
    push_identifiers(&mut out, others, structure.components.as_slice())?;
    push_check_measures(alloc, &mut out)?;
    shaped(alloc, out)
}

fn check_beside(
    alloc: Global,
    structure: &Structure,
    imbalance: &[&Structure],
) -> Result<Structure, TypeErr>
    ensures { Answers (λ s. s) result (check_form structure.now (shown imbalance.now)) }
{
    let components = structure.components.as_slice();
    broken(
        Rule::IdentifiersDisagree,
        !all_agree(Compared::Kinds, Role::Identifier, components, imbalance),
    )?;
    broken(
        Rule::MeasuresDisagree,
        !has_one_measure(Kind::Bool, components) || !have_one_number(imbalance),
    )?;
    checked(alloc, structure, imbalance)
}

/// `check`, with an imbalance or without. It breaks `IdentifiersDisagree` where the identifiers are not the same, and
/// `MeasuresDisagree` where the operand does not have exactly one boolean measure, or the imbalance not exactly one
/// that is a number.
pub fn check(
    alloc: Global,
    structure: &Structure,
    imbalance: Option<&Structure>,
) -> Result<Structure, TypeErr>
    ensures { Answers (λ s. s) result (check_form structure.now (option_to_list (option_copied imbalance.entry))) }
{
    match imbalance {
        Some(imbalance) => check_beside(alloc, structure, &[imbalance]),
        None => check_beside(alloc, structure, &[]),
    }
}
