// The measures that an operator gives.
ghost use Rattle.std.specs.Option.{option_copied};
ghost use Rattle.std.specs.Prelude.{◌≡◌, ◌++◌, IfOk, OnOk, chars, map};
ghost use Rattle.vtl_tree.specs.declared.structure.Role.TheVariants as role;
ghost use Rattle.check_faults.specs.Answers.{Answers};
ghost use Rattle.vtl_tree.specs.Measures.{any_unmet, int_var as int_measure, given_measure, given_measures, is_measure, is_miscounted, is_unmet, made, measures, namesake, paired};
ghost use Rattle.check_shapes.specs.Measures.{measured_form};

use crate::checks::bool_var;
use crate::shaped;
use check_faults::{Rule, TypeErr, broken};
use std::alloc::{AllocError, Global};
use vtl_cell::Kind;
use vtl_text::Txt;
use vtl_tree::{
    Choice, Component, Outcome, Role, Structure, component_of, count_measures, is_measure,
    push_chosen,
};

/// An operator on measures, by the kinds that it takes and gives.
pub trait Operator {
    ghost use Rattle.std.specs.Prelude.{Option};
    ghost use Rattle.vtl_cell.specs.declared.kind.Kind.{Kind as KindOf};

    /// From the kinds of a measure and of its namesake, the kind that is given, or none.
    ghost gives: { Self → KindOf → KindOf → Option KindOf };

    /// The kind that is given for the kinds of a measure and of its namesake, or none where they do not meet the
    /// operator's row.
    fn gives(&self, measure: Kind, namesake: Kind) -> Option<Kind>
        ensures { result ≡ gives self.now measure namesake };
}

fn namesake(others: Option<&[Component]>, measure: &Component) -> Option<Kind>
    ensures { result ≡ namesake (option_copied others.entry) measure.now }
{
    let Some(others) = others else {
        return Some(measure.kind);
    };
    match component_of(&measure.name, others) {
        Some(other) if is_measure(other) => Some(other.kind),
        _ => None,
    }
}

fn paired<F: Operator>(operator: &F, measure: Kind, namesake: Option<Kind>) -> Option<Kind>
    ensures { result ≡ paired (F.gives operator.now) measure namesake }
{
    match namesake {
        Some(namesake) => operator.gives(measure, namesake),
        None => Some(measure),
    }
}

fn is_unmet<F: Operator>(operator: &F, others: Option<&[Component]>, component: &Component) -> bool
    ensures { result ≡ is_unmet (F.gives operator.now) (option_copied others.entry) component.now }
{
    is_measure(component) && paired(operator, component.kind, namesake(others, component)).is_none()
}

/// Whether a measure does not meet the operator's row, together with its namesake among others, or alone where there
/// are no others.
pub fn any_unmet<F: Operator>(
    operator: &F,
    others: Option<&[Component]>,
    components: &[Component],
) -> bool
    ensures { result ≡ any_unmet (F.gives operator.now) (option_copied others.entry) components.now }
{
    for component in components {
        if is_unmet(operator, others, component) {
            return true;
        }
    }
    false
}

pub(crate) fn is_miscounted(outcome: Outcome, count: usize) -> bool
    ensures { result ≡ is_miscounted outcome count }
{
    match outcome {
        Outcome::Each => count == 0,
        Outcome::Truth => count != 1,
        Outcome::All | Outcome::Count => false,
    }
}

/// A component without codes, under a name that is shared.
pub(crate) fn made(name: &Txt, role: Role, kind: Kind) -> Result<Component, AllocError>
    ensures { IfOk result (λ x. x ≡ made name.now role kind) }
{
    Ok(Component {
        name: name.share()?,
        role,
        kind,
        codes: None,
    })
}

/// A measure without codes, under a new name.
pub(crate) fn new_measure(alloc: Global, name: &str, kind: Kind) -> Result<Component, AllocError>
    ensures { IfOk result (λ x. x ≡ made (chars name.now) role.Measure kind) }
{
    Ok(Component {
        name: Txt::new(alloc, name)?,
        role: Role::Measure,
        kind,
        codes: None,
    })
}

fn int_var(alloc: Global) -> Result<Component, AllocError>
    ensures { IfOk result (λ x. x ≡ int_measure) }
{
    new_measure(alloc, "int_var", Kind::Int)
}

fn given_measure<F: Operator>(
    operator: &F,
    others: Option<&[Component]>,
    measure: &Component,
) -> Result<Component, AllocError>
    ensures { IfOk result (λ x. x ≡ given_measure (F.gives operator.now) (option_copied others.entry) measure.now) }
{
    let kind = paired(operator, measure.kind, namesake(others, measure)).unwrap_or(measure.kind);
    made(&measure.name, Role::Measure, kind)
}

fn push_each<F: Operator>(
    out: &mut Vec<Component>,
    operator: &F,
    others: Option<&[Component]>,
    components: &[Component],
) -> Result<(), AllocError>
    ensures { OnOk result (out.new.items ≡ out.old.items ++ map (given_measure (F.gives operator.now) (option_copied others.entry)) (measures components.now)) }
{
    for component in components {
        if is_measure(component) {
            out.push(given_measure(operator, others, component)?)?;
        }
    }
    Ok(())
}

/// Adds the measures of the result.
pub(crate) fn push_given<F: Operator>(
    alloc: Global,
    out: &mut Vec<Component>,
    outcome: Outcome,
    operator: &F,
    others: Option<&[Component]>,
    components: &[Component],
) -> Result<(), AllocError>
    ensures { OnOk result (out.new.items ≡ out.old.items ++ given_measures outcome (F.gives operator.now) (option_copied others.entry) components.now) }
{
    match outcome {
        Outcome::Each | Outcome::All => push_each(out, operator, others, components),
        Outcome::Truth => Ok(out.push(bool_var(alloc)?)?),
        Outcome::Count => Ok(out.push(int_var(alloc)?)?),
    }
}

/// An operator on the measures of one data set: the identifiers that are chosen, then the measures that it gives. It
/// breaks `WrongKind` where a measure does not meet the operator's row, `WrongLiteral` where operands that have to be
/// literals are not, and `MeasuresDisagree` where the number of measures is not the one it asks for.
pub fn measured<F: Operator>(
    alloc: Global,
    outcome: Outcome,
    operator: &F,
    literals: bool,
    choice: Choice,
    names: &[Txt],
    structure: &Structure,
) -> Result<Structure, TypeErr>
    ensures { Answers (λ s. s) result (measured_form outcome (F.gives operator.now) literals choice names.now structure.now.components) }
{
    let components = structure.components.as_slice();
    broken(Rule::WrongKind, any_unmet(operator, None, components))?;
    broken(Rule::WrongLiteral, !literals)?;
    broken(
        Rule::MeasuresDisagree,
        is_miscounted(outcome, count_measures(components)),
    )?;
    let mut out = Vec::new(alloc);
    push_chosen(&mut out, choice, names, components)?;
    push_given(alloc, &mut out, outcome, operator, None, components)?;
    shaped(alloc, out)
}
