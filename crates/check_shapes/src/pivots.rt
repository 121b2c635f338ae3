// The clauses `pivot` and `unpivot`.
ghost use Rattle.std.specs.List.{list_all};
ghost use Rattle.std.specs.Prelude.{◌≡◌, ◌++◌, IfOk, OnOk, map};
ghost use Rattle.vtl_cell.specs.Kinds.{same_kind};
ghost use Rattle.check_faults.specs.Answers.{Answers};
ghost use Rattle.vtl_tree.specs.ClauseShapes.{code_measure, first_kind, names_column, pivot_components};
ghost use Rattle.check_shapes.specs.Clauses.{are_unlike, has_no_name, pivot_codes, pivot_form, unpivot_form};
ghost use Rattle.vtl_tree.specs.Measures.{measures};

use crate::measures::made;
use crate::names::known;
use crate::shape::names_of;
use crate::shaped;
use check_faults::{Rule, TypeErr, broken};
use std::alloc::{AllocError, Global};
use vtl_cell::{Kind, is_same_kind};
use vtl_text::{Shared, Txt, is_component_name};
use vtl_tree::{Choice, Component, Role, Structure, Wanted, push_chosen, push_measures};

fn has_no_name(texts: &[Txt]) -> bool
    ensures { result ≡ has_no_name texts.now }
{
    for text in texts {
        if !is_component_name(text.as_str()) {
            return true;
        }
    }
    false
}

fn pivot_codes(component: &Component) -> Result<&[Txt], TypeErr>
    ensures { Answers (λ texts. texts.now) result (pivot_codes component.now.codes) }
{
    match &component.codes {
        Some(texts) => Ok(texts.as_slice()),
        None => Err(TypeErr::Broken(Rule::NoCodes)),
    }
}

fn push_code_measures(out: &mut Vec<Component>, kind: Kind, texts: &[Txt]) -> Result<(), AllocError>
    ensures { OnOk result (out.new.items ≡ out.old.items ++ map (code_measure kind) texts.now) }
{
    for text in texts {
        out.push(made(text, Role::Measure, kind)?)?;
    }
    Ok(())
}

fn pivot_components(
    alloc: Global,
    name: &Txt,
    kind: Kind,
    texts: &[Txt],
    components: &[Component],
) -> Result<Vec<Component>, AllocError>
    ensures { IfOk result (λ v. v.items ≡ pivot_components name.now kind texts.now components.now) }
{
    let mut out = Vec::new(alloc);
    push_chosen(&mut out, Choice::Except, &[name.share()?], components)?;
    push_code_measures(&mut out, kind, texts)?;
    Ok(out)
}

/// What `pivot` gives: the other identifiers, and a measure for each code of the identifier, of the kind of the
/// measure. Besides what their names break, the identifier breaks `NoCodes` where it has no codes, and a code that is
/// no name of a component breaks `RepeatedComponent`.
pub fn pivot(
    alloc: Global,
    structure: &Structure,
    identifier: &Txt,
    measure: &Txt,
) -> Result<Structure, TypeErr>
    ensures { Answers (λ s. s) result (pivot_form identifier.now measure.now structure.now.components) }
{
    let components = structure.components.as_slice();
    let texts = pivot_codes(known(Wanted::Identifier, components, &[], identifier)?)?;
    let kind = known(Wanted::Measure, components, &[], measure)?.kind;
    broken(Rule::RepeatedComponent, has_no_name(texts))?;
    let out = pivot_components(alloc, identifier, kind, texts, components)?;
    shaped(alloc, out)
}

fn first_kind(measures: &[Component]) -> Kind
    ensures { result ≡ first_kind measures.now }
{
    match measures.first() {
        Some(measure) => measure.kind,
        None => Kind::Null,
    }
}

fn have_kind(kind: Kind, measures: &[Component]) -> bool
    ensures { result ≡ list_all (λ x. same_kind kind x.kind) measures.now }
{
    for measure in measures {
        if !is_same_kind(kind, measure.kind) {
            return false;
        }
    }
    true
}

fn are_unlike(measures: &[Component]) -> bool
    ensures { result ≡ are_unlike measures.now }
{
    measures.is_empty() || !have_kind(first_kind(measures), measures)
}

fn names_column(alloc: Global, name: &Txt, measures: &[Component]) -> Result<Component, AllocError>
    ensures { IfOk result (λ x. x ≡ names_column name.now measures.now) }
{
    Ok(Component {
        name: name.share()?,
        role: Role::Identifier,
        kind: Kind::Text,
        codes: Some(Shared::of(names_of(alloc, measures)?)?),
    })
}

/// What `unpivot` gives: the identifiers, an identifier whose codes are the names of the measures, and one measure of
/// their kind. It breaks `MeasuresDisagree` where there is no measure or they have several kinds.
pub fn unpivot(
    alloc: Global,
    structure: &Structure,
    identifier: &Txt,
    measure: &Txt,
) -> Result<Structure, TypeErr>
    ensures { Answers (λ s. s) result (unpivot_form identifier.now measure.now structure.now.components) }
{
    let components = structure.components.as_slice();
    let mut measures = Vec::new(alloc);
    push_measures(&mut measures, components)?;
    broken(Rule::MeasuresDisagree, are_unlike(&measures))?;
    let mut out = Vec::new(alloc);
    push_chosen(&mut out, Choice::Except, &[], components)?;
    out.push(names_column(alloc, identifier, &measures)?)?;
    out.push(made(measure, Role::Measure, first_kind(&measures))?)?;
    shaped(alloc, out)
}
