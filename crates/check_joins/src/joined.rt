// Joins: the joined set, and the names in it.
//
// The reference of an inner join is the first operand that contains all others, found in one pass: an operand that
// does not contain the next gives way to it. Clashes are looked for in it alone.
ghost use Rattle.std.specs.Option.{option_copied};
ghost use Rattle.std.specs.Prelude.{◌≡◌, ◌++◌, IfOk, OnOk, codes, filter};
ghost use Rattle.vtl_tree.specs.Shown.{shown};
ghost use Rattle.vtl_tree.specs.Structure.{names_of as names_in};
ghost use Rattle.check_faults.specs.Answers.{Answers};
ghost use Rattle.vtl_tree.specs.Joins.{all_own, held_names, holds, is_held, is_marked, is_part, is_reference, is_shared, joined, joined_components, joined_identifiers, joined_name, last_renamings, marked, operand_of, own, own_renamings, plain, structures_of, with_mark};
ghost use Rattle.check_joins.specs.Joins.{join_form, member_form};

use crate::joins::{check_using, go_together, is_cross, is_misused, reference, taken};
use check_faults::{Rule, TypeErr, broken};
use check_shapes::shaped;
use std::alloc::{AllocError, Global};
use vtl_syntax::JoinKind;
use vtl_text::{Txt, concat};
use vtl_tree::{
    Component, MAX_COMPONENTS, Operand, Renaming, Structure, component_of, is_identifier,
    push_identifiers, share_codes,
};

fn is_held(kind: JoinKind, component: &Component) -> bool
    ensures { result ≡ is_held kind component.now }
{
    is_cross(kind) || !is_identifier(component)
}

fn push_held(out: &mut Vec<Txt>, kind: JoinKind, components: &[Component]) -> Result<(), AllocError>
    ensures { OnOk result (out.new.items ≡ out.old.items ++ names_in (filter (is_held kind) components.now)) }
{
    for component in components {
        if is_held(kind, component) {
            out.push(component.name.share()?)?;
        }
    }
    Ok(())
}

/// The names of the components that operands hold, operand by operand: a shared identifier is held by the reference
/// alone and is not among them, but in a cross join each operand holds its own.
pub fn held_names(
    alloc: Global,
    kind: JoinKind,
    operands: &[Operand],
) -> Result<Vec<Txt>, AllocError>
    ensures { IfOk result (λ v. v.items ≡ held_names kind operands.now) }
{
    let mut out = Vec::new(alloc);
    for operand in operands {
        push_held(&mut out, kind, operand.structure.components.as_slice())?;
    }
    Ok(out)
}

#[tactic(auto, unfolding(vtl_tree::specs::Joins::is_shared))]
fn is_shared(held: &[Txt], name: &Txt) -> bool
    ensures { result ≡ is_shared held.now name.now }
{
    1 < held.iter().filter(|other| **other == *name).count()
}

fn with_mark(alloc: Global, alias: &Txt) -> Result<Txt, AllocError>
    ensures { IfOk result (λ t. t ≡ with_mark alias.now) }
{
    concat(alloc, alias.as_str(), "'")
}

fn marked(alloc: Global, alias: &Txt, name: &Txt) -> Result<Txt, AllocError>
    ensures { IfOk result (λ t. t ≡ marked alias.now name.now) }
{
    concat(alloc, with_mark(alloc, alias)?.as_str(), name.as_str())
}

#[tactic(auto, unfolding(vtl_tree::specs::Joins::joined_name))]
fn joined_name(alloc: Global, held: &[Txt], alias: &Txt, name: &Txt) -> Result<Txt, AllocError>
    ensures { IfOk result (λ t. t ≡ joined_name held.now alias.now name.now) }
{
    if is_shared(held, name) {
        marked(alloc, alias, name)
    } else {
        name.share()
    }
}

fn joined(
    alloc: Global,
    held: &[Txt],
    alias: &Txt,
    component: &Component,
) -> Result<Component, AllocError>
    ensures { IfOk result (λ x. x ≡ joined held.now alias.now component.now) }
{
    Ok(Component {
        name: joined_name(alloc, held, alias, &component.name)?,
        role: component.role,
        kind: component.kind,
        codes: share_codes(&component.codes)?,
    })
}

fn is_part(identifiers: bool, component: &Component) -> bool
    ensures { result ≡ is_part identifiers component.now }
{
    if identifiers {
        is_identifier(component)
    } else {
        !is_identifier(component)
    }
}

fn push_own(
    alloc: Global,
    out: &mut Vec<Component>,
    held: &[Txt],
    identifiers: bool,
    alias: &Txt,
    components: &[Component],
) -> Result<(), AllocError>
    ensures { OnOk result (out.new.items ≡ out.old.items ++ own held.now identifiers alias.now components.now) }
{
    for component in components {
        if is_part(identifiers, component) {
            out.push(joined(alloc, held, alias, component)?)?;
        }
    }
    Ok(())
}

fn push_all_own(
    alloc: Global,
    out: &mut Vec<Component>,
    held: &[Txt],
    identifiers: bool,
    operands: &[Operand],
) -> Result<(), AllocError>
    ensures { OnOk result (out.new.items ≡ out.old.items ++ all_own held.now identifiers operands.now) }
{
    for operand in operands {
        push_own(
            alloc,
            out,
            held,
            identifiers,
            &operand.alias,
            operand.structure.components.as_slice(),
        )?;
    }
    Ok(())
}

fn structures_of(alloc: Global, operands: &[Operand]) -> Result<Vec<&Structure>, AllocError>
    ensures { IfOk result (λ v. shown v.items ≡ structures_of operands.now) }
{
    let mut structures = Vec::new(alloc);
    for operand in operands {
        structures.push(&operand.structure)?;
    }
    Ok(structures)
}

fn push_joined_identifiers(
    alloc: Global,
    out: &mut Vec<Component>,
    cross: bool,
    held: &[Txt],
    operands: &[Operand],
    reference: Option<&Operand>,
) -> Result<(), AllocError>
    ensures { OnOk result (out.new.items ≡ out.old.items ++ joined_identifiers cross held.now operands.now (option_copied reference.entry)) }
{
    if cross {
        return push_all_own(alloc, out, held, true, operands);
    }
    let Some(reference) = reference else {
        return Ok(());
    };
    let others = structures_of(alloc, operands)?;
    push_identifiers(out, &others, reference.structure.components.as_slice())
}

fn joined_components(
    alloc: Global,
    kind: JoinKind,
    held: &[Txt],
    operands: &[Operand],
) -> Result<Vec<Component>, AllocError>
    ensures { IfOk result (λ v. v.items ≡ joined_components kind held.now operands.now) }
{
    let mut out = Vec::new(alloc);
    let first = reference(kind, operands);
    push_joined_identifiers(alloc, &mut out, is_cross(kind), held, operands, first)?;
    push_all_own(alloc, &mut out, held, false, operands)?;
    Ok(out)
}

/// The joined set of a join: the identifiers of the reference, in a cross join those of all operands, and then the
/// other components operand by operand. A name that several operands hold is `alias'name` in it. Besides what the names
/// after `using` break, the join breaks `IdentifiersDisagree` where the identifiers of its operands do not agree as it
/// requires, `ComponentCount`, and `JoinMisuse` where it takes no `using`.
pub fn join(
    alloc: Global,
    kind: JoinKind,
    listed: Option<&[Txt]>,
    operands: &[Operand],
) -> Result<Structure, TypeErr>
    ensures { Answers (λ s. s) result (join_form kind (option_copied listed.entry) operands.now) }
{
    check_using(operands, listed)?;
    broken(
        Rule::IdentifiersDisagree,
        !go_together(kind, taken(kind, listed), operands),
    )?;
    let held = held_names(alloc, kind, operands)?;
    broken(Rule::ComponentCount, MAX_COMPONENTS < held.len())?;
    let out = joined_components(alloc, kind, &held, operands)?;
    let structure = shaped(alloc, out)?;
    broken(Rule::JoinMisuse, is_misused(kind, listed))?;
    Ok(structure)
}

fn operand_of<'a>(alias: &Txt, operands: &'a [Operand]) -> Option<&'a Operand>
    ensures { option_copied result ≡ operand_of alias.now operands.now }
{
    for operand in operands {
        if operand.alias == *alias {
            return Some(operand);
        }
    }
    None
}

fn holds(kind: JoinKind, is_reference: bool, operand: &Operand, name: &Txt) -> bool
    ensures { result ≡ holds kind is_reference operand.now name.now }
{
    match component_of(name, operand.structure.components.as_slice()) {
        Some(component) => is_reference || is_held(kind, component),
        None => false,
    }
}

fn is_reference(kind: JoinKind, operands: &[Operand], alias: &Txt) -> bool
    ensures { result ≡ is_reference kind operands.now alias.now }
{
    match reference(kind, operands) {
        Some(operand) => operand.alias == *alias,
        None => false,
    }
}

/// The name in the joined set that `alias#name` stands for, by the names that the operands hold (`held_names`). It
/// breaks `UnknownComponent` where no operand has the alias or that operand does not hold the name.
pub fn member(
    alloc: Global,
    kind: JoinKind,
    operands: &[Operand],
    held: &[Txt],
    alias: &Txt,
    name: &Txt,
) -> Result<Txt, TypeErr>
    ensures { Answers (λ t. t) result (member_form kind operands.now held.now alias.now name.now) }
{
    let Some(operand) = operand_of(alias, operands) else {
        return Err(TypeErr::Broken(Rule::UnknownComponent));
    };
    let is_first = is_reference(kind, operands, &operand.alias);
    broken(
        Rule::UnknownComponent,
        !holds(kind, is_first, operand, name),
    )?;
    Ok(joined_name(alloc, held, &operand.alias, name)?)
}

fn plain(
    alloc: Global,
    held: &[Txt],
    alias: &Txt,
    component: &Component,
) -> Result<Renaming, AllocError>
    ensures { IfOk result (λ r. r ≡ plain held.now alias.now component.now) }
{
    Ok(Renaming {
        from: joined_name(alloc, held, alias, &component.name)?,
        to: component.name.share()?,
    })
}

fn is_marked(kind: JoinKind, held: &[Txt], component: &Component) -> bool
    ensures { result ≡ is_marked kind held.now component.now }
{
    is_held(kind, component) && is_shared(held, &component.name)
}

fn push_own_renamings(
    alloc: Global,
    out: &mut Vec<Renaming>,
    kind: JoinKind,
    held: &[Txt],
    alias: &Txt,
    components: &[Component],
) -> Result<(), AllocError>
    ensures { OnOk result (out.new.items ≡ out.old.items ++ own_renamings kind held.now alias.now components.now) }
{
    for component in components {
        if is_marked(kind, held, component) {
            out.push(plain(alloc, held, alias, component)?)?;
        }
    }
    Ok(())
}

/// The final naming of a join: each `alias'name` of the joined set becomes `name`.
pub fn last_renamings(
    alloc: Global,
    kind: JoinKind,
    held: &[Txt],
    operands: &[Operand],
) -> Result<Vec<Renaming>, AllocError>
    ensures { IfOk result (λ v. v.items ≡ last_renamings kind held.now operands.now) }
{
    let mut out = Vec::new(alloc);
    for operand in operands {
        push_own_renamings(
            alloc,
            &mut out,
            kind,
            held,
            &operand.alias,
            operand.structure.components.as_slice(),
        )?;
    }
    Ok(out)
}
