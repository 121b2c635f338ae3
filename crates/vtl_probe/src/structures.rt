// Structures files: what they declare, in the notation of the tables.
use crate::notation::kind_word;
use std::alloc::{AllocError, Global};
use vtl_csv::{Declared, StructErr, read_structures};
use vtl_decimal::{Profile, Rounding};
use vtl_text::Txt;
use vtl_tree::{Component, Role, Structures, is_among};

// A line for the profile of the file, where it declares one, and one for each data set; or the first rule that a line
// breaks.
pub(crate) fn declared(alloc: Global, text: &str) -> Result<String, AllocError> {
    match read_structures(alloc, text.as_bytes()) {
        Ok(declared) => listed(alloc, &declared),
        Err(StructErr::Structure { line, rule }) => format!(in alloc; "line {line} rule {rule}"),
        Err(StructErr::OutOfMemory) => Err(AllocError),
    }
}

fn listed(alloc: Global, declared: &Declared) -> Result<String, AllocError> {
    let mut out = String::new(alloc);
    if let Some(profile) = &declared.profile {
        push_profile(&mut out, profile)?;
    }
    push_sets(&mut out, &declared.structures)?;
    Ok(out)
}

fn push_profile(out: &mut String, profile: &Profile) -> Result<(), AllocError> {
    write!(
        out,
        "scale {} {}\n",
        profile.scale(),
        rounding_word(profile.rounding())
    )
}

fn rounding_word(rounding: Rounding) -> &'static str {
    match rounding {
        Rounding::HalfUp => "half_up",
        Rounding::HalfEven => "half_even",
        Rounding::Down => "down",
    }
}

// A line for each data set.
fn push_sets(out: &mut String, structures: &Structures) -> Result<(), AllocError> {
    for i in 0..structures.len() {
        let (dataset, structure) = structures.at(i);
        out.push_str(dataset.as_str())?;
        push_listed(
            out,
            structures.not_null(dataset),
            structure.components.as_slice(),
        )?;
        out.push('\n')?;
    }
    Ok(())
}

// One component after another, of a data set with this not-null list.
fn push_listed(out: &mut String, list: &[Txt], components: &[Component]) -> Result<(), AllocError> {
    for component in components {
        push_component(out, component)?;
        if is_among(&component.name, list) {
            out.push_str(" not null")?;
        }
    }
    Ok(())
}

// One component after another.
pub(crate) fn push_components(
    out: &mut String,
    components: &[Component],
) -> Result<(), AllocError> {
    for component in components {
        push_component(out, component)?;
    }
    Ok(())
}

fn push_component(out: &mut String, component: &Component) -> Result<(), AllocError> {
    write!(
        out,
        "; {} {} {}",
        component.name.as_str(),
        role_word(component.role),
        kind_word(component.kind)
    )?;
    match &component.codes {
        Some(codes) => push_codes(out, codes.as_slice()),
        None => Ok(()),
    }
}

fn role_word(role: Role) -> &'static str {
    match role {
        Role::Identifier => "identifier",
        Role::Measure => "measure",
        Role::Attribute => "attribute",
    }
}

fn push_codes(out: &mut String, codes: &[Txt]) -> Result<(), AllocError> {
    let mut before = ' ';
    for code in codes {
        out.push(before)?;
        out.push_str(code.as_str())?;
        before = '|';
    }
    Ok(())
}
