// The clause `rename`.
ghost use Rattle.std.specs.Prelude.{◌≡◌, ◌++◌, IfOk, OnOk, map};
ghost use Rattle.check_faults.specs.Answers.{Answers};
ghost use Rattle.vtl_tree.specs.ClauseShapes.{new_name, renamed};
ghost use Rattle.check_shapes.specs.Clauses.{rename_form};

use crate::shaped;
use check_faults::TypeErr;
use std::alloc::{AllocError, Global};
use vtl_text::Txt;
use vtl_tree::{Component, Renaming, Structure, share_codes};

fn new_name<'a>(renamings: &'a [Renaming], name: &'a Txt) -> &'a Txt
    ensures { result.now ≡ new_name renamings.now name.now }
{
    for renaming in renamings {
        if renaming.from == *name {
            return &renaming.to;
        }
    }
    name
}

fn renamed(renamings: &[Renaming], component: &Component) -> Result<Component, AllocError>
    ensures { IfOk result (λ x. x ≡ renamed renamings.now component.now) }
{
    Ok(Component {
        name: new_name(renamings, &component.name).share()?,
        role: component.role,
        kind: component.kind,
        codes: share_codes(&component.codes)?,
    })
}

fn push_renamed(
    out: &mut Vec<Component>,
    renamings: &[Renaming],
    components: &[Component],
) -> Result<(), AllocError>
    ensures { OnOk result (out.new.items ≡ out.old.items ++ map (renamed renamings.now) components.now) }
{
    for component in components {
        out.push(renamed(renamings, component)?)?;
    }
    Ok(())
}

/// What `rename` gives, where `check_names` passed the old names: all are renamed at once, and keep their places.
pub fn rename(
    alloc: Global,
    structure: &Structure,
    renamings: &[Renaming],
) -> Result<Structure, TypeErr>
    ensures { Answers (λ s. s) result (rename_form renamings.now structure.now.components) }
{
    let mut out = Vec::new(alloc);
    push_renamed(&mut out, renamings, structure.components.as_slice())?;
    shaped(alloc, out)
}
