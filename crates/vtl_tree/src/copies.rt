// Components and structures are shared: their names and codes are the same texts.
ghost use Rattle.std.specs.Prelude.{◌≡◌, ◌++◌, ◌∷◌, [], IfOk, OnErr, OnOk};

use crate::structure::{Component, Structure};
use std::alloc::{AllocError, Global};
use vtl_text::{List, Shared, Txt};

/// One more copy of the codes of a component.
pub fn share_codes(codes: &Option<Shared<Txt>>) -> Result<Option<Shared<Txt>>, AllocError>
    ensures { IfOk result (λ copy. copy ≡ codes.now) }
{
    match codes {
        Some(codes) => Ok(Some(codes.share()?)),
        None => Ok(None),
    }
}

/// One more copy of a component.
pub fn share_component(component: &Component) -> Result<Component, AllocError>
    ensures { IfOk result (λ copy. copy ≡ component.now) }
{
    Ok(Component {
        name: component.name.share()?,
        role: component.role,
        kind: component.kind,
        codes: share_codes(&component.codes)?,
    })
}

/// Puts a copy of a component behind others, which are left as they are if memory runs out.
pub(crate) fn push_copy(out: &mut Vec<Component>, component: &Component) -> Result<(), AllocError>
    ensures ok { OnOk result (out.new.items ≡ out.old.items ++ component.now ∷ []) }
    ensures err { OnErr result (out.new.items ≡ out.old.items) }
{
    out.push(share_component(component)?)?;
    Ok(())
}

/// One more copy of a structure.
pub fn share_structure(alloc: Global, structure: &Structure) -> Result<Structure, AllocError>
    ensures { IfOk result (λ copy. copy ≡ structure.now) }
{
    let mut components = Vec::new(alloc);
    for component in structure.components.as_slice() {
        components.push(share_component(component)?)?;
    }
    Ok(Structure {
        components: List::of(components),
    })
}
