// The names of components, as scripts write them.
ghost use Rattle.std.specs.Prelude.{◌≡◌, IfOk, map};
ghost use Rattle.vtl_tree.specs.Names.{name_of};

use check_values::name;
use std::alloc::{AllocError, Global};
use vtl_syntax::Comp;
use vtl_text::Txt;

/// The names of components, in their order. It fails only if memory runs out.
pub(crate) fn names_of(alloc: Global, components: &[Comp]) -> Result<Vec<Txt>, AllocError>
    ensures { IfOk result (λ names. names.items ≡ map name_of components.now) }
{
    let mut names = Vec::new(alloc);
    for component in components {
        names.push(name(component).share()?)?;
    }
    Ok(names)
}
