// The places of columns by their roles.
ghost use Rattle.std.specs.Prelude.{◌≡◌, IfOk};
ghost use Rattle.vtl_join.specs.Picks.{places_of};

use std::alloc::{AllocError, Global};
use vtl_tree::{Role, Structure, places_in};

// The places of the columns of a role.
pub(crate) fn places_of(
    alloc: Global,
    structure: &Structure,
    role: Role,
) -> Result<Vec<usize>, AllocError>
    ensures { IfOk result (λ v. v.items ≡ places_of role structure.now) }
{
    let columns = structure.columns(alloc)?;
    places_in(alloc, &columns, &structure.of_role(alloc, role)?)
}
