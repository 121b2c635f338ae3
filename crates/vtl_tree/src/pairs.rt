// The identifiers of two operands.
ghost use Rattle.std.specs.Prelude.{◌≡◌, ◌++◌, OnErr, OnOk};
ghost use Rattle.vtl_tree.specs.Pairs.{contains, pair_identifiers};

use crate::{Compared, Component, Role, Structure, is_within, push_identifiers};
use std::alloc::AllocError;

/// Whether the identifiers of the first structure contain those of the second.
pub fn contains(all: &Structure, some: &Structure) -> bool
    ensures { result ≡ contains all.now some.now }
{
    is_within(
        Compared::Kinds,
        Role::Identifier,
        some.components.as_slice(),
        all.components.as_slice(),
    )
}

/// Adds the identifiers of the operand that has all of the other one's, the left one where they have the same. If
/// memory runs out, `out` is left as it was.
pub fn push_pair_identifiers(
    out: &mut Vec<Component>,
    left: &Structure,
    right: &Structure,
) -> Result<(), AllocError>
    ensures ok { OnOk result (out.new.items ≡ out.old.items ++ pair_identifiers left.now right.now) }
    ensures err { OnErr result (out.new.items ≡ out.old.items) }
{
    if contains(left, right) {
        push_identifiers(out, &[right], left.components.as_slice())
    } else {
        push_identifiers(out, &[left], right.components.as_slice())
    }
}
