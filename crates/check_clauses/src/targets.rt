// What the targets of `calc` and `aggr` share.
ghost use Rattle.std.specs.Prelude.{◌≡◌};
ghost use Rattle.check_clauses.specs.Targets.{role_of};

use vtl_cell::Kind;
use vtl_syntax::WrittenRole;
use vtl_tree::{AggTarget, Role};

/// A target of `aggr`, with the kind of its value.
#[derive(Drop)]
pub struct Made {
    /// The target.
    pub target: AggTarget,
    /// The kind of its value.
    pub kind: Kind,
}

pub(crate) fn role_of(role: Option<WrittenRole>) -> Option<Role>
    ensures { result ≡ role_of role }
{
    match role {
        None => None,
        Some(WrittenRole::Measure) => Some(Role::Measure),
        Some(WrittenRole::Attribute) => Some(Role::Attribute),
    }
}
