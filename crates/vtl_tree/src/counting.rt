// How many components have a role.
ghost use Rattle.std.specs.Prelude.{◌≡◌, cond, filter, length};
ghost use Rattle.vtl_tree.specs.Measures.{measures};
ghost use Rattle.vtl_tree.specs.Structure.{same_role};

use crate::{Component, Role, is_same_role};

pub(crate) fn one_if(counted: bool) -> usize
    ensures { result ≡ cond counted 1 0 }
{
    if counted { 1 } else { 0 }
}

/// How many components have a role.
#[tactic(auto, using(crate::proofs::CountLemmas::one_more))]
pub(crate) fn count_role(components: &[Component], role: Role) -> usize
    ensures { result ≡ length (filter (λ x. same_role x.role role) components.now) }
{
    let mut count = 0;
    for i in 0..components.len() {
        count += one_if(is_same_role(components[i].role, role));
    }
    count
}

/// How many measures there are.
pub fn count_measures(components: &[Component]) -> usize
    ensures { result ≡ length (measures components.now) }
{
    count_role(components, Role::Measure)
}
