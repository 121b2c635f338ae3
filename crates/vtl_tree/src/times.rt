// The time of a data set.
ghost use Rattle.std.specs.Prelude.{◌≡◌, filter, length};
ghost use Rattle.vtl_tree.specs.Times.{has_time, is_time};

use crate::counting::one_if;
use crate::{Component, Role, Structure, is_same_role};
use vtl_cell::{Kind, is_same_kind};

/// Whether a component is an identifier that holds periods.
pub fn is_time(component: &Component) -> bool
    ensures { result ≡ is_time component.now }
{
    is_same_role(component.role, Role::Identifier) && is_same_kind(component.kind, Kind::Period)
}

#[tactic(auto, using(crate::proofs::CountLemmas::one_more_time))]
fn count_times(components: &[Component]) -> usize
    ensures { result ≡ length (filter is_time components.now) }
{
    let mut count = 0;
    for i in 0..components.len() {
        count += one_if(is_time(&components[i]));
    }
    count
}

/// Whether exactly one identifier holds periods.
pub fn has_time(structure: &Structure) -> bool
    ensures { result ≡ has_time structure.now }
{
    count_times(structure.components.as_slice()) == 1
}
