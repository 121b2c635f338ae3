// The measures of an operand.
ghost use Rattle.std.specs.Prelude.{◌≡◌, ◌++◌, OnErr, OnOk};
ghost use Rattle.vtl_tree.specs.Measures.{is_measure, measures};

use crate::copies::push_copy;
use crate::{Component, Role, is_same_role};
use std::alloc::AllocError;

/// Which measures an operator asks for, and which it gives.
#[derive(Clone, Copy, Debug, PartialEq, Eq)]
pub enum Outcome {
    /// At least one measure; each is one of the result.
    Each,
    /// Any number of measures; each is one of the result.
    All,
    /// One measure; the result has `bool_var` alone.
    Truth,
    /// Any number of measures; the result has `int_var` alone.
    Count,
}

/// Whether a component is a measure.
pub fn is_measure(component: &Component) -> bool
    ensures { result ≡ is_measure component.now }
{
    is_same_role(component.role, Role::Measure)
}

/// Adds the measures, in their order. If memory runs out, `out` is left as it was.
pub fn push_measures(out: &mut Vec<Component>, components: &[Component]) -> Result<(), AllocError>
    ensures ok { OnOk result (out.new.items ≡ out.old.items ++ measures components.now) }
    ensures err { OnErr result (out.new.items ≡ out.old.items) }
{
    let before = out.len();
    for component in components {
        if is_measure(component) {
            if let Err(error) = push_copy(out, component) {
                out.truncate(before);
                return Err(error);
            }
        }
    }
    Ok(())
}
