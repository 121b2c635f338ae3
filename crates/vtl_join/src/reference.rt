// The reference of a join, of which the joined set has the identifiers.
//
// The reference is a place among the operands' structures (`reference_place`): so it is the same whatever the order
// of points, and is found without looking at a point.
ghost use Rattle.std.specs.Prelude.{◌≡◌, ◌<◌, length};
ghost use Rattle.vtl_meaning.specs.Joined.{reference_place, structures_of};
ghost use Rattle.vtl_join.specs.Joining.{sets_of};

use crate::joined::Operand;
use vtl_syntax::JoinKind;
use vtl_tree::contains;

// The place of the first operand whose identifiers contain those of every other one, of which there is one: an operand
// that does not contain another gives way to it.
fn containing(operands: &[Operand]) -> usize
    requires { reference_place JoinKind.Inner (structures_of (sets_of operands.now)) < length operands.now }
    ensures { result ≡ reference_place JoinKind.Inner (structures_of (sets_of operands.now)) }
{
    let mut left = 0;
    for i in 1..operands.len() {
        if !contains(operands[left].set.structure(), operands[i].set.structure()) {
            left = i;
        }
    }
    left
}

// The place of the reference, of which there is one.
pub(crate) fn reference_place(kind: JoinKind, operands: &[Operand]) -> usize
    requires { reference_place kind (structures_of (sets_of operands.now)) < length operands.now }
    ensures { result ≡ reference_place kind (structures_of (sets_of operands.now)) }
{
    match kind {
        JoinKind::Inner => containing(operands),
        JoinKind::Left | JoinKind::Full | JoinKind::Cross => 0,
    }
}
