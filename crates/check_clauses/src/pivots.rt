// The clauses `pivot` and `unpivot`.
//
// `pivot` asks its two names before its clause, which asks them again (`pivot_names`, `pivot_form`): `check_shapes`
// stands below the trees.
ghost use Rattle.check_faults.specs.Answers.{Answers};
ghost use Rattle.check_operators.specs.Typed.{boxed_tree};
ghost use Rattle.check_clauses.specs.Clauses.{pivot_names, pivot_of, unpivot_of};

use check_faults::TypeErr;
use check_operators::made_node;
use check_shapes::known;
use check_values::name;
use std::alloc::Global;
use vtl_syntax::Comp;
use vtl_text::Txt;
use vtl_tree::{Component, Node, NodeForm, Wanted};

// The two names of `pivot`: an identifier and a measure.
fn check_pivot_names(id: &Txt, m: &Txt, components: &[Component]) -> Result<(), TypeErr>
    ensures { Answers (λ done. done) result (pivot_names id.now m.now components.now) }
{
    known(Wanted::Identifier, components, &[], id)?;
    known(Wanted::Measure, components, &[], m)?;
    Ok(())
}

/// `pivot`. Its names break `UnknownComponent` and `WrongRole`, and then the clause `RepeatedComponent`,
/// `ComponentCount` and `NoCodes`.
#[tactic(auto, unfolding(crate::specs::Clauses::pivot_of))]
pub fn pivot(
    alloc: Global,
    identifier: &Comp,
    measure: &Comp,
    operand: Box<Node>,
) -> Result<Box<Node>, TypeErr>
    ensures { Answers boxed_tree result (pivot_of identifier.now measure.now (boxed_tree operand)) }
{
    let id = name(identifier).share()?;
    let m = name(measure).share()?;
    check_pivot_names(&id, &m, operand.structure.components.as_slice())?;
    let structure = check_shapes::pivot(alloc, &operand.structure, &id, &m)?;
    made_node(alloc, structure, NodeForm::Pivot { a: operand, id, m })
}

/// `unpivot`. It breaks `MeasuresDisagree`, `RepeatedComponent` and `ComponentCount`.
#[tactic(auto, unfolding(crate::specs::Clauses::unpivot_of))]
pub fn unpivot(
    alloc: Global,
    identifier: &Comp,
    measure: &Comp,
    operand: Box<Node>,
) -> Result<Box<Node>, TypeErr>
    ensures { Answers boxed_tree result (unpivot_of identifier.now measure.now (boxed_tree operand)) }
{
    let id = name(identifier).share()?;
    let m = name(measure).share()?;
    let structure = check_shapes::unpivot(alloc, &operand.structure, &id, &m)?;
    made_node(alloc, structure, NodeForm::Unpivot { a: operand, id, m })
}
