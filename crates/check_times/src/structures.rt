// Time operators behind their operand.
ghost use Rattle.std.specs.Prelude.{◌≡◌};
ghost use Rattle.vtl_tree.specs.Trees.{time as time_tree};
ghost use Rattle.vtl_tree.specs.NodeView.{form_tree};
ghost use Rattle.check_faults.specs.Answers.{Answers};
ghost use Rattle.check_operators.specs.Typed.{boxed_tree, typed_tree};
ghost use Rattle.check_times.specs.Timed.{flow_structure, given_structure, time_form, time_node, time_structure};

use crate::operators::operator_typed;
use check_faults::{Rule, TypeErr, broken};
use check_operators::{Typed, made_of};
use check_shapes::{Operator, measured};
use std::alloc::Global;
use vtl_cell::{Kind, is_number};
use vtl_decimal::Profile;
use vtl_syntax::TimeCall;
use vtl_tree::{Choice, Node, NodeForm, Outcome, Structure, TimeOp, has_time, share_structure};

// What flows and stocks take and give.
struct Flow;

impl Operator for Flow {
    ghost use Rattle.vtl_tree.specs.Times.{flow_gives};

    ghost gives = { λ operator. flow_gives };

    fn gives(&self, measure: Kind, _: Kind) -> Option<Kind> {
        if is_number(measure) {
            Some(measure)
        } else {
            None
        }
    }
}

fn flow_structure(alloc: Global, structure: &Structure) -> Result<Structure, TypeErr>
    ensures { Answers (λ s. s) result (flow_structure structure.now) }
{
    measured(
        alloc,
        Outcome::Each,
        &Flow,
        true,
        Choice::Except,
        &[],
        structure,
    )
}

fn given_structure(alloc: Global, op: TimeOp, structure: &Structure) -> Result<Structure, TypeErr>
    ensures { Answers (λ s. s) result (given_structure op structure.now) }
{
    match op {
        TimeOp::Shift(_) | TimeOp::Fill(_) => Ok(share_structure(alloc, structure)?),
        TimeOp::FlowToStock | TimeOp::StockToFlow => flow_structure(alloc, structure),
    }
}

#[tactic(auto, unfolding(crate::specs::Timed::time_structure))]
fn time_structure(alloc: Global, op: TimeOp, structure: &Structure) -> Result<Structure, TypeErr>
    ensures { Answers (λ s. s) result (time_structure op structure.now) }
{
    let given = given_structure(alloc, op, structure)?;
    broken(Rule::NoTime, !has_time(structure))?;
    Ok(given)
}

fn time_node(alloc: Global, op: TimeOp, a: Box<Node>) -> Result<Typed, TypeErr>
    ensures { Answers typed_tree result (time_node op (boxed_tree a)) }
{
    let structure = time_structure(alloc, op, &a.structure)?;
    made_of(alloc, structure, NodeForm::Time { a, op })
}

/// A time operator. It breaks `WrongKind`, `WrongLiteral`, `MeasuresDisagree`, `DatasetOrValue` and `NoTime`.
#[tactic(auto, unfolding(crate::specs::Timed::time_form))]
pub fn time(
    alloc: Global,
    profile: &Profile,
    call: &TimeCall,
    operand: Typed,
) -> Result<Typed, TypeErr>
    ensures { Answers typed_tree result (time_form profile.now call.now (typed_tree operand)) }
{
    let op = operator_typed(profile, call)?;
    let a = operand.dataset()?;
    time_node(alloc, op, a)
}
