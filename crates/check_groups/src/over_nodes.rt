// Analytic calls of the measures of a data set.
ghost use Rattle.std.specs.Prelude.{◌≡◌};
ghost use Rattle.vtl_tree.specs.Trees.{analytic_of, of_measures};
ghost use Rattle.vtl_tree.specs.NodeView.{form_tree};
ghost use Rattle.check_faults.specs.Answers.{Answers};
ghost use Rattle.vtl_syntax.specs.View.{expr_tree};
ghost use Rattle.check_operators.specs.Typed.{boxed_tree, typed_tree};
ghost use Rattle.check_groups.specs.Windowed.{given_structure, is_misplaced, or_count, over_node, over_structure};

use crate::Call;
use crate::calls::suits;
use crate::over_kinds::over_kind;
use check_faults::{Rule, TypeErr, broken};
use check_operators::{Typed, made_of};
use check_shapes::{Operator, measured};
use std::alloc::Global;
use vtl_cell::Kind;
use vtl_syntax::Expr;
use vtl_tree::{AnalyticOp, AnalyticSpec, Choice, Node, NodeForm, Outcome, Structure, Window};

// An analytic call of each measure, by the kinds that it takes and gives.
#[derive(Drop)]
struct OfMeasure<'a> {
    call: &'a Expr,
}

impl<'a> Operator for OfMeasure<'a> {
    ghost use Rattle.vtl_syntax.specs.View.{expr_tree};
    ghost use Rattle.check_groups.specs.Windowed.{of_measure};

    ghost gives = { λ operator. of_measure (expr_tree operator.call.now) };

    fn gives(&self, measure: Kind, _: Kind) -> Option<Kind> {
        over_kind(self.call, measure)
    }
}

// A median, a count and a rank are no operators on data sets.
fn is_misplaced(op: &Option<AnalyticOp>) -> bool
    ensures { result ≡ is_misplaced op.now }
{
    match op {
        None | Some(AnalyticOp::Count | AnalyticOp::Rank) => true,
        Some(_) => false,
    }
}

/// The structure of a call of each measure. It breaks `WrongKind` where the kind of a measure does not fit, and
/// `ComponentCount` where nothing is left.
pub(crate) fn given_structure(
    alloc: Global,
    e: &Expr,
    structure: &Structure,
) -> Result<Structure, TypeErr>
    ensures { Answers (λ s. s) result (given_structure (expr_tree e.now) structure.now.components) }
{
    let operator = OfMeasure { call: e };
    measured(
        alloc,
        Outcome::All,
        &operator,
        true,
        Choice::Except,
        &[],
        structure,
    )
}

// The same, with `AnalyticMisuse` where the call is no operator on data sets or does not suit its window.
#[tactic(auto, unfolding(crate::specs::Windowed::over_structure))]
fn over_structure(
    alloc: Global,
    e: &Expr,
    call: &Call,
    window: &Window,
    structure: &Structure,
) -> Result<Structure, TypeErr>
    ensures { Answers (λ s. s) result (over_structure (expr_tree e.now) call.now window.now structure.now.components) }
{
    let given = given_structure(alloc, e, structure)?;
    broken(Rule::AnalyticMisuse, is_misplaced(&call.op))?;
    broken(Rule::AnalyticMisuse, !suits(call.needed, window))?;
    Ok(given)
}

fn or_count(op: Option<AnalyticOp>) -> AnalyticOp
    ensures { result ≡ or_count op }
{
    op.unwrap_or(AnalyticOp::Count)
}

fn analytic_form(op: Option<AnalyticOp>, window: Window, operand: Box<Node>) -> NodeForm
    ensures { form_tree result ≡ analytic_of (boxed_tree operand) (of_measures (or_count op) window) }
{
    let op = or_count(op);
    NodeForm::Analytic {
        a: operand,
        spec: AnalyticSpec::Measures { op, window },
    }
}

/// A call of each measure of a data set.
#[tactic(auto, unfolding(crate::specs::Windowed::over_node))]
pub(crate) fn over_node(
    alloc: Global,
    e: &Expr,
    call: Call,
    window: Window,
    operand: Box<Node>,
) -> Result<Typed, TypeErr>
    ensures { Answers typed_tree result (over_node (expr_tree e.now) call window (boxed_tree operand)) }
{
    let structure = over_structure(alloc, e, &call, &window, &operand.structure)?;
    made_of(alloc, structure, analytic_form(call.op, window, operand))
}
