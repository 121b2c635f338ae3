// Analytic calls that are whole targets of `calc`.
ghost use Rattle.std.specs.Option.{option_map};
ghost use Rattle.std.specs.Prelude.{◌≡◌};
ghost use Rattle.vtl_tree.specs.NodeView.{value_tree};
ghost use Rattle.check_faults.specs.Answers.{Answers};
ghost use Rattle.vtl_syntax.specs.Trees.{maybe_exp};
ghost use Rattle.vtl_syntax.specs.View.{expr_tree};
ghost use Rattle.vtl_tree.specs.View.{comp_exp_of};
ghost use Rattle.check_operators.specs.Typed.{typed_tree};
ghost use Rattle.check_groups.specs.Windowed.{argument, call_of, operand_exp, rank_call, target_form, target_typed, value_call};

use crate::Call;
use crate::arguments::operand_name;
use crate::call_windows::over_parts;
use crate::calls::suits;
use crate::over_kinds::{is_rank, is_unfit_over};
use crate::over_nodes::given_structure;
use check_faults::{Rule, TypeErr, broken};
use check_operators::{Place, Typed};
use std::alloc::Global;
use vtl_decimal::Profile;
use vtl_syntax::Expr;
use vtl_text::Txt;
use vtl_tree::{AnalyticCall, AnalyticOp, CalcValue, CompExpr, Window, kind};

fn operand_exp(call: &Expr) -> Option<&Expr>
    ensures { maybe_exp (option_map (λ e. expr_tree e.now) result) ≡ operand_exp (expr_tree call.now) }
{
    match call {
        Expr::AggregateOver {
            operand: Some(operand),
            ..
        } => Some(operand),
        Expr::ValueWindow { operand, .. } => Some(operand),
        Expr::Shift { operand, .. } => Some(operand),
        _ => None,
    }
}

fn argument<'a>(call: &Expr, operand: &'a CompExpr) -> Option<&'a Txt>
    ensures { option_map (λ name. name.now) result ≡ argument (expr_tree call.now) (comp_exp_of operand.now) }
{
    operand_name(operand_exp(call), operand)
}

// A call of a component.
fn call_of(call: Call, component: Option<&Txt>, window: Window) -> Result<CalcValue, TypeErr>
    ensures { Answers value_tree result (call_of call (option_map (λ name. name.now) component.entry) window call.op) }
{
    let suits = suits(call.needed, &window);
    match (call.op, component) {
        (Some(op), Some(component)) => {
            broken(Rule::AnalyticMisuse, !suits)?;
            Ok(CalcValue::Analytic(AnalyticCall {
                op,
                component: Some(component.share()?),
                window,
            }))
        }
        _ => Err(TypeErr::Broken(Rule::AnalyticMisuse)),
    }
}

// A call whose operand, already typed, is a value.
fn value_call(
    e: &Expr,
    operand: &CompExpr,
    call: Call,
    window: Window,
) -> Result<CalcValue, TypeErr>
    ensures { Answers value_tree result (value_call (expr_tree e.now) (comp_exp_of operand.now) call window) }
{
    broken(Rule::WrongKind, is_unfit_over(e, Some(kind(operand))))?;
    call_of(call, argument(e, operand), window)
}

fn rank_call(call: &Call, window: Window) -> Result<CalcValue, TypeErr>
    ensures { Answers value_tree result (rank_call call.now window) }
{
    broken(Rule::AnalyticMisuse, !suits(call.needed, &window))?;
    Ok(CalcValue::Analytic(AnalyticCall {
        op: AnalyticOp::Rank,
        component: None,
        window,
    }))
}

fn target_form(
    alloc: Global,
    e: &Expr,
    operand: &Option<Typed>,
    call: Call,
    window: Window,
) -> Result<CalcValue, TypeErr>
    ensures { Answers value_tree result (target_form (expr_tree e.now) (option_map typed_tree operand.now) call window) }
{
    match operand {
        Some(Typed::Dataset(node)) => {
            given_structure(alloc, e, &node.structure)?;
            Err(TypeErr::Broken(Rule::DatasetOrValue))
        }
        Some(Typed::Value(value)) => value_call(e, value, call, window),
        None if is_rank(e) => rank_call(&call, window),
        None => Err(TypeErr::Broken(Rule::WrongKind)),
    }
}

/// An analytic call that is the whole of a target of `calc`, once its operand is typed.
#[tactic(auto, unfolding(crate::specs::Windowed::target_typed))]
pub fn target(
    alloc: Global,
    profile: &Profile,
    place: &Place,
    call: &Expr,
    operand: Option<Typed>,
) -> Result<CalcValue, TypeErr>
    ensures { Answers value_tree result (target_typed profile.now place.now (expr_tree call.now) (option_map typed_tree operand)) }
{
    let (parts, window) = over_parts(alloc, profile, place, call, &operand)?;
    target_form(alloc, call, &operand, parts, window)
}
