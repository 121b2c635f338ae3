// Analytic calls that are no whole targets of `calc`.
ghost use Rattle.std.specs.Option.{option_map};
ghost use Rattle.std.specs.Prelude.{◌≡◌};
ghost use Rattle.check_faults.specs.Answers.{Answers};
ghost use Rattle.vtl_syntax.specs.View.{expr_tree};
ghost use Rattle.check_operators.specs.Typed.{boxed_tree, typed_tree};
ghost use Rattle.check_groups.specs.Windowed.{elsewhere_rule, misuse_rule, over_dataset, over_form, over_typed};

use crate::Call;
use crate::call_windows::over_parts;
use crate::over_kinds::is_unfit_over;
use crate::over_nodes::{given_structure, over_node};
use check_faults::{Rule, TypeErr};
use check_operators::{Place, Typed};
use std::alloc::Global;
use vtl_cell::Kind;
use vtl_decimal::Profile;
use vtl_syntax::Expr;
use vtl_tree::{Node, Window, kind};

fn elsewhere_rule(place: &Place, kind: Option<Kind>) -> Rule
    ensures { result ≡ elsewhere_rule place.now kind }
{
    match (place, kind) {
        (Place::Outside, Some(_)) => Rule::DatasetOrValue,
        _ => Rule::AnalyticMisuse,
    }
}

fn misuse_rule(place: &Place, call: &Expr, kind: Option<Kind>) -> Rule
    ensures { result ≡ misuse_rule place.now (expr_tree call.now) kind }
{
    if is_unfit_over(call, kind) {
        Rule::WrongKind
    } else {
        elsewhere_rule(place, kind)
    }
}

// A call of a data set: in a component expression a value is needed.
fn over_dataset(
    alloc: Global,
    place: &Place,
    e: &Expr,
    node: Box<Node>,
    call: Call,
    window: Window,
) -> Result<Typed, TypeErr>
    ensures { Answers typed_tree result (over_dataset place.now (expr_tree e.now) (boxed_tree node) call window) }
{
    match place {
        Place::Outside => over_node(alloc, e, call, window, node),
        Place::Inside(_) => {
            given_structure(alloc, e, &node.structure)?;
            Err(TypeErr::Broken(Rule::DatasetOrValue))
        }
    }
}

fn over_form(
    alloc: Global,
    place: &Place,
    e: &Expr,
    operand: Option<Typed>,
    call: Call,
    window: Window,
) -> Result<Typed, TypeErr>
    ensures { Answers typed_tree result (over_form place.now (expr_tree e.now) (option_map typed_tree operand) call window) }
{
    match operand {
        Some(Typed::Dataset(node)) => over_dataset(alloc, place, e, node, call, window),
        Some(Typed::Value(v)) => Err(TypeErr::Broken(misuse_rule(place, e, Some(kind(&v))))),
        None => Err(TypeErr::Broken(misuse_rule(place, e, None))),
    }
}

/// An analytic call that is no whole target of `calc`, once its operand is typed: a data set has its measures, anything
/// else breaks `WrongKind`, `DatasetOrValue` or `AnalyticMisuse`.
#[tactic(auto, unfolding(crate::specs::Windowed::over_typed))]
pub fn over(
    alloc: Global,
    profile: &Profile,
    place: &Place,
    call: &Expr,
    operand: Option<Typed>,
) -> Result<Typed, TypeErr>
    ensures { Answers typed_tree result (over_typed profile.now place.now (expr_tree call.now) (option_map typed_tree operand)) }
{
    let (parts, window) = over_parts(alloc, profile, place, call, &operand)?;
    over_form(alloc, place, call, operand, parts, window)
}
