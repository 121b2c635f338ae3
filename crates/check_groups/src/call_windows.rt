// The windows of analytic calls, and the parts of calls after their operands.
ghost use Rattle.std.specs.Option.{option_copied, option_map};
ghost use Rattle.std.specs.Prelude.{IfOk, Some, unwrap_or, ◌≡◌};
ghost use Rattle.check_faults.specs.Answers.{Answers};
ghost use Rattle.vtl_syntax.specs.View.{expr_tree};
ghost use Rattle.check_values.specs.Windows.{frame_alone, window_typed};
ghost use Rattle.check_operators.specs.Typed.{typed_tree};
ghost use Rattle.check_groups.specs.Windowed.{kinds_beside, no_window, over_of, over_parts, over_window, window_at};

use crate::Call;
use crate::calls::call_typed;
use check_faults::TypeErr;
use check_operators::{Place, Typed, columns_at, points};
use check_values::{frame_alone, window};
use std::alloc::{AllocError, Global};
use vtl_cell::Kind;
use vtl_decimal::Profile;
use vtl_syntax::{Expr, OverPart};
use vtl_tree::{Component, Window};

fn over_of(call: &Expr) -> Option<&OverPart>
    ensures { unwrap_or (option_copied result) no_window ≡ over_of (expr_tree call.now) }
{
    match call {
        Expr::AggregateOver { over, .. } => Some(over),
        Expr::ValueWindow { over, .. } => Some(over),
        Expr::Shift { over, .. } => Some(over),
        Expr::Rank(over) => Some(over),
        _ => None,
    }
}

fn no_window() -> OverPart
    ensures { result ≡ no_window }
{
    OverPart {
        partition: None,
        order: None,
        points: None,
    }
}

fn window_of(
    alloc: Global,
    profile: &Profile,
    columns: &[Component],
    call: &Expr,
) -> Result<Window, TypeErr>
    ensures { Answers (λ window. window) result (window_typed profile.now columns.now (over_of (expr_tree call.now))) }
{
    match over_of(call) {
        Some(over) => window(alloc, profile, columns, over),
        None => window(alloc, profile, columns, &no_window()),
    }
}

fn frame_of(alloc: Global, profile: &Profile, call: &Expr) -> Result<Window, TypeErr>
    ensures { Answers (λ window. window) result (frame_alone profile.now (over_of (expr_tree call.now))) }
{
    match over_of(call) {
        Some(over) => frame_alone(alloc, profile, over),
        None => frame_alone(alloc, profile, &no_window()),
    }
}

// The window of a call of no data set: where there is no place with components, its names stand for nothing.
fn window_at(
    alloc: Global,
    profile: &Profile,
    place: &Place,
    call: &Expr,
) -> Result<Window, TypeErr>
    ensures { Answers (λ window. window) result (window_at profile.now place.now (over_of (expr_tree call.now))) }
{
    match place {
        Place::Outside => frame_of(alloc, profile, call),
        Place::Inside(inside) => window_of(alloc, profile, inside.components.as_slice(), call),
    }
}

// The window of a call behind its operand.
fn window_behind(
    alloc: Global,
    profile: &Profile,
    place: &Place,
    call: &Expr,
    operand: &Typed,
) -> Result<Window, TypeErr>
    ensures { Answers (λ window. window) result (over_window profile.now place.now (Some (typed_tree operand.now)) (over_of (expr_tree call.now))) }
{
    match operand {
        Typed::Dataset(node) => {
            let at = points(alloc, &None, node)?;
            window_of(alloc, profile, columns_at(&at), call)
        }
        Typed::Value(_) => window_at(alloc, profile, place, call),
    }
}

fn over_window(
    alloc: Global,
    profile: &Profile,
    place: &Place,
    call: &Expr,
    operand: &Option<Typed>,
) -> Result<Window, TypeErr>
    ensures { Answers (λ window. window) result (over_window profile.now place.now (option_map typed_tree operand.now) (over_of (expr_tree call.now))) }
{
    match operand {
        Some(operand) => window_behind(alloc, profile, place, call, operand),
        None => window_at(alloc, profile, place, call),
    }
}

fn kinds_beside(alloc: Global, operand: &Option<Typed>) -> Result<Vec<Kind>, AllocError>
    ensures { IfOk result (λ kinds. kinds.items ≡ kinds_beside (option_map typed_tree operand.now)) }
{
    match operand {
        Some(operand) => operand.beside_kinds(alloc),
        None => Ok(Vec::new(alloc)),
    }
}

/// The parts of a call after its operand, and its window.
#[tactic(auto, unfolding(crate::specs::Windowed::over_parts))]
pub(crate) fn over_parts(
    alloc: Global,
    profile: &Profile,
    place: &Place,
    call: &Expr,
    operand: &Option<Typed>,
) -> Result<(Call, Window), TypeErr>
    ensures { Answers (λ parts. parts) result (over_parts profile.now place.now (expr_tree call.now) (option_map typed_tree operand.now)) }
{
    let kinds = kinds_beside(alloc, operand)?;
    let parts = call_typed(alloc, profile, call, &kinds)?;
    let window = over_window(alloc, profile, place, call, operand)?;
    Ok((parts, window))
}
