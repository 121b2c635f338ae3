// The parts of analytic calls.
ghost use Rattle.std.specs.Prelude.{◌≡◌};
ghost use Rattle.check_faults.specs.Answers.{Answers};
ghost use Rattle.vtl_syntax.specs.View.{expr_tree};
ghost use Rattle.check_groups.specs.Windowed.{call_typed, default_typed, is_ordered, is_unframed, of_aggregate, of_shift, of_window, shift_call, suits, window_needed};

use check_faults::TypeErr;
use check_values::{literal, literal_kind, met_beside, points};
use std::alloc::Global;
use vtl_cell::{Cell, Kind};
use vtl_decimal::Profile;
use vtl_syntax::{AggregateName, Expr, Literal, ShiftName, ValueWindowName};
use vtl_text::Txt;
use vtl_tree::{AnalyticOp, Window};

/// What an analytic call asks of its window.
#[derive(Clone, Copy, Debug, PartialEq, Eq)]
pub enum Needed {
    /// Any order and any frame.
    Nothing,
    /// An order, and no frame.
    Ranked,
    /// Neither.
    Whole,
}

/// An analytic call without its operand and its window.
#[derive(Drop)]
pub struct Call {
    /// The operator; a median is not one.
    pub op: Option<AnalyticOp>,
    /// What it asks of its window.
    pub needed: Needed,
}

fn of_aggregate(function: AggregateName) -> Option<AnalyticOp>
    ensures { result ≡ of_aggregate function }
{
    match function {
        AggregateName::Sum => Some(AnalyticOp::Sum),
        AggregateName::Avg => Some(AnalyticOp::Avg),
        AggregateName::Count => Some(AnalyticOp::Count),
        AggregateName::Min => Some(AnalyticOp::Min),
        AggregateName::Max => Some(AnalyticOp::Max),
        AggregateName::Median => None,
    }
}

fn of_window(function: ValueWindowName) -> AnalyticOp
    ensures { result ≡ of_window function }
{
    match function {
        ValueWindowName::FirstValue => AnalyticOp::FirstValue,
        ValueWindowName::LastValue => AnalyticOp::LastValue,
        ValueWindowName::RatioToReport => AnalyticOp::RatioToReport,
    }
}

fn window_needed(function: ValueWindowName) -> Needed
    ensures { result ≡ window_needed function }
{
    match function {
        ValueWindowName::FirstValue | ValueWindowName::LastValue => Needed::Nothing,
        ValueWindowName::RatioToReport => Needed::Whole,
    }
}

fn of_shift(function: ShiftName, offset: u32, default: Cell) -> AnalyticOp
    ensures { result ≡ of_shift function offset default }
{
    match function {
        ShiftName::Lag => AnalyticOp::Lag { offset, default },
        ShiftName::Lead => AnalyticOp::Lead { offset, default },
    }
}

// The default of `lag` and `lead` on an operand whose values have these kinds: null where none is written.
fn default(
    alloc: Global,
    profile: &Profile,
    kinds: &[Kind],
    value: &Option<Literal>,
) -> Result<Cell, TypeErr>
    ensures { Answers (λ cell. cell) result (default_typed profile.now kinds.now value.now) }
{
    match value {
        Some(value) => {
            met_beside(kinds, literal_kind(value))?;
            literal(alloc, profile, value)
        }
        None => Ok(Cell::Null),
    }
}

#[tactic(auto, unfolding(crate::specs::Windowed::shift_call))]
fn shift_call(
    alloc: Global,
    profile: &Profile,
    function: ShiftName,
    digits: &Txt,
    value: &Option<Literal>,
    kinds: &[Kind],
) -> Result<Call, TypeErr>
    ensures { Answers (λ call. call) result (shift_call profile.now function digits.now value.now kinds.now) }
{
    let offset = points(profile, digits)?;
    let default = default(alloc, profile, kinds, value)?;
    Ok(Call {
        op: Some(of_shift(function, offset, default)),
        needed: Needed::Ranked,
    })
}

/// The parts of a call between its operand, whose values have these kinds, and its window.
pub(crate) fn call_typed(
    alloc: Global,
    profile: &Profile,
    call: &Expr,
    kinds: &[Kind],
) -> Result<Call, TypeErr>
    ensures { Answers (λ call. call) result (call_typed profile.now (expr_tree call.now) kinds.now) }
{
    match call {
        Expr::AggregateOver { function, .. } => Ok(Call {
            op: of_aggregate(*function),
            needed: Needed::Nothing,
        }),
        Expr::ValueWindow { function, .. } => Ok(Call {
            op: Some(of_window(*function)),
            needed: window_needed(*function),
        }),
        Expr::Shift {
            function,
            points,
            default,
            ..
        } => shift_call(alloc, profile, *function, points, default, kinds),
        _ => Ok(Call {
            op: Some(AnalyticOp::Rank),
            needed: Needed::Ranked,
        }),
    }
}

fn is_ordered(window: &Window) -> bool
    ensures { result ≡ is_ordered window.now }
{
    window.order.as_slice().len() != 0
}

fn is_unframed(window: &Window) -> bool
    ensures { result ≡ is_unframed window.now }
{
    window.frame.is_none()
}

/// Whether a window is what a call asks for.
pub(crate) fn suits(needed: Needed, window: &Window) -> bool
    ensures { result ≡ suits needed window.now }
{
    match needed {
        Needed::Nothing => true,
        Needed::Ranked => is_ordered(window) && is_unframed(window),
        Needed::Whole => !is_ordered(window) && is_unframed(window),
    }
}
