// The kinds of windows that are typed.
//
// The kind of a window is that of a typed one: that of LAG and LEAD is their column's, and the literal behind is not
// asked again.
ghost use Rattle.std.specs.Prelude.{◌≡◌, IsSome};
ghost use Rattle.sql_check_parts.specs.Windows.{call_kind, window_kind};

use sql_check_parts::or_null;
use sql_eval::Names;
use sql_tree::{ValueFunction, Window, WindowCall};
use vtl_cell::{Kind, aggregate_kind, number_of};

// The kind that a call gives: LAG and LEAD that of their column, whose default is of that kind.
fn call_kind<N: Names>(names: &N, call: &WindowCall) -> Option<Kind>
    requires { IsSome (call_kind (N.scope names.now) call.now) }
    ensures { result ≡ call_kind (N.scope names.now) call.now }
{
    match call {
        WindowCall::Aggregate { function, column } => {
            aggregate_kind(*function, or_null(names.kind(column)))
        }
        WindowCall::Value {
            function: ValueFunction::RatioToReport,
            column,
        } => number_of(or_null(names.kind(column))),
        WindowCall::Value { column, .. } | WindowCall::Shift { column, .. } => {
            Some(or_null(names.kind(column)))
        }
        WindowCall::Rank => Some(Kind::Int),
    }
}

/// The kind of a window.
pub(crate) fn window_kind<N: Names>(names: &N, window: &Window) -> Kind
    requires { IsSome (call_kind (N.scope names.now) window.now.call) }
    ensures { result ≡ window_kind (N.scope names.now) window.now }
{
    or_null(call_kind(names, &window.call))
}
