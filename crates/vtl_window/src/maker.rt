// What makes a column of the result.
ghost use Rattle.std.specs.Option.{option_map};
ghost use Rattle.std.specs.Prelude.{◌≡◌, map};
ghost use Rattle.vtl_meaning.specs.Analytics.{item_named, value_for};
ghost use Rattle.vtl_tree.specs.NodeView.{analytic_tree, item_tree, value_tree};
ghost use Rattle.vtl_window.specs.Calls.{lent, maker_tree};

use crate::call::Call;
use vtl_text::Txt;
use vtl_tree::{
    AnalyticCall, AnalyticSpec, CalcItem, CalcValue, CompExpr, Component, Role, is_same_role,
};

/// What makes a column, lent.
#[derive(Clone, Copy)]
pub(crate) enum Maker<'a> {
    /// An expression, by its values at each point.
    Scalar(&'a CompExpr),
    /// A call over a window.
    Analytic(Call<'a>),
}

// A call, lent.
fn lent_call<'a>(call: &'a AnalyticCall) -> Call<'a>
    ensures { lent result ≡ call.now }
{
    Call {
        op: &call.op,
        component: match &call.component {
            Some(name) => Some(name),
            None => None,
        },
        window: &call.window,
    }
}

// The value of a target, lent.
fn lent_value<'a>(value: &'a CalcValue) -> Maker<'a>
    ensures { maker_tree result ≡ value_tree value.now }
{
    match value {
        CalcValue::Scalar(e) => Maker::Scalar(e),
        CalcValue::Analytic(call) => Maker::Analytic(lent_call(call)),
    }
}

// The target of a name.
fn item_named<'a>(items: &'a [CalcItem], name: &Txt) -> Option<&'a CalcItem>
    ensures { option_map (λ i. item_tree i.now) result ≡ item_named (map item_tree items.now) name.now }
{
    for item in items {
        if item.target == *name {
            return Some(item);
        }
    }
    None
}

/// What makes a column; none where the column stays.
pub(crate) fn maker_of<'a>(spec: &'a AnalyticSpec, column: &'a Component) -> Option<Maker<'a>>
    ensures { option_map maker_tree result ≡ value_for (analytic_tree spec.now) column.now }
{
    match spec {
        AnalyticSpec::Measures { op, window } => {
            if is_same_role(column.role, Role::Measure) {
                let component = Some(&column.name);
                Some(Maker::Analytic(Call {
                    op,
                    component,
                    window,
                }))
            } else {
                None
            }
        }
        AnalyticSpec::Calc(items) => {
            let item = item_named(items.as_slice(), &column.name)?;
            Some(lent_value(&item.value))
        }
    }
}
