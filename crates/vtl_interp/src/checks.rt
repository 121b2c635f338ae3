// `check`, of an operand and, where one is written, an imbalance.
ghost use Rattle.std.specs.Prelude.{◌≡◌, Ok, option_map};
ghost use Rattle.vtl_scalar.specs.Answers.{AnswersBy};
ghost use Rattle.vtl_sets.specs.DataSets.{data_set};
ghost use Rattle.vtl_rulings.specs.PointChecks.{check_of};
ghost use Rattle.vtl_rulings.specs.Shaped.{IsChecked};
ghost use Rattle.vtl_rules.specs.Imbalances.{lent};
ghost use Rattle.vtl_interp.specs.Values.{maybe_view, value_view};

use crate::value::Value;
use std::alloc::Global;
use vtl_decimal::Profile;
use vtl_scalar::ScalarErr;
use vtl_sets::DataSet;
use vtl_tree::{CheckSpec, Structure};

// The data set of an imbalance, lent.
fn lent<'v, 'a>(imbalance: &'v Option<Value<'a>>) -> Option<&'v DataSet>
    ensures { lent result ≡ maybe_view imbalance.now }
{
    match imbalance {
        Some(value) => Some(value.data()),
        None => None,
    }
}

/// `check`
pub fn check<'a>(
    alloc: Global,
    tested: Value<'a>,
    imbalance: Option<Value<'a>>,
    spec: &CheckSpec,
    p: &Profile,
    made: &Structure,
) -> Result<Value<'a>, ScalarErr>
    requires { IsChecked p.now spec.now (option_map (λ d. d.structure) (maybe_view imbalance)) (value_view tested).structure made.now }
    ensures { AnswersBy value_view result (Ok (data_set made.now (check_of p.now spec.now (value_view tested.entry) (maybe_view imbalance.entry)))) }
{
    let other = lent(&imbalance);
    Ok(Value::Made(vtl_rules::check(alloc, tested.data(), other, spec, p, made)?))
}
