// The time operator that is written.
ghost use Rattle.std.specs.Prelude.{◌≡◌};
ghost use Rattle.check_faults.specs.Answers.{Answers};
ghost use Rattle.check_times.specs.Timed.{operator_typed, signed};

use check_faults::TypeErr;
use check_values::points;
use vtl_decimal::Profile;
use vtl_syntax::{Filling, TimeCall};
use vtl_tree::TimeOp;

fn signed(negative: bool, periods: u32) -> i64
    ensures { result ≡ signed negative periods }
{
    let periods = i64::from(periods);
    if negative { -periods } else { periods }
}

/// The operator. It breaks `WrongLiteral` where a period would be shifted too far.
#[tactic(auto, unfolding(crate::specs::Timed::operator_typed))]
pub(crate) fn operator_typed(profile: &Profile, call: &TimeCall) -> Result<TimeOp, TypeErr>
    ensures { Answers (λ o. o) result (operator_typed profile.now call.now) }
{
    match call {
        TimeCall::Timeshift { negative, periods } => {
            let periods = points(profile, periods)?;
            Ok(TimeOp::Shift(signed(*negative, periods)))
        }
        TimeCall::FillTimeSeries(filling) => Ok(TimeOp::Fill(filling.unwrap_or(Filling::All))),
        TimeCall::FlowToStock => Ok(TimeOp::FlowToStock),
        TimeCall::StockToFlow => Ok(TimeOp::StockToFlow),
    }
}
