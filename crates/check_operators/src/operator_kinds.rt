// Operators by the kinds that they take and give: on a measure between values, and on a measure and its namesake.
ghost use Rattle.std.specs.Prelude.{◌≡◌, ◌++◌, ◌∷◌, IfOk};
ghost use Rattle.vtl_cell.specs.ScalarKinds.{kinds_of};
ghost use Rattle.check_operators.specs.Operators.{between_kinds, given_by};

use check_shapes::Operator;
use std::alloc::{AllocError, Global};
use vtl_cell::{Kind, ScalarOp, operator_kind};

/// The kinds that an operator between values gives for a measure, for each kind that the measure may have.
#[derive(Clone, Copy)]
pub(crate) struct GivenKinds {
    null: Option<Kind>,
    boolean: Option<Kind>,
    int: Option<Kind>,
    num: Option<Kind>,
    text: Option<Kind>,
    day: Option<Kind>,
    period: Option<Kind>,
}

impl Operator for GivenKinds {
    ghost use Rattle.check_operators.specs.Operators.{given_by};

    ghost gives = { given_by };

    fn gives(&self, measure: Kind, _: Kind) -> Option<Kind> {
        match measure {
            Kind::Null => self.null,
            Kind::Bool => self.boolean,
            Kind::Int => self.int,
            Kind::Num => self.num,
            Kind::Text => self.text,
            Kind::Day => self.day,
            Kind::Period => self.period,
        }
    }
}

// The kind that an operator gives for a measure of one kind between values of these kinds.
fn given_kind(
    alloc: Global,
    op: ScalarOp,
    before: &[Kind],
    measure: Kind,
    after: &[Kind],
) -> Result<Option<Kind>, AllocError>
    ensures { IfOk result (λ kind. kind ≡ kinds_of op (before.now ++ measure ∷ after.now)) }
{
    let mut kinds = Vec::new(alloc);
    kinds.extend_from_slice(before)?;
    kinds.push(measure)?;
    kinds.extend_from_slice(after)?;
    Ok(operator_kind(op, &kinds))
}

/// The kinds that an operator gives for measures between values of these kinds.
pub(crate) fn between_kinds(
    alloc: Global,
    op: ScalarOp,
    before: &[Kind],
    after: &[Kind],
) -> Result<GivenKinds, AllocError>
    ensures { IfOk result (λ given. given_by given ≡ between_kinds op before.now after.now) }
{
    Ok(GivenKinds {
        null: given_kind(alloc, op, before, Kind::Null, after)?,
        boolean: given_kind(alloc, op, before, Kind::Bool, after)?,
        int: given_kind(alloc, op, before, Kind::Int, after)?,
        num: given_kind(alloc, op, before, Kind::Num, after)?,
        text: given_kind(alloc, op, before, Kind::Text, after)?,
        day: given_kind(alloc, op, before, Kind::Day, after)?,
        period: given_kind(alloc, op, before, Kind::Period, after)?,
    })
}

/// An operator on a measure and its namesake.
#[derive(Clone, Copy)]
pub(crate) struct OfTwo {
    /// The operator.
    pub(crate) op: ScalarOp,
}

impl Operator for OfTwo {
    ghost use Rattle.check_operators.specs.Operators.{of_two};

    ghost gives = { λ s. of_two s.op };

    fn gives(&self, measure: Kind, namesake: Kind) -> Option<Kind> {
        operator_kind(self.op, &[measure, namesake])
    }
}
