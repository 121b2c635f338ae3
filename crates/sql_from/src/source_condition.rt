// Conditions at the rows of sources.
//
// An equality of a column and a constant is told by their two cells (`equality`) where both are texts or both
// integers, since most conditions of a translated script ask no more; all else goes by the evaluator.
ghost use Rattle.std.specs.Prelude.{◌≡◌, length, true, false, IfOk, IfSome, Ok};
ghost use Rattle.vtl_decimal.specs.Settings.{Settings};
ghost use Rattle.sql_eval.specs.Placed.{placed_value};
ghost use Rattle.sql_eval.specs.View.{placed_of};
ghost use Rattle.sql_tree.specs.View.{expr_tree};
ghost use Rattle.sql_meaning.specs.Profiles.{IsLawful};
ghost use Rattle.sql_from.specs.Asking.{asks};
ghost use Rattle.sql_from.specs.Held.{base_held};
ghost use Rattle.sql_from.specs.Joins.{told};
ghost use Rattle.sql_from.specs.Standing.{condition_at};
ghost use Rattle.sql_from.specs.Tried.{value_of};

use crate::asking::asks;
use crate::condition::Condition;
use crate::{PartneredRow, Partners, Sources};
use sql_eval::{Cells, Level, Resolved, resolve, value_at};
use sql_tree::SqlExpr;
use std::alloc::{AllocError, Global};
use std::sync::ledger::Ledger;
use vtl_cell::{Cell, ScalarOp, is_same};
use vtl_decimal::Profile;
use vtl_index::Steps;
use vtl_scalar::ScalarErr;

// Whether a column equals a constant, where both are texts or both are integers: many conditions ask no more than this.
// Nothing is told of another condition.
fn equality<R: Cells>(e: &Resolved, at: &R) -> Option<bool>
    ensures { IfSome result (λ b. (p : Settings) → told (placed_value p (R.tables at.now) (placed_of e.now) (R.cells at.now) (R.group at.now)) ≡ Ok b) }
{
    let Resolved::Apply {
        op: ScalarOp::Equal,
        kind: _,
        args,
    } = e
    else {
        return None;
    };
    let [Resolved::Column(place), Resolved::Const(wanted)] = args.as_slice() else {
        return None;
    };
    let cell = at.cell(*place);
    match (cell, wanted) {
        (Cell::Text(_), Cell::Text(_)) | (Cell::Int(_), Cell::Int(_)) => {
            Some(is_same(cell, wanted))
        }
        _ => None,
    }
}

/// A condition at the rows of sources, and look-ups for its EXISTS.
pub(crate) struct SourceCondition<'a> {
    pub(crate) partners: Partners<'a>,
    pub(crate) expression: Resolved,
    pub(crate) profile: &'a Profile,
}

// Written out, so that a proof sees one call and not the drop of each part.
impl Drop for SourceCondition<'_> {
    fn drop(self) {
        let SourceCondition {
            partners: _partners,
            expression: _expression,
            profile: _,
        } = self;
    }
}

// The look-ups for the EXISTS of a condition, where they are wanted. The condition is given resolved, too.
fn wanted_partners<'a, L: Ledger>(
    alloc: Global,
    by_index: bool,
    sources: &'a Sources<'a>,
    condition: &SqlExpr,
    resolved: &Resolved,
    p: &Profile,
    steps: &mut Steps<L>,
) -> Result<Partners<'a>, AllocError>
    requires { by_index ≡ true → IsLawful (base_held p.now sources.now.held) }
    ensures sources { IfOk result (λ x. x ≡ sources.now) }
    ensures steps { asks (expr_tree condition.now) ≡ false → steps.new ≡ steps.old }
{
    let none = Partners::none(alloc, sources);
    if by_index && asks(condition) {
        none.with(alloc, resolved, p, steps)
    } else {
        Ok(none)
    }
}

impl<'a> SourceCondition<'a> {
    /// A condition, with look-ups for its EXISTS where they are wanted. What asks no EXISTS takes no step. It fails only if
    /// memory runs out.
    pub(crate) fn of<L: Ledger>(
        alloc: Global,
        sources: &'a Sources<'a>,
        condition: &SqlExpr,
        by_index: bool,
        p: &'a Profile,
        steps: &mut Steps<L>,
    ) -> Result<SourceCondition<'a>, AllocError>
        requires { by_index ≡ true → IsLawful (base_held p.now sources.now.held) }
        ensures sources { IfOk result (λ c. c.partners ≡ sources.now) }
        ensures value { IfOk result (λ c. value_of c ≡ condition_at p.now sources.now (expr_tree condition.now)) }
        ensures steps { asks (expr_tree condition.now) ≡ false → steps.new ≡ steps.old }
    {
        let resolved = resolve(alloc, p, sources, &Level::Rows, condition)?;
        let expression = resolved.exp;
        Ok(SourceCondition {
            partners: wanted_partners(alloc, by_index, sources, condition, &expression, p, steps)?,
            expression,
            profile: p,
        })
    }
}

impl<'a> Condition for SourceCondition<'a> {
    ghost width = { λ c. length c.partners.sources };

    ghost value = { value_of };

    fn width(&self) -> usize {
        self.partners.sources().len()
    }

    fn is_always(&self) -> bool {
        false
    }

    fn at(&self, alloc: Global, front: &[usize], last: usize) -> Result<bool, ScalarErr> {
        let row = PartneredRow::of(&self.partners, front, last);
        if let Some(is_equal) = equality(&self.expression, &row) {
            return Ok(is_equal);
        }
        let value = value_at(alloc, &self.expression, &row, self.profile)?;
        Ok(matches!(value.cell(), Cell::Bool(true)))
    }
}
