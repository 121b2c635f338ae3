// Values that are lent or made, and operators on them.
ghost use Rattle.std.specs.Prelude.{◌≡◌, ◌∷◌, [], IfOk};
ghost use Rattle.vtl_cell.specs.Conversion.{as_kind};
ghost use Rattle.vtl_cell.specs.Outcome.{Outcome, after};
ghost use Rattle.vtl_cell.specs.Outcomes.{first_chosen, result_of};
ghost use Rattle.vtl_cell.specs.declared.cell.Cell.{Cell};
ghost use Rattle.vtl_scalar.specs.Answers.{Answers, AnswersBy};
ghost use Rattle.vtl_scalar.specs.Given.{given_cell};

use crate::{ScalarErr, apply_one, apply_three, apply_two, to_kind};
use std::alloc::{AllocError, Global};
use vtl_cell::{Cell, Kind, ScalarOp, clone_cell};
use vtl_decimal::Profile;

/// A value that an expression gives: one that stands in a row or in the expression is lent.
pub enum Given<'v> {
    /// A value that stands elsewhere.
    Lent(&'v Cell),
    /// A new value.
    Made(Cell),
}

// Written out, so that a proof above sees one call and not the drop of each part.
impl Drop for Given<'_> {
    fn drop(self) {
        match self {
            Given::Lent(_) => {}
            Given::Made(_cell) => {}
        }
    }
}

impl<'v> Given<'v> {
    /// The value.
    pub fn cell(&self) -> &Cell
        ensures { result.now ≡ given_cell self.now }
    {
        match self {
            Given::Lent(cell) => cell,
            Given::Made(cell) => cell,
        }
    }

    /// The value, owned: a lent one is copied, and shares its text. It fails only if memory runs out.
    pub fn into_cell(self) -> Result<Cell, AllocError>
        ensures { IfOk result (λ cell. cell ≡ given_cell self.entry) }
    {
        match self {
            Given::Lent(cell) => clone_cell(cell),
            Given::Made(cell) => Ok(cell),
        }
    }
}

/// Whether a condition chooses its branch: null does not. Of a value that is no boolean nothing is said.
pub fn first_chosen(test: &Cell) -> Option<bool>
    ensures { result ≡ first_chosen test.now }
{
    match test {
        Cell::Bool(b) => Some(*b),
        Cell::Null => Some(false),
        _ => None,
    }
}

/// A new value, as one of the kind; or its fault.
pub fn made_of_kind<'v>(
    answer: Result<Cell, ScalarErr>,
    kind: Kind,
    p: &Profile,
) -> Result<Given<'v>, ScalarErr>
    ensures { (m : Outcome Cell) → Answers answer m → AnswersBy given_cell result (after m (as_kind p.now kind)) }
{
    Ok(Given::Made(to_kind(kind, answer?, p)?))
}

/// The answer, as a value of the kind; or its fault. One that is of it stays where it is.
pub fn given_of_kind<'v>(
    answer: Result<Given<'v>, ScalarErr>,
    kind: Kind,
    p: &Profile,
) -> Result<Given<'v>, ScalarErr>
    ensures { (m : Outcome Cell) → AnswersBy given_cell answer.entry m → AnswersBy given_cell result (after m (as_kind p.now kind)) }
{
    let given = answer?;
    if let (Kind::Num, Cell::Int(n)) = (kind, given.cell()) {
        return made_of_kind(Ok(Cell::Int(*n)), kind, p);
    }
    Ok(given)
}

/// The value of an operator on one operand, as one of its kind; or the first fault from the left, or its own.
pub fn value_of_one<'v>(
    alloc: Global,
    op: ScalarOp,
    kind: Kind,
    a: Result<Given<'v>, ScalarErr>,
    p: &Profile,
) -> Result<Given<'v>, ScalarErr>
    ensures { (m : Outcome Cell) → AnswersBy given_cell a.entry m → AnswersBy given_cell result (after m (λ x. result_of p.now op kind (x ∷ []))) }
{
    made_of_kind(apply_one(alloc, op, a?.cell(), p), kind, p)
}

/// The value of an operator on two operands, as one of its kind; or the first fault from the left, or its own.
pub fn value_of_two<'v>(
    alloc: Global,
    op: ScalarOp,
    kind: Kind,
    a: Result<Given<'v>, ScalarErr>,
    b: Result<Given<'v>, ScalarErr>,
    p: &Profile,
) -> Result<Given<'v>, ScalarErr>
    ensures { (m n : Outcome Cell) → AnswersBy given_cell a.entry m → AnswersBy given_cell b.entry n → AnswersBy given_cell result (after m (λ x. after n (λ y. result_of p.now op kind (x ∷ y ∷ [])))) }
{
    made_of_kind(apply_two(alloc, op, a?.cell(), b?.cell(), p), kind, p)
}

/// The value of an operator on three operands, as one of its kind; or the first fault from the left, or its own.
pub fn value_of_three<'v>(
    alloc: Global,
    op: ScalarOp,
    kind: Kind,
    a: Result<Given<'v>, ScalarErr>,
    b: Result<Given<'v>, ScalarErr>,
    c: Result<Given<'v>, ScalarErr>,
    p: &Profile,
) -> Result<Given<'v>, ScalarErr>
    ensures { (m n o : Outcome Cell) → AnswersBy given_cell a.entry m → AnswersBy given_cell b.entry n → AnswersBy given_cell c.entry o → AnswersBy given_cell result (after m (λ x. after n (λ y. after o (λ z. result_of p.now op kind (x ∷ y ∷ z ∷ []))))) }
{
    made_of_kind(
        apply_three(alloc, op, a?.cell(), b?.cell(), c?.cell(), p),
        kind,
        p,
    )
}
