// Operators, sets and CASE on resolved operands.
ghost use Rattle.std.specs.Prelude.{◌≡◌, ◌++◌, ◌∷◌, [], true, IfOk, List, Ok, map};
ghost use Rattle.vtl_cell.specs.Row.{Row};
ghost use Rattle.vtl_cell.specs.ScalarKinds.{common_kind};
ghost use Rattle.vtl_decimal.specs.Settings.{Settings};
ghost use Rattle.vtl_cell.specs.declared.cell.Cell.TheVariants as c;
ghost use Rattle.vtl_cell.specs.declared.kind.Kind.TheVariants as k;
ghost use Rattle.vtl_cell.specs.AggregateKinds.{aggregate_kind};
ghost use Rattle.sql_tree.specs.Trees.{Text};
ghost use Rattle.sql_check_parts.specs.Kinds.{given_kind};
ghost use Rattle.sql_check_parts.specs.Scopes.{or_null};
ghost use Rattle.sql_meaning.specs.Outcomes.{operated};
ghost use Rattle.sql_meaning.specs.Values.{literal_cell, null_test, set_operator};
ghost use Rattle.sql_eval.specs.Placed.{aggregate, apply, choose, const, placed_value};
ghost use Rattle.sql_eval.specs.View.{branch_of, branches_of, placed_of, placeds_of};

use crate::constants::literal_cells;
use crate::kinded::{Branches, Operands};
use crate::{Kinded, Resolved, ResolvedBranch};
use sql_check_parts::{self, case, operator};
use sql_tree::Literal;
use std::alloc::{AllocError, Global};
use vtl_cell::{AggKind, Cell, Kind, ScalarOp};
use vtl_decimal::Profile;
use vtl_scalar::Members;

/// An operator on operands. It fails only if memory runs out.
#[tactic(auto, using(crate::proofs::Views::views))]
pub(crate) fn applied(alloc: Global, op: ScalarOp, operands: Operands) -> Result<Kinded, AllocError>
    ensures kind { IfOk result (λ x. x.kind ≡ given_kind op operands.kinds.items) }
    ensures exp { IfOk result (λ x. placed_of x.exp ≡ apply op x.kind (placeds_of (map placed_of operands.exps.items))) }
{
    let kind = operator(alloc, op, &operands.kinds)?.kind;
    let Operands {
        exps: args,
        kinds: _kinds,
    } = operands;
    Ok(Kinded {
        exp: Resolved::Apply { op, kind, args },
        kind,
    })
}

/// An operator on one operand. It fails only if memory runs out.
pub(crate) fn unary(alloc: Global, op: ScalarOp, operand: Kinded) -> Result<Kinded, AllocError>
    ensures kind { IfOk result (λ x. x.kind ≡ given_kind op (operand.kind ∷ [])) }
    ensures exp { IfOk result (λ x. placed_of x.exp ≡ apply op x.kind (placeds_of (placed_of operand.exp ∷ []))) }
{
    let mut operands = Operands::new(alloc);
    operands.put(operand)?;
    applied(alloc, op, operands)
}

/// An operator on two operands. It fails only if memory runs out.
pub(crate) fn binary(
    alloc: Global,
    op: ScalarOp,
    left: Kinded,
    right: Kinded,
) -> Result<Kinded, AllocError>
    ensures kind { IfOk result (λ x. x.kind ≡ given_kind op (left.kind ∷ right.kind ∷ [])) }
    ensures exp { IfOk result (λ x. placed_of x.exp ≡ apply op x.kind (placeds_of (placed_of left.exp ∷ placed_of right.exp ∷ []))) }
{
    let mut operands = Operands::new(alloc);
    operands.put(left)?;
    operands.put(right)?;
    applied(alloc, op, operands)
}

// An operator on one operand, whose value is a boolean.
#[tactic(auto, using(crate::proofs::Views::views))]
fn test_of(alloc: Global, op: ScalarOp, operand: Resolved) -> Result<Resolved, AllocError>
    ensures { IfOk result (λ x. placed_of x ≡ apply op k.Bool (placeds_of (placed_of operand ∷ []))) }
{
    let mut args = Vec::new(alloc);
    args.push(operand)?;
    Ok(Resolved::Apply {
        op,
        kind: Kind::Bool,
        args,
    })
}

/// Whether a value is null, or its contrary. It fails only if memory runs out.
#[tactic(auto, using(crate::proofs::Tests::null_is, crate::proofs::Tests::not_null_is))]
pub(crate) fn null_test(
    alloc: Global,
    operand: Resolved,
    negated: bool,
) -> Result<Resolved, AllocError>
    ensures { IfOk result (λ x. (p : Settings) (rows : Text → List Row) (r : Row) (g : List Row) → placed_value p rows (placed_of x) r g ≡ null_test p negated (placed_value p rows (placed_of operand) r g)) }
{
    let test = test_of(alloc, ScalarOp::IsNull, operand)?;
    if negated {
        test_of(alloc, ScalarOp::Not, test)
    } else {
        Ok(test)
    }
}

fn set_operator(negated: bool) -> ScalarOp
    ensures { result ≡ set_operator negated }
{
    if negated {
        ScalarOp::NotIn
    } else {
        ScalarOp::In
    }
}

/// Whether a value is one of literals, or whether it is not. It fails only if memory runs out.
pub(crate) fn membership(
    alloc: Global,
    p: &Profile,
    operand: Resolved,
    negated: bool,
    literals: &[Literal],
) -> Result<Resolved, AllocError>
    ensures { IfOk result (λ x. (rows : Text → List Row) (r : Row) (g : List Row) → placed_value p.now rows (placed_of x) r g ≡ operated p.now k.Bool (placed_value p.now rows (placed_of operand) r g ∷ map (λ l. Ok (literal_cell p.now l)) literals.now) (set_operator negated)) }
{
    let cells = literal_cells(alloc, p, literals)?;
    if cells.is_empty() {
        return test_of(alloc, set_operator(negated), operand);
    }
    let members = Members::of(alloc, &cells)?;
    Ok(Resolved::Membership {
        operand: Box::new(alloc, operand)?,
        negated,
        members,
    })
}

// ELSE as a branch that is always chosen.
#[tactic(auto, using(crate::proofs::Views::views))]
fn with_last(
    branches: Vec<ResolvedBranch>,
    last: Resolved,
) -> Result<Vec<ResolvedBranch>, AllocError>
    ensures { IfOk result (λ v. map branch_of v.items ≡ map branch_of branches.items ++ (const (c.Bool true), placed_of last) ∷ []) }
{
    let mut branches = branches;
    branches.push(ResolvedBranch {
        condition: Resolved::Const(Cell::Bool(true)),
        value: last,
    })?;
    Ok(branches)
}

/// CASE of branches and a last value. It fails only if memory runs out.
#[tactic(auto, using(crate::proofs::Views::views))]
pub(crate) fn choice(branches: Branches, other: Kinded) -> Result<Kinded, AllocError>
    ensures kind { IfOk result (λ x. x.kind ≡ or_null (common_kind (branches.kinds.items ++ other.kind ∷ []))) }
    ensures exp { IfOk result (λ x. placed_of x.exp ≡ choose x.kind (branches_of (map branch_of branches.branches.items ++ (const (c.Bool true), placed_of other.exp) ∷ []))) }
{
    let Branches {
        branches,
        mut kinds,
    } = branches;
    let Kinded { exp, kind } = other;
    kinds.push(kind)?;
    let kind = case(&kinds).kind;
    Ok(Kinded {
        exp: Resolved::Choose {
            kind,
            branches: with_last(branches, exp)?,
        },
        kind,
    })
}

/// An aggregate of an operand. It fails only if memory runs out.
#[tactic(auto, using(crate::proofs::Views::views))]
pub(crate) fn aggregated(
    alloc: Global,
    function: AggKind,
    operand: Kinded,
) -> Result<Kinded, AllocError>
    ensures kind { IfOk result (λ x. x.kind ≡ or_null (aggregate_kind function operand.kind)) }
    ensures exp { IfOk result (λ x. placed_of x.exp ≡ aggregate function (placed_of operand.exp)) }
{
    let Kinded { exp, kind } = operand;
    let kind = sql_check_parts::aggregate(function, kind, &None).kind;
    Ok(Kinded {
        exp: Resolved::Aggregate {
            function,
            operand: Box::new(alloc, exp)?,
        },
        kind,
    })
}
