// Operators on operands of given kinds.
ghost use Rattle.std.specs.Prelude.{◌≡◌, IfOk, map};
ghost use Rattle.sql_tree.specs.Trees.{exps_of};
ghost use Rattle.sql_tree.specs.View.{expr_tree};
ghost use Rattle.vtl_cell.specs.AggregateKinds.{aggregate_kind};
ghost use Rattle.vtl_cell.specs.ScalarKinds.{common_kind};
ghost use Rattle.sql_check_parts.specs.Expressions.{aggregate_breaks, call_breaks, case_breaks, condition_breaks, operator_breaks};
ghost use Rattle.sql_check_parts.specs.Kinds.{given_kind, operator_kind};
ghost use Rattle.sql_check_parts.specs.Rules.{least};
ghost use Rattle.sql_check_parts.specs.Scopes.{or_null};
ghost use Rattle.sql_check_parts.specs.Told.{IsTold};

use crate::{Grouping, SqlRule, Test, Told, least_broken, literals_fit, or_null};
use sql_tree::SqlExpr;
use std::alloc::{AllocError, Global};
use vtl_cell::{AggKind, Kind, ScalarOp, aggregate_kind, common_kind, kind_by_operands, meets};
use vtl_decimal::Profile;

/// The kind that an operator gives for operands of these kinds, where they meet it.
pub(crate) fn operator_kind(
    alloc: Global,
    op: ScalarOp,
    kinds: &[Kind],
) -> Result<Option<Kind>, AllocError>
    ensures { IfOk result (λ kind. kind ≡ operator_kind op kinds.now) }
{
    match (op, kinds) {
        (ScalarOp::Replace, [_, _]) => Ok(None),
        _ => kind_by_operands(alloc, op, kinds),
    }
}

/// An operator on operands of these kinds. It fails only if memory runs out.
pub fn operator(alloc: Global, op: ScalarOp, kinds: &[Kind]) -> Result<Told, AllocError>
    ensures { IfOk result (IsTold (given_kind op kinds.now) (operator_breaks op kinds.now)) }
{
    let kind = operator_kind(alloc, op, kinds)?;
    Ok(Told {
        kind: or_null(kind),
        fault: least_broken(&[Test {
            rule: SqlRule::UnfitKind,
            is_broken: kind.is_none(),
        }]),
    })
}

/// A function on operands of these kinds. It fails only if memory runs out.
pub fn call(
    alloc: Global,
    profile: &Profile,
    function: ScalarOp,
    operands: &[SqlExpr],
    kinds: &[Kind],
) -> Result<Told, AllocError>
    ensures { IfOk result (IsTold (given_kind function kinds.now) (call_breaks profile.now function (exps_of (map expr_tree operands.now)) kinds.now)) }
{
    let kind = operator_kind(alloc, function, kinds)?;
    let fit = literals_fit(profile, function, operands);
    Ok(Told {
        kind: or_null(kind),
        fault: least_broken(&[
            Test {
                rule: SqlRule::UnfitKind,
                is_broken: kind.is_none(),
            },
            Test {
                rule: SqlRule::UnfitLiteral,
                is_broken: !fit,
            },
        ]),
    })
}

/// An aggregate of values of a kind.
pub fn aggregate(function: AggKind, kind: Kind, group: &Option<Grouping>) -> Told
    ensures { IsTold (or_null (aggregate_kind function kind)) (aggregate_breaks (aggregate_kind function kind) group.now) result }
{
    let given = aggregate_kind(function, kind);
    Told {
        kind: or_null(given),
        fault: least_broken(&[
            Test {
                rule: SqlRule::UnfitKind,
                is_broken: given.is_none(),
            },
            Test {
                rule: SqlRule::OutsideGroup,
                is_broken: group.is_none(),
            },
        ]),
    }
}

/// CASE with values of these kinds.
pub fn case(kinds: &[Kind]) -> Told
    ensures { IsTold (or_null (common_kind kinds.now)) (case_breaks kinds.now) result }
{
    let kind = common_kind(kinds);
    Told {
        kind: or_null(kind),
        fault: least_broken(&[Test {
            rule: SqlRule::UnfitKind,
            is_broken: kind.is_none(),
        }]),
    }
}

/// A condition of a kind.
pub fn condition_fault(kind: Kind) -> Option<SqlRule>
    ensures { result ≡ least (condition_breaks kind) }
{
    least_broken(&[Test {
        rule: SqlRule::UnfitKind,
        is_broken: !meets(Kind::Bool, kind),
    }])
}
