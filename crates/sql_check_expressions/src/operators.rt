// Operators, once their operands are typed.
ghost use Rattle.std.specs.Option.{is_none};
ghost use Rattle.std.specs.Prelude.{◌≡◌, ◌++◌, ◌∷◌, [], IfOk};
ghost use Rattle.vtl_cell.specs.ScalarKinds.{common_kind};
ghost use Rattle.vtl_cell.specs.declared.kind.Kind.TheVariants as k;
ghost use Rattle.sql_check_parts.specs.Expressions.{case_breaks, operator_breaks};
ghost use Rattle.sql_check_parts.specs.Exists.{exists_breaks};
ghost use Rattle.sql_check_parts.specs.Kinds.{given_kind};
ghost use Rattle.sql_check_parts.specs.Rules.{broken, lesser};
ghost use Rattle.sql_check_parts.specs.Scopes.{or_null};
ghost use Rattle.sql_check_parts.specs.Told.{IsTold};
ghost use Rattle.sql_check_expressions.specs.Told.{IsBehind};

use crate::Site;
use crate::parts::Parts;
use sql_check_parts::{
    self, Grouping, SqlRule, Test, Told, exists, least_broken, lesser, operator,
};
use sql_tree::{Equality, Source};
use std::alloc::{AllocError, Global};
use vtl_cell::{Kind, ScalarOp};
use vtl_text::List;

// What is known after parts with a fault.
pub(crate) fn behind(before: Option<SqlRule>, own: Told) -> Told
    ensures kind { result.kind ≡ own.kind }
    ensures fault { result.fault ≡ lesser before own.fault }
{
    Told {
        kind: own.kind,
        fault: lesser(before, own.fault),
    }
}

// A truth value with a fault.
pub(crate) fn truth(fault: Option<SqlRule>) -> Told
    ensures kind { result.kind ≡ k.Bool }
    ensures fault { result.fault ≡ fault }
{
    Told {
        kind: Kind::Bool,
        fault,
    }
}

// `COUNT(*)`
pub(crate) fn count_all(group: &Option<Grouping>) -> Told
    ensures { IsTold k.Int (broken ((SqlRule.OutsideGroup, is_none group.now) ∷ [])) result }
{
    Told {
        kind: Kind::Int,
        fault: least_broken(&[Test {
            rule: SqlRule::OutsideGroup,
            is_broken: group.is_none(),
        }]),
    }
}

// EXISTS.
pub(crate) fn existence(
    alloc: Global,
    at: &Site,
    group: &Option<Grouping>,
    source: &Source,
    equalities: &List<Equality>,
) -> Result<Told, AllocError>
    ensures { IfOk result (IsTold k.Bool (exists_breaks at.now.tables at.now.scope group.now source.now equalities.now)) }
{
    let fault = exists(
        alloc,
        at.tables,
        at.scope,
        group,
        source,
        equalities.as_slice(),
    )?;
    Ok(truth(fault))
}

// `left op right`
pub(crate) fn binary(
    alloc: Global,
    op: ScalarOp,
    left: Told,
    right: Told,
) -> Result<Told, AllocError>
    ensures { IfOk result (IsBehind (lesser left.fault right.fault) (given_kind op (left.kind ∷ right.kind ∷ [])) (operator_breaks op (left.kind ∷ right.kind ∷ []))) }
{
    let own = operator(alloc, op, &[left.kind, right.kind])?;
    Ok(behind(lesser(left.fault, right.fault), own))
}

// CASE with branches and the value for the case that none is taken.
pub(crate) fn case(branches: Parts, other: Told) -> Result<Told, AllocError>
    ensures { IfOk result (IsBehind (lesser branches.fault other.fault) (or_null (common_kind (branches.kinds.items ++ other.kind ∷ []))) (case_breaks (branches.kinds.items ++ other.kind ∷ []))) }
{
    let mut branches = branches;
    branches.put(other)?;
    Ok(behind(branches.fault, sql_check_parts::case(&branches.kinds)))
}
