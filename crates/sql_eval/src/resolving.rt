// Expressions of the dialect, resolved.
ghost use Rattle.std.specs.Prelude.{◌≡◌, IfOk, Ok, map};
ghost use Rattle.vtl_decimal.specs.Settings.{Settings};
ghost use Rattle.vtl_cell.specs.declared.kind.Kind.TheVariants as k;
ghost use Rattle.sql_tree.specs.Trees as tree;
ghost use Rattle.sql_tree.specs.Trees.{exps_of};
ghost use Rattle.sql_tree.specs.View.{branch_tree, expr_tree};
ghost use Rattle.sql_check_parts.specs.Scopes.{Scope, Tables};
ghost use Rattle.sql_eval.specs.Resolves.{AllResolve, BranchesResolve, Resolves, Sight, sight};
ghost use Rattle.sql_eval.specs.declared.names.Level.{Level};

use crate::constants::constant_cell;
use crate::existence::existence;
use crate::kinded::{Branches, Operands};
use crate::names::place_at;
use crate::parts::{aggregated, applied, binary, choice, membership, null_test, unary};
use crate::{Kinded, Level, Names, Resolved};
use sql_check_parts::{constant, or_null};
use sql_tree::{Branch, Column, Constant, Equality, Literal, Source, SqlExpr};
use std::alloc::{AllocError, Global};
use vtl_cell::{AggKind, Kind, ScalarOp};
use vtl_decimal::Profile;

/// An expression, resolved: over tables of these columns, whatever rows they have, it has at each row and group the
/// value that the meaning gives the expression, and it has its kind. It fails only if memory runs out.
#[cycle(resolving)]
#[tactic(auto, using(crate::proofs::Views::views))]
pub fn resolve<N: Names>(
    alloc: Global,
    p: &Profile,
    names: &N,
    level: &Level<'_>,
    e: &SqlExpr,
) -> Result<Kinded, AllocError>
    ensures { IfOk result (Resolves (sight p.now (N.tables names.now) (N.scope names.now) level.now) (expr_tree e.now)) }
{
    match e {
        SqlExpr::Binary { left, op, right } => {
            let left = resolve(alloc, p, names, level, left)?;
            let right = resolve(alloc, p, names, level, right)?;
            binary(alloc, *op, left, right)
        }
        SqlExpr::Unary { op, operand } => signed(alloc, p, names, level, *op, operand),
        SqlExpr::IsNull { operand, negated } => {
            is_null(alloc, p, names, level, operand, *negated)
        }
        SqlExpr::InList {
            operand,
            negated,
            literals,
        } => in_list(
            alloc,
            p,
            names,
            level,
            operand,
            *negated,
            literals.as_slice(),
        ),
        SqlExpr::Constant(value) => constant_of(alloc, p, value),
        SqlExpr::Column(name) => Ok(column(names, level, name)),
        SqlExpr::Call { function, operands } => call(alloc, p, names, level, *function, operands),
        SqlExpr::CountAll => Ok(count_all()),
        SqlExpr::Aggregate { function, operand } => aggregate(alloc, p, names, *function, operand),
        SqlExpr::Case { branches, other } => {
            let branches = all_branches(alloc, p, names, level, branches)?;
            let other = resolve(alloc, p, names, level, other)?;
            choice(branches, other)
        }
        SqlExpr::Exists { source, equalities } => {
            exists(alloc, names, level, source, equalities.as_slice())
        }
    }
}

// `op operand`
#[cycle(resolving)]
fn signed<N: Names>(
    alloc: Global,
    p: &Profile,
    names: &N,
    level: &Level<'_>,
    op: ScalarOp,
    operand: &SqlExpr,
) -> Result<Kinded, AllocError>
    ensures { IfOk result (Resolves (sight p.now (N.tables names.now) (N.scope names.now) level.now) (tree.unary op (expr_tree operand.now))) }
{
    let operand = resolve(alloc, p, names, level, operand)?;
    unary(alloc, op, operand)
}

// `operand IS NULL`, or its contrary
#[cycle(resolving)]
fn is_null<N: Names>(
    alloc: Global,
    p: &Profile,
    names: &N,
    level: &Level<'_>,
    operand: &SqlExpr,
    negated: bool,
) -> Result<Kinded, AllocError>
    ensures { IfOk result (Resolves (sight p.now (N.tables names.now) (N.scope names.now) level.now) (tree.is_null (expr_tree operand.now) negated)) }
{
    let operand = resolve(alloc, p, names, level, operand)?;
    Ok(Kinded {
        exp: null_test(alloc, operand.exp, negated)?,
        kind: Kind::Bool,
    })
}

// `operand IN (literals)`, or its contrary
#[cycle(resolving)]
fn in_list<N: Names>(
    alloc: Global,
    p: &Profile,
    names: &N,
    level: &Level<'_>,
    operand: &SqlExpr,
    negated: bool,
    literals: &[Literal],
) -> Result<Kinded, AllocError>
    ensures { IfOk result (Resolves (sight p.now (N.tables names.now) (N.scope names.now) level.now) (tree.in_list (expr_tree operand.now) negated literals.now)) }
{
    let operand = resolve(alloc, p, names, level, operand)?;
    Ok(Kinded {
        exp: membership(alloc, p, operand.exp, negated, literals)?,
        kind: Kind::Bool,
    })
}

fn constant_of(alloc: Global, p: &Profile, value: &Constant) -> Result<Kinded, AllocError>
    ensures { IfOk result (λ x. (tables : Tables) (scope : Scope) (level : Level) → Resolves (sight p.now tables scope level) (tree.constant value.now) x) }
{
    let kind = constant(alloc, p, value)?.kind;
    Ok(Kinded {
        exp: Resolved::Const(constant_cell(alloc, p, value)?),
        kind,
    })
}

fn column<N: Names>(names: &N, level: &Level<'_>, column: &Column) -> Kinded
    ensures { (p : Settings) → Resolves (sight p (N.tables names.now) (N.scope names.now) level.now) (tree.column column.now) result }
{
    Kinded {
        exp: Resolved::Column(place_at(names, level, column)),
        kind: or_null(names.kind(column)),
    }
}

fn count_all() -> Kinded
    ensures { (s : Sight) → Resolves s tree.count_all result }
{
    Kinded {
        exp: Resolved::CountAll,
        kind: Kind::Int,
    }
}

// The operands of a call.
#[cycle(resolving)]
fn all<N: Names>(
    alloc: Global,
    p: &Profile,
    names: &N,
    level: &Level<'_>,
    exps: &[SqlExpr],
) -> Result<Operands, AllocError>
    ensures { IfOk result (AllResolve (sight p.now (N.tables names.now) (N.scope names.now) level.now) (exps_of (map expr_tree exps.now))) }
{
    let mut operands = Operands::new(alloc);
    for e in exps {
        operands.put(resolve(alloc, p, names, level, e)?)?;
    }
    Ok(operands)
}

// `function(operands)`
#[cycle(resolving)]
fn call<N: Names>(
    alloc: Global,
    p: &Profile,
    names: &N,
    level: &Level<'_>,
    function: ScalarOp,
    operands: &[SqlExpr],
) -> Result<Kinded, AllocError>
    ensures { IfOk result (Resolves (sight p.now (N.tables names.now) (N.scope names.now) level.now) (tree.call function (exps_of (map expr_tree operands.now)))) }
{
    let operands = all(alloc, p, names, level, operands)?;
    applied(alloc, function, operands)
}

// An aggregate, whose operand stands at the rows of the group.
#[cycle(resolving)]
fn aggregate<N: Names>(
    alloc: Global,
    p: &Profile,
    names: &N,
    function: AggKind,
    operand: &SqlExpr,
) -> Result<Kinded, AllocError>
    ensures { IfOk result (λ x. (level : Level) → Resolves (sight p.now (N.tables names.now) (N.scope names.now) level) (tree.aggregate function (expr_tree operand.now)) x) }
{
    let rows = Level::Rows;
    let operand = resolve(alloc, p, names, &rows, operand)?;
    aggregated(alloc, function, operand)
}

// The branches of CASE.
#[cycle(resolving)]
fn all_branches<N: Names>(
    alloc: Global,
    p: &Profile,
    names: &N,
    level: &Level<'_>,
    branches: &[Branch],
) -> Result<Branches, AllocError>
    ensures { IfOk result (BranchesResolve (sight p.now (N.tables names.now) (N.scope names.now) level.now) (tree.branches_of (map branch_tree branches.now))) }
{
    let mut resolved = Branches::new(alloc);
    for branch in branches {
        let condition = resolve(alloc, p, names, level, &branch.condition)?;
        let value = resolve(alloc, p, names, level, &branch.value)?;
        resolved.put(condition.exp, value)?;
    }
    Ok(resolved)
}

// EXISTS.
fn exists<N: Names>(
    alloc: Global,
    names: &N,
    level: &Level<'_>,
    source: &Source,
    equalities: &[Equality],
) -> Result<Kinded, AllocError>
    ensures { IfOk result (λ x. (p : Settings) → Resolves (sight p (N.tables names.now) (N.scope names.now) level.now) (tree.exists source.now equalities.now) x) }
{
    Ok(Kinded {
        exp: Resolved::Exists(existence(alloc, names, level, source, equalities)?),
        kind: Kind::Bool,
    })
}
