// Component expressions in SQL.
//
// The columns that name the components are a function of place and name (`Naming`), not one alias: so the expressions
// that VTL's meaning evaluates are items of a select as they stand, over one source and over two, and one law serves
// every node.
//
// An aggregate's component is named without a place, as the typed tree has it: over groups there is one source, in
// which a column goes by its name alone.
ghost use Rattle.std.specs.Prelude.{◌≡◌, IfOk, false, map, true};
ghost use Rattle.sql_tree.specs.Trees as tree;
ghost use Rattle.sql_tree.specs.Trees.{exps_of};
ghost use Rattle.sql_tree.specs.View.{expr_tree};
ghost use Rattle.vtl_tree.specs.View.{comp_exp_of, comp_exps_of};
ghost use Rattle.expressions_to_sql.specs.Aliases.{naming};
ghost use Rattle.expressions_to_sql.specs.Held.{AllHold, HoldsValues, IsMemberHeld, OperandsHold, asks_a_set};
ghost use Rattle.expressions_to_sql.specs.ToSql.{aggregate_to_sql, all_to_sql, call_to_sql, empty_text, member_to_sql, members_to_sql, to_sql};

use crate::Aliases;
use crate::constants::{const_to_sql, literal_to_sql};
use crate::forms::{CallForm, form_at};
use sql_tree::{Branch, Constant, Literal, SqlExpr};
use std::alloc::{AllocError, Global};
use vtl_cell::{AggKind, ScalarOp};
use vtl_decimal::Profile;
use vtl_text::{List, Txt};
use vtl_tree::CompExpr;

// ---- operators on operands that are in SQL

#[tactic(auto, using(crate::proofs::Views::views))]
fn null_test(alloc: Global, operand: SqlExpr) -> Result<SqlExpr, AllocError>
    ensures { IfOk result (λ x. expr_tree x ≡ tree.is_null (expr_tree operand) false) }
{
    Ok(SqlExpr::IsNull {
        operand: Box::new(alloc, operand)?,
        negated: false,
    })
}

#[tactic(auto, using(crate::proofs::Views::views))]
fn in_set(
    alloc: Global,
    operand: SqlExpr,
    negated: bool,
    literals: Vec<Literal>,
) -> Result<SqlExpr, AllocError>
    ensures { IfOk result (λ x. expr_tree x ≡ tree.in_list (expr_tree operand) negated literals.items) }
{
    Ok(SqlExpr::InList {
        operand: Box::new(alloc, operand)?,
        negated,
        literals: List::of(literals),
    })
}

#[tactic(auto, using(crate::proofs::Views::views))]
fn choice(
    alloc: Global,
    condition: SqlExpr,
    value: SqlExpr,
    other: SqlExpr,
) -> Result<SqlExpr, AllocError>
    ensures { IfOk result (λ x. expr_tree x ≡ tree.case_when (tree.branch (expr_tree condition) (expr_tree value) tree.no_branches) (expr_tree other)) }
{
    let mut branches = Vec::new(alloc);
    branches.push(Branch { condition, value })?;
    Ok(SqlExpr::Case {
        branches,
        other: Box::new(alloc, other)?,
    })
}

#[tactic(auto, using(crate::proofs::Views::views))]
fn between(
    alloc: Global,
    left: SqlExpr,
    op: ScalarOp,
    right: SqlExpr,
) -> Result<SqlExpr, AllocError>
    ensures { IfOk result (λ x. expr_tree x ≡ tree.binary (expr_tree left) op (expr_tree right)) }
{
    Ok(SqlExpr::Binary {
        left: Box::new(alloc, left)?,
        op,
        right: Box::new(alloc, right)?,
    })
}

#[tactic(auto, using(crate::proofs::Views::views))]
fn before(alloc: Global, op: ScalarOp, operand: SqlExpr) -> Result<SqlExpr, AllocError>
    ensures { IfOk result (λ x. expr_tree x ≡ tree.unary op (expr_tree operand)) }
{
    Ok(SqlExpr::Unary {
        op,
        operand: Box::new(alloc, operand)?,
    })
}

#[tactic(auto, using(crate::proofs::Views::views))]
fn call(function: ScalarOp, operands: Vec<SqlExpr>) -> SqlExpr
    ensures { expr_tree result ≡ tree.call function (exps_of (map expr_tree operands.items)) }
{
    SqlExpr::Call { function, operands }
}

// `REPLACE(operand, pattern, '')`
#[tactic(auto, using(crate::proofs::Views::views))]
fn removal(alloc: Global, operand: SqlExpr, pattern: SqlExpr) -> Result<SqlExpr, AllocError>
    ensures { IfOk result (λ x. expr_tree x ≡ tree.call ScalarOp.Replace (tree.exp (expr_tree operand) (tree.exp (expr_tree pattern) (tree.exp empty_text tree.no_exps)))) }
{
    let nothing = SqlExpr::Constant(Constant::Text(Txt::new(alloc, "")?));
    let mut operands = Vec::new(alloc);
    operands.push(operand)?;
    operands.push(pattern)?;
    operands.push(nothing)?;
    Ok(call(ScalarOp::Replace, operands))
}

// ---- parts of expressions

fn member(alloc: Global, e: &CompExpr, p: &Profile) -> Result<Literal, AllocError>
    ensures literal { IfOk result (λ x. x ≡ member_to_sql p.now (comp_exp_of e.now)) }
    ensures held { IfOk result (λ x. IsMemberHeld (comp_exp_of e.now)) }
{
    match e {
        CompExpr::Const(cell) => literal_to_sql(alloc, cell, p),
        _ => Ok(Literal::False),
    }
}

// The members of a set.
fn members(alloc: Global, exps: &[CompExpr], p: &Profile) -> Result<Vec<Literal>, AllocError>
    ensures literals { IfOk result (λ v. v.items ≡ members_to_sql p.now (comp_exps_of (map comp_exp_of exps.now))) }
    ensures held { IfOk result (λ v. AllHold true (comp_exps_of (map comp_exp_of exps.now))) }
{
    let mut literals = Vec::with_capacity(alloc, exps.len())?;
    for e in exps {
        literals.push(member(alloc, e, p)?)?;
    }
    Ok(literals)
}

// An aggregate stands over one source, where a column goes by its name alone.
const ANY_PLACE: usize = 0;

// An aggregate of a component, or how many points there are.
#[tactic(auto, using(crate::proofs::Views::views))]
fn aggregate(
    alloc: Global,
    function: AggKind,
    component: &Option<Txt>,
    at: &Aliases<'_>,
) -> Result<SqlExpr, AllocError>
    ensures { IfOk result (λ x. expr_tree x ≡ aggregate_to_sql (naming at.now) function component.now) }
{
    match component {
        None => Ok(SqlExpr::CountAll),
        Some(name) => Ok(SqlExpr::Aggregate {
            function,
            operand: Box::new(alloc, SqlExpr::Column(at.column(ANY_PLACE, name)?))?,
        }),
    }
}

// ---- expressions

/// An expression in SQL, whose columns have these aliases; besides, its constants are values that a program holds. It
/// fails only if memory runs out.
#[cycle(translating)]
#[tactic(auto, using(crate::proofs::Views::views))]
pub fn comp_to_sql(
    alloc: Global,
    e: &CompExpr,
    at: &Aliases<'_>,
    p: &Profile,
) -> Result<SqlExpr, AllocError>
    ensures exp { IfOk result (λ x. expr_tree x ≡ to_sql p.now (naming at.now) (comp_exp_of e.now)) }
    ensures held { IfOk result (λ x. HoldsValues (comp_exp_of e.now)) }
{
    match e {
        CompExpr::Column { place, name, .. } => Ok(SqlExpr::Column(at.column(*place, name)?)),
        CompExpr::Const(cell) => const_to_sql(alloc, cell, p),
        CompExpr::Apply { op, args, .. } => applied(alloc, *op, args, at, p),
        CompExpr::Aggregate { call, .. } => aggregate(alloc, call.kind, &call.component, at),
    }
}

// An operator on operands.
#[cycle(translating)]
fn applied(
    alloc: Global,
    op: ScalarOp,
    args: &[CompExpr],
    at: &Aliases<'_>,
    p: &Profile,
) -> Result<SqlExpr, AllocError>
    ensures exp { IfOk result (λ x. expr_tree x ≡ call_to_sql p.now (naming at.now) op (comp_exps_of (map comp_exp_of args.now))) }
    ensures held { IfOk result (λ x. OperandsHold (asks_a_set op) (comp_exps_of (map comp_exp_of args.now))) }
{
    match form_at(op, args.len()) {
        CallForm::NullTest => null_test(alloc, comp_to_sql(alloc, &args[0], at, p)?),
        CallForm::Set { negated } => {
            let operand = comp_to_sql(alloc, &args[0], at, p)?;
            in_set(alloc, operand, negated, members(alloc, &args[1..], p)?)
        }
        CallForm::Choice => {
            let condition = comp_to_sql(alloc, &args[0], at, p)?;
            let value = comp_to_sql(alloc, &args[1], at, p)?;
            let other = comp_to_sql(alloc, &args[2], at, p)?;
            choice(alloc, condition, value, other)
        }
        CallForm::Removal => {
            let operand = comp_to_sql(alloc, &args[0], at, p)?;
            let pattern = comp_to_sql(alloc, &args[1], at, p)?;
            removal(alloc, operand, pattern)
        }
        CallForm::Between => {
            let left = comp_to_sql(alloc, &args[0], at, p)?;
            let right = comp_to_sql(alloc, &args[1], at, p)?;
            between(alloc, left, op, right)
        }
        CallForm::Before => before(alloc, op, comp_to_sql(alloc, &args[0], at, p)?),
        CallForm::InBrackets => Ok(call(op, all(alloc, args, at, p)?)),
    }
}

// All operands.
#[cycle(translating)]
fn all(
    alloc: Global,
    exps: &[CompExpr],
    at: &Aliases<'_>,
    p: &Profile,
) -> Result<Vec<SqlExpr>, AllocError>
    ensures exps { IfOk result (λ v. exps_of (map expr_tree v.items) ≡ all_to_sql p.now (naming at.now) (comp_exps_of (map comp_exp_of exps.now))) }
    ensures held { IfOk result (λ v. AllHold false (comp_exps_of (map comp_exp_of exps.now))) }
{
    let mut made = Vec::with_capacity(alloc, exps.len())?;
    for e in exps {
        made.push(comp_to_sql(alloc, e, at, p)?)?;
    }
    Ok(made)
}
