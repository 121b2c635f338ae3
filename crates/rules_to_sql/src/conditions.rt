// Truth values of rules.
//
// A condition that is null throughout has no kind of its own, as `null` or `null and null`; as a column it is made a boolean by a
// choice that is always made. Behind an antecedent the condition is evaluated only where the antecedent is true.
ghost use Rattle.std.specs.Prelude.{◌≡◌, IfOk};
ghost use Rattle.vtl_tree.specs.NodeView.{point_rule_tree};
ghost use Rattle.vtl_tree.specs.View.{comp_exp_of};
ghost use Rattle.sql_tree.specs.View.{expr_tree};
ghost use Rattle.expressions_to_sql.specs.ToSql.{to_sql};
ghost use Rattle.selects_to_sql.specs.Queries.{of_one};
ghost use Rattle.rules_to_sql.specs.Conditions.{boolean};
ghost use Rattle.rules_to_sql.specs.Items.{choice, denied, truth_as};

use selects_to_sql::{Writer, when};
use sql_tree::{Branch, Constant, SqlExpr};
use std::alloc::{AllocError, Global};
use vtl_cell::{Kind, ScalarOp};
use vtl_tree::{CompExpr, DatapointRule, kind};

/// One value where a condition is true, and another one elsewhere. It fails only if memory runs out.
pub fn choice(
    alloc: Global,
    condition: SqlExpr,
    value: SqlExpr,
    other: SqlExpr,
) -> Result<SqlExpr, AllocError>
    ensures { IfOk result (λ e. expr_tree e ≡ choice (expr_tree condition) (expr_tree value) (expr_tree other)) }
{
    let mut branches = Vec::with_capacity(alloc, 1)?;
    branches.push(Branch { condition, value })?;
    let other = Box::new(alloc, other)?;
    Ok(SqlExpr::Case { branches, other })
}

/// A condition does not hold. It fails only if memory runs out.
pub fn denied(alloc: Global, condition: SqlExpr) -> Result<SqlExpr, AllocError>
    ensures { IfOk result (λ e. expr_tree e ≡ denied (expr_tree condition)) }
{
    Ok(SqlExpr::Unary {
        op: ScalarOp::Not,
        operand: Box::new(alloc, condition)?,
    })
}

// A condition as a boolean.
fn boolean(alloc: Global, writer: &Writer, condition: &CompExpr) -> Result<SqlExpr, AllocError>
    ensures { IfOk result (λ e. expr_tree e ≡ to_sql writer.now of_one (boolean (comp_exp_of condition.now))) }
{
    let value = writer.expression(alloc, condition)?;
    match kind(condition) {
        Kind::Null => {
            let always = SqlExpr::Constant(Constant::True);
            when(alloc, always, value, Constant::True)
        }
        Kind::Bool | Kind::Int | Kind::Num | Kind::Text | Kind::Day | Kind::Period => Ok(value),
    }
}

/// The truth value of a rule at a row of the first source. It fails only if memory runs out.
pub(crate) fn truth(
    alloc: Global,
    writer: &Writer,
    rule: &DatapointRule,
) -> Result<SqlExpr, AllocError>
    ensures { IfOk result (λ e. expr_tree e ≡ truth_as writer.now (point_rule_tree rule.now)) }
{
    let Some(antecedent) = &rule.antecedent else {
        return boolean(alloc, writer, &rule.condition);
    };
    let test = writer.expression(alloc, antecedent)?;
    let value = writer.expression(alloc, &rule.condition)?;
    let other = denied(alloc, writer.expression(alloc, antecedent)?)?;
    choice(alloc, test, value, other)
}
