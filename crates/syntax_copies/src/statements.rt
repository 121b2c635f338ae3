// Copies of statements.
ghost use Rattle.std.specs.Prelude.{◌≡◌, IfOk, map};
ghost use Rattle.std.specs.Option.{option_map};
ghost use Rattle.vtl_syntax.specs.View.{expr_tree, point_rule_tree, statement_tree};

use crate::expressions::copy_expression;
use crate::part::Part;
use std::alloc::{AllocError, Global};
use vtl_syntax::{Expr, PointRule, Statement};
use vtl_text::List;

// The condition of a rule, where one is written.
fn condition(alloc: Global, when: &Option<Expr>) -> Result<Option<Expr>, AllocError>
    ensures { IfOk result (λ copy. option_map expr_tree copy ≡ option_map expr_tree when.now) }
{
    match when {
        Some(e) => Ok(Some(copy_expression(alloc, e)?)),
        None => Ok(None),
    }
}

fn point_rule(alloc: Global, rule: &PointRule) -> Result<PointRule, AllocError>
    ensures { IfOk result (λ copy. point_rule_tree copy ≡ point_rule_tree rule.now) }
{
    let name = rule.name.copy(alloc)?;
    let error = rule.error.copy(alloc)?;
    let when = condition(alloc, &rule.when)?;
    let holds = copy_expression(alloc, &rule.holds)?;
    Ok(PointRule {
        name,
        when,
        holds,
        error,
    })
}

fn point_rules(alloc: Global, rules: &List<PointRule>) -> Result<List<PointRule>, AllocError>
    ensures { IfOk result (λ copies. map point_rule_tree copies ≡ map point_rule_tree rules.now) }
{
    let mut copies = Vec::new(alloc);
    for rule in rules.as_slice() {
        copies.push(point_rule(alloc, rule)?)?;
    }
    Ok(List::of(copies))
}

/// A copy of a statement. It fails only if memory runs out.
pub fn copy_statement(alloc: Global, statement: &Statement) -> Result<Statement, AllocError>
    ensures { IfOk result (λ copy. statement_tree copy ≡ statement_tree statement.now) }
{
    match statement {
        Statement::Assignment { name, kind, value } => Ok(Statement::Assignment {
            name: name.share()?,
            kind: *kind,
            value: copy_expression(alloc, value)?,
        }),
        Statement::Datapoint {
            name,
            variables,
            rules,
            last_semicolon,
        } => Ok(Statement::Datapoint {
            name: name.share()?,
            variables: variables.copy(alloc)?,
            rules: point_rules(alloc, rules)?,
            last_semicolon: *last_semicolon,
        }),
        Statement::Hierarchical {
            name,
            item,
            rules,
            last_semicolon,
        } => Ok(Statement::Hierarchical {
            name: name.share()?,
            item: item.copy(alloc)?,
            rules: rules.copy(alloc)?,
            last_semicolon: *last_semicolon,
        }),
    }
}
