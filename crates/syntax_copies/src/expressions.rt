// Copies of expressions: one recursion over all that holds expressions.
ghost use Rattle.std.specs.Prelude.{◌≡◌, ◌++◌, ◌∷◌, [], IfOk, map};
ghost use Rattle.std.specs.Option.{option_map};
ghost use Rattle.syntax_copies.specs.Trees.{box_tree, maybe_tree};
ghost use Rattle.vtl_syntax.specs.View.{calc_tree, clause_tree, expr_tree, part_tree, targets_tree};

use crate::calls::{
    aggregate, aggregate_over, check, check_datapoint, check_hierarchy, component, constant,
    hierarchy, in_set, join, member, rank, shift, time, value_window,
};
use crate::operators::{
    binary, brackets, difference, exists_in, function, if_then, set_op, unary, with_clause,
};
use crate::part::Part;
use std::alloc::{AllocError, Global};
use vtl_syntax::{CalcPart, Clause, Expr, JoinPart, Targets};

/// A copy of an expression. It fails only if memory runs out.
pub fn copy_expression(alloc: Global, expression: &Expr) -> Result<Expr, AllocError>
    ensures { IfOk result (λ copy. expr_tree copy ≡ expr_tree expression.now) }
{
    Ok(Box::into_inner(boxed(alloc, expression)?))
}

// One more operand behind others.
fn with_operand(operands: Vec<Expr>, operand: Box<Expr>) -> Result<Vec<Expr>, AllocError>
    ensures { IfOk result (λ v. map expr_tree v.items ≡ map expr_tree operands.items ++ box_tree operand ∷ []) }
{
    let mut operands = operands;
    operands.push(Box::into_inner(operand))?;
    Ok(operands)
}

#[cycle(copying)]
fn all(alloc: Global, es: &[Expr]) -> Result<Vec<Expr>, AllocError>
    ensures { IfOk result (λ copies. map expr_tree copies.items ≡ map expr_tree es.now) }
{
    let mut copies = Vec::new(alloc);
    for e in es {
        copies = with_operand(copies, boxed(alloc, e)?)?;
    }
    Ok(copies)
}

#[cycle(copying)]
fn maybe(alloc: Global, e: &Option<Box<Expr>>) -> Result<Option<Box<Expr>>, AllocError>
    ensures { IfOk result (λ copy. maybe_tree copy ≡ maybe_tree e.now) }
{
    match e {
        Some(e) => Ok(Some(boxed(alloc, e)?)),
        None => Ok(None),
    }
}

#[cycle(copying)]
fn calc_part(alloc: Global, part: &CalcPart) -> Result<CalcPart, AllocError>
    ensures { IfOk result (λ copy. calc_tree copy ≡ calc_tree part.now) }
{
    let value = boxed(alloc, &part.value)?;
    Ok(CalcPart {
        role: part.role,
        component: part.component.copy(alloc)?,
        value,
    })
}

#[cycle(copying)]
fn calc_parts(alloc: Global, parts: &[CalcPart]) -> Result<Vec<CalcPart>, AllocError>
    ensures { IfOk result (λ copies. map calc_tree copies.items ≡ map calc_tree parts.now) }
{
    let mut copies = Vec::new(alloc);
    for part in parts {
        copies.push(calc_part(alloc, part)?)?;
    }
    Ok(copies)
}

#[cycle(copying)]
fn targets(alloc: Global, written: &Targets) -> Result<Targets, AllocError>
    ensures { IfOk result (λ copy. targets_tree copy ≡ targets_tree written.now) }
{
    match written {
        Targets::Calc(parts) => Ok(Targets::Calc(calc_parts(alloc, parts)?)),
        Targets::Aggr {
            parts,
            group,
            having,
        } => {
            let parts = calc_parts(alloc, parts)?;
            let having = maybe(alloc, having)?;
            Ok(Targets::Aggr {
                parts,
                group: group.copy(alloc)?,
                having,
            })
        }
    }
}

#[cycle(copying)]
fn maybe_targets(alloc: Global, written: &Option<Targets>) -> Result<Option<Targets>, AllocError>
    ensures { IfOk result (λ copy. option_map targets_tree copy ≡ option_map targets_tree written.now) }
{
    match written {
        Some(written) => Ok(Some(targets(alloc, written)?)),
        None => Ok(None),
    }
}

#[cycle(copying)]
fn join_part(alloc: Global, part: &JoinPart) -> Result<JoinPart, AllocError>
    ensures { IfOk result (λ copy. part_tree copy ≡ part_tree part.now) }
{
    let operand = boxed(alloc, &part.operand)?;
    Ok(JoinPart {
        operand,
        alias: part.alias.copy(alloc)?,
    })
}

#[cycle(copying)]
fn join_parts(alloc: Global, parts: &[JoinPart]) -> Result<Vec<JoinPart>, AllocError>
    ensures { IfOk result (λ copies. map part_tree copies.items ≡ map part_tree parts.now) }
{
    let mut copies = Vec::new(alloc);
    for part in parts {
        copies.push(join_part(alloc, part)?)?;
    }
    Ok(copies)
}

#[cycle(copying)]
fn clause(alloc: Global, written: &Clause) -> Result<Box<Clause>, AllocError>
    ensures { IfOk result (λ copy. clause_tree copy.value ≡ clause_tree written.now) }
{
    let copy = match written {
        Clause::Filter(condition) => Clause::Filter(boxed(alloc, condition)?),
        Clause::Targets(written) => Clause::Targets(targets(alloc, written)?),
        Clause::Keeping(kept) => Clause::Keeping(kept.copy(alloc)?),
        Clause::Rename(renames) => Clause::Rename(renames.copy(alloc)?),
        Clause::Sub(values) => Clause::Sub(values.copy(alloc)?),
        Clause::Pivot {
            identifier,
            measure,
        } => Clause::Pivot {
            identifier: identifier.copy(alloc)?,
            measure: measure.copy(alloc)?,
        },
        Clause::Unpivot {
            identifier,
            measure,
        } => Clause::Unpivot {
            identifier: identifier.copy(alloc)?,
            measure: measure.copy(alloc)?,
        },
    };
    Ok(Box::new(alloc, copy)?)
}

#[cycle(copying)]
fn boxed(alloc: Global, e: &Expr) -> Result<Box<Expr>, AllocError>
    ensures { IfOk result (λ copy. box_tree copy ≡ expr_tree e.now) }
{
    match e {
        Expr::If {
            condition,
            then,
            other,
        } => {
            let condition = boxed(alloc, condition)?;
            let then = boxed(alloc, then)?;
            let other = boxed(alloc, other)?;
            if_then(alloc, condition, then, other)
        }
        Expr::Binary { left, op, right } => {
            let left = boxed(alloc, left)?;
            let right = boxed(alloc, right)?;
            binary(alloc, left, *op, right)
        }
        Expr::InSet {
            operand,
            negated,
            literals,
        } => in_set(alloc, boxed(alloc, operand)?, *negated, literals),
        Expr::Unary { op, operand } => unary(alloc, *op, boxed(alloc, operand)?),
        Expr::WithClause {
            operand,
            clause: written,
        } => {
            let operand = boxed(alloc, operand)?;
            with_clause(alloc, operand, clause(alloc, written)?)
        }
        Expr::Member { operand, component } => member(alloc, boxed(alloc, operand)?, component),
        Expr::Component(name) => component(alloc, name),
        Expr::Constant(literal) => constant(alloc, literal),
        Expr::Brackets(inner) => brackets(alloc, boxed(alloc, inner)?),
        Expr::Function {
            function: name,
            operands,
        } => function(alloc, *name, all(alloc, operands)?),
        Expr::Aggregate {
            function,
            operand,
            group,
            having,
        } => {
            let operand = maybe(alloc, operand)?;
            let having = maybe(alloc, having)?;
            aggregate(alloc, *function, operand, group, having)
        }
        Expr::AggregateOver {
            function,
            operand,
            over,
        } => aggregate_over(alloc, *function, maybe(alloc, operand)?, over),
        Expr::ValueWindow {
            function,
            operand,
            over,
        } => value_window(alloc, *function, boxed(alloc, operand)?, over),
        Expr::Shift {
            function,
            operand,
            points,
            default,
            over,
        } => {
            let operand = boxed(alloc, operand)?;
            shift(alloc, *function, operand, points, default, over)
        }
        Expr::Rank(over) => rank(alloc, over),
        Expr::SetOp { operator, operands } => { set_op(alloc, *operator, all(alloc, operands)?) }
        Expr::Difference {
            operator,
            left,
            right,
        } => {
            let left = boxed(alloc, left)?;
            let right = boxed(alloc, right)?;
            difference(alloc, *operator, left, right)
        }
        Expr::ExistsIn {
            left,
            right,
            retain,
        } => {
            let left = boxed(alloc, left)?;
            let right = boxed(alloc, right)?;
            exists_in(alloc, left, right, *retain)
        }
        Expr::Time { operand, call } => time(alloc, boxed(alloc, operand)?, call),
        Expr::Check {
            operand,
            error,
            imbalance,
            output,
        } => {
            let operand = boxed(alloc, operand)?;
            let imbalance = maybe(alloc, imbalance)?;
            check(alloc, operand, error, imbalance, *output)
        }
        Expr::CheckDatapoint {
            operand,
            ruleset,
            output,
        } => check_datapoint(alloc, boxed(alloc, operand)?, ruleset, *output),
        Expr::CheckHierarchy {
            operand,
            ruleset,
            rule,
            mode,
            dataset,
            output,
        } => {
            let operand = boxed(alloc, operand)?;
            check_hierarchy(alloc, operand, ruleset, rule, *mode, *dataset, *output)
        }
        Expr::Hierarchy {
            operand,
            ruleset,
            rule,
            mode,
            input,
            output,
        } => {
            let operand = boxed(alloc, operand)?;
            hierarchy(alloc, operand, ruleset, rule, *mode, *input, *output)
        }
        Expr::Join {
            kind,
            operands,
            using,
            filter,
            targets,
            keeping,
            renames,
        } => {
            let operands = join_parts(alloc, operands)?;
            let filter = maybe(alloc, filter)?;
            let targets = maybe_targets(alloc, targets)?;
            join(
                alloc, *kind, operands, using, filter, targets, keeping, renames,
            )
        }
    }
}
