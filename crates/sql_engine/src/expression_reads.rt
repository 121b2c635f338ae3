// The tables that expressions read, with the place of the statement.
ghost use Rattle.std.specs.Prelude.{OnOk, map};
ghost use Rattle.sql_tree.specs.Trees.{branches_of, exps_of};
ghost use Rattle.sql_tree.specs.View.{branch_tree, expr_tree};
ghost use Rattle.sql_engine.specs.LastReads.{IsNoted};
ghost use Rattle.sql_engine.specs.Reads.{EachOfAll, EachOfBranches, EachRead};

use sql_eval::set_named;
use sql_tree::{Branch, SqlExpr};
use std::alloc::AllocError;
use vtl_text::{ByName, Txt};

/// For each table that statements read, the place of the last one that reads it.
pub type LastReads = ByName<usize>;

/// Notes that a statement reads a table. It fails only if memory runs out.
pub fn note(name: &Txt, last: &mut LastReads, place: usize) -> Result<(), AllocError>
    ensures { OnOk result (IsNoted place last.old last.new (λ P. P name.now)) }
{
    set_named(last, name, place)
}

/// Notes that a statement reads the tables that an expression names in EXISTS. It fails only if memory runs out.
#[cycle(noted)]
pub fn note_expression(
    expression: &SqlExpr,
    last: &mut LastReads,
    place: usize,
) -> Result<(), AllocError>
    ensures { OnOk result (IsNoted place last.old last.new (λ P. EachRead P (expr_tree expression.now))) }
{
    match expression {
        SqlExpr::Binary { left, right, .. } => {
            note_expression(left, last, place)?;
            note_expression(right, last, place)
        }
        SqlExpr::Unary { operand, .. }
        | SqlExpr::IsNull { operand, .. }
        | SqlExpr::InList { operand, .. }
        | SqlExpr::Aggregate { operand, .. } => note_expression(operand, last, place),
        SqlExpr::Constant(_) | SqlExpr::Column(_) | SqlExpr::CountAll => Ok(()),
        SqlExpr::Call { operands, .. } => note_operands(operands, last, place),
        SqlExpr::Case { branches, other } => {
            note_branches(branches, last, place)?;
            note_expression(other, last, place)
        }
        SqlExpr::Exists { source, .. } => note(&source.table, last, place),
    }
}

#[cycle(noted)]
fn note_operands(operands: &[SqlExpr], last: &mut LastReads, place: usize) -> Result<(), AllocError>
    ensures { OnOk result (IsNoted place last.old last.new (λ P. EachOfAll P (exps_of (map expr_tree operands.now)))) }
{
    for operand in operands {
        note_expression(operand, last, place)?;
    }
    Ok(())
}

#[cycle(noted)]
fn note_branches(branches: &[Branch], last: &mut LastReads, place: usize) -> Result<(), AllocError>
    ensures { OnOk result (IsNoted place last.old last.new (λ P. EachOfBranches P (branches_of (map branch_tree branches.now)))) }
{
    for branch in branches {
        note_expression(&branch.condition, last, place)?;
        note_expression(&branch.value, last, place)?;
    }
    Ok(())
}
