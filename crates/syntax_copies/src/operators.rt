// Expressions of operands alone, from copies of these. Trees stay in their boxes, since one that is moved by value is
// costly to prove and needs a long frame.
ghost use Rattle.std.specs.Prelude.{◌≡◌, IfOk, map};
ghost use Rattle.syntax_copies.specs.Trees.{box_tree};
ghost use Rattle.vtl_syntax.specs.Trees as tree;
ghost use Rattle.vtl_syntax.specs.Trees.{exps_of};
ghost use Rattle.vtl_syntax.specs.View.{clause_tree, expr_tree};

use std::alloc::{AllocError, Global};
use vtl_syntax::{
    BinaryOp, Clause, DifferenceName, Expr, FunctionName, Retain, SetOpName, UnaryOp,
};

pub(crate) fn if_then(
    alloc: Global,
    condition: Box<Expr>,
    then: Box<Expr>,
    other: Box<Expr>,
) -> Result<Box<Expr>, AllocError>
    ensures { IfOk result (λ made. box_tree made ≡ tree.if_then (box_tree condition) (box_tree then) (box_tree other)) }
{
    let e = Expr::If {
        condition,
        then,
        other,
    };
    Ok(Box::new(alloc, e)?)
}

pub(crate) fn binary(
    alloc: Global,
    left: Box<Expr>,
    op: BinaryOp,
    right: Box<Expr>,
) -> Result<Box<Expr>, AllocError>
    ensures { IfOk result (λ made. box_tree made ≡ tree.binary (box_tree left) op (box_tree right)) }
{
    Ok(Box::new(alloc, Expr::Binary { left, op, right })?)
}

pub(crate) fn unary(alloc: Global, op: UnaryOp, operand: Box<Expr>) -> Result<Box<Expr>, AllocError>
    ensures { IfOk result (λ made. box_tree made ≡ tree.unary op (box_tree operand)) }
{
    Ok(Box::new(alloc, Expr::Unary { op, operand })?)
}

pub(crate) fn with_clause(
    alloc: Global,
    operand: Box<Expr>,
    clause: Box<Clause>,
) -> Result<Box<Expr>, AllocError>
    ensures { IfOk result (λ made. box_tree made ≡ tree.with_clause (box_tree operand) (clause_tree clause.value)) }
{
    Ok(Box::new(alloc, Expr::WithClause { operand, clause })?)
}

pub(crate) fn brackets(alloc: Global, inner: Box<Expr>) -> Result<Box<Expr>, AllocError>
    ensures { IfOk result (λ made. box_tree made ≡ tree.brackets (box_tree inner)) }
{
    Ok(Box::new(alloc, Expr::Brackets(inner))?)
}

pub(crate) fn function(
    alloc: Global,
    function: FunctionName,
    operands: Vec<Expr>,
) -> Result<Box<Expr>, AllocError>
    ensures { IfOk result (λ made. box_tree made ≡ tree.function function (exps_of (map expr_tree operands.items))) }
{
    Ok(Box::new(alloc, Expr::Function { function, operands })?)
}

pub(crate) fn set_op(
    alloc: Global,
    operator: SetOpName,
    operands: Vec<Expr>,
) -> Result<Box<Expr>, AllocError>
    ensures { IfOk result (λ made. box_tree made ≡ tree.set_op operator (exps_of (map expr_tree operands.items))) }
{
    Ok(Box::new(alloc, Expr::SetOp { operator, operands })?)
}

pub(crate) fn difference(
    alloc: Global,
    operator: DifferenceName,
    left: Box<Expr>,
    right: Box<Expr>,
) -> Result<Box<Expr>, AllocError>
    ensures { IfOk result (λ made. box_tree made ≡ tree.difference operator (box_tree left) (box_tree right)) }
{
    let e = Expr::Difference {
        operator,
        left,
        right,
    };
    Ok(Box::new(alloc, e)?)
}

pub(crate) fn exists_in(
    alloc: Global,
    left: Box<Expr>,
    right: Box<Expr>,
    retain: Option<Retain>,
) -> Result<Box<Expr>, AllocError>
    ensures { IfOk result (λ made. box_tree made ≡ tree.exists_in (box_tree left) (box_tree right) retain) }
{
    let e = Expr::ExistsIn {
        left,
        right,
        retain,
    };
    Ok(Box::new(alloc, e)?)
}
