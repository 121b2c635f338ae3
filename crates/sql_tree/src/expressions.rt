// Expressions.

use crate::{Column, Constant, Equality, Literal, Source};
use vtl_cell::{AggKind, ScalarOp};
use vtl_text::List;

/// An expression.
#[cycle(expressions)]
pub enum SqlExpr {
    /// `left op right`, where the operator is one of `OR`, `XOR`, `AND`, the comparisons, `+`, `-`, `||`, `*` and `/`
    Binary {
        left: Box<SqlExpr>,
        op: ScalarOp,
        right: Box<SqlExpr>,
    },
    /// `op operand`, where the operator is one of `NOT`, `+` and `-`
    Unary {
        op: ScalarOp,
        operand: Box<SqlExpr>,
    },
    /// `operand IS NULL`, or `operand IS NOT NULL` where it is negated
    IsNull {
        operand: Box<SqlExpr>,
        negated: bool,
    },
    /// `operand IN (literals)`, or `operand NOT IN (literals)` where it is negated
    InList {
        operand: Box<SqlExpr>,
        negated: bool,
        literals: List<Literal>,
    },
    /// A constant.
    Constant(Constant),
    /// A column.
    Column(Column),
    /// `function(operands)`, where the operator is written as a function
    Call {
        function: ScalarOp,
        operands: Vec<SqlExpr>,
    },
    /// `COUNT(*)`
    CountAll,
    /// `function(operand)`
    Aggregate {
        function: AggKind,
        operand: Box<SqlExpr>,
    },
    /// `CASE branches ELSE other END`
    Case {
        branches: Vec<Branch>,
        other: Box<SqlExpr>,
    },
    /// `EXISTS (SELECT 1 FROM source WHERE equalities)`, without WHERE where there are none
    Exists {
        source: Source,
        equalities: List<Equality>,
    },
}

// Written out, so that a proof above sees one call and not the drop of each part.
impl Drop for SqlExpr {
    #[cycle(dropped)]
    fn drop(self) {
        match self {
            SqlExpr::Binary {
                left: _left,
                op: _op,
                right: _right,
            } => {}
            SqlExpr::Unary {
                op: _op,
                operand: _operand,
            } => {}
            SqlExpr::IsNull {
                operand: _operand,
                negated: _negated,
            } => {}
            SqlExpr::InList {
                operand: _operand,
                negated: _negated,
                literals: _literals,
            } => {}
            SqlExpr::Constant(_part0) => {}
            SqlExpr::Column(_part0) => {}
            SqlExpr::Call {
                function: _function,
                operands: _operands,
            } => {}
            SqlExpr::CountAll => {}
            SqlExpr::Aggregate {
                function: _function,
                operand: _operand,
            } => {}
            SqlExpr::Case {
                branches: _branches,
                other: _other,
            } => {}
            SqlExpr::Exists {
                source: _source,
                equalities: _equalities,
            } => {}
        }
    }
}

/// `WHEN condition THEN value`
#[cycle(expressions)]
#[derive(Drop)]
pub struct Branch {
    /// The condition.
    pub condition: SqlExpr,
    /// The value where it is true.
    pub value: SqlExpr,
}
