//! Syntax trees of scripts: what is written, including brackets and every word that may be left out.
//!
//! A tree keeps each word, brackets too, so the grammar needs no trees of derivation: its right side is the function
//! that gives the tokens of a tree in front of others (`exp_onto`), and which tree may stand where is a predicate
//! (`Fits`). Scripts have several owners, and nobody copies one. Depth, which bounds every recursion over a tree, is
//! defined here.
//! It knows no values, no kinds and no meaning: a literal is its digits.
//! Begin with specs/Trees.antt and specs/Depth.antt.
#![tactic(auto)]

mod expressions;
mod laws;
mod parts;
mod statements;
mod word_groups;

pub use expressions::{CalcPart, Clause, Expr, JoinPart, Targets};
pub use laws::trees_have_a_depth;
pub use parts::{
    Comp, Constant, DataPoints, ErrorPart, GroupPart, Keeping, Limit, Literal, Numeral, OrderPart,
    OverPart, Reference, RenamePart, SignedComp, SubPart, TimeCall,
};
pub use statements::{HierRule, PointRule, Script, Statement};
pub use word_groups::{
    Addition, AggregateName, AssignKind, BasicOut, BinaryOp, CastKind, CheckOut, Comparison,
    DifferenceName, Direction, Filling, FunctionName, GroupKind, HierInput, HierOut, JoinKind,
    Mode, Retain, SetOpName, ShiftName, Side, TimeName, UnaryOp, ValueWindowName, WrittenRole,
};
