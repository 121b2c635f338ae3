// The kinds of values and of analytic calls.
ghost use Rattle.std.specs.Prelude.{◌≡◌};
ghost use Rattle.vtl_cell.specs.Kinds.{kind_of};
ghost use Rattle.vtl_tree.specs.View.{comp_exp_of};
ghost use Rattle.vtl_tree.specs.Kinds.{exp_kind, given_kind};

use crate::{AnalyticOp, CompExpr};
use vtl_cell::{Cell, Kind, meets};

fn cell_kind(cell: &Cell) -> Kind
    ensures { result ≡ kind_of cell.now }
{
    match cell {
        Cell::Null => Kind::Null,
        Cell::Bool(_) => Kind::Bool,
        Cell::Int(_) => Kind::Int,
        Cell::Num(_) => Kind::Num,
        Cell::Text(_) => Kind::Text,
        Cell::Day(_) => Kind::Day,
        Cell::Period(_) => Kind::Period,
    }
}

/// The kind of an expression's value.
pub fn kind(e: &CompExpr) -> Kind
    ensures { result ≡ exp_kind (comp_exp_of e.now) }
{
    match e {
        CompExpr::Column { kind, .. } => *kind,
        CompExpr::Const(cell) => cell_kind(cell),
        CompExpr::Apply { kind, .. } => *kind,
        CompExpr::Aggregate { kind, .. } => *kind,
    }
}

/// The kind that an analytic operator gives for values of a kind that it takes.
pub fn given_kind(op: &AnalyticOp, kind: Kind) -> Kind
    ensures { result ≡ given_kind op.now kind }
{
    match op {
        AnalyticOp::Sum if meets(Kind::Int, kind) => Kind::Int,
        AnalyticOp::Sum | AnalyticOp::Avg | AnalyticOp::RatioToReport => Kind::Num,
        AnalyticOp::Count | AnalyticOp::Rank => Kind::Int,
        _ => kind,
    }
}
