// Expressions at a point.
ghost use Rattle.std.specs.Prelude.{◌≡◌, ◌++◌};
ghost use Rattle.vtl_cell.specs.Row.{column_of};
ghost use Rattle.vtl_scalar.specs.Answers.{Answers, AnswersBy};
ghost use Rattle.vtl_scalar.specs.Given.{given_cell};
ghost use Rattle.vtl_tree.specs.Value.{value};
ghost use Rattle.vtl_tree.specs.View.{comp_exp_of};
ghost use Rattle.vtl_expr.specs.Prepared.{no_aggregate, prepared_exp};

use crate::cells::{Cells, cell_at};
use crate::evaluation::value_at;
use crate::prepared::{Prepared, prepare};
use std::alloc::Global;
use std::marker::Model;
use vtl_cell::Cell;
use vtl_decimal::Profile;
use vtl_scalar::{Given, ScalarErr};
use vtl_text::Txt;
use vtl_tree::{AggCall, CompExpr};

/// A point, whose cells are lent and stand in two pieces, one after the other: those of a pair of points, or those of
/// one point and none. A contract sees them as one row.
pub struct Point<'a> {
    first: &'a [Cell],
    second: &'a [Cell],
}

// Written out, so that an owner sees one call.
impl Drop for Point<'_> {
    fn drop(self) {
        let Point {
            first: _,
            second: _,
        } = self;
    }
}

impl<'a> Model for Point<'a> {
    ghost use Rattle.std.specs.Prelude.{◌++◌};
    ghost use Rattle.vtl_cell.specs.Row as rows;

    ghost Value = { rows.Row };

    ghost view = { λ at. at.first.now ++ at.second.now };
}

impl<'a> Point<'a> {
    /// The point of these cells.
    pub fn of(row: &'a [Cell]) -> Point<'a>
        ensures { result ≡ row.now }
    {
        Point {
            first: row,
            second: &[],
        }
    }

    /// The point of two points, one beside the other.
    pub fn beside(first: &'a [Cell], second: &'a [Cell]) -> Point<'a>
        ensures { result ≡ first.now ++ second.now }
    {
        Point { first, second }
    }

    // The cell at a place, or null after the last one.
    fn at(&self, place: usize) -> Given<'_>
        ensures { given_cell result ≡ column_of place self.now }
    {
        if place < self.first.len() {
            return Given::Lent(&self.first[place]);
        }
        cell_at(self.second, place - self.first.len())
    }

    /// The value of a prepared expression at the point. An aggregate is null, since it has a value only over a group.
    #[tactic(auto, using(crate::proofs::PointValues::at_point))]
    pub fn value<'v>(
        &'v self,
        alloc: Global,
        e: &'v Prepared,
        p: &Profile,
    ) -> Result<Given<'v>, ScalarErr>
        ensures { AnswersBy given_cell result (value p.now (prepared_exp e.now) self.now) }
    {
        value_at(alloc, e, self, p)
    }

    /// The same value, owned. It fails also if memory runs out.
    pub fn cell(&self, alloc: Global, e: &Prepared, p: &Profile) -> Result<Cell, ScalarErr>
        ensures { Answers result (value p.now (prepared_exp e.now) self.now) }
    {
        Ok(self.value(alloc, e, p)?.into_cell()?)
    }
}

impl<'a> Cells for Point<'a> {
    ghost columns = { λ row place name. column_of place row };

    ghost aggregates = { λ row p call. no_aggregate call };

    fn column(&self, place: usize, _: &Txt) -> Given<'_> {
        self.at(place)
    }

    fn aggregate(&self, _: Global, _: &AggCall, _: &Profile) -> Result<Cell, ScalarErr> {
        Ok(Cell::Null)
    }
}

/// The value of an expression at a point, whose cells stand in column order: the operands are evaluated from left to
/// right, and the first fault is the answer; for `if` only the condition and the branch that it chooses are evaluated.
/// A column after the last cell is null, and so is an aggregate, which has a value only over a group.
/// Where many points are evaluated, prepare the expression once and ask each [`Point`].
#[tactic(auto, using(crate::proofs::PointValues::same_at))]
pub fn eval(alloc: Global, e: &CompExpr, row: &[Cell], p: &Profile) -> Result<Cell, ScalarErr>
    ensures { Answers result (value p.now (comp_exp_of e.now) row.now) }
{
    let e = prepare(alloc, e)?;
    Point::of(row).cell(alloc, &e, p)
}
