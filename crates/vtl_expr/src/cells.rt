// What expressions are evaluated at.
ghost use Rattle.std.specs.Prelude.{◌≡◌, ℕ, List};
ghost use Rattle.vtl_cell.specs.Outcome.{Outcome};
ghost use Rattle.vtl_cell.specs.Row.{column_of};
ghost use Rattle.vtl_cell.specs.declared.cell.Cell.{Cell};
ghost use Rattle.vtl_decimal.specs.Settings.{Settings};
ghost use Rattle.vtl_scalar.specs.Answers.{Answers};
ghost use Rattle.vtl_scalar.specs.Given.{given_cell};
ghost use Rattle.vtl_tree.specs.declared.expression.AggCall.{AggCall};

use std::alloc::Global;
use vtl_cell::Cell;
use vtl_decimal::Profile;
use vtl_scalar::{Given, ScalarErr};
use vtl_text::Txt;
use vtl_tree::AggCall;

/// What an expression is evaluated at: a point, or a group of points.
pub trait Cells {
    ghost columns: { Self → ℕ → List ℕ → Cell };

    ghost aggregates: { Self → Settings → AggCall → Outcome Cell };

    /// The cell of a column, which has a place and a name.
    fn column(&self, place: usize, name: &Txt) -> Given<'_>
        ensures { given_cell result ≡ columns self.now place name.now };

    /// The value of an aggregate, or its fault.
    fn aggregate(&self, alloc: Global, call: &AggCall, p: &Profile) -> Result<Cell, ScalarErr>
        ensures { Answers result (aggregates self.now p.now call.now) };
}

/// The cell at a place of a row, or null after its last one.
pub fn cell_at<'v>(row: &'v [Cell], place: usize) -> Given<'v>
    ensures { given_cell result ≡ column_of place row.now }
{
    match row.get(place) {
        Some(cell) => Given::Lent(cell),
        None => Given::Made(Cell::Null),
    }
}
