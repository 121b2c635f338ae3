// What expressions are evaluated at.
ghost use Rattle.std.specs.Prelude.{◌≡◌, IfOk, List};
ghost use Rattle.vtl_cell.specs.Groups.{count_of_points};
ghost use Rattle.vtl_cell.specs.Row.{Row, column_of};
ghost use Rattle.vtl_scalar.specs.Answers.{Answers};
ghost use Rattle.sql_tree.specs.Trees.{Text};
ghost use Rattle.sql_eval.specs.Placed.{aggregate_value, has_partner};
ghost use Rattle.sql_eval.specs.View.{placed_of};

use crate::{Existence, Resolved};
use std::alloc::{AllocError, Global};
use vtl_cell::{AggKind, Cell};
use vtl_decimal::Profile;
use vtl_scalar::ScalarErr;

/// What an expression is evaluated at: a row, whose cells are lent, the rows of its group, and the tables that EXISTS
/// asks. At a row of FROM the group has no rows; at a group the row holds the cells of the columns of GROUP BY.
pub trait Cells {
    ghost cells: { Self → Row };

    ghost group: { Self → List Row };

    ghost tables: { Self → Text → List Row };

    /// The cell at a place; past the last one a null.
    fn cell(&self, place: usize) -> &Cell
        ensures { result.now ≡ column_of place (cells self.now) };

    /// Whether some row of a table makes every equality with this row true. It fails only if memory runs out.
    fn is_there(&self, alloc: Global, test: &Existence, p: &Profile) -> Result<bool, AllocError>
        ensures { IfOk result (λ b. b ≡ has_partner p.now (tables self.now) test.now.table test.now.ties.items (cells self.now)) };

    /// How many rows the group has.
    fn count_all(&self, p: &Profile) -> Result<Cell, ScalarErr>
        ensures { Answers result (count_of_points p.now (group self.now)) };

    /// An aggregate of the values that an expression has at the rows of the group, or the worst of their faults.
    fn aggregate(
        &self,
        alloc: Global,
        function: AggKind,
        operand: &Resolved,
        p: &Profile,
    ) -> Result<Cell, ScalarErr>
        ensures { Answers result (aggregate_value p.now (tables self.now) function (placed_of operand.now) (group self.now)) };
}
