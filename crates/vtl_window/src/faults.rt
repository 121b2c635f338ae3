// Values whose faults are noted.
ghost use Rattle.std.specs.Prelude.{◌≡◌, IfErr, IfOk};
ghost use Rattle.vtl_cell.specs.Outcome.{Outcome, fault_in, join};
ghost use Rattle.vtl_cell.specs.declared.cell.Cell as cell;
ghost use Rattle.vtl_meaning.specs.Points.{cell_or_null};
ghost use Rattle.vtl_scalar.specs.Seen.{seen_of};
ghost use Rattle.vtl_scalar.specs.Answers.{Answers};

use vtl_cell::Cell;
use vtl_scalar::{ScalarErr, Seen};

/// The value that was answered, or null where it has a fault, which is noted. It fails only if memory ran out.
pub(crate) fn noted(seen: &mut Seen, answer: Result<Cell, ScalarErr>) -> Result<Cell, ScalarErr>
    ensures cell { IfOk result (λ c. (m : Outcome cell.Cell) → Answers answer m → c ≡ cell_or_null m) }
    ensures seen { IfOk result (λ _. (m : Outcome cell.Cell) → Answers answer m → seen_of seen.new ≡ join (seen_of seen.old) (fault_in m)) }
    ensures err { IfErr result (λ e. e ≡ ScalarErr.OutOfMemory) }
{
    match answer {
        Ok(cell) => Ok(cell),
        Err(error) => {
            *seen = seen.and(error)?;
            Ok(Cell::Null)
        }
    }
}
