// What a window writes: counts, bounds and defaults.
ghost use Rattle.std.specs.Prelude.{◌≡◌, ℕ, IfOk, List};
ghost use Rattle.vtl_cell.specs.declared.cell.Cell as cells;
ghost use Rattle.vtl_frames.specs.Framed as frames;
ghost use Rattle.sql_meaning.specs.Windows.{count_of, default_cell, framed};
ghost use Rattle.sql_window.specs.Frames.{bound_in};

use sql_check_parts::literal_value;
use sql_tree::{self, Literal, Side};
use std::alloc::{AllocError, Global};
use vtl_cell::{Cell, integer_written};
use vtl_decimal::Profile;
use vtl_frames::{Bound, Frame};
use vtl_text::Txt;

/// The number that digits write; 0 where they write none.
pub(crate) fn count_of(digits: &Txt, p: &Profile) -> usize
    ensures { result ≡ count_of p.now digits.now }
{
    match integer_written(p, digits) {
        Some(count) => count.unsigned_abs() as usize,
        None => 0,
    }
}

// A bound of a frame.
fn bound_of(bound: &sql_tree::Bound, p: &Profile) -> Bound
    ensures { result ≡ bound_in p.now bound.now }
{
    match bound {
        sql_tree::Bound::Unbounded(Side::Preceding) => Bound::UnboundedPreceding,
        sql_tree::Bound::Unbounded(Side::Following) => Bound::UnboundedFollowing,
        sql_tree::Bound::Rows { count, side } => match side {
            Side::Preceding => Bound::Preceding(count_of(count, p)),
            Side::Following => Bound::Following(count_of(count, p)),
        },
        sql_tree::Bound::CurrentRow => Bound::Current,
    }
}

/// The frame that is written, or the whole partition where none is.
pub(crate) fn frame_of(frame: &Option<sql_tree::Frame>, p: &Profile) -> Frame
    ensures { (i : ℕ) (xs : List cells.Cell) → frames.framed result i xs ≡ framed p.now frame.now i xs }
{
    match frame {
        Some(frame) => Frame {
            first: bound_of(&frame.first, p),
            last: bound_of(&frame.last, p),
        },
        None => Frame {
            first: Bound::UnboundedPreceding,
            last: Bound::UnboundedFollowing,
        },
    }
}

/// The value of a default, null where none is written. It fails only if memory runs out.
pub(crate) fn default_of(
    alloc: Global,
    default: &Option<Literal>,
    p: &Profile,
) -> Result<Cell, AllocError>
    ensures { IfOk result (λ x. x ≡ default_cell p.now default.now) }
{
    let Some(literal) = default else {
        return Ok(Cell::Null);
    };
    match literal_value(alloc, p, literal)? {
        Some(value) => Ok(value),
        None => Ok(Cell::Null),
    }
}
