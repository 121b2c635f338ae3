// The frame of an analytic call.
ghost use Rattle.std.specs.Fmt.{decimal};
ghost use Rattle.std.specs.Prelude.{◌≡◌, IfOk};
ghost use Rattle.vtl_meaning.specs.Windows.{default_frame, frame_in};
ghost use Rattle.sql_tree.specs.declared.windows.Bound.TheVariants as bound;
ghost use Rattle.groups_to_sql.specs.Windowed.{bound_to_sql, frame_to_sql, framed_to_sql};

use sql_tree::{Bound, Frame, Side};
use std::alloc::{AllocError, Global};
use vtl_text::Txt;
use vtl_tree::{AnalyticOp, Bound as Place, Frame as Part, OrderKey, Window as Seen};

/// The digits of a count of rows. It fails only if memory runs out.
pub(crate) fn count_digits(alloc: Global, count: u32) -> Result<Txt, AllocError>
    ensures { IfOk result (λ t. t ≡ decimal count) }
{
    let digits = format!(in alloc; "{}", count)?;
    Txt::new(alloc, &digits)
}

// So many rows on a side.
fn rows(alloc: Global, count: u32, side: Side) -> Result<Bound, AllocError>
    ensures { IfOk result (λ b. b ≡ bound.Rows (decimal count) side) }
{
    let count = count_digits(alloc, count)?;
    Ok(Bound::Rows { count, side })
}

// An end of a frame.
fn bound(alloc: Global, place: Place) -> Result<Bound, AllocError>
    ensures { IfOk result (λ b. b ≡ bound_to_sql place) }
{
    match place {
        Place::UnboundedPreceding => Ok(Bound::Unbounded(Side::Preceding)),
        Place::Preceding(count) => rows(alloc, count, Side::Preceding),
        Place::Current => Ok(Bound::CurrentRow),
        Place::Following(count) => rows(alloc, count, Side::Following),
        Place::UnboundedFollowing => Ok(Bound::Unbounded(Side::Following)),
    }
}

fn frame(alloc: Global, part: Part) -> Result<Frame, AllocError>
    ensures { IfOk result (λ f. f ≡ frame_to_sql part) }
{
    Ok(Frame {
        first: bound(alloc, part.start)?,
        last: bound(alloc, part.end)?,
    })
}

// The frame where none is written.
fn default_frame(order: &[OrderKey]) -> Part
    ensures { result ≡ default_frame order.now }
{
    match order {
        [] => Part {
            start: Place::UnboundedPreceding,
            end: Place::UnboundedFollowing,
        },
        [_, ..] => Part {
            start: Place::UnboundedPreceding,
            end: Place::Current,
        },
    }
}

// The frame that is written, or the one where none is.
fn frame_in(seen: &Seen) -> Part
    ensures { result ≡ frame_in seen.now }
{
    match seen.frame {
        Some(part) => part,
        None => default_frame(seen.order.as_slice()),
    }
}

/// The frame of an operator that has one. It fails only if memory runs out.
pub(crate) fn framed(
    alloc: Global,
    op: &AnalyticOp,
    seen: &Seen,
) -> Result<Option<Frame>, AllocError>
    ensures { IfOk result (λ f. f ≡ framed_to_sql op.now seen.now) }
{
    match op {
        AnalyticOp::Lag { .. }
        | AnalyticOp::Lead { .. }
        | AnalyticOp::Rank
        | AnalyticOp::RatioToReport => Ok(None),
        _ => Ok(Some(frame(alloc, frame_in(seen))?)),
    }
}
