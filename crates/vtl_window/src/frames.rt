// Frames along a partition.
ghost use Rattle.std.specs.Prelude.{◌≡◌};
ghost use Rattle.vtl_meaning.specs.Windows.{default_frame, frame_in};
ghost use Rattle.vtl_window.specs.Frames.{bound_in, taken_frame};

use vtl_frames::{Bound, Frame};
use vtl_tree::{OrderKey, Window};

// A bound of a frame.
fn bound_of(bound: vtl_tree::Bound) -> Bound
    ensures { result ≡ bound_in bound }
{
    match bound {
        vtl_tree::Bound::UnboundedPreceding => Bound::UnboundedPreceding,
        vtl_tree::Bound::Preceding(count) => Bound::Preceding(count as usize),
        vtl_tree::Bound::Current => Bound::Current,
        vtl_tree::Bound::Following(count) => Bound::Following(count as usize),
        vtl_tree::Bound::UnboundedFollowing => Bound::UnboundedFollowing,
    }
}

// A frame that is written.
fn written(frame: vtl_tree::Frame) -> Frame
    ensures { result ≡ taken_frame frame }
{
    Frame {
        first: bound_of(frame.start),
        last: bound_of(frame.end),
    }
}

// The frame where none is written: up to the point itself, or the whole partition where there is no order.
fn unwritten(order: &[OrderKey]) -> Frame
    ensures { result ≡ taken_frame (default_frame order.now) }
{
    let last = match order {
        [] => Bound::UnboundedFollowing,
        _ => Bound::Current,
    };
    Frame {
        first: Bound::UnboundedPreceding,
        last,
    }
}

/// The frame of a window.
pub(crate) fn frame_of(window: &Window) -> Frame
    ensures { result ≡ taken_frame (frame_in window.now) }
{
    match &window.frame {
        Some(frame) => written(*frame),
        None => unwritten(window.order.as_slice()),
    }
}
