// Frames, and between which places of a partition they lie.
ghost use Rattle.std.specs.Prelude.{◌≡◌, ◌<◌, ◌≤◌, min};
ghost use Rattle.vtl_cell.specs.Frames.{before, up_to};
ghost use Rattle.vtl_frames.specs.Framed.{bound_of, end_of, start_of};

/// Where a frame starts or ends, seen from the place of a row.
#[derive(Clone, Copy, Debug, PartialEq, Eq)]
pub enum Bound {
    /// At the first row of the partition.
    UnboundedPreceding,
    /// So many rows before.
    Preceding(usize),
    /// At the row itself.
    Current,
    /// So many rows behind.
    Following(usize),
    /// At the last row of the partition.
    UnboundedFollowing,
}

impl Bound {
    // How many rows of a partition stand before a frame that starts here, or all of them.
    fn before(self, count: usize, place: usize) -> usize
        requires { place < count }
        ensures { result ≡ min (before (bound_of self) count place) count }
    {
        match self {
            Bound::UnboundedPreceding => 0,
            Bound::Preceding(rows) => place.saturating_sub(rows),
            Bound::Current => place,
            Bound::Following(rows) => place + rows.min(count - place),
            Bound::UnboundedFollowing => count - 1,
        }
    }

    // How many rows of it stand up to the end of a frame that ends here.
    fn up_to(self, count: usize, place: usize) -> usize
        requires { place < count }
        ensures { result ≡ min (up_to (bound_of self) count place) count }
    {
        match self {
            Bound::UnboundedPreceding => 1,
            Bound::Preceding(rows) => (place + 1).saturating_sub(rows),
            Bound::Current => place + 1,
            Bound::Following(rows) => place + 1 + rows.min(count - place - 1),
            Bound::UnboundedFollowing => count,
        }
    }
}

/// The rows of a partition from one bound to another, none where the first lies behind the last.
#[derive(Clone, Copy, Debug, PartialEq, Eq)]
pub struct Frame {
    /// Where it starts.
    pub first: Bound,
    /// Where it ends.
    pub last: Bound,
}

// The places from one place to before another.
#[derive(Clone, Copy)]
pub(crate) struct Cut {
    pub(crate) start: usize,
    pub(crate) end: usize,
}

impl Frame {
    // The places of the frame of a row.
    pub(crate) fn cut(self, count: usize, place: usize) -> Cut
        requires { place < count }
        ensures start { result.start ≡ start_of self count place }
        ensures end { result.end ≡ end_of self count place }
    {
        let end = self.last.up_to(count, place);
        Cut {
            start: self.first.before(count, place).min(end),
            end,
        }
    }
}
