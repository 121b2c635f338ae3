// How far a series reaches.

/// From where to where a series has a row for each period.
#[derive(Clone, Copy, Debug, PartialEq, Eq, PartialOrd, Ord)]
pub enum Extent {
    /// From its own first period to its own last.
    Single,
    /// From the first to the last period of its frequency that the table has, in whichever series.
    All,
}
