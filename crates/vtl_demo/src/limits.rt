// How many points the demonstration may have.

/// The most points that a data set of the demonstration may have.
pub const MOST_POINTS: u64 = 1_000_000;
