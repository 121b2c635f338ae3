// How many columns there may be.

/// The most columns of an INPUT.
pub const MOST_INPUT_COLUMNS: usize = 256;

/// The most columns of a query, and so of a table that it makes.
pub const MOST_COLUMNS: usize = 4_096;
