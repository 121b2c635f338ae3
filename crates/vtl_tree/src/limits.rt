// How many components there may be.

/// The most components that a structure may have.
pub const MAX_COMPONENTS: usize = 256;
