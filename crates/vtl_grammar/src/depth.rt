// How deep statements may be.

/// The depth that a statement may have.
pub const DEPTH_LIMIT: usize = 128;
