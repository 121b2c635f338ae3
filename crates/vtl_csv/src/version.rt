// The versions of a structures file.

use vtl_decimal::Profile;

/// The version of a structures file.
#[derive(Clone, Copy)]
pub enum Version {
    /// Version 1 declares no profile, and no component as never null.
    First,
    /// Version 2 declares a profile, and of each component whether it may be null.
    Second,
}

/// How a structures file begins: its version, and in version 2 a profile.
pub struct Opening {
    pub version: Version,
    pub profile: Option<Profile>,
}

// Written out, so that a proof above sees one call and not the drop of each part.
impl Drop for Opening {
    fn drop(self) {
        let Opening {
            version: _version,
            profile: _profile,
        } = self;
    }
}
