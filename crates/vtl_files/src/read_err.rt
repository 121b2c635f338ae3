ghost use Rattle.std.specs.Prelude.{◌≡◌};

use crate::failed::Failed;
use std::alloc::AllocError;

/// Why a file was not read.
#[derive(Clone, Copy, Debug, PartialEq, Eq)]
pub enum ReadErr {
    /// There is no file of this name.
    Absent,
    /// The file has more bytes than the limit.
    TooLong,
    /// The file could not be opened or read.
    Failed,
    /// There was not enough memory for the name or the bytes.
    OutOfMemory,
}

impl From<Failed> for ReadErr {
    ghost use Rattle.vtl_files.specs.declared.read_err.ReadErr.{ReadErr};

    ghost from_gives = { λ _ e. e ≡ ReadErr.Failed };

    fn from(_failed: Failed) -> ReadErr {
        ReadErr::Failed
    }
}

impl From<AllocError> for ReadErr {
    ghost use Rattle.vtl_files.specs.declared.read_err.ReadErr.{ReadErr};

    ghost from_gives = { λ _ e. e ≡ ReadErr.OutOfMemory };

    fn from(_refused: AllocError) -> ReadErr {
        ReadErr::OutOfMemory
    }
}
