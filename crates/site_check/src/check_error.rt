//! Why a check fails.
ghost use Rattle.std.specs.Prelude.{◌≡◌};
ghost use Rattle.site_check.specs.declared.check_error.CheckError.TheVariants as wrong;

use std::alloc::AllocError;

/// Why a check fails.
#[derive(Clone, Copy, Debug, PartialEq, Eq)]
pub enum CheckError {
    /// A file with a link that is reported cannot be read a second time.
    FileUnread,
    /// A link that is reported leads elsewhere when its file is read a second time.
    FileChanged,
    /// The location of a link to a missing page or a missing anchor is not in a row of it, or that of a link to a missing page is not known.
    /// This would be a bug, unless a file has 2^32 links or more.
    LinkLost,
    /// Out of memory.
    NoMemory,
}

impl From<AllocError> for CheckError {
    ghost from_gives = { λ _ error. error ≡ wrong.NoMemory };

    fn from(_refused: AllocError) -> CheckError {
        CheckError::NoMemory
    }
}
