//! The errors of making a saved web.
use std::alloc::{AllocError, AllocFailed};
use std::io;

/// Why a saved web cannot be made.
#[derive(Debug, Drop)]
pub enum SiteError {
    /// The base is not an http or https URL without a query.
    BadBase,
    /// There are no files.
    NoFiles,
    /// No URL of the list is below the base.
    NoneListed,
    /// The saved web exceeds the limit of a crawl.
    TooLarge,
    /// An allocation failed.
    NoMemory,
    /// The folder cannot be read.
    Io(io::Error),
}

impl From<AllocError> for SiteError {
    ghost use Rattle.std.specs.Prelude.{◌≡◌};
    ghost use Rattle.site_files.specs.declared.error.SiteError.TheVariants.{NoMemory};

    ghost from_gives = { λ _ error. error ≡ NoMemory };

    fn from(_refused: AllocError) -> SiteError {
        SiteError::NoMemory
    }
}

impl<T: Drop> From<AllocFailed<T>> for SiteError {
    ghost use Rattle.std.specs.Prelude.{◌≡◌};
    ghost use Rattle.site_files.specs.declared.error.SiteError.TheVariants.{NoMemory};

    ghost from_gives = { λ _ error. error ≡ NoMemory };

    fn from(_refused: AllocFailed<T>) -> SiteError {
        SiteError::NoMemory
    }
}

impl From<io::Error> for SiteError {
    fn from(error: io::Error) -> SiteError {
        if error.kind() == io::ErrorKind::OutOfMemory {
            return SiteError::NoMemory;
        }
        SiteError::Io(error)
    }
}
