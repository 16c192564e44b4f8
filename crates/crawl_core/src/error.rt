ghost use Rattle.std.specs.Prelude.{◌≡◌};
ghost use Rattle.crawl_core.specs.declared.error.CoreError.TheVariants as wrong;

use std::alloc::{AllocError, AllocFailed};
use std::error::Error;
use std::fmt;

/// Out of memory: an allocation failed.
pub type NoMemory = AllocError;

/// Why no frontier was made, in the order of the checks.
#[derive(Clone, Copy, Debug, PartialEq, Eq)]
pub enum CoreError {
    /// The number of workers is not 1 to [`WORKER_LIMIT`](crate::WORKER_LIMIT).
    BadWorkers,
    /// The maximum is not 1 to [`PENDING_LIMIT`](crate::PENDING_LIMIT).
    BadMax,
    /// An allocation failed.
    NoMemory,
}

impl fmt::Display for CoreError {
    ghost use Rattle.std.specs.Prelude.{Some};
    ghost use Rattle.crawl_core.specs.ErrorText.{error_text};

    ghost output = { λ e. Some (error_text e) };

    fn fmt<W: fmt::Write>(&self, f: &mut fmt::Formatter<W>) -> fmt::Result {
        match self {
            CoreError::BadWorkers => f.write_str("bad number of workers"),
            CoreError::BadMax => f.write_str("bad maximum"),
            CoreError::NoMemory => f.write_str("out of memory"),
        }
    }
}

impl Error for CoreError {}

impl From<AllocError> for CoreError {
    ghost from_gives = { λ _ e. e ≡ wrong.NoMemory };

    fn from(_refused: AllocError) -> CoreError {
        CoreError::NoMemory
    }
}

impl<T: Drop> From<AllocFailed<T>> for CoreError {
    ghost from_gives = { λ _ e. e ≡ wrong.NoMemory };

    fn from(_refused: AllocFailed<T>) -> CoreError {
        CoreError::NoMemory
    }
}
