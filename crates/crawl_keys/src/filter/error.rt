//! Why a filter was not made.
ghost use Rattle.std.specs.Prelude.{◌≡◌};
ghost use Rattle.crawl_keys.specs.declared.filter.error.FilterError.TheVariants as wrong;

use std::alloc::{AllocError, AllocFailed};
use std::error::Error;
use std::fmt;

/// Why a filter was not made. The variants are in the order of the checks.
#[derive(Clone, Copy, Debug, PartialEq, Eq, Hash)]
pub enum FilterError {
    /// The suffix at this index, from 0, is the first that is empty or has a byte other than `a` to
    /// `z`, `0` to `9`, `-` and `.`.
    BadSuffix(u64),
    /// An allocation failed.
    NoMemory,
}

impl fmt::Display for FilterError {
    ghost use Rattle.std.specs.Prelude.{Some};
    ghost use Rattle.crawl_keys.specs.HostFilter.{filter_message};

    ghost output = { λ e. Some (filter_message e) };

    fn fmt<W: fmt::Write>(&self, f: &mut fmt::Formatter<W>) -> fmt::Result {
        f.write_str(match self {
            FilterError::BadSuffix(_) => "bad suffix",
            FilterError::NoMemory => "out of memory",
        })
    }
}

impl Error for FilterError {}

impl From<AllocError> for FilterError {
    ghost from_gives = { λ _ e. e ≡ wrong.NoMemory };

    fn from(_: AllocError) -> FilterError {
        FilterError::NoMemory
    }
}

impl<T: Drop> From<AllocFailed<T>> for FilterError {
    ghost from_gives = { λ _ e. e ≡ wrong.NoMemory };

    fn from(_: AllocFailed<T>) -> FilterError {
        FilterError::NoMemory
    }
}
