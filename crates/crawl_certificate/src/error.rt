//! Why a run is not certified.
use std::alloc::AllocError;
use thiserror::Error;

/// Why a run is not certified, in the order in which the errors are searched for.
#[derive(Clone, Copy, Debug, PartialEq, Eq, Error)]
pub enum CertError {
    /// A seed that the filter allows was not accepted.
    #[error("incomplete: seed missing")]
    SeedMissing,
    /// An entry has no result.
    #[error("incomplete: page not fetched")]
    NotFetched,
    /// A link of a result was not accepted, although the filter allows it.
    #[error("incomplete: link missing")]
    LinkMissing,
    /// The filter does not allow an entry; or the entry has no hops and is not a seed; or it has hops, and no result of an entry
    /// with one hop less links to it. Or the URL of a result was not accepted.
    #[error("incomplete: unfounded URL")]
    Unfounded,
    /// Two results have the same URL.
    #[error("incomplete: fetched twice")]
    Twice,
    /// An allocation failed. This may replace any other result.
    #[error("out of memory")]
    NoMemory,
}

impl From<AllocError> for CertError {
    ghost use Rattle.std.specs.Prelude.{◌≡◌};
    ghost use Rattle.crawl_certificate.specs.declared.error.CertError.TheVariants.{NoMemory};

    ghost from_gives = { λ _ e. e ≡ NoMemory };

    fn from(_: AllocError) -> CertError {
        CertError::NoMemory
    }
}
