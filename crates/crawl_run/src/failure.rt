//! Why a crawl has no certified result, and at which URL.
ghost use Rattle.std.specs.Prelude.{◌≡◌, None};
ghost use Rattle.crawl_run.specs.Crawls.{losses_at, of_cert, without_url};
ghost use Rattle.crawl_run.specs.declared.error.CrawlError.TheVariants as wrong;

use crate::error::CrawlError;
use crawl_certificate::Culprit;
use crawl_keys::CanonUrl;
use link_offers::Losses;
use std::alloc::AllocError;

/// Why a crawl has no certified result, and at which URL.
#[derive(Drop)]
pub struct CrawlFailure {
    /// The error.
    pub error: CrawlError,
    /// If the certificate failed, the first URL in byte order at which it fails; otherwise `None`.
    pub culprit: Option<CanonUrl>,
    /// If the certificate failed, the losses of seeder and workers, by cause; otherwise no losses.
    pub losses: Losses,
}

impl From<CrawlError> for CrawlFailure {
    ghost from_gives = { λ error failure. failure ≡ without_url error };

    fn from(error: CrawlError) -> CrawlFailure {
        CrawlFailure {
            error,
            culprit: None,
            losses: Losses::none(),
        }
    }
}

impl CrawlFailure {
    /// Makes the failure of a run with these losses, whose certificate names this culprit.
    pub(crate) fn of_culprit(culprit: Culprit, losses: Losses) -> CrawlFailure
        ensures { result ≡ record { error = of_cert culprit.cause; culprit = culprit.url; losses = losses_at culprit.url losses } }
    {
        let error = CrawlError::from(culprit.cause);
        match culprit.url {
            Some(url) => CrawlFailure {
                error,
                culprit: Some(url),
                losses,
            },
            None => CrawlFailure::from(error),
        }
    }
}

impl From<AllocError> for CrawlFailure {
    ghost from_gives = { λ _ failure. failure ≡ without_url wrong.NoMemory };

    fn from(_refused: AllocError) -> CrawlFailure {
        CrawlFailure::from(CrawlError::NoMemory)
    }
}
