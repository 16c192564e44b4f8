//! The URL that has the error of a run that is not certified.
ghost use Rattle.std.specs.Prelude.{◌≡◌, ◌⊎◌, Some};
ghost use Rattle.crawl_certificate.specs.Culprits.{no_memory};

use crate::error::CertError;
use crawl_keys::CanonUrl;
use std::alloc::AllocError;

/// Why a run is not certified, and where.
#[derive(Debug, Drop)]
pub struct Culprit {
    /// The first error of the run.
    pub cause: CertError,
    /// The least URL, byte by byte, that has the error. `None` if memory ran out.
    pub url: Option<CanonUrl>,
}

impl Culprit {
    /// Makes the error at this URL. If there is no memory to copy the URL, the error is out of memory.
    pub fn new(cause: CertError, url: &CanonUrl) -> Culprit
        ensures { (result ≡ record { cause = cause; url = Some url.now }) ⊎ (result ≡ no_memory) }
    {
        match url.copy() {
            Ok(url) => Culprit {
                cause,
                url: Some(url),
            },
            Err(_) => Culprit {
                cause: CertError::NoMemory,
                url: None,
            },
        }
    }
}

impl From<Culprit> for CertError {
    ghost from_gives = { λ culprit cause. cause ≡ culprit.cause };

    fn from(culprit: Culprit) -> CertError {
        culprit.cause
    }
}

impl From<AllocError> for Culprit {
    ghost from_gives = { λ _ culprit. culprit ≡ no_memory };

    fn from(_refused: AllocError) -> Culprit {
        Culprit {
            cause: CertError::NoMemory,
            url: None,
        }
    }
}
