//! Why a crawl has no certified result.
ghost use Rattle.std.specs.Prelude.{◌≡◌};
ghost use Rattle.crawl_run.specs.Crawls.{of_frontier, of_run, of_finish, of_cert, is_incomplete};
ghost use Rattle.crawl_run.specs.declared.error.CrawlError.TheVariants as wrong;

use crawl_certificate::CertError;
use crawl_frontier::{FinishError, FrontierError};
use crawl_workers::RunError;
use std::alloc::{AllocError, AllocFailed};

/// Why a crawl has no certified result. Out of memory is always `NoMemory`, never the reason in another variant.
#[derive(Clone, Copy, Debug, PartialEq, Eq)]
pub enum CrawlError {
    /// The number of workers or the limit of pending URLs is out of range.
    Frontier(FrontierError),
    /// A thread could not be started, and no URL was fetched.
    Run(RunError),
    /// The queues and the logs do not agree with each other.
    Finish(FinishError),
    /// The certificate found an error: something is missing, or should not be there.
    Cert(CertError),
    /// Out of memory.
    NoMemory,
}

impl CrawlError {
    /// Returns whether a crawl was made and is incomplete: it is not certified, has no account, or had no thread.
    pub fn is_incomplete(self) -> bool
        ensures { result ≡ is_incomplete self }
    {
        match self {
            CrawlError::Run(_) | CrawlError::Finish(_) | CrawlError::Cert(_) => true,
            CrawlError::Frontier(_) | CrawlError::NoMemory => false,
        }
    }
}

impl From<FrontierError> for CrawlError {
    ghost from_gives = { λ frontier error. error ≡ of_frontier frontier };

    fn from(error: FrontierError) -> CrawlError {
        match error {
            FrontierError::NoMemory => CrawlError::NoMemory,
            _ => CrawlError::Frontier(error),
        }
    }
}

impl From<RunError> for CrawlError {
    ghost from_gives = { λ run error. error ≡ of_run run };

    fn from(error: RunError) -> CrawlError {
        match error {
            RunError::NoMemory => CrawlError::NoMemory,
            RunError::NoThread => CrawlError::Run(error),
        }
    }
}

impl From<FinishError> for CrawlError {
    ghost from_gives = { λ finish error. error ≡ of_finish finish };

    fn from(error: FinishError) -> CrawlError {
        match error {
            FinishError::NoMemory => CrawlError::NoMemory,
            _ => CrawlError::Finish(error),
        }
    }
}

impl From<CertError> for CrawlError {
    ghost from_gives = { λ cert error. error ≡ of_cert cert };

    fn from(error: CertError) -> CrawlError {
        match error {
            CertError::NoMemory => CrawlError::NoMemory,
            _ => CrawlError::Cert(error),
        }
    }
}

impl From<AllocError> for CrawlError {
    ghost from_gives = { λ _ error. error ≡ wrong.NoMemory };

    fn from(_refused: AllocError) -> CrawlError {
        CrawlError::NoMemory
    }
}

impl<T: Drop> From<AllocFailed<T>> for CrawlError {
    ghost from_gives = { λ _ error. error ≡ wrong.NoMemory };

    fn from(_refused: AllocFailed<T>) -> CrawlError {
        CrawlError::NoMemory
    }
}
