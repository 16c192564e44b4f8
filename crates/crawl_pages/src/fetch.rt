//! Sources of pages.
ghost use Rattle.std.specs.Prelude.{◌≡◌, IfOk};

use crate::page::Page;
use crawl_keys::CanonUrl;
use std::alloc::{AllocError, AllocFailed, Global};

/// Why a fetch returned no page.
#[derive(Clone, Copy, Debug, PartialEq, Eq)]
pub enum FetchError {
    /// Out of memory.
    NoMemory,
    /// The fetch itself failed.
    Failed,
}

impl From<AllocError> for FetchError {
    ghost use Rattle.crawl_pages.specs.declared.fetch.FetchError.TheVariants.{NoMemory};

    ghost from_gives = { λ _ e. e ≡ NoMemory };

    fn from(_refused: AllocError) -> FetchError {
        FetchError::NoMemory
    }
}

impl<T: Drop> From<AllocFailed<T>> for FetchError {
    ghost use Rattle.crawl_pages.specs.declared.fetch.FetchError.TheVariants.{NoMemory};

    ghost from_gives = { λ _ e. e ≡ NoMemory };

    fn from(_refused: AllocFailed<T>) -> FetchError {
        FetchError::NoMemory
    }
}

/// A source of pages. Which page each URL has is fixed: a fetch may fail, but it never returns another page.
pub trait Fetch {
    ghost use Rattle.std.specs.Prelude.{ℕ, List};
    ghost use Rattle.crawl_pages.specs.declared.page.Page.{Page};

    /// The page of each canonical URL.
    ghost meaning: { Self → List ℕ → Page };

    /// Returns the page at the URL.
    ///
    /// # Errors
    /// `NoMemory` if memory ran out, `Failed` if the source returned nothing.
    fn fetch(&self, alloc: Global, url: &CanonUrl) -> Result<Page, FetchError>
        ensures meaning { IfOk result (λ page. page ≡ meaning self.now url.now) };
}
