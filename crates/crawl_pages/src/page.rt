//! The result of a fetch: the links of a page, the URL to which it moved, or that there is no page.
ghost use Rattle.std.specs.Prelude.{◌≡◌, Ok, bytes_eq};
ghost use Rattle.std.specs.Cmp.{partial_equiv_from_equiv};
ghost use Rattle.std.specs.Cmp.Lexicographic.{pointwise, lists_per, lists_equiv, nat_list_eq_equiv};
ghost use Rattle.crawl_keys.specs.Outcome.{Gives};
ghost use Rattle.crawl_pages.specs.Pages.{links_of, is_found, is_missing, is_moved};

use crawl_keys::{CanonUrl, KeyError};
use std::alloc::AllocError;
use std::marker::Model;

/// Out of memory.
pub type NoMemory = AllocError;

/// The links of a page, in the order of the page. A link that occurs twice is listed twice.
#[derive(Debug, Drop)]
pub struct Links {
    urls: Vec<CanonUrl>,
}

// Contracts see the list of their texts.
impl Model for Links {
    ghost use Rattle.std.specs.Prelude.{ℕ, List};

    ghost Value = { List (List ℕ) };

    ghost view = { λ links. links.urls.items };
}

impl Links {
    /// Returns the links, in order.
    pub fn as_slice(&self) -> &[CanonUrl]
        ensures { result.now ≡ self.now }
    {
        self.urls.as_slice()
    }
}

impl Clone for Links {
    ghost is_clone = { λ links copy. copy ≡ links };

    fn clone(&self) -> Result<Links, AllocError> {
        let urls = self.urls.clone()?;
        Ok(Links { urls })
    }
}

impl From<Vec<CanonUrl>> for Links {
    ghost from_gives = { λ urls links. links ≡ urls.items };

    fn from(urls: Vec<CanonUrl>) -> Links {
        Links { urls }
    }
}

impl From<Links> for Vec<CanonUrl> {
    ghost from_gives = { λ links urls. urls.items ≡ links };

    fn from(links: Links) -> Vec<CanonUrl> {
        let Links { urls } = links;
        urls
    }
}

impl PartialEq for Links {
    ghost eq = { pointwise bytes_eq };

    ghost laws = { lists_per (partial_equiv_from_equiv nat_list_eq_equiv) };

    fn eq(&self, other: &Links) -> bool {
        self.urls == other.urls
    }
}

impl Eq for Links {
    ghost laws = { lists_equiv nat_list_eq_equiv };
}

/// What is found at a URL.
#[derive(Debug, PartialEq, Eq, Drop)]
pub enum Page {
    /// A page.
    Found {
        /// Its links that have a canonical URL.
        links: Links,
        /// The number of further links, which are not URLs or neither http nor https.
        skipped: u64,
    },
    /// The page has moved.
    Moved {
        /// Its new URL, if that is canonical.
        to: Option<CanonUrl>,
    },
    /// There is no page at the URL.
    Missing,
}

/// A URL and what was found there.
#[derive(Debug, PartialEq, Eq, Drop)]
pub struct PageResult {
    /// The URL that was fetched.
    pub url: CanonUrl,
    /// The page that was found there.
    pub page: Page,
}

/// Returns the links that a crawl follows from the page: the URL to which it moved, if it did, and none if it is missing. Every
/// crawl calls this function.
pub fn links_of(page: &Page) -> &[CanonUrl]
    ensures { result.now ≡ links_of page.now }
{
    match page {
        Page::Found { links, .. } => links.as_slice(),
        Page::Moved { to } => to.as_slice(),
        Page::Missing => &[],
    }
}

impl Page {
    /// Whether a page was found.
    pub fn is_found(&self) -> bool
        ensures { result ≡ is_found self.now }
    {
        matches!(self, Page::Found { .. })
    }

    /// Whether there is no page at the URL.
    pub fn is_missing(&self) -> bool
        ensures { result ≡ is_missing self.now }
    {
        matches!(self, Page::Missing)
    }

    /// Whether the page has moved.
    pub fn is_moved(&self) -> bool
        ensures { result ≡ is_moved self.now }
    {
        matches!(self, Page::Moved { .. })
    }

    /// Returns an equal page. The only error is `NoMemory`.
    fn copy(&self) -> Result<Page, KeyError>
        ensures { Gives KeyError.NoMemory (λ copy. copy) result (Ok self.now) }
    {
        match self {
            Page::Found { links, skipped } => Ok(Page::Found {
                links: links.clone()?,
                skipped: *skipped,
            }),
            Page::Moved { to: Some(url) } => Ok(Page::Moved {
                to: Some(url.copy()?),
            }),
            Page::Moved { to: None } => Ok(Page::Moved { to: None }),
            Page::Missing => Ok(Page::Missing),
        }
    }
}

impl PageResult {
    /// Returns an equal result that shares the texts of the URLs. The only error is `NoMemory`.
    pub fn copy(&self) -> Result<PageResult, KeyError>
        ensures { Gives KeyError.NoMemory (λ copy. copy) result (Ok self.now) }
    {
        let url = self.url.copy()?;
        let page = self.page.copy()?;
        Ok(PageResult { url, page })
    }
}
