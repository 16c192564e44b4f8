//! A list of different URLs.
ghost use Rattle.std.specs.Prelude.{◌≡◌, [], Some, slice_get, IfOk, IfSome};
ghost use Rattle.saved_pages.specs.UrlIndices.{KeepIndices};

use crawl_keys::CanonUrl;
use hash_index::HashIndex;
use std::alloc::{AllocError, Global};
use std::marker::Model;

/// Different URLs in the order in which they were inserted, each found by its text.
#[derive(Drop)]
pub struct UrlList {
    urls: Vec<CanonUrl>,
    /// The index of each URL in the list.
    index: HashIndex,
}

// Contracts see the list of URLs.
impl Model for UrlList {
    ghost use Rattle.std.specs.Prelude.{ℕ, List, map};
    ghost use Rattle.hash_order.specs.HashOrder.{hash_of};
    ghost use Rattle.hash_index.specs.Index.{IsIndexOf};

    ghost Value = { List (List ℕ) };

    ghost view = { λ list. list.urls.items };

    ghost invariant = { λ list. IsIndexOf hash_of (map (λ url. url) list.urls.items) list.index };
}

impl UrlList {
    /// Returns an empty list.
    pub fn new(alloc: Global) -> UrlList
        ensures { result ≡ [] }
    {
        UrlList {
            urls: Vec::new(alloc),
            index: HashIndex::new(alloc),
        }
    }

    /// Returns the index of the URL. If the list does not have the URL, a copy of it is pushed.
    pub fn find_or_insert(&mut self, url: &CanonUrl) -> Result<u32, AllocError>
        ensures there { IfOk result (λ index. slice_get self.new index ≡ Some url.now) }
        // This is also true if an allocation fails.
        ensures keep { KeepIndices self.old self.new }
    {
        let found = self.index.find_or_insert(&self.urls, url)?;
        if let Some(index) = found {
            return short(index);
        }
        let last = self.urls.len();
        let copy = url.clone()?;
        self.urls.push(copy)?;
        short(last)
    }

    /// Returns a copy of the URL at the index. `None` if there is no such URL, or if it cannot be copied.
    #[tactic(auto, using(crate::proofs::PageIndex::item_at))]
    pub fn copy_at(&self, index: u32) -> Option<CanonUrl>
        ensures { IfSome result (λ url. slice_get self.now index ≡ Some url) }
    {
        let url = self.urls.get(index as usize)?;
        match url.clone() {
            Ok(copy) => Some(copy),
            Err(_) => None,
        }
    }

    /// Returns only the URLs.
    pub fn into_urls(self) -> Vec<CanonUrl>
        ensures { result.items ≡ self }
    {
        let UrlList { urls, .. } = self;
        urls
    }
}

/// Converts an index to four bytes. Fails if it does not fit.
fn short(index: usize) -> Result<u32, AllocError>
    ensures { IfOk result (λ short. short ≡ index) }
{
    match u32::try_from(index) {
        Ok(short) => Ok(short),
        Err(_) => Err(AllocError),
    }
}
