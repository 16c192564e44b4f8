//! The pages of a saved web, found by their URLs.
ghost use Rattle.std.specs.Prelude.{◌≡◌, ◌==◌, ◌++◌, ◌∷◌, [], not, length, map, slice_get, IfOk, OnOk, IfSome, if◌then◌else◌, option_map};
ghost use Rattle.hash_index.specs.Lists.{index_of};
ghost use Rattle.saved_pages.specs.PageLists.{page_with, has, urls};

use crate::known_page::KnownPage;
use crawl_keys::CanonUrl;
use hash_index::HashIndex;
use std::alloc::{AllocError, Global};
use std::marker::Model;

/// Pages with different URLs, in the order in which they were read, and the index with which they are found.
#[derive(Drop)]
pub struct Pages<'a> {
    list: Vec<KnownPage<'a>>,
    index: HashIndex,
}

// Contracts see the list of pages.
impl<'a> Model for Pages<'a> {
    ghost use Rattle.std.specs.Prelude.{List, map};
    ghost use Rattle.std.specs.Coded.{coded_list};
    ghost use Rattle.hash_order.specs.HashOrder.{hash_of};
    ghost use Rattle.hash_index.specs.Index.{IsIndexOf};
    ghost use Rattle.saved_pages.specs.PageLists.{PageRead, page_read_code};

    ghost Value = { List PageRead };

    ghost coded = { coded_list page_read_code };

    ghost view = { λ pages. pages.list.items };

    ghost invariant = { λ pages. IsIndexOf hash_of (map (λ page. page.url) pages.list.items) pages.index };
}

impl<'a> Pages<'a> {
    /// Makes a list without pages, and an index with slots for `count` pages. If there is no memory for them, the index grows with
    /// the list.
    pub fn new(alloc: Global, count: usize) -> Pages<'a>
        ensures { result ≡ [] }
    {
        let index = match HashIndex::with_capacity(alloc, count) {
            Ok(index) => index,
            Err(_) => HashIndex::new(alloc),
        };
        Pages {
            list: Vec::new(alloc),
            index,
        }
    }

    /// Whether there is no page.
    pub fn is_empty(&self) -> bool
        ensures { result ≡ (length self.now == 0) }
    {
        self.list.is_empty()
    }

    /// Returns the number of pages.
    pub fn len(&self) -> usize
        ensures { result ≡ length self.now }
    {
        self.list.len()
    }

    /// Adds a page, unless there is one with its URL. Returns whether it was added.
    #[tactic(auto, using(crate::proofs::PageIndex::has_index_there))]
    pub fn add(&mut self, page: KnownPage<'a>) -> Result<bool, AllocError>
        ensures added { IfOk result (λ added. added ≡ not (has self.old page.entry.url)) }
        ensures pages { IfOk result (λ added. self.new ≡ (if added then self.old ++ page.entry ∷ [] else self.old)) }
    {
        let found = self.index.find_or_insert(&self.list, &page)?;
        if found.is_some() {
            return Ok(false);
        }
        self.list.push(page)?;
        Ok(true)
    }

    /// Returns the page with the URL.
    pub fn get(&self, url: &CanonUrl) -> Option<&KnownPage<'a>>
        ensures page { option_map (λ page. page.now) result ≡ page_with self.now url.now }
        ensures same { IfSome result (λ page. page.now.url ≡ url.now) }
    {
        // A search in an index without slots would look through all of it, so it is skipped.
        if self.list.is_empty() {
            return None;
        }
        match self.index.find(&self.list, url) {
            Some(index) => self.list.get(index),
            None => None,
        }
    }

    /// Returns the index of the page with the URL.
    pub fn find(&self, url: &CanonUrl) -> Option<usize>
        ensures { result ≡ index_of (map (λ page. page.url) self.now) url.now }
    {
        if self.list.is_empty() {
            return None;
        }
        self.index.find(&self.list, url)
    }

    /// Reads the slots in which a look-up of each of these hashes begins. The result has no meaning.
    pub fn read_slots(&self, hashes: &[u64]) -> u64 {
        let mut sum: u64 = 0;
        for hash in hashes {
            sum = sum.wrapping_add(self.index.guess(*hash) as u64);
        }
        sum
    }

    /// Reads the pages that the slots of these hashes name. The result has no meaning.
    pub fn read_list(&self, hashes: &[u64]) -> u64 {
        let mut sum: u64 = 0;
        for hash in hashes {
            if let Some(page) = self.list.get(self.index.guess(*hash)) {
                sum = sum.wrapping_add(page.bytes_left() as u64);
            }
        }
        sum
    }

    /// Reads the first cache lines of the pages that the slots of these hashes name. The result has no meaning.
    pub fn read_texts(&self, hashes: &[u64]) -> u64 {
        let mut sum: u64 = 0;
        for hash in hashes {
            if let Some(page) = self.list.get(self.index.guess(*hash)) {
                sum = sum.wrapping_add(page.read_ahead());
            }
        }
        sum
    }

    /// Returns the pages as a slice.
    pub fn as_slice(&self) -> &[KnownPage<'a>]
        ensures { result.now ≡ self.now }
    {
        &self.list
    }

    /// Returns the page at the index.
    #[tactic(auto, using(crate::proofs::PageIndex::item_at))]
    pub fn at(&self, index: usize) -> Option<&KnownPage<'a>>
        ensures { option_map (λ page. page.now) result ≡ slice_get self.now index }
    {
        self.list.get(index)
    }

    /// Appends the URLs of the pages to `all`.
    pub fn push_urls(&self, alloc: Global, all: &mut Vec<CanonUrl>) -> Result<(), AllocError>
        ensures { OnOk result (all.new.items ≡ all.old.items ++ urls self.now) }
    {
        for page in &self.list {
            all.push(page.to_url(alloc)?)?;
        }
        Ok(())
    }

    /// Returns about how many bytes of the input the pages have.
    pub fn bytes(&self) -> usize {
        match self.list.first() {
            Some(page) => page.bytes_left(),
            None => 0,
        }
    }

    /// Returns the index of the first page after the first `bytes` of these bytes.
    pub fn index_after(&self, bytes: usize) -> usize {
        let left = self.bytes().saturating_sub(bytes);
        self.list.partition_point(|page| page.bytes_left() > left)
    }

    /// Whether some page has at least about this number of bytes, up to the next page or to the end.
    pub fn has_long_page(&self, bytes: usize) -> bool {
        let mut before: usize = 0;
        for page in &self.list {
            let left = page.bytes_left();
            if before.saturating_sub(left) >= bytes {
                return true;
            }
            before = left;
        }
        before >= bytes
    }

    /// Whether there is a page with the URL of this one.
    #[tactic(auto, using(crate::proofs::PageIndex::has_index_there))]
    pub fn has(&self, page: &KnownPage<'_>) -> bool
        ensures { result ≡ has self.now page.now.url }
    {
        let found = self.index.find(&self.list, page);
        found.is_some()
    }
}
