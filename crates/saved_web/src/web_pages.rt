//! The pages of a saved web, in the chunks in which they were read.
ghost use Rattle.std.specs.Prelude.{◌≡◌, ◌++◌, ℕ, List, Some, true, false, slice_get, IfOk, IfSome, flat_map, option_map};
ghost use Rattle.saved_pages.specs.PageLists.{page_with, has, urls};

use crawl_keys::CanonUrl;
use crawl_pages::NoMemory;
use saved_pages::{KnownPage, Pages};
use std::alloc::{AllocError, Global};
use std::marker::Model;
use std::thread::{Threads, join};

/// The number of pages, about, that are tested to find out whether all have the same host.
const SAMPLES: usize = 1_024;

/// Threads do not search a list with fewer pages than this.
const LEAST: usize = 4_096;

/// How often a list is halved. The number of threads that search a chunk is two to this power.
const HALVINGS: u32 = 2;

/// The pages of a saved web: one chunk, or one for each thread that read some. Each chunk has its own index.
#[derive(Drop)]
pub struct WebPages<'a> {
    chunks: Vec<Pages<'a>>,
}

// Contracts see the pages of all chunks, in order.
impl<'a> Model for WebPages<'a> {
    ghost use Rattle.std.specs.Prelude.{List, flat_map};
    ghost use Rattle.std.specs.Coded.{coded_list};
    ghost use Rattle.saved_pages.specs.PageLists.{PageRead, page_read_code};

    ghost Value = { List PageRead };

    ghost coded = { coded_list page_read_code };

    ghost view = { λ pages. flat_map (λ chunk. chunk) pages.chunks.items };
}

impl<'a> WebPages<'a> {
    /// Returns the pages in one chunk.
    pub fn one(alloc: Global, pages: Pages<'a>) -> Result<WebPages<'a>, AllocError>
        ensures { IfOk result (λ web. web ≡ pages.entry) }
    {
        let mut chunks = Vec::with_capacity(alloc, 1)?;
        chunks.push(pages)?;
        Ok(WebPages { chunks })
    }

    /// Returns the page with the URL: that of the first chunk that has one.
    #[tactic(auto, using(crate::proofs::ChunkPages::passed_chunk, crate::proofs::ChunkPages::found_chunk))]
    pub fn get(&self, url: &CanonUrl) -> Option<&KnownPage<'a>>
        ensures page { option_map (λ page. page.now) result ≡ page_with self.now url.now }
        ensures same { IfSome result (λ page. page.now.url ≡ url.now) }
    {
        for chunk in &self.chunks {
            if let Some(page) = chunk.get(url) {
                return Some(page);
            }
        }
        None
    }

    /// Returns the index of the page with the URL.
    #[tactic(auto, using(crate::proofs::ChunkPlaces::summed_index, crate::proofs::ChunkPlaces::found_index))]
    pub fn find(&self, url: &CanonUrl) -> Option<usize>
        ensures { IfSome result (λ index. slice_get self.now index ≡ page_with self.now url.now) }
    {
        let mut before: usize = 0;
        for chunk in &self.chunks {
            if let Some(index) = chunk.find(url) {
                return before.checked_add(index);
            }
            before = before.checked_add(chunk.len())?;
        }
        None
    }

    /// Returns the page at the index.
    #[tactic(auto, using(crate::proofs::ChunkPlaces::passed_rest, crate::proofs::ChunkPlaces::lent_page, crate::proofs::ChunkPlaces::from_chunk, crate::proofs::ChunkPlaces::found_place))]
    pub fn page(&self, index: usize) -> Option<&KnownPage<'a>>
        ensures { IfSome result (λ page. slice_get self.now index ≡ Some page.now) }
    {
        let mut index = index;
        for chunk in &self.chunks {
            if index < chunk.len() {
                return chunk.at(index);
            }
            index -= chunk.len();
        }
        None
    }

    /// Returns the URLs of the pages.
    #[tactic(auto, using(crate::proofs::ChunkPages::urls_more))]
    pub fn urls(&self, alloc: Global) -> Result<Vec<CanonUrl>, NoMemory>
        ensures { IfOk result (λ all. all.items ≡ urls self.now) }
    {
        let mut all = Vec::new(alloc);
        for chunk in &self.chunks {
            chunk.push_urls(alloc, &mut all)?;
        }
        Ok(all)
    }

    /// Reads what look-ups of URLs with these hashes read, and the beginning of their pages: first all slots, then what the slots
    /// name. The result has no meaning.
    pub fn read_ahead(&self, hashes: &[u64]) -> u64 {
        let mut sum: u64 = 0;
        for chunk in &self.chunks {
            sum = sum.wrapping_add(chunk.read_slots(hashes));
        }
        for chunk in &self.chunks {
            sum = sum.wrapping_add(chunk.read_list(hashes));
        }
        for chunk in &self.chunks {
            sum = sum.wrapping_add(chunk.read_texts(hashes));
        }
        sum
    }

    /// Returns about how many bytes of the input the pages have.
    pub fn bytes(&self) -> usize {
        let mut bytes: usize = 0;
        for chunk in &self.chunks {
            bytes = bytes.saturating_add(chunk.bytes());
        }
        bytes
    }

    /// Returns the index of the first page after the first `bytes` of these bytes.
    pub fn index_after(&self, bytes: usize) -> usize {
        let mut bytes = bytes;
        let mut before: usize = 0;
        for chunk in &self.chunks {
            let own = chunk.bytes();
            if bytes < own {
                return before.saturating_add(chunk.index_after(bytes));
            }
            bytes -= own;
            before = before.saturating_add(chunk.len());
        }
        before
    }

    /// Whether all pages that are tested have the same host.
    pub fn has_one_host(&self) -> bool {
        let Some(first) = self.page(0) else {
            return false;
        };
        let count = self.index_after(self.bytes());
        let step = count / SAMPLES + 1;
        for sample in 1..SAMPLES {
            match self.page(step.saturating_mul(sample)) {
                Some(page) if page.host() != first.host() => return false,
                Some(_) => {}
                None => return true,
            }
        }
        true
    }

    /// Returns the page with the URL, if it has at least about this number of bytes.
    pub fn long(&self, url: &CanonUrl, bytes: usize) -> Option<&KnownPage<'a>>
        ensures { IfSome result (λ page. page_with self.now url.now ≡ Some page.now) }
    {
        let index = self.find(url)?;
        let page = self.page(index)?;
        if page.bytes_before(self.page(index.saturating_add(1))) < bytes {
            return None;
        }
        Some(page)
    }

    /// Whether some page has at least about this number of bytes.
    pub fn has_long_page(&self, bytes: usize) -> bool {
        for chunk in &self.chunks {
            if chunk.has_long_page(bytes) {
                return true;
            }
        }
        false
    }

    /// Returns the pages of both, these first. `None` if both have a page with the same URL, or if memory runs out.
    pub fn and<R: Threads + Sync>(self, rt: &R, more: WebPages<'a>) -> Option<WebPages<'a>>
        ensures both { IfSome result (λ web. web ≡ self.entry ++ more.entry) }
        ensures apart { IfSome result (λ _. (url : List ℕ) → has more.entry url ≡ true → has self.entry url ≡ false) }
    {
        if some_known(rt, &self.chunks, &more.chunks) {
            return None;
        }
        let WebPages { mut chunks } = self;
        let WebPages { chunks: mut others } = more;
        match chunks.append(&mut others) {
            Ok(()) => Some(WebPages { chunks }),
            Err(_) => None,
        }
    }
}

/// Whether a page of the chunks and a page of the others have the same URL.
#[tactic(auto, using(crate::proofs::ChunkPages::none_of_more))]
fn some_known<R: Threads + Sync>(rt: &R, chunks: &[Pages<'_>], others: &[Pages<'_>]) -> bool
    ensures { result ≡ false → (url : List ℕ) → has (flat_map (λ chunk. chunk) others.now) url ≡ true → has (flat_map (λ chunk. chunk) chunks.now) url ≡ false }
{
    for other in others {
        if is_known(rt, chunks, other) {
            return true;
        }
    }
    false
}

/// Whether a page of the chunks and a page of `other` have the same URL.
#[tactic(auto, using(crate::proofs::ChunkPages::none_in_more))]
fn is_known<R: Threads + Sync>(rt: &R, chunks: &[Pages<'_>], other: &Pages<'_>) -> bool
    ensures { result ≡ false → (url : List ℕ) → has other.now url ≡ true → has (flat_map (λ chunk. chunk) chunks.now) url ≡ false }
{
    for chunk in chunks {
        if share_url(rt, chunk, other) {
            return true;
        }
    }
    false
}

/// Whether a page of each has the same URL. If there are many others, they are searched in threads.
fn share_url<R: Threads + Sync>(rt: &R, pages: &Pages<'_>, others: &Pages<'_>) -> bool
    ensures { result ≡ false → (url : List ℕ) → has others.now url ≡ true → has pages.now url ≡ false }
{
    let halvings = if others.len() < LEAST { 0 } else { HALVINGS };
    some_has_in_threads(rt, halvings, pages, others.as_slice())
}

/// Whether one of the pages in the list has the URL of a page of `pages`. The list is halved this number of times, and a thread
/// searches each half. If a thread cannot be started, the thread that needs it searches both halves.
fn some_has_in_threads<R: Threads + Sync>(
    rt: &R,
    halvings: u32,
    pages: &Pages<'_>,
    list: &[KnownPage<'_>],
) -> bool
    ensures { result ≡ false → (url : List ℕ) → has list.now url ≡ true → has pages.now url ≡ false }
{
    if halvings == 0 {
        return some_has(pages, list);
    }
    let fewer = halvings - 1;
    let (front, back) = halves(list);
    let in_front = move || -> bool
        ensures { result ≡ false → (url : List ℕ) → has front.entry.now url ≡ true → has pages.entry.now url ≡ false }
    { some_has_in_threads(rt, fewer, pages, front) };
    let in_back = move || -> bool
        ensures { result ≡ false → (url : List ℕ) → has back.entry.now url ≡ true → has pages.entry.now url ≡ false }
    { some_has_in_threads(rt, fewer, pages, back) };
    let (first, second) = join(rt, in_front, in_back);
    first || second
}

/// Splits the pages into two halves, in order. If their number is odd, the second half has one more.
fn halves<'l, 'a>(list: &'l [KnownPage<'a>]) -> (&'l [KnownPage<'a>], &'l [KnownPage<'a>])
    ensures { result.0.now ++ result.1.now ≡ list.now }
{
    list.split_at(list.len() / 2)
}

/// Whether one of the pages in the list has the URL of a page of `pages`.
#[tactic(auto, using(crate::proofs::ChunkPages::none_with_more))]
fn some_has(pages: &Pages<'_>, list: &[KnownPage<'_>]) -> bool
    ensures { result ≡ false → (url : List ℕ) → has list.now url ≡ true → has pages.now url ≡ false }
{
    for page in list {
        if pages.has(page) {
            return true;
        }
    }
    false
}
