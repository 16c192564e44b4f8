//! The resolved links of some pages of a saved web.
ghost use Rattle.std.specs.Prelude.{◌≡◌, ◌+◌, List, Some, length, slice_get, IfOk, IfSome};
ghost use Rattle.saved_pages.specs.UrlIndices.{KeepIndices, LeadTo};
ghost use Rattle.saved_web.specs.Ahead.{IsAhead, IsChunk, shown_page};
ghost use Rattle.saved_pages.specs.PageLists.{PageRead};
ghost use Rattle.crawl_pages.specs.declared.page.Page.{Page};

use crate::ahead::{BLOCKS, CHUNKS};
use crate::link_cache::LinkCache;
use crate::links::page_after;
use crate::long;
use crate::web_pages::WebPages;
use crawl_keys::{Base, CanonUrl};
use crawl_pages::{FetchError, Links, Page};
use saved_pages::{KnownPage, UrlList};
use std::alloc::{AllocError, Global};

/// Some pages of a saved web, and the resolved links of most of them.
#[derive(Drop)]
pub struct Chunk {
    /// The pages, in the order of the saved web.
    pages: Vec<PageAhead>,
    urls: UrlList,
}

/// A page with its resolved links.
#[derive(Drop)]
struct PageAhead {
    /// The page's index among the pages of the saved web.
    index: usize,
    links: LinksAhead,
}

/// The links of a page.
#[derive(Drop)]
struct LinksAhead {
    /// The index of the URL of each link, in order.
    indices: Vec<u32>,
    /// The number of other links, which lead to no URL.
    skipped: u64,
}

impl Chunk {
    /// Resolves the links of the pages in block `first`, and in every `CHUNKS`th block after it, until memory runs out. `blocks`
    /// has the index of the first page of each block, and then the number of pages.
    pub fn new(alloc: Global, web: &WebPages<'_>, blocks: &[usize], first: usize) -> Chunk
        ensures { IsChunk web.now result }
    {
        let mut cache = LinkCache::new(alloc, CHUNKS as u32);
        let mut chunk = Chunk {
            pages: Vec::new(alloc),
            urls: UrlList::new(alloc),
        };
        for round in 0..BLOCKS / CHUNKS {
            let block = first.saturating_add(round * CHUNKS);
            match chunk.add_block(alloc, web, blocks, block, &mut cache) {
                Ok(()) => {}
                Err(_) => return chunk,
            }
        }
        chunk
    }

    /// Resolves the links of the pages of a block.
    fn add_block<'a>(
        &mut self,
        alloc: Global,
        web: &WebPages<'a>,
        blocks: &[usize],
        block: usize,
        cache: &mut LinkCache<'a>,
    ) -> Result<(), FetchError>
        requires { IsChunk web.now self.old }
        ensures { IsChunk web.now self.new }
    {
        let Some(first) = blocks.get(block) else {
            return Ok(());
        };
        let Some(end) = blocks.get(block.saturating_add(1)) else {
            return Ok(());
        };
        for index in *first..*end {
            self.add_page(alloc, web, index, cache)?;
        }
        Ok(())
    }

    /// Resolves the links of the page at the index, which must be greater than those of the pages so far.
    fn add_page<'a>(
        &mut self,
        alloc: Global,
        web: &WebPages<'a>,
        index: usize,
        cache: &mut LinkCache<'a>,
    ) -> Result<(), FetchError>
        requires { IsChunk web.now self.old }
        ensures { IsChunk web.now self.new }
    {
        let Some(links) = links_at(alloc, web, index, cache, &mut self.urls)? else {
            return Ok(());
        };
        self.pages.push(PageAhead { index, links })?;
        Ok(())
    }

    /// Returns the page at the index. `None` if its links are not here, or if memory runs out.
    pub fn page(&self, alloc: Global, index: usize) -> Option<Page>
        ensures { (web : List PageRead) → IsChunk web self.now → IfSome result (λ page. page ≡ shown_page (slice_get web index)) }
    {
        let number = self.pages.partition_point(|page| page.index < index);
        match self.pages.get(number) {
            Some(page) if page.index == index => page.links.page(alloc, &self.urls),
            Some(_) | None => None,
        }
    }
}

impl LinksAhead {
    /// Returns the page with these links.
    fn page(&self, alloc: Global, urls: &UrlList) -> Option<Page>
        ensures { (page : Page) → IsAhead page urls.now self.now → IfSome result (λ found. found ≡ page) }
    {
        let links = copies(alloc, urls, &self.indices)?;
        Some(Page::Found {
            links: Links::from(links),
            skipped: self.skipped,
        })
    }
}

/// Returns copies of the URLs with these indices, which share their texts. `None` if memory runs out.
fn copies(alloc: Global, urls: &UrlList, indices: &[u32]) -> Option<Vec<CanonUrl>>
    ensures { IfSome result (λ links. LeadTo urls.now indices.now links.items) }
{
    let Ok(mut links) = Vec::with_capacity(alloc, indices.len()) else {
        return None;
    };
    for index in indices {
        let link = urls.copy_at(*index)?;
        match links.push(link) {
            Ok(()) => {}
            Err(_) => return None,
        }
    }
    Some(links)
}

/// Resolves the links of the page at the index. `None` if there is no such page, if it has moved, or if it is so long that threads
/// resolve its links when it is fetched.
fn links_at<'a>(
    alloc: Global,
    web: &WebPages<'a>,
    index: usize,
    cache: &mut LinkCache<'a>,
    urls: &mut UrlList,
) -> Result<Option<LinksAhead>, FetchError>
    ensures links { IfOk result (λ links. IfSome links (IsAhead (shown_page (slice_get web.now index)) urls.new)) }
    ensures keep { KeepIndices urls.old urls.new }
{
    let Some(page) = web.page(index) else {
        return Ok(None);
    };
    if page.bytes_before(web.page(index.saturating_add(1))) >= long::LEAST {
        return Ok(None);
    }
    links_of(alloc, page, cache, urls)
}

/// Resolves the links of the page. `None` if it has moved.
fn links_of<'a>(
    alloc: Global,
    page: &KnownPage<'a>,
    cache: &mut LinkCache<'a>,
    urls: &mut UrlList,
) -> Result<Option<LinksAhead>, FetchError>
    ensures links { IfOk result (λ links. IfSome links (IsAhead (shown_page (Some page.now)) urls.new)) }
    ensures keep { KeepIndices urls.old urls.new }
{
    let Ok(base) = Base::canonical(alloc, page.url()) else {
        return Ok(None);
    };
    match page_after(alloc, cache, base, page.following())? {
        Page::Found { links, skipped } => Ok(Some(LinksAhead {
            indices: indices_of(alloc, urls, links.as_slice())?,
            skipped,
        })),
        Page::Moved { .. } | Page::Missing => Ok(None),
    }
}

/// Returns the indices of the URLs of links. New URLs are pushed to the list.
#[tactic(auto, using(crate::proofs::AheadLinks::lead_more, saved_pages::proofs::UrlIndices::lead_still))]
fn indices_of(alloc: Global, urls: &mut UrlList, links: &[CanonUrl]) -> Result<Vec<u32>, AllocError>
    ensures lead { IfOk result (λ indices. LeadTo urls.new indices.items links.now) }
    ensures keep { KeepIndices urls.old urls.new }
{
    let mut indices = Vec::with_capacity(alloc, links.len())?;
    for link in links {
        let index = urls.find_or_insert(link)?;
        indices.push(index)?;
    }
    Ok(indices)
}
