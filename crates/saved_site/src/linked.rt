//! The pages of a site as a source of a crawl. Their links are stored as indices of URLs.
ghost use Rattle.std.specs.Prelude.{◌≡◌, ◌∷◌, ◌++◌, [], IfOk, IfErr, OnOk, filter, flat_map, if◌then◌else◌, is_some, not, ℕ, List};
ghost use Rattle.saved_site.specs.Linked.{AreKept, IsSiteSource, page_at, page_with};
ghost use Rattle.saved_site.specs.Served.{AnchorsAscend, AreServed, HaveAnchors, entry_at};

mod known_texts;
mod link_table;
mod linked_page;
mod linker;
mod page_list;

use crate::site_name::SiteName;
use crawl_keys::CanonUrl;
use crawl_pages::{Fetch, FetchError, Page};
use document_links::PageAnchors;
pub(crate) use linker::Linker;
use page_list::ThreadPages;
use std::alloc::{AllocError, Global};
use std::marker::Model;

/// The pages of a site. Of each link the index of its URL is stored.
#[derive(Drop)]
pub struct LinkedPages {
    /// The pages of each thread. Each has a list of URLs of its own.
    threads: Vec<ThreadPages>,
}

// Contracts see the page at each URL.
impl Model for LinkedPages {
    ghost use Rattle.std.specs.Prelude.{ℕ, List, flat_map};
    ghost use Rattle.crawl_pages.specs.declared.page.Page.{Page};

    ghost Value = { List (List ℕ × Page) };

    ghost view = { λ pages. flat_map (λ made. made) pages.threads.items };
}

impl LinkedPages {
    /// Returns the pages of the site with this top, which threads have made, and their anchors in the order of the URLs.
    pub(crate) fn new<K: SiteName>(
        alloc: Global,
        top: &str,
        linkers: Vec<Linker<K>>,
    ) -> Result<(LinkedPages, Vec<PageAnchors>), AllocError>
        ensures source { IfOk result (λ both. IsSiteSource top.now both.0) }
        ensures served { IfOk result (λ both. AreServed K.serves both.0) }
        ensures anchors { IfOk result (λ both. HaveAnchors K.serves both.0 both.1.items) }
        ensures order { IfOk result (λ both. AnchorsAscend both.1.items) }
    {
        let both = kept_pages(alloc, top, linkers)?;
        let (threads, anchors) = both;
        let anchors = in_order(anchors)?;
        Ok((LinkedPages { threads }, anchors))
    }

    /// Whether there is a page at the URL.
    pub(crate) fn has(&self, url: &CanonUrl) -> bool
        ensures { result ≡ is_some (page_with self.now url.now) }
    {
        has_page(self.threads.as_slice(), url)
    }
}

/// Whether one of the threads has a page at the URL.
#[tactic(auto, using(crate::proofs::Threads::has_passed, crate::proofs::Threads::has_there))]
fn has_page(threads: &[ThreadPages], url: &CanonUrl) -> bool
    ensures { result ≡ is_some (page_with (flat_map (λ made. made) threads.now) url.now) }
{
    'threads: for made in threads {
        if made.has(url) {
            return true;
        }
    }
    false
}

/// Returns the pages that threads have made, except those of another site, and their anchors.
fn kept_pages<K: SiteName>(
    alloc: Global,
    top: &str,
    linkers: Vec<Linker<K>>,
) -> Result<(Vec<ThreadPages>, Vec<PageAnchors>), AllocError>
    ensures kept { IfOk result (λ both. AreKept K.serves top.now (flat_map (λ made. made) both.0.items)) }
    ensures anchors { IfOk result (λ both. HaveAnchors K.serves (flat_map (λ made. made) both.0.items) both.1.items) }
{
    let mut threads = Vec::with_capacity(alloc, linkers.len())?;
    let mut anchors = Vec::new(alloc);
    'linkers: for linker in linkers {
        if linker.is_of(top) {
            let (pages, own) = linker.into_pages();
            anchors = with_anchors(threads.as_slice(), anchors, own)?;
            threads.push(pages)?;
        }
    }
    Ok((threads, anchors))
}

/// Appends the anchors of a thread's pages, except those at whose URL one of these threads has a page.
fn with_anchors(
    threads: &[ThreadPages],
    anchors: Vec<PageAnchors>,
    own: Vec<PageAnchors>,
) -> Result<Vec<PageAnchors>, AllocError>
    ensures { IfOk result (λ all. all.items ≡ anchors.items ++ filter (λ one. not (is_some (page_with (flat_map (λ made. made) threads.now) one.url))) own.items) }
{
    let mut all = anchors;
    'entries: for one in own {
        push_if(!has_page(threads, &one.url), one, &mut all)?;
    }
    Ok(all)
}

/// Appends the anchors of a page, if they are kept.
fn push_if(
    is_kept: bool,
    one: PageAnchors,
    anchors: &mut Vec<PageAnchors>,
) -> Result<(), AllocError>
    ensures { OnOk result (anchors.new.items ≡ anchors.old.items ++ (if is_kept then one ∷ [] else [])) }
{
    if !is_kept {
        return Ok(());
    }
    anchors.push(one)?;
    Ok(())
}

/// The anchors in the order of their URLs. Of those with one URL, the first is left.
fn in_order(anchors: Vec<PageAnchors>) -> Result<Vec<PageAnchors>, AllocError>
    ensures order { IfOk result (λ ordered. AnchorsAscend ordered.items) }
    ensures same { IfOk result (λ ordered. (url : List ℕ) → entry_at ordered.items url ≡ entry_at anchors.items url) }
{
    let mut ordered = anchors;
    ordered.sort_by(|a: &PageAnchors, b: &PageAnchors| a.url.as_str().cmp(b.url.as_str()))?;
    ordered.dedup_by(|one, last| one.url.as_str() == last.url.as_str());
    Ok(ordered)
}

/// Returns the page at the URL of the first thread that has one.
#[tactic(auto, using(crate::proofs::Threads::passed_thread, crate::proofs::Threads::found_thread))]
fn first_page(
    alloc: Global,
    threads: &[ThreadPages],
    url: &CanonUrl,
) -> Result<Option<Page>, AllocError>
    ensures { IfOk result (λ page. page ≡ page_with (flat_map (λ made. made) threads.now) url.now) }
{
    'threads: for made in threads {
        match made.page(alloc, url)? {
            Some(page) => return Ok(Some(page)),
            None => {}
        }
    }
    Ok(None)
}

impl Fetch for LinkedPages {
    ghost use Rattle.saved_site.specs.Linked.{page_at};

    ghost meaning = { λ source. page_at source };

    fn fetch(&self, alloc: Global, url: &CanonUrl) -> Result<Page, FetchError>
        ensures meaning { IfOk result (λ page. page ≡ page_at self.now url.now) }
        // Its only error is `NoMemory`.
        ensures refused { IfErr result (λ e. e ≡ FetchError.NoMemory) }
    {
        match first_page(alloc, self.threads.as_slice(), url)? {
            Some(page) => Ok(page),
            None => Ok(Page::Missing),
        }
    }
}
