//! Crawls a site within its top's host.
ghost use Rattle.std.specs.Prelude.{◌≡◌, ◌&&◌, ◌∷◌, ℕ, List, [], IfErr, IfOk, IfSome, false, is_some, map, not, string_bytes, true};
ghost use Rattle.crawl_certificate.specs.Certificate.{IsCrawl};
ghost use Rattle.crawl_keys.specs.HostFilter.{allows};
ghost use Rattle.crawl_keys.specs.HostKey.{host_key};
ghost use Rattle.mercator_site.specs.Checks.{AreReached, IsTopCrawl, reached_in};
ghost use Rattle.mercator_site.specs.Errors.{IsTopIncomplete, IsUnfinished, is_unfinished};
ghost use Rattle.mercator_site.specs.Sources.{IsSourceOf};
ghost use Rattle.mercator_site.specs.Starts.{documents_in};
ghost use Rattle.saved_site.specs.Linked.{page_at};

use crate::error::FolderError;
use crate::settings::CheckSettings;
use crate::start::{push_documents, starts};
use crawl_keys::{CanonUrl, Filter, FilterError};
use crawl_limits::PENDING_LIMIT;
use crawl_pages::SessionFetch;
use crawl_run::{CrawlSettings, Crawled, Mode, crawl_with};
use saved_site::LinkedPages;
use site_files::SiteFiles;
use std::alloc::Global;
use std::sync::Wait;
use std::thread::Threads;

/// The crawls of a check.
#[derive(Drop)]
pub(crate) struct SiteCrawls {
    /// What is reached from the links or the top, if unreached files are listed and all documents are checked.
    pub(crate) reached: Option<Crawled>,
    /// The crawl of everything that is checked.
    pub(crate) whole: Crawled,
}

/// Crawls the pages of a site with this top, from the top or the seeds, and from all documents unless only what can be reached is
/// checked.
pub(crate) fn crawl_site<R: Threads + Wait + Sync>(
    rt: &R,
    alloc: Global,
    pages: &LinkedPages,
    files: &SiteFiles<'_>,
    top: &CanonUrl,
    settings: CheckSettings<'_>,
) -> Result<SiteCrawls, FolderError>
    ensures found { (web : List ℕ) → IsSourceOf (page_at pages.now) web → IfOk result (λ crawls. IsTopCrawl top.now web settings.entry.reachable (map string_bytes settings.entry.seeds.now) (documents_in settings.entry.reachable files.now top.now) crawls.whole.result) }
    ensures reached { (web : List ℕ) → IsSourceOf (page_at pages.now) web → IfOk result (λ crawls. AreReached settings.entry.report.lists.unreached top.now web settings.entry.reachable (map string_bytes settings.entry.seeds.now) (reached_in crawls settings.entry.report.lists.unreached)) }
    ensures incomplete { (web : List ℕ) → IsSourceOf (page_at pages.now) web → IfErr result (λ error. is_unfinished error ≡ true → IsTopIncomplete top.now web settings.entry.reachable (map string_bytes settings.entry.seeds.now) settings.entry.workers) }
{
    let reached = crawl_reached(rt, alloc, pages, top, settings)?;
    let whole = crawl_whole(rt, alloc, pages, files, top, settings)?;
    Ok(SiteCrawls { reached, whole })
}

/// Crawls what is reached from the top or the seeds, if unreached files are listed and more is checked.
fn crawl_reached<R: Threads + Wait + Sync>(
    rt: &R,
    alloc: Global,
    pages: &LinkedPages,
    top: &CanonUrl,
    settings: CheckSettings<'_>,
) -> Result<Option<Crawled>, FolderError>
    ensures listed { IfOk result (λ found. is_some found ≡ (not settings.entry.reachable && settings.entry.report.lists.unreached)) }
    ensures found { (web : List ℕ) → IsSourceOf (page_at pages.now) web → IfOk result (λ found. IfSome found (λ crawled. IsTopCrawl top.now web settings.entry.reachable (map string_bytes settings.entry.seeds.now) [] crawled.result)) }
    ensures incomplete { (web : List ℕ) → IsSourceOf (page_at pages.now) web → IfErr result (λ error. is_unfinished error ≡ true → IsTopIncomplete top.now web settings.entry.reachable (map string_bytes settings.entry.seeds.now) settings.entry.workers) }
{
    if settings.reachable {
        return Ok(None);
    }
    if !settings.report.lists.unreached {
        return Ok(None);
    }
    let seeds = starts(alloc, pages, top, settings.seeds, settings.reachable)?;
    let found = crawl_source(rt, alloc, pages, top, seeds.as_slice(), settings.workers)?;
    Ok(Some(found))
}

/// Crawls everything that is checked.
fn crawl_whole<R: Threads + Wait + Sync>(
    rt: &R,
    alloc: Global,
    pages: &LinkedPages,
    files: &SiteFiles<'_>,
    top: &CanonUrl,
    settings: CheckSettings<'_>,
) -> Result<Crawled, FolderError>
    ensures found { (web : List ℕ) → IsSourceOf (page_at pages.now) web → IfOk result (λ found. IsTopCrawl top.now web settings.entry.reachable (map string_bytes settings.entry.seeds.now) (documents_in settings.entry.reachable files.now top.now) found.result) }
    ensures incomplete { (web : List ℕ) → IsSourceOf (page_at pages.now) web → IfErr result (λ error. is_unfinished error ≡ true → IsTopIncomplete top.now web settings.entry.reachable (map string_bytes settings.entry.seeds.now) settings.entry.workers) }
{
    let mut seeds = starts(alloc, pages, top, settings.seeds, settings.reachable)?;
    push_documents(top, files, settings.reachable, &mut seeds)?;
    crawl_source(rt, alloc, pages, top, seeds.as_slice(), settings.workers)
}

/// Crawls a source from URLs, within the host of the site's top.
#[tactic(auto, using(crate::proofs::TopCrawls::unfinished_of))]
fn crawl_source<F: SessionFetch + Sync, R: Threads + Wait + Sync>(
    rt: &R,
    alloc: Global,
    source: &F,
    top: &CanonUrl,
    seeds: &[CanonUrl],
    workers: u32,
) -> Result<Crawled, FolderError>
    ensures found { IfOk result (λ found. IsCrawl (F.meaning source.now) (allows (host_key top.now ∷ [])) seeds.now found.result) }
    ensures incomplete { IfErr result (λ error. is_unfinished error ≡ true → IsUnfinished workers) }
{
    let filter = host_filter(alloc, top.host_key())?;
    let settings = CrawlSettings {
        workers,
        max_pending: PENDING_LIMIT,
        mode: Mode::Threads,
        filter: &filter,
    };
    match crawl_with(rt, alloc, source, &settings, seeds) {
        Ok(found) => Ok(found),
        Err(failure) => Err(FolderError::from(failure)),
    }
}

/// The filter for this host and its subdomains. Fails with `BadHost` if a filter does not accept the host.
fn host_filter(alloc: Global, host: &str) -> Result<Filter, FolderError>
    ensures within { IfOk result (λ filter. filter ≡ host.now ∷ []) }
    ensures plain { IfErr result (λ error. is_unfinished error ≡ false) }
{
    match Filter::new(alloc, &[host]) {
        Ok(filter) => Ok(filter),
        Err(FilterError::BadSuffix(_)) => Err(FolderError::BadHost),
        Err(FilterError::NoMemory) => Err(FolderError::NoMemory),
    }
}
