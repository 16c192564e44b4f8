//! Certifying a run.
ghost use Rattle.std.specs.Prelude.{◌≡◌, List, true, length, vec_len, IfOk, OnOk, All, IsPermutation};
ghost use Rattle.crawl_keys.specs.HostFilter.{allows};
ghost use Rattle.crawl_certificate.specs.AccountEntries.{entries_of, DifferByUrl};
ghost use Rattle.crawl_certificate.specs.ResultPages.{page_in};
ghost use Rattle.crawl_certificate.specs.Reachable.{WalkOf};
ghost use Rattle.crawl_certificate.specs.Certificate.{Reports, IsAscending, AreReachable, CountsOf, NothingLost, entry_urls, result_urls};
ghost use Rattle.crawl_pages.specs.ResultOrder.{results_by_url};
ghost use Rattle.crawl_pages.specs.declared.page.PageResult.{PageResult};
ghost use Rattle.crawl_certificate.specs.Lookups.{pointed};
ghost use Rattle.crawl_certificate.specs.Marks.{AreMarks};
ghost use Rattle.crawl_certificate.specs.CertErrors.{first_error};
ghost use Rattle.crawl_certificate.specs.Culprits.{NamesCulprit, NamesFirst, first_named};
ghost use Rattle.crawl_certificate.specs.Least.{url_of};

use crate::chunk::Chunk;
use crate::culprit::Culprit;
use crate::error::CertError;
use crate::founded::least_unfounded;
use crate::least::lesser;
use crate::lookups::{Accepted, url_set};
use crate::marks::{LeastUrls, Marks, marks_of};
use crate::missing::{least_missing, least_unmarked};
use crate::threads::marks_by;
use crate::walk::is_faultless;
use crawl_frontier::Account;
use crawl_keys::{CanonUrl, Filter};
use crawl_pages::PageResult;
use report_order::results_by_url;
use result_order::in_order;
use std::alloc::{AllocError, Global};
use std::marker::Model;
use std::thread::Threads;

/// The pages that a certified crawl found.
#[derive(Drop)]
pub struct CrawlResult {
    pages: Vec<PageResult>,
}

// Contracts see the list of its pages.
impl Model for CrawlResult {
    ghost use Rattle.std.specs.Prelude.{List};
    ghost use Rattle.crawl_pages.specs.declared.page.PageResult.{PageResult};

    ghost Value = { List PageResult };

    ghost view = { λ found. found.pages.items };
}

impl CrawlResult {
    /// Returns the pages, in ascending order of the bytes of their URLs.
    pub fn pages(&self) -> &[PageResult]
        ensures { result.now ≡ self.now }
    {
        self.pages.as_slice()
    }
}

/// How a run is certified.
#[derive(Clone, Copy)]
pub struct CertifySettings {
    /// The number of threads that share the work. If it is 1, no thread is started.
    pub threads: usize,
    /// Whether it is known that the run lost nothing. Then most of the check needs no search for links.
    pub is_lossless: bool,
}

/// Returns the pages of a crawl if its run is certified, without other threads. The results are copied. [`certify_with`] takes
/// them, and also returns the URL that has the error.
///
/// # Errors
/// The first error that the run has, in the order of [`CertError`]; `NoMemory` if an allocation failed.
pub fn certify(
    alloc: Global,
    filter: &Filter,
    seeds: &[CanonUrl],
    account: &Account,
    results: &[PageResult],
) -> Result<CrawlResult, CertError>
    // Ok if and only if the run has no error; otherwise the first one, unless an allocation failed.
    ensures error { Reports result (first_error (allows filter.now) seeds.now (entries_of account.now) results.now) }
    // The pages are the given results in ascending order of URL, one for each entry of each queue.
    ensures same { IfOk result (λ pages. IsPermutation results.now pages) }
    ensures ascends { IfOk result (λ pages. IsAscending (result_urls pages)) }
    ensures one_each { IfOk result (λ pages. IsPermutation (entry_urls (entries_of account.now)) (result_urls pages)) }
    ensures counts { IfOk result (λ pages. CountsOf account.now (result_urls pages)) }
    // Their URLs are exactly those that can be reached over the results' own pages.
    ensures reached { IfOk result (λ pages. AreReachable (page_in results.now) (allows filter.now) seeds.now (result_urls pages)) }
    // A walk leads to each entry's URL, and has the entry's number of hops.
    ensures hops { OnOk result (All (λ e. WalkOf (page_in results.now) (allows filter.now) seeds.now e.hops e.url) (entries_of account.now)) }
{
    let accepted = Accepted::of(alloc, account)?;
    let marks = marks_of(alloc, filter, &accepted, 0, results)?;
    error_by_marks(alloc, filter, seeds, &accepted, marks)?;
    let pages = sorted_copies(alloc, results)?;
    Ok(CrawlResult { pages })
}

/// Returns the pages of a crawl if its run is certified: it searches for each error, and then sorts the results. If a thread cannot
/// be started, the calling thread does its work.
///
/// # Errors
/// The first error that the run has, in the order of [`CertError`], and the least URL, byte by byte, that has it. If an allocation
/// failed, `NoMemory` without a URL.
pub fn certify_with<R: Threads + Sync>(
    rt: &R,
    settings: CertifySettings,
    filter: &Filter,
    seeds: &[CanonUrl],
    account: &Account,
    results: Vec<PageResult>,
) -> Result<CrawlResult, Culprit>
    requires lost { settings.is_lossless ≡ true → NothingLost (allows filter.now) seeds.now (entries_of account.now) results.items }
    // Ok if and only if the run has no error; otherwise the first one and the least URL that has it, unless an allocation failed.
    ensures error { NamesCulprit (allows filter.now) seeds.now (entries_of account.now) results.items result }
    // The pages are the given results in ascending order of URL, one for each entry of each queue.
    ensures same { IfOk result (λ pages. IsPermutation results.items pages) }
    ensures ascends { IfOk result (λ pages. IsAscending (result_urls pages)) }
    ensures one_each { IfOk result (λ pages. IsPermutation (entry_urls (entries_of account.now)) (result_urls pages)) }
    ensures counts { IfOk result (λ pages. CountsOf account.now (result_urls pages)) }
    // Their URLs are exactly those that can be reached over the results' own pages.
    ensures reached { IfOk result (λ pages. AreReachable (page_in results.items) (allows filter.now) seeds.now (result_urls pages)) }
    // A walk leads to each entry's URL, and has the entry's number of hops.
    ensures hops { OnOk result (All (λ e. WalkOf (page_in results.items) (allows filter.now) seeds.now e.hops e.url) (entries_of account.now)) }
{
    let alloc = *results.allocator();
    let accepted = Accepted::of(alloc, account)?;
    let all = Chunk::whole(&accepted, &results);
    find_error(rt, alloc, settings, filter, seeds, all)?;
    // Its memory can then be used for the sort.
    drop(accepted);
    let pages = in_order(rt, alloc, results, settings.threads)?;
    Ok(CrawlResult { pages })
}

/// Returns Ok if the run has no error, and otherwise the first error and its least URL.
fn find_error<'a, R: Threads + Sync>(
    rt: &R,
    alloc: Global,
    settings: CertifySettings,
    filter: &Filter,
    seeds: &'a [CanonUrl],
    whole: Chunk<'_, '_, 'a>,
) -> Result<(), Culprit>
    requires lost { settings.is_lossless ≡ true → NothingLost (allows filter.now) seeds.now whole.accepted.now whole.results.now }
    requires apart { DifferByUrl whole.accepted.now }
    requires first { whole.first ≡ 0 }
    ensures { NamesCulprit (allows filter.now) seeds.now whole.entry.accepted.now whole.entry.results.now result }
{
    let threads = whole.threads_worth(settings.threads);
    if settings.is_lossless && is_faultless(rt, alloc, filter, seeds, threads, whole)? {
        return Ok(());
    }
    let marks = marks_by(rt, alloc, filter, threads, whole)?;
    error_by_marks(alloc, filter, seeds, whole.accepted, marks)
}

/// Returns Ok if the run has no error, and otherwise the first error and its least URL, from what a pass over the results found.
fn error_by_marks<'a>(
    alloc: Global,
    filter: &Filter,
    seeds: &'a [CanonUrl],
    accepted: &Accepted<'a>,
    marks: Marks<'_, '_>,
) -> Result<(), Culprit>
    requires fetched { vec_len marks.fetched ≡ length accepted.now }
    requires linked { vec_len marks.linked ≡ length accepted.now }
    ensures { (results : List PageResult) → AreMarks (allows filter.now) accepted.now results marks.entry → NamesCulprit (allows filter.now) seeds.now accepted.now results result }
{
    let entries = accepted.entries();
    let seed_missing = least_missing(filter, accepted, seeds);
    let not_fetched = least_unmarked(entries, &marks.fetched);
    let seed_set = url_set(alloc, seeds)?;
    let groundless = least_unfounded(filter, &seed_set, entries, &marks.linked);
    let LeastUrls {
        missing,
        stray,
        twice,
    } = marks.least;
    verdict(
        seed_missing,
        not_fetched,
        missing,
        lesser(groundless, stray),
        twice,
    )
}

/// Returns the error of the first of these URLs that is not `None`, or Ok if all are.
fn verdict(
    seed_missing: Option<&CanonUrl>,
    not_fetched: Option<&CanonUrl>,
    link_missing: Option<&CanonUrl>,
    unfounded: Option<&CanonUrl>,
    twice: Option<&CanonUrl>,
) -> Result<(), Culprit>
    ensures { NamesFirst (first_named (url_of seed_missing.entry) (url_of not_fetched.entry) (url_of link_missing.entry) (url_of unfounded.entry) (url_of twice.entry)) result }
{
    if let Some(url) = seed_missing {
        return Err(Culprit::new(CertError::SeedMissing, url));
    }
    if let Some(url) = not_fetched {
        return Err(Culprit::new(CertError::NotFetched, url));
    }
    if let Some(url) = link_missing {
        return Err(Culprit::new(CertError::LinkMissing, url));
    }
    if let Some(url) = unfounded {
        return Err(Culprit::new(CertError::Unfounded, url));
    }
    if let Some(url) = twice {
        return Err(Culprit::new(CertError::Twice, url));
    }
    Ok(())
}

/// Returns copies of the results in ascending order of their URLs.
fn sorted_copies(alloc: Global, results: &[PageResult]) -> Result<Vec<PageResult>, AllocError>
    ensures { IfOk result (λ pages. pages.items ≡ results_by_url results.now) }
{
    let ordered = results_by_url(alloc, results)?;
    copies(alloc, &ordered)
}

/// Returns copies of these results, in the same order.
#[tactic(auto, using(std::proofs::lemmas::List::map_more, std::proofs::lemmas::List::take_all))]
fn copies(alloc: Global, results: &[&PageResult]) -> Result<Vec<PageResult>, AllocError>
    ensures { IfOk result (λ copies. copies.items ≡ pointed results.now) }
{
    let mut copies = Vec::with_capacity(alloc, results.len())?;
    for one in results {
        let Ok(copy) = one.copy() else {
            return Err(AllocError);
        };
        copies.push(copy)?;
    }
    Ok(copies)
}
