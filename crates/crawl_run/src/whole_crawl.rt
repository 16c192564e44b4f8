//! A whole crawl, from its seeds to its certified pages.
ghost use Rattle.std.specs.Prelude.{IfOk, IfErr, MatchResult};
ghost use Rattle.crawl_certificate.specs.Certificate.{IsCrawl, result_urls};
ghost use Rattle.crawl_frontier.specs.Limits.{IsWorkers};
ghost use Rattle.crawl_gate.specs.GateError.{IsMaximum};
ghost use Rattle.crawl_keys.specs.HostFilter.{allows};
ghost use Rattle.crawl_run.specs.Crawls.{AreCounts, ComesIn, CrawlFails, IsJudged, IsJudgedAt};
ghost use Rattle.crawl_run.specs.JudgedRuns.{CountsLosses};
ghost use Rattle.crawl_run.specs.Losses.{IsLost};

use crate::crawled::Crawled;
use crate::error::CrawlError;
use crate::failure::CrawlFailure;
use crate::run::crawl_named;
use crate::settings::{CrawlSettings, Mode};
use crawl_frontier::Setup;
use crawl_keys::{CanonUrl, Filter};
use crawl_pages::SessionFetch;
use std::alloc::Global;
use std::marker::Brand;
use std::sync::Wait;
use std::thread::Threads;

/// Crawls from the seeds: fetches every URL that the filter allows and to which links lead from the seeds, over URLs that the
/// filter allows.
///
/// The frontier has `workers` workers, 1 to 512, each with its own queue. It accepts a URL only while fewer than
/// `max_pending` URLs (1 to 2^40) are being offered, waiting or in progress. The seeds are offered in order, then the workers
/// run until nothing is left, and what they leave is certified. A seed that was refused may still be found by a link.
///
/// A source may have any number of pages, so the call may never return.
///
/// # Errors
/// Those of [`CrawlError`], in its order. If memory runs out while workers run, a URL is lost, and the certificate decides
/// whether the crawl is incomplete.
///
/// # Example
///
/// One worker on the calling thread crawls every host, with room for 1,000 pending URLs:
///
/// ```rust
/// fn page_count<F: Fetch + Sync, R: Threads + Wait + Sync>(
///     rt: &R,
///     alloc: Global,
///     source: &F,
///     seeds: &[CanonUrl],
/// ) -> Option<usize> {
///     let every = Filter::new(alloc, &[]).ok()?;
///     let found = crawl(rt, alloc, source, &every, seeds, 1, 1_000, Mode::Turns).ok()?;
///     Some(found.result.pages().len())
/// }
/// ```
#[tactic(auto, using(crate::proofs::RunResults::judged_on_one_worker))]
pub fn crawl<F: SessionFetch + Sync, R: Threads + Wait + Sync>(
    rt: &R,
    alloc: Global,
    fetcher: &F,
    filter: &Filter,
    seeds: &[CanonUrl],
    workers: u32,
    max_pending: u64,
    mode: Mode,
) -> Result<Crawled, CrawlError>
    // The pages are those of exactly the reachable URLs, and each is the page that the fetcher has for its URL.
    ensures pages { IfOk result (λ crawled. IsCrawl (F.meaning fetcher.now) (allows filter.now) seeds.now crawled.result) }
    // For each queue, the number of URLs that belong to it.
    ensures counts { IfOk result (λ crawled. AreCounts workers (result_urls crawled.result) crawled.counts.items) }
    // Numbers out of range are refused, each by its own error; other errors occur only if both are within range.
    ensures numbers { MatchResult result (λ _. IsWorkers workers × IsMaximum max_pending) (λ error. CrawlFails workers max_pending error) }
    // Only workers in threads can fail because a thread cannot be started.
    ensures mode { IfErr result (ComesIn mode) }
    // An error of the certificate is the first one of some entries and of results that have the fetcher's pages.
    ensures judged { IfErr result (IsJudged (F.meaning fetcher.now) (allows filter.now) seeds.now) }
{
    let settings = CrawlSettings {
        workers,
        max_pending,
        mode,
        filter,
    };
    match crawl_with(rt, alloc, fetcher, &settings, seeds) {
        Ok(crawled) => Ok(crawled),
        Err(failure) => Err(failure.error),
    }
}

/// Like [`crawl`], with its settings in one value. If the certificate fails, the error also has the first URL in byte order at
/// which it fails, and what was lost.
///
/// # Errors
/// Those of [`crawl`].
///
/// # Example
///
/// What an incomplete crawl from one seed lost; `None` if it succeeded:
///
/// ```rust
/// match crawl_with(rt, alloc, &source, &settings, &[seed]) {
///     Ok(_) => None,
///     Err(failure) => Some(failure.losses),
/// }
/// ```
pub fn crawl_with<F: SessionFetch + Sync, R: Threads + Wait + Sync>(
    rt: &R,
    alloc: Global,
    fetcher: &F,
    settings: &CrawlSettings<'_>,
    seeds: &[CanonUrl],
) -> Result<Crawled, CrawlFailure>
    ensures pages { IfOk result (λ crawled. IsCrawl (F.meaning fetcher.now) (allows settings.now.filter.now) seeds.now crawled.result) }
    ensures counts { IfOk result (λ crawled. AreCounts settings.now.workers (result_urls crawled.result) crawled.counts.items) }
    ensures numbers { MatchResult result (λ _. IsWorkers settings.now.workers × IsMaximum settings.now.max_pending) (λ failure. CrawlFails settings.now.workers settings.now.max_pending failure.error) }
    ensures mode { IfErr result (λ failure. ComesIn settings.now.mode failure.error) }
    // An error of the certificate is the first one of some entries and of results that have the fetcher's pages, and no lesser URL has it.
    ensures judged { IfErr result (λ failure. IsJudgedAt (F.meaning fetcher.now) (allows settings.now.filter.now) seeds.now failure.error failure.culprit) }
    // A seed, a page or a link that is missing was lost.
    ensures lost { IfErr result (λ failure. IsLost failure.error failure.losses) }
    // For each cause, the sum of what seeds and workers lost in a run that has this error at this URL; without a URL, nothing.
    ensures counted { IfErr result (λ failure. CountsLosses settings.now.workers (allows settings.now.filter.now) (F.meaning fetcher.now) seeds.now failure.error failure.culprit failure.losses) }
{
    match Setup::new(alloc, settings.workers, settings.max_pending) {
        Ok(setup) => crawl_named::<Brand, F, R>(rt, alloc, setup, fetcher, settings, seeds),
        Err(error) => Err(CrawlFailure::from(CrawlError::from(error))),
    }
}
