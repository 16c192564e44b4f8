//! The report of a crawl of a saved web, for callers of the library.
ghost use Rattle.std.specs.Prelude.{◌≡◌, ℕ, List, [], map, string_bytes, IfOk, IfErr};
ghost use Rattle.crawl_certificate.specs.Certificate.{result_urls};
ghost use Rattle.crawl_frontier.specs.Limits.{IsWorkers};
ghost use Rattle.crawl_gate.specs.GateError.{IsMaximum};
ghost use Rattle.crawl_pages.specs.declared.page.PageResult.{PageResult};
ghost use Rattle.crawl_run.specs.Crawls.{AreCounts};
ghost use Rattle.mercator.specs.WebCrawl.{ComesOf, IsCrawlReport, IsRefused, IsSiteCrawl};

use crate::commands::error::CommandError;
use crate::commands::web_crawl::read_site;
use crawl_report::report_text;
use crawl_run::{CrawlSettings, crawl_with};
use saved_web::WebInThreads;
use std::alloc::Global;
use std::sync::Wait;
use std::thread::Threads;

/// The report of a crawl of a saved web.
#[derive(Drop)]
pub struct Report {
    /// The report, in the format of [`report_text`].
    pub text: Vec<u8>,
    /// How many of its URLs belong to each queue, by the number of the queue.
    pub counts: Vec<u64>,
}

/// Crawls the saved web with these bytes, and returns the report. It has exactly the URLs that are reachable from the seeds by
/// URLs that the filter allows. It does not depend on the number of workers, their mode, or the order of events in threads.
///
/// The saved web is read before the seeds, and both before anything is fetched. The settings are those of
/// [`crawl`](crate::crawl).
///
/// # Errors
/// `Web`. `Seed` for the first seed that has no canonical URL. `Crawl` if a number is out of range, or if the crawl is
/// incomplete. `NoMemory`.
///
/// # Example
///
/// The text of the report, from one seed and without a limit on hosts:
///
/// ```rust
/// fn report_of<R: Threads + Wait + Sync>(rt: &R, alloc: Global, web: &[u8]) -> Option<Vec<u8>> {
///     let seed = String::from_str(alloc, "http://a.test/0").ok()?;
///     let seeds = vec![in alloc; seed].ok()?;
///     let every = Filter::new(alloc, &[]).ok()?;
///     let settings = CrawlSettings {
///         workers: 1,
///         max_pending: MAX_PENDING,
///         mode: Mode::Threads,
///         filter: &every,
///     };
///     let report = report_of_saved_web(rt, alloc, web, &seeds, &settings).ok()?;
///     Some(report.text)
/// }
/// ```
pub fn report_of_saved_web<R: Threads + Wait + Sync>(
    rt: &R,
    alloc: Global,
    bytes: &[u8],
    seeds: &[String],
    settings: &CrawlSettings<'_>,
) -> Result<Report, CommandError>
    ensures report { IfOk result (λ r. IsCrawlReport bytes.now (map string_bytes seeds.now) settings.now.filter.now r.text.items) }
    ensures counts { IfOk result (λ r. (pages : List PageResult) → IsSiteCrawl bytes.now [] (map string_bytes seeds.now) settings.now.filter.now pages → AreCounts settings.now.workers (result_urls pages) r.counts.items) }
    ensures refused { IfErr result (IsRefused settings.now.workers settings.now.max_pending bytes.now (map string_bytes seeds.now) settings.now.filter.now) }
    // There is no report for numbers out of range, and workers that take turns never lack a thread.
    ensures numbers { IfOk result (λ _. IsWorkers settings.now.workers × IsMaximum settings.now.max_pending) }
    ensures mode { IfErr result (ComesOf settings.now.mode) }
{
    let in_threads = settings.has_threads();
    let (web, urls) = read_site(rt, alloc, in_threads, bytes, &[], seeds)?;
    let source = WebInThreads::new(rt, alloc, &web, in_threads);
    let found = crawl_with(rt, alloc, &source, settings, &urls)?;
    let text = report_text(alloc, found.result.pages())?;
    Ok(Report {
        text,
        counts: found.counts,
    })
}
