//! The report of a crawl as text, in consecutive chunks.
ghost use Rattle.std.specs.Prelude.{◌≡◌, [], IfOk, if◌then◌else◌};
ghost use Rattle.crawl_report.specs.Printing.{joined};
ghost use Rattle.mercator.specs.Plans.{plan_of};
ghost use Rattle.mercator.specs.WebCrawl.{IsTextOf};

use crate::commands::planned::CrawlPlan;
use crawl_keys::CanonUrl;
use crawl_report::{NoMemory, Report, print_in_chunks, unreached};
use crawl_run::{CrawlSettings, Crawled};
use std::alloc::Global;
use std::thread::Threads;

/// Returns the report of a crawl with these settings, with the sections that the plan asks for, in consecutive chunks. `urls` are
/// those of the pages of the saved web, if the report lists those that no result has. Threads print it if the workers of the crawl
/// had threads.
///
/// # Errors
/// Only if there is not enough memory.
pub(in crate::commands) fn crawl_text<R: Threads + Sync>(
    rt: &R,
    alloc: Global,
    crawl: &CrawlPlan<'_>,
    settings: &CrawlSettings<'_>,
    crawled: &Crawled,
    urls: &[CanonUrl],
) -> Result<Vec<Vec<u8>>, NoMemory>
    ensures { IfOk result (λ chunks. IsTextOf (plan_of crawl.now) urls.now settings.now.filter.now crawled.now.result crawled.now.counts.items (joined chunks.items)) }
{
    let pages = crawled.result.pages();
    let unseen = unreached(alloc, settings.filter, pages, urls)?;
    let report = Report {
        pages,
        queues: counts_to_list(crawl.queues, &crawled.counts),
        unreached: &unseen,
        sections: crawl.options.sections,
    };
    print_in_chunks(
        rt,
        alloc,
        &report,
        crawl.options.json,
        settings.has_threads(),
    )
}

/// Returns the counts of the queues if the report has them, and otherwise none.
fn counts_to_list(given: bool, counts: &[u64]) -> &[u64]
    ensures { result.now ≡ (if given then counts.now else []) }
{
    if given { counts } else { &[] }
}
