//! A crawl of a saved web, from its files to its report.
ghost use Rattle.std.specs.Prelude.{◌≡◌, ◌&&◌, ℕ, List, [], if◌then◌else◌, map, string_bytes, false, IfOk, IfErr};
ghost use Rattle.std.specs.Str.Lines.{lines};
ghost use Rattle.crawl_certificate.specs.Certificate.{IsCrawl, result_urls};
ghost use Rattle.crawl_keys.specs.HostFilter.{allows, filter_of};
ghost use Rattle.crawl_keys.specs.Outcome.{Gives};
ghost use Rattle.crawl_report.specs.Printing.{joined};
ghost use Rattle.crawl_run.specs.Crawls.{AreCounts, CrawlFails, IsJudgedAt};
ghost use Rattle.crawl_run.specs.JudgedRuns.{CountsLosses};
ghost use Rattle.crawl_run.specs.Losses.{IsLost};
ghost use Rattle.saved_web.specs.KnownPages.{page_at, urls_of};
ghost use Rattle.saved_pages.specs.SavedWeb.{page_of, page_urls};
ghost use Rattle.saved_pages.specs.WebErrors.{IsSound, IsWebRefusal};
ghost use Rattle.mercator.specs.Plans.{crawl_plan, is_input, lists_input, plan_of, reads_files, suffixes_of};
ghost use Rattle.mercator.specs.Outputs.{EndsBy, FailsCrawl, Gains, IsCrawlOutput};
ghost use Rattle.mercator.specs.WebCrawl.{AreAllSeeds, AreSeeds, IsBegun, IsFound, IsSeedError, IsUnbegun, IsUnread, pages_to_list};

use crate::commands::crawl_text::crawl_text;
use crate::commands::error::CommandError;
use crate::commands::planned::CrawlPlan;
use crate::commands::platform::Platform;
use crate::commands::source::read_files;
use crate::commands::writing::end_by_chunks;
use crawl_keys::{CanonUrl, Filter, FilterError, canonical};
use crawl_pages::SessionFetch;
use crawl_report::{NoMemory, Sections};
use crawl_run::{CrawlFailure, CrawlSettings, Crawled, Mode, Observe, Watched, crawl_with};
use crawl_sources::read_seeds;
use saved_web::{SavedWeb, WebError, WebInThreads};
use std::alloc::Global;
use std::fs::Files;
use std::io::{Read, Write};
use std::mem::forget;
use std::sync::Wait;
use std::thread::Threads;

/// Crawls, and prints the report.
///
/// # Errors
/// Those of [`report_of_plan`]; `CannotWrite`.
pub(in crate::commands) fn print_crawl<
    R: Files + Threads + Wait + Sync,
    L,
    V: Observe + Sync,
    I: Read,
    O: Write,
>(
    platform: &Platform<'_, R, L, V>,
    alloc: Global,
    crawl: &CrawlPlan<'_>,
    input: &mut I,
    out: &mut O,
) -> Result<(), CommandError>
    requires one_input { (is_input (string_bytes crawl.now.file.now) && lists_input crawl.now.options.now.listed) ≡ false }
    ensures done { IfOk result (λ _. Gains (crawl_plan crawl.now) (I.remaining input.old) (O.contents out.old) (O.contents out.new)) }
    ensures error { IfErr result (λ error. EndsBy (crawl_plan crawl.now) (I.remaining input.old) error (out.new ≡ out.old)) }
    ensures unread { reads_files (plan_of crawl.now) ≡ false → input.new ≡ input.old }
{
    let chunks = report_of_plan(platform, alloc, crawl, input)?;
    end_by_chunks(out, &chunks)
}

/// Crawls, and returns the report in consecutive chunks. The suffix is checked first. Then the saved web and the file of seeds are
/// read whole.
///
/// # Errors
/// `BadSuffix`, `CannotRead`, `CannotReadSeeds`; those of [`crawl_files`]; `NoMemory`.
fn report_of_plan<R: Files + Threads + Wait + Sync, L, V: Observe + Sync, I: Read>(
    platform: &Platform<'_, R, L, V>,
    alloc: Global,
    crawl: &CrawlPlan<'_>,
    input: &mut I,
) -> Result<Vec<Vec<u8>>, CommandError>
    requires one_input { (is_input (string_bytes crawl.now.file.now) && lists_input crawl.now.options.now.listed) ≡ false }
    ensures text { IfOk result (λ chunks. IsCrawlOutput (plan_of crawl.now) (I.remaining input.old) (joined chunks.items)) }
    ensures error { IfErr result (FailsCrawl (plan_of crawl.now) (I.remaining input.old)) }
    ensures unread { reads_files (plan_of crawl.now) ≡ false → input.new ≡ input.old }
{
    let filter = filter_of(alloc, &crawl.options.within)?;
    let files = read_files(platform.rt, alloc, crawl, input)?;
    let settings = CrawlSettings {
        workers: crawl.workers,
        max_pending: crawl.max,
        mode: Mode::Threads,
        filter: &filter,
    };
    let (crawled, urls) = crawl_files(platform, alloc, crawl, &settings, &files.0, &files.1)?;
    // The report may need the memory of the files.
    drop(files);
    let chunks = crawl_text(platform.rt, alloc, crawl, &settings, &crawled, &urls)?;
    // The process ends soon, which frees them faster.
    forget(crawled);
    forget(urls);
    Ok(chunks)
}

/// Returns the filter of a crawl.
pub(in crate::commands) fn filter_of(
    alloc: Global,
    within: &Option<String>,
) -> Result<Filter, FilterError>
    ensures { Gives FilterError.NoMemory (λ filter. filter) result (filter_of (suffixes_of within.now)) }
{
    match within {
        Some(suffix) => Filter::new(alloc, &[suffix.as_str()]),
        None => Filter::new(alloc, &[]),
    }
}

/// Crawls the saved web with these bytes, from the seeds of the file with the bytes `listed`, followed by those of the plan: from at
/// least one. Returns what was found, and the URLs of the pages of the saved web if the report lists those that no result has.
///
/// # Errors
/// `Web`, `Seeds`, `Seed` for the first seed that has no canonical URL, `NoSeed`; `Crawl` if a number is out of range, or if the
/// crawl is incomplete; `NoMemory`.
fn crawl_files<R: Threads + Wait + Sync, L, V: Observe + Sync>(
    platform: &Platform<'_, R, L, V>,
    alloc: Global,
    crawl: &CrawlPlan<'_>,
    settings: &CrawlSettings<'_>,
    bytes: &[u8],
    listed: &[u8],
) -> Result<(Crawled, Vec<CanonUrl>), CommandError>
    ensures found { IfOk result (λ r. IsFound settings.now.workers bytes.now listed.now (map string_bytes crawl.now.seeds.now.items) settings.now.filter.now r.0) }
    ensures begun { IfOk result (λ _. IsBegun bytes.now listed.now (map string_bytes crawl.now.seeds.now.items)) }
    ensures urls { IfOk result (λ r. r.1.items ≡ pages_to_list crawl.now.options.now.sections (lines bytes.now)) }
    ensures refused { IfErr result (IsUnbegun settings.now.workers settings.now.max_pending bytes.now listed.now (map string_bytes crawl.now.seeds.now.items) settings.now.filter.now) }
{
    let in_threads = settings.has_threads();
    let (web, seeds) = read_site(platform.rt, alloc, in_threads, bytes, listed, crawl.seeds)?;
    if seeds.is_empty() {
        return Err(CommandError::NoSeed);
    }
    let is_watched = crawl.options.progress;
    let crawled = crawl_web(platform, alloc, is_watched, settings, &web, &seeds)?;
    let urls = pages_to_list(alloc, crawl.options.sections, &web)?;
    Ok((crawled, urls))
}

/// Crawls the saved web. If `is_watched`, reports to the observer of the platform, if there is one.
fn crawl_web<R: Threads + Wait + Sync, L, V: Observe + Sync>(
    platform: &Platform<'_, R, L, V>,
    alloc: Global,
    is_watched: bool,
    settings: &CrawlSettings<'_>,
    web: &SavedWeb<'_>,
    seeds: &[CanonUrl],
) -> Result<Crawled, CrawlFailure>
    ensures pages { IfOk result (λ crawled. IsCrawl (page_at web.now) (allows settings.now.filter.now) seeds.now crawled.result) }
    ensures counts { IfOk result (λ crawled. AreCounts settings.now.workers (result_urls crawled.result) crawled.counts.items) }
    ensures numbers { IfErr result (λ failure. CrawlFails settings.now.workers settings.now.max_pending failure.error) }
    ensures judged { IfErr result (λ failure. IsJudgedAt (page_at web.now) (allows settings.now.filter.now) seeds.now failure.error failure.culprit) }
    ensures lost { IfErr result (λ failure. IsLost failure.error failure.losses) }
    ensures counted { IfErr result (λ failure. CountsLosses settings.now.workers (allows settings.now.filter.now) (page_at web.now) seeds.now failure.error failure.culprit failure.losses) }
{
    let observer = if is_watched { platform.observer } else { None };
    let source = WebInThreads::new(platform.rt, alloc, web, settings.has_threads());
    crawl_source(platform.rt, alloc, &source, observer, settings, seeds)
}

/// Crawls the source. Reports to the observer, if there is one.
fn crawl_source<F: SessionFetch + Sync, V: Observe + Sync, R: Threads + Wait + Sync>(
    rt: &R,
    alloc: Global,
    source: &F,
    observer: Option<&V>,
    settings: &CrawlSettings<'_>,
    seeds: &[CanonUrl],
) -> Result<Crawled, CrawlFailure>
    ensures pages { IfOk result (λ crawled. IsCrawl (F.meaning source.now) (allows settings.now.filter.now) seeds.now crawled.result) }
    ensures counts { IfOk result (λ crawled. AreCounts settings.now.workers (result_urls crawled.result) crawled.counts.items) }
    ensures numbers { IfErr result (λ failure. CrawlFails settings.now.workers settings.now.max_pending failure.error) }
    ensures judged { IfErr result (λ failure. IsJudgedAt (F.meaning source.now) (allows settings.now.filter.now) seeds.now failure.error failure.culprit) }
    ensures lost { IfErr result (λ failure. IsLost failure.error failure.losses) }
    ensures counted { IfErr result (λ failure. CountsLosses settings.now.workers (allows settings.now.filter.now) (F.meaning source.now) seeds.now failure.error failure.culprit failure.losses) }
{
    match observer {
        Some(observer) => {
            let watched = Watched::new(source, observer);
            crawl_with(rt, alloc, &watched, settings, seeds)
        }
        None => crawl_with(rt, alloc, source, settings, seeds),
    }
}

/// Returns the URLs of the pages of the saved web if the report lists those that no result has.
fn pages_to_list(
    alloc: Global,
    sections: Sections,
    web: &SavedWeb<'_>,
) -> Result<Vec<CanonUrl>, NoMemory>
    ensures { IfOk result (λ urls. urls.items ≡ (if sections.unreached then urls_of web.now else [])) }
{
    if sections.unreached {
        web.page_urls(alloc)
    } else {
        Ok(Vec::new(alloc))
    }
}

/// Reads the saved web, and the seeds: those of the file with the bytes `listed`, followed by `seeds`.
pub(in crate::commands) fn read_site<'a, R: Threads + Sync>(
    rt: &R,
    alloc: Global,
    in_threads: bool,
    bytes: &'a [u8],
    listed: &[u8],
    seeds: &[String],
) -> Result<(SavedWeb<'a>, Vec<CanonUrl>), CommandError>
    ensures sound { IfOk result (λ _. IsSound (lines bytes.now)) }
    ensures pages { IfOk result (λ r. (url : List ℕ) → page_at r.0 url ≡ page_of (lines bytes.now) url) }
    ensures urls { IfOk result (λ r. urls_of r.0 ≡ page_urls (lines bytes.now)) }
    ensures named { IfOk result (λ r. AreAllSeeds listed.now (map string_bytes seeds.now) r.1.items) }
    ensures unread { IfErr result (λ error. IsUnread bytes.now listed.now (map string_bytes seeds.now) error) }
{
    let web = web_of(rt, alloc, in_threads, bytes)?;
    let mut urls = read_seeds(alloc, listed)?;
    let mut others = seed_urls(alloc, seeds)?;
    urls.append(&mut others)?;
    Ok((web, urls))
}

/// Reads the saved web, by threads if `in_threads`.
fn web_of<'a, R: Threads + Sync>(
    rt: &R,
    alloc: Global,
    in_threads: bool,
    bytes: &'a [u8],
) -> Result<SavedWeb<'a>, WebError>
    ensures sound { IfOk result (λ _. IsSound (lines bytes.now)) }
    ensures pages { IfOk result (λ web. (url : List ℕ) → page_at web url ≡ page_of (lines bytes.now) url) }
    ensures urls { IfOk result (λ web. urls_of web ≡ page_urls (lines bytes.now)) }
    ensures error { IfErr result (λ output. IsWebRefusal (lines bytes.now) output) }
{
    if in_threads {
        SavedWeb::read_in_threads(rt, alloc, bytes)
    } else {
        SavedWeb::read(alloc, bytes)
    }
}

/// Returns the canonical URLs of the seeds.
#[tactic(auto, using(crate::proofs::Seeds::seed_error))]
fn seed_urls(alloc: Global, texts: &[String]) -> Result<Vec<CanonUrl>, CommandError>
    ensures named { IfOk result (λ urls. AreSeeds (map string_bytes texts.now) urls.items) }
    ensures refused { IfErr result (λ error. IsSeedError (map string_bytes texts.now) error) }
{
    let mut urls = Vec::new(alloc);
    for (index, text) in texts.iter().enumerate() {
        match canonical(alloc, text.as_str()) {
            Ok(url) => urls.push(url)?,
            Err(refusal) => return Err(CommandError::of_seed(index + 1, refusal)),
        }
    }
    Ok(urls)
}
