//! Checks a site: from its files to the report.
ghost use Rattle.std.specs.Prelude.{◌≡◌, ◌==◌, ◌&&◌, ◌||◌, ℕ, List, not, length, IfErr, IfOk, map, string_bytes, false, true, option_map};
ghost use Rattle.check_report.specs.Text.{is_broken};
ghost use Rattle.crawl_certificate.specs.Certificate.{IsAscending, result_urls};
ghost use Rattle.mercator_site.specs.Asks.{asks_in};
ghost use Rattle.mercator_site.specs.Checks.{AreOthersListed, AreResults, IsCheck, IsFindings, IsReport, IsSiteCheck, IsSiteCheckAt, listed_in, reached_in};
ghost use Rattle.mercator_site.specs.External.{host_root, row_of};
ghost use Rattle.mercator_site.specs.Errors.{IsIncompleteAt, IsTopIncomplete, is_unfinished};
ghost use Rattle.mercator_site.specs.Inputs.{input_in, input_with};
ghost use Rattle.mercator_site.specs.Own.{own_of};
ghost use Rattle.mercator_site.specs.Sources.{IsSourceOf};
ghost use Rattle.saved_site.specs.Linked.{page_at};
ghost use Rattle.saved_site.specs.Served.{AliasesAscend, AnchorsAscend};

use crate::crawl::{SiteCrawls, crawl_site};
use crate::error::FolderError;
use crate::external::external_links;
use crate::false_miss::has_false_miss;
use crate::mapped::{names_of, unmapped};
use crate::notes::push_page_notes;
use crate::own::own_results;
use crate::print::print_check;
use crate::settings::CheckSettings;
use crate::start::check_starts;
use check_report::{Contents, External};
use crawl_keys::CanonUrl;
use crawl_pages::PageResult;
use saved_site::{LinkedSite, has_all_pages, site_pages};
use site_check::{CheckError, CheckInput, Checked, MapName, check_site, ignore_unlisted};
use site_files::{FileBytes, InMemory, Note, Rules, SiteFiles, SiteNames};
use std::alloc::{AllocError, Global};
use std::mem::forget;
use std::sync::Wait;
use std::thread::Threads;

/// Files in memory: their names and contents, in the same order.
#[derive(Clone, Copy)]
pub struct Files<'a> {
    pub names: &'a [String],
    pub bodies: &'a [Vec<u8>],
}

/// The report of a check.
#[derive(Drop)]
pub struct CheckReport {
    pub text: Vec<u8>,
    /// Whether something is broken, or a document is reported that no sitemap lists.
    pub is_broken: bool,
    /// Whether documents that no sitemap lists are reported, but no sitemap was read.
    pub lacks_sitemap: bool,
}

/// A site that was crawled.
#[derive(Clone, Copy)]
pub(crate) struct CrawledSite<'a> {
    pub(crate) site: &'a LinkedSite,
    pub(crate) crawls: &'a SiteCrawls,
    /// All results of the crawl.
    pub(crate) pages: &'a [PageResult],
    /// Those of the site's own URLs.
    pub(crate) own: &'a [PageResult],
}

/// Checks a site whose files are in memory.
///
/// # Errors
/// `BadBase`, `NoFiles`, `TooLarge`, `PagesLost`, `FileUnread`, `FileChanged`, `LinkLost`, `BadHost`, `BadSeed`, `NoStart`, `NoDocuments`, `NoMemory`; `Crawl` if the crawl is incomplete.
pub fn report_of_files<R: Threads + Wait + Sync>(
    rt: &R,
    alloc: Global,
    files: Files<'_>,
    base: &str,
    rules: &Rules,
    settings: CheckSettings<'_>,
) -> Result<CheckReport, FolderError>
    ensures { IfOk result (λ report. IsSiteCheckAt files.entry.names.now files.entry.bodies.now rules.now settings.entry.name.now base.now (asks_in settings.entry) report.is_broken report.text.items) }
{
    let input = SiteNames {
        names: files.names,
        links: &[],
        skipped: &[],
        base,
        rules,
    };
    let pages = SiteFiles::new(alloc, input)?;
    let bytes = InMemory {
        bodies: files.bodies,
    };
    let mut notes = Vec::new(alloc);
    report_of_site(rt, alloc, &pages, &bytes, settings, &mut notes)
}

/// Checks a site with these files. Appends a note about each page that is skipped or changed.
///
/// # Errors
/// `BadSeed`, `NoStart`, `NoDocuments`, `TooLarge`, `PagesLost`, `FileUnread`, `FileChanged`, `LinkLost`, `BadHost`, `NoMemory`; `Crawl` if the crawl is incomplete.
pub(crate) fn report_of_site<R: Threads + Wait + Sync, B: FileBytes + Sync>(
    rt: &R,
    alloc: Global,
    files: &SiteFiles<'_>,
    bytes: &B,
    settings: CheckSettings<'_>,
    notes: &mut Vec<Note>,
) -> Result<CheckReport, FolderError>
    requires { files.now.site.top_url ≡ string_bytes files.now.site.top }
    ensures checked { IfOk result (λ report. IsSiteCheck files.now (B.reads bytes.now) settings.entry.name.now (asks_in settings.entry) report.is_broken report.text.items) }
    ensures incomplete { IfErr result (λ error. is_unfinished error ≡ true → IsIncompleteAt (string_bytes files.now.site.top) settings.entry.reachable (map string_bytes settings.entry.seeds.now) settings.entry.workers) }
{
    check_starts(alloc, files, settings.seeds, settings.reachable)?;
    let site = site_pages(rt, alloc, files, settings.seeds, bytes)?;
    if !has_all_pages(files, &site.pages) {
        return Err(FolderError::PagesLost);
    }
    push_page_notes(alloc, notes, settings.front, site.notes.as_slice())?;
    let report = report_of_pages(rt, alloc, &site, files, bytes, settings)?;
    // Not freed: the process exits soon, and the system frees everything faster.
    forget(site);
    Ok(report)
}

/// Checks a site by its pages in memory, which are those of a saved web whose bytes are not needed. The crawl starts at the top or at
/// the seeds, and at all documents unless only what can be reached is checked. It stays on the top's host.
fn report_of_pages<R: Threads + Wait + Sync, B: FileBytes + Sync>(
    rt: &R,
    alloc: Global,
    site: &LinkedSite,
    files: &SiteFiles<'_>,
    bytes: &B,
    settings: CheckSettings<'_>,
) -> Result<CheckReport, FolderError>
    ensures checked { (web : List ℕ) → IsSourceOf (page_at site.now.pages) web → AnchorsAscend site.now.anchors.items → AliasesAscend site.now.aliases.items → IfOk result (λ report. IsCheck files.now (B.reads bytes.now) settings.entry.name.now files.now.site.top_url web site.now.aliases.items site.now.anchors.items (asks_in settings.entry) report.is_broken report.text.items) }
    ensures incomplete { (web : List ℕ) → IsSourceOf (page_at site.now.pages) web → IfErr result (λ error. is_unfinished error ≡ true → IsTopIncomplete files.now.site.top_url web settings.entry.reachable (map string_bytes settings.entry.seeds.now) settings.entry.workers) }
{
    let top = files.top_url();
    let crawls = crawl_site(rt, alloc, &site.pages, files, top, settings)?;
    let crawled = crawled_site(site, &crawls, top);
    let report = report_of_crawled(rt, alloc, crawled, files, bytes, settings)?;
    // Not freed, as the pages.
    forget(crawls);
    Ok(report)
}

/// A site with this top that was crawled.
pub(crate) fn crawled_site<'a>(
    site: &'a LinkedSite,
    crawls: &'a SiteCrawls,
    top: &CanonUrl,
) -> CrawledSite<'a>
    ensures site { result.site.now ≡ site.now }
    ensures crawls { result.crawls.now ≡ crawls.now }
    ensures pages { result.pages.now ≡ crawls.now.whole.result }
    ensures own { IsAscending (result_urls crawls.now.whole.result) → result.own.now ≡ own_of top.now crawls.now.whole.result }
{
    let pages = crawls.whole.result.pages();
    CrawledSite {
        site,
        crawls,
        pages,
        own: own_results(top, pages),
    }
}

/// Checks a site that was crawled, and prints the results.
fn report_of_crawled<R: Threads + Sync, B: FileBytes + Sync>(
    rt: &R,
    alloc: Global,
    crawled: CrawledSite<'_>,
    files: &SiteFiles<'_>,
    bytes: &B,
    settings: CheckSettings<'_>,
) -> Result<CheckReport, FolderError>
    ensures findings { IfOk result (λ report. IsFindings settings.entry.name.now files.now (B.reads bytes.now) crawled.entry.own.now crawled.entry.pages.now (reached_in crawled.entry.crawls.now settings.entry.report.lists.unreached) crawled.entry.site.now.aliases.items crawled.entry.site.now.anchors.items (asks_in settings.entry) report.is_broken report.text.items) }
    ensures plain { IfErr result (λ error. is_unfinished error ≡ false) }
{
    let is_wrong = has_false_miss(alloc, files, crawled.own)?;
    if is_wrong {
        return Err(FolderError::PagesLost);
    }
    let checked = checked_of(rt, alloc, crawled, files, bytes, settings)?;
    let others = others_listed(alloc, settings.report.external, files, crawled.own)?;
    let lacks_sitemap = lacks_sitemap(crawled.site, settings.report.lists.unlisted);
    let report = report_of(alloc, &checked, &others, lacks_sitemap, settings)?;
    forget(checked);
    Ok(report)
}

/// Checks a site that was crawled.
///
/// # Errors
/// `FileUnread`, `FileChanged`, `LinkLost`, `NoMemory`.
pub(crate) fn checked_of<R: Threads + Sync, B: FileBytes + Sync>(
    rt: &R,
    alloc: Global,
    crawled: CrawledSite<'_>,
    files: &SiteFiles<'_>,
    bytes: &B,
    settings: CheckSettings<'_>,
) -> Result<Checked, CheckError>
    ensures { IfOk result (AreResults files.now (B.reads bytes.now) crawled.entry.own.now crawled.entry.pages.now (reached_in crawled.entry.crawls.now settings.entry.report.lists.unreached) crawled.entry.site.now.aliases.items crawled.entry.site.now.anchors.items (asks_in settings.entry)) }
{
    let left = unmapped(alloc, settings.maps, crawled.pages)?;
    let names = names_of(alloc, settings.maps)?;
    let lookups = Lookups {
        left: left.as_slice(),
        names: names.as_slice(),
    };
    let input = input_of(crawled, lookups, settings);
    let mut checked = check_site(rt, alloc, crawled.own, files, bytes, input)?;
    ignore_unlisted(
        settings.ignores,
        &mut checked.unlisted,
        &mut checked.unused_ignores,
    );
    Ok(checked)
}

/// What was looked up in the folders of maps.
#[derive(Clone, Copy)]
struct Lookups<'a> {
    /// The missing results of which no folder has a page.
    left: &'a [PageResult],
    /// The prefixes and the names of the folders.
    names: &'a [MapName<'a>],
}

/// The settings of the check of the results, with what is known of the site.
fn input_of<'a>(
    crawled: CrawledSite<'a>,
    lookups: Lookups<'a>,
    settings: CheckSettings<'a>,
) -> CheckInput<'a>
    ensures { input_in result ≡ input_with (asks_in settings.entry) lookups.entry.names.now lookups.entry.left.now crawled.entry.site.now.aliases.items crawled.entry.site.now.documents.items crawled.entry.site.now.anchors.items (reached_in crawled.entry.crawls.now settings.entry.report.lists.unreached) (listed_in crawled.entry.site.now settings.entry.report.lists.unlisted) }
{
    let site = crawled.site;
    let lists = settings.report.lists;
    CheckInput {
        front: settings.front,
        ignores: settings.ignores,
        aliases: site.aliases.as_slice(),
        documents: site.documents.as_slice(),
        anchors: site.anchors.as_slice(),
        places: site.places.as_slice(),
        scope: settings.scope,
        found: lookups.left,
        rooted: settings.rooted,
        maps: lookups.names,
        reached: reached_in(crawled.crawls, lists.unreached),
        listed: listed_in(site, lists.unlisted),
    }
}

/// Whether documents that no sitemap lists are reported, but no sitemap was read.
fn lacks_sitemap(site: &LinkedSite, is_requested: bool) -> bool {
    is_requested && !site.has_sitemap
}

/// The URLs that sitemaps list, if the documents that none lists are reported.
fn listed_in(site: &LinkedSite, is_requested: bool) -> Option<&[CanonUrl]>
    ensures { option_map (λ urls. urls.now) result ≡ listed_in site.now is_requested }
{
    if is_requested {
        Some(site.listed.as_slice())
    } else {
        None
    }
}

/// The results that are reached from the links or the top, if unreached files are listed.
fn reached_in(crawls: &SiteCrawls, listed: bool) -> Option<&[PageResult]>
    ensures { option_map (λ results. results.now) result ≡ reached_in crawls.now listed }
{
    match &crawls.reached {
        Some(reached) => Some(reached.result.pages()),
        None => if listed {
            Some(crawls.whole.result.pages())
        } else {
            None
        },
    }
}

/// Prints the results of a check and the external links.
fn report_of(
    alloc: Global,
    checked: &Checked,
    others: &Option<Vec<External>>,
    lacks_sitemap: bool,
    settings: CheckSettings<'_>,
) -> Result<CheckReport, AllocError>
    ensures { IfOk result (λ report. IsReport checked.now (option_map (λ urls. map row_of urls.items) others.now) settings.entry.name.now (asks_in settings.entry) report.is_broken report.text.items) }
{
    let options = settings.report;
    let contents = Contents {
        lists: options.lists,
        external: slice_of(others),
        folder: settings.folder,
        source_url: settings.source_url,
    };
    let findings = checked.findings(settings.name);
    let text = print_check(alloc, &findings, contents, options.form)?;
    Ok(CheckReport {
        text,
        is_broken: fails(checked, options.lists.unlisted),
        lacks_sitemap,
    })
}

/// Whether a check fails: something is broken, or documents that no sitemap lists are reported, and there is one.
fn fails(checked: &Checked, reports_unlisted: bool) -> bool
    ensures { result ≡ is_broken checked.now.totals || (reports_unlisted && not (length checked.now.unlisted.items == 0)) }
{
    checked.is_broken() || reports_unlisted && !checked.unlisted.is_empty()
}

/// The external links of the pages, if they are listed.
fn others_listed(
    alloc: Global,
    listed: bool,
    files: &SiteFiles<'_>,
    pages: &[PageResult],
) -> Result<Option<Vec<External>>, AllocError>
    ensures { IfOk result (λ others. AreOthersListed listed (host_root files.now) pages.now (option_map (λ urls. map row_of urls.items) others)) }
{
    if !listed {
        return Ok(None);
    }
    Ok(Some(external_links(alloc, files, pages)?))
}

/// The external links as a slice, if they are listed.
fn slice_of(others: &Option<Vec<External>>) -> Option<&[External]>
    ensures { option_map (λ urls. map row_of urls.now) result ≡ option_map (λ urls. map row_of urls.items) others.now }
{
    match others {
        Some(urls) => Some(urls.as_slice()),
        None => None,
    }
}
