//! The totals of a check.
ghost use Rattle.std.specs.Prelude.{◌≡◌, if◌then◌else◌, IfOk, count_by, length, max};
ghost use Rattle.site_check.specs.Aliases.{is_alias_page, is_document_page, is_file_page, is_in, is_own_page};
ghost use Rattle.site_check.specs.Totals.{capped, is_invalid, is_leaving, is_missing, is_page, is_anchor, link_count, links_in, anchor_count, place_count, row_links, totals_by, totals_of, url_count};

use crate::url_sets::{UrlSet, alias_urls, document_urls};
use check_report::{Broken, Kind, Redirect, Totals};
use crawl_keys::CanonUrl;
use crawl_pages::{NoMemory, Page, PageResult};
use site_files::Alias;
use std::alloc::Global;

/// The totals of a crawl's results, of a site with these aliases and documents, and of these rows.
pub(crate) fn totals_of<'a>(
    alloc: Global,
    aliases: &'a [Alias],
    documents: &'a [CanonUrl],
    results: &'a [PageResult],
    broken: &[Broken],
    redirects: &[Redirect],
) -> Result<Totals, NoMemory>
    ensures { IfOk result (λ totals. totals ≡ totals_of aliases.now documents.now results.now broken.now redirects.now) }
{
    let others = alias_urls(alloc, aliases)?;
    let texts = document_urls(alloc, documents)?;
    let totals = totals_by(&others, &texts, results, broken, redirects);
    Ok(totals)
}

/// Returns the totals. `others` are the URLs of the aliases, and `texts` those of the documents.
fn totals_by<'a>(
    others: &UrlSet<'a>,
    texts: &UrlSet<'a>,
    results: &'a [PageResult],
    broken: &[Broken],
    redirects: &[Redirect],
) -> Totals
    ensures { result ≡ totals_by (is_in others.now) (is_in texts.now) results.now broken.now redirects.now }
{
    let pages = page_counts(others, texts, results);
    let rows = row_counts(broken);
    Totals {
        pages: pages.documents,
        files: pages.files,
        aliases: pages.aliases,
        links: pages.links,
        broken_links: rows.broken_links,
        broken_urls: rows.urls,
        broken_anchors: rows.anchors,
        invalid_links: rows.invalid_links,
        leaving_links: rows.leaving_links,
        moved: redirects.len() as u64,
    }
}

/// The counts of the pages that were found.
#[derive(Clone, Copy)]
struct PageCounts {
    /// At the own URLs of documents.
    documents: u64,
    /// At the own URLs of other files.
    files: u64,
    /// At aliases.
    aliases: u64,
    /// The links in the pages at own URLs.
    links: u64,
}

/// Counts the pages that were found, and the links in those at the own URLs of files. `others` are the URLs of the aliases, and `texts`
/// those of the documents.
fn page_counts<'a>(others: &UrlSet<'a>, texts: &UrlSet<'a>, results: &'a [PageResult]) -> PageCounts
    ensures documents { result.documents ≡ count_by (is_document_page (is_in others.now) (is_in texts.now)) results.now }
    ensures files { result.files ≡ count_by (is_file_page (is_in others.now) (is_in texts.now)) results.now }
    ensures aliases { result.aliases ≡ count_by (is_alias_page (is_in others.now)) results.now }
    ensures links { result.links ≡ link_count (is_in others.now) results.now }
{
    let mut documents: u64 = 0;
    let mut files: u64 = 0;
    let mut aliases: u64 = 0;
    let mut links: u64 = 0;
    for one in results {
        let kind = kind_of(others, texts, one);
        documents += number_of(kind.is_document);
        files += number_of(kind.is_file);
        aliases += number_of(kind.is_alias);
        links = links.saturating_add(links_if(kind.is_own, &one.page));
    }
    PageCounts {
        documents,
        files,
        aliases,
        links,
    }
}

/// What a result's page is, if one was found.
#[derive(Clone, Copy)]
struct PageKind {
    /// A page at the own URL of a file.
    is_own: bool,
    is_document: bool,
    /// A page at the own URL of a file that is no document.
    is_file: bool,
    is_alias: bool,
}

/// What a result's page is. `others` are the URLs of the aliases, and `texts` those of the documents.
fn kind_of<'a>(others: &UrlSet<'a>, texts: &UrlSet<'a>, one: &'a PageResult) -> PageKind
    ensures own { result.is_own ≡ is_own_page (is_in others.now) one.now }
    ensures document { result.is_document ≡ is_document_page (is_in others.now) (is_in texts.now) one.now }
    ensures file { result.is_file ≡ is_file_page (is_in others.now) (is_in texts.now) one.now }
    ensures alias { result.is_alias ≡ is_alias_page (is_in others.now) one.now }
{
    let (is_own, is_alias) = place_of(others, one);
    let is_text = texts.contains(&one.url.hashed());
    PageKind {
        is_own,
        is_document: is_own && is_text,
        is_file: is_own && !is_text,
        is_alias,
    }
}

/// Whether a page was found at the own URL of a file, and whether one was found at an alias. `others` are the URLs of the aliases.
fn place_of<'a>(others: &UrlSet<'a>, one: &'a PageResult) -> (bool, bool)
    ensures own { result.0 ≡ is_own_page (is_in others.now) one.now }
    ensures alias { result.1 ≡ is_alias_page (is_in others.now) one.now }
{
    if !one.page.is_found() {
        return (false, false);
    }
    let is_other = others.contains(&one.url.hashed());
    (!is_other, is_other)
}

/// 1 for what is counted, otherwise 0.
pub(crate) fn number_of(is_counted: bool) -> u64
    ensures { result ≡ (if is_counted then 1 else 0) }
{
    if is_counted { 1 } else { 0 }
}

/// Returns the number of links in a page that is counted; 0 for any other.
fn links_if(is_counted: bool, page: &Page) -> u64
    ensures { result ≡ capped (if is_counted then links_in page.now else 0) }
{
    if is_counted { links_in(page) } else { 0 }
}

/// Returns the number of links in a page, with the links that were skipped. A page that was not found has none.
fn links_in(page: &Page) -> u64
    ensures { result ≡ capped (links_in page.now) }
{
    match page {
        Page::Found { links, skipped } => {
            (links.as_slice().len() as u64).saturating_add(*skipped)
        }
        Page::Moved { .. } => 0,
        Page::Missing => 0,
    }
}

/// The counts of the rows.
#[derive(Clone, Copy)]
struct RowCounts {
    /// The locations of links to missing pages and anchors.
    broken_links: u64,
    /// The missing pages.
    urls: u64,
    /// The missing anchors.
    anchors: u64,
    /// The locations of invalid links; a row without locations counts as one.
    invalid_links: u64,
    /// The locations of links that lead out of the site; a row without locations counts as one.
    leaving_links: u64,
}

/// Counts the rows, and the locations of their links.
fn row_counts(broken: &[Broken]) -> RowCounts
    ensures broken_links { result.broken_links ≡ place_count is_missing broken.now }
    ensures urls { result.urls ≡ url_count broken.now }
    ensures anchors { result.anchors ≡ anchor_count broken.now }
    ensures invalid_links { result.invalid_links ≡ row_links is_invalid broken.now }
    ensures leaving_links { result.leaving_links ≡ row_links is_leaving broken.now }
{
    let mut broken_links: u64 = 0;
    let mut urls: u64 = 0;
    let mut anchors: u64 = 0;
    let mut invalid_links: u64 = 0;
    let mut leaving_links: u64 = 0;
    for one in broken {
        let kind = one.kind;
        urls += number_of(is_page(kind));
        anchors += number_of(is_anchor(kind));
        broken_links = broken_links.saturating_add(places_if(is_missing(kind), one));
        invalid_links = invalid_links.saturating_add(row_links_if(is_invalid(kind), one));
        leaving_links = leaving_links.saturating_add(row_links_if(is_leaving(kind), one));
    }
    RowCounts {
        broken_links,
        urls,
        anchors,
        invalid_links,
        leaving_links,
    }
}

/// The number of locations of links to missing pages.
pub(crate) fn links_to_missing(broken: &[Broken]) -> u64
    ensures { result ≡ place_count is_page broken.now }
{
    let mut count: u64 = 0;
    for one in broken {
        count = count.saturating_add(places_if(is_page(one.kind), one));
    }
    count
}

/// The number of locations of a row that is counted; 0 for any other.
fn places_if(is_counted: bool, one: &Broken) -> u64
    ensures { result ≡ (if is_counted then length one.now.places.items else 0) }
{
    if is_counted {
        one.places.len() as u64
    } else {
        0
    }
}

/// The number of locations of a row that is counted, but at least 1; 0 for any other.
fn row_links_if(is_counted: bool, one: &Broken) -> u64
    ensures { result ≡ (if is_counted then max (length one.now.places.items) 1 else 0) }
{
    if is_counted {
        (one.places.len() as u64).max(1)
    } else {
        0
    }
}

/// Whether the row is that of a missing page or a missing anchor.
fn is_missing(kind: Kind) -> bool
    ensures { result ≡ is_missing kind }
{
    is_page(kind) || is_anchor(kind)
}

/// Whether the row is that of a missing page.
pub(crate) fn is_page(kind: Kind) -> bool
    ensures { result ≡ is_page kind }
{
    matches!(kind, Kind::NoPage)
}

/// Whether the row is that of a missing anchor.
fn is_anchor(kind: Kind) -> bool
    ensures { result ≡ is_anchor kind }
{
    matches!(kind, Kind::NoAnchor)
}

/// Whether the row is that of a URL outside the site.
fn is_leaving(kind: Kind) -> bool
    ensures { result ≡ is_leaving kind }
{
    matches!(kind, Kind::Leaves | Kind::OutsideBase | Kind::NotInMap)
}

/// Whether the row is that of an invalid link.
fn is_invalid(kind: Kind) -> bool
    ensures { result ≡ is_invalid kind }
{
    matches!(kind, Kind::NotUrl | Kind::UnknownScheme | Kind::LocalFile)
}
