//! The links in files that are read again. Each that is said to lead to a missing page is resolved again, and must lead there.
ghost use Rattle.std.specs.Prelude.{◌≡◌, true, Contains, IfOk, Some, map};
ghost use Rattle.crawl_pages.specs.declared.page.Page.TheVariants.{Moved};
ghost use Rattle.document_links.specs.LinkUrls.{AreFileLinks};
ghost use Rattle.site_check.specs.Broken.{result_at};
ghost use Rattle.site_check.specs.Located.{AllLead, LeadsAsSaid, index_of};
ghost use Rattle.site_check.specs.Locations.{EndsAtUrl};

use crate::check_error::CheckError;
use crate::leads::{ListedLead, PAGES};
use crate::linked::Linked;
use crate::site_pages::Site;
use crawl_keys::CanonUrl;
use crawl_pages::{NoMemory, Page, PageResult};
use document_links::{FileLinks, LinkPage, TextKind, indexed_links};
use std::alloc::Global;

/// A site, and its results that found no page, which have the targets of links to missing pages.
#[derive(Clone, Copy)]
pub(crate) struct LinkSite<'a, 'p, 'f> {
    pub(crate) site: Site<'p, 'f>,
    pub(crate) linked: &'a [Linked<'p>],
}

/// The page of a file at this URL, below this path of the top. A `base` in the file does not count.
pub(crate) fn page_of_file<'a>(url: &'a CanonUrl, root: Option<&'a str>) -> LinkPage<'a>
    ensures url { result.url.now ≡ url.now }
    ensures root { result.root ≡ root.entry }
{
    LinkPage {
        url,
        root,
        base: false,
    }
}

/// The links of a file with the indices of these leads. A document is read up to the last of them, as if it had no `base`. If one of them
/// does not lead to its missing page then, it is read once more, to its end and with its `base`.
///
/// # Errors
/// `FileChanged` if a link does not lead to its missing page, `NoMemory`.
pub(crate) fn own_links(
    alloc: Global,
    body: &[u8],
    kind: TextKind,
    page: LinkPage<'_>,
    on: LinkSite<'_, '_, '_>,
    leads: &[ListedLead],
) -> Result<FileLinks, CheckError>
    ensures are { IfOk result (λ links. AreFileLinks page.entry.root page.entry.url.now kind body.now (map index_of leads.now) links.places.items links.urls.items) }
    ensures lead { IfOk result (λ links. AllLead (LeadsAsSaid on.entry.site.pages.results.now (map result_at on.entry.linked.now)) links.urls.items leads.now) }
{
    let links = links_with(alloc, body, kind, page, leads)?;
    if lead_there(on, &links, leads) {
        return Ok(links);
    }
    let links = links_with(alloc, body, kind, with_base(page), leads)?;
    if lead_there(on, &links, leads) {
        Ok(links)
    } else {
        Err(CheckError::FileChanged)
    }
}

/// The page, with the `base` of its file.
fn with_base(page: LinkPage<'_>) -> LinkPage<'_>
    ensures url { result.url.now ≡ page.entry.url.now }
    ensures root { result.root ≡ page.entry.root }
{
    LinkPage {
        url: page.url,
        root: page.root,
        base: true,
    }
}

/// The links of a file with the indices of these leads.
fn links_with(
    alloc: Global,
    body: &[u8],
    kind: TextKind,
    page: LinkPage<'_>,
    leads: &[ListedLead],
) -> Result<FileLinks, NoMemory>
    ensures { IfOk result (λ links. AreFileLinks page.entry.root page.entry.url.now kind body.now (map index_of leads.now) links.places.items links.urls.items) }
{
    let indices = indices_of(alloc, leads)?;
    indexed_links(alloc, body, kind, page, indices.as_slice())
}

/// The indices of these links among the links of their file.
fn indices_of(alloc: Global, leads: &[ListedLead]) -> Result<Vec<usize>, NoMemory>
    ensures { IfOk result (λ all. all.items ≡ map index_of leads.now) }
{
    leads.iter().map(|one| one.lead.index).collect(alloc)
}

/// Whether each of these links that is said to lead to a missing page has a URL that leads there.
fn lead_there(on: LinkSite<'_, '_, '_>, links: &FileLinks, leads: &[ListedLead]) -> bool
    ensures { result ≡ true → AllLead (LeadsAsSaid on.entry.site.pages.results.now (map result_at on.entry.linked.now)) links.now.urls.items leads.now }
{
    for (number, one) in leads.iter().enumerate() {
        match links.urls.get(number) {
            Some(url) => {
                if !leads_there(on, url, *one) {
                    return false;
                }
            }
            None => return false,
        }
    }
    true
}

/// Whether a link with this URL leads to its missing page. Nothing is required of links to other targets.
fn leads_there(on: LinkSite<'_, '_, '_>, url: &Option<CanonUrl>, one: ListedLead) -> bool
    ensures { result ≡ true → LeadsAsSaid on.entry.site.pages.results.now (map result_at on.entry.linked.now) url.now one }
{
    if one.list != PAGES {
        return true;
    }
    match url {
        Some(url) => match on.linked.get(one.lead.number) {
            Some(target) => ends_at(
                on.site.pages.results,
                url.as_str(),
                target.result.url.as_str(),
            ),
            None => false,
        },
        None => false,
    }
}

/// Whether a link to a URL leads to the page at another, directly or by a redirect.
fn ends_at(results: &[PageResult], url: &str, to: &str) -> bool
    ensures { result ≡ true → EndsAtUrl results.now url.now to.now }
{
    url == to || has_redirect(results, url, to)
}

/// Whether the page at a URL moved to another. The results are in the order of their URLs.
fn has_redirect(results: &[PageResult], url: &str, to: &str) -> bool
    ensures { result ≡ true → Contains results.now (record { url = url.now; page = Moved (Some to.now) }) }
{
    match results.binary_search_by(|one| one.url.as_str().cmp(url)) {
        Ok(number) => match results.get(number) {
            Some(one) => is_redirect(one, url, to),
            None => false,
        },
        Err(_) => false,
    }
}

/// Whether a page at a URL moved to another.
fn is_redirect(one: &PageResult, url: &str, to: &str) -> bool
    ensures { result ≡ true → one.now ≡ record { url = url.now; page = Moved (Some to.now) } }
{
    match &one.page {
        Page::Moved { to: Some(target) } => one.url.as_str() == url && target.as_str() == to,
        _ => false,
    }
}
