//! The external links of a site.
ghost use Rattle.std.specs.Prelude.{◌≡◌, ◌≤◌, ◌++◌, ◌∷◌, [], OnOk, IfOk, map, string_bytes};
ghost use Rattle.crawl_sources.specs.Tallies.{pointed};
ghost use Rattle.mercator_site.specs.External.{AreExternal, host_root, outside, outside_links, row, row_of, runs, runs_from};

use crate::own::begins;
use check_report::External;
use crawl_keys::CanonUrl;
use crawl_pages::{NoMemory, PageResult, links_of};
use site_files::SiteFiles;
use std::alloc::{AllocError, Global};

/// The URLs outside the site's host that the pages link to, in byte order, each with the number of links. Two links in one page count as
/// two.
///
/// # Errors
/// Out of memory.
pub(crate) fn external_links(
    alloc: Global,
    files: &SiteFiles<'_>,
    pages: &[PageResult],
) -> Result<Vec<External>, NoMemory>
    ensures { IfOk result (λ all. AreExternal (host_root files.now) pages.now (map row_of all.items)) }
{
    let root = host_root(alloc, files)?;
    let mut urls = outside_links(alloc, root.as_str(), pages)?;
    urls.sort_by(|a, b| a.cmp(b))?;
    runs(alloc, urls.as_slice())
}

/// The URL of the root of the site's host, with which the URLs of this scheme, host and port begin.
fn host_root(alloc: Global, files: &SiteFiles<'_>) -> Result<String, AllocError>
    ensures { IfOk result (λ root. string_bytes root ≡ host_root files.now) }
{
    let mut root = String::from_str(alloc, files.origin())?;
    root.push_str("/")?;
    Ok(root)
}

/// The links to URLs outside the host with this root.
fn outside_links<'r>(
    alloc: Global,
    root: &str,
    pages: &'r [PageResult],
) -> Result<Vec<&'r CanonUrl>, NoMemory>
    ensures { IfOk result (λ urls. pointed urls.items ≡ outside_links root.now pages.now) }
{
    let mut urls = Vec::new(alloc);
    for one in pages {
        push_outside(root, links_of(&one.page), &mut urls)?;
    }
    Ok(urls)
}

/// Appends the links to URLs outside the host with this root, in their order.
fn push_outside<'r>(
    root: &str,
    links: &'r [CanonUrl],
    urls: &mut Vec<&'r CanonUrl>,
) -> Result<(), NoMemory>
    ensures { OnOk result (pointed urls.new.items ≡ pointed urls.old.items ++ outside root.now links.now) }
{
    for link in links {
        if !begins(root, link) {
            urls.push(link)?;
        }
    }
    Ok(())
}

/// One row for each run of equal URLs.
fn runs(alloc: Global, urls: &[&CanonUrl]) -> Result<Vec<External>, NoMemory>
    ensures { IfOk result (λ all. map row_of all.items ≡ runs (pointed urls.now)) }
{
    match urls.split_first() {
        Some((first, more)) => runs_from(alloc, first, more),
        None => Ok(Vec::new(alloc)),
    }
}

/// The rows of a URL and of the URLs after it.
fn runs_from(alloc: Global, first: &CanonUrl, more: &[&CanonUrl]) -> Result<Vec<External>, NoMemory>
    ensures { IfOk result (λ all. map row_of all.items ≡ runs_from first.now 1 (pointed more.now)) }
{
    let mut all = Vec::new(alloc);
    let mut url = first;
    let mut links: u64 = 1;
    for next in more {
        if *next == url {
            links += 1;
        } else {
            push_row(alloc, url, links, &mut all)?;
            url = next;
            links = 1;
        }
    }
    push_row(alloc, url, links, &mut all)?;
    Ok(all)
}

/// Appends a row: a URL, and the number of links to it.
fn push_row(
    alloc: Global,
    url: &CanonUrl,
    links: u64,
    all: &mut Vec<External>,
) -> Result<(), NoMemory>
    ensures { OnOk result (map row_of all.new.items ≡ map row_of all.old.items ++ row url.now links ∷ []) }
{
    let url = String::from_str(alloc, url.as_str())?;
    all.push(External { url, links })?;
    Ok(())
}
