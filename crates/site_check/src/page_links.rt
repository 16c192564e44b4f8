//! The links in the pages of a site.
ghost use Rattle.std.specs.Prelude.{◌≡◌, ◌++◌, IfOk, List, OnOk, [], count_by, if◌then◌else◌, map};
ghost use Rattle.std.specs.List.{list_any};
ghost use Rattle.crawl_sources.specs.Tallies.{pointed};
ghost use Rattle.site_files.specs.Server.{before_query};
ghost use Rattle.site_check.specs.Broken.{begins};
ghost use Rattle.site_check.specs.PageLinks.{are_few_below, foreign_urls, is_few, link_urls, page_links};

use crate::shown::begins;
use crate::totals::{links_to_missing, number_of};
use check_report::Broken;
use crawl_keys::CanonUrl;
use crawl_pages::{NoMemory, PageResult, links_of};
use site_files::before_query;
use std::alloc::Global;

/// The URLs of the links in found pages, without queries.
pub(crate) fn link_urls(alloc: Global, results: &[PageResult]) -> Result<Vec<&str>, NoMemory>
    ensures { IfOk result (λ urls. pointed urls.items ≡ link_urls results.now) }
{
    let mut urls = Vec::new(alloc);
    for one in results {
        push_links(page_links(one), &mut urls)?;
    }
    Ok(urls)
}

/// The URLs of the links in found pages without a link that begins with the top.
pub(crate) fn foreign_urls<'a>(
    alloc: Global,
    top: &str,
    results: &'a [PageResult],
) -> Result<Vec<&'a str>, NoMemory>
    ensures { IfOk result (λ urls. pointed urls.items ≡ foreign_urls top.now results.now) }
{
    let mut urls = Vec::new(alloc);
    for one in results {
        push_foreign(top, page_links(one), &mut urls)?;
    }
    Ok(urls)
}

/// Appends these URLs without their queries, unless one begins with the top.
fn push_foreign<'a>(
    top: &str,
    links: &'a [CanonUrl],
    urls: &mut Vec<&'a str>,
) -> Result<(), NoMemory>
    ensures { OnOk result (pointed urls.new.items ≡ pointed urls.old.items ++ (if list_any (begins top.now) links.now then [] else map before_query links.now)) }
{
    if has_below(top, links) {
        return Ok(());
    }
    push_links(links, urls)
}

/// Whether one of these links begins with the top.
fn has_below(top: &str, links: &[CanonUrl]) -> bool
    ensures { result ≡ list_any (begins top.now) links.now }
{
    for link in links {
        if begins(top, link.as_str()) {
            return true;
        }
    }
    false
}

/// Appends these URLs without their queries.
fn push_links<'a>(links: &'a [CanonUrl], urls: &mut Vec<&'a str>) -> Result<(), NoMemory>
    ensures { OnOk result (pointed urls.new.items ≡ pointed urls.old.items ++ map before_query links.now) }
{
    for link in links {
        urls.push(before_query(link.as_str()))?;
    }
    Ok(())
}

/// The links in a page, if it was found.
pub(crate) fn page_links(one: &PageResult) -> &[CanonUrl]
    ensures { result.now ≡ page_links one.now }
{
    if one.page.is_found() {
        links_of(&one.page)
    } else {
        &[]
    }
}

/// Whether fewer than half of the links begin with the top, after the number of locations of links to missing pages is taken off. The
/// links are only counted, because most sites have no hint.
#[tactic(auto, using(crate::proofs::LinkCounts::sum_fits, crate::proofs::LinkCounts::sum_next))]
pub(crate) fn are_few_below(top: &str, results: &[PageResult], rows: &[Broken]) -> bool
    ensures { result ≡ are_few_below top.now results.now rows.now }
{
    // A `u64` might not hold the sums.
    let mut below: u128 = 0;
    let mut of: u128 = 0;
    for one in results {
        let links = page_links(one);
        below += u128::from(count_below(top, links));
        of += links.len() as u128;
    }
    is_few(below.saturating_sub(u128::from(links_to_missing(rows))), of)
}

/// The number of links that begin with the top.
fn count_below(top: &str, links: &[CanonUrl]) -> u64
    ensures { result ≡ count_by (begins top.now) links.now }
{
    let mut count: u64 = 0;
    for link in links {
        count += number_of(begins(top, link.as_str()));
    }
    count
}

/// Whether the part is less than half of all.
fn is_few(part: u128, of: u128) -> bool
    ensures { result ≡ is_few part of }
{
    part < of.saturating_sub(part)
}

/// The number of URLs that begin with the front.
#[tactic(auto, using(crate::proofs::LinkCounts::count_more, crate::proofs::LinkCounts::count_fits, crate::proofs::LinkCounts::count_end))]
pub(crate) fn count_with(front: &str, urls: &[&str]) -> u64
    ensures { result ≡ count_by (begins front.now) (pointed urls.now) }
{
    let mut count: u64 = 0;
    for url in urls {
        count += number_of(begins(front, *url));
    }
    count
}
