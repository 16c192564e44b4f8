//! The hint at another URL of the folder, by pages that have a link to their own path below it, such as a canonical link.
ghost use Rattle.std.specs.Prelude.{◌≡◌, ◌++◌, IfOk, OnOk, option_map};
ghost use Rattle.std.specs.Option.{option_to_list};
ghost use Rattle.crawl_sources.specs.Tallies.{pointed};
ghost use Rattle.site_check.specs.Base.{hint_at};
ghost use Rattle.site_check.specs.Names.{ends};
ghost use Rattle.site_check.specs.OwnFronts.{cut_end, first_front, front_elsewhere, front_hint, front_of, is_elsewhere, is_front, links_outward, outward_count, own_fronts, own_hint, page_front};

use crate::base::{often_first, path_counts};
use crate::page_links::{count_with, link_urls, page_links};
use crate::shown::begins;
use crate::totals::number_of;
use check_report::BaseHint;
use crawl_keys::CanonUrl;
use crawl_pages::{NoMemory, PageResult};
use site_files::{SiteFiles, before_query};
use std::alloc::Global;

/// The hint at a URL, if at least half and at least two of the pages that link to URLs not below the top have a link to their own path
/// below it.
pub(crate) fn own_hint(
    alloc: Global,
    files: &SiteFiles<'_>,
    results: &[PageResult],
) -> Result<Option<BaseHint>, NoMemory>
    ensures { IfOk result (λ hint. option_map hint_at hint ≡ own_hint files.now results.now) }
{
    let found = own_fronts(alloc, files.top(), results)?;
    let fronts = found.as_slice();
    let counts = path_counts(alloc, fronts)?;
    match often_first(outward_count(files.top(), results), &counts, fronts) {
        Some(front) => Ok(Some(front_hint(alloc, results, front)?)),
        None => Ok(None),
    }
}

/// The hint at a URL with the numbers of all links that begin with it, and of all links.
pub(crate) fn front_hint(
    alloc: Global,
    results: &[PageResult],
    front: &str,
) -> Result<BaseHint, NoMemory>
    ensures { IfOk result (λ hint. hint_at hint ≡ front_hint results.now front.now) }
{
    let all = link_urls(alloc, results)?;
    let urls = all.as_slice();
    let folder = String::from_str(alloc, front)?;
    Ok(BaseHint {
        folder,
        paths: count_with(front, urls),
        of: urls.len() as u64,
    })
}

/// The number of pages with a link that does not begin with the top.
fn outward_count(top: &str, results: &[PageResult]) -> u64
    ensures { result ≡ outward_count top.now results.now }
{
    let mut count: u64 = 0;
    for one in results {
        count += number_of(links_outward(top, one));
    }
    count
}

/// Whether a page has a link that does not begin with the top.
fn links_outward(top: &str, one: &PageResult) -> bool
    ensures { result ≡ links_outward top.now one.now }
{
    for link in page_links(one) {
        if !begins(top, link.as_str()) {
            return true;
        }
    }
    false
}

/// The URLs below which pages have a link to their own path, one for each such page.
fn own_fronts<'a>(
    alloc: Global,
    top: &str,
    results: &'a [PageResult],
) -> Result<Vec<&'a str>, NoMemory>
    ensures { IfOk result (λ fronts. pointed fronts.items ≡ own_fronts top.now results.now) }
{
    let mut fronts = Vec::new(alloc);
    for one in results {
        push_front(top, one, &mut fronts)?;
    }
    Ok(fronts)
}

/// Appends the URL below which a page has a link to its own path, if it has one.
fn push_front<'a>(top: &str, one: &'a PageResult, fronts: &mut Vec<&'a str>) -> Result<(), NoMemory>
    ensures { OnOk result (pointed fronts.new.items ≡ pointed fronts.old.items ++ option_to_list (page_front top.now one.now)) }
{
    match page_front(top, one) {
        Some(front) => {
            fronts.push(front)?;
            Ok(())
        }
        None => Ok(()),
    }
}

/// The URL below which the first link of a page to its own path leads, if that is elsewhere.
#[tactic(auto, using(crate::proofs::OwnFronts::page_below, crate::proofs::OwnFronts::page_elsewhere))]
fn page_front<'a>(top: &str, one: &'a PageResult) -> Option<&'a str>
    ensures { option_map (λ front. front.now) result ≡ page_front top.now one.now }
{
    match one.url.as_str().strip_prefix(top) {
        Some(path) => front_elsewhere(top, before_query(path), page_links(one)),
        None => None,
    }
}

/// The URL below which the first of these links with this path leads, if that is elsewhere.
fn front_elsewhere<'a>(top: &str, path: &str, links: &'a [CanonUrl]) -> Option<&'a str>
    ensures { option_map (λ front. front.now) result ≡ front_elsewhere top.now path.now links.now }
{
    match first_front(path, links) {
        Some(front) => if is_elsewhere(top, front) {
            Some(front)
        } else {
            None
        },
        None => None,
    }
}

/// Whether a folder and the top do not begin with each other.
fn is_elsewhere(top: &str, front: &str) -> bool
    ensures { result ≡ is_elsewhere top.now front.now }
{
    !begins(top, front) && !begins(front, top)
}

/// The URL of the folder below which the first of these links has this path, if that is not empty.
#[tactic(auto, using(crate::proofs::OwnFronts::front_here, crate::proofs::OwnFronts::front_later, crate::proofs::OwnFronts::no_front))]
fn first_front<'a>(path: &str, links: &'a [CanonUrl]) -> Option<&'a str>
    ensures { option_map (λ front. front.now) result ≡ first_front path.now links.now }
{
    if path.is_empty() {
        return None;
    }
    for link in links {
        match front_of(path, link.as_str()) {
            Some(front) => return Some(front),
            None => {}
        }
    }
    None
}

/// The URL of the folder below which a link has this path.
fn front_of<'a>(path: &str, link: &'a str) -> Option<&'a str>
    ensures { option_map (λ front. front.now) result ≡ front_of path.now link.now }
{
    match cut_end(path, before_query(link)) {
        Some(front) => if is_front(front) { Some(front) } else { None },
        None => None,
    }
}

/// Whether this is the URL of a folder.
fn is_front(front: &str) -> bool
    ensures { result ≡ is_front front.now }
{
    ends("/", front) && !ends("://", front)
}

/// Whether a text ends with another.
fn ends(end: &str, text: &str) -> bool
    ensures { result ≡ ends end.now text.now }
{
    cut_end(end, text).is_some()
}

/// The text before this end. `None` if it does not end so.
#[tactic(auto, using(crate::proofs::OwnFronts::end_cut))]
fn cut_end<'a>(end: &str, text: &'a str) -> Option<&'a str>
    ensures { option_map (λ front. front.now) result ≡ cut_end end.now text.now }
{
    text.strip_suffix(end)
}
