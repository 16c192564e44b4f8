//! Links that lead to what is reported: to a missing page, or to a missing anchor.
ghost use Rattle.std.specs.Prelude.{◌≡◌, ◌∷◌, ◌++◌, ◌+◌, ◌<◌, ◌^◌, ℕ, List, [], IfOk, MatchOption, OnOk, fold, length, map, string_bytes, flat_map, option_copied};
ghost use Rattle.site_check.specs.Broken.{result_at};
ghost use Rattle.site_check.specs.Leads.{HasNoLink, indices_at, indices_in, lead_to, leads_at, leads_from, leads_of, is_reported, missing_from, moved_number, moved_target, number_at, number_in, number_with, own_number, target_at, targets_of, to_number};

use crate::ignored::is_ignored;
use crate::linked::Linked;
use crate::shown::shown;
use crawl_keys::CanonUrl;
use crawl_pages::{NoMemory, Page, PageResult};
use document_links::LinkPlaces;
use hash_order::HashedText;
use std::alloc::Global;
use std::collections::BTreeMap;

/// A link that leads to what is reported.
#[derive(Clone, Copy)]
pub(crate) struct Lead {
    /// The number of the result that has it.
    pub(crate) source: usize,
    /// Its index among the links of its file.
    pub(crate) index: usize,
    /// The number of what it leads to.
    pub(crate) number: usize,
}

/// The number of the list of missing pages, among the four lists of targets.
pub(crate) const PAGES: usize = 0;

/// The number of the list of missing anchors.
pub(crate) const ANCHORS: usize = 1;

/// The number of the list of the texts of invalid links.
pub(crate) const TEXTS: usize = 2;

/// The number of the list of URLs outside the site.
pub(crate) const URLS: usize = 3;

/// A link to a target of a list.
#[derive(Clone, Copy)]
pub(crate) struct ListedLead {
    /// The number of the list.
    pub(crate) list: usize,
    /// The link, and the number of its target in the list.
    pub(crate) lead: Lead,
}

/// A URL that leads to a page that is not there, and that page's number.
#[derive(Clone, Copy)]
pub(crate) struct Target<'a> {
    url: &'a CanonUrl,
    number: usize,
}

/// Which URLs lead to a page that is not there, by that page's number.
pub(crate) type TargetNumbers<'a> = BTreeMap<HashedText<'a>, usize>;

/// The URLs of pages that are not there and not known to be so, and of pages that moved to one of them.
pub(crate) fn targets<'a>(
    alloc: Global,
    front: &str,
    ignores: &[String],
    linked: &[Linked<'a>],
) -> Result<TargetNumbers<'a>, NoMemory>
    ensures { IfOk result (λ numbers. (url : List ℕ) → number_at numbers url ≡ number_in (targets_of front.now (map string_bytes ignores.now) (map result_at linked.now)) url) }
{
    let missing = missing_targets(alloc, front, ignores, linked)?;
    let mut numbers = BTreeMap::new(alloc);
    insert_all(&mut numbers, missing.as_slice())?;
    let moved = moved_targets(alloc, &numbers, linked)?;
    insert_all(&mut numbers, moved.as_slice())?;
    Ok(numbers)
}

/// The pages that are not there and not known to be so.
#[tactic(auto, using(crate::proofs::LeadsFound::missing_more))]
fn missing_targets<'a>(
    alloc: Global,
    front: &str,
    ignores: &[String],
    linked: &[Linked<'a>],
) -> Result<Vec<Target<'a>>, NoMemory>
    ensures { IfOk result (λ all. map target_at all.items ≡ missing_from front.now (map string_bytes ignores.now) 0 (map result_at linked.now)) }
{
    let mut all = Vec::new(alloc);
    for (number, one) in linked.iter().enumerate() {
        let own = own_number(front, ignores, number, one.result);
        push_target(&one.result.url, own, &mut all)?;
    }
    Ok(all)
}

/// The number, if the page is not there and that is not known.
fn own_number(front: &str, ignores: &[String], number: usize, one: &PageResult) -> Option<usize>
    ensures { result ≡ own_number front.now (map string_bytes ignores.now) number one.now }
{
    if is_reported(front, ignores, one) {
        Some(number)
    } else {
        None
    }
}

/// Whether the page is missing and is reported, because no entry of the ignore list matches it.
pub(crate) fn is_reported(front: &str, ignores: &[String], one: &PageResult) -> bool
    ensures { result ≡ is_reported front.now (map string_bytes ignores.now) one.now }
{
    one.page.is_missing() && !is_ignored(ignores, shown(front, one.url.as_str()))
}

/// Appends the URL as a target, if it has a number.
pub(crate) fn push_target<'a>(
    url: &'a CanonUrl,
    number: Option<usize>,
    all: &mut Vec<Target<'a>>,
) -> Result<(), NoMemory>
    ensures { OnOk result (map target_at all.new.items ≡ map target_at all.old.items ++ to_number url.now number) }
{
    match number {
        Some(number) => {
            all.push(Target { url, number })?;
            Ok(())
        }
        None => Ok(()),
    }
}

/// Adds these targets to the table. The last of several targets with one URL decides its number.
pub(crate) fn insert_all<'a>(
    numbers: &mut TargetNumbers<'a>,
    targets: &[Target<'a>],
) -> Result<(), NoMemory>
    ensures { OnOk result ((url : List ℕ) → number_at numbers.new url ≡ fold (number_with url) (number_at numbers.old url) (map target_at targets.now)) }
{
    for target in targets {
        numbers.insert(target.url.hashed(), target.number)?;
    }
    Ok(())
}

/// The pages that moved to one of these.
fn moved_targets<'a>(
    alloc: Global,
    numbers: &TargetNumbers<'a>,
    linked: &[Linked<'a>],
) -> Result<Vec<Target<'a>>, NoMemory>
    ensures { IfOk result (λ all. map target_at all.items ≡ flat_map (moved_target (number_at numbers.now)) (map result_at linked.now)) }
{
    let mut all = Vec::new(alloc);
    for one in linked {
        push_target(&one.result.url, moved_to(numbers, one.result), &mut all)?;
    }
    Ok(all)
}

/// The number of the page that is not there and that this one moved to.
fn moved_to<'a>(numbers: &TargetNumbers<'a>, one: &'a PageResult) -> Option<usize>
    ensures { result ≡ moved_number (number_at numbers.now) one.now.page }
{
    match &one.page {
        Page::Moved { to } => match to {
            Some(url) => number_of(numbers, url),
            None => None,
        },
        Page::Found { .. } => None,
        Page::Missing => None,
    }
}

/// Returns the number of the missing page to which the URL leads, if it leads to one that is reported.
fn number_of<'a>(numbers: &TargetNumbers<'a>, url: &'a CanonUrl) -> Option<usize>
    ensures { result ≡ number_at numbers.now url.now }
{
    numbers.get(&url.hashed()).copied()
}

/// The indices of the links of documents that have a canonical URL, among all links of their files, by the URLs of the documents.
pub(crate) type LinkIndices<'a> = BTreeMap<HashedText<'a>, &'a [u32]>;

/// Returns a table of the indices of each document's links, by the document's URL.
pub(crate) fn link_indices(
    alloc: Global,
    places: &[LinkPlaces],
) -> Result<LinkIndices<'_>, NoMemory>
    ensures { IfOk result (λ indices. (url : List ℕ) → indices_at indices url ≡ indices_in places.now url) }
{
    let mut indices = BTreeMap::new(alloc);
    for one in places {
        indices.insert(one.url.hashed(), one.indices.as_slice())?;
    }
    Ok(indices)
}

/// What links of results are looked for in.
#[derive(Clone, Copy)]
pub(crate) struct Maps<'a, 'p> {
    pub(crate) numbers: &'a TargetNumbers<'p>,
    pub(crate) indices: &'a LinkIndices<'p>,
}

/// The links of results, the first of which has this number, that lead to targets.
#[tactic(auto, using(crate::proofs::LeadsFound::leads_more))]
pub(crate) fn leads_from<'p>(
    alloc: Global,
    maps: Maps<'_, 'p>,
    start: usize,
    results: &'p [PageResult],
) -> Result<Vec<Lead>, NoMemory>
    ensures { start + length results.now < 2 ^ 64 → IfOk result (λ all. all.items ≡ leads_from (number_at maps.entry.numbers.now) (indices_at maps.entry.indices.now) start results.now) }
{
    let mut all = Vec::new(alloc);
    for (place, one) in results.iter().enumerate() {
        push_page(maps, start.saturating_add(place), one, &mut all)?;
    }
    Ok(all)
}

/// Appends the links of a result that lead to targets.
fn push_page<'p>(
    maps: Maps<'_, 'p>,
    source: usize,
    one: &'p PageResult,
    all: &mut Vec<Lead>,
) -> Result<(), NoMemory>
    ensures { OnOk result (all.new.items ≡ all.old.items ++ leads_of (number_at maps.entry.numbers.now) (indices_at maps.entry.indices.now) source one.now.url one.now.page) }
{
    match &one.page {
        Page::Found { links, .. } => {
            let indices = indices_of(maps.indices, &one.url);
            push_leads(maps.numbers, source, links.as_slice(), indices, all)
        }
        Page::Moved { .. } => Ok(()),
        Page::Missing => Ok(()),
    }
}

/// Returns the indices of the links of the document at this URL; none if they are not known.
pub(crate) fn indices_of<'p>(indices: &LinkIndices<'p>, url: &'p CanonUrl) -> &'p [u32]
    ensures { result.now ≡ indices_at indices.now url.now }
{
    match indices.get(&url.hashed()) {
        Some(own) => *own,
        None => &[],
    }
}

/// Appends those of these links, which have these indices, that lead to targets.
#[tactic(auto, using(crate::proofs::LeadsFound::link_more, crate::proofs::LeadsFound::link_end))]
fn push_leads<'p>(
    numbers: &TargetNumbers<'p>,
    source: usize,
    urls: &'p [CanonUrl],
    indices: &[u32],
    all: &mut Vec<Lead>,
) -> Result<(), NoMemory>
    ensures { OnOk result (all.new.items ≡ all.old.items ++ leads_at (number_at numbers.now) source urls.now indices.now) }
{
    let mut urls = urls;
    let mut indices = indices;
    'links: loop {
        match first_link(urls, indices) {
            Some(first) => {
                push_lead(source, first.index, number_of(numbers, first.url), all)?;
                urls = first.more;
                indices = first.following;
            }
            None => return Ok(()),
        }
    }
}

/// Appends a link of the result `source` with this index, if it leads to a target.
fn push_lead(
    source: usize,
    index: usize,
    number: Option<usize>,
    all: &mut Vec<Lead>,
) -> Result<(), NoMemory>
    ensures { OnOk result (all.new.items ≡ all.old.items ++ lead_to source index number) }
{
    match number {
        Some(number) => {
            all.push(Lead {
                source,
                index,
                number,
            })?;
            Ok(())
        }
        None => Ok(()),
    }
}

/// The first of some links, and those after it.
#[derive(Clone, Copy)]
struct First<'p, 'i> {
    url: &'p CanonUrl,
    more: &'p [CanonUrl],
    index: usize,
    following: &'i [u32],
}

/// Splits off the first link and its index. `None` if there are no more links, or no more indices.
fn first_link<'p, 'i>(urls: &'p [CanonUrl], indices: &'i [u32]) -> Option<First<'p, 'i>>
    ensures { MatchOption result (HasNoLink urls.now indices.now) (λ first. (urls.now ≡ first.url.now ∷ first.more.now) × (indices.now ≡ first.index ∷ first.following.now)) }
{
    match urls.split_first() {
        Some((url, more)) => match indices.split_first() {
            Some((index, following)) => Some(First {
                url,
                more,
                index: *index as usize,
                following,
            }),
            None => None,
        },
        None => None,
    }
}
