//! Links to anchors that documents lack, anchor by anchor.
ghost use Rattle.std.specs.Prelude.{◌≡◌, ◌++◌, ◌+◌, ◌<◌, ◌^◌, [], IfOk, IsPermutation, MatchOption, OnOk, flat_map, length, map, string_bytes, take_while};
ghost use Rattle.std.specs.List.Sorted.{IsSortedBy};
ghost use Rattle.site_check.specs.AnchorGroups.{AreGrouped, IsFirstAnchor, anchor_at, anchor_row, comes_first, group_leads, group_of, group_row, lack_cmp, lack_lead, leads_to, one_unless, source_count};
ghost use Rattle.site_check.specs.LackedLinks.{lack_of};
ghost use Rattle.site_check.specs.Lacks.{anchor_cmp, anchor_shown};

use crate::ignored::is_ignored;
use crate::input::CheckInput;
use crate::leads::Lead;
use crate::shown::shown;
use crawl_keys::CanonUrl;
use crawl_pages::NoMemory;
use std::alloc::Global;
use std::cmp::Ordering;

/// An anchor that a document lacks: the URL of the document in the links to it, and the text after the `#`.
#[derive(Clone, Copy)]
pub(crate) struct Anchor<'a> {
    pub(crate) url: &'a CanonUrl,
    pub(crate) fragment: &'a [u8],
}

impl Anchor<'_> {
    /// Compares two anchors by their documents' URLs, and then by their fragments.
    fn order(&self, other: &Anchor<'_>) -> Ordering
        ensures { result ≡ anchor_cmp (anchor_at self.now) (anchor_at other.now) }
    {
        (self.url.as_str(), self.fragment).cmp(&(other.url.as_str(), other.fragment))
    }
}

/// An anchor that a document lacks, and a link to it: the number of the result that has it, and its index among the links of its file if
/// that is known.
#[derive(Clone, Copy)]
pub(crate) struct MissingAnchorLink<'a> {
    pub(crate) anchor: Anchor<'a>,
    pub(crate) source: usize,
    pub(crate) index: Option<u32>,
}

impl MissingAnchorLink<'_> {
    /// By anchors, and the links to an anchor by results.
    fn order(&self, other: &MissingAnchorLink<'_>) -> Ordering
        ensures { result ≡ lack_cmp (lack_of self.now) (lack_of other.now) }
    {
        self.anchor
            .order(&other.anchor)
            .then(self.source.cmp(&other.source))
    }
}

/// Sorts the links by their anchors, and the links to an anchor by the results that have them.
pub(crate) fn sort_by_anchor(all: &mut Vec<MissingAnchorLink<'_>>) -> Result<(), NoMemory>
    ensures permutation { IsPermutation all.old.items all.new.items }
    ensures sorted { OnOk result (IsSortedBy comes_first all.new.items) }
{
    all.sort_by(|a: &MissingAnchorLink<'_>, b: &MissingAnchorLink<'_>| a.order(b))
}

/// An anchor that a document lacks, as it is printed.
#[derive(Drop)]
pub(crate) struct MissingAnchor {
    /// The URL of its document, `#`, and the fragment.
    pub(crate) text: String,
    /// The number of pages that link to it.
    pub(crate) pages: u64,
}

/// The links to one anchor, and those after them.
#[derive(Clone, Copy)]
pub(crate) struct AnchorLinks<'l, 'a> {
    anchor: Anchor<'a>,
    own: &'l [MissingAnchorLink<'a>],
    more: &'l [MissingAnchorLink<'a>],
}

/// The anchors of these links, which are sorted by them, in order. Appends the links to anchors that no entry matches to `leads`.
pub(crate) fn missing_anchors(
    alloc: Global,
    input: CheckInput<'_>,
    links: &[MissingAnchorLink<'_>],
    leads: &mut Vec<Lead>,
) -> Result<Vec<MissingAnchor>, NoMemory>
    ensures { IfOk result (λ anchors. AreGrouped input.entry.front.now (map string_bytes input.entry.ignores.now) (map lack_of links.now) (map anchor_row anchors.items) leads.old.items leads.new.items) }
{
    let mut anchors = Vec::new(alloc);
    let mut begin: usize = 0;
    'anchors: loop {
        let (_, left) = links.split_at(begin);
        match first_anchor(left) {
            Some(first) => {
                let anchor = missing_anchor(alloc, input, first, anchors.len(), leads)?;
                anchors.push(anchor)?;
                begin += first.own.len();
            }
            None => return Ok(anchors),
        }
    }
}

/// Splits off the links to the first anchor. `None` if there are no links.
fn first_anchor<'l, 'a>(links: &'l [MissingAnchorLink<'a>]) -> Option<AnchorLinks<'l, 'a>>
    ensures { MatchOption result (links.now ≡ []) (IsFirstAnchor links.now) }
{
    match links.split_first() {
        Some((first, following)) => {
            let anchor = first.anchor;
            let count = count_to(following, anchor);
            let (own, more) = links.split_at(count.saturating_add(1).min(links.len()));
            Some(AnchorLinks { anchor, own, more })
        }
        None => None,
    }
}

/// The number of links at the front that lead to this anchor.
fn count_to(links: &[MissingAnchorLink<'_>], anchor: Anchor<'_>) -> usize
    ensures { result ≡ length (take_while (leads_to (anchor_at anchor.entry)) links.now) }
{
    links
        .iter()
        .take_while(|link| leads_to(anchor, link))
        .count()
}

/// Whether the link leads to this anchor.
fn leads_to(anchor: Anchor<'_>, link: &MissingAnchorLink<'_>) -> bool
    ensures { result ≡ leads_to (anchor_at anchor.entry) link.now }
{
    link.anchor.url.as_str() == anchor.url.as_str() && link.anchor.fragment == anchor.fragment
}

/// The anchor of these links. Appends them to `leads`, as links to the target with this number, if no entry matches the anchor.
fn missing_anchor(
    alloc: Global,
    input: CheckInput<'_>,
    links: AnchorLinks<'_, '_>,
    number: usize,
    leads: &mut Vec<Lead>,
) -> Result<MissingAnchor, NoMemory>
    ensures row { IfOk result (λ anchor. anchor_row anchor ≡ group_row input.entry.front.now (group_of links.entry)) }
    ensures leads { OnOk result (leads.new.items ≡ leads.old.items ++ group_leads input.entry.front.now (map string_bytes input.entry.ignores.now) number (group_of links.entry)) }
{
    let text = anchor_text(alloc, input.front, links.anchor)?;
    if !is_ignored(input.ignores, text.as_str()) {
        push_leads(links.own, number, leads)?;
    }
    let pages = page_count(links.own);
    Ok(MissingAnchor { text, pages })
}

/// The text of an anchor, as it is printed.
fn anchor_text(alloc: Global, front: &str, anchor: Anchor<'_>) -> Result<String, NoMemory>
    ensures { IfOk result (λ text. string_bytes text ≡ anchor_shown front.now anchor.entry.url.now anchor.entry.fragment.now) }
{
    let mut text = String::new(alloc);
    text.push_str(shown(front, anchor.url.as_str()))?;
    text.push('#')?;
    let fragment = String::from_utf8_lossy(alloc, anchor.fragment)?;
    text.push_str(fragment.as_str())?;
    Ok(text)
}

/// Appends the links whose indices are known as links to the target with this number.
fn push_leads(
    links: &[MissingAnchorLink<'_>],
    number: usize,
    leads: &mut Vec<Lead>,
) -> Result<(), NoMemory>
    ensures { OnOk result (leads.new.items ≡ leads.old.items ++ flat_map (lack_lead number) (map lack_of links.now)) }
{
    for link in links {
        push_lead(*link, number, leads)?;
    }
    Ok(())
}

/// Appends a link as one to the target with this number, if its index is known.
fn push_lead(
    link: MissingAnchorLink<'_>,
    number: usize,
    leads: &mut Vec<Lead>,
) -> Result<(), NoMemory>
    ensures { OnOk result (leads.new.items ≡ leads.old.items ++ lack_lead number (lack_of link.entry)) }
{
    match link.index {
        Some(index) => {
            leads.push(Lead {
                source: link.source,
                index: index as usize,
                number,
            })?;
            Ok(())
        }
        None => Ok(()),
    }
}

/// The number of results that have one of these links, which are in the order of the results.
fn page_count(links: &[MissingAnchorLink<'_>]) -> u64
    ensures { result ≡ source_count (map lack_of links.now) }
{
    let mut count: u64 = 0;
    let mut last = None;
    for link in links {
        count = with_source(count, last, link.source);
        last = Some(link.source);
    }
    count
}

/// The count with one result more, unless it is the last one.
fn with_source(count: u64, last: Option<usize>, source: usize) -> u64
    ensures { count + 1 < 2 ^ 64 → result ≡ count + one_unless last source }
{
    match last {
        Some(last) => {
            if last == source {
                count
            } else {
                count.saturating_add(1)
            }
        }
        None => count.saturating_add(1),
    }
}
