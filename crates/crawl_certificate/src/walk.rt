//! The check of a run that lost nothing, which searches for no links.
//!
//! Such a run can only have an unfounded entry, a result whose URL is not that of an entry, or two results with the same URL. If
//! the results are in the order of the entries, the last two are excluded. If the links of a worker's results are followed in
//! order, they meet the URLs that the worker was the first to offer in the order in which each queue accepted them. So a link only
//! has to be compared with the next of these.
ghost use Rattle.std.specs.Prelude.{◌≡◌, ◌+◌, ◌<◌, ◌^◌, ◌==◌, ◌&&◌, Bool, List, None, Some, true, false, length, vec_len, IfOk, IfSome, IsSomeAnd, if◌then◌else◌, Contains};
ghost use Rattle.crawl_queues.specs.declared.entry.Entry.{Entry};
ghost use Rattle.crawl_keys.specs.HostFilter.{allows};
ghost use Rattle.crawl_pages.specs.Pages.{links_of};
ghost use Rattle.crawl_pages.specs.declared.page.PageResult.{PageResult};
ghost use Rattle.crawl_certificate.specs.AccountEntries.{DifferByUrl};
ghost use Rattle.crawl_certificate.specs.CertErrors.{first_error, is_linked, contains_url};
ghost use Rattle.crawl_certificate.specs.Certificate.{NothingLost};
ghost use Rattle.crawl_certificate.specs.Lookups.{is_in, pointed};
ghost use Rattle.crawl_certificate.specs.Marks.{MarksOnly, in_one};
ghost use Rattle.crawl_certificate.specs.Walks.{AreFrom, IsWalk};

use crate::chains::{Chains, Heads};
use crate::chunk::Chunk;
use crate::founded::is_founded;
use crate::lookups::{Accepted, Urls, url_set};
use crate::marks::{is_next, no_marks};
use crate::threads::add_marks;
use crawl_frontier::Entry;
use crawl_keys::{CanonUrl, Filter};
use crawl_pages::{PageResult, links_of};
use std::alloc::{AllocError, Global};
use std::thread::{Threads, join};

/// Whether a walk over the results of a run that lost nothing shows that it has no error.
pub fn is_faultless<R: Threads + Sync>(
    rt: &R,
    alloc: Global,
    filter: &Filter,
    seeds: &[CanonUrl],
    threads: usize,
    whole: Chunk<'_, '_, '_>,
) -> Result<bool, AllocError>
    requires lost { NothingLost (allows filter.now) seeds.now whole.accepted.now whole.results.now }
    requires apart { DifferByUrl whole.accepted.now }
    requires first { whole.first ≡ 0 }
    ensures { IfOk result (λ seen. seen ≡ true → first_error (allows filter.now) seeds.now whole.entry.accepted.now whole.entry.results.now ≡ None) }
{
    if whole.accepted.entries().len() != whole.results.len() {
        return Ok(false);
    }
    let linked = linked_by(rt, alloc, threads, whole)?;
    is_founded_by(alloc, filter, seeds, whole.accepted, linked)
}

/// For each entry, whether the walk over all results saw that a result of an entry with one hop less links to it. `None` if the
/// results are not those of the entries, in their order.
pub fn linked_by<R: Threads + Sync>(
    rt: &R,
    alloc: Global,
    threads: usize,
    whole: Chunk<'_, '_, '_>,
) -> Result<Option<Vec<bool>>, AllocError>
    ensures { IfOk result (λ found. IfSome found (λ linked. IsWalk whole.entry.accepted.now whole.entry.first whole.entry.results.now linked.items)) }
{
    let chains = Chains::of(alloc, whole.accepted.account(), whole.results.len())?;
    walked_by(rt, alloc, threads, &chains, whole)
}

/// As [`walked`], in threads. With several threads, the chunk is halved, and each half gets half of the threads. The walk marks
/// only entries that the worker of a result itself sent, so the halves are independent. If a thread cannot be started, the calling
/// thread does its work.
fn walked_by<R: Threads + Sync>(
    rt: &R,
    alloc: Global,
    threads: usize,
    chains: &Chains,
    chunk: Chunk<'_, '_, '_>,
) -> Result<Option<Vec<bool>>, AllocError>
    ensures { IfOk result (λ found. IfSome found (λ linked. IsWalk chunk.entry.accepted.now chunk.entry.first chunk.entry.results.now linked.items)) }
{
    if threads < 2 {
        return walked(alloc, chains, chunk);
    }
    let half = threads / 2;
    let (front, back) = chunk.split_at(chunk.queue_border());
    if front.results.is_empty() || back.results.is_empty() {
        return walked(alloc, chains, chunk);
    }
    let of_front = move || -> Result<Option<Vec<bool>>, AllocError>
        ensures { IfOk result (λ found. IfSome found (λ linked. IsWalk front.entry.accepted.now front.entry.first front.entry.results.now linked.items)) }
    { walked_by(rt, alloc, half, chains, front) };
    let of_back = move || -> Result<Option<Vec<bool>>, AllocError>
        ensures { IfOk result (λ found. IfSome found (λ linked. IsWalk back.entry.accepted.now back.entry.first back.entry.results.now linked.items)) }
    { walked_by(rt, alloc, half, chains, back) };
    let (first, second) = join(rt, of_front, of_back);
    let first = first?;
    let second = second?;
    Ok(together(chunk.accepted.entries(), first, second))
}

/// Combines the marks of two walks, if both reached their end.
fn together(
    entries: &[&Entry],
    first: Option<Vec<bool>>,
    second: Option<Vec<bool>>,
) -> Option<Vec<bool>>
    requires first { IfSome first (λ marks. vec_len marks ≡ length entries.now) }
    requires second { IfSome second (λ marks. vec_len marks ≡ length entries.now) }
    ensures { IfSome result (λ all. IsSomeAnd first (λ one. IsSomeAnd second (λ other. all.items ≡ in_one one.items other.items))) }
{
    let mut linked = first?;
    let more = second?;
    add_marks(entries, linked.as_mut_slice(), &more);
    Some(linked)
}

/// Whether the marks of a walk over all results show that the run has no error.
fn is_founded_by(
    alloc: Global,
    filter: &Filter,
    seeds: &[CanonUrl],
    accepted: &Accepted<'_>,
    linked: Option<Vec<bool>>,
) -> Result<bool, AllocError>
    requires { IfSome linked (λ marks. vec_len marks ≡ length accepted.now) }
    ensures { (results : List PageResult) → NothingLost (allows filter.now) seeds.now accepted.now results → DifferByUrl accepted.now → length accepted.now ≡ length results → IfSome linked (λ marks. IsWalk accepted.now 0 results marks.items) → IfOk result (λ seen. seen ≡ true → first_error (allows filter.now) seeds.now accepted.now results ≡ None) }
{
    let Some(marks) = linked else {
        return Ok(false);
    };
    let seed_set = url_set(alloc, seeds)?;
    Ok(are_founded(filter, &seed_set, accepted.entries(), &marks))
}

/// Returns marks of entries to which a result of an entry with one hop less links. `None` if the chunk's results are not those of
/// the chunk's entries, in their order.
fn walked(
    alloc: Global,
    chains: &Chains,
    chunk: Chunk<'_, '_, '_>,
) -> Result<Option<Vec<bool>>, AllocError>
    ensures { IfOk result (λ found. IfSome found (λ linked. IsWalk chunk.entry.accepted.now chunk.entry.first chunk.entry.results.now linked.items)) }
{
    let mut linked = no_marks(alloc, chunk.accepted)?;
    let mut heads = Heads::of(alloc, chains, chunk.accepted.entries())?;
    if walk(chunk, &mut heads, &mut linked) {
        Ok(Some(linked))
    } else {
        Ok(None)
    }
}

/// Marks entries to which a result of an entry with one hop less links. Returns whether the results are those of the entries, in
/// their order.
fn walk(chunk: Chunk<'_, '_, '_>, heads: &mut Heads<'_>, linked: &mut [bool]) -> bool
    requires long { length linked.old ≡ length chunk.accepted.now }
    ensures long { length linked.new ≡ length linked.old }
    ensures own { chunk.entry.first + length chunk.entry.results.now < 2 ^ 64 → result ≡ true → AreFrom chunk.entry.accepted.now chunk.entry.first chunk.entry.results.now }
    ensures marks { MarksOnly (is_linked chunk.entry.accepted.now chunk.entry.results.now) chunk.entry.accepted.now linked.old → MarksOnly (is_linked chunk.entry.accepted.now chunk.entry.results.now) chunk.entry.accepted.now linked.new }
{
    let accepted = chunk.accepted;
    let results = chunk.results;
    for index in 0..results.len() {
        let one = &results[index];
        let Some(entry) = accepted.with_url(chunk.first.saturating_add(index), &one.url) else {
            return false;
        };
        let worker = heads.queue_of(&one.url);
        let links = links_of(&one.page);
        walk_page(accepted, heads, worker, linked, entry.hops, links);
    }
    true
}

/// Marks the entries of these links that have one hop more than `hops`.
fn walk_page(
    accepted: &Accepted<'_>,
    heads: &mut Heads<'_>,
    worker: u32,
    linked: &mut [bool],
    hops: u32,
    links: &[CanonUrl],
)
    requires long { length linked.old ≡ length accepted.now }
    ensures long { length linked.new ≡ length linked.old }
    ensures marks { (holds : Entry → Bool) → ((e : Entry) → contains_url links.now e.url ≡ true → e.hops ≡ hops + 1 → holds e ≡ true) → MarksOnly holds accepted.now linked.old → MarksOnly holds accepted.now linked.new }
{
    for link in links {
        mark_next(accepted, heads, worker, linked, hops, link);
    }
}

/// Marks the next entry that the worker sent to the link's queue, if it has the link's URL and one hop more than `hops`.
fn mark_next(
    accepted: &Accepted<'_>,
    heads: &mut Heads<'_>,
    worker: u32,
    linked: &mut [bool],
    hops: u32,
    link: &CanonUrl,
)
    requires long { length linked.old ≡ length accepted.now }
    ensures long { length linked.new ≡ length linked.old }
    ensures marks { (holds : Entry → Bool) → ((e : Entry) → e.url ≡ link.now → e.hops ≡ hops + 1 → holds e ≡ true) → MarksOnly holds accepted.now linked.old → MarksOnly holds accepted.now linked.new }
{
    let Some(pair) = heads.pair_with(worker, link) else {
        return;
    };
    let index = heads.head(pair);
    let Some(entry) = accepted.with_url(index, link) else {
        return;
    };
    if is_next(hops, entry) {
        linked[index] = true;
        heads.pass(pair);
    }
}

/// Whether each entry is allowed, and is a seed if it has no hops, or else is marked.
fn are_founded<'a>(filter: &Filter, seeds: &Urls<'a>, entries: &[&'a Entry], marks: &[bool]) -> bool
    requires { length marks.now ≡ length entries.now }
    ensures { (holds : Entry → Bool) → result ≡ true → MarksOnly holds (pointed entries.now) marks.now → (e : Entry) → Contains (pointed entries.now) e → (allows filter.now e.url && (if e.hops == 0 then is_in seeds.now e.url else holds e)) ≡ true }
{
    for index in 0..entries.len() {
        if !is_founded(filter, seeds, entries[index], marks[index]) {
            return false;
        }
    }
    true
}
