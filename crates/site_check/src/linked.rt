//! The results that found no page, and how many results link to each.
ghost use Rattle.std.specs.Prelude.{◌≡◌, ◌++◌, ◌+◌, ◌<◌, ◌^◌, ℕ, List, IfOk, IsSome, Some, map, filter, length, slice_get, false, true, bytes_eq};
ghost use Rattle.std.specs.List.{list_any};
ghost use Rattle.crawl_pages.specs.declared.page.PageResult.{PageResult};
ghost use Rattle.crawl_sources.specs.Sources.{sources_of};
ghost use Rattle.crawl_sources.specs.Tallies.{pointed, count_of, IsTally};
ghost use Rattle.site_check.specs.Broken.{is_unfound, linked, linked_at};

use crawl_pages::{NoMemory, PageResult};
use crawl_sources::{Tallies, tally_links, tally_of};
use std::alloc::Global;
use std::thread::{Threads, join};

/// A result, and how many results link to its URL.
#[derive(Clone, Copy)]
pub(crate) struct Linked<'a> {
    pub(crate) result: &'a PageResult,
    pub(crate) pages: u64,
}

/// How often results are halved: the links of two to this power chunks are counted by threads.
const HALVINGS: u32 = 4;

/// The results that found no page, in their order, each with how many results have its URL among their links. These are counted by
/// threads if there may be four.
pub(crate) fn linked_results<'a, R: Threads + Sync>(
    rt: &R,
    alloc: Global,
    results: &'a [PageResult],
    count: usize,
) -> Result<Vec<Linked<'a>>, NoMemory>
    ensures { IfOk result (λ all. map linked_at all.items ≡ map (linked results.now) (filter is_unfound results.now)) }
{
    let unfound = unfound(alloc, results)?;
    linked_among(rt, alloc, unfound.as_slice(), results, count)
}

/// Each of these, with how many of the results have its URL among their links. These are counted by threads if there may be four.
pub(crate) fn linked_among<'a, R: Threads + Sync>(
    rt: &R,
    alloc: Global,
    unfound: &[&'a PageResult],
    results: &'a [PageResult],
    count: usize,
) -> Result<Vec<Linked<'a>>, NoMemory>
    ensures { IfOk result (λ all. map linked_at all.items ≡ map (linked results.now) (pointed unfound.now)) }
{
    let halvings = if count < 4 { 0 } else { HALVINGS };
    linked_in(rt, alloc, halvings, unfound, results)
}

/// Each of these, with how many of some results have its URL among their links, by a thread for each half of the results, as often
/// as they are halved. If none can be started this one counts both.
fn linked_in<'a, R: Threads + Sync>(
    rt: &R,
    alloc: Global,
    halvings: u32,
    unfound: &[&'a PageResult],
    results: &'a [PageResult],
) -> Result<Vec<Linked<'a>>, NoMemory>
    ensures { length results.now < 2 ^ 64 → IfOk result (λ all. map linked_at all.items ≡ map (linked results.now) (pointed unfound.now)) }
{
    if halvings == 0 {
        return linked_here(alloc, unfound, results);
    }
    let fewer = halvings - 1;
    let (front, back) = halves(results);
    let of_front = move || -> Result<Vec<Linked<'_>>, NoMemory>
        ensures { length front.entry.now < 2 ^ 64 → IfOk result (λ all. map linked_at all.items ≡ map (linked front.entry.now) (pointed unfound.entry.now)) }
    { linked_in(rt, alloc, fewer, unfound, front) };
    let of_back = move || -> Result<Vec<Linked<'_>>, NoMemory>
        ensures { length back.entry.now < 2 ^ 64 → IfOk result (λ all. map linked_at all.items ≡ map (linked back.entry.now) (pointed unfound.entry.now)) }
    { linked_in(rt, alloc, fewer, unfound, back) };
    let (first, second) = join(rt, of_front, of_back);
    let first = first?;
    let second = second?;
    sums(alloc, unfound, first.as_slice(), second.as_slice())
}

/// Half of the results each, about.
fn halves(results: &[PageResult]) -> (&[PageResult], &[PageResult])
    ensures { results.now ≡ result.0.now ++ result.1.now }
{
    results.split_at(results.len() / 2)
}

/// The same by this thread.
fn linked_here<'a>(
    alloc: Global,
    unfound: &[&'a PageResult],
    results: &'a [PageResult],
) -> Result<Vec<Linked<'a>>, NoMemory>
    ensures { IfOk result (λ all. map linked_at all.items ≡ map (linked results.now) (pointed unfound.now)) }
{
    let tallies = tally_links(alloc, unfound, results, false)?;
    with_counts(alloc, unfound, &tallies)
}

/// Each of these with the counts of both lists, which are of some results and of those after them.
fn sums<'a>(
    alloc: Global,
    unfound: &[&'a PageResult],
    first: &[Linked<'a>],
    second: &[Linked<'a>],
) -> Result<Vec<Linked<'a>>, NoMemory>
    ensures { (front back : List PageResult) → length front + length back < 2 ^ 64 → map linked_at first.now ≡ map (linked front) (pointed unfound.now) → map linked_at second.now ≡ map (linked back) (pointed unfound.now) → IfOk result (λ all. map linked_at all.items ≡ map (linked (front ++ back)) (pointed unfound.now)) }
{
    let mut all = Vec::with_capacity(alloc, unfound.len())?;
    for (index, one) in unfound.iter().enumerate() {
        let low = pages_at(first, index);
        let high = pages_at(second, index);
        all.push(with_sum(*one, low, high))?;
    }
    Ok(all)
}

/// Returns a result with the sum of the counts from two lists. The sum stops at the greatest number of 64 bits.
fn with_sum<'a>(one: &'a PageResult, first: u64, second: u64) -> Linked<'a>
    ensures { first + second < 2 ^ 64 → linked_at result ≡ record { result = one.now; pages = first + second } }
{
    Linked {
        result: one,
        pages: first.saturating_add(second),
    }
}

/// The count at the index.
fn pages_at(counts: &[Linked<'_>], index: usize) -> u64
    ensures { (results those : List PageResult) → map linked_at counts.now ≡ map (linked results) those → (one : PageResult) → slice_get those index ≡ Some one → result ≡ length (sources_of results one.url) }
{
    match counts.get(index) {
        Some(one) => one.pages,
        None => 0,
    }
}

/// Returns the results of pages that are missing or moved, in their order.
fn unfound(alloc: Global, results: &[PageResult]) -> Result<Vec<&PageResult>, NoMemory>
    ensures { IfOk result (λ all. pointed all.items ≡ filter is_unfound results.now) }
{
    results.iter().filter(|one| is_unfound(one)).collect(alloc)
}

/// Whether the page of the result is missing or moved.
fn is_unfound(one: &PageResult) -> bool
    ensures { result ≡ is_unfound one.now }
{
    !one.page.is_found()
}

/// Each of these results with the count that is kept for its URL.
#[tactic(auto, using(crawl_sources::proofs::Counts::url_among))]
fn with_counts<'a>(
    alloc: Global,
    unfound: &[&'a PageResult],
    tallies: &Tallies<'a>,
) -> Result<Vec<Linked<'a>>, NoMemory>
    requires { (url : List ℕ) → list_any (λ r. bytes_eq r.url url) (pointed unfound.now) ≡ true → IsSome (count_of tallies.now url) }
    ensures { (results : List PageResult) → ((url : List ℕ) → IsTally false results url (count_of tallies.now url)) → IfOk result (λ all. map linked_at all.items ≡ map (linked results) (pointed unfound.now)) }
{
    let mut all = Vec::new(alloc);
    for one in unfound {
        all.push(with_count(*one, tallies))?;
    }
    Ok(all)
}

/// Returns the result with the number of results that link to its URL. The table must have a count for it.
#[tactic(auto, using(crate::proofs::Counting::with_pages, crate::proofs::Counting::linked_counted))]
fn with_count<'a>(one: &'a PageResult, tallies: &Tallies<'a>) -> Linked<'a>
    requires { IsSome (count_of tallies.now one.now.url) }
    ensures { (results : List PageResult) → ((url : List ℕ) → IsTally false results url (count_of tallies.now url)) → linked_at result ≡ linked results one.now }
{
    let tally = tally_of(tallies, &one.url);
    Linked {
        result: one,
        pages: tally.count(),
    }
}
