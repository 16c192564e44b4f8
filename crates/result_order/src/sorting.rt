//! A sort that mostly compares numbers: sixteen bytes of each URL, stored next to the result.
//!
//! A comparison of two URLs reads both from memory; a number is in the list itself. The bytes with which all URLs begin are left
//! out of the numbers. Results with the same number are sorted by the next sixteen bytes, and so on. Small groups, and groups that
//! have the same number `LEVELS` times, are sorted by their URLs.
ghost use Rattle.std.specs.Prelude.{◌≡◌, ◌+◌, ◌*◌, ◌<◌, ◌≤◌, length, IfOk, IfSome, IsNone};
ghost use Rattle.std.specs.List.Sorted.{IsPermutation, IsNonDecreasingBy, IsSortedByKey};
ghost use Rattle.std.specs.Cmp.Lexicographic.{slice_cmp};
ghost use Rattle.std.specs.Ordering.{nat_cmp};
ghost use Rattle.std.specs.Thread.{IsSync};
ghost use Rattle.result_order.specs.Sorting.{AllBeginAlike, AllEqual, AreInOrder, ArePartedAt, ArePrepared, pages_of};

use crate::numbered::{BYTES, Numbered};
use crate::numbering::number_all;
use crawl_pages::PageResult;
use rayon::slice::par_sort_unstable_by_key;
use std::alloc::{AllocError, Global};
use std::thread::{Threads, join_mut};

/// The greatest number of numbers that are compared before the URLs are.
const LEVELS: usize = 32;

/// A list shorter than this is sorted by its URLs.
const FEW: usize = 12;

/// A list shorter than this is sorted in one thread.
const MANY: usize = 4096;

/// The number of parts of a list for each thread. More than one, since some parts take longer than others.
const PARTS: usize = 2;

/// The memory of a list is freed each time that this number of items has left it.
const STEP: usize = 1 << 17;

/// Returns the results in ascending order of the bytes of their URLs. If `threads` is 1, no thread is started.
pub fn in_order<R: Threads + Sync>(
    rt: &R,
    alloc: Global,
    results: Vec<PageResult>,
    threads: usize,
) -> Result<Vec<PageResult>, AllocError>
    ensures same { IfOk result (λ pages. IsPermutation results.items pages.items) }
    ensures sorted { IfOk result (λ pages. IsSortedByKey (λ r. r.url) (slice_cmp nat_cmp) pages.items) }
{
    let parts = if threads < 2 {
        1
    } else {
        threads.saturating_mul(PARTS)
    };
    let mut pages = with_numbers(alloc, results)?;
    sort_from(rt, parts, pages.as_mut_slice(), 0, LEVELS);
    without_numbers(alloc, pages)
}

/// Returns the results in any order, each with the number 0. Meanwhile the memory of the old list is freed step by step.
fn with_numbers(alloc: Global, results: Vec<PageResult>) -> Result<Vec<Numbered>, AllocError>
    ensures { IfOk result (λ pages. IsPermutation results.items (pages_of pages.items)) }
{
    let mut rest = results;
    let mut pages = Vec::with_capacity(alloc, rest.len())?;
    while let Some(page) = rest.pop() {
        pages.push(Numbered { number: 0, page })?;
        give_back(&mut rest);
    }
    Ok(pages)
}

/// Returns the results without their numbers. Meanwhile the memory of the old list is freed step by step.
fn without_numbers(alloc: Global, pages: Vec<Numbered>) -> Result<Vec<PageResult>, AllocError>
    ensures { IfOk result (λ results. results.items ≡ pages_of pages.items) }
{
    let mut rest = pages;
    let mut results = Vec::with_capacity(alloc, rest.len())?;
    while let Some(Numbered { page, .. }) = rest.pop() {
        results.push(page)?;
        give_back(&mut rest);
    }
    results.reverse();
    Ok(results)
}

/// Frees the memory that a list's items have left, once for each `STEP` items.
fn give_back<T>(rest: &mut Vec<T>)
    ensures { rest.new.items ≡ rest.old.items }
{
    if rest.len().is_multiple_of(STEP) {
        rest.shrink_to_fit();
    }
}

/// Sorts results whose URLs are the same before `from`: by at most `levels` numbers, then by the URLs.
#[cycle(sort)]
fn sort_from<R: Threads + Sync>(
    rt: &R,
    parts: usize,
    pages: &mut [Numbered],
    from: usize,
    levels: usize,
)
    requires alike { AllBeginAlike from (pages_of pages.old) }
    requires room { from + 16 * levels ≤ 4096 }
    ensures same { IsPermutation (pages_of pages.old) (pages_of pages.new) }
    ensures sorted { AreInOrder pages.new }
{
    if pages.len() < FEW || levels == 0 {
        pages.sort_unstable_by(|a, b| a.page.url.cmp(&b.page.url));
        return;
    }
    let parts = parts_worth(pages, parts);
    let from = number_all(rt, parts, pages, from, levels);
    sort_by_number(rt, parts, pages);
    sort_runs(rt, parts, pages, from, levels - 1);
}

/// Sorts results that are in the order of their numbers, which have the sixteen bytes from `from` on.
#[cycle(sort)]
fn sort_runs<R: Threads + Sync>(
    rt: &R,
    parts: usize,
    pages: &mut [Numbered],
    from: usize,
    levels: usize,
)
    requires { ArePrepared from levels pages.old }
    ensures same { IsPermutation (pages_of pages.old) (pages_of pages.new) }
    ensures sorted { AreInOrder pages.new }
{
    let parts = parts_worth(pages, parts);
    match middle(pages) {
        None => sort_from(rt, parts, pages, from + BYTES, levels),
        Some(index) => {
            let (low, high) = pages.split_at_mut(index);
            sort_both(rt, parts, low, high, from, levels);
        }
    }
}

/// Sorts two halves, in two threads if `parts` is more than 1. If no thread can be started, this one sorts both.
#[cycle(sort)]
fn sort_both<R: Threads + Sync>(
    rt: &R,
    parts: usize,
    low: &mut [Numbered],
    high: &mut [Numbered],
    from: usize,
    levels: usize,
)
    requires low { ArePrepared from levels low.old }
    requires high { ArePrepared from levels high.old }
    requires some { (0 < length low.old) × (0 < length high.old) }
    ensures low_same { IsPermutation (pages_of low.old) (pages_of low.new) }
    ensures low_sorted { AreInOrder low.new }
    ensures high_same { IsPermutation (pages_of high.old) (pages_of high.new) }
    ensures high_sorted { AreInOrder high.new }
{
    if parts < 2 {
        sort_runs(rt, parts, low, from, levels);
        sort_runs(rt, parts, high, from, levels);
        return;
    }
    let half = parts / 2;
    let mut first = ||
        requires { IsSync R.row × ArePrepared from levels low.now }
        ensures { IsPermutation (pages_of low.entry.now) (pages_of low.exit.now) × AreInOrder low.exit.now }
    { sort_runs(rt, half, low, from, levels) };
    let mut second = ||
        requires { IsSync R.row × ArePrepared from levels high.now }
        ensures { IsPermutation (pages_of high.entry.now) (pages_of high.exit.now) × AreInOrder high.exit.now }
    { sort_runs(rt, half, high, from, levels) };
    join_mut(rt, &mut first, &mut second);
}

/// Returns the number of parts, or 1 if the list is too short to be sorted in several threads.
fn parts_worth(pages: &[Numbered], parts: usize) -> usize {
    if pages.len() < MANY { 1 } else { parts }
}

/// Sorts results by their numbers.
fn sort_by_number<R: Threads + Sync>(rt: &R, parts: usize, pages: &mut [Numbered])
    ensures same { IsPermutation pages.old pages.new }
    ensures rising { IsNonDecreasingBy (λ p. p.number) pages.new }
{
    if parts < 2 {
        pages.sort_unstable_by_key(|one| one.number);
    } else {
        par_sort_unstable_by_key(rt, pages, |one| one.number);
    }
}

/// Returns an index near the middle before which all numbers are less than from it on, or `None` if all numbers are equal. The
/// numbers ascend.
fn middle(pages: &[Numbered]) -> Option<usize>
    requires { IsNonDecreasingBy (λ p. p.number) pages.now }
    ensures none { IsNone result → AllEqual pages.now }
    ensures some { IfSome result (ArePartedAt pages.now) }
{
    let number = pages.get(pages.len() / 2)?.number;
    let first = pages.partition_point(|one| one.number < number);
    if first > 0 {
        return Some(first);
    }
    let above = pages.partition_point(|one| one.number <= number);
    if above < pages.len() {
        Some(above)
    } else {
        None
    }
}
