//! The numbers of results: sixteen bytes of each URL, after the bytes that all URLs begin with.
ghost use Rattle.std.specs.Prelude.{◌≡◌, ◌+◌, ◌*◌, ◌<◌, ◌≤◌, All};
ghost use Rattle.result_order.specs.Sorting.{AllBeginAlike, AreNumbered, IsNumbered, IsNumberSet, pages_of};

use crate::beginning::beginning_of;
use crate::numbered::{Numbered, number_at, text_of};
use std::thread::{Threads, for_each_mut};

/// Sets each number to sixteen bytes of the URL, after the bytes with which all URLs begin. Returns the index of the first of these
/// sixteen. All URLs must be the same before `from`. The result leaves room for `levels` numbers.
pub fn number_all<R: Threads + Sync>(
    rt: &R,
    parts: usize,
    pages: &mut [Numbered],
    from: usize,
    levels: usize,
) -> usize
    requires alike { AllBeginAlike from (pages_of pages.old) }
    requires room { from + 16 * levels ≤ 4096 }
    requires some { 0 < levels }
    ensures { AreNumbered levels result pages.old pages.new }
{
    let begin = beginning_of(pages, from, levels);
    set_numbers(rt, parts, pages, begin);
    begin
}

/// Sets each number to the sixteen bytes of the URL from `from` on, with at most `parts` threads.
#[tactic(auto, using(crate::proofs::SortedParts::each_page_same))]
fn set_numbers<R: Threads + Sync>(rt: &R, parts: usize, pages: &mut [Numbered], from: usize)
    requires { from + 16 ≤ 4096 }
    ensures same { pages_of pages.new ≡ pages_of pages.old }
    ensures numbered { All (IsNumbered from) pages.new }
{
    let set = move |_: usize, numbered: &mut Numbered|
        requires { from + 16 ≤ 4096 }
        ensures { IsNumberSet from numbered.entry.now numbered.exit.now }
    { numbered.number = number_at(text_of(numbered), from) };
    for_each_mut(rt, pages, parts.max(1), &set);
}
