//! The pass over the results in threads: each thread has a chunk, and what they find is combined.
ghost use Rattle.std.specs.Prelude.{◌≡◌, ◌<◌, Bool, ◌&&◌, map, length, vec_len, IfOk, bytes_eq};
ghost use Rattle.std.specs.List.{list_any};
ghost use Rattle.crawl_keys.specs.HostFilter.{allows};
ghost use Rattle.crawl_queues.specs.declared.entry.Entry.{Entry};
ghost use Rattle.crawl_certificate.specs.Least.{IsLeast, url_of, lesser};
ghost use Rattle.crawl_certificate.specs.Lookups.{pointed};
ghost use Rattle.crawl_certificate.specs.Marks.{AreMarks, AreTogether, in_one};

use crate::chunk::Chunk;
use crate::least::{culprit_if, lesser};
use crate::lookups::Accepted;
use crate::marks::{LeastUrls, Marks, marks_of};
use crawl_frontier::Entry;
use crawl_keys::{CanonUrl, Filter};
use std::alloc::{AllocError, Global};
use std::thread::{Threads, join};

/// Makes the pass over a chunk. With several threads, the chunk is halved, and each half gets half of the threads. If a thread
/// cannot be started, the calling thread does its work.
#[tactic(auto, using(std::proofs::lemmas::Grind::common_steps, crate::proofs::Together::marks_long))]
pub fn marks_by<'r, 'e, R: Threads + Sync>(
    rt: &R,
    alloc: Global,
    filter: &Filter,
    threads: usize,
    chunk: Chunk<'r, 'e, '_>,
) -> Result<Marks<'r, 'e>, AllocError>
    ensures { IfOk result (AreMarks (allows filter.now) chunk.entry.accepted.now chunk.entry.results.now) }
{
    if threads < 2 {
        return marks_of(alloc, filter, chunk.accepted, chunk.first, chunk.results);
    }
    let half = threads / 2;
    let (front, back) = chunk.split_at(chunk.results.len() / 2);
    let of_front = move || -> Result<Marks, AllocError>
        ensures { IfOk result (AreMarks (allows filter.entry.now) front.entry.accepted.now front.entry.results.now) }
    { marks_by(rt, alloc, filter, half, front) };
    let of_back = move || -> Result<Marks, AllocError>
        ensures { IfOk result (AreMarks (allows filter.entry.now) back.entry.accepted.now back.entry.results.now) }
    { marks_by(rt, alloc, filter, half, back) };
    let (first, second) = join(rt, of_front, of_back);
    let first = first?;
    let second = second?;
    Ok(together(chunk.accepted.entries(), first, second))
}

/// Combines what two passes over results found.
fn together<'r, 'e>(
    entries: &'e [&Entry],
    first: Marks<'r, 'e>,
    second: Marks<'r, 'e>,
) -> Marks<'r, 'e>
    requires fetched { vec_len first.fetched ≡ length entries.now }
    requires more_fetched { vec_len second.fetched ≡ length entries.now }
    requires linked { vec_len first.linked ≡ length entries.now }
    requires more_linked { vec_len second.linked ≡ length entries.now }
    ensures { AreTogether (pointed entries.now) first.entry second.entry result }
{
    let least = first.least.and(second.least);
    let mut fetched = first.fetched;
    let in_both = add_marks(entries, fetched.as_mut_slice(), &second.fetched);
    let mut linked = first.linked;
    add_marks(entries, linked.as_mut_slice(), &second.linked);
    Marks {
        fetched,
        linked,
        least: LeastUrls {
            twice: lesser(least.twice, in_both),
            ..least
        },
    }
}

/// Marks each entry that is marked in `more`, and returns the least URL of an entry that was already marked.
pub fn add_marks<'e>(
    entries: &'e [&Entry],
    marks: &mut [bool],
    more: &[bool],
) -> Option<&'e CanonUrl>
    requires marks { length marks.old ≡ length entries.now }
    requires more { length more.now ≡ length entries.now }
    ensures marks { marks.new ≡ in_one marks.old more.now }
    ensures both { (own its : Entry → Bool) → marks.old ≡ map own (pointed entries.now) → more.now ≡ map its (pointed entries.now) → IsLeast (λ url. list_any (λ e. bytes_eq e.url url && (own e && its e)) (pointed entries.now)) (url_of result) }
{
    let mut both = None;
    for (index, entry) in entries.iter().enumerate() {
        let marked = marks[index];
        let more_marked = more[index];
        let one = culprit_if(&entry.url, marked & more_marked);
        both = lesser(both, one);
        marks[index] = marked | more_marked;
    }
    both
}
