//! The results that one thread checks.
ghost use Rattle.std.specs.Prelude.{◌≡◌, ◌<◌, ◌≤◌, ◌+◌, ◌^◌, ◌++◌, length};

use crate::lookups::Accepted;
use crawl_pages::PageResult;

/// With fewer results than this, another thread saves no time.
const MANY: usize = 4096;

/// A chunk of the results, and the entries to which they may belong.
#[derive(Clone, Copy)]
pub struct Chunk<'r, 'e, 'a> {
    pub accepted: &'e Accepted<'a>,
    /// The number of results before this chunk.
    pub first: usize,
    pub results: &'r [PageResult],
}

impl<'r, 'e, 'a> Chunk<'r, 'e, 'a> {
    /// Returns a chunk of all results.
    pub fn whole(accepted: &'e Accepted<'a>, results: &'r [PageResult]) -> Chunk<'r, 'e, 'a>
        ensures accepted { result.accepted.now ≡ accepted.now }
        ensures results { result.results.now ≡ results.now }
        ensures first { result.first ≡ 0 }
    {
        Chunk {
            accepted,
            first: 0,
            results,
        }
    }

    /// Returns the number of threads, or 1 if there are too few results for another thread.
    pub fn threads_worth(&self, threads: usize) -> usize {
        if self.results.len() < MANY {
            1
        } else {
            threads
        }
    }

    /// Returns about half the number of results, such that no queue has entries with results in both halves.
    pub fn queue_border(&self) -> usize
        ensures { result ≤ length self.now.results.now }
    {
        let half = self.results.len() / 2;
        let begins = self.accepted.nearest_first(self.first.saturating_add(half));
        begins.saturating_sub(self.first).min(self.results.len())
    }

    /// Returns the first `count` results, and the others.
    pub fn split_at(self, count: usize) -> (Chunk<'r, 'e, 'a>, Chunk<'r, 'e, 'a>)
        requires { count ≤ length self.results.now }
        ensures accepted { (result.0.accepted.now ≡ self.entry.accepted.now) × (result.1.accepted.now ≡ self.entry.accepted.now) }
        ensures results { result.0.results.now ++ result.1.results.now ≡ self.entry.results.now }
        ensures front { result.0.first ≡ self.entry.first }
        ensures back { self.entry.first + length self.entry.results.now < 2 ^ 64 → result.1.first ≡ self.entry.first + length result.0.results.now }
    {
        let (front, back) = self.results.split_at(count);
        (
            Chunk {
                results: front,
                ..self
            },
            Chunk {
                first: self.first.saturating_add(count),
                results: back,
                ..self
            },
        )
    }
}
