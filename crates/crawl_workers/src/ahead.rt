//! The URLs that a worker announces to its source before it fetches them, so that their fetches wait less for memory.

use crawl_frontier::{Frontier, Name, Worker};
use crawl_pages::SessionFetch;
use std::sync::Wait;

/// The number of URLs that are announced at the same time.
const ANNOUNCED: usize = 16;

/// How far a worker has looked ahead.
#[derive(Clone, Copy)]
pub(crate) struct LookAhead {
    /// The number of taken URLs after which it looks again.
    until: usize,
}

impl LookAhead {
    /// Makes the state of a worker that has not looked yet.
    pub fn new() -> LookAhead {
        LookAhead { until: 0 }
    }

    /// Announces the URLs that a worker takes after the first `taken`, if it has taken those that were announced before. If few
    /// URLs wait, a look costs more than it saves, so the next look comes later.
    pub fn look<K: Name, F: SessionFetch, R: Wait>(
        &mut self,
        rt: &R,
        frontier: &Frontier<K>,
        worker: &Worker<K>,
        fetcher: &F,
        taken: usize,
    ) {
        if taken < self.until {
            return;
        }
        let mut hashes = [0; ANNOUNCED];
        let count = worker.look_ahead(rt, frontier, taken, &mut hashes);
        let next = if count < ANNOUNCED {
            4 * ANNOUNCED
        } else {
            ANNOUNCED
        };
        let expected = hashes.get(..count).unwrap_or(&[]);
        // The sum has no meaning. It is used only because the compiler would otherwise remove the reads.
        let read = usize::from(fetcher.expect(expected) == 0);
        self.until = taken.saturating_add(next).saturating_add(read);
    }
}
