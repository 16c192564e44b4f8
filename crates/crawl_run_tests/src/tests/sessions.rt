//! A source whose session keeps a URL, and runs of it.
ghost use Rattle.std.specs.Prelude.{◌≡◌, Some, IfSome, IfOk};
ghost use Rattle.crawl_pages.specs.declared.page.Page.TheVariants.{Moved};

use crate::tests::runs::{How, Run};
use crawl_keys::{CanonUrl, KeyError, canonical};
use crawl_pages::{FetchError, Page, SessionFetch};
use std::alloc::Global;
use std::sync::Wait;
use std::sync::atomic::{AtomicU64, Ordering};
use std::thread::Threads;

// A source whose pages have all moved to one URL. It adds up the hashes that it is to expect.
#[derive(Drop)]
pub struct AllMoved {
    pub to: CanonUrl,
    pub expected: AtomicU64,
}

impl SessionFetch for AllMoved {
    // The URL that pages have moved to, after the first fetch.
    type Session = Option<CanonUrl>;

    ghost meaning = { λ source _. Moved (Some source.to) };

    ghost is_of = { λ source session. IfSome session (λ url. url ≡ source.to) };

    fn open_session(&self, _alloc: Global, _among: u32) -> Option<CanonUrl> {
        None
    }

    fn expect(&self, hashes: &[u64]) -> u64 {
        for hash in hashes {
            let _before = self.expected.fetch_add(*hash, Ordering::SeqCst);
        }
        1
    }

    fn fetch_in(
        &self,
        _alloc: Global,
        session: &mut Option<CanonUrl>,
        _url: &CanonUrl,
    ) -> Result<Page, FetchError> {
        if let Some(known) = session {
            return moved_to(known);
        }
        match self.to.copy() {
            Ok(to) => *session = Some(to),
            Err(_) => return Err(FetchError::NoMemory),
        }
        moved_to(&self.to)
    }
}

fn moved_to(url: &CanonUrl) -> Result<Page, FetchError>
    ensures { IfOk result (λ page. page ≡ Moved (Some url.now)) }
{
    match url.copy() {
        Ok(to) => Ok(Page::Moved { to: Some(to) }),
        Err(KeyError::NoMemory | KeyError::NotUrl | KeyError::NotHttp) => Err(FetchError::NoMemory),
    }
}

static SEEDS: [&str; 3] = ["http://a.test/", "http://b.test/", "http://a.test/x"];

// Returns the sum of the seeds' hashes.
fn hashes_of_seeds(alloc: Global) -> u64 {
    let mut sum: u64 = 0;
    for text in SEEDS {
        if let Ok(url) = canonical(alloc, text) {
            sum = sum.wrapping_add(url.text_hash());
        }
    }
    sum
}

// Returns the number of results, and the sum of the hashes that the source was to expect.
fn found_by<R: Threads + Wait + Sync>(
    rt: &R,
    alloc: Global,
    workers: u32,
    how: How,
) -> Option<(usize, u64)> {
    let source = AllMoved {
        to: canonical(alloc, "http://c.test/").ok()?,
        expected: AtomicU64::new(0),
    };
    let run = Run {
        workers,
        max_pending: 9,
        within: &[],
        seeds: &SEEDS,
        how,
    };
    let left = run.left(rt, alloc, &source)?;
    Some((left.results.len(), source.expected.load(Ordering::SeqCst)))
}

// The results are those of three seeds and of the URL that all pages moved to.
#[test]
fn sessions_serve_each_worker(rt: HostRuntime) {
    for workers in [1, 3] {
        for how in [How::Threads, How::Turns] {
            let found = found_by(&rt, rt.alloc(), workers, how);
            assert!(rt; matches!(found, Some((4, _))));
        }
    }
}

// A worker announces to its source all URLs that wait when it begins.
#[test]
fn sources_expect_the_seeds(rt: HostRuntime) {
    let sum = hashes_of_seeds(rt.alloc());
    assert!(rt; found_by(&rt, rt.alloc(), 1, How::Threads) == Some((4, sum)));
}
