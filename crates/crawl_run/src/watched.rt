//! A source of pages that reports how many were fetched.
ghost use Rattle.std.specs.Prelude.{◌≡◌, ◌<◌, ◌+◌};
ghost use Rattle.crawl_run.specs.Limits.{fetches_per_report};

use crawl_keys::CanonUrl;
use crawl_pages::{FetchError, Page, SessionFetch};
use std::alloc::Global;
use std::sync::atomic::{AtomicU64, Ordering};

/// An observer of a crawl's progress.
///
/// # Example
///
/// `mercator --progress` prints the number of pages, and the time since the start:
///
/// ```rust
/// impl<R: Clock + Eprint> Observe for Progress<'_, R> {
///     fn fetched(&self, pages: u64) {
///         let Some(second) = self.second() else {
///             return;
///         };
///         if self.takes(second) {
///             let _ = eprintln!(self.rt; "mercator: {pages} pages, {second} s");
///         }
///     }
/// }
/// ```
pub trait Observe {
    /// Reports that `pages` fetches have ended since the crawl began. Each worker reports its fetches in batches, so the last few
    /// of each worker may be missing. Workers in threads report at the same time, so a lower number may follow a higher one.
    fn fetched(&self, pages: u64);
}

/// The number of fetches in a report of a worker.
const FETCHES_PER_REPORT: u32 = 64;

/// A source of the same pages as another, which reports to an observer how many were fetched. Each fetch is a fetch from the
/// other source.
///
/// # Example
///
/// A crawl of this source reports to the observer:
///
/// ```rust
/// let watched = Watched::new(&source, &observer);
/// crawl_with(rt, alloc, &watched, &settings, &seeds)
/// ```
#[derive(Drop)]
pub struct Watched<'f, 'o, F: SessionFetch, V: Observe> {
    source: &'f F,
    observer: &'o V,
    /// The number of fetches that were reported.
    reported: AtomicU64,
}

/// A session of a [`Watched`] source.
#[derive(Drop)]
pub struct WatchedSession<S> {
    inner: S,
    /// The number of its fetches that are not reported yet.
    unreported: u32,
}

impl<'f, 'o, F: SessionFetch, V: Observe> Watched<'f, 'o, F, V> {
    /// Returns a source of the same pages, which reports to the observer.
    pub fn new(source: &'f F, observer: &'o V) -> Watched<'f, 'o, F, V>
        ensures source { result.source.now ≡ source.now }
        ensures observer { result.observer.now ≡ observer.now }
    {
        Watched {
            source,
            observer,
            reported: AtomicU64::new(0),
        }
    }
}

impl<'f, 'o, F: SessionFetch, V: Observe> SessionFetch for Watched<'f, 'o, F, V> {
    type Session = WatchedSession<F::Session>;

    ghost meaning = { λ watched. F.meaning watched.source.now };

    ghost is_of = { λ watched session. F.is_of watched.source.now session.inner × (session.unreported < fetches_per_report) };

    fn open_session(&self, alloc: Global, among: u32) -> WatchedSession<F::Session>
        ensures right { F.is_of self.now.source.now result.inner × (result.unreported < fetches_per_report) }
        // All fetches of a new session are reported: there are none.
        ensures fresh { result.unreported ≡ 0 }
    {
        WatchedSession {
            inner: self.source.open_session(alloc, among),
            unreported: 0,
        }
    }

    fn expect(&self, hashes: &[u64]) -> u64 {
        self.source.expect(hashes)
    }

    fn fetch_in(
        &self,
        alloc: Global,
        session: &mut WatchedSession<F::Session>,
        url: &CanonUrl,
    ) -> Result<Page, FetchError> {
        let page = self.source.fetch_in(alloc, &mut session.inner, url);
        let (unreported, fetches) = counted(session.unreported);
        session.unreported = unreported;
        if fetches > 0 {
            report(&self.reported, self.observer, fetches);
        }
        page
    }
}

/// Reports more fetches to the observer.
fn report<V: Observe>(reported: &AtomicU64, observer: &V, fetches: u32) {
    let more = u64::from(fetches);
    let before = reported.fetch_add(more, Ordering::SeqCst);
    observer.fetched(before.saturating_add(more));
}

/// Counts a fetch. Returns the number that is then not reported, and the number to report now.
fn counted(unreported: u32) -> (u32, u32)
    requires { unreported < fetches_per_report }
    // Each fetch is reported or not, and none is reported twice.
    ensures each { result.0 + result.1 ≡ unreported + 1 }
    ensures few { result.0 < fetches_per_report }
{
    let fetches = unreported + 1;
    if fetches < FETCHES_PER_REPORT {
        (fetches, 0)
    } else {
        (0, fetches)
    }
}
