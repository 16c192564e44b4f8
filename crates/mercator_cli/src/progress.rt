//! The progress of a crawl, on standard error.
use crawl_run::Observe;
use std::io::Eprint;
use std::sync::atomic::{AtomicU64, Ordering};
use std::time::{Clock, Instant};

/// Prints how many pages of a crawl were fetched, and in how many seconds: at its first call, and then at most once a second. If
/// the clock cannot be read, it prints nothing.
#[derive(Drop)]
pub struct Progress<'r, R: Clock + Eprint> {
    rt: &'r R,
    begun: Option<Instant>,
    /// The second in which the next line may be printed.
    next: AtomicU64,
}

impl<'r, R: Clock + Eprint> Progress<'r, R> {
    /// Starts now.
    pub fn new(rt: &'r R) -> Progress<'r, R> {
        Progress {
            rt,
            begun: Instant::now(rt).ok(),
            next: AtomicU64::new(0),
        }
    }

    /// Returns the number of whole seconds since the start.
    fn second(&self) -> Option<u64> {
        let elapsed = self.begun?.elapsed(self.rt).ok()?;
        Some(elapsed.as_secs())
    }

    /// Returns whether a line may be printed in this second. If several threads ask, only one may print it.
    fn takes(&self, second: u64) -> bool {
        let next = self.next.load(Ordering::SeqCst);
        let after = second.saturating_add(1);
        next <= second
            && self
                .next
                .compare_exchange(next, after, Ordering::SeqCst, Ordering::SeqCst)
                .is_ok()
    }
}

impl<R: Clock + Eprint> Observe for Progress<'_, R> {
    fn fetched(&self, pages: u64) {
        let Some(second) = self.second() else {
            return;
        };
        if self.takes(second) {
            let _ = eprintln!(self.rt; "mercator: {pages} pages, {second} s");
        }
    }
}
