//! The settings of a crawl.
ghost use Rattle.std.specs.Prelude.{◌≡◌, ◌<◌, ◌↔◌, IsTrue};
ghost use Rattle.crawl_run.specs.declared.settings.Mode.TheVariants as modes;

use crawl_keys::Filter;

/// How the workers of a crawl run. What a crawl finds does not depend on the mode.
#[derive(Clone, Copy, Debug, PartialEq, Eq)]
pub enum Mode {
    /// All workers run on the calling thread and take turns, one URL each.
    Turns,
    /// Each worker runs in its own thread. A single worker runs on the calling thread.
    Threads,
}

/// The settings of a crawl. What it finds depends only on the filter.
///
/// # Example
///
/// As `mercator crawl` runs a crawl:
///
/// ```rust
/// let settings = CrawlSettings {
///     workers: asked.workers,
///     max_pending: asked.max,
///     mode: Mode::Threads,
///     filter: &filter,
/// };
/// ```
#[derive(Clone, Copy)]
pub struct CrawlSettings<'f> {
    /// The number of workers, each with its own queue: 1 to 512.
    pub workers: u32,
    /// The greatest number of URLs that are waiting or in progress: 1 to 2^40. The seeding phase counts as one.
    pub max_pending: u64,
    /// Whether workers run in threads. A single worker runs on the calling thread.
    pub mode: Mode,
    /// The filter, which says which hosts are crawled.
    pub filter: &'f Filter,
}

impl<'f> CrawlSettings<'f> {
    /// Whether each worker runs in its own thread. If so, threads also do the other work of the crawl.
    pub fn has_threads(&self) -> bool
        ensures { IsTrue result ↔ ((1 < self.now.workers) × (self.now.mode ≡ modes.Threads)) }
    {
        self.workers > 1 && matches!(self.mode, Mode::Threads)
    }
}
