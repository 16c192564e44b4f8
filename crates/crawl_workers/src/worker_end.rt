//! A worker's end.
use crawl_frontier::{ClosedWorker, Name};
use crawl_pages::PageResult;
use link_offers::Losses;

/// A worker that found the gate closed, its results, and what it lost.
#[derive(Drop)]
pub struct WorkerEnd<K: Name> {
    /// The worker, for [`crawl_frontier::Frontier::finish`].
    pub closed: ClosedWorker<K>,
    /// The pages that were fetched, in the order in which their URLs were taken.
    pub results: Vec<PageResult>,
    /// The number of URLs without a result (the fetch failed, or there was no memory for the result), and of links whose offer
    /// was refused. If it reaches the greatest u64 it stays there. A link that the filter does not allow is not lost.
    pub lost: u64,
    /// The losses by cause: `lost` is the sum of these counts, up to the greatest u64.
    pub losses: Losses,
}
