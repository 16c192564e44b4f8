//! What a crawl found.
use crawl_certificate::CrawlResult;
use crawl_frontier::Account;

/// The certified result of a crawl.
#[derive(Drop)]
pub struct Crawled {
    /// The pages of all reachable URLs, sorted by the bytes of their URLs, each URL once.
    pub result: CrawlResult,
    /// For each queue, the number of these URLs that belong to it.
    pub counts: Vec<u64>,
    // Stored so that a caller that forgets the whole value at the end of a process does not wait until it is freed.
    pub(crate) account: Account,
}
