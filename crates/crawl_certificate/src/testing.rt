//! Calls for tests only.
ghost use Rattle.std.specs.Prelude.{IfOk, IfSome};
ghost use Rattle.crawl_certificate.specs.AccountEntries.{entries_of};
ghost use Rattle.crawl_certificate.specs.Walks.{IsWalk};

use crate::chunk::Chunk;
use crate::lookups::Accepted;
use crate::walk::linked_by;
use crawl_frontier::Account;
use crawl_pages::PageResult;
use std::alloc::{AllocError, Global};
use std::thread::Threads;

const THREADS: usize = 4;

/// For each entry, whether the walk in threads over these results saw that it is linked. `None` if the results are not in the order
/// of the entries. No contract says that the walk sees all links: those that it does not see are looked up.
pub fn seen_linked<R: Threads + Sync>(
    rt: &R,
    alloc: Global,
    account: &Account,
    results: &[PageResult],
) -> Result<Option<Vec<bool>>, AllocError>
    ensures { IfOk result (λ found. IfSome found (λ marks. IsWalk (entries_of account.now) 0 results.now marks.items)) }
{
    let accepted = Accepted::of(alloc, account)?;
    linked_by(rt, alloc, THREADS, Chunk::whole(&accepted, results))
}
