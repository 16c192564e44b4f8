//! A run whose queues are settled, before its books are compared.
ghost use Rattle.std.specs.Prelude.{◌≡◌, ◌<◌, ◌≤◌, MatchResult, length, vec_len};
ghost use Rattle.crawl_frontier.specs.Accounts.{AllKeepRule, FinishFails};
ghost use Rattle.crawl_frontier.specs.Finishing.{CanCompare};

use super::compare::all_have_parts;
use super::gather::gather;
use super::known_lists::extend_books;
use super::settle::{all_there, first_doubt, settle_all, unlock};
use crate::accepted::AcceptedList;
use crate::account::Account;
use crate::closed_worker::ClosedWorker;
use crate::error::FinishError;
use crate::frontier::Frontier;
use crate::sender::Sender;
use crate::shard::Shard;
use crawl_queues::{Book, Name, Subqueue};
use std::sync::Mutex;

/// The values that are compared.
#[derive(Drop)]
pub struct Settled {
    pub workers: u32,
    /// The list of each queue.
    pub lists: Vec<AcceptedList>,
    /// The books of all senders.
    pub books: Vec<Book>,
    /// The first queue that is in doubt, or `workers`.
    pub least: u32,
}

// What the end of a run needs of its frontier.
fn parts_of<K: Name>(frontier: Frontier<K>) -> (u32, Vec<Subqueue>, Vec<Mutex<Shard<K>>>)
    ensures workers { (result.0 ≡ K.workers) × (K.workers < 4294967296) }
    ensures queues { (result.1.items ≡ K.queues) × (vec_len result.1 ≡ K.workers) }
    ensures shards { vec_len result.2 ≡ K.workers }
{
    let Frontier {
        gate: _,
        workers,
        queues,
        shards,
        filter: _,
    } = frontier;
    (workers, queues, shards)
}

/// A run's queues and books. An entry whose sender is not one of the run is reported before any book is compared.
pub fn settle_run<K: Name>(
    frontier: Frontier<K>,
    closed: Vec<ClosedWorker<K>>,
    senders: Vec<Sender<K>>,
) -> Result<Settled, FinishError>
    ensures { MatchResult result (CanCompare K.workers closed.items senders.items) (FinishFails K.workers closed.items senders.items) }
{
    let (workers, queues, shards) = parts_of(frontier);
    let alloc = *queues.allocator();
    let (rights, mut books, unshared) = gather(alloc, closed, senders, workers)?;
    if !all_there(&rights, workers) {
        return Err(FinishError::MissingPart);
    }
    let mut shards = unlock(alloc, shards)?;
    extend_books(&queues, &mut shards, &mut books);
    let (lists, doubts) = settle_all(alloc, &queues, shards, rights)?;
    let complete = all_have_parts(alloc, lists.as_slice(), books.as_slice())?;
    if !complete {
        return Err(FinishError::MissingPart);
    }
    let least = first_doubt(doubts.as_slice(), unshared);
    Ok(Settled {
        workers,
        lists,
        books,
        least,
    })
}

/// The account, if every queue is settled: `least` is the first queue that is not, or the number of queues.
pub fn account_of(
    workers: u32,
    lists: Vec<AcceptedList>,
    least: u32,
) -> Result<Account, FinishError>
    requires len { length lists.items ≡ workers }
    requires rule { workers ≤ least → AllKeepRule workers lists.items }
    ensures { MatchResult result
        (λ a. (workers ≤ least) × (a ≡ record { workers = workers; queues = lists.items }))
        (λ e. (least < workers) × (e ≡ FinishError.Disagree least)) }
{
    if least < workers {
        return Err(FinishError::Disagree { queue: least });
    }
    Ok(Account::new(workers, lists))
}
