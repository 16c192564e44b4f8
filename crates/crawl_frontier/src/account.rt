//! The account of a run: all accepted URLs.
ghost use Rattle.std.specs.Prelude.{◌≡◌, ◌<◌, List, [], Some, slice_get, length, map};
ghost use Rattle.hash_index.specs.Lists.{index_of};
ghost use Rattle.crawl_queues.specs.declared.entry.Entry.{Entry};
ghost use Rattle.crawl_queues.specs.Entries.{KeepsRule};
ghost use Rattle.crawl_frontier.specs.Accounts.{AllKeepRule};

use crate::accepted::AcceptedList;
use crawl_keys::CanonUrl;
use crawl_queues::Entry;
use std::marker::Model;

/// The URLs that each queue accepted in a run, which are those that its worker took.
///
/// Only [`crate::Frontier::finish`] makes an account. In each queue no URL is twice, and the entries of each sender are
/// numbered 0, 1, 2, .. in order (`laws::accepted_lists`).
///
/// ```rust
/// for queue in 0..account.workers() {
///     for entry in account.queue(queue) {
///         let (url, hops) = (entry.url.as_str(), entry.hops);
///         let _ = println!(rt; "{queue} {hops} {url}");
///     }
/// }
/// ```
#[derive(Drop)]
pub struct Account {
    workers: u32,
    queues: Vec<AcceptedList>,
}

impl Model for Account {
    ghost use Rattle.std.specs.Prelude.{◌≡◌, length};
    ghost use Rattle.crawl_frontier.specs.Accounts.{AccountId, AllKeepRule};

    ghost Value = { AccountId };

    ghost view = { λ a. record { workers = a.workers; queues = a.queues.items } };

    ghost invariant = { λ a. (length a.queues.items ≡ a.workers) × AllKeepRule a.workers a.queues.items };
}

impl Account {
    /// Creates the account from the list of each queue, in the order of the queues.
    pub(crate) fn new(workers: u32, queues: Vec<AcceptedList>) -> Account
        requires len { length queues.items ≡ workers }
        requires rule { AllKeepRule workers queues.items }
        ensures { result ≡ record { workers = workers; queues = queues.items } }
    {
        Account { workers, queues }
    }

    /// The number of workers, which is the number of queues.
    pub fn workers(&self) -> u32
        ensures { result ≡ self.now.workers }
    {
        self.workers
    }

    /// The URLs that queue `q` accepted, oldest first. `q` must be less than [`Account::workers`].
    pub fn queue(&self, q: u32) -> &[Entry]
        requires { q < self.now.workers }
        ensures entries { slice_get self.now.queues q ≡ Some result.now }
        ensures rule { KeepsRule self.now.workers q [] result.now }
    {
        self.queues[q as usize].entries()
    }

    /// The index of the URL's entry in [`Account::queue`] of `q`, if it is there. `q` must be less than
    /// [`Account::workers`].
    pub fn index_of(&self, q: u32, url: &CanonUrl) -> Option<usize>
        requires { q < self.now.workers }
        ensures { (es : List Entry) → slice_get self.now.queues q ≡ Some es → result ≡ index_of (map (λ e. e.url) es) url.now }
    {
        self.queues[q as usize].index_of(url)
    }
}
