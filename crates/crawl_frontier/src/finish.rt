//! The end of a run: the accepted URLs are compared with those that were taken, and with the books of all senders.
ghost use Rattle.std.specs.Prelude.{◌≡◌, MatchResult};
ghost use Rattle.crawl_frontier.specs.Accounts.{Accounts, FinishFails};

mod compare;
mod gather;
mod known_lists;
mod settle;
mod settled;

use crate::account::Account;
use crate::closed_worker::ClosedWorker;
use crate::error::FinishError;
use crate::frontier::Frontier;
use crate::sender::Sender;
use compare::books_agree;
use crawl_queues::Name;
use settled::{Settled, account_of, settle_run};

impl<K: Name> Frontier<K> {
    /// Ends a run: returns the account of all accepted URLs, from the closed workers and the senders, in any order.
    ///
    /// An account shows that each accepted URL was taken by its worker, and that the log of each sender agrees. The errors
    /// are `MissingPart`, `Disagree` and `NoMemory` ([`FinishError`]).
    pub fn finish(
        self,
        closed: Vec<ClosedWorker<K>>,
        senders: Vec<Sender<K>>,
    ) -> Result<Account, FinishError>
        ensures { MatchResult result
            (λ a. (a.workers ≡ K.workers) × Accounts K.workers closed.items senders.items a.queues)
            (λ e. FinishFails K.workers closed.items senders.items e) }
    {
        let Settled {
            workers,
            lists,
            books,
            least: settled,
        } = settle_run(self, closed, senders)?;
        let least = books_agree(lists.as_slice(), books, settled);
        account_of(workers, lists, least)
    }
}
