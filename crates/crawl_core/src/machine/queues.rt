//! The events that read or change a subqueue.
ghost use Rattle.std.specs.Prelude.{◌≡◌, IfOk, OnErr, option_map};
ghost use Rattle.crawl_core.specs.Fetching.{in_fetch};
ghost use Rattle.crawl_core.specs.Moves.{Moves};
ghost use Rattle.crawl_core.specs.Shows.{Shows};
ghost use Rattle.crawl_core.specs.State.{State};
ghost use Rattle.crawl_core.specs.declared.event.Event.{Event};

use super::Core;
use crate::error::NoMemory;
use crate::event::Event;
use crate::reply::{Refusal, Reply};
use crate::text::Text;

impl Core {
    /// Returns the URL that was taken from the subqueue last, if it is not done: `Some(None)` if the subqueue is not busy, and
    /// `None` if there is no such subqueue.
    #[tactic(auto, using(crate::proofs::Fetching::kept_in_fetch))]
    pub fn in_fetch(&self, queue: u32) -> Option<Option<&Text>>
        ensures { (state : State) → Shows self.now state → option_map (λ found. option_map (λ url. url.now) found) result ≡ in_fetch state queue }
    {
        self.queues.in_fetch(queue)
    }

    /// Accepts a URL into the queue, with the sender's unit, unless the queue has accepted it before. Refused if the sender holds
    /// no unit. The sender keeps its unit if the URL is not accepted.
    pub(super) fn admit(&mut self, sender: u64, url: &Text, queue: u32) -> Result<Reply, NoMemory>
        ensures moves { IfOk result (λ reply. Moves self.old (Event.Admit sender url.now queue) reply self.new) }
        ensures err { OnErr result (self.new ≡ self.old) }
    {
        if !self.queues.has(queue) {
            return Ok(Reply::Refused(Refusal::NoSuch));
        }
        if !self.holders.contains(&sender) {
            return Ok(Reply::Refused(Refusal::Nothing));
        }
        let Some(number) = self.queues.accept(queue, url, sender)? else {
            return Ok(Reply::Seen);
        };
        // The sender's unit now belongs to the URL, so the count does not change.
        self.holders.remove(&sender);
        Ok(Reply::Accepted { queue, number })
    }

    /// Takes the URL that has waited longest in the queue. Refused while the URL that was taken before is not done.
    pub(super) fn take(&mut self, queue: u32) -> Reply
        ensures { Moves self.old (Event.Take queue) result self.new }
    {
        let Some(busy) = self.queues.is_busy(queue) else {
            return Reply::Refused(Refusal::NoSuch);
        };
        if busy {
            return Reply::Refused(Refusal::Busy);
        }
        let Some(url) = self.queues.take(queue) else {
            return Reply::Empty;
        };
        Reply::Taken(url)
    }

    /// Ends the fetch of the URL that was taken last from the queue, and gives its unit back.
    pub(super) fn done(&mut self, queue: u32) -> Reply
        ensures { Moves self.old (Event.Done queue) result self.new }
    {
        let Some(busy) = self.queues.is_busy(queue) else {
            return Reply::Refused(Refusal::NoSuch);
        };
        if !busy {
            return Reply::Refused(Refusal::Nothing);
        }
        self.queues.finish(queue);
        self.count -= 1;
        Reply::Count(self.count)
    }
}
