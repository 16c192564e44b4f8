//! The subqueues of a machine, which are read and changed by their numbers.
ghost use Rattle.std.specs.Prelude.{◌≡◌, ◌∷◌, [], ◌<◌, true, false, length, replicate, slice_get, slice_set, Some, None, drop, IfOk, IfSome, IfNone, OnErr, OnSome, is_some, option_map};
ghost use Rattle.crawl_core.specs.Fetching.{kept_fetch};
ghost use Rattle.crawl_core.specs.Handing.{kept_progress};
ghost use Rattle.crawl_core.specs.Kept.{KeptQueue, empty_queue, has_seen, number_at};
ghost use Rattle.crawl_core.specs.Moves.{accepting};

use crate::error::NoMemory;
use crate::progress::Progress;
use crate::text::Text;
use crate::url_queue::UrlQueue;
use std::alloc::Global;
use std::marker::Model;

/// One subqueue for each worker.
#[derive(Drop)]
pub struct UrlQueues {
    queues: Vec<UrlQueue>,
}

impl Model for UrlQueues {
    ghost use Rattle.std.specs.Prelude.{List};
    ghost use Rattle.crawl_core.specs.Handing.{kept_progress};
    ghost use Rattle.crawl_core.specs.Kept.{KeptQueue};

    ghost Value = { List KeptQueue };

    ghost view = { λ s. s.queues.items };
}

impl UrlQueues {
    /// Makes this number of empty subqueues.
    pub fn new(alloc: Global, workers: u32) -> Result<UrlQueues, NoMemory>
        ensures { IfOk result (λ queues. queues ≡ replicate workers empty_queue) }
    {
        let mut queues = Vec::with_capacity(alloc, workers as usize)?;
        for _made in 0..workers {
            queues.push(UrlQueue::new(alloc))?;
        }
        Ok(UrlQueues { queues })
    }

    /// Whether the subqueue is busy, or `None` if there is no such subqueue.
    pub fn is_busy(&self, place: u32) -> Option<bool>
        ensures { result ≡ option_map (λ queue. queue.busy) (slice_get self.now place) }
    {
        let queue = self.queues.get(place as usize)?;
        Some(queue.is_busy())
    }

    /// The URL that was taken last from the subqueue, if it is not done; the outer `None` if there is no such subqueue.
    pub fn in_fetch(&self, place: u32) -> Option<Option<&Text>>
        ensures { option_map (λ found. option_map (λ url. url.now) found) result ≡ option_map kept_fetch (slice_get self.now place) }
    {
        let queue = self.queues.get(place as usize)?;
        Some(queue.in_fetch())
    }

    /// Returns the progress of the subqueue, or `None` if there is no such subqueue.
    pub fn progress(&self, place: u32) -> Option<Progress>
        ensures { result ≡ option_map kept_progress (slice_get self.now place) }
    {
        let queue = self.queues.get(place as usize)?;
        Some(queue.progress())
    }

    /// Whether there is such a subqueue.
    pub fn has(&self, place: u32) -> bool
        ensures { result ≡ is_some (slice_get self.now place) }
    {
        self.queues.get(place as usize).is_some()
    }

    /// Appends a URL to the subqueue, and returns the number of earlier URLs of the sender, or `None` if the subqueue has accepted
    /// the URL before.
    pub fn accept(&mut self, place: u32, url: &Text, sender: u64) -> Result<Option<u64>, NoMemory>
        requires { is_some (slice_get self.old place) ≡ true }
        ensures seen { IfOk result (λ number. IfNone number ((queue : KeptQueue) → slice_get self.old place ≡ Some queue → has_seen queue url.now ≡ true)) }
        ensures unchanged { IfOk result (λ number. IfNone number (self.new ≡ self.old)) }
        ensures fresh { IfOk result (λ number. IfSome number (λ _. (queue : KeptQueue) → slice_get self.old place ≡ Some queue → has_seen queue url.now ≡ false)) }
        ensures number { IfOk result (λ number. IfSome number (λ number. (queue : KeptQueue) → slice_get self.old place ≡ Some queue → number ≡ number_at queue.numbers sender)) }
        ensures accepted { IfOk result (λ number. OnSome number ((queue : KeptQueue) → slice_get self.old place ≡ Some queue → self.new ≡ slice_set self.old place (accepting queue url.now sender))) }
        ensures err { OnErr result (self.new ≡ self.old) }
    {
        self.queues[place as usize].accept(url, sender)
    }

    /// Takes the URL that has waited longest in the subqueue.
    pub fn take(&mut self, place: u32) -> Option<Text>
        requires { place < length self.old }
        ensures empty { IfNone result ((queue : KeptQueue) → slice_get self.old place ≡ Some queue → queue.waiting ≡ []) }
        ensures unchanged { IfNone result (self.new ≡ self.old) }
        ensures oldest { IfSome result (λ url. (queue : KeptQueue) → slice_get self.old place ≡ Some queue → queue.waiting ≡ url ∷ drop 1 queue.waiting) }
        ensures taken { OnSome result ((queue : KeptQueue) → slice_get self.old place ≡ Some queue → self.new ≡ slice_set self.old place (record queue { waiting = drop 1 queue.waiting; busy = true })) }
    {
        self.queues[place as usize].take()
    }

    /// Marks the URL that was taken last from the subqueue as done.
    pub fn finish(&mut self, place: u32)
        requires { place < length self.old }
        ensures { (queue : KeptQueue) → slice_get self.old place ≡ Some queue → self.new ≡ slice_set self.old place (record queue { busy = false }) }
    {
        self.queues[place as usize].finish();
    }
}
