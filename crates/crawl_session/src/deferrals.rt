//! The URLs that were put back, for each queue.
ghost use Rattle.std.specs.Prelude.{◌≡◌, ◌∷◌, ◌<◌, List, None, Some, get_or, length, replicate, slice_get, slice_set, if◌then◌else◌, IfOk, OnErr, option_map};
ghost use Rattle.crawl_core.specs.Handing.{Hands};
ghost use Rattle.crawl_session.specs.Frontiers.{no_deferrals, waits_again};
ghost use Rattle.crawl_session.specs.declared.deferrals.Deferred.{Deferred};

use crawl_core::{Core, NoMemory, Text};
use std::alloc::Global;
use std::collections::VecDeque;
use std::marker::Model;

/// A URL that was put back, and is not done.
#[derive(Drop)]
pub struct Deferred {
    pub url: Text,
    /// The sender that holds its unit.
    pub sender: u64,
    /// How many URLs its queue had accepted when it was put back last.
    pub after: usize,
}

/// The URLs that were put back to one queue.
#[derive(Drop)]
pub struct QueueDeferrals {
    /// Oldest first.
    waiting: VecDeque<Deferred>,
    /// The URL that the queue is busy with, if it was put back before.
    fetched: Option<Deferred>,
}

impl Model for QueueDeferrals {
    ghost use Rattle.crawl_session.specs.Frontiers.{Deferrals};

    ghost Value = { Deferrals };

    ghost view = { λ q. record { waiting = q.waiting.items; fetched = q.fetched } };
}

impl QueueDeferrals {
    /// Creates a queue to which no URL was put back.
    fn new(alloc: Global) -> QueueDeferrals
        ensures { result ≡ no_deferrals }
    {
        QueueDeferrals {
            waiting: VecDeque::new(alloc),
            fetched: None,
        }
    }

    /// The first that waits.
    fn first(&self) -> Option<&Deferred>
        ensures { option_map (λ url. url.now) result ≡ slice_get self.now.waiting 0 }
    {
        self.waiting.get(0)
    }

    /// Returns the URL that the queue is busy with, if it was put back before.
    fn fetched(&self) -> Option<&Deferred>
        ensures { option_map (λ url. url.now) result ≡ self.now.fetched }
    {
        self.fetched.as_ref()
    }

    /// How many wait.
    fn waiting(&self) -> usize
        ensures { result ≡ length self.now.waiting }
    {
        self.waiting.len()
    }

    /// Makes the queue busy with the first that waits, if there is one.
    fn retake(&mut self)
        ensures { (first : Deferred) (more : List Deferred) → self.old.waiting ≡ first ∷ more → self.new ≡ record { waiting = more; fetched = Some first } }
    {
        if let Some(first) = self.waiting.pop_front() {
            self.fetched = Some(first);
        }
    }

    /// Removes the URL that the queue is busy with.
    fn finish(&mut self)
        ensures { self.new ≡ record { waiting = self.old.waiting; fetched = None } }
    {
        self.fetched = None;
    }

    /// Moves the URL that the queue is busy with to the end, with this position.
    ///
    /// # Errors
    /// Out of memory. Nothing changes.
    fn put_back(&mut self, after: usize) -> Result<(), NoMemory>
        ensures back { IfOk result (λ _. (url : Deferred) → self.old.fetched ≡ Some url → self.new ≡ waits_again self.old (record { url = url.url; sender = url.sender; after = after })) }
        ensures err { OnErr result (self.new ≡ self.old) }
    {
        self.waiting.reserve(1)?;
        if let Some(url) = self.fetched.take() {
            self.waiting.push_back_reserved(Deferred {
                url: url.url,
                sender: url.sender,
                after,
            });
        }
        Ok(())
    }

    /// Adds the URL that the queue of the machine is busy with to the end, if its unit can be handed to its sender.
    ///
    /// # Errors
    /// Out of memory. Nothing changes.
    fn hand_over(&mut self, core: &mut Core, place: u32, url: Deferred) -> Result<bool, NoMemory>
        ensures hands { IfOk result (λ handed. Hands core.old place url.sender handed core.new) }
        ensures waits { IfOk result (λ handed. self.new ≡ (if handed then waits_again self.old url else self.old)) }
        ensures err { OnErr result (self.new ≡ self.old) }
        ensures core { OnErr result (core.new ≡ core.old) }
    {
        self.waiting.reserve(1)?;
        if !core.hand_over(place, url.sender)? {
            return Ok(false);
        }
        self.waiting.push_back_reserved(url);
        self.fetched = None;
        Ok(true)
    }
}

/// The URLs that were put back, by queue.
#[derive(Drop)]
pub struct DeferralQueues {
    queues: Vec<QueueDeferrals>,
}

impl Model for DeferralQueues {
    ghost use Rattle.std.specs.Prelude.{List};
    ghost use Rattle.crawl_session.specs.Frontiers.{Deferrals};

    ghost Value = { List Deferrals };

    ghost view = { λ s. s.queues.items };
}

impl DeferralQueues {
    /// Creates them for that number of queues.
    pub fn new(alloc: Global, workers: u32) -> Result<DeferralQueues, NoMemory>
        ensures { IfOk result (λ queues. queues ≡ replicate workers no_deferrals) }
    {
        let mut queues = Vec::with_capacity(alloc, workers as usize)?;
        for _made in 0..workers {
            queues.push(QueueDeferrals::new(alloc))?;
        }
        Ok(DeferralQueues { queues })
    }

    /// The first that waits for the queue.
    pub fn first(&self, place: u32) -> Option<&Deferred>
        ensures { option_map (λ url. url.now) result ≡ slice_get (get_or self.now place no_deferrals).waiting 0 }
    {
        match self.queues.get(place as usize) {
            Some(queue) => queue.first(),
            None => None,
        }
    }

    /// The URL that the queue is busy with, if it was put back before.
    pub fn fetched(&self, place: u32) -> Option<&Deferred>
        ensures { option_map (λ url. url.now) result ≡ (get_or self.now place no_deferrals).fetched }
    {
        match self.queues.get(place as usize) {
            Some(queue) => queue.fetched(),
            None => None,
        }
    }

    /// The sender of that one.
    pub fn sender(&self, place: u32) -> Option<u64>
        ensures { result ≡ option_map (λ url. url.sender) (get_or self.now place no_deferrals).fetched }
    {
        let url = self.fetched(place)?;
        Some(url.sender)
    }

    /// How many queues there are.
    pub fn len(&self) -> usize
        ensures { result ≡ length self.now }
    {
        self.queues.len()
    }

    /// How many wait for the queue.
    pub fn waiting(&self, place: u32) -> usize
        ensures { result ≡ length (get_or self.now place no_deferrals).waiting }
    {
        match self.queues.get(place as usize) {
            Some(queue) => queue.waiting(),
            None => 0,
        }
    }

    /// Makes the queue busy with the first that waits, if there is one.
    pub fn retake(&mut self, place: u32)
        ensures { (first : Deferred) (more : List Deferred) → (get_or self.old place no_deferrals).waiting ≡ first ∷ more → self.new ≡ slice_set self.old place (record { waiting = more; fetched = Some first }) }
    {
        let index = place as usize;
        if index < self.queues.len() {
            self.queues[index].retake();
        }
    }

    /// Removes the URL that the queue is busy with.
    pub fn finish(&mut self, place: u32)
        ensures { self.new ≡ slice_set self.old place (record { waiting = (get_or self.old place no_deferrals).waiting; fetched = None }) }
    {
        let index = place as usize;
        if index < self.queues.len() {
            self.queues[index].finish();
        }
    }

    /// Moves the URL that the queue is busy with to the end, with this position.
    ///
    /// # Errors
    /// Out of memory. Nothing changes.
    pub fn put_back(&mut self, place: u32, after: usize) -> Result<(), NoMemory>
        ensures back { IfOk result (λ _. (url : Deferred) → (get_or self.old place no_deferrals).fetched ≡ Some url → self.new ≡ slice_set self.old place (waits_again (get_or self.old place no_deferrals) (record { url = url.url; sender = url.sender; after = after }))) }
        ensures err { OnErr result (self.new ≡ self.old) }
    {
        let index = place as usize;
        if index < self.queues.len() {
            return self.queues[index].put_back(after);
        }
        Ok(())
    }

    /// Adds the URL that the queue of the machine is busy with to the end, if its unit can be handed to its sender.
    ///
    /// # Errors
    /// Out of memory. Nothing changes.
    pub fn hand_over(
        &mut self,
        core: &mut Core,
        place: u32,
        url: Deferred,
    ) -> Result<bool, NoMemory>
        ensures hands { IfOk result (λ handed. Hands core.old place url.sender handed core.new) }
        ensures waits { IfOk result (λ handed. self.new ≡ (if handed then slice_set self.old place (waits_again (get_or self.old place no_deferrals) url) else self.old)) }
        ensures err { OnErr result (self.new ≡ self.old) }
        ensures core { OnErr result (core.new ≡ core.old) }
    {
        let index = place as usize;
        if index < self.queues.len() {
            return self.queues[index].hand_over(core, place, url);
        }
        core.hand_over(place, url.sender)
    }
}
