//! How many offers to each queue were answered `seen`.
ghost use Rattle.std.specs.Prelude.{◌≡◌, is_some, length, slice_get, IfOk};
ghost use Rattle.crawl_session.specs.Seen as spec;
ghost use Rattle.crawl_session.specs.declared.answer.Answer.TheVariants.{Replied};

use crawl_core::{NoMemory, Reply};
use std::alloc::{AllocError, Global};
use std::marker::Model;

/// How many offers to each queue were answered `seen`. A number goes up to 2^64 - 1.
#[derive(Drop)]
pub(crate) struct SeenCounts {
    counts: Vec<u64>,
}

impl Model for SeenCounts {
    ghost use Rattle.std.specs.Prelude.{List, ℕ};

    ghost Value = { List ℕ };

    ghost view = { λ s. s.counts.items };
}

impl SeenCounts {
    /// Creates those of that number of queues, each 0.
    ///
    /// # Errors
    /// Out of memory.
    #[tactic(auto, using(crate::proofs::SeenCounts::none_of_all))]
    pub(crate) fn new(alloc: Global, queues: u32) -> Result<SeenCounts, NoMemory>
        ensures { IfOk result (λ counts. counts ≡ spec.none_seen queues) }
    {
        let counts = vec![in alloc; 0u64; queues as usize]?;
        Ok(SeenCounts { counts })
    }

    /// Returns the number of queues.
    ///
    /// # Errors
    /// It does not fit in 32 bits.
    pub(crate) fn queues(&self) -> Result<u32, NoMemory>
        ensures { IfOk result (λ queues. queues ≡ length self.now) }
    {
        match u32::try_from(self.counts.len()) {
            Ok(queues) => Ok(queues),
            Err(_) => Err(AllocError),
        }
    }

    /// Returns the number of the queue, if there is such a queue.
    pub(crate) fn get(&self, queue: u32) -> Option<u64>
        ensures { result ≡ slice_get self.now queue }
    {
        match self.counts.get(queue as usize) {
            Some(count) => Some(*count),
            None => None,
        }
    }

    /// Counts that many more offers to the queue. Returns whether there is such a queue.
    pub(crate) fn add(&mut self, queue: u32, count: u64) -> bool
        ensures counts { self.new ≡ spec.add_seen queue count self.old }
        ensures queue { result ≡ is_some (slice_get self.old queue) }
    {
        let index = queue as usize;
        if index < self.counts.len() {
            self.counts[index] = self.counts[index].saturating_add(count);
            return true;
        }
        false
    }

    /// Counts the offer to the queue with this reply, if it is `seen`.
    pub(crate) fn note(&mut self, queue: u32, reply: &Reply)
        ensures { self.new ≡ spec.seen_with queue (Replied reply.now) self.old }
    {
        if matches!(reply, Reply::Seen) {
            let _found = self.add(queue, 1);
        }
    }
}
