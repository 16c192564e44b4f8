//! The machine: its state, how it begins, and one step.
ghost use Rattle.std.specs.Prelude.{◌≡◌, ◌<◌, ◌≤◌, ◌⊎◌, ◌↔◌, false, Err, IfOk, OnOk, OnErr, IsOk};
ghost use Rattle.crawl_core.specs.MemoryNeeds.{needs_memory};
ghost use Rattle.crawl_core.specs.Limits.{queue_limit};
ghost use Rattle.crawl_limits.specs.Limits.{AreLimits, worker_limit, pending_limit};
ghost use Rattle.crawl_core.specs.State.{start};
ghost use Rattle.crawl_core.specs.Shows.{Shows, Makes};
ghost use Rattle.crawl_core.specs.declared.error.CoreError.{CoreError};

use crate::error::{CoreError, NoMemory};
use crate::event::Event;
use crate::reply::Reply;
use crate::url_queues::UrlQueues;
use crate::word::Word;
use crawl_limits::{PENDING_LIMIT, WORKER_LIMIT};
use std::alloc::Global;
use std::collections::{BTreeMap, BTreeSet};
use std::marker::Model;

mod gate;
mod handing;
mod queues;

/// The greatest number of queues of a machine, 2^20. The parts of one crawl can together have more of them than one frontier.
pub const QUEUE_LIMIT: u32 = 1 << 20;

/// A frontier as a pure machine: the gate, and one subqueue for each worker.
#[derive(Drop)]
pub struct Core {
    queues: UrlQueues,
    /// The senders that hold a unit.
    holders: BTreeSet<u64>,
    /// The word that each sender read last, unless it has entered with it since.
    remembered: BTreeMap<u64, Word>,
    /// Whether the opening unit is still held.
    opening: bool,
    closed: bool,
    max: u64,
    /// The number of units that are held.
    count: u64,
}

impl Model for Core {
    ghost use Rattle.crawl_core.specs.Kept.{Kept, IsCounted};

    ghost Value = { Kept };

    ghost view = { λ c. record { gate = record { holders = c.holders.keys; remembered = c.remembered.entries; opening = c.opening; closed = c.closed; max = c.max }; queues = c.queues } };

    ghost invariant = { λ c. IsCounted (record { gate = record { holders = c.holders.keys; remembered = c.remembered.entries; opening = c.opening; closed = c.closed; max = c.max }; queues = c.queues }) c.count };
}

impl Core {
    /// Makes a frontier with this number of subqueues and this maximum of units. Only the opening unit is held.
    ///
    /// # Errors
    /// `BadWorkers`, then `BadMax`, if a number is outside its limits; `NoMemory` if an allocation fails.
    pub fn new(alloc: Global, workers: u32, max: u64) -> Result<Core, CoreError>
        ensures start { IfOk result (λ core. Shows core (start workers max)) }
        ensures limits { OnOk result (AreLimits workers max) }
        ensures bad_workers { (result ≡ Err CoreError.BadWorkers) ↔ ((workers < 1) ⊎ (worker_limit < workers)) }
        ensures bad_max { (result ≡ Err CoreError.BadMax) ↔ ((1 ≤ workers) × (workers ≤ worker_limit) × ((max < 1) ⊎ (pending_limit < max))) }
    {
        if workers > WORKER_LIMIT {
            return Err(CoreError::BadWorkers);
        }
        Core::with_queues(alloc, workers, max)
    }

    /// Makes a frontier as [`Core::new`] does, with up to [`QUEUE_LIMIT`] subqueues: those of all parts of a crawl.
    ///
    /// # Errors
    /// `BadWorkers`, then `BadMax`, if a number is outside its limits; `NoMemory` if an allocation fails.
    pub fn with_queues(alloc: Global, queues: u32, max: u64) -> Result<Core, CoreError>
        ensures start { IfOk result (λ core. Shows core (start queues max)) }
        ensures limits { OnOk result ((1 ≤ queues) × (queues ≤ queue_limit) × (1 ≤ max) × (max ≤ pending_limit)) }
        ensures bad_queues { (result ≡ Err CoreError.BadWorkers) ↔ ((queues < 1) ⊎ (queue_limit < queues)) }
        ensures bad_max { (result ≡ Err CoreError.BadMax) ↔ ((1 ≤ queues) × (queues ≤ queue_limit) × ((max < 1) ⊎ (pending_limit < max))) }
    {
        if queues < 1 || queues > QUEUE_LIMIT {
            return Err(CoreError::BadWorkers);
        }
        if max < 1 || max > PENDING_LIMIT {
            return Err(CoreError::BadMax);
        }
        Ok(Core {
            queues: UrlQueues::new(alloc, queues)?,
            holders: BTreeSet::new(alloc),
            remembered: BTreeMap::new(alloc),
            opening: true,
            closed: false,
            max,
            count: 1,
        })
    }

    /// Makes one step, and returns the reply to the event.
    ///
    /// # Errors
    /// Out of memory; the machine is then unchanged. Only `Look`, `Enter` and `Admit` need memory.
    #[tactic(auto, using(crate::proofs::Simulation::makes))]
    pub fn step(&mut self, event: &Event) -> Result<Reply, NoMemory>
        ensures step { IfOk result (λ reply. Makes self.old event.now reply self.new) }
        ensures succeeds { needs_memory event.now ≡ false → IsOk result }
        ensures err { OnErr result (self.new ≡ self.old) }
    {
        match event {
            Event::Look { sender } => self.look(*sender),
            Event::Enter { sender } => self.enter(*sender),
            Event::Admit { sender, url, queue } => self.admit(*sender, url, *queue),
            Event::Back { sender } => Ok(self.back(*sender)),
            Event::EndSeeds => Ok(self.end_seeds()),
            Event::Take { queue } => Ok(self.take(*queue)),
            Event::Done { queue } => Ok(self.done(*queue)),
            Event::Close => Ok(self.close()),
        }
    }
}
