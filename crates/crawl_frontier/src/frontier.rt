//! A frontier: the gate, the queues, and a lock for each shard.
ghost use Rattle.std.specs.Prelude.{◌≡◌, ◌<◌, Some, slice_get, vec_len};
ghost use Rattle.crawl_frontier.specs.Limits.{IsWorkers};

use crate::shard::Shard;
use crawl_gate::Gate;
use crawl_keys::Filter;
use crawl_queues::{Name, Subqueue};
use std::hint;
use std::sync::{Mutex, MutexGuard, Wait};

// The number of times that a lock is tried before its thread sleeps until it is released: for some microseconds, longer than
// any thread holds it.
const TRIES: u32 = 200;

/// A URL frontier, which threads share by `&`.
///
/// It has the gate, the queues, and for each queue a shard under a lock: the list of the URLs that the queue accepted.
/// `K` identifies the frontier for the prover ([`Name`]).
///
/// ```rust
/// let (frontier, workers, mut seeder) = Frontier::<K>::new(alloc, setup, filter)?;
/// let _ = seeder.offer(rt, &frontier, seed);
/// let mut senders = Vec::new(alloc);
/// let _ = senders.push(seeder.end(&frontier));
///
/// // One thread for each worker, until nothing is left.
/// let shared = &frontier;
/// let closed = thread::map_vec(rt, workers, &|worker| crawl(rt, alloc, shared, worker))?;
/// let account = frontier.finish(closed, senders)?;
/// ```
#[derive(Drop)]
pub struct Frontier<K: Name> {
    pub(crate) gate: Gate,
    pub(crate) workers: u32,
    pub(crate) queues: Vec<Subqueue>,
    pub(crate) shards: Vec<Mutex<Shard<K>>>,
    pub(crate) filter: Filter,
    ghost gate_is: { gate ≡ K.gate },
    ghost workers_are: { workers ≡ K.workers },
    ghost queues_are: { queues.items ≡ K.queues },
    ghost some: { IsWorkers workers },
    ghost filter_is: { filter ≡ K.filter },
    ghost queues_len: { vec_len queues ≡ workers },
    ghost shards_len: { vec_len shards ≡ workers },
}

impl<K: Name> Frontier<K> {
    /// The number of workers, which is the number of queues.
    pub fn workers(&self) -> u32
        ensures { (result ≡ K.workers) × IsWorkers result }
    {
        self.workers
    }

    /// The filter that each offer applies first.
    pub fn filter(&self) -> &Filter
        ensures { result.now ≡ K.filter }
    {
        &self.filter
    }

    /// Returns the gate, of which every worker and sender of the frontier has a pass.
    pub(crate) fn gate(&self) -> &Gate
        ensures { result.now ≡ K.gate }
    {
        &self.gate
    }

    /// The queue with this index.
    pub(crate) fn subqueue(&self, queue: u32) -> &Subqueue
        requires { queue < K.workers }
        ensures { slice_get K.queues queue ≡ Some result.now }
    {
        &self.queues[queue as usize]
    }

    /// Wakes all workers that rest.
    pub(crate) fn ring_all(&self) {
        for subqueue in &self.queues {
            subqueue.ring();
        }
    }

    /// Takes the lock of a queue's shard.
    pub(crate) fn lock<R: Wait>(&self, rt: &R, queue: u32) -> MutexGuard<'_, Shard<K>>
        requires { queue < K.workers }
    {
        let shard = &self.shards[queue as usize];
        for _ in 0..TRIES {
            if let Some(guard) = shard.try_lock() {
                return guard;
            }
            hint::spin_loop();
        }
        shard.lock(rt)
    }
}
