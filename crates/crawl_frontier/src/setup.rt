//! A gate and its queues, before a [`crate::Name`] identifies them.
ghost use Rattle.std.specs.Prelude.{◌≡◌, IfOk, MatchResult, vec_len};
ghost use Rattle.crawl_gate.specs.GateError.{IsMaximum};
ghost use Rattle.crawl_frontier.specs.Limits.{IsWorkers};
ghost use Rattle.crawl_frontier.specs.FrontierErrors.{NoSetup};
ghost use Rattle.crawl_frontier.specs.FreshParts.{Line};
ghost use Rattle.crawl_queues.specs.Logs.{ListsAre};

use crate::error::FrontierError;
use crawl_gate::{Gate, GateError, Unit};
use crawl_keys::SUBQUEUES_LIMIT;
use crawl_queues::{Beginning, PopRight, PushRight, Subqueue};
use std::alloc::{AllocError, Global};
use std::collections::VecDeque;
use std::marker::Model;

/// The greatest number of workers, 512: a host key can be assigned to that many queues.
pub const WORKERS_LIMIT: u32 = SUBQUEUES_LIMIT;

/// A gate, and a queue for each worker. [`crate::Frontier::new`] makes a frontier of them.
///
/// In contracts it is the number of workers, the gate, and the queues in order. The [`crate::Name`] of the frontier must
/// have the same.
///
/// ```rust
/// // Two workers, and at most 100 URLs that are not done.
/// let setup = Setup::new(alloc, 2, 100)?;
/// ```
#[derive(Drop)]
pub struct Setup {
    pub(crate) gate: Gate,
    pub(crate) opening: Unit,
    pub(crate) workers: u32,
    pub(crate) queues: Vec<Subqueue>,
    pub(crate) push_rights: VecDeque<PushRight>,
    pub(crate) pop_rights: VecDeque<PopRight>,
    pub(crate) learned: Vec<Beginning>,
}

impl Model for Setup {
    ghost use Rattle.crawl_gate.specs.Seat.{IsSeatOf};
    ghost use Rattle.crawl_gate.specs.View.{opening_view};
    ghost use Rattle.std.specs.Prelude.{◌≡◌, vec_len};
    ghost use Rattle.crawl_frontier.specs.Limits.{IsWorkers};
    ghost use Rattle.crawl_frontier.specs.SetupId.{SetupId};
    ghost use Rattle.crawl_frontier.specs.FreshParts.{Line};
    ghost use Rattle.crawl_queues.specs.Logs.{ListsAre};

    ghost Value = { SetupId };

    ghost view = { λ s. record { workers = s.workers; gate = s.gate; queues = s.queues.items } };

    ghost invariant = { λ s.
        IsSeatOf s.gate s.opening × (s.opening.view ≡ opening_view s.gate.max_pending) × IsWorkers s.workers
        × Line s.gate s.workers s.queues.items s.push_rights.items s.pop_rights.items s.workers
        × (vec_len s.learned ≡ s.workers) × ListsAre s.queues.items s.learned.items };
}

type Made = (
    Vec<Subqueue>,
    VecDeque<PushRight>,
    VecDeque<PopRight>,
    Vec<Beginning>,
);

// The queues with their rights, in order, and the beginning of the list of each.
fn subqueues(alloc: Global, gate: &Gate, workers: u32) -> Result<Made, AllocError>
    ensures { IfOk result (λ r.
        Line gate.now workers r.0.items r.1.items r.2.items workers × (vec_len r.3 ≡ workers) × ListsAre r.0.items r.3.items) }
{
    let count = workers as usize;
    let mut queues = Vec::with_capacity(alloc, count)?;
    let mut push_rights = VecDeque::with_capacity(alloc, count)?;
    let mut pop_rights = VecDeque::with_capacity(alloc, count)?;
    let mut learned = Vec::with_capacity(alloc, count)?;
    for queue in 0..workers {
        let (subqueue, push, pop, begins) = Subqueue::new(alloc, gate, workers, queue)?;
        queues.push_reserved(subqueue);
        push_rights.push_back_reserved(push);
        pop_rights.push_back_reserved(pop);
        learned.push_reserved(begins);
    }
    Ok((queues, push_rights, pop_rights, learned))
}

impl Setup {
    /// A gate for at most `max_pending` URLs, and a queue for each of `workers` workers.
    ///
    /// A URL counts from its offer until it is done, and the seeding phase counts as one. The errors are `BadWorkers`
    /// unless there are 1 to [`WORKERS_LIMIT`] workers, then `BadLimit` unless the maximum is from 1 to 2^40
    /// ([`crawl_gate::MAX_PENDING_LIMIT`]), and `NoMemory` if an allocation fails.
    pub fn new(alloc: Global, workers: u32, max_pending: u64) -> Result<Setup, FrontierError>
        ensures { MatchResult result
            (λ s. IsWorkers workers × IsMaximum max_pending × (s.workers ≡ workers) × (s.gate.max_pending ≡ max_pending))
            (λ e. NoSetup workers max_pending e) }
    {
        if workers == 0 || workers > WORKERS_LIMIT {
            return Err(FrontierError::BadWorkers);
        }
        let (gate, opening) = match Gate::new(alloc, max_pending) {
            Ok(made) => made,
            Err(GateError::BadLimit) => return Err(FrontierError::BadLimit),
            Err(GateError::NoMemory) => return Err(FrontierError::NoMemory),
        };
        let Ok((queues, push_rights, pop_rights, learned)) = subqueues(alloc, &gate, workers) else {
            return Err(FrontierError::NoMemory);
        };
        Ok(Setup {
            gate,
            opening,
            workers,
            queues,
            push_rights,
            pop_rights,
            learned,
        })
    }
}
