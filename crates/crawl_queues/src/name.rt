//! What all parts of one frontier have in common.
use std::marker::Brand;

/// Identifies one frontier for the prover: its number of workers, its gate, its queues and its filter.
///
/// The prover knows what a lock protects only by its type, so the types of a frontier's parts have a parameter of this
/// trait. The trait has no calls. Write the work as a function over `K: Name` that takes a `Setup`, and call it
/// with [`std::marker::Brand`] for `K`. The caller's `proofs/` then say what `Brand` means there.
///
/// ```rust
/// fn crawl_by<K: Name + Send + Sync, R: Threads + Wait + Sync>(
///     rt: &R,
///     alloc: Global,
///     setup: Setup,
///     filter: &Filter,
///     seed: &CanonUrl,
/// ) -> Option<Result<Account, FinishError>>
///     requires gate { setup.gate ≡ K.gate }
///     requires workers { setup.workers ≡ K.workers }
///     requires queues { setup.queues ≡ K.queues }
///     requires filter { filter.now ≡ K.filter }
/// {
///     match Frontier::<K>::new(alloc, setup, filter) {
///         Ok((frontier, workers, seeder)) => crawl_from(rt, alloc, frontier, workers, seeder, seed),
///         Err(_) => None,
///     }
/// }
/// ```
pub trait Name {
    ghost use Rattle.std.specs.Prelude.{ℕ, List};
    ghost use Rattle.crawl_gate.specs.Seat.{GateId};
    ghost use Rattle.crawl_queues.specs.QueueId.{QueueId};

    ghost workers: { ℕ };

    ghost gate: { GateId };

    ghost queues: { List QueueId };

    ghost filter: { List (List ℕ) };
}

impl Name for Brand {
    ghost use Rattle.std.specs.Prelude.{[]};
    ghost use Rattle.crawl_gate.specs.Seat.{no_gate};

    ghost workers = { 0 };

    ghost gate = { no_gate };

    ghost queues = { [] };

    ghost filter = { [] };
}
