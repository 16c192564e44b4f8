//! Whole runs.
ghost use Rattle.std.specs.Prelude.{◌≡◌, ◌<◌, ◌≤◌, ◌⊎◌, ◌↔◌, Err, IfOk, OnOk};
ghost use Rattle.crawl_limits.specs.Limits.{AreLimits, worker_limit, pending_limit};
ghost use Rattle.crawl_core.specs.Run.{IsRun};
ghost use Rattle.crawl_core.specs.declared.error.CoreError.{CoreError};

use crate::error::CoreError;
use crate::event::Event;
use crate::machine::Core;
use crate::reply::Reply;
use std::alloc::Global;

/// Returns a new frontier's replies to these events, one for each.
///
/// # Errors
/// Those of [`Core::new`], and `NoMemory` if memory runs out in a step or for a reply.
pub fn run(alloc: Global, workers: u32, max: u64, events: &[Event]) -> Result<Vec<Reply>, CoreError>
    ensures run { IfOk result (λ replies. IsRun workers max events.now replies.items) }
    ensures limits { OnOk result (AreLimits workers max) }
    ensures bad_workers { (result ≡ Err CoreError.BadWorkers) ↔ ((workers < 1) ⊎ (worker_limit < workers)) }
    ensures bad_max { (result ≡ Err CoreError.BadMax) ↔ ((1 ≤ workers) × (workers ≤ worker_limit) × ((max < 1) ⊎ (pending_limit < max))) }
{
    let mut core = Core::new(alloc, workers, max)?;
    let mut replies = Vec::new(alloc);
    for event in events {
        replies.push(core.step(event)?)?;
    }
    Ok(replies)
}
