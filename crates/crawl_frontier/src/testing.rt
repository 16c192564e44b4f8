//! Calls for tests only.
ghost use Rattle.std.specs.Prelude.{◌≡◌, IfSome};
ghost use Rattle.crawl_gate.specs.Seat.{IsSeatOf};
ghost use Rattle.crawl_keys.specs.Assignment.{subqueue_of};

use crate::laws::{Admit, Offered};
use crate::{Frontier, Name, Worker};
use crawl_gate::{Enter, Pass, Unit};
use crawl_keys::CanonUrl;
use std::sync::Wait;

// The worker's pass of the gate.
fn pass_of<K: Name>(worker: Worker<K>) -> Pass
    ensures { IsSeatOf K.gate result }
{
    let Worker {
        queue: _,
        right: _,
        pass,
        book: _,
        of: _,
    } = worker;
    pass
}

// The unit that a pass takes, if the gate lets it enter.
fn unit_of<K: Name, R: Wait>(rt: &R, frontier: &Frontier<K>, pass: Pass) -> Option<Unit>
    requires { IsSeatOf K.gate pass }
    ensures { IfSome result (λ unit. IsSeatOf K.gate unit) }
{
    match frontier.gate().enter(rt, pass) {
        Enter::Entered(unit) => Some(unit),
        _ => None,
    }
}

// Admits a URL of queue 0, with a unit.
fn admit_by<K: Name, R: Wait>(
    rt: &R,
    frontier: &Frontier<K>,
    unit: Unit,
    url: &CanonUrl,
    own: u64,
    hops: u64,
) -> Option<Admit>
    requires unit { IsSeatOf K.gate unit }
    requires queue { subqueue_of url.now K.workers ≡ 0 }
{
    let subqueue = frontier.subqueue(0);
    let mut shard = frontier.lock(rt, 0);
    if shard.queue() != 0 {
        return None;
    }
    let offered = Offered {
        url,
        id: 9,
        own,
        hops,
    };
    Some(shard.admit(rt, subqueue, &offered, unit))
}

/// Admits a URL to queue 0 with any number of hops, which no offer can reach. The sender is 9, with `own` URLs accepted
/// before, and the worker's pass takes the unit.
///
/// It returns `None` if the URL belongs to another queue, if the gate is closed or full, or if queue 0's lock holds
/// another shard.
pub fn admit<K: Name, R: Wait>(
    rt: &R,
    frontier: &Frontier<K>,
    worker: Worker<K>,
    url: &CanonUrl,
    own: u64,
    hops: u64,
) -> Option<Admit> {
    let pass = pass_of(worker);
    if url.subqueue(frontier.workers()) != 0 {
        return None;
    }
    let unit = unit_of(rt, frontier, pass)?;
    admit_by(rt, frontier, unit, url, own, hops)
}
