//! Each queue's list, and whether its worker took all of it.
ghost use Rattle.std.specs.Prelude.{◌≡◌, ◌<◌, ◌≤◌, ℕ, [], true, false, None, Some, IfOk, is_some, length, slice_get, vec_len};
ghost use Rattle.std.specs.Ordering.{nat_cmp};
ghost use Rattle.std.specs.BTreeMap.{get};
ghost use Rattle.crawl_frontier.specs.declared.finish.settle.Doubt.{Doubt};
ghost use Rattle.crawl_queues.specs.PassId.{PassId};
ghost use Rattle.crawl_frontier.specs.Accounts.{At};
ghost use Rattle.crawl_frontier.specs.Finishing.{Settles, SettlesLast, AllSettle, RightsOf};

use crate::accepted::AcceptedList;
use crate::shard::Shard;
use crawl_queues::{Held, Name, PopRight, Subqueue};
use std::alloc::{AllocError, Global};
use std::collections::BTreeMap;
use std::sync::Mutex;

/// Why a queue is in doubt.
#[derive(Drop)]
pub enum Doubt {
    /// Its lock holds the shard of this other queue.
    Elsewhere(u32),
    /// Its worker was not seen to have taken all that was sent.
    Holds(Held),
}

/// Returns `queue` if it is less than `least` and not good, and otherwise `least`.
pub fn least_of(is_good: bool, queue: u32, least: u32) -> u32
    ensures below { result ≤ least }
    ensures good { queue < result → is_good ≡ true }
    ensures named { result < least → (result ≡ queue) × (is_good ≡ false) }
{
    if !is_good && queue < least {
        queue
    } else {
        least
    }
}

/// Whether each queue has its right to pop.
pub fn all_there(rights: &BTreeMap<u32, PopRight>, workers: u32) -> bool
    ensures all { result ≡ true → (q : ℕ) → q < workers → is_some (get nat_cmp rights.now q) ≡ true }
    ensures missing { result ≡ false → (q : ℕ) × (q < workers) × (is_some (get nat_cmp rights.now q) ≡ false) }
{
    for queue in 0..workers {
        if !rights.contains_key(&queue) {
            return false;
        }
    }
    true
}

/// The shards, taken out of their locks, last first.
pub fn unlock<K: Name>(
    alloc: Global,
    mut locks: Vec<Mutex<Shard<K>>>,
) -> Result<Vec<Shard<K>>, AllocError>
    ensures { IfOk result (λ v. vec_len v ≡ vec_len locks) }
{
    let mut shards = Vec::new(alloc);
    while let Some(lock) = locks.pop() {
        shards.push(lock.into_inner())?;
    }
    Ok(shards)
}

// The list of a shard, and why the queue whose lock held it is in doubt, if it is.
fn settle<K: Name>(
    subqueue: &Subqueue,
    shard: Shard<K>,
    queue: u32,
    right: PopRight,
) -> (AcceptedList, Option<Doubt>)
    requires subqueue { slice_get K.queues queue ≡ Some subqueue.now }
    requires right { slice_get K.queues queue ≡ Some right.subqueue }
    ensures { Settles K.workers K.queues queue shard right result.0 result.1 }
{
    let found = shard.queue();
    let (list, push) = shard.into_parts();
    if found != queue {
        return (list, Some(Doubt::Elsewhere(found)));
    }
    match subqueue.held(push, right) {
        Some(held) => (list, Some(Doubt::Holds(held))),
        None => (list, None),
    }
}

// The last of the shards, settled with the right to pop of this queue.
#[tactic(auto, using(crate::proofs::Settling::removed))]
fn settle_last<K: Name>(
    subqueue: &Subqueue,
    shards: &mut Vec<Shard<K>>,
    rights: &mut BTreeMap<u32, PopRight>,
    queue: u32,
) -> (AcceptedList, Option<Doubt>)
    requires subqueue { slice_get K.queues queue ≡ Some subqueue.now }
    requires some { 0 < length shards.old.items }
    requires right { (p : PassId) → get nat_cmp rights.old queue ≡ Some p → slice_get K.queues queue ≡ Some p.subqueue }
    requires there { is_some (get nat_cmp rights.old queue) ≡ true }
    ensures last { SettlesLast K.workers K.queues queue shards.old.items shards.new.items rights.old result.0 result.1 }
    ensures others { (q : ℕ) → queue < q → get nat_cmp rights.new q ≡ get nat_cmp rights.old q }
{
    let Some(right) = rights.remove(&queue) else {
        unreachable!()
    };
    let Some(shard) = shards.pop() else {
        unreachable!()
    };
    settle(subqueue, shard, queue, right)
}

/// The lists by queue, and for each queue why it is in doubt, if it is. The shards are passed last first.
pub fn settle_all<K: Name>(
    alloc: Global,
    queues: &Vec<Subqueue>,
    mut shards: Vec<Shard<K>>,
    mut rights: BTreeMap<u32, PopRight>,
) -> Result<(Vec<AcceptedList>, Vec<Option<Doubt>>), AllocError>
    requires queues { (queues.now.items ≡ K.queues) × (vec_len queues.now ≡ K.workers) × (K.workers < 4294967296) }
    requires shards { vec_len shards ≡ K.workers }
    requires rights { RightsOf K.queues rights }
    requires there { (q : ℕ) → q < K.workers → is_some (get nat_cmp rights q) ≡ true }
    ensures { IfOk result (λ r. (vec_len r.0 ≡ K.workers) × (vec_len r.1 ≡ K.workers) × AllSettle K.workers K.queues shards.items rights r.0.items r.1.items) }
{
    let count = queues.len();
    let mut lists = Vec::with_capacity(alloc, count)?;
    let mut doubts = Vec::with_capacity(alloc, count)?;
    for queue in 0..count as u32 {
        let subqueue = &queues[queue as usize];
        let (list, doubt) = settle_last(subqueue, &mut shards, &mut rights, queue);
        lists.push_reserved(list);
        doubts.push_reserved(doubt);
    }
    Ok((lists, doubts))
}

// Whether the queue is in doubt.
fn is_in_doubt(doubts: &[Option<Doubt>], queue: u32) -> bool
    requires { queue < length doubts.now }
    ensures yes { result ≡ true → (why : Doubt) × At doubts.now queue (Some why) }
    ensures no { result ≡ false → At doubts.now queue None }
{
    match &doubts[queue as usize] {
        Some(_) => true,
        None => false,
    }
}

/// The first queue that is in doubt, or `least` if that is less.
pub fn first_doubt(doubts: &[Option<Doubt>], least: u32) -> u32
    requires { least ≤ length doubts.now }
    ensures below { result ≤ least }
    ensures none { (q : ℕ) → q < result → At doubts.now q None }
    ensures named { result < least → (why : Doubt) × At doubts.now result (Some why) }
{
    for queue in 0..least {
        if is_in_doubt(doubts, queue) {
            return queue;
        }
    }
    least
}
