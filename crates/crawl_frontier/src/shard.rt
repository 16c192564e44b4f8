//! The shard of a queue: what the queue's lock protects.
ghost use Rattle.std.specs.Prelude.{◌≡◌, ◌⊎◌, ◌<◌, ◌≤◌, ◌^◌, [], ℕ, IfOk, IfSome, IsSome, Some, length, slice_get, vec_capacity, vec_len};
ghost use Rattle.std.specs.BTreeMap.{get};
ghost use Rattle.std.specs.Ordering.{nat_cmp};
ghost use Rattle.crawl_keys.specs.Assignment.{subqueue_of};
ghost use Rattle.crawl_gate.specs.Seat.{IsSeatOf};
ghost use Rattle.crawl_queues.specs.Entries.{KeepsRule, count_of, entry};
ghost use Rattle.crawl_frontier.specs.Admits.{Admits};
ghost use Rattle.crawl_queues.specs.Growing.{Stays};
ghost use Rattle.crawl_queues.specs.Known.{begins_with};
ghost use Rattle.crawl_frontier.specs.Limits.{hops_limit};
ghost use Rattle.crawl_frontier.specs.Parts.{shard};
ghost use Rattle.crawl_queues.specs.Rule.{pushing, home};
ghost use Rattle.crawl_frontier.specs.Tables.{count_in};

use crate::accepted::AcceptedList;
use crate::tables::{Counts, count, enter_sender, raise};
use crawl_gate::Unit;
use crawl_keys::{CanonUrl, KeyError};
use crawl_queues::{Beginning, Entry, Message, Name, PushRight, Subqueue};
use hash_index::HashIndex;
use std::alloc::Global;
use std::marker::{Model, PhantomData};
use std::sync::Wait;

/// The list of the URLs that a queue accepted, oldest first, with their index, each sender's count, and the right to push.
///
/// In contracts it is its queue and the list. Whenever its lock is free, the index and the counts agree with the list.
#[derive(Drop)]
pub struct Shard<K: Name> {
    queue: u32,
    sent: Vec<Entry>,
    index: HashIndex,
    counts: Counts,
    right: PushRight,
    of: PhantomData<K>,
}

impl<K: Name> Model for Shard<K> {
    ghost use Rattle.std.specs.Prelude.{◌≡◌, ◌<◌, ◌^◌, ℕ, List, [], Some, length, slice_get, map};
    ghost use Rattle.hash_order.specs.HashOrder.{hash_of};
    ghost use Rattle.hash_index.specs.Index.{IsIndexOf};
    ghost use Rattle.crawl_frontier.specs.Parts.{ShardId};
    ghost use Rattle.crawl_queues.specs.Rule.{pushing, home};
    ghost use Rattle.crawl_queues.specs.Entries.{KeepsRule, count_of};
    ghost use Rattle.crawl_frontier.specs.Tables.{count_in};

    ghost Value = { ShardId };

    ghost view = { λ s. record { queue = s.queue; sent = s.sent.items } };

    ghost invariant = { λ s.
        (s.right.view ≡ pushing (home K.gate K.workers s.queue) s.sent.items)
        × (slice_get K.queues s.queue ≡ Some s.right.subqueue)
        × KeepsRule K.workers s.queue [] s.sent.items
        × IsIndexOf hash_of (map (λ e. e.url) s.sent.items) s.index
        × ((id : ℕ) → count_in s.counts id ≡ count_of id s.sent.items)
        × (length s.sent.items < 2 ^ 32) };
}

/// The greatest number of hops of a URL, 2^32 - 1: the greatest value of [`crate::Entry::hops`].
pub const HOPS_LIMIT: u64 = 4_294_967_295;

// The greatest number of entries of a queue, so that an index fits into a log line.
const ENTRIES_LIMIT: usize = 4_294_967_295;

/// The result of [`Shard::admit`]. It returns the unit if the URL was not added.
#[derive(Drop)]
pub enum Admit {
    /// The URL was added to the end of the queue, after `number` URLs of the same sender and `index` URLs in all.
    Admitted {
        number: u64,
        index: u32,
    },
    /// The shard's count of the sender is `found`, which differs from the sender's own count.
    Crossed {
        found: u64,
        unit: Unit,
    },
    /// The URL was accepted before, and is at this index. `url` is a copy of it that shares the shard's text.
    Seen {
        url: CanonUrl,
        index: u32,
        unit: Unit,
    },
    /// The hops are above [`HOPS_LIMIT`].
    TooFar {
        unit: Unit,
    },
    /// An allocation failed, or the queue has accepted 2^31 URLs.
    NoMemory {
        unit: Unit,
    },
}

/// A URL that is offered to its shard.
#[derive(Clone, Copy)]
pub struct Offered<'a> {
    /// The URL.
    pub url: &'a CanonUrl,
    /// The sender's id.
    pub id: u64,
    /// The number of the sender's URLs that this queue accepted before, by the sender's own count.
    pub own: u64,
    /// The URL's hops.
    pub hops: u64,
}

// The result if the entry at this index has the URL.
fn seen(there: &Entry, index: u32, unit: Unit) -> Admit
    ensures { (result ≡ Admit.Seen there.now.url index unit) ⊎ (result ≡ Admit.NoMemory unit) }
{
    match there.url.copy() {
        Ok(url) => Admit::Seen { url, index, unit },
        Err(_) => Admit::NoMemory { unit },
    }
}

// The index of the next entry, unless the list is as long as an index can count.
fn next_index(sent: &Vec<Entry>) -> Option<u32>
    ensures { IfSome result (λ index. (index ≡ length sent.now.items) × (index < 4294967295)) }
{
    let count = sent.len();
    if count >= ENTRIES_LIMIT {
        return None;
    }
    Some(count as u32)
}

// Makes room for one more entry, of this sender, and returns the index that it will have.
fn make_room(sent: &mut Vec<Entry>, counts: &mut Counts, id: u64, own: u64) -> Option<u32>
    requires { count_in counts.old id ≡ own }
    ensures sent { sent.new.items ≡ sent.old.items }
    ensures counts { (s : ℕ) → count_in counts.new s ≡ count_in counts.old s }
    ensures index { IfSome result (λ index. (index ≡ length sent.old.items) × (index < 4294967295)) }
    ensures room { IfSome result (λ _. vec_len sent.new < vec_capacity sent.new) }
    ensures there { IfSome result (λ _. IsSome (get nat_cmp counts.new id)) }
{
    let index = next_index(sent)?;
    let Ok(()) = sent.reserve(1) else {
        return None;
    };
    let Ok(()) = enter_sender(counts, id, own) else {
        return None;
    };
    Some(index)
}

// What a push needs: the entry of the message, and that of the list.
fn copies(offered: &Offered<'_>) -> Result<(Entry, Entry), KeyError>
    requires { offered.now.hops ≤ hops_limit }
    ensures { IfOk result (λ r. (r.0 ≡ entry offered.now.url.now offered.now.id offered.now.own offered.now.hops) × (r.1 ≡ entry offered.now.url.now offered.now.id offered.now.own offered.now.hops)) }
{
    let Offered { url, id, own, hops } = *offered;
    let sent = Entry::of_copy(url, id, own, hops as u32)?;
    let listed = Entry::of_copy(url, id, own, hops as u32)?;
    Ok((sent, listed))
}

impl<K: Name> Shard<K> {
    /// Creates the shard of a queue that has accepted nothing. The call allocates nothing.
    pub(crate) fn new(alloc: Global, queue: u32, right: PushRight) -> Shard<K>
        requires view { right.view ≡ pushing (home K.gate K.workers queue) [] }
        requires subqueue { slice_get K.queues queue ≡ Some right.subqueue }
        ensures { result ≡ shard queue [] }
    {
        Shard {
            queue,
            sent: Vec::new(alloc),
            index: HashIndex::new(alloc),
            counts: Counts::new(alloc),
            right,
            of: PhantomData,
        }
    }

    /// The list, and the right to push.
    pub(crate) fn into_parts(self) -> (AcceptedList, PushRight)
        ensures sent { result.0 ≡ self.sent }
        ensures rule { KeepsRule K.workers self.queue [] self.sent }
        ensures right { (result.1.view ≡ pushing (home K.gate K.workers self.queue) self.sent) × (slice_get K.queues self.queue ≡ Some result.1.subqueue) }
    {
        let Shard {
            queue: _,
            sent,
            index,
            counts,
            right,
            of: _,
        } = self;
        (AcceptedList::new(sent, index, counts), right)
    }

    /// Copies the hashes of the URLs from the index `from` on, as far as there is room, and returns how many.
    pub(crate) fn hashes(&self, from: usize, hashes: &mut [u64]) -> usize {
        let waiting = self.sent.get(from..).unwrap_or(&[]);
        for (hash, entry) in hashes.iter_mut().zip(waiting) {
            *hash = entry.url.text_hash();
        }
        waiting.len().min(hashes.len())
    }

    /// The queue that the shard belongs to.
    pub fn queue(&self) -> u32
        ensures { result ≡ self.now.queue }
    {
        self.queue
    }

    /// Adds the URL to the end of the queue, with its unit, unless it is there already.
    ///
    /// The checks are, in this order: the sender's count (`Crossed`), the URL (`Seen`), the hops (`TooFar`). `NoMemory` can
    /// replace any other result. Only `Admitted` changes the list and keeps the unit. The call may wait, since a push may.
    pub fn admit<R: Wait>(
        &mut self,
        rt: &R,
        subqueue: &Subqueue,
        offered: &Offered<'_>,
        unit: Unit,
    ) -> Admit
        requires queue { subqueue_of offered.now.url.now K.workers ≡ self.old.queue }
        requires subqueue { slice_get K.queues self.old.queue ≡ Some subqueue.now }
        requires unit { IsSeatOf K.gate unit }
        ensures { Admits self.old self.new offered.now.url.now offered.now.id offered.now.own offered.now.hops unit result }
    {
        let found = count(&self.counts, offered.id);
        if found != offered.own {
            return Admit::Crossed { found, unit };
        }
        if offered.hops <= HOPS_LIMIT {
            return self.send(rt, subqueue, offered, unit);
        }
        let known = self.index.find(&self.sent, offered.url);
        if let Some(index) = known {
            return seen(&self.sent[index], index as u32, unit);
        }
        Admit::TooFar { unit }
    }

    /// Extends the beginning to the list as it is now, which still has all its entries.
    pub(crate) fn extend_known(&mut self, subqueue: &Subqueue, learned: &mut Beginning)
        requires subqueue { slice_get K.queues self.old.queue ≡ Some subqueue.now }
        requires learned { learned.old.list ≡ subqueue.now.list }
        ensures same { self.new ≡ self.old }
        ensures learned { learned.new ≡ begins_with subqueue.now.list self.old.sent }
        ensures stays { Stays learned.old.items learned.new.items }
    {
        subqueue.extend_known(&mut self.right, learned);
    }

    // Adds the URL, unless it is there: one search finds it, or gives it the list's next index. All allocations come before the
    // push. If one fails after the search, there is no entry at that index.
    fn send<R: Wait>(
        &mut self,
        rt: &R,
        subqueue: &Subqueue,
        offered: &Offered<'_>,
        unit: Unit,
    ) -> Admit
        requires queue { subqueue_of offered.now.url.now K.workers ≡ self.old.queue }
        requires subqueue { slice_get K.queues self.old.queue ≡ Some subqueue.now }
        requires unit { IsSeatOf K.gate unit }
        requires own { count_of offered.now.id self.old.sent ≡ offered.now.own }
        requires near { offered.now.hops ≤ hops_limit }
        ensures { Admits self.old self.new offered.now.url.now offered.now.id offered.now.own offered.now.hops unit result }
    {
        let Ok(found) = self.index.find_or_insert(&self.sent, offered.url) else {
            return Admit::NoMemory { unit };
        };
        if let Some(index) = found {
            return seen(&self.sent[index], index as u32, unit);
        }
        let Offered { id, own, .. } = *offered;
        let Some(index) = make_room(&mut self.sent, &mut self.counts, id, own) else {
            return Admit::NoMemory { unit };
        };
        let Ok((sent, listed)) = copies(offered) else {
            return Admit::NoMemory { unit };
        };
        let message = Message { entry: sent, unit };
        match subqueue.push(rt, &mut self.right, message, &listed) {
            Ok(()) => {
                raise(&mut self.counts, id, own + 1);
                self.sent.push_reserved(listed);
                Admit::Admitted { number: own, index }
            }
            Err(message) => Admit::NoMemory { unit: message.unit },
        }
    }
}
