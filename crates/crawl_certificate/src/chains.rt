//! Guesses the entry to which a link leads, from the order in which the workers offered links.

use crawl_frontier::{Account, Entry};
use crawl_keys::{CanonUrl, hash};
use std::alloc::{AllocError, Global};
use std::mem;

/// An index that no entry has.
const NONE: usize = usize::MAX;

/// With at most this number of workers, the hash of a link is compared with those of the next entries of the worker's chains. With
/// more, the link's queue is computed from its host.
const FEW: u32 = 8;

/// For each worker and subqueue, the entries that the worker sent there, in order: its chain. No result of a certificate depends on
/// it.
#[derive(Drop)]
pub struct Chains {
    workers: u32,
    /// For each worker and subqueue, the index of the first entry of its chain, among all entries.
    firsts: Vec<usize>,
    /// For each entry, the index of the next one of its chain.
    nexts: Vec<usize>,
}

/// The position of a walk over results in the chains of their workers.
#[derive(Drop)]
pub struct Heads<'c> {
    chains: &'c Chains,
    entries: &'c [&'c Entry],
    /// For each worker and subqueue, the index of the first entry of the chain that was not passed.
    heads: Vec<usize>,
    /// The hash of that entry's URL, or 0 if there is none. The list is empty if there are many workers.
    hashes: Vec<u64>,
}

impl Chains {
    /// Computes the chains of an account with `count` entries.
    pub fn of(alloc: Global, account: &Account, count: usize) -> Result<Chains, AllocError> {
        let workers = account.workers();
        let pairs = (workers as usize).saturating_mul(workers as usize);
        let mut chains = Chains {
            workers,
            firsts: vec![in alloc; NONE; pairs]?,
            nexts: vec![in alloc; NONE; count]?,
        };
        let mut first: usize = 0;
        for queue in 0..workers {
            let entries = account.queue(queue);
            chains.add(queue, first, entries);
            first = first.saturating_add(entries.len());
        }
        Ok(chains)
    }

    // Adds the entries of a subqueue. The first of them has index `first` among all.
    fn add(&mut self, queue: u32, first: usize, entries: &[Entry]) {
        for later in 0..entries.len() {
            let place = entries.len() - 1 - later;
            self.put(entries[place].sender, queue, first.saturating_add(place));
        }
    }

    // Puts an entry at the front of its worker's chain. Entries of the seeder are in no chain.
    fn put(&mut self, sender: u64, queue: u32, index: usize) {
        let pair = self.pair(sender, queue);
        let Some(head) = self.firsts.get_mut(pair) else {
            return;
        };
        if let Some(next) = self.nexts.get_mut(index) {
            *next = mem::replace(head, index);
        }
    }

    /// Returns the index of a worker and a queue in a list with an item for each such pair. A sender that is no worker has an index
    /// after the end of the list.
    fn pair(&self, worker: u64, queue: u32) -> usize {
        (worker as usize)
            .saturating_mul(self.workers as usize)
            .saturating_add(queue as usize)
    }
}

impl<'c> Heads<'c> {
    /// Returns the position before any entry was passed.
    pub fn of(
        alloc: Global,
        chains: &'c Chains,
        entries: &'c [&'c Entry],
    ) -> Result<Heads<'c>, AllocError> {
        let heads = chains.firsts.clone()?;
        let mut hashes = Vec::new(alloc);
        if chains.workers <= FEW {
            for index in &heads {
                hashes.push(hash_at(entries, *index))?;
            }
        }
        Ok(Heads {
            chains,
            entries,
            heads,
            hashes,
        })
    }

    /// Returns the subqueue of the URL.
    pub fn queue_of(&self, url: &CanonUrl) -> u32 {
        let workers = self.chains.workers;
        if workers < 2 {
            return 0;
        }
        hash(url.host_key()) % workers
    }

    /// Returns the pair of the worker and a subqueue whose next entry may have the URL, if there is one.
    pub fn pair_with(&self, worker: u32, url: &CanonUrl) -> Option<usize> {
        let worker = u64::from(worker);
        if self.hashes.is_empty() {
            return Some(self.chains.pair(worker, self.queue_of(url)));
        }
        let hash = url.text_hash();
        for queue in 0..self.chains.workers {
            let pair = self.chains.pair(worker, queue);
            if self.hashes.get(pair) == Some(&hash) {
                return Some(pair);
            }
        }
        None
    }

    /// Returns the index of the pair's next entry, or one that no entry has.
    pub fn head(&self, pair: usize) -> usize {
        at(&self.heads, pair)
    }

    /// Passes the pair's next entry.
    pub fn pass(&mut self, pair: usize) {
        let next = at(&self.chains.nexts, at(&self.heads, pair));
        if let Some(head) = self.heads.get_mut(pair) {
            *head = next;
        }
        if let Some(hash) = self.hashes.get_mut(pair) {
            *hash = hash_at(self.entries, next);
        }
    }
}

// The hash of the URL of the entry at the index, or 0 if there is no entry.
fn hash_at(entries: &[&Entry], index: usize) -> u64 {
    match entries.get(index) {
        Some(entry) => entry.url.text_hash(),
        None => 0,
    }
}

// The number at the index, or an index that no entry has.
fn at(indices: &[usize], index: usize) -> usize {
    match indices.get(index) {
        Some(found) => *found,
        None => NONE,
    }
}
