//! Senders that offer URLs and workers that take them, each in a thread of its own.
use crawl_frontier::{Frontier, Name, Offer, Seeder, Sender, Turn, Worker};
use crawl_keys::CanonUrl;
use std::alloc::Global;
use std::sync::Wait;
use std::sync::atomic::{AtomicU64, Ordering};
use std::thread::{self, Threads, yield_now};

/// How often each URL is offered, whether all are then taken, and what became of them.
#[derive(Drop)]
pub struct Tally {
    pub rounds: u32,
    pub takes: bool,
    pub accepted: AtomicU64,
    pub seen: AtomicU64,
    pub taken: AtomicU64,
}

impl Tally {
    pub fn new(rounds: u32, takes: bool) -> Tally {
        Tally {
            rounds,
            takes,
            accepted: AtomicU64::new(0),
            seen: AtomicU64::new(0),
            taken: AtomicU64::new(0),
        }
    }
}

/// A sender for each worker. If an allocation fails, there are fewer.
fn senders<K: Name>(
    alloc: Global,
    frontier: &Frontier<K>,
    seeder: &mut Seeder<K>,
) -> Vec<Sender<K>> {
    let mut senders = Vec::new(alloc);
    for id in 0..frontier.workers() {
        if let Ok(sender) = seeder.another(alloc, frontier, 1000 + u64::from(id)) {
            let _ = senders.push(sender);
        }
    }
    senders
}

/// Offers all URLs in rounds, by a thread for each worker.
pub fn offer<K: Name + Send + Sync, R: Threads + Wait + Sync>(
    rt: &R,
    alloc: Global,
    frontier: &Frontier<K>,
    seeder: &mut Seeder<K>,
    urls: &[CanonUrl],
    tally: &Tally,
) {
    let mut senders = senders(alloc, frontier, seeder);
    let size = urls.len().div_ceil(frontier.workers() as usize);
    thread::for_each_mut(
        rt,
        &mut senders,
        frontier.workers() as usize,
        &|index, sender| { offer_part(rt, frontier, sender, part_at(urls, size, index), tally) },
    );
}

/// The URLs of the sender at this index.
fn part_at(urls: &[CanonUrl], size: usize, index: usize) -> &[CanonUrl] {
    let first = index.saturating_mul(size);
    let end = first.saturating_add(size).min(urls.len());
    urls.get(first..end).unwrap_or(&[])
}

fn offer_part<K: Name, R: Wait>(
    rt: &R,
    frontier: &Frontier<K>,
    sender: &mut Sender<K>,
    urls: &[CanonUrl],
    tally: &Tally,
) {
    let (mut accepted, mut seen) = (0u64, 0u64);
    for _ in 0..tally.rounds {
        for url in urls {
            match sender.offer(rt, frontier, url) {
                Ok(Offer::Accepted { .. }) => accepted = accepted.saturating_add(1),
                Ok(Offer::Seen) => seen = seen.saturating_add(1),
                Err(_) => {}
            }
        }
    }
    tally.accepted.fetch_add(accepted, Ordering::SeqCst);
    tally.seen.fetch_add(seen, Ordering::SeqCst);
}

/// Takes all URLs, by a thread for each worker.
pub fn take<K: Name + Send + Sync, R: Threads + Wait + Sync>(
    rt: &R,
    frontier: &Frontier<K>,
    workers: Vec<Worker<K>>,
    tally: &Tally,
) -> bool {
    thread::map_vec(rt, workers, &|worker| take_own(rt, frontier, worker, tally)).is_ok()
}

fn take_own<K: Name, R: Wait>(
    rt: &R,
    frontier: &Frontier<K>,
    mut worker: Worker<K>,
    tally: &Tally,
) {
    let mut taken = 0u64;
    for _ in rt.forever() {
        match worker.next(rt, frontier) {
            Turn::Busy(busy) => {
                taken = taken.saturating_add(1);
                worker = busy.done(frontier);
            }
            Turn::Idle(idle, _) => {
                yield_now();
                worker = idle;
            }
            Turn::Closed(_) => {
                tally.taken.fetch_add(taken, Ordering::SeqCst);
                return;
            }
        }
    }
    unreachable!()
}
