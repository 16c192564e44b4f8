//! Runs from their seeds to their accounts, so that a row is data.
ghost use Rattle.std.specs.Prelude.{◌≡◌};

use crate::tests::results::urls_of;
use crawl_frontier::{Account, ClosedWorker, Frontier, Name, Seeder, Sender, Setup, Worker};
use crawl_keys::Filter;
use crawl_pages::{PageResult, SessionFetch};
use crawl_workers::{WorkerEnd, run_threads, run_turns, run_worker};
use std::alloc::Global;
use std::marker::Brand;
use std::sync::Wait;
use std::thread::{self, Threads};

/// The call that runs the workers.
#[derive(Clone, Copy)]
pub enum How {
    Turns,
    Threads,
    /// `run_worker` for each of them, each in a thread of its own if there are several.
    Each,
}

/// The settings of a run, and its seeds.
#[derive(Clone, Copy)]
pub struct Run {
    pub workers: u32,
    pub max_pending: u64,
    pub within: &'static [&'static str],
    pub seeds: &'static [&'static str],
    pub how: How,
}

/// What a run left: its account, the results of all workers in the order of their queues, and how many URLs they lost.
#[derive(Drop)]
pub struct Left {
    pub account: Account,
    pub results: Vec<PageResult>,
    pub lost: u64,
}

impl Run {
    /// Runs the workers of a new frontier with this source. Returns nothing if their ends are not in the order of the queues, or if there
    /// is no account.
    pub fn left<F: SessionFetch + Sync, R: Threads + Wait + Sync>(
        self,
        rt: &R,
        alloc: Global,
        source: &F,
    ) -> Option<Left> {
        let filter = Filter::new(alloc, self.within).ok()?;
        let setup = Setup::new(alloc, self.workers, self.max_pending).ok()?;
        left_by::<Brand, F, R>(rt, alloc, setup, &filter, self, source)
    }
}

fn left_by<K: Name + Send + Sync, F: SessionFetch + Sync, R: Threads + Wait + Sync>(
    rt: &R,
    alloc: Global,
    setup: Setup,
    filter: &Filter,
    run: Run,
    source: &F,
) -> Option<Left>
    requires gate { setup.gate ≡ K.gate }
    requires workers { setup.workers ≡ K.workers }
    requires queues { setup.queues ≡ K.queues }
    requires filter { filter.now ≡ K.filter }
{
    let (frontier, workers, seeder) = Frontier::<K>::new(alloc, setup, filter).ok()?;
    let sender = seeded(rt, alloc, &frontier, seeder, run.seeds);
    let ends = ends_of(rt, alloc, &frontier, workers, run.how, source);
    finished(alloc, frontier, sender, ends)
}

// Offers the seeds.
fn seeded<K: Name, R: Wait>(
    rt: &R,
    alloc: Global,
    frontier: &Frontier<K>,
    mut seeder: Seeder<K>,
    seeds: &[&str],
) -> Sender<K> {
    for url in urls_of(alloc, seeds).as_slice() {
        let _ = seeder.offer(rt, frontier, url);
    }
    seeder.end(frontier)
}

// The ends of all workers, or none if the call fails.
fn ends_of<K: Name + Send + Sync, F: SessionFetch + Sync, R: Threads + Wait + Sync>(
    rt: &R,
    alloc: Global,
    frontier: &Frontier<K>,
    workers: Vec<Worker<K>>,
    how: How,
    source: &F,
) -> Vec<WorkerEnd<K>> {
    let ends = match how {
        How::Turns => run_turns(rt, alloc, frontier, workers, source),
        How::Threads => run_threads(rt, alloc, frontier, workers, source),
        How::Each => return each(rt, alloc, frontier, workers, source),
    };
    ends.unwrap_or(Vec::new(alloc))
}

fn each<K: Name + Send + Sync, F: SessionFetch + Sync, R: Threads + Wait + Sync>(
    rt: &R,
    alloc: Global,
    frontier: &Frontier<K>,
    workers: Vec<Worker<K>>,
    source: &F,
) -> Vec<WorkerEnd<K>> {
    let run = |worker| run_worker(rt, alloc, frontier, worker, source);
    thread::map_vec(rt, workers, &run).unwrap_or(Vec::new(alloc))
}

// The account of the run, with what all workers found.
fn finished<K: Name>(
    alloc: Global,
    frontier: Frontier<K>,
    sender: Sender<K>,
    ends: Vec<WorkerEnd<K>>,
) -> Option<Left> {
    let mut closed = Vec::new(alloc);
    let mut results = Vec::new(alloc);
    let lost = gather(ends, &mut closed, &mut results);
    let account = account_of(alloc, frontier, closed, sender)?;
    let lost = lost?;
    Some(Left {
        account,
        results,
        lost,
    })
}

fn account_of<K: Name>(
    alloc: Global,
    frontier: Frontier<K>,
    closed: Vec<ClosedWorker<K>>,
    sender: Sender<K>,
) -> Option<Account> {
    let mut senders = Vec::new(alloc);
    let _ = senders.push(sender);
    frontier.finish(closed, senders).ok()
}

// Takes the ends apart, if they are in the order of the queues, and returns how many URLs were lost.
fn gather<K: Name>(
    ends: Vec<WorkerEnd<K>>,
    closed: &mut Vec<ClosedWorker<K>>,
    results: &mut Vec<PageResult>,
) -> Option<u64> {
    let (mut lost, mut in_order) = (0u64, true);
    for end in ends {
        in_order = in_order && end.closed.queue() as usize == closed.len();
        lost = lost.saturating_add(end.lost);
        push_end(end, closed, results);
    }
    in_order.then_some(lost)
}

fn push_end<K: Name>(
    end: WorkerEnd<K>,
    closed: &mut Vec<ClosedWorker<K>>,
    results: &mut Vec<PageResult>,
) {
    let WorkerEnd {
        closed: worker,
        results: mut found,
        lost: _,
        losses: _,
    } = end;
    let _ = results.append(&mut found);
    let _ = closed.push(worker);
}
