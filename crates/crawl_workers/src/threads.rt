//! A thread for each worker.
ghost use Rattle.std.specs.Prelude.{◌≡◌, ◌≤◌, ◌<◌, ◌++◌, ◌∷◌, [], true, false, IfOk, IfErr, IfSome, MatchResult, vec_capacity, vec_len, length};
ghost use Rattle.std.specs.Thread.{IsSend, IsSync};
ghost use Rattle.crawl_keys.specs.HostFilter.{allows};
ghost use Rattle.crawl_workers.specs.Runs.{RanTo, AllRan};

use crate::error::RunError;
use crate::run::run_worker;
use crate::worker_end::WorkerEnd;
use crawl_frontier::{Frontier, Name, Worker};
use crawl_pages::SessionFetch;
use std::alloc::Global;
use std::snapshot::Snapshot;
use std::sync::{OnceLock, Wait};
use std::thread;
use std::thread::{Promise, Threads};

// The promise of a thread: the end of its worker, or none if the run was given up.
#[derive(Drop)]
struct EndOf<'a, K: Name, F: SessionFetch> {
    worker: Snapshot<Worker<K>>,
    fetcher: &'a F,
}

impl<'a, K: Name, F: SessionFetch> Promise<Option<WorkerEnd<K>>> for EndOf<'a, K, F> {
    ghost use Rattle.std.specs.Prelude.{IfSome};
    ghost use Rattle.crawl_keys.specs.HostFilter.{allows};
    ghost use Rattle.crawl_workers.specs.Runs.{RanTo};

    ghost kept_by = { λ p r. IfSome r (λ e. RanTo K.workers (allows K.filter) (F.meaning p.fetcher.now) p.worker.value e) };
}

// Runs the worker after all threads were started, or drops it if one could not be started.
fn run_after<K: Name, F: SessionFetch, R: Wait>(
    rt: &R,
    alloc: Global,
    frontier: &Frontier<K>,
    worker: Worker<K>,
    fetcher: &F,
    started: &OnceLock<bool>,
) -> Option<WorkerEnd<K>>
    ensures { IfSome result (λ e. RanTo K.workers (allows K.filter) (F.meaning fetcher.now) worker e) }
{
    if !*started.wait(rt) {
        return None;
    }
    Some(run_worker(rt, alloc, frontier, worker, fetcher))
}

// Starts a thread for the last worker, then for those before it. Then it signals to all threads whether all were started, and
// joins them. So the ends are in the order of the workers, and each level joins the one thread that it started.
fn run_all<K: Name + Send + Sync, F: SessionFetch + Sync, R: Threads + Wait + Sync>(
    rt: &R,
    frontier: &Frontier<K>,
    mut workers: Vec<Worker<K>>,
    fetcher: &F,
    started: &OnceLock<bool>,
    ends: Vec<WorkerEnd<K>>,
) -> Result<Vec<WorkerEnd<K>>, RunError>
    requires room { length workers.items ≤ vec_capacity ends }
    requires none { ends.items ≡ [] }
    ensures ran { IfOk result (λ v. AllRan K.workers (allows K.filter) (F.meaning fetcher.now) workers.items v.items) }
    ensures error { IfErr result (λ e. e ≡ RunError.NoThread) }
    ensures room { IfOk result (λ v. vec_capacity v ≡ vec_capacity ends) }
{
    let Some(worker) = workers.pop() else {
        let _ = started.set(rt, true);
        return Ok(ends);
    };
    let alloc = *ends.allocator();
    thread::scope(
        thread::scope_env(),
        rt,
        move |scope| -> Result<Vec<WorkerEnd<K>>, RunError>
            requires send { IsSend K.row × IsSync K.row × IsSync F.row × IsSync R.row }
            requires room { length workers.items < vec_capacity ends }
            requires none { ends.items ≡ [] }
            ensures ran { IfOk result (λ v. AllRan K.workers (allows K.filter) (F.meaning fetcher.entry.now) (workers.items ++ worker ∷ []) v.items) }
            ensures error { IfErr result (λ e. e ≡ RunError.NoThread) }
            ensures room { IfOk result (λ v. vec_capacity v ≡ vec_capacity ends) }
        {
            let promise = EndOf {
                worker: Snapshot::of(&worker),
                fetcher,
            };
            let job = move || run_after(rt, alloc, frontier, worker, fetcher, started);
            let Ok(child) = scope.spawn_with(promise, job) else {
                let _ = started.set(rt, false);
                return Err(RunError::NoThread);
            };
            let others = run_all(rt, frontier, workers, fetcher, started, ends);
            let end = child.join(rt);
            let mut ends = others?;
            // A thread gives up only if another could not be started, and then `others` is an error.
            let Some(end) = end else {
                return Err(RunError::NoThread);
            };
            ends.push_reserved(end);
            Ok(ends)
        },
    )
}

// Returns an empty list with room for `count` ends.
fn room_for<K: Name>(alloc: Global, count: usize) -> Result<Vec<WorkerEnd<K>>, RunError>
    ensures { MatchResult result (λ v. (v.items ≡ []) × (count ≤ vec_capacity v)) (λ e. e ≡ RunError.NoMemory) }
{
    let Ok(ends) = Vec::with_capacity(alloc, count) else {
        return Err(RunError::NoMemory);
    };
    Ok(ends)
}

/// Runs each worker in its own thread, and returns their ends in the given order. No worker takes a URL before all threads are
/// started. Each worker owns its session of the source.
///
/// Pass all workers of the frontier. If one is missing, its URLs stay in its queue, and the run does not end.
///
/// # Errors
/// `NoMemory` if there is no memory for the ends, and `NoThread` if a thread could not be started. The threads that were
/// started then end.
pub fn run_threads<K: Name + Send + Sync, F: SessionFetch + Sync, R: Threads + Wait + Sync>(
    rt: &R,
    alloc: Global,
    frontier: &Frontier<K>,
    workers: Vec<Worker<K>>,
    fetcher: &F,
) -> Result<Vec<WorkerEnd<K>>, RunError>
    ensures { IfOk result (λ v. AllRan K.workers (allows K.filter) (F.meaning fetcher.now) workers.items v.items) }
{
    let ends = room_for(alloc, workers.len())?;
    let started = OnceLock::new();
    run_all(rt, frontier, workers, fetcher, &started, ends)
}
