//! Workers in turn, on the calling thread.
ghost use Rattle.std.specs.Prelude.{◌≡◌, ◌≤◌, ◌<◌, [], true, false, MatchResult, vec_capacity, vec_len, length, List, ℕ, Bool};
ghost use Rattle.crawl_pages.specs.declared.page.Page.{Page};
ghost use Rattle.crawl_keys.specs.HostFilter.{allows};
ghost use Rattle.crawl_frontier.specs.Parts.{WorkerId};
ghost use Rattle.crawl_workers.specs.Runs.{AllRan};
ghost use Rattle.crawl_workers.specs.Turn.{Goes, worker_in};
ghost use Rattle.crawl_workers.specs.Rounds.{AllGo, RunnerRan, IsEnded, EndedBelow};

use crate::error::RunError;
use crate::output::WorkerOutput;
use crate::turn::{Step, turn};
use crate::worker_end::WorkerEnd;
use crawl_frontier::{Frontier, Name, Worker};
use crawl_pages::SessionFetch;
use std::alloc::Global;
use std::mem;
use std::sync::Wait;

/// A worker with its output so far, or its end.
#[derive(Drop)]
pub(crate) enum Runner<K: Name> {
    Going(Worker<K>, WorkerOutput),
    Ended(WorkerEnd<K>),
    /// Its worker is in a turn.
    Moved,
}

// Makes a turn of the worker, unless it has ended, and returns whether it continues.
fn advance<K: Name, F: SessionFetch, R: Wait>(
    rt: &R,
    frontier: &Frontier<K>,
    runner: &mut Runner<K>,
    fetcher: &F,
    session: &mut F::Session,
) -> bool
    requires { F.is_of fetcher.now session.old }
    ensures right { F.is_of fetcher.now session.new }
    ensures ran { (start : WorkerId) → RunnerRan K.workers (allows K.filter) (F.meaning fetcher.now) start runner.old → RunnerRan K.workers (allows K.filter) (F.meaning fetcher.now) start runner.new }
    ensures ended { (start : WorkerId) → RunnerRan K.workers (allows K.filter) (F.meaning fetcher.now) start runner.old → result ≡ false → IsEnded runner.new }
{
    let before = mem::replace(runner, Runner::Moved);
    let after = next_runner(rt, frontier, before, fetcher, session);
    let continues = continues(&after);
    *runner = after;
    continues
}

// Whether the worker has not ended.
fn continues<K: Name>(runner: &Runner<K>) -> bool
    ensures { (allowed : List ℕ → Bool) (meaning : List ℕ → Page) (start : WorkerId) → RunnerRan K.workers allowed meaning start runner.now → result ≡ false → IsEnded runner.now }
{
    match runner {
        Runner::Going(_, _) => true,
        Runner::Ended(_) | Runner::Moved => false,
    }
}

// Makes a turn of the worker, unless it has ended.
fn next_runner<K: Name, F: SessionFetch, R: Wait>(
    rt: &R,
    frontier: &Frontier<K>,
    runner: Runner<K>,
    fetcher: &F,
    session: &mut F::Session,
) -> Runner<K>
    requires { F.is_of fetcher.now session.old }
    ensures right { F.is_of fetcher.now session.new }
    ensures ran { (start : WorkerId) → RunnerRan K.workers (allows K.filter) (F.meaning fetcher.now) start runner → RunnerRan K.workers (allows K.filter) (F.meaning fetcher.now) start result }
{
    match runner {
        Runner::Going(worker, mut output) => {
            let step = turn(rt, frontier, worker, fetcher, session, &mut output);
            after_step(step, output)
        }
        other => other,
    }
}

// The worker after a turn, with its output so far, or its end.
fn after_step<K: Name>(step: Step<K>, output: WorkerOutput) -> Runner<K>
    ensures { (allowed : List ℕ → Bool) (meaning : List ℕ → Page) (start : WorkerId) → Goes K.workers allowed meaning start (worker_in step) output → RunnerRan K.workers allowed meaning start result }
{
    match step {
        Step::Worked(worker) => Runner::Going(worker, output),
        Step::Waits(worker) => Runner::Going(worker, output),
        Step::Closes(closed) => Runner::Ended(output.end(closed)),
    }
}

// Makes a turn of each worker, in order, and returns whether a worker continues.
fn round<K: Name, F: SessionFetch, R: Wait>(
    rt: &R,
    frontier: &Frontier<K>,
    runners: &mut [Runner<K>],
    fetcher: &F,
    session: &mut F::Session,
) -> bool
    requires { F.is_of fetcher.now session.old }
    ensures right { F.is_of fetcher.now session.new }
    ensures ran { (starts : List WorkerId) → AllGo K.workers (allows K.filter) (F.meaning fetcher.now) starts runners.old → AllGo K.workers (allows K.filter) (F.meaning fetcher.now) starts runners.new }
    ensures ended { (starts : List WorkerId) → AllGo K.workers (allows K.filter) (F.meaning fetcher.now) starts runners.old → result ≡ false → EndedBelow (length runners.new) runners.new }
    ensures len { length runners.new ≡ length runners.old }
{
    let mut going = false;
    for i in 0..runners.len() {
        if advance(rt, frontier, &mut runners[i], fetcher, session) {
            going = true;
        }
    }
    going
}

// Makes rounds until every worker has ended.
fn rounds<K: Name, F: SessionFetch, R: Wait>(
    rt: &R,
    frontier: &Frontier<K>,
    runners: &mut [Runner<K>],
    fetcher: &F,
    session: &mut F::Session,
)
    requires { F.is_of fetcher.now session.old }
    ensures ran { (starts : List WorkerId) → AllGo K.workers (allows K.filter) (F.meaning fetcher.now) starts runners.old → AllGo K.workers (allows K.filter) (F.meaning fetcher.now) starts runners.new × EndedBelow (length runners.new) runners.new }
    ensures len { length runners.new ≡ length runners.old }
{
    for _ in rt.forever() {
        if !round(rt, frontier, runners, fetcher, session) {
            return;
        }
    }
    unreachable!()
}

// Returns the workers, in order, each with an empty output.
fn runners_of<K: Name>(
    alloc: Global,
    mut workers: Vec<Worker<K>>,
    runners: Vec<Runner<K>>,
) -> Vec<Runner<K>>
    requires room { length workers.items ≤ vec_capacity runners }
    requires none { runners.items ≡ [] }
    ensures ran { (allowed : List ℕ → Bool) (meaning : List ℕ → Page) → AllGo K.workers allowed meaning workers.items result.items }
    ensures len { length result.items ≡ length workers.items }
    ensures room { vec_capacity result ≡ vec_capacity runners }
{
    let Some(worker) = workers.pop() else {
        return runners;
    };
    let mut runners = runners_of(alloc, workers, runners);
    runners.push_reserved(Runner::Going(worker, WorkerOutput::new(alloc)));
    runners
}

// Returns their ends, in order.
fn ends_of<K: Name>(mut runners: Vec<Runner<K>>, ends: Vec<WorkerEnd<K>>) -> Vec<WorkerEnd<K>>
    requires room { length runners.items ≤ vec_capacity ends }
    requires none { ends.items ≡ [] }
    requires ended { EndedBelow (length runners.items) runners.items }
    ensures ran { (allowed : List ℕ → Bool) (meaning : List ℕ → Page) (starts : List WorkerId) → AllGo K.workers allowed meaning starts runners.items → AllRan K.workers allowed meaning starts result.items }
    ensures len { length result.items ≡ length runners.items }
    ensures room { vec_capacity result ≡ vec_capacity ends }
{
    let Some(runner) = runners.pop() else {
        return ends;
    };
    let mut ends = ends_of(runners, ends);
    match runner {
        Runner::Ended(end) => ends.push_reserved(end),
        _ => unreachable!(),
    }
    ends
}

/// Runs the workers on the calling thread, in turns, and returns their ends in the given order. They share one
/// session of the source.
///
/// Pass all workers of the frontier. If one is missing, its URLs stay in its queue, and the run does not end.
///
/// # Errors
/// `NoMemory` if there is no memory for the ends, before any URL was taken. `NoThread` is never returned.
pub fn run_turns<K: Name, F: SessionFetch, R: Wait>(
    rt: &R,
    alloc: Global,
    frontier: &Frontier<K>,
    workers: Vec<Worker<K>>,
    fetcher: &F,
) -> Result<Vec<WorkerEnd<K>>, RunError>
    ensures { MatchResult result
        (λ v. AllRan K.workers (allows K.filter) (F.meaning fetcher.now) workers.items v.items)
        (λ e. e ≡ RunError.NoMemory) }
{
    let Ok(ends) = Vec::with_capacity(alloc, workers.len()) else {
        return Err(RunError::NoMemory);
    };
    let Ok(runners) = Vec::with_capacity(alloc, workers.len()) else {
        return Err(RunError::NoMemory);
    };
    let mut runners = runners_of(alloc, workers, runners);
    let mut session = fetcher.open_session(alloc, 1);
    rounds(rt, frontier, runners.as_mut_slice(), fetcher, &mut session);
    Ok(ends_of(runners, ends))
}
