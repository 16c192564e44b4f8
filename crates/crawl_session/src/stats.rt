//! How many URLs a queue, or all queues, accepted, how far these are, and how many offers were answered `seen`.
ghost use Rattle.std.specs.Prelude.{◌≡◌, ◌+◌, Some, IfOk};
ghost use Rattle.crawl_core.specs.Flags as flags;
ghost use Rattle.crawl_session.specs.Stats as spec;

use crawl_core::{NoMemory, Progress};
use std::alloc::AllocError;
use std::fmt;

/// How many URLs were accepted, how many of these are done, in progress, and waiting, and how many offers were answered `seen`.
#[derive(Clone, Copy, Debug, PartialEq, Eq)]
pub struct Stats {
    pub accepted: u64,
    pub done: u64,
    pub in_progress: u64,
    pub waiting: u64,
    /// How many of those that are waiting were put back.
    pub put_back: u64,
    /// How many offers were answered `seen`, up to 2^64 - 1.
    pub seen: u64,
}

impl Stats {
    /// Those of no queue.
    pub fn none() -> Stats
        ensures { result ≡ spec.no_stats }
    {
        Stats {
            accepted: 0,
            done: 0,
            in_progress: 0,
            waiting: 0,
            put_back: 0,
            seen: 0,
        }
    }

    /// Those of a queue with this state, in which `put_back` URLs wait that were put back. It may be busy with such a URL. The given
    /// number of offers to it were answered `seen`.
    ///
    /// # Errors
    /// A number is too large.
    pub fn of_queue(
        progress: Progress,
        put_back: usize,
        is_busy: bool,
        seen: u64,
    ) -> Result<Stats, NoMemory>
        ensures { IfOk result (λ stats. stats ≡ spec.stats_of progress put_back is_busy seen) }
    {
        let accepted = progress.accepted as u64;
        let in_progress = one_if(progress.busy) + one_if(is_busy);
        let waiting = waiting_of(progress, put_back)?;
        let unfinished = sum(in_progress, waiting)?;
        Ok(Stats {
            accepted,
            done: accepted.saturating_sub(unfinished),
            in_progress,
            waiting,
            put_back: put_back as u64,
            seen,
        })
    }

    /// Those of the queues of both.
    ///
    /// # Errors
    /// A number is too large.
    pub fn plus(&self, other: &Stats) -> Result<Stats, NoMemory>
        ensures { IfOk result (λ stats. stats ≡ spec.plus self.now other.now) }
    {
        Ok(Stats {
            accepted: sum(self.accepted, other.accepted)?,
            done: sum(self.done, other.done)?,
            in_progress: sum(self.in_progress, other.in_progress)?,
            waiting: sum(self.waiting, other.waiting)?,
            put_back: sum(self.put_back, other.put_back)?,
            seen: self.seen.saturating_add(other.seen),
        })
    }
}

impl fmt::Display for Stats {
    ghost output = { λ stats. Some (spec.stats_text stats) };

    fn fmt<W: fmt::Write>(&self, f: &mut fmt::Formatter<W>) -> fmt::Result {
        let accepted = self.accepted;
        let done = self.done;
        let rest = Unfinished(self);
        let seen = self.seen;
        write!(f, "stats accepted {accepted} done {done}{rest} seen {seen}")
    }
}

/// The numbers of the URLs that are not done.
#[derive(Clone, Copy)]
struct Unfinished<'a>(&'a Stats);

impl fmt::Display for Unfinished<'_> {
    ghost output = { λ stats. Some (spec.unfinished_text stats.0.now) };

    fn fmt<W: fmt::Write>(&self, f: &mut fmt::Formatter<W>) -> fmt::Result {
        let in_progress = self.0.in_progress;
        let waiting = self.0.waiting;
        let put_back = self.0.put_back;
        write!(
            f,
            " in-progress {in_progress} waiting {waiting} put-back {put_back}"
        )
    }
}

/// Returns how many URLs of a queue with this state wait: those that it has not given out, and those that were put back.
///
/// # Errors
/// The number is too large.
pub(crate) fn waiting_of(progress: Progress, put_back: usize) -> Result<u64, NoMemory>
    ensures { IfOk result (λ count. count ≡ spec.waiting_of progress put_back) }
{
    let left = progress.accepted.saturating_sub(progress.taken);
    sum(left as u64, put_back as u64)
}

/// Adds two numbers. A sum above 64 bits is reported as out of memory.
fn sum(a: u64, b: u64) -> Result<u64, NoMemory>
    ensures { IfOk result (λ n. n ≡ a + b) }
{
    match a.checked_add(b) {
        Some(n) => Ok(n),
        None => Err(AllocError),
    }
}

/// Returns 1 if the flag is set, or else 0.
fn one_if(flag: bool) -> u64
    ensures { result ≡ flags.one_if flag }
{
    if flag { 1 } else { 0 }
}
