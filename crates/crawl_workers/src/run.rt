//! The run of one worker.
ghost use Rattle.crawl_keys.specs.HostFilter.{allows};
ghost use Rattle.crawl_workers.specs.Ran.{Ran};
ghost use Rattle.crawl_workers.specs.Runs.{RanTo};

use crate::output::WorkerOutput;
use crate::turn::{Step, turn};
use crate::worker_end::WorkerEnd;
use crawl_frontier::{Frontier, Name, Worker};
use crawl_pages::SessionFetch;
use crossbeam_utils::Backoff;
use std::alloc::Global;
use std::sync::Wait;

// The number of turns in a row that find nothing before a worker sleeps. After each it spins, longer each time. Together the spins
// last some microseconds, about as long as it takes to be woken. A worker never yields its processor, because under other load that
// could take a thousand times as long.
const SPINS: u32 = 7;

/// Runs a worker until it finds the gate closed.
///
/// It fetches each URL that it takes, offers the page's links in order except those that it remembers, keeps the result, and is
/// done with the URL. After a turn that finds no URL it pauses, each time longer, and after seven such turns in a row it sleeps
/// until there may be something to do ([`Worker::rest`]). It does not end while another worker is busy, or before the seeder has
/// ended, so the frontier's other workers must run on other threads.
///
/// The worker owns its session of the source.
pub fn run_worker<K: Name, F: SessionFetch, R: Wait>(
    rt: &R,
    alloc: Global,
    frontier: &Frontier<K>,
    worker: Worker<K>,
    fetcher: &F,
) -> WorkerEnd<K>
    ensures { RanTo K.workers (allows K.filter) (F.meaning fetcher.now) worker result }
{
    let mut session = fetcher.open_session(alloc, frontier.workers());
    let mut output = WorkerOutput::new(alloc);
    let mut worker = worker;
    let backoff = Backoff::new();
    let mut spins = 0;
    for _ in rt.forever() {
        match turn(rt, frontier, worker, fetcher, &mut session, &mut output) {
            Step::Worked(next) => {
                worker = next;
                backoff.reset();
                spins = 0;
            }
            Step::Waits(next) => {
                if spins < SPINS {
                    backoff.spin();
                    spins += 1;
                } else {
                    next.rest(rt, frontier);
                }
                worker = next;
            }
            Step::Closes(closed) => return output.end(closed),
        }
    }
    unreachable!()
}
