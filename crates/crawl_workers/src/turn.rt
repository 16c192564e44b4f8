//! One turn of a worker: it takes a URL, fetches it, offers its links, and is done.
ghost use Rattle.crawl_keys.specs.HostFilter.{allows};
ghost use Rattle.crawl_frontier.specs.Parts.{WorkerId};
ghost use Rattle.link_offers.specs.Recent.{Knows};
ghost use Rattle.crawl_workers.specs.Turn.{Goes, UrlOutcome, worker_in};

use crate::output::WorkerOutput;
use crawl_frontier::{BusyWorker, ClosedWorker, Frontier, Name, Turn, Worker};
use crawl_pages::SessionFetch;
use link_offers::Loss;
use std::sync::Wait;

/// What a worker did in a turn.
#[derive(Drop)]
pub(crate) enum Step<K: Name> {
    /// It took a URL.
    Worked(Worker<K>),
    /// It found no URL, and the gate was open.
    Waits(Worker<K>),
    /// It found the gate closed.
    Closes(ClosedWorker<K>),
}

// Fetches the URL, offers the links of its page, and keeps the result.
fn work<K: Name, F: SessionFetch, R: Wait>(
    rt: &R,
    frontier: &Frontier<K>,
    busy: &mut BusyWorker<K>,
    fetcher: &F,
    session: &mut F::Session,
    output: &mut WorkerOutput,
)
    requires { F.is_of fetcher.now session.old }
    ensures right { F.is_of fetcher.now session.new }
    ensures outcome { Knows K.workers busy.old.worker.book.log output.old.offers.recent → UrlOutcome K.workers (allows K.filter) (F.meaning fetcher.now) busy.old busy.new output.old output.new }
{
    let Ok(page) = fetcher.fetch_in(output.offers.alloc, session, busy.url()) else {
        output.offers.losses.count(Loss::Failed);
        return;
    };
    let page = output.offers.offer_page(rt, frontier, busy, page);
    output.keep(busy.url(), page);
}

/// A turn of a worker. It looks ahead first, if it is time to. A URL that is lost is still done, so that the gate can close.
pub(crate) fn turn<K: Name, F: SessionFetch, R: Wait>(
    rt: &R,
    frontier: &Frontier<K>,
    worker: Worker<K>,
    fetcher: &F,
    session: &mut F::Session,
    output: &mut WorkerOutput,
) -> Step<K>
    requires { F.is_of fetcher.now session.old }
    ensures right { F.is_of fetcher.now session.new }
    // This is true of every worker with which the run may have begun.
    ensures goes { (start : WorkerId) → Goes K.workers (allows K.filter) (F.meaning fetcher.now) start worker output.old → Goes K.workers (allows K.filter) (F.meaning fetcher.now) start (worker_in result) output.new }
{
    let taken = output.results.len();
    output.ahead.look(rt, frontier, &worker, fetcher, taken);
    take(rt, frontier, worker, fetcher, session, output)
}

// The turn itself.
fn take<K: Name, F: SessionFetch, R: Wait>(
    rt: &R,
    frontier: &Frontier<K>,
    worker: Worker<K>,
    fetcher: &F,
    session: &mut F::Session,
    output: &mut WorkerOutput,
) -> Step<K>
    requires { F.is_of fetcher.now session.old }
    ensures right { F.is_of fetcher.now session.new }
    ensures goes { (start : WorkerId) → Goes K.workers (allows K.filter) (F.meaning fetcher.now) start worker output.old → Goes K.workers (allows K.filter) (F.meaning fetcher.now) start (worker_in result) output.new }
{
    match worker.next(rt, frontier) {
        Turn::Busy(mut busy) => {
            work(rt, frontier, &mut busy, fetcher, session, output);
            Step::Worked(busy.done(frontier))
        }
        Turn::Idle(worker, _) => Step::Waits(worker),
        Turn::Closed(closed) => Step::Closes(closed),
    }
}
