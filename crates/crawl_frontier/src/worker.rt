//! An idle worker, and the results of its turns.
ghost use Rattle.std.specs.Prelude.{◌≡◌, ◌<◌, [], Some, slice_get};
ghost use Rattle.crawl_gate.specs.Seat.{IsSeatOf};
ghost use Rattle.crawl_queues.specs.Books.{IsBook, Knows, book_of};
ghost use Rattle.crawl_frontier.specs.Turns.{Turns};
ghost use Rattle.crawl_frontier.specs.Parts.{worker};
ghost use Rattle.crawl_queues.specs.Rule.{popping, home};

use crate::busy_worker::BusyWorker;
use crate::closed_worker::ClosedWorker;
use crate::frontier::Frontier;
use crawl_gate::{Close, Pass};
use crawl_queues::{Book, Name, PopRight};
use std::marker::{Model, PhantomData};
use std::sync::Wait;
use std::time::Duration;

// A bell ends a sleep whenever there is something to do: after a push, and when the gate may close. The limit is only a
// safety net. With 512 resting workers, some 10,000 sleeps a second end by it, which takes a few hundredths of one processor.
const REST_MILLISECONDS: u64 = 50;

/// The only worker of a queue, when it has no URL. [`Frontier::new`] makes one for each queue, and [`BusyWorker::done`]
/// returns it.
///
/// [`Worker::next`] takes a URL. The example in the crate's documentation is a worker's whole loop.
///
/// In contracts it is its queue, its pass of the gate, the list of the URLs that it took, the number of its pops that found
/// nothing, and its books.
#[derive(Drop)]
pub struct Worker<K: Name> {
    pub(crate) queue: u32,
    pub(crate) right: PopRight,
    pub(crate) pass: Pass,
    pub(crate) book: Book,
    pub(crate) of: PhantomData<K>,
}

impl<K: Name> Model for Worker<K> {
    ghost use Rattle.std.specs.Prelude.{◌≡◌, ◌<◌, Some, slice_get};
    ghost use Rattle.crawl_gate.specs.Seat.{IsSeatOf};
    ghost use Rattle.crawl_queues.specs.Books.{IsBook, Knows, book_of};
    ghost use Rattle.crawl_frontier.specs.Parts.{WorkerId};
    ghost use Rattle.crawl_queues.specs.Rule.{popping, home};

    ghost Value = { WorkerId };

    ghost view = { λ w. record { queue = w.queue; seat = w.pass; taken = w.right.view.taken; empty_pops = w.right.view.empty_pops; book = book_of w.book } };

    ghost invariant = { λ w.
        (w.right.view ≡ popping (home K.gate K.workers w.queue) w.right.view.taken w.right.view.empty_pops)
        × (slice_get K.queues w.queue ≡ Some w.right.subqueue)
        × IsSeatOf K.gate w.pass × (w.queue < K.workers) × IsBook K.workers (book_of w.book)
        × Knows K.queues K.workers w.book };
}

/// The result of [`Worker::next`].
#[derive(Drop)]
pub enum Turn<K: Name> {
    /// The worker took a URL.
    Busy(BusyWorker<K>),
    /// The queue was empty, and the gate open with this many units held, at least 1. More URLs may come.
    Idle(Worker<K>, u64),
    /// The queue was empty, and the gate closed. Every accepted URL is done, and no more will be accepted.
    Closed(ClosedWorker<K>),
}

impl<K: Name> Worker<K> {
    /// Creates the worker of a queue, which has taken no URL yet.
    pub(crate) fn new(queue: u32, right: PopRight, pass: Pass, book: Book) -> Worker<K>
        requires view { right.view ≡ popping (home K.gate K.workers queue) [] 0 }
        requires subqueue { slice_get K.queues queue ≡ Some right.subqueue }
        requires pass { IsSeatOf K.gate pass }
        requires queue { queue < K.workers }
        requires book { IsBook K.workers (book_of book) }
        requires known { Knows K.queues K.workers book }
        ensures { result ≡ worker queue pass [] 0 (book_of book) }
    {
        Worker {
            queue,
            right,
            pass,
            book,
            of: PhantomData,
        }
    }

    /// The worker's queue, from 0. This is also its id as a sender.
    pub fn queue(&self) -> u32
        ensures { result ≡ self.now.queue }
    {
        self.queue
    }

    /// Copies the hashes of the URLs that its queue accepted after the first `taken`, oldest first, and returns how many.
    ///
    /// It fills `hashes`, if there are enough of them. A worker that has taken `taken` URLs takes these next, so it can prepare
    /// for them. The call takes the queue's lock. No contract depends on it.
    pub fn look_ahead<R: Wait>(
        &self,
        rt: &R,
        frontier: &Frontier<K>,
        taken: usize,
        hashes: &mut [u64],
    ) -> usize {
        let shard = frontier.lock(rt, self.queue);
        shard.hashes(taken, hashes)
    }

    /// Rests after an idle turn, until a URL is accepted for this worker, or the last unit of the gate is given back.
    ///
    /// Call it after each [`Turn::Idle`]. The first call returns immediately, so that the worker looks once more by
    /// [`Worker::next`]. If that finds nothing either, the next call may wait for some microseconds, and each call after it
    /// sleeps for at most 50 ms. A call may return early for no reason.
    pub fn rest<R: Wait>(&self, rt: &R, frontier: &Frontier<K>) {
        self.rest_for(rt, frontier, Duration::from_millis(REST_MILLISECONDS));
    }

    /// Rests like [`Worker::rest`], but sleeps for at most `limit`.
    pub fn rest_for<R: Wait>(&self, rt: &R, frontier: &Frontier<K>, limit: Duration) {
        frontier.subqueue(self.queue).rest(rt, limit);
    }

    /// Takes the oldest URL that waits in its queue, or else tries to close the gate.
    ///
    /// It takes no lock and allocates nothing. It may wait for a push into the same queue that has begun.
    pub fn next<R: Wait>(self, rt: &R, frontier: &Frontier<K>) -> Turn<K>
        ensures { Turns K.workers self result }
    {
        let Worker {
            queue,
            mut right,
            pass,
            book,
            of,
        } = self;
        let gate = frontier.gate();
        match frontier.subqueue(queue).pop(rt, &mut right) {
            Some(mut message) => {
                gate.load_held(&mut message.unit);
                Turn::Busy(BusyWorker {
                    queue,
                    right,
                    pass,
                    book,
                    message,
                    of,
                })
            }
            None => match gate.try_close(pass) {
                Close::Closed(pass) => Turn::Closed(ClosedWorker {
                    queue,
                    right,
                    pass,
                    book,
                    of,
                }),
                Close::Pending(pass, count) => {
                    let worker = Worker {
                        queue,
                        right,
                        pass,
                        book,
                        of,
                    };
                    Turn::Idle(worker, count)
                }
            },
        }
    }
}
