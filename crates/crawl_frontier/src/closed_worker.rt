//! A worker that has found the gate closed.
ghost use Rattle.std.specs.Prelude.{◌≡◌, ◌<◌, Some, slice_get};
ghost use Rattle.crawl_queues.specs.Books.{IsBook, Knows, book_of};
ghost use Rattle.crawl_queues.specs.Rule.{popping, home};

use crawl_gate::ClosedPass;
use crawl_queues::{Book, Name, PopRight};
use std::marker::{Model, PhantomData};

/// A worker that knows that every accepted URL is done, and that no more will be accepted.
///
/// [`crate::Worker::next`] makes it, and [`crate::Frontier::finish`] takes it. In contracts it is what the worker was.
#[derive(Drop)]
pub struct ClosedWorker<K: Name> {
    pub(crate) queue: u32,
    pub(crate) right: PopRight,
    pub(crate) pass: ClosedPass,
    pub(crate) book: Book,
    pub(crate) of: PhantomData<K>,
}

impl<K: Name> Model for ClosedWorker<K> {
    ghost use Rattle.std.specs.Prelude.{◌≡◌, ◌<◌, true, Some, slice_get};
    ghost use Rattle.crawl_gate.specs.View.{knows_closed};
    ghost use Rattle.crawl_gate.specs.Seat.{IsSeatOf};
    ghost use Rattle.crawl_queues.specs.Books.{IsBook, Knows, book_of};
    ghost use Rattle.crawl_frontier.specs.Parts.{WorkerId};
    ghost use Rattle.crawl_queues.specs.Rule.{popping, home};

    ghost Value = { WorkerId };

    ghost view = { λ w. record { queue = w.queue; seat = w.pass; taken = w.right.view.taken; empty_pops = w.right.view.empty_pops; book = book_of w.book } };

    ghost invariant = { λ w.
        (w.right.view ≡ popping (home K.gate K.workers w.queue) w.right.view.taken w.right.view.empty_pops)
        × (slice_get K.queues w.queue ≡ Some w.right.subqueue)
        × IsSeatOf K.gate w.pass × (w.queue < K.workers) × IsBook K.workers (book_of w.book)
        × (knows_closed w.pass.view ≡ true) × Knows K.queues K.workers w.book };
}

impl<K: Name> ClosedWorker<K> {
    /// The worker's queue.
    pub fn queue(&self) -> u32
        ensures { (result ≡ self.now.queue) × (result < K.workers) }
    {
        self.queue
    }

    /// The right to pop, and the books.
    pub(crate) fn into_parts(self) -> (PopRight, Book)
        ensures right { (result.0.view ≡ popping (home K.gate K.workers self.queue) self.taken self.empty_pops) × (slice_get K.queues self.queue ≡ Some result.0.subqueue) }
        ensures book { book_of result.1 ≡ self.book }
        ensures is_book { IsBook K.workers (book_of result.1) }
        ensures known { Knows K.queues K.workers result.1 }
    {
        let ClosedWorker {
            queue: _,
            right,
            pass: _,
            book,
            of: _,
        } = self;
        (right, book)
    }
}
