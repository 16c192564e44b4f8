//! The results of an offer, and what an offer does after it has entered the gate.
ghost use Rattle.std.specs.Prelude.{◌≡◌, ◌↔◌, ◌<◌, false, IfSome};
ghost use Rattle.crawl_keys.specs.Assignment.{subqueue_of};
ghost use Rattle.crawl_keys.specs.HostFilter.{allows};
ghost use Rattle.crawl_gate.specs.Seat.{IsSeatOf};
ghost use Rattle.crawl_queues.specs.Logs.{lists_of};
ghost use Rattle.crawl_queues.specs.Books.{IsBook, HasRoom, Knows, book_of};
ghost use Rattle.crawl_frontier.specs.Offers.{Replies, IsKnown, OfferBooks, OfferWordsHolding, Delivers, IsFiltered};
ghost use Rattle.crawl_frontier.specs.Units.{GaveBack};

use crate::error::OfferError;
use crate::frontier::Frontier;
use crate::shard::{Admit, Offered};
use crawl_gate::{Enter, Pass, Unit};
use crawl_keys::CanonUrl;
use crawl_queues::{Book, Name};
use std::mem;
use std::sync::Wait;

/// The result of an offer that did not fail.
#[derive(Clone, Copy, Debug, PartialEq, Eq)]
pub enum Offer {
    /// The URL was added to the end of `queue`, which had accepted `number` URLs of the same sender before.
    Accepted { queue: u32, number: u64 },
    /// The URL was accepted before, from any sender and in any spelling.
    Seen,
}

/// A URL that is offered, and its hops.
#[derive(Clone, Copy)]
pub(crate) struct Candidate<'a> {
    pub url: &'a CanonUrl,
    pub hops: u64,
}

/// The result of an offer and, if the URL was seen, a copy of it that shares the frontier's text.
pub(crate) type OfferOutcome = (Result<Offer, OfferError>, Option<CanonUrl>);

/// Gives a unit back, and returns the pass that it becomes. If it was the last unit, the gate may close, so all resting
/// workers are woken: one of them closes it, and the others find it closed.
pub(crate) fn give_back<K: Name>(frontier: &Frontier<K>, unit: Unit) -> Pass
    requires { IsSeatOf K.gate unit }
    ensures gave { GaveBack unit result }
    ensures gate { IsSeatOf K.gate result }
{
    let (pass, left) = frontier.gate().leave(unit);
    if left == 0 {
        frontier.ring_all();
    }
    pass
}

// Admits the URL under the lock of its queue, and extends what the book knows of this queue's list to what the list is then.
// What the book says does not change. A type cannot say to which queue a lock belongs: if another shard is found there, the
// lock is released and taken again.
fn admit<K: Name, R: Wait>(
    rt: &R,
    frontier: &Frontier<K>,
    queue: u32,
    offered: &Offered<'_>,
    unit: Unit,
    book: &mut Book,
) -> Admit
    requires queue { queue ≡ subqueue_of offered.now.url.now K.workers }
    requires within { queue < K.workers }
    requires unit { IsSeatOf K.gate unit }
    requires known { Knows K.queues K.workers book.old }
    ensures replies { Replies offered.now.url.now offered.now.own offered.now.hops unit result }
    ensures rest { (book.new.id ≡ book.old.id) × (book.new.counts ≡ book.old.counts) × (book.new.lines ≡ book.old.lines) }
    ensures same { book_of book.new ≡ book_of book.old }
    ensures known { Knows K.queues K.workers book.new }
    ensures index { IsKnown (lists_of book.new.learned.items) queue offered.now.url.now offered.now.id offered.now.hops result }
{
    let subqueue = frontier.subqueue(queue);
    for _ in rt.forever() {
        let mut shard = frontier.lock(rt, queue);
        if shard.queue() == queue {
            let admit = shard.admit(rt, subqueue, offered, unit);
            shard.extend_known(subqueue, &mut book.learned[queue as usize]);
            return admit;
        }
    }
    unreachable!()
}

/// Offers a URL with the unit with which it entered. The log has room for one more line, so nothing of the sender is allocated
/// after the push. If the URL is not accepted, `pass` becomes the pass that this unit was.
pub(crate) fn deliver<K: Name, R: Wait>(
    rt: &R,
    frontier: &Frontier<K>,
    book: &mut Book,
    pass: &mut Pass,
    candidate: &Candidate<'_>,
    unit: Unit,
) -> OfferOutcome
    requires book { IsBook K.workers (book_of book.old) }
    requires known { Knows K.queues K.workers book.old }
    requires room { HasRoom book.old }
    requires pass { IsSeatOf K.gate pass.old }
    requires unit { IsSeatOf K.gate unit }
    ensures book { IsBook K.workers (book_of book.new) }
    ensures known { Knows K.queues K.workers book.new }
    ensures books { OfferBooks K.workers (book_of book.old) (book_of book.new) candidate.now.url.now candidate.now.hops result.0 }
    ensures pass { IsSeatOf K.gate pass.new }
    ensures delivers { Delivers pass.old pass.new unit result.0 }
    ensures shared { IfSome result.1 (λ there. there ≡ candidate.now.url.now) }
{
    let Candidate { url, hops } = *candidate;
    let queue = url.subqueue(frontier.workers());
    let own = book.counts[queue as usize];
    let id = book.id;
    let offered = Offered { url, id, own, hops };
    match admit(rt, frontier, queue, &offered, unit, book) {
        Admit::Admitted { number, index } => {
            frontier.subqueue(queue).ring();
            book.accept(queue, index, number);
            (Ok(Offer::Accepted { queue, number }), None)
        }
        Admit::Seen {
            url: there,
            index,
            unit,
        } => {
            *pass = give_back(frontier, unit);
            book.see(queue, index);
            (Ok(Offer::Seen), Some(there))
        }
        Admit::Crossed { found, unit } => {
            *pass = give_back(frontier, unit);
            (Err(OfferError::Crossed { own, found }), None)
        }
        Admit::TooFar { unit } => {
            *pass = give_back(frontier, unit);
            (Err(OfferError::TooFar), None)
        }
        Admit::NoMemory { unit } => {
            *pass = give_back(frontier, unit);
            (Err(OfferError::NoMemory), None)
        }
    }
}

/// Offers a URL for a sender that holds a unit, so the gate is open: for the seeder, and for a busy worker.
pub(crate) fn offer_with_unit<K: Name, R: Wait>(
    rt: &R,
    frontier: &Frontier<K>,
    held: &mut Unit,
    book: &mut Book,
    pass: &mut Pass,
    candidate: &Candidate<'_>,
) -> OfferOutcome
    requires held { IsSeatOf K.gate held.old }
    requires book { IsBook K.workers (book_of book.old) }
    requires known { Knows K.queues K.workers book.old }
    requires pass { IsSeatOf K.gate pass.old }
    ensures held { IsSeatOf K.gate held.new }
    ensures book { IsBook K.workers (book_of book.new) }
    ensures known { Knows K.queues K.workers book.new }
    ensures pass { IsSeatOf K.gate pass.new }
    ensures books { OfferBooks K.workers (book_of book.old) (book_of book.new) candidate.now.url.now candidate.now.hops result.0 }
    ensures words { OfferWordsHolding held.old held.new pass.old pass.new result.0 }
    ensures filtered { IsFiltered result.0 ↔ (allows K.filter candidate.now.url.now ≡ false) }
    ensures shared { IfSome result.1 (λ there. there ≡ candidate.now.url.now) }
{
    if !frontier.filter().allows(candidate.url) {
        return (Err(OfferError::Filtered), None);
    }
    let Ok(()) = book.ready::<K>() else {
        return (Err(OfferError::NoMemory), None);
    };
    let gate = frontier.gate();
    let spare = gate.split_unit(held);
    let entering = mem::replace(pass, spare);
    let unit = match gate.enter_beside(rt, held, entering) {
        Enter::Entered(unit) => unit,
        Enter::Full(back) => {
            *pass = back;
            return (Err(OfferError::Full), None);
        }
        Enter::Closed(_) => unreachable!(),
        Enter::Lost(_) => unreachable!(),
    };
    deliver(rt, frontier, book, pass, candidate, unit)
}
