//! A sender that is no worker: it offers URLs from outside.
ghost use Rattle.std.specs.Prelude.{◌≡◌, ◌↔◌, true, false};
ghost use Rattle.crawl_gate.specs.Seat.{IsSeatOf};
ghost use Rattle.crawl_gate.specs.View.{knows_closed};
ghost use Rattle.crawl_queues.specs.Books.{IsBook, Knows, book_of};
ghost use Rattle.crawl_keys.specs.HostFilter.{allows};
ghost use Rattle.crawl_frontier.specs.Parts.{sender_with};
ghost use Rattle.crawl_frontier.specs.Offers.{OfferBooks, OfferWords, IsLate, IsFiltered};

use crate::error::OfferError;
use crate::frontier::Frontier;
use crate::offer::{Candidate, Offer, deliver};
use crawl_gate::{Enter, Pass};
use crawl_keys::CanonUrl;
use crawl_queues::{Book, Name};
use std::marker::{Model, PhantomData};
use std::mem;
use std::sync::Wait;

/// Offers URLs and takes none. [`crate::Seeder::another`] and [`crate::Seeder::end`] make one.
///
/// It holds no unit, so it does not keep the gate open. Once the gate is closed, its offers fail with `Closed`.
///
/// In contracts it is its books (id, counts and log), and its pass of the gate.
///
/// ```rust
/// let mut sender = seeder.another(alloc, &frontier, 100)?;
/// let result = sender.offer(rt, &frontier, &url);
/// ```
#[derive(Drop)]
pub struct Sender<K: Name> {
    book: Book,
    pass: Pass,
    of: PhantomData<K>,
}

impl<K: Name> Model for Sender<K> {
    ghost use Rattle.crawl_gate.specs.Seat.{IsSeatOf};
    ghost use Rattle.crawl_frontier.specs.Parts.{SenderId};
    ghost use Rattle.crawl_queues.specs.Books.{IsBook, Knows, book_of};

    ghost Value = { SenderId };

    ghost view = { λ s. record { book = book_of s.book; seat = s.pass } };

    ghost invariant = { λ s. IsSeatOf K.gate s.pass × IsBook K.workers (book_of s.book) × Knows K.queues K.workers s.book };
}

impl<K: Name> Sender<K> {
    /// Creates a sender with these books and this pass of the gate.
    pub(crate) fn new(book: Book, pass: Pass) -> Sender<K>
        requires pass { IsSeatOf K.gate pass }
        requires book { IsBook K.workers (book_of book) }
        requires known { Knows K.queues K.workers book }
        ensures { result ≡ sender_with (book_of book) pass }
    {
        Sender {
            book,
            pass,
            of: PhantomData,
        }
    }

    /// Returns the sender's books, and drops its pass of the gate.
    pub(crate) fn into_book(self) -> Book
        ensures book { book_of result ≡ self.book }
        ensures is_book { IsBook K.workers (book_of result) }
        ensures known { Knows K.queues K.workers result }
    {
        let Sender {
            book,
            pass: _,
            of: _,
        } = self;
        book
    }

    /// Offers a URL, with 0 hops.
    ///
    /// The result is `Accepted`, `Seen`, or an error: `Filtered`, `Closed`, `Full` and `Crossed`, in the order of the
    /// checks. `NoMemory` may replace any result but `Filtered`. After an error the sender's counts and log are as before.
    /// After `Closed`, each later offer of this sender fails with `Closed`, `Filtered` or `NoMemory`. The call may wait
    /// for the lock of the URL's queue.
    pub fn offer<R: Wait>(
        &mut self,
        rt: &R,
        frontier: &Frontier<K>,
        url: &CanonUrl,
    ) -> Result<Offer, OfferError>
        ensures books { OfferBooks K.workers self.old.book self.new.book url.now 0 result }
        ensures words { OfferWords self.old.seat self.new.seat result }
        ensures filtered { IsFiltered result ↔ (allows K.filter url.now ≡ false) }
        ensures for_good { knows_closed self.old.seat.view ≡ true → IsLate result × (knows_closed self.new.seat.view ≡ true) }
    {
        if !frontier.filter().allows(url) {
            return Err(OfferError::Filtered);
        }
        self.send(rt, frontier, url)
    }

    // Offers a URL that the filter allows. The sender's own pass enters the gate, so a sender that found the gate closed finds
    // it closed from then on. When the pass is spent on an accepted URL, a spare one that was split off before replaces it.
    fn send<R: Wait>(
        &mut self,
        rt: &R,
        frontier: &Frontier<K>,
        url: &CanonUrl,
    ) -> Result<Offer, OfferError>
        ensures books { OfferBooks K.workers self.old.book self.new.book url.now 0 result }
        ensures words { OfferWords self.old.seat self.new.seat result }
        ensures allowed { ¬ IsFiltered result }
        ensures for_good { knows_closed self.old.seat.view ≡ true → IsLate result × (knows_closed self.new.seat.view ≡ true) }
    {
        let Ok(()) = self.book.ready::<K>() else {
            return Err(OfferError::NoMemory);
        };
        let gate = frontier.gate();
        let spare = gate.split(&mut self.pass);
        let pass = mem::replace(&mut self.pass, spare);
        let unit = match gate.enter(rt, pass) {
            Enter::Entered(unit) => unit,
            Enter::Closed(pass) => {
                self.pass = pass;
                return Err(OfferError::Closed);
            }
            Enter::Full(pass) => {
                self.pass = pass;
                return Err(OfferError::Full);
            }
            Enter::Lost(_) => unreachable!(),
        };
        let candidate = Candidate { url, hops: 0 };
        let (book, pass) = (&mut self.book, &mut self.pass);
        let (outcome, _) = deliver(rt, frontier, book, pass, &candidate, unit);
        outcome
    }
}
