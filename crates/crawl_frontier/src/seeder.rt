//! The seeder, which holds the opening unit of the gate.
ghost use Rattle.std.specs.Prelude.{◌≡◌, ◌↔◌, false, MatchResult};
ghost use Rattle.crawl_gate.specs.Seat.{IsSeatOf};
ghost use Rattle.crawl_gate.specs.View.{fresh_view};
ghost use Rattle.crawl_queues.specs.Books.{IsBook, Knows, book_of, fresh_book};
ghost use Rattle.crawl_keys.specs.HostFilter.{allows};
ghost use Rattle.crawl_frontier.specs.Units.{GaveBack};
ghost use Rattle.crawl_frontier.specs.Offers.{OfferBooks, OfferWordsHolding, IsFiltered};

use crate::error::{FrontierError, OfferError};
use crate::frontier::Frontier;
use crate::offer::{Candidate, Offer, give_back, offer_with_unit};
use crate::sender::Sender;
use crawl_gate::{Pass, Unit};
use crawl_keys::CanonUrl;
use crawl_queues::{Book, Name};
use std::alloc::Global;
use std::marker::{Model, PhantomData};
use std::sync::Wait;

/// The sender that offers the first URLs. [`Frontier::new`] makes it, and [`Seeder::end`] turns it into a [`Sender`].
///
/// It holds the opening unit of the gate, so the gate stays open until its end. Its id is the number of workers. A seeder
/// that is dropped keeps the gate open for good.
///
/// In contracts it is its books, that unit, and a pass of the gate.
///
/// ```rust
/// let seed = canonical(alloc, "http://a.test/")?;
/// let first = seeder.offer(rt, &frontier, &seed)?;
/// let again = seeder.offer(rt, &frontier, &seed)?;
/// assert!(rt; matches!(first, Offer::Accepted { number: 0, .. }));
/// assert!(rt; again == Offer::Seen);
/// let sender = seeder.end(&frontier);
/// ```
#[derive(Drop)]
pub struct Seeder<K: Name> {
    opening: Unit,
    book: Book,
    pass: Pass,
    of: PhantomData<K>,
}

impl<K: Name> Model for Seeder<K> {
    ghost use Rattle.crawl_gate.specs.Seat.{IsSeatOf};
    ghost use Rattle.crawl_frontier.specs.Parts.{SeederId};
    ghost use Rattle.crawl_queues.specs.Books.{IsBook, Knows, book_of};

    ghost Value = { SeederId };

    ghost view = { λ s. record { book = book_of s.book; opening = s.opening; seat = s.pass } };

    ghost invariant = { λ s. IsSeatOf K.gate s.opening × IsSeatOf K.gate s.pass × IsBook K.workers (book_of s.book) × Knows K.queues K.workers s.book };
}

impl<K: Name> Seeder<K> {
    /// Creates the seeder of a new frontier, with the opening unit of its gate.
    pub(crate) fn new(opening: Unit, pass: Pass, book: Book) -> Seeder<K>
        requires opening { IsSeatOf K.gate opening }
        requires pass { IsSeatOf K.gate pass }
        requires book { IsBook K.workers (book_of book) }
        requires known { Knows K.queues K.workers book }
        ensures { result ≡ record { book = book_of book; opening = opening; seat = pass } }
    {
        Seeder {
            opening,
            book,
            pass,
            of: PhantomData,
        }
    }

    /// Offers a URL, with 0 hops.
    ///
    /// The result is never `Closed`, since the opening unit is held. The other errors are those of [`Sender::offer`].
    pub fn offer<R: Wait>(
        &mut self,
        rt: &R,
        frontier: &Frontier<K>,
        url: &CanonUrl,
    ) -> Result<Offer, OfferError>
        ensures books { OfferBooks K.workers self.old.book self.new.book url.now 0 result }
        ensures words { OfferWordsHolding self.old.opening self.new.opening self.old.seat self.new.seat result }
        ensures filtered { IsFiltered result ↔ (allows K.filter url.now ≡ false) }
    {
        let (held, book, pass) = (&mut self.opening, &mut self.book, &mut self.pass);
        let candidate = Candidate { url, hops: 0 };
        let (outcome, _) = offer_with_unit(rt, frontier, held, book, pass, &candidate);
        outcome
    }

    /// A new sender with this id. The only error is `NoMemory`.
    ///
    /// The ids from 0 to the number of workers belong to the workers and the seeder. An id that another sender has is not
    /// refused here, but offers of the two may then fail with [`OfferError::Crossed`].
    pub fn another(
        &mut self,
        alloc: Global,
        frontier: &Frontier<K>,
        id: u64,
    ) -> Result<Sender<K>, FrontierError>
        ensures same { self.new ≡ self.old }
        ensures sender { MatchResult result
            (λ s. (s.book ≡ fresh_book id K.workers) × (s.seat.view ≡ fresh_view K.gate.max_pending))
            (λ e. e ≡ FrontierError.NoMemory) }
    {
        let Ok(book) = self.book.another::<K>(alloc, id, &frontier.queues) else {
            return Err(FrontierError::NoMemory);
        };
        let pass = frontier.gate().split_unit(&mut self.opening);
        Ok(Sender::new(book, pass))
    }

    /// Ends the seeding: gives the opening unit back, and returns a sender with the seeder's id, counts and log.
    ///
    /// From now on the gate can close, once every accepted URL is done.
    pub fn end(self, frontier: &Frontier<K>) -> Sender<K>
        ensures gave { GaveBack self.opening result.seat }
        ensures same { result.book ≡ self.book }
    {
        let Seeder {
            opening,
            book,
            pass: _,
            of: _,
        } = self;
        let pass = give_back(frontier, opening);
        Sender::new(book, pass)
    }
}
