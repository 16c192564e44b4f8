//! A worker that has a URL.
ghost use Rattle.std.specs.Prelude.{◌≡◌, ◌+◌, ◌↔◌, false, IfSome};
ghost use Rattle.crawl_keys.specs.HostFilter.{allows};
ghost use Rattle.crawl_frontier.specs.Turns.{Done};
ghost use Rattle.crawl_frontier.specs.Parts.{worker};
ghost use Rattle.crawl_frontier.specs.Offers.{OfferBooks, OfferWordsHolding, IsFiltered};

use crate::error::OfferError;
use crate::frontier::Frontier;
use crate::offer::{Candidate, Offer, OfferOutcome, give_back, offer_with_unit};
use crate::worker::Worker;
use crawl_gate::Pass;
use crawl_keys::CanonUrl;
use crawl_queues::{Book, Message, Name, PopRight};
use std::marker::{Model, PhantomData};
use std::sync::Wait;

/// A worker that has taken a URL, and is not done with it. [`Worker::next`] makes it.
///
/// It holds the URL's unit, so the gate stays open until [`BusyWorker::done`]. A busy worker that is dropped keeps the gate
/// open for good. Offer all links of the page before `done`.
///
/// In contracts it is the worker and the message.
///
/// ```rust
/// for text in links_of(busy.url()) {
///     if let Ok(link) = resolve(alloc, busy.url(), text) {
///         let _ = busy.offer(rt, frontier, &link);
///     }
/// }
/// worker = busy.done(frontier);
/// ```
#[derive(Drop)]
pub struct BusyWorker<K: Name> {
    pub(crate) queue: u32,
    pub(crate) right: PopRight,
    pub(crate) pass: Pass,
    pub(crate) book: Book,
    pub(crate) message: Message,
    pub(crate) of: PhantomData<K>,
}

impl<K: Name> Model for BusyWorker<K> {
    ghost use Rattle.std.specs.Prelude.{◌≡◌, ◌<◌, Some, slice_get};
    ghost use Rattle.crawl_gate.specs.Seat.{IsSeatOf};
    ghost use Rattle.crawl_queues.specs.Books.{IsBook, Knows, book_of};
    ghost use Rattle.crawl_frontier.specs.Parts.{BusyId, worker};
    ghost use Rattle.crawl_queues.specs.Rule.{popping, home};

    ghost Value = { BusyId };

    ghost view = { λ w. record { worker = worker w.queue w.pass w.right.view.taken w.right.view.empty_pops (book_of w.book); message = w.message } };

    ghost invariant = { λ w.
        (w.right.view ≡ popping (home K.gate K.workers w.queue) w.right.view.taken w.right.view.empty_pops)
        × (slice_get K.queues w.queue ≡ Some w.right.subqueue)
        × IsSeatOf K.gate w.pass × (w.queue < K.workers) × IsBook K.workers (book_of w.book)
        × IsSeatOf K.gate w.message.unit × Knows K.queues K.workers w.book };
}

// Makes the URL share the text of its copy, if there is one.
fn share(url: &mut CanonUrl, copy: Option<CanonUrl>)
    requires { IfSome copy (λ there. there ≡ url.old) }
    ensures { url.new ≡ url.old }
{
    if let Some(there) = copy {
        *url = there;
    }
}

impl<K: Name> BusyWorker<K> {
    /// The URL that the worker took.
    pub fn url(&self) -> &CanonUrl
        ensures { result.now ≡ self.now.message.entry.url }
    {
        &self.message.entry.url
    }

    /// The number of links between this URL and one that the seeder or a sender offered.
    pub fn hops(&self) -> u32
        ensures { result ≡ self.now.message.entry.hops }
    {
        self.message.entry.hops
    }

    /// Offers a link of the page, with one hop more than the page.
    ///
    /// The result is never `Closed`, since the page's unit is held. The other errors are those of
    /// [`crate::Sender::offer`], and `TooFar` for a link with more than [`crate::HOPS_LIMIT`] hops.
    pub fn offer<R: Wait>(
        &mut self,
        rt: &R,
        frontier: &Frontier<K>,
        url: &CanonUrl,
    ) -> Result<Offer, OfferError>
        ensures books { OfferBooks K.workers self.old.worker.book self.new.worker.book url.now (self.old.message.entry.hops + 1) result }
        ensures words { OfferWordsHolding self.old.message.unit self.new.message.unit self.old.worker.seat self.new.worker.seat result }
        ensures filtered { IsFiltered result ↔ (allows K.filter url.now ≡ false) }
        ensures entry { self.new.message.entry ≡ self.old.message.entry }
        ensures same { self.new.worker ≡ worker self.old.worker.queue self.new.worker.seat self.old.worker.taken self.old.worker.empty_pops self.new.worker.book }
    {
        let (outcome, _) = self.offer_link(rt, frontier, url);
        outcome
    }

    // Offers a link of the page. If the URL was seen, the result includes a copy of it that shares the frontier's text.
    fn offer_link<R: Wait>(
        &mut self,
        rt: &R,
        frontier: &Frontier<K>,
        url: &CanonUrl,
    ) -> OfferOutcome
        ensures books { OfferBooks K.workers self.old.worker.book self.new.worker.book url.now (self.old.message.entry.hops + 1) result.0 }
        ensures words { OfferWordsHolding self.old.message.unit self.new.message.unit self.old.worker.seat self.new.worker.seat result.0 }
        ensures filtered { IsFiltered result.0 ↔ (allows K.filter url.now ≡ false) }
        ensures entry { self.new.message.entry ≡ self.old.message.entry }
        ensures same { self.new.worker ≡ worker self.old.worker.queue self.new.worker.seat self.old.worker.taken self.old.worker.empty_pops self.new.worker.book }
        ensures shared { IfSome result.1 (λ there. there ≡ url.now) }
    {
        let hops = u64::from(self.message.entry.hops) + 1;
        let candidate = Candidate { url, hops };
        let (held, book, pass) = (&mut self.message.unit, &mut self.book, &mut self.pass);
        offer_with_unit(rt, frontier, held, book, pass, &candidate)
    }

    /// Like [`BusyWorker::offer`], but a `url` that was seen shares the frontier's text from then on.
    ///
    /// So the links of a page that the caller keeps need no memory for their texts.
    pub fn offer_shared<R: Wait>(
        &mut self,
        rt: &R,
        frontier: &Frontier<K>,
        url: &mut CanonUrl,
    ) -> Result<Offer, OfferError>
        ensures url { url.new ≡ url.old }
        ensures books { OfferBooks K.workers self.old.worker.book self.new.worker.book url.old (self.old.message.entry.hops + 1) result }
        ensures words { OfferWordsHolding self.old.message.unit self.new.message.unit self.old.worker.seat self.new.worker.seat result }
        ensures filtered { IsFiltered result ↔ (allows K.filter url.old ≡ false) }
        ensures entry { self.new.message.entry ≡ self.old.message.entry }
        ensures same { self.new.worker ≡ worker self.old.worker.queue self.new.worker.seat self.old.worker.taken self.old.worker.empty_pops self.new.worker.book }
    {
        let (outcome, copy) = self.offer_link(rt, frontier, url);
        share(url, copy);
        outcome
    }

    /// Says that the URL is done, and gives its unit back. It takes no lock and allocates nothing.
    pub fn done(self, frontier: &Frontier<K>) -> Worker<K>
        ensures { Done self result }
    {
        let BusyWorker {
            queue,
            right,
            pass: _,
            book,
            message,
            of,
        } = self;
        let Message { entry: _, unit } = message;
        let pass = give_back(frontier, unit);
        Worker {
            queue,
            right,
            pass,
            book,
            of,
        }
    }
}
