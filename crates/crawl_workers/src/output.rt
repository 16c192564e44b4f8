//! What a worker has found so far.
ghost use Rattle.std.specs.Prelude.{◌≡◌, [], ℕ, List};
ghost use Rattle.crawl_queues.specs.declared.book.Logged.{Logged};
ghost use Rattle.link_offers.specs.Losses.{no_losses, sum_of};
ghost use Rattle.link_offers.specs.Recent.{Knows};
ghost use Rattle.crawl_workers.specs.Turn.{HasRoomOrNot};

use crate::ahead::LookAhead;
use crate::worker_end::WorkerEnd;
use crawl_frontier::{ClosedWorker, Name};
use crawl_keys::CanonUrl;
use crawl_pages::{Page, PageResult};
use link_offers::{LinkOffers, Loss};
use std::alloc::Global;

/// The results so far, the offers of links with what was lost, and how far the worker has looked ahead.
#[derive(Drop)]
pub(crate) struct WorkerOutput {
    pub results: Vec<PageResult>,
    pub offers: LinkOffers,
    pub ahead: LookAhead,
}

impl WorkerOutput {
    /// Creates the output of a worker that has found and lost nothing yet.
    pub fn new(alloc: Global) -> WorkerOutput
        ensures nothing { (result.results.items ≡ []) × (result.offers.losses ≡ no_losses) }
        ensures recent { (workers : ℕ) (log : List Logged) → Knows workers log result.offers.recent }
    {
        WorkerOutput {
            results: Vec::new(alloc),
            offers: LinkOffers::new(alloc),
            ahead: LookAhead::new(),
        }
    }

    /// Keeps a result, or counts it as lost if there is no memory for it.
    pub fn keep(&mut self, url: &CanonUrl, page: Page)
        ensures { HasRoomOrNot url.now page self.old self.new }
    {
        let Ok(url) = url.copy() else {
            self.offers.losses.count(Loss::Unkept);
            return;
        };
        if self.results.push(PageResult { url, page }).is_err() {
            self.offers.losses.count(Loss::Unkept);
        }
    }

    /// Returns the end of a worker that has found the gate closed: its results and its losses.
    pub fn end<K: Name>(self, closed: ClosedWorker<K>) -> WorkerEnd<K>
        ensures closed { result.closed ≡ closed }
        ensures results { result.results ≡ self.results }
        ensures losses { result.losses ≡ self.offers.losses }
        ensures lost { result.lost ≡ sum_of result.losses }
    {
        let WorkerOutput {
            results,
            offers,
            ..
        } = self;
        WorkerEnd {
            closed,
            results,
            lost: offers.losses.total(),
            losses: offers.losses,
        }
    }
}
