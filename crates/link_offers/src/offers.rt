//! The offers of a page's links.
ghost use Rattle.std.specs.Prelude.{◌≡◌, [], ◌∷◌, ℕ, List};
ghost use Rattle.crawl_keys.specs.HostFilter.{allows};
ghost use Rattle.crawl_pages.specs.Pages.{links_of};
ghost use Rattle.crawl_queues.specs.declared.book.Logged.{Logged};
ghost use Rattle.link_offers.specs.Losses.{no_losses};
ghost use Rattle.link_offers.specs.Offers.{LinkResults};
ghost use Rattle.link_offers.specs.Recent.{Knows};

use crate::losses::{Losses, loss_of};
use crate::recent::{READ_TOGETHER, RecentUrls};
use crawl_frontier::{BusyWorker, Frontier, Name, Offer, OfferError};
use crawl_keys::CanonUrl;
use crawl_pages::{Links, Page};
use std::alloc::Global;
use std::sync::Wait;

/// The allocator of a worker's offers, the URLs that it offered recently, and what it has lost so far.
#[derive(Drop)]
pub struct LinkOffers {
    pub alloc: Global,
    pub recent: RecentUrls,
    pub losses: Losses,
}

impl LinkOffers {
    /// Creates the offers of a worker that has offered and lost nothing yet.
    pub fn new(alloc: Global) -> LinkOffers
        ensures losses { result.losses ≡ no_losses }
        ensures recent { (workers : ℕ) (log : List Logged) → Knows workers log result.recent }
    {
        LinkOffers {
            alloc,
            recent: RecentUrls::new(alloc),
            losses: Losses::none(),
        }
    }

    /// Offers the links of a page, in order, counts those that are lost, and returns the page as it was.
    pub fn offer_page<K: Name, R: Wait>(
        &mut self,
        rt: &R,
        frontier: &Frontier<K>,
        busy: &mut BusyWorker<K>,
        page: Page,
    ) -> Page
        ensures page { result ≡ page }
        ensures offered { Knows K.workers busy.old.worker.book.log self.old.recent → LinkResults K.workers (allows K.filter) (links_of page) busy.old busy.new self.old self.new }
    {
        match page {
            Page::Found { links, skipped } => {
                let mut urls = Vec::from(links);
                self.offer_links(rt, frontier, busy, urls.as_mut_slice());
                let links = Links::from(urls);
                Page::Found { links, skipped }
            }
            Page::Moved { to: Some(mut url) } => {
                self.offer_link(rt, frontier, busy, true, &mut url);
                Page::Moved { to: Some(url) }
            }
            Page::Moved { to: None } => Page::Moved { to: None },
            Page::Missing => Page::Missing,
        }
    }

    // Offers all links, in order.
    fn offer_links<K: Name, R: Wait>(
        &mut self,
        rt: &R,
        frontier: &Frontier<K>,
        busy: &mut BusyWorker<K>,
        links: &mut [CanonUrl],
    )
        ensures links { links.new ≡ links.old }
        ensures offered { Knows K.workers busy.old.worker.book.log self.old.recent → LinkResults K.workers (allows K.filter) links.old busy.old busy.new self.old self.new }
    {
        let mut marks = 0;
        for index in 0..links.len() {
            let bit = index % READ_TOGETHER;
            if bit == 0 {
                marks = self.recent.marks(links, index);
            }
            let marked = marks >> bit & 1 == 1;
            if !marked {
                // The link is now remembered, so each link after it is looked up: it may be the same URL.
                marks = u64::MAX;
            }
            self.offer_link(rt, frontier, busy, marked, &mut links[index]);
        }
    }

    // Offers a link that is not remembered, and counts it if it is lost. A link that the filter does not allow is not lost. A link
    // that is remembered or was seen shares the frontier's text from then on. Only a marked link is looked up.
    fn offer_link<K: Name, R: Wait>(
        &mut self,
        rt: &R,
        frontier: &Frontier<K>,
        busy: &mut BusyWorker<K>,
        marked: bool,
        url: &mut CanonUrl,
    )
        ensures url { url.new ≡ url.old }
        ensures offered { Knows K.workers busy.old.worker.book.log self.old.recent → LinkResults K.workers (allows K.filter) (url.old ∷ []) busy.old busy.new self.old self.new }
    {
        if self.recent.has_marked(marked, url) {
            return;
        }
        match busy.offer_shared(rt, frontier, url) {
            Ok(outcome) => self.recent.remember(self.alloc, url, is_seen(&outcome)),
            Err(OfferError::Filtered) => {}
            Err(refused) => self.losses.count(loss_of(refused)),
        }
    }
}

// Whether the URL had been accepted before.
fn is_seen(outcome: &Offer) -> bool {
    matches!(outcome, Offer::Seen)
}
