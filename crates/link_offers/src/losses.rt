//! The URLs and links that a worker lost, by cause.
ghost use Rattle.std.specs.Prelude.{◌≡◌, ◌≢◌, Some, true};
ghost use Rattle.crawl_frontier.specs.declared.error.OfferError.TheVariants as error;
ghost use Rattle.link_offers.specs.Losses.{all_losses, both_losses, loss_of, no_losses, sum_of, with_loss, with_refusal};

use crawl_frontier::OfferError;

/// The numbers of URLs and links that a worker lost, by cause. Each count stops at the greatest u64.
#[derive(Clone, Copy, Debug, PartialEq, Eq)]
pub struct Losses {
    /// URLs whose fetch failed.
    pub failed: u64,
    /// URLs that were fetched, but for whose result there was no memory.
    pub unkept: u64,
    /// Links that were refused because the maximum number of URLs was pending.
    pub full: u64,
    /// Links that are more hops away than an entry can store.
    pub too_far: u64,
    /// Links whose offer found another sender with this worker's id.
    pub crossed: u64,
    /// Links for which memory ran out.
    pub no_memory: u64,
}

/// A cause of a loss.
#[derive(Clone, Copy)]
pub enum Loss {
    /// The fetch of a URL failed.
    Failed,
    /// There was no memory for a result.
    Unkept,
    /// The maximum number of URLs was pending when a link was offered.
    Full,
    /// A link is too many hops away.
    TooFar,
    /// The offer of a link found another sender with this worker's id.
    Crossed,
    /// Memory ran out when a link was offered.
    NoMemory,
}

impl Losses {
    /// Returns no losses.
    pub fn none() -> Losses
        ensures { result ≡ no_losses }
    {
        Losses {
            failed: 0,
            unkept: 0,
            full: 0,
            too_far: 0,
            crossed: 0,
            no_memory: 0,
        }
    }

    /// Returns the sum of all counts, up to the greatest u64.
    pub fn total(&self) -> u64
        ensures { result ≡ sum_of self.now }
    {
        self.failed
            .saturating_add(self.unkept)
            .saturating_add(self.full)
            .saturating_add(self.too_far)
            .saturating_add(self.crossed)
            .saturating_add(self.no_memory)
    }

    /// Returns whether nothing was lost.
    pub fn is_none(&self) -> bool
        ensures none { result ≡ true → all_losses self.now ≡ 0 }
        ensures some { all_losses self.now ≡ 0 → result ≡ true }
    {
        self.total() == 0
    }

    /// Returns the sums of both. Each count stops at the greatest u64.
    pub fn plus(self, other: Losses) -> Losses
        ensures { result ≡ both_losses self other }
    {
        Losses {
            failed: self.failed.saturating_add(other.failed),
            unkept: self.unkept.saturating_add(other.unkept),
            full: self.full.saturating_add(other.full),
            too_far: self.too_far.saturating_add(other.too_far),
            crossed: self.crossed.saturating_add(other.crossed),
            no_memory: self.no_memory.saturating_add(other.no_memory),
        }
    }

    /// Also counts an offer that failed with this error. A URL that the filter does not allow is not lost, and a sender that holds
    /// a unit never finds the gate closed.
    pub fn with_refusal(self, refused: OfferError) -> Losses
        ensures { result ≡ with_refusal refused self }
    {
        match refused {
            OfferError::Filtered | OfferError::Closed => self,
            _ => {
                let mut losses = self;
                losses.count(loss_of(refused));
                losses
            }
        }
    }

    /// Counts one loss.
    pub fn count(&mut self, loss: Loss)
        ensures { self.new ≡ with_loss loss self.old }
    {
        match loss {
            Loss::Failed => self.failed = self.failed.saturating_add(1),
            Loss::Unkept => self.unkept = self.unkept.saturating_add(1),
            Loss::Full => self.full = self.full.saturating_add(1),
            Loss::TooFar => self.too_far = self.too_far.saturating_add(1),
            Loss::Crossed => self.crossed = self.crossed.saturating_add(1),
            Loss::NoMemory => self.no_memory = self.no_memory.saturating_add(1),
        }
    }
}

/// Returns the cause for which a link is lost whose offer by a worker failed with this error. A link that the filter does not allow
/// is not lost, and a worker with a URL never finds the gate closed.
pub(crate) fn loss_of(refused: OfferError) -> Loss
    requires filter { refused ≢ error.Filtered }
    requires gate { refused ≢ error.Closed }
    ensures { Some result ≡ loss_of refused }
{
    match refused {
        OfferError::Full => Loss::Full,
        OfferError::TooFar => Loss::TooFar,
        OfferError::Crossed { .. } => Loss::Crossed,
        OfferError::NoMemory => Loss::NoMemory,
        OfferError::Filtered | OfferError::Closed => unreachable!(),
    }
}
