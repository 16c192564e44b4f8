//! Why a frontier was not made, why an offer failed, and why a run has no account.
use std::alloc::AllocError;
use std::error::Error;
use std::fmt;

/// Why a frontier was not made. The variants are in the order of the checks.
#[derive(Clone, Copy, Debug, PartialEq, Eq)]
pub enum FrontierError {
    /// The number of workers is 0 or more than [`crate::WORKERS_LIMIT`].
    BadWorkers,
    /// The maximum of pending URLs is 0 or more than [`crawl_gate::MAX_PENDING_LIMIT`].
    BadLimit,
    /// An allocation failed.
    NoMemory,
}

impl From<AllocError> for FrontierError {
    ghost use Rattle.std.specs.Prelude.{◌≡◌};
    ghost use Rattle.crawl_frontier.specs.declared.error.FrontierError.TheVariants.{NoMemory};

    ghost from_gives = { λ _ e. e ≡ NoMemory };

    fn from(_refused: AllocError) -> FrontierError {
        FrontierError::NoMemory
    }
}

impl fmt::Display for FrontierError {
    ghost use Rattle.std.specs.Prelude.{Some};
    ghost use Rattle.crawl_frontier.specs.ErrorTexts.{frontier_error_text};

    ghost output = { λ e. Some (frontier_error_text e) };

    fn fmt<W: fmt::Write>(&self, f: &mut fmt::Formatter<W>) -> fmt::Result {
        match self {
            FrontierError::BadWorkers => f.write_str("workers not from 1 to 512"),
            FrontierError::BadLimit => f.write_str("maximum not from 1 to 2^40"),
            FrontierError::NoMemory => f.write_str("out of memory"),
        }
    }
}

impl Error for FrontierError {}

/// Why an offer failed. The sender's counts and log and the queue's list are then as before, and a unit that the offer had
/// entered with is given back.
#[derive(Clone, Copy, Debug, PartialEq, Eq)]
pub enum OfferError {
    /// The frontier's filter does not allow the URL. This is checked first, before the gate is entered.
    Filtered,
    /// The gate is closed, for good. Only a [`crate::Sender`] gets this error.
    Closed,
    /// The number of pending URLs is at its maximum, offers in progress included. Later there may be room.
    Full,
    /// The queue has accepted `found` URLs of this sender's id, but only `own` of this sender: another one has the same id.
    Crossed { own: u64, found: u64 },
    /// The URL has more than [`crate::HOPS_LIMIT`] hops.
    TooFar,
    /// An allocation failed, or the queue has accepted 2^31 URLs. It may replace any result but `Filtered`.
    NoMemory,
}

impl fmt::Display for OfferError {
    ghost use Rattle.std.specs.Prelude.{Some};
    ghost use Rattle.crawl_frontier.specs.ErrorTexts.{offer_error_text};

    ghost output = { λ e. Some (offer_error_text e) };

    fn fmt<W: fmt::Write>(&self, f: &mut fmt::Formatter<W>) -> fmt::Result {
        match self {
            OfferError::Filtered => f.write_str("not allowed by the filter"),
            OfferError::Closed => f.write_str("gate closed"),
            OfferError::Full => f.write_str("as many URLs pending as allowed"),
            OfferError::Crossed { .. } => f.write_str("another sender has this id"),
            OfferError::TooFar => f.write_str("more hops than an entry holds"),
            OfferError::NoMemory => f.write_str("out of memory"),
        }
    }
}

impl Error for OfferError {}

/// Why a run has no account. The variants are in the order of the checks.
#[derive(Clone, Copy, Debug, PartialEq, Eq)]
pub enum FinishError {
    /// A queue's worker is missing, or no sender of the run has the id of an accepted URL's sender.
    MissingPart,
    /// The gate is not closed with count 0; `word` is its word. It never occurs, since a closed worker knows that the gate is
    /// closed.
    Unsettled { word: u64 },
    /// The run does not agree for `queue`, the first such queue. Two workers have this queue, its lock holds the shard of
    /// another queue, its worker was not seen to have taken all URLs, or a sender's log differs from its list.
    Disagree { queue: u32 },
    /// An allocation failed.
    NoMemory,
}

impl From<AllocError> for FinishError {
    ghost use Rattle.std.specs.Prelude.{◌≡◌};
    ghost use Rattle.crawl_frontier.specs.declared.error.FinishError.TheVariants.{NoMemory};

    ghost from_gives = { λ _ e. e ≡ NoMemory };

    fn from(_refused: AllocError) -> FinishError {
        FinishError::NoMemory
    }
}

impl fmt::Display for FinishError {
    ghost use Rattle.std.specs.Prelude.{Some};
    ghost use Rattle.crawl_frontier.specs.ErrorTexts.{finish_error_text};

    ghost output = { λ e. Some (finish_error_text e) };

    fn fmt<W: fmt::Write>(&self, f: &mut fmt::Formatter<W>) -> fmt::Result {
        match self {
            FinishError::MissingPart => f.write_str("a worker or a sender is missing"),
            FinishError::Unsettled { .. } => f.write_str("gate not closed"),
            FinishError::Disagree { .. } => f.write_str("logs and entries of a subqueue differ"),
            FinishError::NoMemory => f.write_str("out of memory"),
        }
    }
}

impl Error for FinishError {}
