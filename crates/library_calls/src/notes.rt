//! The outcomes of calls, and a hand's notes of its own calls.
use crawl_frontier::laws::Admit;
use crawl_frontier::{FinishError, Offer, OfferError};
use std::alloc::Global;

/// The outcome of a call: its word, and its numbers, if it has any.
#[derive(Clone, Copy)]
pub struct Outcome {
    pub word: &'static str,
    pub first: u64,
    pub second: u64,
}

impl Outcome {
    pub fn word(word: &'static str) -> Outcome {
        Outcome {
            word,
            first: 0,
            second: 0,
        }
    }

    /// If the offer was accepted, the numbers are its queue and number. If it crossed another sender, they are both counts.
    pub fn of(offer: Result<Offer, OfferError>) -> Outcome {
        match offer {
            Ok(Offer::Accepted { queue, number }) => Outcome {
                word: "accepted",
                first: u64::from(queue),
                second: number,
            },
            Ok(Offer::Seen) => Outcome::word("seen"),
            Err(OfferError::Filtered) => Outcome::word("filtered"),
            Err(OfferError::Closed) => Outcome::word("closed"),
            Err(OfferError::Full) => Outcome::word("full"),
            Err(OfferError::Crossed { own, found }) => Outcome {
                word: "crossed",
                first: own,
                second: found,
            },
            Err(_) => Outcome::word("refused"),
        }
    }

    /// If the URL was admitted, the numbers are its sender's number and its index in the queue.
    pub fn of_admission(admit: &Admit) -> Outcome {
        match admit {
            Admit::Admitted { number, index } => Outcome {
                word: "admitted",
                first: *number,
                second: u64::from(*index),
            },
            Admit::TooFar { .. } => Outcome::word("too far"),
            _ => Outcome::word("refused"),
        }
    }

    /// The reason why there is no account.
    pub fn of_end(error: FinishError) -> Outcome {
        match error {
            FinishError::MissingPart => Outcome::word("missing"),
            FinishError::Disagree { queue } => Outcome {
                word: "disagree",
                first: u64::from(queue),
                second: 0,
            },
            _ => Outcome::word("refused"),
        }
    }
}

/// A call of a hand in a thread: its page, its outcome, and whether it is late, that is, whether it did not find the gate closed
/// although a worker had found it closed before.
#[derive(Clone, Copy)]
pub struct Note {
    pub page: usize,
    pub outcome: Outcome,
    pub late: bool,
}

/// The notes of a hand. It leaves when it has taken `leaves_at` pages (0: never), before the last one is done or after.
#[derive(Drop)]
pub struct Notes {
    pub list: Vec<Note>,
    pub leaves_at: u64,
    pub leaves_busy: bool,
    pub taken: u64,
    pub idle: u64,
    pub closed: bool,
}

impl Notes {
    pub fn new(alloc: Global) -> Notes {
        Notes {
            list: Vec::new(alloc),
            leaves_at: 0,
            leaves_busy: false,
            taken: 0,
            idle: 0,
            closed: false,
        }
    }

    /// Notes an outcome. `known` says whether the hand knew that the gate is closed.
    pub fn push(&mut self, page: usize, outcome: Outcome, known: bool) {
        let is_closed = outcome.word == "closed";
        let late = known & !is_closed;
        self.closed = self.closed | is_closed;
        let _ = self.list.push(Note {
            page,
            outcome,
            late,
        });
    }

    /// Counts a page that was taken, and returns whether the worker leaves at it.
    pub fn counts_page(&mut self) -> bool {
        self.idle = 0;
        self.taken = self.taken.saturating_add(1);
        self.taken == self.leaves_at
    }
}
