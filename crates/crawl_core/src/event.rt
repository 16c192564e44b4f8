use crate::text::Text;

/// One atomic step of the frontier. A sender is any number; a queue is the number of a subqueue, from 0.
#[derive(Debug, PartialEq, Eq, Drop)]
pub enum Event {
    /// A sender reads the gate's word, and remembers it.
    Look { sender: u64 },
    /// A sender tries to take a unit, which it gets if the word is still the one that it remembers.
    Enter { sender: u64 },
    /// A sender that holds a unit adds a URL to a subqueue. The unit then belongs to the URL.
    Admit { sender: u64, url: Text, queue: u32 },
    /// A sender gives its unit back.
    Back { sender: u64 },
    /// The seeds have ended: the opening unit is given back.
    EndSeeds,
    /// A subqueue's worker takes the URL that has waited longest.
    Take { queue: u32 },
    /// A subqueue's worker has fetched the URL that it took last, and gives the URL's unit back.
    Done { queue: u32 },
    /// Anyone tries to close the gate.
    Close,
}
