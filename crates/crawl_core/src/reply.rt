use crate::text::Text;

/// What the frontier replies to an event.
#[derive(Debug, PartialEq, Eq, Drop)]
pub enum Reply {
    /// The word that a sender read.
    Word { count: u64, closed: bool },
    /// The sender now holds a unit. The number is that of all units that are held.
    Entered(u64),
    /// The word is not the one that the sender remembers. Nothing changed, and the sender still remembers the old one.
    Lost,
    /// The URL is accepted in this subqueue. `number` is how many earlier URLs of the sender this subqueue accepted.
    Accepted { queue: u32, number: u64 },
    /// The subqueue accepted this URL before. The sender still holds its unit.
    Seen,
    /// A unit was given back. The number is that of the units that are left.
    Count(u64),
    /// The URL that is taken. The subqueue is busy until it is done.
    Taken(Text),
    /// No URL waits in the subqueue.
    Empty,
    /// The gate is closed, by this event or before.
    Closed,
    /// The gate is not closed, because this number of units is held.
    Pending(u64),
    /// The event was refused, and changed nothing.
    Refused(Refusal),
}

/// Why an event was refused.
#[derive(Clone, Copy, Debug, PartialEq, Eq)]
pub enum Refusal {
    /// The gate is closed.
    Closed,
    /// All units are held.
    Full,
    /// Something that the event needs is missing: a remembered word, a unit of the sender, or a URL in progress.
    Nothing,
    /// The sender already holds a unit, or the URL that was taken last from the subqueue is not done.
    Busy,
    /// There is no such subqueue.
    NoSuch,
}
