//! A line of a sender's log.

/// The position of a URL in the list of `queue`: an offer of the sender added it there, or found it there.
///
/// A line takes 8 bytes. The list only grows, so the entry at this index stays there for good.
#[derive(Clone, Copy, Debug)]
pub struct LogLine {
    pub index: u32,
    pub queue: u16,
    pub accepted: bool,
}
