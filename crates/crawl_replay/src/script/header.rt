//! The first line of a script.
ghost use Rattle.std.specs.Prelude.{◌≡◌};
ghost use Rattle.crawl_replay.specs.Script.{is_within, header_of};

use crate::numbers::{number32, number64};
use crawl_limits::{PENDING_LIMIT, WORKER_LIMIT};
use text_lines::split_space;

/// The content of the first line.
#[derive(Clone, Copy, Debug, PartialEq, Eq)]
pub struct Header {
    /// The number of workers, and so of subqueues.
    pub workers: u32,
    /// The frontier's maximum of pending URLs.
    pub max: u64,
}

/// Returns the header `workers N max M`, if the text is one and both numbers are within the frontier's limits.
pub fn header_of(text: &str) -> Option<Header>
    ensures { result ≡ header_of text.now }
{
    let (first, rest) = split_space(text)?;
    let (workers, rest) = split_space(rest)?;
    let (second, max) = split_space(rest)?;
    if first != "workers" || second != "max" {
        return None;
    }
    let workers = number32(workers)?;
    let max = number64(max)?;
    if is_within(workers, max) {
        Some(Header { workers, max })
    } else {
        None
    }
}

/// Whether both numbers are at least 1 and at most their limits.
fn is_within(workers: u32, max: u64) -> bool
    ensures { result ≡ is_within workers max }
{
    1 <= workers && workers <= WORKER_LIMIT && 1 <= max && max <= PENDING_LIMIT
}
