//! One of several frontiers that share a crawl.
ghost use Rattle.std.specs.Prelude.{◌≡◌, ◌≤◌};
ghost use Rattle.crawl_session.specs.Parts as spec;

use crate::request::{Request, RequestError};
use crawl_core::Text;

/// A part of a crawl. All parts have the same number of queues, and the queues are numbered part by part.
#[derive(Debug, PartialEq, Eq, Drop)]
pub struct Part {
    /// Its number, from 0.
    pub number: u32,
    /// How many queues each part has.
    pub queues: u32,
    /// The identity of its log, the answer to `identity`.
    pub identity: Text,
}

/// The request, unless its queue belongs to another part.
pub(crate) fn placed(part: &Part, request: Request) -> Result<Request, RequestError>
    requires { 1 ≤ part.now.queues }
    ensures { result ≡ spec.placed part.now request }
{
    match request {
        Request::Offer { url, queue } => {
            if is_own(part, queue) {
                Ok(Request::Offer { url, queue })
            } else {
                let part = queue / part.queues;
                Err(RequestError::Elsewhere { part, url })
            }
        }
        Request::Next { queue } if !is_own(part, queue) => Err(RequestError::OtherQueue),
        Request::Again { queue } if !is_own(part, queue) => Err(RequestError::OtherQueue),
        Request::Later { queue } if !is_own(part, queue) => Err(RequestError::OtherQueue),
        Request::Done { queue } if !is_own(part, queue) => Err(RequestError::OtherQueue),
        Request::Stats { queue: Some(queue) } if !is_own(part, queue) => {
            Err(RequestError::OtherQueue)
        }
        other => Ok(other),
    }
}

/// Whether the queue with this number among those of all parts belongs to this part.
fn is_own(part: &Part, queue: u32) -> bool
    requires { 1 ≤ part.now.queues }
    ensures { result ≡ spec.is_own part.now queue }
{
    queue / part.queues == part.number
}
