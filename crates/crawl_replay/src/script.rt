//! Scripts: a header, and events in order, one per line.
ghost use Rattle.std.specs.Prelude.{◌≡◌, ◌⊎◌, ◌+◌, ◌^◌, ◌<◌, ◌≤◌, length, IfOk, IfErr};
ghost use Rattle.std.specs.Str.Lines.{lines};
ghost use Rattle.crawl_keys.specs.Outcome.{Gives};
ghost use Rattle.crawl_replay.specs.Script.{header_in, events_of, script_of};
ghost use Rattle.crawl_replay.specs.ScriptContent.{content};
ghost use Rattle.crawl_limits.specs.Limits.{AreLimits, worker_limit};
ghost use Rattle.crawl_replay.specs.Assignment.{IsAssigned, AreAddressed};
ghost use Rattle.crawl_replay.specs.LeastError.{IsScriptError};

mod error;
mod event;
mod header;

use crawl_core::Event;
pub use error::ScriptError;
use event::said_by;
pub use header::{Header, header_of};
use std::alloc::Global;
use text_lines::{first_line, text_of};

/// Events for a frontier, and the numbers with which it is made.
#[derive(Debug, PartialEq, Eq, Drop)]
pub struct Script {
    /// The number of workers, and so of subqueues: 1 to [`WORKER_LIMIT`](crawl_core::WORKER_LIMIT).
    pub workers: u32,
    /// The frontier's maximum of pending URLs: 1 to [`PENDING_LIMIT`](crawl_core::PENDING_LIMIT).
    pub max: u64,
    /// The events, in order.
    pub events: Vec<Event>,
}

/// Reads the script in these bytes.
///
/// The first line is `workers N max M`. Each line after it is empty or an event: `look S`, `enter S`, `back S`, `admit S URL`,
/// `endseeds`, `take Q`, `done Q` or `close`. One space separates two fields. A number has one to twenty digits. The URL is all of
/// the line after the second space; [`canonical`](crawl_keys::canonical) reads it, and it goes to the subqueue to which its host
/// key is assigned.
///
/// # Errors
/// The first check, in the order of [`ScriptError`], that the first line with an error fails; `NoMemory` if an allocation failed.
#[tactic(auto, using(crate::proofs::Least::least))]
pub fn read_script(alloc: Global, bytes: &[u8]) -> Result<Script, ScriptError>
    ensures exact { Gives ScriptError.NoMemory content result (script_of bytes.now) }
    ensures limits { IfOk result (λ script. AreLimits script.workers script.max) }
    // Each admission names the subqueue to which the host key of its URL is assigned, and its text is a canonical URL.
    ensures assigned { IfOk result (λ script. IsAssigned script.workers script.events.items) }
    ensures addressed { IfOk result (λ script. AreAddressed script.workers script.events.items) }
    // The error is that of the first line that has one.
    ensures least { IfErr result (λ error. IsScriptError (lines bytes.now) error ⊎ (error ≡ ScriptError.NoMemory)) }
{
    script_from(alloc, bytes)
}

/// Reads the header in the first line, and then the events in the others.
fn script_from(alloc: Global, bytes: &[u8]) -> Result<Script, ScriptError>
    ensures exact { Gives ScriptError.NoMemory content result (script_of bytes.now) }
    ensures limits { IfOk result (λ script. AreLimits script.workers script.max) }
    ensures addressed { IfOk result (λ script. AreAddressed script.workers script.events.items) }
{
    let Some((line, rest)) = first_line(bytes) else {
        return Err(ScriptError::BadHeader);
    };
    let Header { workers, max } = header_in(line)?;
    Ok(Script {
        workers,
        max,
        events: events_of(alloc, workers, rest)?,
    })
}

/// Reads `workers N max M`. Any other line, and a number outside its limits, is a `BadHeader`.
fn header_in(line: &[u8]) -> Result<Header, ScriptError>
    ensures exact { result ≡ header_in line.now }
    ensures limits { IfOk result (λ header. AreLimits header.workers header.max) }
{
    header_of(text_of(1, line)?).ok_or(ScriptError::BadHeader)
}

/// Returns the events on the lines after the first.
fn events_of(alloc: Global, workers: u32, bytes: &[u8]) -> Result<Vec<Event>, ScriptError>
    requires some_worker { 1 ≤ workers }
    requires few_workers { workers ≤ worker_limit }
    requires room_to_count { length bytes.now + 1 < 2 ^ 64 }
    ensures exact { Gives ScriptError.NoMemory (λ events. events.items) result (events_of workers 2 (lines bytes.now)) }
    ensures addressed { IfOk result (λ events. AreAddressed workers events.items) }
{
    let mut events = Vec::new(alloc);
    let mut rest = bytes;
    let mut number: u64 = 1;
    while let Some((line, more)) = first_line(rest) {
        rest = more;
        number += 1;
        let said = said_by(alloc, workers, number, line)?;
        if let Some(event) = said {
            events.push(event)?;
        }
    }
    Ok(events)
}
