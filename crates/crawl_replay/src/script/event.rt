//! A line of a script after the first, and its event.
ghost use Rattle.std.specs.Prelude.{◌≡◌, ℕ, ◌≤◌, Ok, IfOk, IfSome, option_map};
ghost use Rattle.crawl_limits.specs.Limits.{worker_limit};
ghost use Rattle.crawl_keys.specs.Outcome.{Gives};
ghost use Rattle.crawl_keys.specs.Assignment.{subqueue_of};
ghost use Rattle.crawl_keys.specs.CanonicalText.{canonical};
ghost use Rattle.crawl_replay.specs.Assignment.{IsAddressed};
ghost use Rattle.crawl_replay.specs.Script.{address_of, admit_parts, admit_of, plain_event, numbered_event, event_of, said_by};

use crate::numbers::{number32, number64};
use crate::script::error::ScriptError;
use crawl_core::{Event, Text};
use crawl_keys::{KeyError, canonical};
use std::alloc::Global;
use text_lines::{split_space, text_of};

/// Returns the event on the line with this number, for a frontier with this number of workers, or `None` if the line is empty.
///
/// # Errors
/// `LineTooLong`, `NotText`, `BadLine`, `BadUrl`, in this order, each with the number; `NoMemory`.
pub fn said_by(
    alloc: Global,
    workers: u32,
    number: u64,
    line: &[u8],
) -> Result<Option<Event>, ScriptError>
    requires some_worker { 1 ≤ workers }
    requires few_workers { workers ≤ worker_limit }
    ensures exact { Gives ScriptError.NoMemory (λ said. said) result (said_by workers number line.now) }
    ensures addressed { IfOk result (λ said. IfSome said (IsAddressed workers)) }
{
    let text = text_of(number, line)?;
    if text.is_empty() {
        return Ok(None);
    }
    Ok(Some(event_of(alloc, workers, number, text)?))
}

/// Reads the event on the line with this number, by its first word. A line that is not an event is a `BadLine`.
fn event_of(alloc: Global, workers: u32, number: u64, text: &str) -> Result<Event, ScriptError>
    requires some_worker { 1 ≤ workers }
    requires few_workers { workers ≤ worker_limit }
    ensures exact { Gives ScriptError.NoMemory (λ event. event) result (event_of workers number text.now) }
    ensures addressed { IfOk result (IsAddressed workers) }
{
    let event = match split_space(text) {
        None => plain_event(text),
        Some(("admit", rest)) => return admit_of(alloc, workers, number, rest),
        Some((word, rest)) => numbered_event(word, rest),
    };
    match event {
        Some(event) => Ok(event),
        None => Err(ScriptError::BadLine(number)),
    }
}

/// Returns the event of a line that only has this word: `endseeds` or `close`.
fn plain_event(word: &str) -> Option<Event>
    ensures exact { result ≡ plain_event word.now }
    ensures addressed { (workers : ℕ) → IfSome result (IsAddressed workers) }
{
    match word {
        "endseeds" => Some(Event::EndSeeds),
        "close" => Some(Event::Close),
        _ => None,
    }
}

/// Returns the event of a line with a word and a number. After `look`, `enter` and `back` the number is that of a sender, and after
/// `take` and `done` that of a queue.
fn numbered_event(word: &str, number: &str) -> Option<Event>
    ensures exact { result ≡ numbered_event word.now number.now }
    ensures addressed { (workers : ℕ) → IfSome result (IsAddressed workers) }
{
    match word {
        "look" => Some(Event::Look {
            sender: number64(number)?,
        }),
        "enter" => Some(Event::Enter {
            sender: number64(number)?,
        }),
        "back" => Some(Event::Back {
            sender: number64(number)?,
        }),
        "take" => Some(Event::Take {
            queue: number32(number)?,
        }),
        "done" => Some(Event::Done {
            queue: number32(number)?,
        }),
        _ => None,
    }
}

/// Returns the event of an `admit` line, from the text after its first space: a sender, a space and a URL.
fn admit_of(alloc: Global, workers: u32, number: u64, rest: &str) -> Result<Event, ScriptError>
    requires some_worker { 1 ≤ workers }
    requires few_workers { workers ≤ worker_limit }
    ensures exact { Gives ScriptError.NoMemory (λ event. event) result (admit_of workers number rest.now) }
    ensures addressed { IfOk result (IsAddressed workers) }
{
    let Some((sender, url)) = admit_parts(rest) else {
        return Err(ScriptError::BadLine(number));
    };
    let (url, queue) = address_of(alloc, workers, number, url)?;
    Ok(Event::Admit { sender, url, queue })
}

/// Splits the text at its first space into the number of a sender and the text of a URL.
fn admit_parts(rest: &str) -> Option<(u64, &str)>
    ensures { option_map (λ x. (x.0, x.1.now)) result ≡ admit_parts rest.now }
{
    let (sender, url) = split_space(rest)?;
    Some((number64(sender)?, url))
}

/// Returns the canonical URL of a text, and the subqueue to which its host key is assigned.
fn address_of(
    alloc: Global,
    workers: u32,
    number: u64,
    text: &str,
) -> Result<(Text, u32), ScriptError>
    requires some_worker { 1 ≤ workers }
    requires few_workers { workers ≤ worker_limit }
    ensures exact { Gives ScriptError.NoMemory (λ address. (address.0, address.1)) result (address_of workers number text.now) }
    ensures canonical { IfOk result (λ address. canonical address.0 ≡ Ok address.0) }
    ensures assigned { IfOk result (λ address. address.1 ≡ subqueue_of address.0 workers) }
{
    let url = match canonical(alloc, text) {
        Ok(url) => url,
        Err(KeyError::NoMemory) => return Err(ScriptError::NoMemory),
        Err(KeyError::NotUrl | KeyError::NotHttp) => return Err(ScriptError::BadUrl(number)),
    };
    let queue = url.subqueue(workers);
    Ok((Text::from_str(alloc, url.as_str())?, queue))
}
