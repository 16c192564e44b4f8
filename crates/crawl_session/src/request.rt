//! The request of a line.
ghost use Rattle.std.specs.Prelude.{◌≡◌, ◌≤◌};
ghost use Rattle.crawl_keys.specs.CanonicalText.{resolve};
ghost use Rattle.crawl_keys.specs.Outcome.{Gives};
ghost use Rattle.crawl_session.specs.Requests as spec;
ghost use Rattle.text_lines.specs.Fields.{at_space};
ghost use Rattle.crawl_session.specs.declared.request.RequestError.TheVariants as wrong;

use crawl_core::Text;
use crawl_keys::{Base, CanonUrl, Filter, KeyError, canonical, hash};
use crawl_replay::{number32, number64};
use std::alloc::{AllocError, Global};
use text_lines::{LineError, split_space, text_of};

/// A request to the frontier.
#[derive(Debug, PartialEq, Eq, Drop)]
pub enum Request {
    /// `offer URL`, `link BASE TEXT`: accept this canonical URL into the subqueue that its host key is assigned to.
    Offer { url: Text, queue: u32 },
    /// `next Q`: take the URL that has waited longest in the subqueue.
    Next { queue: u32 },
    /// `again Q`: repeat the URL that the subqueue is busy with.
    Again { queue: u32 },
    /// `later Q`: put the URL that the subqueue is busy with back to the end of the subqueue.
    Later { queue: u32 },
    /// `done Q`: the URL that the subqueue is busy with is done.
    Done { queue: u32 },
    /// `endseeds`: no more seeds will come.
    EndSeeds,
    /// `stats`, `stats Q`: count the URLs of all subqueues, or of one.
    Stats { queue: Option<u32> },
    /// `seen Q COUNT`: that many offers to the subqueue were answered `seen`. It is for compacted logs.
    Seen { queue: u32, count: u64 },
}

/// Why a line is no request to the frontier: it has an error, or the frontier is not needed for its answer.
#[derive(Debug, PartialEq, Eq, Drop)]
pub enum RequestError {
    /// The line has more than [`LINE_LIMIT`](text_lines::LINE_LIMIT) bytes.
    LineTooLong,
    /// The line is not UTF-8.
    NotText,
    /// There is no such request.
    BadLine,
    /// The text that is offered, or the base of a link, is not a URL.
    NotUrl,
    /// The URL that is offered, or the base of a link, is neither `http` nor `https`.
    NotHttp,
    /// The filter does not allow the URL that is offered.
    Filtered,
    /// The URL that is offered belongs to another part of the crawl, which has this number.
    Elsewhere { part: u32, url: Text },
    /// The queue is another part's.
    OtherQueue,
    /// `sync`: the caller has synced the log to disk.
    Sync,
    /// `identity`: the identity of the session's log.
    Identity(Text),
    /// Out of memory. This can happen instead of any other answer.
    NoMemory,
}

impl From<LineError> for RequestError {
    ghost from_gives = { λ line_error error. error ≡ spec.of_line line_error };

    fn from(line_error: LineError) -> RequestError {
        match line_error {
            LineError::TooLong(_) => RequestError::LineTooLong,
            LineError::NotText(_) => RequestError::NotText,
        }
    }
}

impl From<AllocError> for RequestError {
    ghost from_gives = { λ _ error. error ≡ wrong.NoMemory };

    fn from(_refused: AllocError) -> RequestError {
        RequestError::NoMemory
    }
}

/// The request of a line to a frontier with that number of workers and this filter.
///
/// # Errors
/// In the order of [`RequestError`].
pub fn request_of(
    alloc: Global,
    workers: u32,
    filter: &Filter,
    line: &[u8],
) -> Result<Request, RequestError>
    requires some_worker { 1 ≤ workers }
    ensures { Gives RequestError.NoMemory (λ request. request) result (spec.request_of workers filter.now line.now) }
{
    let text = text_of(1, line)?;
    request_from(alloc, workers, filter, text)
}

/// Reads a request from the text of a line, by its first word. A text that is no request is a `BadLine`.
fn request_from(
    alloc: Global,
    workers: u32,
    filter: &Filter,
    text: &str,
) -> Result<Request, RequestError>
    requires some_worker { 1 ≤ workers }
    ensures { Gives RequestError.NoMemory (λ request. request) result (spec.request_from workers filter.now text.now (at_space text.now)) }
{
    let request = match split_space(text) {
        None => plain_request(text),
        Some(("offer", url)) => return offer_of(alloc, workers, filter, url),
        Some(("link", rest)) => return link_of(alloc, workers, filter, rest),
        Some((word, number)) => numbered_request(word, number),
    };
    match request {
        Some(request) => Ok(request),
        None => Err(RequestError::BadLine),
    }
}

/// Returns the request of a line that is only this word: `endseeds` or `stats`.
fn plain_request(word: &str) -> Option<Request>
    ensures { result ≡ spec.plain_request word.now }
{
    match word {
        "endseeds" => Some(Request::EndSeeds),
        "stats" => Some(Request::Stats { queue: None }),
        _ => None,
    }
}

/// Returns the request of a line with a word and the number of a queue: `next`, `again`, `later`, `done` or `stats`, or `seen` with
/// two numbers.
fn numbered_request(word: &str, number: &str) -> Option<Request>
    ensures { result ≡ spec.numbered_request word.now number.now }
{
    match word {
        "next" => Some(Request::Next {
            queue: number32(number)?,
        }),
        "again" => Some(Request::Again {
            queue: number32(number)?,
        }),
        "later" => Some(Request::Later {
            queue: number32(number)?,
        }),
        "done" => Some(Request::Done {
            queue: number32(number)?,
        }),
        "stats" => Some(Request::Stats {
            queue: Some(number32(number)?),
        }),
        "seen" => seen_request(number),
        _ => None,
    }
}

/// Returns the request of a line `seen` with these numbers.
fn seen_request(numbers: &str) -> Option<Request>
    ensures { result ≡ spec.seen_request (at_space numbers.now) }
{
    let (queue, count) = split_space(numbers)?;
    let queue = number32(queue)?;
    let count = number64(count)?;
    Some(Request::Seen { queue, count })
}

/// The offer of the text's canonical URL.
fn offer_of(
    alloc: Global,
    workers: u32,
    filter: &Filter,
    text: &str,
) -> Result<Request, RequestError>
    requires some_worker { 1 ≤ workers }
    ensures { Gives RequestError.NoMemory (λ request. request) result (spec.offer_of workers filter.now text.now) }
{
    match canonical(alloc, text) {
        Ok(url) => offered(alloc, workers, filter, &url),
        Err(why) => Err(error_of(why)),
    }
}

/// The offer of a text that is resolved against a base. The base ends at the first space, and the text is the rest.
fn link_of(
    alloc: Global,
    workers: u32,
    filter: &Filter,
    rest: &str,
) -> Result<Request, RequestError>
    requires some_worker { 1 ≤ workers }
    ensures { Gives RequestError.NoMemory (λ request. request) result (spec.link_of workers filter.now (at_space rest.now)) }
{
    let Some((base, text)) = split_space(rest) else {
        return Err(RequestError::BadLine);
    };
    match Base::canonical(alloc, base) {
        Ok(base) => linked(alloc, workers, filter, &base, text),
        Err(why) => Err(error_of(why)),
    }
}

/// Returns the offer of the text resolved against the base, if the filter allows the URL.
fn linked(
    alloc: Global,
    workers: u32,
    filter: &Filter,
    base: &Base,
    text: &str,
) -> Result<Request, RequestError>
    requires some_worker { 1 ≤ workers }
    ensures { Gives RequestError.NoMemory (λ request. request) result (spec.offered workers filter.now (resolve base.now text.now)) }
{
    match base.resolve(alloc, text) {
        Ok(url) => offered(alloc, workers, filter, &url),
        Err(why) => Err(error_of(why)),
    }
}

/// The error of a text that cannot be offered.
fn error_of(why: KeyError) -> RequestError
    ensures { result ≡ spec.of_key why }
{
    match why {
        KeyError::NotUrl => RequestError::NotUrl,
        KeyError::NotHttp => RequestError::NotHttp,
        KeyError::NoMemory => RequestError::NoMemory,
    }
}

/// The offer of the URL, if the filter allows it.
fn offered(
    alloc: Global,
    workers: u32,
    filter: &Filter,
    url: &CanonUrl,
) -> Result<Request, RequestError>
    requires some_worker { 1 ≤ workers }
    ensures { Gives RequestError.NoMemory (λ request. request) result (spec.allowed workers filter.now url.now) }
{
    if !filter.allows(url) {
        return Err(RequestError::Filtered);
    }
    let queue = hash(url.host_key()) % workers;
    let url = Text::from_str(alloc, url.as_str())?;
    Ok(Request::Offer { url, queue })
}
