//! The log of a session with other settings that has the URLs of an old session.
ghost use Rattle.std.specs.Prelude.{◌≡◌, ◌≢◌, ◌++◌, ◌∷◌, [], codes, decimal, false, string_bytes, true, ℕ, Err, IfErr, IfOk, option_map, option_to_list};
ghost use Rattle.std.specs.Io.KnownBytes.{Appends};
ghost use Rattle.crawl_session.specs.Compacting.{says_closed};
ghost use Rattle.crawl_session.specs.Exchanges.{exchange};
ghost use Rattle.crawl_session.specs.Frontiers.{Frontier, Shows};
ghost use Rattle.crawl_session.specs.Listing.{is_count};
ghost use Rattle.crawl_session.specs.Rebuilding as spec;
ghost use Rattle.crawl_session.specs.Rebuilding.{IsFull, IsRefused, Offers, Copies, Writes};
ghost use Rattle.crawl_session.specs.declared.rebuild.RebuildError.TheVariants as wrong;
ghost use Rattle.crawl_session.specs.declared.request.Request.TheVariants as request;
ghost use Rattle.crawl_session.specs.declared.request.RequestError.TheVariants as why;

use crate::answer::Answer;
use crate::inventory::{Inventory, WaitingUrls, is_closed};
use crate::list::is_count;
use crate::request::{Request, RequestError};
use crate::session::Session;
use crawl_core::{NoMemory, Refusal, Reply, Text};
use std::alloc::{AllocError, AllocFailed, Global};
use std::io::Write;

/// Why no log of the new session can be written.
#[derive(Clone, Copy, Debug, PartialEq, Eq)]
pub enum RebuildError {
    /// The new session refused a URL, because it has no room.
    Full,
    /// A line was not answered as it has to be. This can happen to a URL that is too long for an `offer`.
    Unfit,
    /// A write failed.
    CannotWrite,
    /// An allocation failed.
    NoMemory,
}

impl From<AllocError> for RebuildError {
    ghost from_gives = { λ _ error. error ≡ wrong.NoMemory };

    fn from(_refused: AllocError) -> RebuildError {
        RebuildError::NoMemory
    }
}

impl<T: Drop> From<AllocFailed<T>> for RebuildError {
    ghost from_gives = { λ _ error. error ≡ wrong.NoMemory };

    fn from(_refused: AllocFailed<T>) -> RebuildError {
        RebuildError::NoMemory
    }
}

/// How many URLs the filter of the new session does not allow.
#[derive(Clone, Copy, Debug, PartialEq, Eq)]
pub struct LeftOut {
    /// Of all URLs.
    pub all: u64,
    /// Of those that are not done.
    pub unfinished: u64,
}

impl LeftOut {
    /// Returns the numbers of no URLs.
    pub fn none() -> LeftOut
        ensures { result ≡ spec.none_left_out }
    {
        LeftOut {
            all: 0,
            unfinished: 0,
        }
    }

    /// Returns the numbers with these added.
    ///
    /// # Errors
    /// If a sum is over 2^64, which no memory holds.
    fn plus(&self, more: &LeftOut) -> Result<LeftOut, NoMemory>
        ensures { IfOk result (λ sum. sum ≡ spec.plus self.now more.now) }
    {
        let (Some(all), Some(unfinished)) = (
            self.all.checked_add(more.all),
            self.unfinished.checked_add(more.unfinished),
        ) else {
            return Err(AllocError);
        };
        Ok(LeftOut { all, unfinished })
    }
}

/// Gives a new session the lines of a log that has the URLs of the inventory, and writes them. The session has the given queue.
/// Returns how many URLs its filter does not allow.
///
/// # Errors
/// Those of [`RebuildError`].
#[tactic(auto, using(std::proofs::lemmas::Result::err_from_is_err_and, crate::proofs::Rebuilding::rebuilt_ended, crate::proofs::Rebuilding::rebuilt_unfinished))]
pub fn rebuild_log<O: Write>(
    inventory: &Inventory,
    session: &mut Session,
    queue: u32,
    out: &mut O,
) -> Result<LeftOut, RebuildError>
    ensures written { IfOk result (λ left_out. Writes (spec.rebuilt session.old.settings queue inventory.now) session.old (O.contents out.old) (O.contents out.new) left_out session.new) }
    ensures full { IfErr result (λ error. error ≡ wrong.Full → IsFull (spec.rebuilt session.old.settings queue inventory.now) session.old) }
{
    let done = write_done(inventory, session, out)?;
    let unfinished = write_unfinished(inventory, session, out)?;
    let others = write_closing(inventory, session, queue, out)?;
    let left_out = done.plus(&unfinished)?;
    Ok(left_out.plus(&others)?)
}

/// Writes the end of the seeds, and the URLs that are done.
#[tactic(auto, using(std::proofs::lemmas::Result::err_from_is_err_and, crate::proofs::Rebuilding::ended_full))]
fn write_done<O: Write>(
    inventory: &Inventory,
    session: &mut Session,
    out: &mut O,
) -> Result<LeftOut, RebuildError>
    ensures written { IfOk result (λ left_out. Writes (spec.ended_urls session.old.settings inventory.now) session.old (O.contents out.old) (O.contents out.new) left_out session.new) }
    ensures full { IfErr result (λ error. error ≡ wrong.Full → IsFull (spec.ended_urls session.old.settings inventory.now) session.old) }
{
    end_seeds_if(inventory.ended, session, out)?;
    done_urls(inventory.alloc, session, &inventory.done, out)
}

/// Writes the URLs that are not done.
#[tactic(auto, using(std::proofs::lemmas::Result::err_from_is_err_and, crate::proofs::Rebuilding::busy_full, crate::proofs::Rebuilding::pending_full))]
fn write_unfinished<O: Write>(
    inventory: &Inventory,
    session: &mut Session,
    out: &mut O,
) -> Result<LeftOut, RebuildError>
    ensures written { IfOk result (λ left_out. Writes (spec.unfinished_urls session.old.settings inventory.now) session.old (O.contents out.old) (O.contents out.new) left_out session.new) }
    ensures full { IfErr result (λ error. error ≡ wrong.Full → IsFull (spec.unfinished_urls session.old.settings inventory.now) session.old) }
{
    let busy = waiting_urls(inventory.alloc, session, &inventory.in_progress, out)?;
    let pending = pending_urls(inventory.alloc, session, &inventory.pending, out)?;
    Ok(busy.plus(&pending)?)
}

/// Writes the URLs of other parts, and the line that closes the session.
fn write_closing<O: Write>(
    inventory: &Inventory,
    session: &mut Session,
    queue: u32,
    out: &mut O,
) -> Result<LeftOut, RebuildError>
    ensures written { IfOk result (λ left_out. Writes (spec.closing session.old.settings queue inventory.now) session.old (O.contents out.old) (O.contents out.new) left_out session.new) }
    ensures room { IfErr result (λ error. error ≢ wrong.Full) }
{
    let others = other_urls(
        inventory.alloc,
        session,
        inventory.elsewhere.as_slice(),
        out,
    )?;
    close_if(inventory.alloc, inventory.closed, session, queue, out)?;
    Ok(others)
}

/// Ends the seeds of the new session, if they had ended in the old one.
fn end_seeds_if<O: Write>(
    ended: bool,
    session: &mut Session,
    out: &mut O,
) -> Result<(), RebuildError>
    ensures written { IfOk result (λ _. Writes (spec.line_if ended session.old.settings spec.end_line is_count) session.old (O.contents out.old) (O.contents out.new) spec.none_left_out session.new) }
    ensures room { IfErr result (λ error. error ≢ wrong.Full) }
{
    if !ended {
        return Ok(());
    }
    let answer = record_line(session, "endseeds", out)?;
    fit_if(is_count(&answer))
}

/// Closes the new session by `next` of this queue, if the old one was closed.
fn close_if<O: Write>(
    alloc: Global,
    closed: bool,
    session: &mut Session,
    queue: u32,
    out: &mut O,
) -> Result<(), RebuildError>
    ensures written { IfOk result (λ _. Writes (spec.line_if closed session.old.settings (spec.next_line queue) says_closed) session.old (O.contents out.old) (O.contents out.new) spec.none_left_out session.new) }
    ensures room { IfErr result (λ error. error ≢ wrong.Full) }
{
    if !closed {
        return Ok(());
    }
    let line = queue_line(alloc, "next", queue)?;
    let answer = record_line(session, &line, out)?;
    fit_if(is_closed(&answer))
}

/// Writes URLs that are done.
fn done_urls<O: Write>(
    alloc: Global,
    session: &mut Session,
    urls: &[Text],
    out: &mut O,
) -> Result<LeftOut, RebuildError>
    ensures written { IfOk result (λ left_out. Writes (spec.each_url (spec.done_url session.old.settings) urls.now) session.old (O.contents out.old) (O.contents out.new) left_out session.new) }
    ensures full { IfErr result (λ error. error ≡ wrong.Full → IsFull (spec.each_url (spec.done_url session.old.settings) urls.now) session.old) }
{
    let mut left_out = LeftOut::none();
    for url in urls {
        let more = done_url(alloc, session, url, out)?;
        left_out = left_out.plus(&more)?;
    }
    Ok(left_out)
}

/// Writes a URL that is done: it is offered, taken and done.
#[tactic(auto, using(std::proofs::lemmas::Result::err_from_is_err_and, crate::proofs::Rebuilding::done_more, crate::proofs::Rebuilding::full_done))]
fn done_url<O: Write>(
    alloc: Global,
    session: &mut Session,
    url: &Text,
    out: &mut O,
) -> Result<LeftOut, RebuildError>
    ensures written { IfOk result (λ left_out. Writes (spec.done_url session.old.settings url.now) session.old (O.contents out.old) (O.contents out.new) left_out session.new) }
    ensures full { IfErr result (λ error. error ≡ wrong.Full → IsFull (spec.done_url session.old.settings url.now) session.old) }
{
    match offer(alloc, session, url, out)? {
        None => Ok(LeftOut {
            all: 1,
            unfinished: 0,
        }),
        Some(queue) => {
            finish(alloc, session, url, queue, out)?;
            Ok(LeftOut::none())
        }
    }
}

/// Takes the URL from its queue, in which no other URL waits, and ends it.
fn finish<O: Write>(
    alloc: Global,
    session: &mut Session,
    url: &Text,
    queue: u32,
    out: &mut O,
) -> Result<(), RebuildError>
    ensures written { IfOk result (λ _. Writes (spec.finish_url session.old.settings url.now queue) session.old (O.contents out.old) (O.contents out.new) spec.none_left_out session.new) }
    ensures room { IfErr result (λ error. error ≢ wrong.Full) }
{
    take_url(alloc, session, url, queue, out)?;
    end_url(alloc, session, queue, out)
}

/// Takes the URL from its queue.
fn take_url<O: Write>(
    alloc: Global,
    session: &mut Session,
    url: &Text,
    queue: u32,
    out: &mut O,
) -> Result<(), RebuildError>
    ensures written { IfOk result (λ _. Writes (spec.one_line session.old.settings (spec.next_line queue) (spec.takes_url url.now)) session.old (O.contents out.old) (O.contents out.new) spec.none_left_out session.new) }
    ensures room { IfErr result (λ error. error ≢ wrong.Full) }
{
    let line = queue_line(alloc, "next", queue)?;
    let answer = record_line(session, &line, out)?;
    fit_if(takes_url(&answer, url))
}

/// Ends the URL that the queue is busy with.
fn end_url<O: Write>(
    alloc: Global,
    session: &mut Session,
    queue: u32,
    out: &mut O,
) -> Result<(), RebuildError>
    ensures written { IfOk result (λ _. Writes (spec.one_line session.old.settings (spec.done_line queue) is_count) session.old (O.contents out.old) (O.contents out.new) spec.none_left_out session.new) }
    ensures room { IfErr result (λ error. error ≢ wrong.Full) }
{
    let line = queue_line(alloc, "done", queue)?;
    let answer = record_line(session, &line, out)?;
    fit_if(is_count(&answer))
}

/// Writes URLs that are not done.
fn waiting_urls<O: Write>(
    alloc: Global,
    session: &mut Session,
    urls: &[Text],
    out: &mut O,
) -> Result<LeftOut, RebuildError>
    ensures written { IfOk result (λ left_out. Writes (spec.each_url (spec.waiting_url session.old.settings) urls.now) session.old (O.contents out.old) (O.contents out.new) left_out session.new) }
    ensures full { IfErr result (λ error. error ≡ wrong.Full → IsFull (spec.each_url (spec.waiting_url session.old.settings) urls.now) session.old) }
{
    let mut left_out = LeftOut::none();
    for url in urls {
        let more = waiting_url(alloc, session, url, out)?;
        left_out = left_out.plus(&more)?;
    }
    Ok(left_out)
}

/// Writes the URLs that wait in these queues: the first of each queue, then the second of each, and so on.
fn pending_urls<O: Write>(
    alloc: Global,
    session: &mut Session,
    queues: &[WaitingUrls],
    out: &mut O,
) -> Result<LeftOut, RebuildError>
    ensures written { IfOk result (λ left_out. Writes (spec.each_url (spec.waiting_url session.old.settings) (spec.by_turns queues.now)) session.old (O.contents out.old) (O.contents out.new) left_out session.new) }
    ensures full { IfErr result (λ error. error ≡ wrong.Full → IsFull (spec.each_url (spec.waiting_url session.old.settings) (spec.by_turns queues.now)) session.old) }
{
    let mut left_out = LeftOut::none();
    for position in 0..longest(queues) {
        let more = write_turn(alloc, session, position, queues, out)?;
        left_out = left_out.plus(&more)?;
    }
    Ok(left_out)
}

/// Returns the number of URLs of the longest queue.
fn longest(queues: &[WaitingUrls]) -> usize
    ensures { result ≡ spec.longest queues.now }
{
    let mut longest = 0;
    for queue in queues {
        longest = queue.len().max(longest);
    }
    longest
}

/// Writes the URL at this position of each queue.
fn write_turn<O: Write>(
    alloc: Global,
    session: &mut Session,
    position: usize,
    queues: &[WaitingUrls],
    out: &mut O,
) -> Result<LeftOut, RebuildError>
    ensures written { IfOk result (λ left_out. Writes (spec.each_url (spec.waiting_url session.old.settings) (spec.turn position queues.now)) session.old (O.contents out.old) (O.contents out.new) left_out session.new) }
    ensures full { IfErr result (λ error. error ≡ wrong.Full → IsFull (spec.each_url (spec.waiting_url session.old.settings) (spec.turn position queues.now)) session.old) }
{
    let mut left_out = LeftOut::none();
    for queue in queues {
        let more = waiting_at(alloc, session, queue.get(position), out)?;
        left_out = left_out.plus(&more)?;
    }
    Ok(left_out)
}

/// Writes a URL that is not done, if there is one.
fn waiting_at<O: Write>(
    alloc: Global,
    session: &mut Session,
    url: Option<&Text>,
    out: &mut O,
) -> Result<LeftOut, RebuildError>
    ensures written { IfOk result (λ left_out. Writes (spec.each_url (spec.waiting_url session.old.settings) (option_to_list (option_map (λ u. u.now) url.entry))) session.old (O.contents out.old) (O.contents out.new) left_out session.new) }
    ensures full { IfErr result (λ error. error ≡ wrong.Full → IsFull (spec.each_url (spec.waiting_url session.old.settings) (option_to_list (option_map (λ u. u.now) url.entry))) session.old) }
{
    match url {
        Some(url) => waiting_url(alloc, session, url, out),
        None => Ok(LeftOut::none()),
    }
}

/// Writes a URL that is not done: it is offered.
#[tactic(auto, using(std::proofs::lemmas::Result::err_from_is_err_and, crate::proofs::Rebuilding::full_waiting))]
fn waiting_url<O: Write>(
    alloc: Global,
    session: &mut Session,
    url: &Text,
    out: &mut O,
) -> Result<LeftOut, RebuildError>
    ensures written { IfOk result (λ left_out. Writes (spec.waiting_url session.old.settings url.now) session.old (O.contents out.old) (O.contents out.new) left_out session.new) }
    ensures full { IfErr result (λ error. error ≡ wrong.Full → IsFull (spec.waiting_url session.old.settings url.now) session.old) }
{
    match offer(alloc, session, url, out)? {
        None => Ok(LeftOut {
            all: 1,
            unfinished: 1,
        }),
        Some(_) => Ok(LeftOut::none()),
    }
}

/// Offers the URL. Returns its queue, or `None` if the filter does not allow it: then no line is written.
fn offer<O: Write>(
    alloc: Global,
    session: &mut Session,
    url: &Text,
    out: &mut O,
) -> Result<Option<u32>, RebuildError>
    ensures offers { IfOk result (λ queue. Offers url.now session.old (O.contents out.old) (O.contents out.new) queue session.new) }
    ensures full { IfErr result (λ error. error ≡ wrong.Full → IsRefused url.now session.old) }
{
    let line = offer_line(alloc, url)?;
    let requested = session.request(line.as_bytes());
    let Some(queue) = queue_of_offer(&requested, url)? else {
        return Ok(None);
    };
    accept(session, url, queue)?;
    write_line(&line, out)?;
    Ok(Some(queue))
}

/// Returns the queue that the offer of this URL names, or `None` if the filter does not allow it.
fn queue_of_offer(
    requested: &Result<Request, RequestError>,
    url: &Text,
) -> Result<Option<u32>, RebuildError>
    ensures asks { IfOk result (λ queue. requested.now ≡ spec.offer_asks url.now queue) }
    ensures room { IfErr result (λ error. error ≢ wrong.Full) }
{
    match requested {
        Ok(Request::Offer { url: named, queue }) if named == url => Ok(Some(*queue)),
        Err(RequestError::Filtered) => Ok(None),
        Err(RequestError::NoMemory) => Err(RebuildError::NoMemory),
        _ => Err(RebuildError::Unfit),
    }
}

/// Has the session accept the URL into its queue.
fn accept(session: &mut Session, url: &Text, queue: u32) -> Result<(), RebuildError>
    ensures settings { session.new.settings ≡ session.old.settings }
    ensures accepted { IfOk result (λ _. (state : Frontier) → Shows session.old.core state → (spec.is_accepted (exchange state (request.Offer url.now queue)).answer ≡ true) × Shows session.new.core (exchange state (request.Offer url.now queue)).state) }
    ensures full { IfErr result (λ error. error ≡ wrong.Full → (state : Frontier) → Shows session.old.core state → spec.is_full (exchange state (request.Offer url.now queue)).answer ≡ true) }
{
    let url = url.clone()?;
    let answer = session.frontier.exchange(Request::Offer { url, queue })?;
    fit_offer(&answer)
}

/// Returns an error unless the answer to an offer is `accepted`.
fn fit_offer(answer: &Answer) -> Result<(), RebuildError>
    ensures accepted { IfOk result (λ _. spec.is_accepted answer.now ≡ true) }
    ensures full { IfErr result (λ error. error ≡ wrong.Full → spec.is_full answer.now ≡ true) }
{
    match answer {
        Answer::Replied(Reply::Accepted { .. }) => Ok(()),
        Answer::Replied(Reply::Refused(Refusal::Full)) => Err(RebuildError::Full),
        _ => Err(RebuildError::Unfit),
    }
}

/// Writes URLs of other parts.
fn other_urls<O: Write>(
    alloc: Global,
    session: &mut Session,
    urls: &[Text],
    out: &mut O,
) -> Result<LeftOut, RebuildError>
    ensures written { IfOk result (λ left_out. Writes (spec.each_url (spec.other_url session.old.settings) urls.now) session.old (O.contents out.old) (O.contents out.new) left_out session.new) }
    ensures room { IfErr result (λ error. error ≢ wrong.Full) }
{
    let mut left_out = LeftOut::none();
    for url in urls {
        let more = other_url(alloc, session, url, out)?;
        left_out = left_out.plus(&more)?;
    }
    Ok(left_out)
}

/// Writes a URL of another part, unless the filter does not allow it.
#[tactic(auto, using(crate::proofs::Rebuilding::other_left))]
fn other_url<O: Write>(
    alloc: Global,
    session: &mut Session,
    url: &Text,
    out: &mut O,
) -> Result<LeftOut, RebuildError>
    ensures written { IfOk result (λ left_out. Writes (spec.other_url session.old.settings url.now) session.old (O.contents out.old) (O.contents out.new) left_out session.new) }
    ensures room { IfErr result (λ error. error ≢ wrong.Full) }
{
    let line = offer_line(alloc, url)?;
    let requested = session.request(line.as_bytes());
    if !is_elsewhere(&requested, url)? {
        return Ok(LeftOut {
            all: 1,
            unfinished: 0,
        });
    }
    write_line(&line, out)?;
    Ok(LeftOut::none())
}

/// Whether the offer of this URL is for another part. If not, the filter does not allow the URL.
fn is_elsewhere(requested: &Result<Request, RequestError>, url: &Text) -> Result<bool, RebuildError>
    ensures other { IfOk result (λ is. is ≡ true → (part : ℕ) × (requested.now ≡ Err (why.Elsewhere part url.now))) }
    ensures filtered { IfOk result (λ is. is ≡ false → requested.now ≡ Err why.Filtered) }
    ensures room { IfErr result (λ error. error ≢ wrong.Full) }
{
    match requested {
        Err(RequestError::Elsewhere { url: named, .. }) if named == url => Ok(true),
        Err(RequestError::Filtered) => Ok(false),
        Err(RequestError::NoMemory) => Err(RebuildError::NoMemory),
        _ => Err(RebuildError::Unfit),
    }
}

/// Returns an error unless a line was answered as it has to be.
fn fit_if(fits: bool) -> Result<(), RebuildError>
    ensures fits { IfOk result (λ _. fits ≡ true) }
    ensures room { IfErr result (λ error. error ≢ wrong.Full) }
{
    if fits {
        Ok(())
    } else {
        Err(RebuildError::Unfit)
    }
}

/// Whether the answer gives out this URL.
fn takes_url(answer: &Answer, url: &Text) -> bool
    ensures { result ≡ spec.takes_url url.now answer.now }
{
    match answer {
        Answer::Replied(Reply::Taken(named)) => named == url,
        _ => false,
    }
}

/// Returns the line that offers a URL.
fn offer_line(alloc: Global, url: &Text) -> Result<String, NoMemory>
    ensures { IfOk result (λ line. string_bytes line ≡ spec.offer_line url.now) }
{
    let mut line = String::new(alloc);
    write!(line, "offer {url}")?;
    Ok(line)
}

/// Returns the line with this word and the number of a queue.
fn queue_line(alloc: Global, word: &str, queue: u32) -> Result<String, NoMemory>
    ensures { IfOk result (λ line. string_bytes line ≡ word.now ++ codes " " ++ decimal queue) }
{
    let mut line = String::new(alloc);
    write!(line, "{word} {queue}")?;
    Ok(line)
}

/// Gives a line to the session, and writes it.
fn record_line<O: Write>(
    session: &mut Session,
    line: &str,
    out: &mut O,
) -> Result<Answer, RebuildError>
    ensures copies { IfOk result (λ answer. Copies session.old line.now (O.contents out.old) (O.contents out.new) answer session.new) }
    ensures room { IfErr result (λ error. error ≢ wrong.Full) }
{
    let answer = session.answer(line.as_bytes())?;
    write_line(line, out)?;
    Ok(answer)
}

/// Writes a line, and LF.
fn write_line<O: Write>(line: &str, out: &mut O) -> Result<(), RebuildError>
    ensures written { IfOk result (λ _. Appends (O.contents out.old) (O.contents out.new) (line.now ++ 10 ∷ [])) }
    ensures room { IfErr result (λ error. error ≢ wrong.Full) }
{
    if out.write_all(line.as_bytes()).is_err() || out.write_all(b"\n").is_err() {
        return Err(RebuildError::CannotWrite);
    }
    Ok(())
}
