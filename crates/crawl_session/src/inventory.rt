//! The URLs of a session, read from its log: those that are done, in progress and pending, and those of other parts.
ghost use Rattle.std.specs.Prelude.{◌≡◌, ◌++◌, false, length, slice_get, IfOk, option_map, option_to_list};
ghost use Rattle.std.specs.Str.Lines.{lines};
ghost use Rattle.crawl_session.specs.Compacting.{says_closed};
ghost use Rattle.crawl_session.specs.Listing.{in_progress_below, pending_at, taken_each};
ghost use Rattle.crawl_session.specs.Rebuilding as spec;
ghost use Rattle.crawl_session.specs.Rebuilding.{Collects, CollectsQueues, ReadsLine, ReadsLines, ReadsRequest, ReadsUnfinished};

use crate::answer::Answer;
use crate::list::{Row, again, give, take};
use crate::request::{Request, RequestError};
use crate::session::Session;
use crate::texts::Texts;
use crawl_core::{NoMemory, Reply, Text};
use std::alloc::{AllocError, Global};
use std::marker::Model;
use text_lines::first_line;

/// The URLs that wait in one queue, in order.
#[derive(Drop)]
pub(crate) struct WaitingUrls {
    urls: Vec<Text>,
}

impl Model for WaitingUrls {
    ghost use Rattle.std.specs.Prelude.{List, ℕ};

    ghost Value = { List (List ℕ) };

    ghost view = { λ w. w.urls.items };
}

impl WaitingUrls {
    /// Returns how many there are.
    pub(crate) fn len(&self) -> usize
        ensures { result ≡ length self.now }
    {
        self.urls.len()
    }

    /// Returns the one at this position.
    pub(crate) fn get(&self, position: usize) -> Option<&Text>
        ensures { option_map (λ url. url.now) result ≡ slice_get self.now position }
    {
        self.urls.get(position)
    }
}

/// The URLs of a session, by its log.
#[derive(Drop)]
pub struct Inventory {
    pub(crate) alloc: Global,
    /// The URLs that are done, in the order in which they were done.
    pub(crate) done: Vec<Text>,
    /// The URLs in progress, by queue.
    pub(crate) in_progress: Vec<Text>,
    /// The pending URLs of each queue that has some.
    pub(crate) pending: Vec<WaitingUrls>,
    /// The URLs that belong to other parts.
    pub(crate) elsewhere: Texts,
    /// The seeds ended.
    pub(crate) ended: bool,
    /// A `next` was answered `closed`.
    pub(crate) closed: bool,
}

impl Model for Inventory {
    ghost use Rattle.crawl_session.specs.Rebuilding as spec;

    ghost Value = { spec.Inventory };

    ghost view = { λ r. record { done = r.done.items; in_progress = r.in_progress.items; pending = r.pending.items; elsewhere = r.elsewhere; ended = r.ended; closed = r.closed } };
}

impl Inventory {
    /// That of a session that was given no lines.
    pub fn new(alloc: Global) -> Inventory
        ensures { result ≡ spec.empty }
    {
        Inventory {
            alloc,
            done: Vec::new(alloc),
            in_progress: Vec::new(alloc),
            pending: Vec::new(alloc),
            elsewhere: Texts::new(alloc),
            ended: false,
            closed: false,
        }
    }

    /// Gives these lines of the session's log to the session.
    ///
    /// # Errors
    /// Out of memory. The session has then received only the first of the lines.
    pub fn read(&mut self, session: &mut Session, log: &[u8]) -> Result<(), NoMemory>
        ensures { IfOk result (λ _. ReadsLines self.old session.old (lines log.now) self.new session.new) }
    {
        let mut rest = log;
        while let Some((line, more)) = first_line(rest) {
            rest = more;
            self.read_line(session, line)?;
        }
        Ok(())
    }

    /// Gives a line to the session.
    fn read_line(&mut self, session: &mut Session, line: &[u8]) -> Result<(), NoMemory>
        ensures { IfOk result (λ _. ReadsLine self.old session.old line.now self.new session.new) }
    {
        match session.request(line) {
            Ok(request) => self.read_request(session, request),
            Err(RequestError::NoMemory) => Err(AllocError),
            Err(RequestError::Elsewhere { url, .. }) => {
                let _new = self.elsewhere.insert(url)?;
                Ok(())
            }
            Err(_) => Ok(()),
        }
    }

    /// Gives a request to the session.
    fn read_request(&mut self, session: &mut Session, request: Request) -> Result<(), NoMemory>
        ensures { IfOk result (λ _. ReadsRequest self.old session.old request self.new session.new) }
    {
        self.ended = ends_seeds(&request) | self.ended;
        match request {
            Request::Next { queue } => {
                let answer = session.frontier.exchange(Request::Next { queue })?;
                self.closed = is_closed(&answer) | self.closed;
                Ok(())
            }
            request => {
                let row = give(session, request)?;
                push_url(&mut self.done, row)
            }
        }
    }

    /// Reads the URLs that are not done, after all lines. The session then has no pending URL.
    ///
    /// # Errors
    /// Out of memory.
    pub fn read_unfinished(&mut self, session: &mut Session) -> Result<(), NoMemory>
        ensures { IfOk result (λ _. ReadsUnfinished self.old session.old self.new session.new) }
    {
        self.in_progress = in_progress(self.alloc, session)?;
        self.pending = pending(self.alloc, session)?;
        Ok(())
    }
}

/// Whether the request ends the seeds.
fn ends_seeds(request: &Request) -> bool
    ensures { result ≡ spec.ends_seeds request.now }
{
    matches!(request, Request::EndSeeds)
}

/// Whether the answer is `closed`.
pub(crate) fn is_closed(answer: &Answer) -> bool
    ensures { result ≡ says_closed answer.now }
{
    matches!(answer, Answer::Replied(Reply::Closed))
}

/// Appends the URL of a row, if there is one.
fn push_url(urls: &mut Vec<Text>, row: Option<Row>) -> Result<(), NoMemory>
    ensures { IfOk result (λ _. urls.new.items ≡ urls.old.items ++ spec.urls_in (option_to_list row)) }
{
    if let Some(Row::Url { url, .. }) = row {
        urls.push(url)?;
    }
    Ok(())
}

/// Returns the URL that each queue is busy with, by queue.
fn in_progress(alloc: Global, session: &mut Session) -> Result<Vec<Text>, NoMemory>
    ensures { IfOk result (λ urls. Collects (in_progress_below session.old.settings.workers) session.old urls.items session.new) }
{
    let mut urls = Vec::new(alloc);
    for queue in 0..session.queues {
        let row = again(session, queue)?;
        push_url(&mut urls, row)?;
    }
    Ok(urls)
}

/// Takes the pending URLs of each queue that has some.
fn pending(alloc: Global, session: &mut Session) -> Result<Vec<WaitingUrls>, NoMemory>
    ensures { IfOk result (λ queues. CollectsQueues session.old.settings.workers session.old queues.items session.new) }
{
    let mut queues = Vec::new(alloc);
    for queue in 0..session.queues {
        let urls = drain(alloc, session, queue)?;
        push_queue(&mut queues, urls)?;
    }
    Ok(queues)
}

/// Appends the URLs of a queue, unless there are none.
fn push_queue(queues: &mut Vec<WaitingUrls>, urls: WaitingUrls) -> Result<(), NoMemory>
    ensures { IfOk result (λ _. queues.new.items ≡ queues.old.items ++ spec.unless_empty urls) }
{
    if !urls.urls.is_empty() {
        queues.push(urls)?;
    }
    Ok(())
}

/// Takes the pending URLs of a queue. What is in progress is done first.
fn drain(alloc: Global, session: &mut Session, queue: u32) -> Result<WaitingUrls, NoMemory>
    ensures { IfOk result (λ urls. Collects (λ state. pending_at state queue) session.old urls session.new) }
{
    let _freed = session.frontier.exchange(Request::Done { queue })?;
    let count = session.frontier.waiting(queue)?;
    let urls = take_each(alloc, session, queue, count)?;
    Ok(WaitingUrls { urls })
}

/// Takes that number of URLs of a queue that is not busy.
fn take_each(
    alloc: Global,
    session: &mut Session,
    queue: u32,
    count: u64,
) -> Result<Vec<Text>, NoMemory>
    ensures { IfOk result (λ urls. Collects (taken_each queue count) session.old urls.items session.new) }
{
    let mut urls = Vec::new(alloc);
    for _url in 0..count {
        let row = take(session, queue)?;
        push_url(&mut urls, row)?;
    }
    Ok(urls)
}
