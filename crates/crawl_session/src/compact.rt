//! A shorter log of a session: the lines that changed it, one offer of each URL of another part, and the numbers of `seen`.
ghost use Rattle.std.specs.Prelude.{◌≡◌, [], ◌∷◌, ◌==◌, ℕ, List, IfOk, if◌then◌else◌, string_bytes};
ghost use Rattle.std.specs.Io.KnownBytes.{Appends};
ghost use Rattle.std.specs.Str.Lines.{lines};
ghost use Rattle.crawl_session.specs.Compacting as spec;
ghost use Rattle.crawl_session.specs.Compacting.{Compacts, Gives, GivesRequest};
ghost use Rattle.crawl_session.specs.Seen.{seen_line, seen_lines};
ghost use Rattle.crawl_session.specs.declared.answer.Answer.TheVariants.{Replied};

use crate::answer::Answer;
use crate::request::{Request, RequestError};
use crate::seen::SeenCounts;
use crate::serving::ServeError;
use crate::session::Session;
use crate::texts::Texts;
use crawl_core::{NoMemory, Reply};
use std::alloc::{AllocError, Global};
use std::io::Write;
use std::marker::Model;
use text_lines::first_line;

/// Selects the lines of a log that a new session needs to reach the same state, and remembers which lines it has seen.
#[derive(Drop)]
pub struct Compactor {
    /// An earlier line was answered `closed`.
    closed: bool,
    /// The URLs that belong to other parts.
    elsewhere: Texts,
}

impl Model for Compactor {
    ghost use Rattle.crawl_session.specs.Compacting.{Had};

    ghost Value = { Had };

    ghost view = { λ c. record { closed = c.closed; elsewhere = c.elsewhere } };
}

impl Compactor {
    /// Creates one that has seen no lines.
    pub fn new(alloc: Global) -> Compactor
        ensures { result ≡ spec.had_none }
    {
        Compactor {
            closed: false,
            elsewhere: Texts::new(alloc),
        }
    }

    /// Gives these lines of a log to the session, and writes those that are needed, each with its line end.
    ///
    /// # Errors
    /// `CannotWrite`, `NoMemory`. The session has then received only the first of the lines.
    pub fn compact<O: Write>(
        &mut self,
        session: &mut Session,
        log: &[u8],
        out: &mut O,
    ) -> Result<(), ServeError>
        ensures { IfOk result (λ _. (text : List ℕ) × Appends (O.contents out.old) (O.contents out.new) text × Compacts self.old session.old (lines log.now) text self.new session.new) }
    {
        let mut rest = log;
        while let Some((line, more)) = first_line(rest) {
            rest = more;
            let needed = self.needs(session, line)?;
            if needed {
                write_line(line, out)?;
            }
        }
        Ok(())
    }

    /// Gives a line to the session, and returns whether it is needed.
    fn needs(&mut self, session: &mut Session, line: &[u8]) -> Result<bool, NoMemory>
        ensures { IfOk result (λ is. Gives self.old session.old line.now is self.new session.new) }
    {
        match session.request(line) {
            Ok(request) => self.needs_request(session, request),
            Err(RequestError::NoMemory) => Err(AllocError),
            Err(RequestError::Elsewhere { url, .. }) => self.elsewhere.insert(url),
            Err(_) => Ok(false),
        }
    }

    /// Gives a request to the session, and returns whether it is needed.
    fn needs_request(&mut self, session: &mut Session, request: Request) -> Result<bool, NoMemory>
        ensures { IfOk result (λ is. GivesRequest self.old session.old request is self.new session.new) }
    {
        let again = asks_again(&request);
        let Answer::Replied(reply) = session.frontier.exchange(request)? else {
            return Ok(false);
        };
        let changes = self.changes(&reply);
        self.closed = is_closed(&reply) | self.closed;
        Ok(!again & changes)
    }

    /// Whether a request with this reply has changed the session: it accepted or took a URL, gave a unit back, or was the first
    /// request that was answered with `closed`.
    fn changes(&self, reply: &Reply) -> bool
        ensures { result ≡ spec.changes self.now reply.now }
    {
        match reply {
            Reply::Accepted { .. } | Reply::Taken(_) | Reply::Count(_) => true,
            Reply::Closed => !self.closed,
            _ => false,
        }
    }
}

/// Whether the request is `again`, which changes nothing although its reply is `taken`.
fn asks_again(request: &Request) -> bool
    ensures { result ≡ spec.asks_again request.now }
{
    matches!(request, Request::Again { .. })
}

/// Whether the reply is `closed`.
fn is_closed(reply: &Reply) -> bool
    ensures { result ≡ spec.says_closed (Replied reply.now) }
{
    matches!(reply, Reply::Closed)
}

/// Writes the last lines of a compacted log: those that keep the numbers of `seen` of the session.
///
/// # Errors
/// `CannotWrite`, `NoMemory`.
pub fn write_seen<O: Write>(alloc: Global, session: &Session, out: &mut O) -> Result<(), ServeError>
    ensures { IfOk result (λ _. Appends (O.contents out.old) (O.contents out.new) (spec.log_text (seen_lines 0 session.now.core.seen))) }
{
    write_counts(alloc, &session.frontier.seen, out)
}

/// Writes the lines that keep these numbers of `seen`.
fn write_counts<O: Write>(alloc: Global, counts: &SeenCounts, out: &mut O) -> Result<(), ServeError>
    ensures { IfOk result (λ _. Appends (O.contents out.old) (O.contents out.new) (spec.log_text (seen_lines 0 counts.now))) }
{
    let queues = counts.queues()?;
    for queue in 0..queues {
        let count = counts.get(queue).unwrap_or(0);
        write_count(alloc, queue, count, out)?;
    }
    Ok(())
}

/// Writes the line that keeps the number of `seen` of a queue, unless it is 0.
fn write_count<O: Write>(
    alloc: Global,
    queue: u32,
    count: u64,
    out: &mut O,
) -> Result<(), ServeError>
    ensures { IfOk result (λ _. Appends (O.contents out.old) (O.contents out.new) (spec.log_text (if count == 0 then [] else seen_line queue count ∷ []))) }
{
    if count == 0 {
        return Ok(());
    }
    let line = count_line(alloc, queue, count)?;
    write_line(line.as_bytes(), out)
}

/// Returns the line that keeps the number of `seen` of a queue.
fn count_line(alloc: Global, queue: u32, count: u64) -> Result<String, NoMemory>
    ensures { IfOk result (λ line. string_bytes line ≡ seen_line queue count) }
{
    let mut line = String::new(alloc);
    write!(line, "seen {queue} {count}")?;
    Ok(line)
}

/// Writes a line with its line end.
fn write_line<O: Write>(line: &[u8], out: &mut O) -> Result<(), ServeError>
    ensures { IfOk result (λ _. Appends (O.contents out.old) (O.contents out.new) (spec.log_line line.now)) }
{
    if out.write_all(line).is_err() || out.write_all(line_end(line)).is_err() {
        return Err(ServeError::CannotWrite);
    }
    Ok(())
}

/// Returns LF, or CR LF after a line that ends with a CR, because a reader drops the CR just before an LF.
fn line_end(line: &[u8]) -> &'static [u8]
    ensures { result.now ≡ spec.line_end line.now }
{
    if line.last() == Some(&b'\r') {
        b"\r\n"
    } else {
        b"\n"
    }
}
