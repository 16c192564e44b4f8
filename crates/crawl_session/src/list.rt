//! Lists of a session's URLs: those that are done, in progress and pending, and how many there are.
ghost use Rattle.std.specs.Prelude.{◌≡◌, ◌++◌, ◌∷◌, [], IfOk, OnOk, decimal, codes, option_to_list};
ghost use Rattle.std.specs.Io.KnownBytes.{Appends};
ghost use Rattle.std.specs.Str.Lines.{lines};
ghost use Rattle.json.specs.Token.{begin_object, end_object, key, string, number};
ghost use Rattle.json.specs.Tree.{json_tokens};
ghost use Rattle.crawl_session.specs.Listing as spec;
ghost use Rattle.crawl_session.specs.Listing.{Gives, Lists};
ghost use Rattle.crawl_session.specs.Stats.{stats_text};

use crate::answer::Answer;
use crate::request::{Request, RequestError};
use crate::serving::ServeError;
use crate::session::Session;
use crate::stats::Stats;
use crawl_core::{NoMemory, Reply, Text};
use json::Writer;
use std::alloc::{AllocError, Global};
use std::io::Write;
use text_lines::first_line;

/// How a list is printed.
#[derive(Clone, Copy, Debug, PartialEq, Eq)]
pub enum ListForm {
    /// One line per URL: what it is, its queue, and the URL, one space apart.
    Text,
    /// One JSON object per line.
    Json,
}

/// What a listed URL is.
#[derive(Clone, Copy, Debug, PartialEq, Eq)]
pub(crate) enum Kind {
    /// It waits in its queue.
    Pending,
    /// Its queue is busy with it.
    InProgress,
    /// A `done` ended it.
    Done,
}

/// A line of a list.
#[derive(Debug, Drop)]
pub(crate) enum Row {
    /// A URL, and its queue.
    Url { kind: Kind, queue: u32, url: Text },
    /// The numbers of the URLs of a queue, or of all queues.
    Stats { queue: Option<u32>, stats: Stats },
}

/// Writes lists of a session's URLs. Each method gives the session the requests that it needs for its list.
#[derive(Clone, Copy)]
pub struct Lister {
    /// For the lines.
    pub alloc: Global,
    /// The form of the lines.
    pub form: ListForm,
}

impl Lister {
    /// Gives these lines of a log to the session, and writes each URL that a `done` among them ends, in this order.
    ///
    /// # Errors
    /// `CannotWrite`, `NoMemory`. The session has then received only the first of the lines.
    pub fn done<O: Write>(
        &self,
        session: &mut Session,
        log: &[u8],
        out: &mut O,
    ) -> Result<(), ServeError>
        ensures { IfOk result (λ _. Lists self.now.form (spec.done_in session.old.settings (lines log.now)) session.old (O.contents out.old) (O.contents out.new) session.new) }
    {
        let mut rest = log;
        while let Some((line, more)) = first_line(rest) {
            rest = more;
            self.done_line(session, line, out)?;
        }
        Ok(())
    }

    /// Gives a line to the session, and writes the URL that it ends.
    fn done_line<O: Write>(
        &self,
        session: &mut Session,
        line: &[u8],
        out: &mut O,
    ) -> Result<(), ServeError>
        ensures { IfOk result (λ _. Lists self.now.form (spec.done_by session.old.settings line.now) session.old (O.contents out.old) (O.contents out.new) session.new) }
    {
        let row = give_line(session, line)?;
        self.write(row, out)
    }

    /// Writes the URL that each queue is busy with, by queue.
    ///
    /// # Errors
    /// `CannotWrite`, `NoMemory`.
    pub fn in_progress<O: Write>(
        &self,
        session: &mut Session,
        out: &mut O,
    ) -> Result<(), ServeError>
        ensures { IfOk result (λ _. Lists self.now.form (spec.in_progress_below session.old.settings.workers) session.old (O.contents out.old) (O.contents out.new) session.new) }
    {
        for queue in 0..session.queues {
            self.busy_queue(session, queue, out)?;
        }
        Ok(())
    }

    /// Writes the URL that a queue is busy with.
    fn busy_queue<O: Write>(
        &self,
        session: &mut Session,
        queue: u32,
        out: &mut O,
    ) -> Result<(), ServeError>
        ensures { IfOk result (λ _. Lists self.now.form (λ state. spec.in_progress_at state queue) session.old (O.contents out.old) (O.contents out.new) session.new) }
    {
        let row = again(session, queue)?;
        self.write(row, out)
    }

    /// Writes the URLs that are pending, by queue, and of each queue in the order in which `next` would return them. The session
    /// then has no pending URL: what was in progress or pending is done.
    ///
    /// # Errors
    /// `CannotWrite`, `NoMemory`.
    pub fn pending<O: Write>(&self, session: &mut Session, out: &mut O) -> Result<(), ServeError>
        ensures { IfOk result (λ _. Lists self.now.form (spec.pending_below session.old.settings.workers) session.old (O.contents out.old) (O.contents out.new) session.new) }
    {
        for queue in 0..session.queues {
            self.drain(session, queue, out)?;
        }
        Ok(())
    }

    /// Writes the pending URLs of a queue, and takes them.
    fn drain<O: Write>(
        &self,
        session: &mut Session,
        queue: u32,
        out: &mut O,
    ) -> Result<(), ServeError>
        ensures { IfOk result (λ _. Lists self.now.form (λ state. spec.pending_at state queue) session.old (O.contents out.old) (O.contents out.new) session.new) }
    {
        let _freed = session.frontier.exchange(Request::Done { queue })?;
        let waiting = session.frontier.waiting(queue)?;
        self.take_each(session, queue, waiting, out)
    }

    /// Writes and takes that number of URLs of a queue that is not busy.
    fn take_each<O: Write>(
        &self,
        session: &mut Session,
        queue: u32,
        count: u64,
        out: &mut O,
    ) -> Result<(), ServeError>
        ensures { IfOk result (λ _. Lists self.now.form (spec.taken_each queue count) session.old (O.contents out.old) (O.contents out.new) session.new) }
    {
        for _url in 0..count {
            self.take_one(session, queue, out)?;
        }
        Ok(())
    }

    /// Writes and takes the next URL of a queue that is not busy.
    fn take_one<O: Write>(
        &self,
        session: &mut Session,
        queue: u32,
        out: &mut O,
    ) -> Result<(), ServeError>
        ensures { IfOk result (λ _. Lists self.now.form (spec.taken_one queue) session.old (O.contents out.old) (O.contents out.new) session.new) }
    {
        let row = take(session, queue)?;
        self.write(row, out)
    }

    /// Writes how many URLs there are, as the answer to `stats`. As JSON also of each queue that accepted a URL, by queue.
    ///
    /// # Errors
    /// `CannotWrite`, `NoMemory`.
    pub fn stats<O: Write>(&self, session: &mut Session, out: &mut O) -> Result<(), ServeError>
        ensures { IfOk result (λ _. Lists self.now.form (spec.stats_in self.now.form session.old.settings.workers) session.old (O.contents out.old) (O.contents out.new) session.new) }
    {
        self.stats_of(session, None, out)?;
        match self.form {
            ListForm::Text => Ok(()),
            ListForm::Json => self.stats_by_queue(session, out),
        }
    }

    /// Writes the numbers of each queue that accepted a URL, by queue.
    fn stats_by_queue<O: Write>(&self, session: &mut Session, out: &mut O) -> Result<(), ServeError>
        ensures { IfOk result (λ _. Lists self.now.form (spec.stats_below session.old.settings.workers) session.old (O.contents out.old) (O.contents out.new) session.new) }
    {
        for queue in 0..session.queues {
            self.stats_of(session, Some(queue), out)?;
        }
        Ok(())
    }

    /// Writes the numbers of a queue if it accepted a URL, or those of all queues.
    fn stats_of<O: Write>(
        &self,
        session: &mut Session,
        queue: Option<u32>,
        out: &mut O,
    ) -> Result<(), ServeError>
        ensures { IfOk result (λ _. Lists self.now.form (λ state. spec.stats_at state queue) session.old (O.contents out.old) (O.contents out.new) session.new) }
    {
        let answer = session.frontier.exchange(Request::Stats { queue })?;
        self.write(stats_row(queue, &answer), out)
    }

    /// Writes the line of a row, if there is one.
    fn write<O: Write>(&self, row: Option<Row>, out: &mut O) -> Result<(), ServeError>
        ensures { IfOk result (λ _. Appends (O.contents out.old) (O.contents out.new) (spec.list_text self.now.form (option_to_list row))) }
    {
        let Some(row) = row else {
            return Ok(());
        };
        let line = self.line(&row)?;
        if out.write_all(&line).is_err() {
            return Err(ServeError::CannotWrite);
        }
        Ok(())
    }

    /// Returns the line of a row, with its LF.
    fn line(&self, row: &Row) -> Result<Vec<u8>, NoMemory>
        ensures { IfOk result (λ line. line.items ≡ spec.row_line self.now.form row.now) }
    {
        match self.form {
            ListForm::Text => text_line(self.alloc, row),
            ListForm::Json => json_line(self.alloc, row),
        }
    }
}

/// Gives a line to the session, and returns the URL that it ends.
fn give_line(session: &mut Session, line: &[u8]) -> Result<Option<Row>, NoMemory>
    ensures { IfOk result (λ row. Gives (spec.done_by session.old.settings line.now) session.old row session.new) }
{
    match session.request(line) {
        Ok(request) => give(session, request),
        Err(RequestError::NoMemory) => Err(AllocError),
        Err(_) => Ok(None),
    }
}

/// Gives a request to the session, and returns the URL that it ends.
pub(crate) fn give(session: &mut Session, request: Request) -> Result<Option<Row>, NoMemory>
    ensures { IfOk result (λ row. Gives (spec.done_with request) session.old row session.new) }
{
    if let Some(queue) = done_queue(&request) {
        return end(session, queue);
    }
    let _answer = session.frontier.exchange(request)?;
    Ok(None)
}

/// Returns the queue of a `done`.
fn done_queue(request: &Request) -> Option<u32>
    ensures { result ≡ spec.done_queue request.now }
{
    match request {
        Request::Done { queue } => Some(*queue),
        _ => None,
    }
}

/// Gives the session `done` for a queue, and returns the URL that this ends.
fn end(session: &mut Session, queue: u32) -> Result<Option<Row>, NoMemory>
    ensures { IfOk result (λ row. Gives (spec.ended queue) session.old row session.new) }
{
    let busy = session.frontier.exchange(Request::Again { queue })?;
    let answer = session.frontier.exchange(Request::Done { queue })?;
    if is_count(&answer) {
        return Ok(url_row(Kind::Done, queue, busy));
    }
    Ok(None)
}

/// Returns the URL that a queue is busy with.
pub(crate) fn again(session: &mut Session, queue: u32) -> Result<Option<Row>, NoMemory>
    ensures { IfOk result (λ row. Gives (λ state. spec.in_progress_at state queue) session.old row session.new) }
{
    let answer = session.frontier.exchange(Request::Again { queue })?;
    Ok(url_row(Kind::InProgress, queue, answer))
}

/// Takes the next URL of a queue, and ends it.
pub(crate) fn take(session: &mut Session, queue: u32) -> Result<Option<Row>, NoMemory>
    ensures { IfOk result (λ row. Gives (spec.taken_one queue) session.old row session.new) }
{
    let answer = session.frontier.exchange(Request::Next { queue })?;
    let _ended = session.frontier.exchange(Request::Done { queue })?;
    Ok(url_row(Kind::Pending, queue, answer))
}

/// Returns whether the answer is `count`.
pub(crate) fn is_count(answer: &Answer) -> bool
    ensures { result ≡ spec.is_count answer.now }
{
    matches!(answer, Answer::Replied(Reply::Count(_)))
}

/// Returns the row of the URL in an answer.
fn url_row(kind: Kind, queue: u32, answer: Answer) -> Option<Row>
    ensures { result ≡ spec.url_row kind queue answer }
{
    match answer {
        Answer::Replied(Reply::Taken(url)) => Some(Row::Url { kind, queue, url }),
        _ => None,
    }
}

/// Returns the row of the numbers in an answer, unless they are of a queue that accepted no URL.
fn stats_row(queue: Option<u32>, answer: &Answer) -> Option<Row>
    ensures { result ≡ spec.stats_row queue answer.now }
{
    match answer {
        Answer::Counted(stats) if queue.is_none() || stats.accepted > 0 => Some(Row::Stats {
            queue,
            stats: *stats,
        }),
        _ => None,
    }
}

/// Returns the line of a row as text, with its LF.
fn text_line(alloc: Global, row: &Row) -> Result<Vec<u8>, NoMemory>
    ensures { IfOk result (λ line. line.items ≡ spec.text_line row.now) }
{
    let mut line = String::new(alloc);
    match row {
        Row::Url { kind, queue, url } => {
            let word = word(*kind);
            writeln!(line, "{word} {queue} {url}")?;
        }
        Row::Stats { stats, .. } => return stats_line(alloc, stats),
    }
    Ok(line.into_bytes())
}

/// Returns the line of numbers as text, with its LF.
fn stats_line(alloc: Global, stats: &Stats) -> Result<Vec<u8>, NoMemory>
    ensures { IfOk result (λ line. line.items ≡ stats_text stats.now ++ 10 ∷ []) }
{
    let mut line = String::new(alloc);
    writeln!(line, "{stats}")?;
    Ok(line.into_bytes())
}

/// Returns what a URL is, in a line of text.
fn word(kind: Kind) -> &'static str
    ensures { result.now ≡ spec.word kind }
{
    match kind {
        Kind::Pending => "pending",
        Kind::InProgress => "in-progress",
        Kind::Done => "done",
    }
}

/// Returns the line of a row as a JSON object, with its LF.
fn json_line(alloc: Global, row: &Row) -> Result<Vec<u8>, NoMemory>
    ensures { IfOk result (λ line. line.items ≡ spec.json_line row.now) }
{
    let mut out = Writer::new(Vec::new(alloc));
    out.begin_object()?;
    put_row(&mut out, row)?;
    out.end_object()?;
    let mut line = out.into_inner();
    line.push(b'\n')?;
    Ok(line)
}

/// Writes the members of a row. The object is begun, and not ended.
fn put_row(out: &mut Writer, row: &Row) -> Result<(), NoMemory>
    requires { out.old.tokens ≡ begin_object ∷ [] }
    ensures tokens { OnOk result (out.new.tokens ++ end_object ∷ [] ≡ json_tokens (spec.row_json row.now)) }
    ensures before { out.new.before ≡ out.old.before }
{
    match row {
        Row::Url { kind, queue, url } => put_url(out, *kind, *queue, url.as_str()),
        Row::Stats { queue, stats } => put_stats(out, *queue, stats),
    }
}

/// Writes the members of a URL. The object is begun, and not ended.
fn put_url(out: &mut Writer, kind: Kind, queue: u32, url: &str) -> Result<(), NoMemory>
    requires { out.old.tokens ≡ begin_object ∷ [] }
    ensures tokens { OnOk result (out.new.tokens ++ end_object ∷ [] ≡ json_tokens (spec.url_json kind queue url.now)) }
    ensures before { out.new.before ≡ out.old.before }
{
    put_text(out, "kind", name(kind))?;
    put_count(out, "queue", u64::from(queue))?;
    put_text(out, "url", url)
}

/// Returns what a URL is, in a JSON object.
fn name(kind: Kind) -> &'static str
    ensures { result.now ≡ spec.name kind }
{
    match kind {
        Kind::Pending => "pending",
        Kind::InProgress => "in_progress",
        Kind::Done => "done",
    }
}

/// Writes the members of numbers. The object is begun, and not ended.
fn put_stats(out: &mut Writer, queue: Option<u32>, stats: &Stats) -> Result<(), NoMemory>
    requires { out.old.tokens ≡ begin_object ∷ [] }
    ensures tokens { OnOk result (out.new.tokens ++ end_object ∷ [] ≡ json_tokens (spec.stats_json queue stats.now)) }
    ensures before { out.new.before ≡ out.old.before }
{
    put_text(out, "kind", "stats")?;
    put_queue(out, queue)?;
    put_count(out, "accepted", stats.accepted)?;
    put_count(out, "done", stats.done)?;
    put_count(out, "in_progress", stats.in_progress)?;
    put_count(out, "waiting", stats.waiting)?;
    put_count(out, "put_back", stats.put_back)?;
    put_count(out, "seen", stats.seen)
}

/// Writes the queue of numbers; `null` if they are of all queues.
fn put_queue(out: &mut Writer, queue: Option<u32>) -> Result<(), NoMemory>
    ensures tokens { OnOk result (out.new.tokens ≡ out.old.tokens ++ key (codes "queue") ∷ json_tokens (spec.queue_json queue)) }
    ensures before { out.new.before ≡ out.old.before }
{
    out.key("queue")?;
    match queue {
        Some(queue) => out.u64(u64::from(queue)),
        None => out.null(),
    }
}

/// Writes a member that is a string.
fn put_text(out: &mut Writer, name: &str, text: &str) -> Result<(), NoMemory>
    ensures tokens { OnOk result (out.new.tokens ≡ out.old.tokens ++ key name.now ∷ string text.now ∷ []) }
    ensures before { out.new.before ≡ out.old.before }
{
    out.key(name)?;
    out.string(text)
}

/// Writes a member that is a number.
fn put_count(out: &mut Writer, name: &str, count: u64) -> Result<(), NoMemory>
    ensures tokens { OnOk result (out.new.tokens ≡ out.old.tokens ++ key name.now ∷ number (decimal count) ∷ []) }
    ensures before { out.new.before ≡ out.old.before }
{
    out.key(name)?;
    out.u64(count)
}
