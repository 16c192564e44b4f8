//! The URLs of a log, or their numbers. Another program may be using the log.
ghost use Rattle.std.specs.Prelude.{◌≡◌, Ok, map, IfErr, IfOk, IfSome};
ghost use Rattle.crawl_keys.specs.HostFilter.{filter_of};
ghost use Rattle.crawl_limits.specs.Limits.{AreLimits};
ghost use Rattle.session_log.specs.Lists.{IsBegun, IsListed, ListsLines, ListsLog};
ghost use Rattle.session_log.specs.LogFile.{IsReadError};
ghost use Rattle.session_log.specs.Plans.{IsSessionPlan};

use crate::error::LogError;
use crate::lines::{LineReader, checked_sum};
use crate::log_settings::{first_line_in, is_part, split_flag};
use crate::opening::{read_head, whole_end};
use crate::plan::SessionPlan;
use crawl_keys::{Filter, FilterError};
use crawl_replay::Header;
use crawl_session::{ListForm, Lister, READ_SIZE, Session, read_settings, read_start};
use std::alloc::Global;
use std::fs::{self, Files};
use std::io::{self, Read, Seek, Write};

/// What a list of a log has.
#[derive(Clone, Copy, Debug, PartialEq, Eq)]
pub enum ListKind {
    /// The URLs that wait in their queues.
    Pending,
    /// The URLs that queues are busy with.
    InProgress,
    /// The URLs that are done.
    Done,
    /// The numbers of all these URLs.
    Stats,
}

/// A list of a log.
#[derive(Drop)]
pub struct ListPlan {
    /// The name of the log.
    pub file: String,
    /// What is listed.
    pub kind: ListKind,
    /// The form of the lines.
    pub form: ListForm,
}

/// Returns the list of a log. The settings of the session are those of the first line. The file is not locked. It is read up to
/// the end that it has now, and an incomplete last line is left out.
///
/// # Errors
/// `CannotOpen`; `NotALog` if the first line is not that of a log; `Damaged` if a checksum is wrong; `CannotRead`, `NoMemory`.
pub fn list<R: Files>(rt: &R, alloc: Global, plan: &ListPlan) -> Result<Vec<u8>, LogError>
    ensures listed { IfOk result (λ text. IsListed plan.now text.items) }
    ensures error { IfErr result IsReadError }
{
    match fs::open(rt, plan.file.as_str()) {
        Ok(mut file) => list_file(alloc, &mut file, plan),
        Err(_) => Err(LogError::CannotOpen),
    }
}

/// Like [`list`], for the file of the log.
fn list_file<F: Read + Seek>(
    alloc: Global,
    file: &mut F,
    plan: &ListPlan,
) -> Result<Vec<u8>, LogError>
    ensures listed { IfOk result (λ text. IsListed plan.now text.items) }
    ensures error { IfErr result IsReadError }
{
    let (head, len) = read_head(alloc, file, READ_SIZE)?;
    let Some(line) = first_line_in(&head) else {
        return Err(LogError::NotALog);
    };
    let (mut session, sums) = session_of_line(alloc, line)?;
    let mut lines = checked_lines(alloc, file, line.len() as u64 + 1, len, sums)?;
    let lister = Lister {
        alloc,
        form: plan.form,
    };
    list_lines(&lister, plan.kind, &mut session, &mut lines)
}

/// Returns the whole lines of a log of `len` bytes from `first` on. If it has checksums (`sums`), they are checked before.
///
/// # Errors
/// `CannotRead`, `Damaged`, `NoMemory`.
fn checked_lines<F: Read + Seek>(
    alloc: Global,
    file: &mut F,
    first: u64,
    len: u64,
    sums: bool,
) -> Result<LineReader<'_, F>, LogError>
    ensures error { IfErr result IsReadError }
{
    let mut buffer = vec![in alloc; 0u8; READ_SIZE]?;
    let whole = whole_end(file, first, len, &mut buffer)?;
    if sums {
        checked_sum(alloc, file, whole)?;
    }
    Ok(LineReader::new(alloc, file, first, whole)?)
}

/// Creates the session of a log with this first line, without its LF. Also returns whether the log has checksums.
///
/// # Errors
/// `NotALog`, `NoMemory`.
fn session_of_line(alloc: Global, line: &str) -> Result<(Session, bool), LogError>
    ensures begun { IfOk result (λ r. IsBegun line.now r.1 r.0) }
    ensures error { IfErr result IsReadError }
{
    let (part, identity, settings) = read_start(line);
    let (settings, sums) = split_flag(settings);
    let Some((header, suffixes)) = read_settings(alloc, settings)? else {
        return Err(LogError::NotALog);
    };
    let Some(plan) = plan_of(part, &header) else {
        return Err(LogError::NotALog);
    };
    let filter = filter_of(alloc, &suffixes)?;
    let session = plan.session(alloc, filter, identity.unwrap_or(""))?;
    Ok((session, sums))
}

/// Returns the plan of a log with this part and these numbers, if all parts together do not have too many queues. It names no
/// suffix: the filter of the log may have several.
pub fn plan_of(part: Option<(u32, u32)>, header: &Header) -> Option<SessionPlan>
    requires { AreLimits header.now.workers header.now.max }
    ensures limits { IfSome result IsSessionPlan }
    ensures same { IfSome result (λ plan. (plan.part ≡ part) × (plan.workers ≡ header.now.workers) × (plan.max ≡ header.now.max)) }
{
    if !is_part(part, header.workers) {
        return None;
    }
    Some(SessionPlan {
        workers: header.workers,
        max: header.max,
        within: None,
        part,
    })
}

/// Returns the filter with the suffixes of a log.
pub fn filter_of(alloc: Global, suffixes: &[&str]) -> Result<Filter, LogError>
    ensures filter { IfOk result (λ filter. filter_of (map (λ suffix. suffix.now) suffixes.now) ≡ Ok filter) }
    ensures error { IfErr result IsReadError }
{
    match Filter::new(alloc, suffixes) {
        Ok(filter) => Ok(filter),
        Err(FilterError::BadSuffix(_)) => Err(LogError::NotALog),
        Err(FilterError::NoMemory) => Err(LogError::NoMemory),
    }
}

/// Returns the list of a session that is given these lines.
fn list_lines<F: Read + Seek>(
    lister: &Lister,
    kind: ListKind,
    session: &mut Session,
    lines: &mut LineReader<'_, F>,
) -> Result<Vec<u8>, LogError>
    ensures listed { IfOk result (λ text. ListsLog kind lister.now.form session.old text.items) }
    ensures error { IfErr result IsReadError }
{
    let mut text = Vec::new(lister.alloc);
    match kind {
        ListKind::Done => give_lines(lister, session, lines, &mut text)?,
        ListKind::Pending => {
            give_lines(lister, session, lines, &mut io::sink())?;
            lister.pending(session, &mut text)?;
        }
        ListKind::InProgress => {
            give_lines(lister, session, lines, &mut io::sink())?;
            lister.in_progress(session, &mut text)?;
        }
        ListKind::Stats => {
            give_lines(lister, session, lines, &mut io::sink())?;
            lister.stats(session, &mut text)?;
        }
    }
    Ok(text)
}

/// Gives these lines to the session, and writes the URLs that they end. Fails with `CannotRead` also if a line is too long for the
/// reader.
fn give_lines<F: Read + Seek, O: Write>(
    lister: &Lister,
    session: &mut Session,
    lines: &mut LineReader<'_, F>,
    out: &mut O,
) -> Result<(), LogError>
    ensures listed { IfOk result (λ _. ListsLines lister.now.form session.old (O.contents out.old) (O.contents out.new) session.new) }
    ensures error { IfErr result IsReadError }
{
    while lines.read()? {
        lister.done(session, lines.as_slice(), out)?;
    }
    lines.finish()
}
