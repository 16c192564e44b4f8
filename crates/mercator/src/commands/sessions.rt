//! The frontier as a co-process, with or without a log.
ghost use Rattle.std.specs.Prelude.{◌≡◌, ℕ, List, Option, true, false, string_bytes, IfOk, IfErr, OnOk};
ghost use Rattle.std.specs.Str.Lines.{lines};
ghost use Rattle.crawl_session.specs.Frontiers.{Shows, start};
ghost use Rattle.crawl_session.specs.Logs.{Reruns};
ghost use Rattle.session_log.specs.LogFile.{IsUseError};
ghost use Rattle.session_log.specs.Plans.{IsSessionPlan, queues_of};
ghost use Rattle.mercator.specs.Ending.{Begins};
ghost use Rattle.mercator.specs.ErrorText.{left_out_line, torn_line};
ghost use Rattle.mercator.specs.Errors.{of_logged, of_session, status_of_error};
ghost use Rattle.mercator.specs.Plans.{is_bad_suffix};
ghost use Rattle.mercator.specs.Outputs.{EndsBy, Fails, FailsLog, FailsSession, Gains, Resumes, no_identity, settings_of};
ghost use Rattle.mercator.specs.declared.commands.planned.Plan.TheVariants as asks;

use crate::commands::error::CommandError;
use crate::commands::platform::Platform;
use crate::commands::web_crawl::filter_of;
use crate::commands::writing::{begin, end};
use crawl_session::{LeftOut, ServeError, Session, serve};
use session_log::{
    CompactPlan, ListPlan, LockFile, Log, LogError, LogPlan, LoggedError, OpenedLog, SessionPlan,
    compact, list, resume, serve_logged,
};
use shown_text::shown;
use std::alloc::{AllocError, Global};
use std::fs::{Files, OpenFile};
use std::io::{Read, Seek, Write};

/// The identity of a part without a log.
const NO_IDENTITY: &str = "none";

impl From<ServeError> for CommandError {
    ghost from_gives = { λ why error. error ≡ of_session why };

    fn from(why: ServeError) -> CommandError {
        match why {
            ServeError::CannotRead => CommandError::CannotRead,
            ServeError::CannotWrite => CommandError::CannotWrite,
            ServeError::NoMemory => CommandError::NoMemory,
        }
    }
}

impl From<LoggedError> for CommandError {
    ghost from_gives = { λ why error. error ≡ of_logged why };

    fn from(why: LoggedError) -> CommandError {
        match why {
            LoggedError::Log(why) => CommandError::from(why),
            LoggedError::Session(why) => CommandError::from(why),
        }
    }
}

/// Answers the requests of the input to its end.
///
/// # Errors
/// `BadSuffix`. `CannotRead` and `CannotWrite`; what was written before them stays. `NoMemory`.
pub fn serve_plan<I: Read, O: Write>(
    alloc: Global,
    plan: &SessionPlan,
    input: &mut I,
    out: &mut O,
) -> Result<(), CommandError>
    requires { IsSessionPlan plan.now }
    ensures done { IfOk result (λ _. Gains (asks.Serve plan.now) (I.remaining input.old) (O.contents out.old) (O.contents out.new)) }
    ensures error { IfErr result (λ error. EndsBy (asks.Serve plan.now) (I.remaining input.old) error (out.new ≡ out.old)) }
    ensures unread { is_bad_suffix plan.now.within ≡ true → input.new ≡ input.old }
{
    let mut session = session_of(alloc, plan)?;
    serve(alloc, &mut session, input, out)?;
    Ok(())
}

/// Creates the session of a plan without a log.
///
/// # Errors
/// `BadSuffix`; `NoMemory`.
fn session_of(alloc: Global, plan: &SessionPlan) -> Result<Session, CommandError>
    requires { IsSessionPlan plan.now }
    ensures suffix { IfOk result (λ _. is_bad_suffix plan.now.within ≡ false) }
    ensures start { IfOk result (λ session. Shows session.core (start (queues_of plan.now) plan.now.max)) }
    ensures settings { IfOk result (λ session. session.settings ≡ settings_of plan.now no_identity) }
    ensures error { IfErr result (FailsSession plan.now.within) }
{
    let filter = filter_of(alloc, &plan.within)?;
    let session = plan.session(alloc, filter, NO_IDENTITY)?;
    Ok(session)
}

/// Resumes from the log, and answers the requests of the input to its end. Each line is appended to the log before it is
/// answered.
///
/// # Errors
/// `BadSuffix`. `Log`; the log may have lost an incomplete last line, and what was appended before stays.
/// `CannotRead` and `CannotWrite`; what was written before them stays. `NoMemory`.
pub fn serve_log<R: Files, L: LockFile<R::File>, V, I: Read, O: Write, E: Write>(
    platform: &Platform<'_, R, L, V>,
    alloc: Global,
    plan: &LogPlan,
    input: &mut I,
    out: &mut O,
    err: &mut E,
) -> Result<(), CommandError>
    requires { IsSessionPlan plan.now.session }
    ensures done { IfOk result (λ _. Gains (asks.ServeLog plan.now) (I.remaining input.old) (O.contents out.old) (O.contents out.new)) }
    ensures error { IfErr result (λ error. EndsBy (asks.ServeLog plan.now) (I.remaining input.old) error (out.new ≡ out.old)) }
    ensures in_use { IfErr result (λ error. status_of_error error ≡ 5 → (input.new ≡ input.old) × (err.new ≡ err.old)) }
    ensures unread { is_bad_suffix plan.now.session.within ≡ true → input.new ≡ input.old }
    ensures noted { Begins (E.contents err.old) (E.contents err.new) (torn_line (string_bytes plan.now.file)) }
{
    let (log, mut session) = resumed_session(platform, alloc, plan, err)?;
    let syncs = plan.session.part.is_some();
    serve_logged(alloc, &mut session, log, syncs, input, out)?;
    Ok(())
}

/// Writes a compacted copy of the log to a new file: only the requests that are needed, or with other settings, the same URLs. The log
/// does not change. Reports how many URLs a narrower suffix leaves out.
///
/// # Errors
/// `BadSuffix`. `Log` if the log cannot be used, if the URLs that are not done are more than the new settings allow, or if the new file
/// exists or cannot be written. `NoMemory`. An error leaves no new file.
pub fn compact_log<R: Files, L: LockFile<R::File>, V, E: Write>(
    platform: &Platform<'_, R, L, V>,
    alloc: Global,
    plan: &CompactPlan,
    err: &mut E,
) -> Result<(), CommandError>
    requires { IsSessionPlan plan.now.log.session }
    ensures done { IfOk result (λ _. (input out : Option (List ℕ)) → Gains (asks.Compact plan.now) input out out) }
    ensures error { IfErr result (λ error. (input : Option (List ℕ)) → Fails (asks.Compact plan.now) input error) }
    ensures in_use { IfErr result (λ error. status_of_error error ≡ 5 → err.new ≡ err.old) }
    ensures noted { (left : LeftOut) × Begins (E.contents err.old) (E.contents err.new) (left_out_line (string_bytes plan.now.log.file) left) }
{
    let left_out = compact_plan(platform, alloc, plan)?;
    note_left_out(alloc, plan.log.file.as_str(), &left_out, err);
    Ok(())
}

/// Writes the new log, and returns how many URLs it leaves out. A bad suffix opens no log.
///
/// # Errors
/// Those of [`compact_log`].
fn compact_plan<R: Files, L: LockFile<R::File>, V>(
    platform: &Platform<'_, R, L, V>,
    alloc: Global,
    plan: &CompactPlan,
) -> Result<LeftOut, CommandError>
    requires { IsSessionPlan plan.now.log.session }
    ensures suffix { IfOk result (λ _. is_bad_suffix plan.now.log.session.within ≡ false) }
    ensures error { IfErr result (FailsLog plan.now.log.session.within) }
{
    let _filter = filter_of(alloc, &plan.log.session.within)?;
    let left_out = compact(platform.rt, platform.locks, alloc, plan)?;
    Ok(left_out)
}

/// Reports how many URLs a narrower suffix leaves out, if any. The new log is there, so no memory for the line is no error.
fn note_left_out<E: Write>(alloc: Global, name: &str, left_out: &LeftOut, err: &mut E)
    ensures noted { Begins (E.contents err.old) (E.contents err.new) (left_out_line name.now left_out.now) }
{
    if left_out.all == 0 {
        return;
    }
    if let Ok(line) = left_out_line(alloc, name, left_out) {
        begin(err, line.as_bytes());
    }
}

/// Returns the line that reports how many URLs a narrower suffix leaves out. Hidden characters of the log's name are escaped.
fn left_out_line(alloc: Global, name: &str, left_out: &LeftOut) -> Result<String, AllocError>
    ensures { IfOk result (λ line. string_bytes line ≡ left_out_line name.now left_out.now) }
{
    let file = shown(alloc, name)?;
    let all = left_out.all;
    let unfinished = left_out.unfinished;
    let mut line = String::new(alloc);
    writeln!(
        line,
        "mercator: log {file}: URLs left out by --within: {all} ({unfinished} unfinished)"
    )?;
    Ok(line)
}

/// Writes the list of a log, which another program may be using.
///
/// # Errors
/// `Log`, `NoMemory`; `CannotWrite`.
pub fn list_log<R: Files, O: Write>(
    rt: &R,
    alloc: Global,
    plan: &ListPlan,
    out: &mut O,
) -> Result<(), CommandError>
    ensures done { (input : Option (List ℕ)) → IfOk result (λ _. Gains (asks.List plan.now) input (O.contents out.old) (O.contents out.new)) }
    ensures error { (input : Option (List ℕ)) → IfErr result (λ error. EndsBy (asks.List plan.now) input error (out.new ≡ out.old)) }
{
    let text = list(rt, alloc, plan)?;
    end(out, &text)
}

/// Opens the log, creates the session of its plan, and runs the requests of the log. Returns the log, ready to be appended to, and the
/// session.
///
/// # Errors
/// `BadSuffix`; `Log`; `NoMemory`.
fn resumed_session<'p, R: Files, L: LockFile<R::File>, V, E: Write>(
    platform: &Platform<'p, R, L, V>,
    alloc: Global,
    plan: &LogPlan,
    err: &mut E,
) -> Result<(Log<'p, R::File, R>, Session), CommandError>
    requires { IsSessionPlan plan.now.session }
    ensures suffix { IfOk result (λ _. is_bad_suffix plan.now.session.within ≡ false) }
    ensures resumed { IfOk result (λ r. Resumes plan.now r.1) }
    ensures error { IfErr result (FailsLog plan.now.session.within) }
    ensures in_use { IfErr result (λ error. status_of_error error ≡ 5 → err.new ≡ err.old) }
    ensures noted { Begins (E.contents err.old) (E.contents err.new) (torn_line (string_bytes plan.now.file)) }
{
    let (opened, mut session) = open_session(platform, alloc, plan)?;
    let log = resume_noted(platform.rt, alloc, plan, opened, &mut session, err)?;
    Ok((log, session))
}

/// Opens the log and creates the session of its plan. A log that does not exist is created. A bad suffix opens no log.
///
/// # Errors
/// `BadSuffix`; `Log`; `NoMemory`.
fn open_session<R: Files, L: LockFile<R::File>, V>(
    platform: &Platform<'_, R, L, V>,
    alloc: Global,
    plan: &LogPlan,
) -> Result<(OpenedLog<R::File>, Session), CommandError>
    requires { IsSessionPlan plan.now.session }
    ensures suffix { IfOk result (λ _. is_bad_suffix plan.now.session.within ≡ false) }
    ensures start { IfOk result (λ r. Shows r.1.core (start (queues_of plan.now.session) plan.now.session.max)) }
    ensures settings { IfOk result (λ r. (identity : List ℕ) × (r.1.settings ≡ settings_of plan.now.session identity)) }
    ensures error { IfErr result (FailsLog plan.now.session.within) }
{
    let filter = filter_of(alloc, &plan.session.within)?;
    let opened = session_log::open_session(platform.rt, platform.locks, alloc, plan, filter, true)?;
    Ok(opened)
}

/// Runs the requests of the log, and returns the log, ready to be appended to. If its last line has no end, that is removed before,
/// and reported.
fn resume_noted<'p, R: Files, F: Read + Seek + Write + OpenFile + Drop, E: Write>(
    rt: &'p R,
    alloc: Global,
    plan: &LogPlan,
    opened: OpenedLog<F>,
    session: &mut Session,
    err: &mut E,
) -> Result<Log<'p, F, R>, LogError>
    ensures resumed { OnOk result ((bytes : List ℕ) × Reruns session.old (lines bytes) session.new) }
    ensures noted { Begins (E.contents err.old) (E.contents err.new) (torn_line (string_bytes plan.now.file)) }
    ensures error { IfErr result IsUseError }
{
    note_cut(alloc, &opened, plan.file.as_str(), err)?;
    resume(rt, alloc, plan, opened, session)
}

/// Removes the last line of the log if it has no end, and reports that.
fn note_cut<F: OpenFile, E: Write>(
    alloc: Global,
    opened: &OpenedLog<F>,
    name: &str,
    err: &mut E,
) -> Result<(), LogError>
    ensures noted { Begins (E.contents err.old) (E.contents err.new) (torn_line name.now) }
    ensures error { IfErr result IsUseError }
{
    if opened.cut()? {
        let line = torn_line(alloc, name)?;
        begin(err, line.as_bytes());
    }
    Ok(())
}

/// Returns the line that reports the removal of an incomplete last line. Hidden characters of the log's name are escaped.
fn torn_line(alloc: Global, name: &str) -> Result<String, AllocError>
    ensures { IfOk result (λ line. string_bytes line ≡ torn_line name.now) }
{
    let name = shown(alloc, name)?;
    let mut line = String::new(alloc);
    writeln!(line, "mercator: log {name}: incomplete last line removed")?;
    Ok(line)
}
