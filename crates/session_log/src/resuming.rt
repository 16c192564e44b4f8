//! A session that resumes from its log.
ghost use Rattle.std.specs.Prelude.{◌≡◌, ℕ, List, IfOk, IfErr, OnOk};
ghost use Rattle.std.specs.Str.Lines.{lines};
ghost use Rattle.crawl_session.specs.Input.{ServesInput};
ghost use Rattle.crawl_session.specs.Logs.{Reruns};
ghost use Rattle.session_log.specs.LogFile.{IsBreak, IsUseError};

use crate::error::{LogError, LoggedError};
use crate::log_file::{Log, LogPlace, LoggedInput};
use crate::opening::OpenedLog;
use crate::plan::LogPlan;
use crawl_session::{ServeError, Session, serve};
use std::alloc::Global;
use std::fs::{Files, OpenFile};
use std::io::{self, Read, Seek, SeekFrom, Write};

/// Runs the requests of the log, and returns the log, ready to be appended to. Its last line must be whole.
///
/// # Errors
/// `CannotRead`, `NoMemory`; `CannotWrite` or `Changed` if the log has no whole line, and its first line cannot be appended.
pub fn resume<'p, R: Files, F: Read + Seek + Write + OpenFile + Drop>(
    rt: &'p R,
    alloc: Global,
    plan: &LogPlan,
    opened: OpenedLog<F>,
    session: &mut Session,
) -> Result<Log<'p, F, R>, LogError>
    ensures resumed { OnOk result ((bytes : List ℕ) × Reruns session.old (lines bytes) session.new) }
    ensures error { IfErr result IsUseError }
{
    let OpenedLog {
        mut file,
        node,
        first,
        start,
        sum,
        identity: _,
        whole,
        len: _,
    } = opened;
    rerun_file(alloc, session, &mut file, start)?;
    let place = LogPlace::new(rt, plan.file.clone()?, node);
    let mut log = Log::new(alloc, file, place, whole, sum, plan.sync);
    if start == 0 {
        log.append(first.as_bytes())?;
    }
    Ok(log)
}

/// Runs the requests in the lines after the first one, which has this length, and drops their answers. There are none if the log has
/// no whole line.
fn rerun_file<F: Read + Seek>(
    alloc: Global,
    session: &mut Session,
    file: &mut F,
    start: u64,
) -> Result<(), LogError>
    ensures resumed { OnOk result ((bytes : List ℕ) × Reruns session.old (lines bytes) session.new) }
    ensures error { IfErr result IsUseError }
{
    if start == 0 {
        return Ok(());
    }
    file.seek(SeekFrom::Start(start))?;
    match serve(alloc, session, file, &mut io::sink()) {
        Ok(()) => Ok(()),
        Err(ServeError::NoMemory) => Err(LogError::NoMemory),
        Err(_) => Err(LogError::CannotRead),
    }
}

/// Answers the requests of the input to its end. Each line is appended to the log before it is answered. If `syncs`, the log is
/// synced to disk before a `sync` is answered.
///
/// # Errors
/// `Session`; what was written before it stays. `Log` with `CannotWrite` or `Changed`.
pub fn serve_logged<F: Write + OpenFile + Drop, R: Files, I: Read, O: Write>(
    alloc: Global,
    session: &mut Session,
    log: Log<'_, F, R>,
    syncs: bool,
    input: &mut I,
    out: &mut O,
) -> Result<(), LoggedError>
    ensures served { IfOk result (λ _. ServesInput session.old (I.remaining input.old) (O.contents out.old) (O.contents out.new) session.new) }
    ensures error { IfErr result IsBreak }
{
    let mut logged = LoggedInput::new(alloc, input, log, syncs)?;
    match serve(alloc, session, &mut logged, out) {
        Ok(()) => Ok(()),
        Err(why) => Err(logged.error_of(why)),
    }
}
