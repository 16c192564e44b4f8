//! The compacted log of a session, in a new file, with the same settings or with other ones.
ghost use Rattle.std.specs.Prelude.{◌≡◌, ◌∷◌, [], Ok, IfOk, IfSome, IsOk, OnOk, string_bytes};
ghost use Rattle.crawl_session.specs.Compacting.{log_text};
ghost use Rattle.crawl_session.specs.Seen.{seen_lines};
ghost use Rattle.session_log.specs.Compaction.{Compacted, Gained, IsCompacted, IsRebuilt, summing};
ghost use Rattle.session_log.specs.Plans.{IsSessionPlan};

use crate::compact_plan::CompactPlan;
use crate::error::LogError;
use crate::lines::LineReader;
use crate::lock_file::LockFile;
use crate::new_log::{NewLog, create_partial, publish};
use crate::opening::{OpenedLog, open_session};
use crate::plan::{LogPlan, SessionPlan};
use crate::rebuilding::{filter_within, rebuild_to};
use crawl_session::{Compactor, LeftOut, Session, write_seen};
use std::alloc::Global;
use std::fs::{self, Files, OpenFile};
use std::io::{self, Read, Seek, Write};

/// Writes a compacted copy of the log to a new file. With the settings of the log, the copy has only the requests that are needed, and
/// the numbers of `seen`. With other settings, it has the same URLs done and not done. The log does not change. The new file gets its
/// name when it is whole and synced to disk. If the program is killed, the new file is whole or does not exist, but a file with its
/// temporary name may remain.
///
/// Returns how many URLs the new log leaves out, because its suffix does not allow them.
///
/// # Errors
/// `CannotOpen`, `InUse`; `NotALog`; `OtherSettings` if the log is that of another part, or of a part with another number of queues;
/// `Damaged`; `CannotMakeNew` if the new file exists or cannot be created; `CannotRead`; `NoRoom` if the new settings allow fewer URLs
/// that are not done; `LongUrl`; `CannotWriteNew`, `NoMemory`. An error leaves no new file.
pub fn compact<R: Files, L: LockFile<R::File>>(
    rt: &R,
    locks: &L,
    alloc: Global,
    plan: &CompactPlan,
) -> Result<LeftOut, LogError>
    requires { IsSessionPlan plan.now.log.session }
{
    let own = plan.own(rt, alloc)?;
    let new_settings = plan.new_settings(&own.session)?;
    compact_as(rt, locks, alloc, &own, &new_settings, plan.new.as_str())
}

/// Writes the copy of the log of this plan, with its new settings, to a new file of this name.
fn compact_as<R: Files, L: LockFile<R::File>>(
    rt: &R,
    locks: &L,
    alloc: Global,
    own: &LogPlan,
    new_settings: &SessionPlan,
    new: &str,
) -> Result<LeftOut, LogError>
    requires own { IsSessionPlan own.now.session }
    requires new_settings { IsSessionPlan new_settings.now }
{
    let filter = filter_within(alloc, &own.session.within)?;
    let (mut log, mut session) = open_session(rt, locks, alloc, own, filter, false)?;
    let changed = if own.session.is_like(new_settings) {
        None
    } else {
        Some(new_settings)
    };
    write_new(rt, alloc, &mut session, &mut log, changed, new)
}

/// Writes the copy of a log to a new file of this name, with other settings if there are any.
fn write_new<R: Files, F: Read + Seek>(
    rt: &R,
    alloc: Global,
    session: &mut Session,
    log: &mut OpenedLog<F>,
    changed: Option<&SessionPlan>,
    name: &str,
) -> Result<LeftOut, LogError>
    requires { IfSome changed (λ new_settings. IsSessionPlan new_settings.now) }
{
    let (partial, file) = create_partial(rt, alloc, name)?;
    let mut new = NewLog::new(alloc, file);
    let written = match changed {
        None => compact_synced(alloc, session, log, &mut new),
        Some(new_settings) => rebuild_synced(alloc, session, log, new_settings, &mut new),
    };
    name_new(rt, partial.as_str(), name, written)
}

/// Gives a new log its name instead of the temporary one, or removes it if it could not be written.
fn name_new<R: Files>(
    rt: &R,
    partial: &str,
    name: &str,
    written: Result<LeftOut, LogError>,
) -> Result<LeftOut, LogError> {
    match written {
        Ok(left_out) => {
            publish(rt, partial, name)?;
            Ok(left_out)
        }
        Err(error) => {
            let _ = fs::remove_file(rt, partial);
            Err(error)
        }
    }
}

/// Writes the compacted log, and syncs it to disk. It leaves out no URL.
fn compact_synced<F: Read + Seek, O: Write + OpenFile>(
    alloc: Global,
    session: &mut Session,
    log: &mut OpenedLog<F>,
    new: &mut NewLog<O>,
) -> Result<LeftOut, LogError>
    ensures compacted { OnOk result (IsCompacted session.old (string_bytes log.old.first ∷ []) new.old.frame.sum (O.contents new.old.file) (O.contents new.new.file)) }
{
    let written = compact_to(alloc, session, log, new);
    let synced = new.file.sync_all();
    finish(written, synced)
}

/// Writes the log of other settings, and syncs it to disk. Returns how many URLs it leaves out.
fn rebuild_synced<F: Read + Seek, O: Write + OpenFile>(
    alloc: Global,
    session: &mut Session,
    log: &mut OpenedLog<F>,
    new_settings: &SessionPlan,
    new: &mut NewLog<O>,
) -> Result<LeftOut, LogError>
    requires { IsSessionPlan new_settings.now }
    ensures rebuilt { IfOk result (λ left_out. IsRebuilt session.old new_settings.now (string_bytes log.old.identity) left_out new.old.frame.sum (O.contents new.old.file) (O.contents new.new.file)) }
{
    let written = rebuild_to(alloc, session, log, new_settings, new);
    let synced = new.file.sync_all();
    finish(written, synced)
}

/// Returns how a compaction ends, from the results of the writes and of the sync.
fn finish(written: Result<LeftOut, LogError>, synced: io::Result<()>) -> Result<LeftOut, LogError>
    ensures { IfOk result (λ left_out. (written ≡ Ok left_out) × IsOk synced) }
{
    let left_out = written?;
    match synced {
        Ok(()) => Ok(left_out),
        Err(_) => Err(LogError::CannotWriteNew),
    }
}

/// Writes the first line of the log, the requests that are needed, and the numbers of `seen`. It leaves out no URL.
fn compact_to<F: Read + Seek, O: Write>(
    alloc: Global,
    session: &mut Session,
    log: &mut OpenedLog<F>,
    new: &mut NewLog<O>,
) -> Result<LeftOut, LogError>
    ensures compacted { OnOk result (IsCompacted session.old (string_bytes log.old.first ∷ []) new.old.frame.sum (O.contents new.old.file) (O.contents new.new.file)) }
{
    new.append(log.first.as_bytes())?;
    let mut lines = LineReader::new(alloc, &mut log.file, log.start, log.whole)?;
    compact_lines(alloc, session, &mut lines, new)?;
    Ok(LeftOut::none())
}

/// Runs these lines, and writes those that are needed, and the numbers of `seen`. Fails with `CannotRead` also if a line is too long for the reader.
#[tactic(auto, using(crate::proofs::Logs::compacted_none))]
fn compact_lines<F: Read + Seek, O: Write>(
    alloc: Global,
    session: &mut Session,
    lines: &mut LineReader<'_, F>,
    new: &mut NewLog<O>,
) -> Result<(), LogError>
    ensures compacted { OnOk result (IsCompacted session.old [] new.old.frame.sum (O.contents new.old.file) (O.contents new.new.file)) }
{
    let mut compactor = Compactor::new(alloc);
    while lines.read()? {
        compact_bytes(alloc, &mut compactor, session, lines.as_slice(), new)?;
    }
    lines.finish()?;
    append_seen(alloc, session, new)?;
    Ok(())
}

/// Writes the lines that keep the numbers of `seen` of the session.
fn append_seen<O: Write>(
    alloc: Global,
    session: &Session,
    new: &mut NewLog<O>,
) -> Result<(), LogError>
    ensures gained { OnOk result (Gained (log_text (seen_lines 0 session.now.core.seen) ∷ []) (summing new.old.frame.sum (O.contents new.old.file)) (summing new.new.frame.sum (O.contents new.new.file))) }
{
    let mut text = Vec::new(alloc);
    write_seen(alloc, session, &mut text)?;
    new.append(&text)?;
    Ok(())
}

/// Runs the lines of these bytes, and writes those that are needed.
fn compact_bytes<O: Write>(
    alloc: Global,
    compactor: &mut Compactor,
    session: &mut Session,
    bytes: &[u8],
    new: &mut NewLog<O>,
) -> Result<(), LogError>
    ensures compacted { OnOk result (Compacted compactor.old session.old compactor.new session.new (summing new.old.frame.sum (O.contents new.old.file)) (summing new.new.frame.sum (O.contents new.new.file))) }
{
    let mut kept = Vec::new(alloc);
    compactor.compact(session, bytes, &mut kept)?;
    new.append(&kept)?;
    Ok(())
}
