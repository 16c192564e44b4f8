//! The log of a session with other settings, which has the URLs of a log, in a new file.
ghost use Rattle.std.specs.Prelude.{◌≡◌, ◌<◌, ◌≤◌, Ok, length, IfOk, OnOk, string_bytes};
ghost use Rattle.crawl_keys.specs.HostFilter.{filter_of};
ghost use Rattle.crawl_session.specs.Settings.{SessionView};
ghost use Rattle.session_log.specs.Compaction.{InPieces, IsRebuilt, IsRebuiltText, ReadsUrls, first_queue, suffixes_of, summing};
ghost use Rattle.session_log.specs.Errors.{of_rebuild};
ghost use Rattle.session_log.specs.Plans.{IsSessionPlan};

use crate::error::LogError;
use crate::lines::LineReader;
use crate::listing::filter_of;
use crate::new_log::NewLog;
use crate::opening::{OpenedLog, first_line_of};
use crate::plan::SessionPlan;
use crawl_keys::Filter;
use crawl_session::{Inventory, LeftOut, READ_SIZE, RebuildError, Session, rebuild_log, whole_len};
use std::alloc::Global;
use std::io::{Read, Seek, Write};

/// Writes a log with the URLs of this log and the settings of the plan. Returns how many URLs it leaves out, because its suffix does
/// not allow them.
///
/// # Errors
/// `CannotRead`; `NoRoom`, `LongUrl`; `CannotWriteNew`, `NoMemory`.
pub fn rebuild_to<F: Read + Seek, O: Write>(
    alloc: Global,
    session: &mut Session,
    log: &mut OpenedLog<F>,
    new_settings: &SessionPlan,
    new: &mut NewLog<O>,
) -> Result<LeftOut, LogError>
    requires { IsSessionPlan new_settings.now }
    ensures { IfOk result (λ left_out. IsRebuilt session.old new_settings.now (string_bytes log.old.identity) left_out new.old.frame.sum (O.contents new.old.file) (O.contents new.new.file)) }
{
    let mut lines = LineReader::new(alloc, &mut log.file, log.start, log.whole)?;
    let inventory = read_urls(alloc, session, &mut lines)?;
    append_rebuilt(alloc, &inventory, new_settings, log.identity.as_str(), new)
}

/// Appends the first line of a log of this plan, and the lines that have the URLs of the inventory. Returns how many of them it leaves
/// out.
fn append_rebuilt<O: Write>(
    alloc: Global,
    inventory: &Inventory,
    new_settings: &SessionPlan,
    identity: &str,
    new: &mut NewLog<O>,
) -> Result<LeftOut, LogError>
    requires { IsSessionPlan new_settings.now }
    ensures { IfOk result (λ left_out. (session : SessionView) → ReadsUrls session inventory.now → IsRebuilt session new_settings.now identity.now left_out new.old.frame.sum (O.contents new.old.file) (O.contents new.new.file)) }
{
    let (text, left_out) = rebuilt_text(alloc, inventory, new_settings, identity)?;
    let first = first_line_of(alloc, new_settings, identity)?;
    new.append(first.as_bytes())?;
    append_pieces(new, &text)?;
    Ok(left_out)
}

/// Reads the URLs of a session that is given these lines. Fails with `CannotRead` also if a line is too long for the reader.
#[tactic(auto, using(crate::proofs::Rebuilds::reads_none, crate::proofs::Rebuilds::reads_urls))]
fn read_urls<F: Read + Seek>(
    alloc: Global,
    session: &mut Session,
    lines: &mut LineReader<'_, F>,
) -> Result<Inventory, LogError>
    ensures { IfOk result (λ had. ReadsUrls session.old had) }
{
    let mut inventory = Inventory::new(alloc);
    while lines.read()? {
        inventory.read(session, lines.as_slice())?;
    }
    lines.finish()?;
    inventory.read_unfinished(session)?;
    Ok(inventory)
}

/// Returns the lines after the first one of a log of this plan that has the URLs of the inventory, and how many of them its suffix does
/// not allow. The log of a part has this identity.
///
/// # Errors
/// `NoRoom`, `LongUrl`, `NoMemory`.
#[tactic(auto, using(crate::proofs::Rebuilds::rebuilt_text))]
fn rebuilt_text(
    alloc: Global,
    inventory: &Inventory,
    plan: &SessionPlan,
    identity: &str,
) -> Result<(Vec<u8>, LeftOut), LogError>
    requires { IsSessionPlan plan.now }
    ensures { IfOk result (λ r. IsRebuiltText inventory.now plan.now identity.now r.0.items r.1) }
{
    let filter = filter_within(alloc, &plan.within)?;
    let mut session = plan.session(alloc, filter, identity)?;
    let mut text = Vec::new(alloc);
    let left_out = rebuild_log(inventory, &mut session, first_queue(plan), &mut text)?;
    Ok((text, left_out))
}

/// Returns the filter of a suffix, or one that allows all URLs.
pub fn filter_within(alloc: Global, within: &Option<String>) -> Result<Filter, LogError>
    ensures { IfOk result (λ filter. filter_of (suffixes_of within.now) ≡ Ok filter) }
{
    match within {
        Some(suffix) => filter_of(alloc, &[suffix.as_str()]),
        None => filter_of(alloc, &[]),
    }
}

/// Returns the number of the first queue of a session.
#[tactic(auto, using(crate::proofs::Rebuilds::first_fits))]
fn first_queue(plan: &SessionPlan) -> u32
    requires { IsSessionPlan plan.now }
    ensures { result ≡ first_queue plan.now }
{
    match plan.part {
        Some((number, _)) => number.saturating_mul(plan.workers),
        None => 0,
    }
}

/// Appends whole lines, in pieces that a reader of the log can hold, each with its checksum.
#[tactic(auto, using(crate::proofs::Rebuilds::pieces_none, crate::proofs::Rebuilds::pieces_all))]
fn append_pieces<O: Write>(new: &mut NewLog<O>, text: &[u8]) -> Result<(), LogError>
    ensures { OnOk result (InPieces text.now (summing new.old.frame.sum (O.contents new.old.file)) (summing new.new.frame.sum (O.contents new.new.file))) }
{
    let mut rest = text;
    while !rest.is_empty() {
        let (piece, more) = rest.split_at(piece_len(rest));
        new.append(piece)?;
        rest = more;
    }
    Ok(())
}

/// Returns the length of the first piece of these lines: the whole lines among the bytes that a reader can hold, or all of these bytes
/// if they are of one line.
fn piece_len(text: &[u8]) -> usize
    ensures within { result ≤ length text.now }
    ensures some { 0 < length text.now → 0 < result }
{
    let most = READ_SIZE.min(text.len());
    match whole_len(&text[..most]) {
        0 => most,
        whole => whole,
    }
}

// An error of this type comes from `rebuild_log`, which writes to memory here.
impl From<RebuildError> for LogError {
    ghost from_gives = { λ why error. error ≡ of_rebuild why };

    fn from(why: RebuildError) -> LogError {
        match why {
            RebuildError::Full => LogError::NoRoom,
            RebuildError::Unfit => LogError::LongUrl,
            RebuildError::CannotWrite | RebuildError::NoMemory => LogError::NoMemory,
        }
    }
}
