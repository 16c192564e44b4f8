//! Opens the file of a log.
ghost use Rattle.std.specs.Prelude.{◌≡◌, ℕ, List, string_bytes, IfErr, IfOk};
ghost use Rattle.crawl_session.specs.Frontiers.{Shows, start};
ghost use Rattle.crawl_session.specs.Logs.{settings_line};
ghost use Rattle.session_log.specs.Compaction.{first_line, part_start, suffixes_of};
ghost use Rattle.session_log.specs.LogFile.{IsReadError, IsUseError};
ghost use Rattle.session_log.specs.Plans.{IsSessionPlan, queues_of, settings_of};

use crate::error::LogError;
use crate::file_node::FileNode;
use crate::lines::checked_sum;
use crate::lock_file::LockFile;
use crate::log_settings::{SUMS, error_of_head};
use crate::plan::{LogPlan, SessionPlan};
use crawl_keys::Filter;
use crawl_replay::Header;
use crawl_session::{LogSum, READ_SIZE, Session, hex_digit, settings_line, start_text, whole_len};
use std::alloc::{AllocError, Global};
use std::fs::{self, Files, OpenFile, OpenOptions};
use std::io::{self, Read, Seek, SeekFrom};
use std::time::Duration;

/// How often a log may be replaced by another file until it is locked.
const OPENING_LIMIT: u32 = 9;

/// The number of digits of an identity.
const DIGITS: usize = 32;

/// How the first line of a log may begin.
const STARTS: &[&str] = &["workers ", "within ", "part "];

/// The largest number of bytes in [`STARTS`].
const START_LEN: usize = 8;

/// The file of a log, locked by this process.
#[derive(Drop)]
pub struct OpenedLog<F> {
    /// The file.
    pub(crate) file: F,
    /// What it is to the system.
    pub(crate) node: FileNode,
    /// The first line of a log with checksums and these settings, with its LF.
    pub(crate) first: String,
    /// The length of the first line of the file, which may be that of a log without checksums; 0 if it is not whole.
    pub(crate) start: u64,
    /// The checksum of the whole lines of the file, if it has checksums.
    pub(crate) sum: Option<LogSum>,
    /// The identity in the first line, if the log is that of a part.
    pub(crate) identity: String,
    /// The length of the whole lines of the file; 0 if the first line is not whole.
    pub(crate) whole: u64,
    /// The length of the file.
    pub(crate) len: u64,
}

impl<F: OpenFile> OpenedLog<F> {
    /// Removes the last line of the log if it has no end. Returns whether it did.
    ///
    /// # Errors
    /// `CannotWrite`.
    pub fn cut(&self) -> Result<bool, LogError>
        ensures { IfErr result IsUseError }
    {
        if self.len <= self.whole {
            return Ok(false);
        }
        if self.file.set_len(self.whole).is_err() {
            return Err(LogError::CannotWrite);
        }
        Ok(true)
    }
}

/// The lengths of a log, as it was opened.
#[derive(Clone, Copy)]
struct Lengths {
    /// Of its first line; 0 if that is not whole.
    start: u64,
    /// Of its whole lines.
    whole: u64,
    /// Of the file.
    len: u64,
    /// Whether it has checksums.
    sums: bool,
}

impl Lengths {
    /// Returns the checksum of the whole lines, if the log has checksums. Each checksum in it must be right.
    ///
    /// # Errors
    /// `Damaged`, `CannotRead`, `NoMemory`.
    fn sum_of<F: Read + Seek>(
        &self,
        alloc: Global,
        file: &mut F,
    ) -> Result<Option<LogSum>, LogError> {
        if !self.sums {
            return Ok(None);
        }
        Ok(Some(checked_sum(alloc, file, self.whole)?))
    }
}

/// Opens the log and creates the session of its plan, with the filter of its suffix. If `makes`, a file that does not exist is
/// created.
///
/// # Errors
/// `CannotOpen`, `InUse`; `NotALog` or `OtherSettings` if the log begins otherwise than the plan says; `Damaged` if a checksum is
/// wrong; `CannotRead`, `NoMemory`.
pub fn open_session<R: Files, L: LockFile<R::File>>(
    rt: &R,
    locks: &L,
    alloc: Global,
    plan: &LogPlan,
    filter: Filter,
    makes: bool,
) -> Result<(OpenedLog<R::File>, Session), LogError>
    requires { IsSessionPlan plan.now.session }
    ensures start { IfOk result (λ r. Shows r.1.core (start (queues_of plan.now.session) plan.now.session.max)) }
    ensures settings { IfOk result (λ r. (identity : List ℕ) × (r.1.settings ≡ settings_of plan.now.session filter identity)) }
{
    let opened = open_log(rt, locks, alloc, plan, makes)?;
    let session = plan
        .session
        .session(alloc, filter, opened.identity.as_str())?;
    Ok((opened, session))
}

/// Opens the file of the log, which must begin as the plan says.
///
/// # Errors
/// `CannotOpen`, `InUse`; `NotALog` or `OtherSettings` if it begins otherwise; `Damaged` if a checksum is wrong; `CannotRead`,
/// `NoMemory`.
fn open_log<R: Files, L: LockFile<R::File>>(
    rt: &R,
    locks: &L,
    alloc: Global,
    plan: &LogPlan,
    makes: bool,
) -> Result<OpenedLog<R::File>, LogError> {
    let (mut file, node) = open_file(rt, locks, plan, makes)?;
    check_start(alloc, &mut file)?;
    let Some(identity) = identity_of(rt, alloc, plan.session.part, &mut file)? else {
        return Err(unlike(alloc, &mut file, &plan.session)?);
    };
    let first = first_line_of(alloc, &plan.session, identity.as_str())?;
    let Some(head) = measure(alloc, &mut file, first.as_bytes())? else {
        return Err(unlike(alloc, &mut file, &plan.session)?);
    };
    let sum = head.sum_of(alloc, &mut file)?;
    Ok(OpenedLog {
        file,
        node,
        first,
        start: head.start,
        sum,
        identity,
        whole: head.whole,
        len: head.len,
    })
}

/// Opens and locks the file that has the name of the log when it is locked, and also returns what it is to the system. If another
/// file has the name then, that is opened, within the same time.
///
/// # Errors
/// `CannotOpen`; `InUse`, also if the name leads to another file each time.
fn open_file<R: Files, L: LockFile<R::File>>(
    rt: &R,
    locks: &L,
    plan: &LogPlan,
    makes: bool,
) -> Result<(R::File, FileNode), LogError> {
    let name = plan.file.as_str();
    let mut limit = Duration::from_secs(plan.wait);
    for _opening in 0..OPENING_LIMIT {
        let opened = OpenOptions::new()
            .read(true)
            .append(makes)
            .create(makes)
            .open(rt, name);
        let Ok(file) = opened else {
            return Err(LogError::CannotOpen);
        };
        match locks.lock_within(&file, limit) {
            Ok(Some(left)) => limit = left,
            Ok(None) => return Err(LogError::InUse),
            Err(_) => return Err(LogError::CannotOpen),
        }
        if let Some(node) = named_node(rt, &file, name) {
            return Ok((file, node));
        }
    }
    Err(LogError::InUse)
}

/// Returns what the file is to the system, if the name leads to it.
fn named_node<R: Files>(rt: &R, file: &R::File, name: &str) -> Option<FileNode> {
    let node = FileNode::of(&file.metadata().ok()?);
    if FileNode::of(&fs::metadata(rt, name).ok()?) == node {
        Some(node)
    } else {
        None
    }
}

/// Checks that the file begins like a log, whatever its options, or is shorter.
///
/// # Errors
/// `NotALog`, `CannotRead`, `NoMemory`.
fn check_start<F: Read + Seek>(alloc: Global, file: &mut F) -> Result<(), LogError> {
    let (start, _len) = read_head(alloc, file, START_LEN)?;
    if begins_a_log(&start) {
        Ok(())
    } else {
        Err(LogError::NotALog)
    }
}

/// Returns the beginning of the file, of at most `limit` bytes, and the length of the file.
pub fn read_head<F: Read + Seek>(
    alloc: Global,
    file: &mut F,
    limit: usize,
) -> Result<(Vec<u8>, u64), LogError>
    ensures { IfErr result IsReadError }
{
    let len = file.seek(SeekFrom::End(0))?;
    let count = len.min(limit as u64) as usize;
    let mut head = vec![in alloc; 0u8; count]?;
    file.seek(SeekFrom::Start(0))?;
    file.read_exact(&mut head)?;
    Ok((head, len))
}

/// Returns whether one of [`STARTS`] begins with these bytes, or these bytes with it.
fn begins_a_log(bytes: &[u8]) -> bool {
    for start in STARTS {
        let start = start.as_bytes();
        let count = start.len().min(bytes.len());
        if bytes[..count] == start[..count] {
            return true;
        }
    }
    false
}

/// Returns the identity of the log of a part: the digits in its first line, completed by random ones. Returns `None` if other
/// characters are there, and no digits if the log is not one of a part.
fn identity_of<R: Files, F: Read + Seek>(
    rt: &R,
    alloc: Global,
    part: Option<(u32, u32)>,
    file: &mut F,
) -> Result<Option<String>, LogError> {
    let Some(part) = part else {
        return Ok(Some(String::new(alloc)));
    };
    let mut digits = random_digits(rt)?;
    let begin = identity_start(alloc, part)?.len() as u64;
    let len = file.seek(SeekFrom::End(0))?;
    let there = len.saturating_sub(begin).min(DIGITS as u64) as usize;
    file.seek(SeekFrom::Start(begin))?;
    file.read_exact(&mut digits[..there])?;
    Ok(text_of_digits(alloc, &digits)?)
}

/// Returns the text before the identity.
fn identity_start(alloc: Global, part: (u32, u32)) -> Result<String, AllocError> {
    let mut text = start_text(alloc, Some(part), None)?;
    text.push_str("identity ")?;
    Ok(text)
}

/// Returns random digits from the system.
fn random_digits<R: Files>(rt: &R) -> Result<[u8; DIGITS], LogError> {
    let mut random = [0u8; DIGITS];
    let Ok(mut source) = fs::open(rt, "/dev/urandom") else {
        return Err(LogError::CannotRead);
    };
    if source.read_exact(&mut random).is_err() {
        return Err(LogError::CannotRead);
    }
    for byte in random.iter_mut() {
        *byte = hex_digit(u64::from(*byte));
    }
    Ok(random)
}

/// Returns the text of these digits, or `None` if one is not hexadecimal.
fn text_of_digits(alloc: Global, digits: &[u8]) -> Result<Option<String>, AllocError> {
    let mut text = String::new(alloc);
    for digit in digits {
        match digit {
            b'0'..=b'9' | b'a'..=b'f' => text.push(char::from(*digit))?,
            _ => return Ok(None),
        }
    }
    Ok(Some(text))
}

/// Returns the first line of a log with checksums, with its LF. The log of a part has this identity.
pub fn first_line_of(
    alloc: Global,
    plan: &SessionPlan,
    identity: &str,
) -> Result<String, AllocError>
    ensures { IfOk result (λ line. string_bytes line ≡ first_line plan.now identity.now) }
{
    let mut line = part_start(alloc, plan.part, identity)?;
    let settings = settings_text(alloc, plan)?;
    line.push_str(settings.as_str())?;
    line.push_str(SUMS)?;
    line.push_str("\n")?;
    Ok(line)
}

/// Returns what the first line of a part's log has before the settings, or an empty text if the log is not one of a part.
fn part_start(alloc: Global, part: Option<(u32, u32)>, identity: &str) -> Result<String, AllocError>
    ensures { IfOk result (λ text. string_bytes text ≡ part_start part identity.now) }
{
    match part {
        Some(part) => start_text(alloc, Some(part), Some(identity)),
        None => Ok(String::new(alloc)),
    }
}

/// Returns the settings in the first line of a log.
fn settings_text(alloc: Global, plan: &SessionPlan) -> Result<String, AllocError>
    ensures { IfOk result (λ text. string_bytes text ≡ settings_line plan.now.workers plan.now.max (suffixes_of plan.now.within)) }
{
    let header = Header {
        workers: plan.workers,
        max: plan.max,
    };
    match &plan.within {
        Some(suffix) => settings_line(alloc, &header, &[suffix.as_str()]),
        None => settings_line(alloc, &header, &[]),
    }
}

/// Returns the lengths of a log that begins with this line, or with the same line of a log without checksums. If the first line is
/// not whole, the log has no whole line. Returns `None` if the log begins otherwise.
///
/// # Errors
/// `CannotRead`, `NoMemory`.
fn measure<F: Read + Seek>(
    alloc: Global,
    file: &mut F,
    first: &[u8],
) -> Result<Option<Lengths>, LogError> {
    let (head, len) = read_head(alloc, file, first.len())?;
    let Some((start, sums)) = start_of(first, &head) else {
        return Ok(None);
    };
    if start == 0 {
        return Ok(Some(Lengths {
            start: 0,
            whole: 0,
            len,
            sums,
        }));
    }
    let start = start as u64;
    let mut buffer = vec![in alloc; 0u8; READ_SIZE]?;
    let whole = whole_end(file, start, len, &mut buffer)?;
    Ok(Some(Lengths {
        start,
        whole,
        len,
        sums,
    }))
}

/// Returns the length of the first line that the log begins with, 0 if it is not whole, and whether it is that of a log with
/// checksums. Returns `None` if the log begins otherwise.
fn start_of(first: &[u8], head: &[u8]) -> Option<(usize, bool)> {
    if first.starts_with(head) {
        let start = if head.len() < first.len() {
            0
        } else {
            head.len()
        };
        return Some((start, true));
    }
    let old = first.len().saturating_sub(SUMS.len() + 1);
    if old < head.len() && head[..old] == first[..old] && head[old] == b'\n' {
        return Some((old + 1, false));
    }
    None
}

/// Returns why a log that begins otherwise than the plan says is not the log of the plan.
///
/// # Errors
/// `CannotRead`, `NoMemory`.
fn unlike<F: Read + Seek>(
    alloc: Global,
    file: &mut F,
    plan: &SessionPlan,
) -> Result<LogError, LogError> {
    let (head, _len) = read_head(alloc, file, READ_SIZE)?;
    Ok(error_of_head(alloc, &head, plan)?)
}

/// Returns the end of the last whole line after `from`; `from` if there is none.
pub fn whole_end<F: Read + Seek>(
    file: &mut F,
    from: u64,
    len: u64,
    buffer: &mut [u8],
) -> io::Result<u64> {
    let mut end = len;
    for _turn in 0..u64::MAX {
        if end <= from || buffer.is_empty() {
            return Ok(from);
        }
        let count = (end - from).min(buffer.len() as u64) as usize;
        let start = end - count as u64;
        file.seek(SeekFrom::Start(start))?;
        file.read_exact(&mut buffer[..count])?;
        let whole = whole_len(&buffer[..count]);
        if 0 < whole {
            return Ok(start + whole as u64);
        }
        end = start;
    }
    Ok(from)
}
