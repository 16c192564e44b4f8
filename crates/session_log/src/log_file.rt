//! The file of a log, to which each byte of the input is appended before the session reads it.
ghost use Rattle.std.specs.Prelude.{◌≡◌, ◌<◌, ◌≤◌, ◌==◌, [], ◌++◌, true, length, take, drop, vec_len, IfOk, OnOk};
ghost use Rattle.std.specs.Str.Lines.{lines};
ghost use Rattle.std.specs.Io.{ReadsAtMost};
ghost use Rattle.std.specs.Io.KnownBytes.{Appends, IsAtEnd, Keeps, ReadConsumes, prepend_known};
ghost use Rattle.session_log.specs.LogFile.{error_of_break, framed, has_sync, items, line_end, line_len, may_be_sync, may_sync, noted, sum_with};

use crate::error::{AppendError, LogError, LoggedError};
use crate::file_node::FileNode;
use crate::frame::Frame;
use crate::window::Window;
use crawl_session::{HELD_LIMIT, LogSum, ServeError, whole_len};
use memchr::memchr;
use std::alloc::{AllocError, Global};
use std::fs::{self, Files, OpenFile};
use std::io::{self, ErrorKind, Read, Write};
use text_lines::first_line;

/// The name of a log, and the file that it led to.
#[derive(Drop)]
pub struct LogPlace<'p, R> {
    rt: &'p R,
    name: String,
    node: FileNode,
}

impl<'p, R: Files> LogPlace<'p, R> {
    /// The file of a log with this name.
    pub(crate) fn new(rt: &'p R, name: String, node: FileNode) -> LogPlace<'p, R> {
        LogPlace { rt, name, node }
    }

    /// Returns whether the name still leads to the file, and the file has this length. The length of a file that is not a regular
    /// one says nothing.
    fn has(&self, len: u64) -> bool {
        if !self.node.is_regular {
            return true;
        }
        match fs::metadata(self.rt, self.name.as_str()) {
            Ok(found) => FileNode::of(&found) == self.node && found.len() == len,
            Err(_) => false,
        }
    }
}

/// A log, which only grows at its end.
#[derive(Drop)]
pub struct Log<'p, F, R> {
    alloc: Global,
    /// The file.
    file: F,
    /// The name that leads to it.
    place: LogPlace<'p, R>,
    /// The length of the file.
    len: u64,
    /// How many bytes of requests belong to an unfinished line.
    unfinished: usize,
    /// The last byte; LF if there is none.
    last: u8,
    /// The last append, and the checksum of the file.
    frame: Frame,
    /// Whether each append is synced to disk.
    sync: bool,
    /// Whether everything that was appended is synced to disk.
    synced: bool,
}

impl<'p, F: Write + OpenFile, R: Files> Log<'p, F, R> {
    /// A log of `len` bytes, all of them in whole lines. If it has checksums, `sum` is that of these bytes.
    pub(crate) fn new(
        alloc: Global,
        file: F,
        place: LogPlace<'p, R>,
        len: u64,
        sum: Option<LogSum>,
        sync: bool,
    ) -> Log<'p, F, R> {
        Log {
            alloc,
            file,
            place,
            len,
            unfinished: 0,
            last: b'\n',
            frame: Frame::new(alloc, sum),
            sync,
            synced: false,
        }
    }

    /// Appends what was read. Of a line that is too long, it appends only enough to show that.
    ///
    /// # Errors
    /// As for [`append`](Log::append).
    pub(crate) fn note(&mut self, bytes: &[u8]) -> Result<(), AppendError>
        ensures gained { OnOk result (Appends (F.contents self.old.file) (F.contents self.new.file) (framed self.old.frame.sum (self.old.unfinished == 0) (noted self.old.unfinished bytes.now))) }
        ensures sum { OnOk result (self.new.frame.sum ≡ sum_with self.old.frame.sum (framed self.old.frame.sum (self.old.unfinished == 0) (noted self.old.unfinished bytes.now))) }
    {
        let end = line_len(bytes);
        let room = HELD_LIMIT.saturating_sub(self.unfinished);
        if end <= room {
            return self.append(bytes);
        }
        let kept = joined(self.alloc, &bytes[..room], &bytes[end..])?;
        self.append(&kept)
    }

    /// Like [`note`](Log::note); if a line that ends in these bytes may be `sync`, also syncs the log to disk.
    ///
    /// # Errors
    /// As for [`append`](Log::append).
    pub(crate) fn note_synced(&mut self, bytes: &[u8]) -> Result<(), AppendError>
        ensures gained { OnOk result (Appends (F.contents self.old.file) (F.contents self.new.file) (framed self.old.frame.sum (self.old.unfinished == 0) (noted self.old.unfinished bytes.now))) }
        ensures sum { OnOk result (self.new.frame.sum ≡ sum_with self.old.frame.sum (framed self.old.frame.sum (self.old.unfinished == 0) (noted self.old.unfinished bytes.now))) }
        ensures synced { OnOk result (may_sync self.old.unfinished bytes.now ≡ true → self.new.synced ≡ true) }
    {
        let before = self.len;
        let needs_sync = may_sync(self.unfinished, bytes);
        self.note(bytes)?;
        if needs_sync && !self.synced {
            self.sync_from(before)?;
        }
        Ok(())
    }

    /// Syncs the log to disk. If that fails, removes what follows this length.
    fn sync_from(&mut self, before: u64) -> Result<(), AppendError>
        ensures kept { OnOk result (self.new.file ≡ self.old.file) }
        ensures sum { self.new.frame ≡ self.old.frame }
        ensures synced { OnOk result (self.new.synced ≡ true) }
    {
        if self.file.sync_data().is_err() {
            self.cut(before);
            return Err(AppendError::CannotWrite);
        }
        self.synced = true;
        Ok(())
    }

    /// Ends the unfinished line, if there is one.
    ///
    /// # Errors
    /// As for [`append`](Log::append).
    pub(crate) fn end_line(&mut self) -> Result<(), AppendError>
        ensures gained { OnOk result (Appends (F.contents self.old.file) (F.contents self.new.file) (framed self.old.frame.sum (self.old.unfinished == 0) (line_end self.old.last))) }
    {
        match self.last {
            b'\n' => Ok(()),
            b'\r' => self.append(b"\r\n"),
            _ => self.append(b"\n"),
        }
    }

    /// Appends bytes of requests by one write. If the log has checksums, one follows the last LF of these bytes.
    ///
    /// # Errors
    /// `Changed` if another process changed the file, which then stays as it is. `CannotWrite` if a write fails; what it wrote is
    /// then removed. `NoMemory`.
    pub(crate) fn append(&mut self, bytes: &[u8]) -> Result<(), AppendError>
        ensures gained { OnOk result (Appends (F.contents self.old.file) (F.contents self.new.file) (framed self.old.frame.sum (self.old.unfinished == 0) bytes.now)) }
        ensures sum { OnOk result (self.new.frame.sum ≡ sum_with self.old.frame.sum (framed self.old.frame.sum (self.old.unfinished == 0) bytes.now)) }
    {
        if !self.place.has(self.len) {
            return Err(AppendError::Changed);
        }
        self.frame.fill(self.unfinished == 0, bytes)?;
        if self.write().is_err() {
            self.cut(self.len);
            return Err(AppendError::CannotWrite);
        }
        self.grow(bytes);
        Ok(())
    }

    /// Writes the frame, and syncs the log to disk if each append is synced. An error may leave some of the bytes in the file.
    fn write(&mut self) -> io::Result<()>
        ensures gained { OnOk result (Appends (F.contents self.old.file) (F.contents self.new.file) self.old.frame.bytes.items) }
        ensures frame { self.new.frame ≡ self.old.frame }
    {
        self.synced = false;
        self.file.write_all(self.frame.as_slice())?;
        if self.sync {
            self.file.sync_data()?;
            self.synced = true;
        }
        Ok(())
    }

    /// Removes what follows this length, if that is possible. It never makes the file longer, even if another process shortened it.
    fn cut(&self, len: u64) {
        if let Ok(found) = self.file.metadata() {
            if len < found.len() {
                let _ = self.file.set_len(len);
            }
        }
    }

    /// Counts bytes of requests that were appended as the frame.
    fn grow(&mut self, bytes: &[u8])
        ensures file { self.new.file ≡ self.old.file }
        ensures frame { self.new.frame ≡ self.old.frame }
    {
        let count = self.frame.as_slice().len();
        self.len = self.len.saturating_add(count as u64);
        let whole = whole_len(bytes);
        let before = if whole == 0 { self.unfinished } else { 0 };
        self.unfinished = before.saturating_add(bytes.len() - whole);
        if let Some(last) = bytes.last() {
            self.last = *last;
        }
    }
}

/// Returns one slice after the other.
fn joined(alloc: Global, front: &[u8], rest: &[u8]) -> Result<Vec<u8>, AllocError>
    ensures { IfOk result (λ bytes. bytes.items ≡ front.now ++ rest.now) }
{
    let mut bytes = Vec::new(alloc);
    bytes.extend_from_slice(front)?;
    bytes.extend_from_slice(rest)?;
    Ok(bytes)
}

/// Appends the bytes to the log. If `syncs`, the log is synced to disk before a `sync` is answered.
fn gain<F: Write + OpenFile, R: Files>(
    log: &mut Log<'_, F, R>,
    bytes: &[u8],
    syncs: bool,
) -> Result<(), AppendError>
    ensures gained { OnOk result (Appends (F.contents log.old.file) (F.contents log.new.file) (framed log.old.frame.sum (log.old.unfinished == 0) (noted log.old.unfinished bytes.now))) }
    ensures sum { OnOk result (log.new.frame.sum ≡ sum_with log.old.frame.sum (framed log.old.frame.sum (log.old.unfinished == 0) (noted log.old.unfinished bytes.now))) }
    ensures synced { OnOk result (syncs ≡ true → may_sync log.old.unfinished bytes.now ≡ true → log.new.synced ≡ true) }
{
    if syncs {
        log.note_synced(bytes)
    } else {
        log.note(bytes)
    }
}

/// Returns the number of bytes before the first LF, or before the end.
fn line_len(bytes: &[u8]) -> usize
    ensures value { result ≡ line_len bytes.now }
    ensures within { result ≤ length bytes.now }
{
    match memchr(b'\n', bytes) {
        Some(index) => index,
        None => bytes.len(),
    }
}

/// Returns whether a line that ends in these bytes may be `sync`, if they follow `unfinished` bytes of an unfinished line.
fn may_sync(unfinished: usize, bytes: &[u8]) -> bool
    ensures { result ≡ may_sync unfinished bytes.now }
{
    may_be_sync(unfinished) | has_sync(bytes)
}

/// Returns whether a line may be `sync` and its end, if this many of its bytes came before.
fn may_be_sync(unfinished: usize) -> bool
    ensures { result ≡ may_be_sync unfinished }
{
    0 < unfinished && unfinished < 6
}

/// Returns whether a line of the bytes is `sync`.
fn has_sync(bytes: &[u8]) -> bool
    ensures { result ≡ has_sync (lines bytes.now) }
{
    let mut rest = bytes;
    while let Some((line, more)) = first_line(rest) {
        if line == "sync".as_bytes() {
            return true;
        }
        rest = more;
    }
    false
}

/// An input whose bytes are appended to the log before they are handed on.
#[derive(Drop)]
pub struct LoggedInput<'a, 'p, I, F, R> {
    input: &'a mut I,
    log: Log<'p, F, R>,
    /// Whether the log is synced to disk before a `sync` is handed on.
    syncs: bool,
    window: Window,
    /// Why an append failed, if one did.
    failure: Option<AppendError>,
}

impl<'a, 'p, I: Read, F: Write + OpenFile, R: Files> LoggedInput<'a, 'p, I, F, R> {
    /// The input, from its current position.
    pub fn new(
        alloc: Global,
        input: &'a mut I,
        log: Log<'p, F, R>,
        syncs: bool,
    ) -> Result<LoggedInput<'a, 'p, I, F, R>, AllocError>
    where
        F: Drop,
        ensures begun { IfOk result (λ logged. logged.input.now ≡ input.entry.now) }
        ensures empty { IfOk result (λ logged. items logged.window ≡ []) }
    {
        Ok(LoggedInput {
            input,
            log,
            syncs,
            window: Window::new(alloc)?,
            failure: None,
        })
    }

    /// Returns the error of a session that ended for this reason.
    pub fn error_of(&self, why: ServeError) -> LoggedError
        ensures { result ≡ error_of_break self.now.failure why }
    {
        match self.failure {
            Some(AppendError::CannotWrite) => LoggedError::Log(LogError::CannotWrite),
            Some(AppendError::Changed) => LoggedError::Log(LogError::Changed),
            Some(AppendError::NoMemory) => LoggedError::Session(ServeError::NoMemory),
            None => LoggedError::Session(why),
        }
    }
}

impl<'a, 'p, I: Read, F: Write + OpenFile, R: Files> Read for LoggedInput<'a, 'p, I, F, R> {
    ghost remaining = { λ s. prepend_known (items s.window) (I.remaining s.input.now) };

    fn read(&mut self, buf: &mut [u8]) -> io::Result<usize>
        ensures bound { ReadsAtMost result buf.new }
        ensures bytes { ReadConsumes (prepend_known (items self.old.window) (I.remaining self.old.input.now)) (prepend_known (items self.new.window) (I.remaining self.new.input.now)) result buf.new }
        // What is handed on is in the log, with its checksum.
        ensures logged { IfOk result (λ n. 0 < n → Appends (F.contents self.old.log.file) (F.contents self.new.log.file) (framed self.old.log.frame.sum (self.old.log.unfinished == 0) (noted self.old.log.unfinished (take n buf.new)))) }
        // The next checksum covers it.
        ensures sum { IfOk result (λ n. 0 < n → self.new.log.frame.sum ≡ sum_with self.old.log.frame.sum (framed self.old.log.frame.sum (self.old.log.unfinished == 0) (noted self.old.log.unfinished (take n buf.new)))) }
        // A `sync` is handed on only after it is synced to disk.
        ensures synced { IfOk result (λ n. 0 < n → self.old.syncs ≡ true → may_sync self.old.log.unfinished (take n buf.new) ≡ true → self.new.log.synced ≡ true) }
    {
        if buf.is_empty() {
            return Ok(0);
        }
        self.window.fill(&mut *self.input)?;
        let ready = self.window.as_slice();
        let count = buf.len().min(ready.len());
        if count == 0 {
            if let Err(why) = self.log.end_line() {
                self.failure = Some(why);
                return Err(io::Error::from(ErrorKind::Other));
            }
            return Ok(0);
        }
        if let Err(why) = gain(&mut self.log, &ready[..count], self.syncs) {
            self.failure = Some(why);
            return Err(io::Error::from(ErrorKind::Other));
        }
        buf[..count].copy_from_slice(&ready[..count]);
        self.window.consume(count);
        Ok(count)
    }
}
