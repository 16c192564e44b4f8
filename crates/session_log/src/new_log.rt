//! The file of a compacted log. It gets its name when it is whole, because a session resumes from any beginning of a log.
ghost use Rattle.std.specs.Prelude.{◌≡◌, true, OnOk, Some};
ghost use Rattle.std.specs.Hash.DefaultHasher.{initial};
ghost use Rattle.std.specs.Io.KnownBytes.{Appends};
ghost use Rattle.session_log.specs.LogFile.{framed, sum_with};

use crate::error::LogError;
use crate::frame::Frame;
use crawl_session::LogSum;
use std::alloc::Global;
use std::fs::{self, File, Files, OpenFile};
use std::io::{self, ErrorKind, Write};

/// How many temporary names a new log may have. A name remains in use if its compaction was killed.
const NAME_LIMIT: u32 = 9;

/// The file of a new log, which has checksums.
#[derive(Drop)]
pub struct NewLog<O> {
    pub(crate) file: O,
    frame: Frame,
}

impl<O: Write> NewLog<O> {
    /// An empty file.
    pub fn new(alloc: Global, file: O) -> NewLog<O>
        ensures file { result.file ≡ file }
        ensures sum { result.frame.sum ≡ Some initial }
    {
        NewLog {
            file,
            frame: Frame::new(alloc, Some(LogSum::new())),
        }
    }

    /// Appends whole lines, with their checksum.
    ///
    /// # Errors
    /// `CannotWriteNew`, `NoMemory`.
    pub fn append(&mut self, lines: &[u8]) -> Result<(), LogError>
        ensures gained { OnOk result (Appends (O.contents self.old.file) (O.contents self.new.file) (framed self.old.frame.sum true lines.now)) }
        ensures sum { OnOk result (self.new.frame.sum ≡ sum_with self.old.frame.sum (framed self.old.frame.sum true lines.now)) }
    {
        self.frame.fill(true, lines)?;
        match self.file.write_all(self.frame.as_slice()) {
            Ok(()) => Ok(()),
            Err(_) => Err(LogError::CannotWriteNew),
        }
    }
}

/// Creates the file of a new log under a temporary name in the same folder, and returns both.
///
/// # Errors
/// `CannotMakeNew` if there is a file with the name of the new log, or if no temporary file can be created. `NoMemory`.
pub fn create_partial<R: Files>(
    rt: &R,
    alloc: Global,
    new: &str,
) -> Result<(String, R::File), LogError> {
    if fs::symlink_metadata(rt, new).is_ok() {
        return Err(LogError::CannotMakeNew);
    }
    for number in 1..=NAME_LIMIT {
        let partial = format!(in alloc; "{new}.partial-{number}")?;
        match File::create_new(rt, partial.as_str()) {
            Ok(file) => return Ok((partial, file)),
            Err(why) if why.kind() == ErrorKind::AlreadyExists => {}
            Err(_) => return Err(LogError::CannotMakeNew),
        }
    }
    Err(LogError::CannotMakeNew)
}

/// Gives the new log its name instead of the temporary one, and syncs its folder to disk. An error leaves neither name.
///
/// # Errors
/// `CannotMakeNew` if a file has the name of the new log, or if it cannot be given. `CannotWriteNew` if the sync fails.
pub fn publish<R: Files>(rt: &R, partial: &str, new: &str) -> Result<(), LogError> {
    // Unlike a rename, a link never replaces a file.
    let linked = fs::hard_link(rt, partial, new);
    let _ = fs::remove_file(rt, partial);
    if linked.is_err() {
        return Err(LogError::CannotMakeNew);
    }
    if sync_folder(rt, folder_of(new)).is_err() {
        let _ = fs::remove_file(rt, new);
        return Err(LogError::CannotWriteNew);
    }
    Ok(())
}

/// Syncs the names in a folder to disk.
fn sync_folder<R: Files>(rt: &R, folder: &str) -> io::Result<()> {
    fs::open(rt, folder)?.sync_all()
}

/// Returns the folder of a file.
fn folder_of(name: &str) -> &str {
    match name.rsplit_once('/') {
        Some(("", _)) => "/",
        Some((folder, _)) => folder,
        None => ".",
    }
}
