//! The files of a folder on disk. The threads that make the pages read them.
ghost use Rattle.std.specs.IoError.{error_kind};
ghost use Rattle.std.specs.Prelude.{◌≡◌, alloc_error};

use document_links::{START_LENGTH, is_document};
use site_files::{Body, FileBytes, FileKind, Left, SiteFile};
use std::alloc::{AllocError, Global};
use std::io::{ErrorKind, Read};
use std::rt::Files;
use std::{fs, io};

/// The files in a folder, whose names are paths below it.
#[derive(Drop)]
pub struct OnDisk<'a, R> {
    pub rt: &'a R,
    pub alloc: Global,
    pub folder: &'a str,
}

impl<R: Files> FileBytes for OnDisk<'_, R> {
    // What is on disk has no value in a contract.
    ghost reads = { λ _ _ _. Unit {0} };

    fn read(&self, file: SiteFile<'_>, body: &mut Body) -> Result<Option<Left>, AllocError> {
        match self.read_file(file, body) {
            Ok(left) => Ok(left),
            Err(error) => {
                let left = left_by(&error)?;
                Ok(Some(left))
            }
        }
    }
}

impl<R: Files> OnDisk<'_, R> {
    /// Reads a file below the folder. Returns why its links are skipped, if they are.
    fn read_file(&self, file: SiteFile<'_>, body: &mut Body) -> io::Result<Option<Left>> {
        let path = format!(in self.alloc; "{}/{}", self.folder, file.name)?;
        read_path(self.rt, path.as_str(), file.kind, body)
    }
}

/// The number of bytes of a file that is read, at most.
const FILE_LIMIT: u64 = 1 << 30;

/// Reads the file of this kind with this path into an empty body, but not if the kind is unknown and the first bytes are not those of a
/// document. Returns why its links are skipped, if they are. A file of no bytes is not opened, because some of the system's own files
/// have this size and never end.
fn read_path<R: Files>(
    rt: &R,
    path: &str,
    kind: FileKind,
    body: &mut Body,
) -> io::Result<Option<Left>> {
    let length = fs::metadata(rt, path)?.len();
    if length == 0 {
        return Ok(None);
    }
    let mut file = fs::open(rt, path)?;
    if kind == FileKind::Unknown && !starts_document(&mut file, body)? {
        return Ok(None);
    }
    if length > FILE_LIMIT {
        return Ok(Some(Left::LongFile));
    }
    let is_longer = body.read(&mut file, length as usize)?;
    Ok(is_longer.then_some(Left::FileChanged))
}

/// Reads the first bytes of a file into an empty body, and returns whether they are those of a document. If not, the body stays empty.
fn starts_document<I: Read>(file: &mut I, body: &mut Body) -> io::Result<bool> {
    body.read_start(file, START_LENGTH)?;
    let is_start = is_document(body.as_slice());
    if !is_start {
        body.clear();
    }
    Ok(is_start)
}

/// The reason for a note about a file that cannot be read, or out of memory.
fn left_by(error: &io::Error) -> Result<Left, AllocError>
    ensures { error_kind error.now ≡ ErrorKind.OutOfMemory → result ≡ Err alloc_error }
{
    match error.kind() {
        ErrorKind::OutOfMemory => Err(AllocError),
        _ => Ok(Left::FileUnread),
    }
}
