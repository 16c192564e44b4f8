//! Which file a name leads to.
use std::fs::Metadata;
use std::os::unix::fs::MetadataExt;

/// A file, as the system knows it.
#[derive(Clone, Copy, Debug, PartialEq, Eq)]
pub struct FileNode {
    /// Its device.
    dev: u64,
    /// Its number there.
    ino: u64,
    /// Whether it is a regular file. The length of another one says nothing.
    pub(crate) is_regular: bool,
}

impl FileNode {
    /// Returns the file that this metadata is of.
    pub fn of(found: &Metadata) -> FileNode {
        FileNode {
            dev: found.dev(),
            ino: found.ino(),
            is_regular: found.is_file(),
        }
    }
}
