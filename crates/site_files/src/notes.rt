//! Notes about files, pages and links that are skipped or changed.
use crawl_keys::CanonUrl;
use std::alloc::{AllocError, Global};
use std::fmt;

/// Why something is skipped or changed.
#[derive(Clone, Copy, Debug, PartialEq, Eq)]
pub enum Left {
    /// The name is not UTF-8.
    NotUtf8,
    /// It is neither a file nor a folder.
    NoFile,
    /// The system refused to say what it is.
    Unread,
    /// It is a symbolic link that leads out of the folder.
    LeadsOut,
    /// It is a symbolic link to nothing.
    LeadsNowhere,
    /// The folder cannot be read.
    FolderUnread,
    /// The file cannot be read, so its links are skipped.
    FileUnread,
    /// The file has more than 1 GiB, so its links are skipped.
    LongFile,
    /// The file grew while it was read, so its links are skipped.
    FileChanged,
    /// Another file has the same URL.
    SameUrl,
    /// An earlier line of the list has the same URL.
    ListedTwice,
    /// The list has this number of URLs that are not below the top.
    Elsewhere(usize),
    /// The URL of the page is too long for a line.
    LongUrl,
    /// The target of the redirect is too long for a line.
    LongTarget,
    /// Some links of the page are too long for a line.
    LongLinks,
    /// The document is in an unknown encoding.
    Encoding,
}

impl fmt::Display for Left {
    fn fmt<W: fmt::Write>(&self, f: &mut fmt::Formatter<W>) -> fmt::Result {
        f.write_str(match self {
            Left::Elsewhere(count) => {
                return write!(
                    f,
                    "{count} other URLs of the list skipped, they are not below this one"
                );
            }
            Left::NotUtf8 => "skipped, its name is not UTF-8",
            Left::NoFile => "skipped, neither a file nor a folder",
            Left::Unread => "skipped, it cannot be read",
            Left::LeadsOut => {
                "skipped, a symbolic link that leads out of the folder (--follow follows it)"
            }
            Left::LeadsNowhere => "skipped, a symbolic link to nothing",
            Left::FolderUnread => "folder skipped, it cannot be read",
            Left::FileUnread => "links skipped, the file cannot be read",
            Left::LongFile => "links skipped, the file has more than 1 GiB",
            Left::FileChanged => "links skipped, the file changed while it was read",
            Left::SameUrl => "file skipped, another file has the same URL",
            Left::ListedTwice => "line skipped, an earlier line has the same URL",
            Left::LongUrl => "page skipped, its URL is too long",
            Left::LongTarget => "target of the redirect skipped, it is too long",
            Left::LongLinks => "some links skipped, they are too long",
            Left::Encoding => "unknown encoding, only ASCII was read",
        })
    }
}

/// A note about something that is skipped or changed.
#[derive(Debug, Drop)]
pub struct Note {
    /// The reason.
    pub left: Left,
    /// A name in the folder, or a URL.
    pub place: String,
}

impl Note {
    /// A note about a URL.
    ///
    /// # Errors
    /// Out of memory.
    pub fn at(alloc: Global, left: Left, url: &CanonUrl) -> Result<Note, AllocError> {
        let place = String::from_str(alloc, url.as_str())?;
        Ok(Note { left, place })
    }

    /// A copy of the note.
    pub(crate) fn copy(&self) -> Result<Note, AllocError> {
        let place = self.place.clone()?;
        Ok(Note {
            left: self.left,
            place,
        })
    }
}
