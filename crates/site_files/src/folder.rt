//! The contents of a folder.
ghost use Rattle.std.specs.Prelude.{◌≡◌, alloc_error};
ghost use Rattle.std.specs.IoError.{error_kind};

use crate::alias::FolderLink;
use crate::notes::{Left, Note};
use std::alloc::{AllocError, Global};
use std::cmp::Ordering;
use std::io::{ErrorKind, Read};
use std::rt::Files;
use std::{fs, io};

/// A folder that is to be listed.
#[derive(Drop)]
pub(crate) struct Folder {
    /// Its name below the top, with a slash at the end; empty for the top.
    pub(crate) name: String,
    /// Its path without symbolic links.
    pub(crate) real: String,
    /// Whether it is a symbolic link.
    pub(crate) is_link: bool,
    /// Whether it is outside the top, so that it may have several names.
    pub(crate) is_outside: bool,
}

/// The contents of a folder.
#[derive(Drop)]
pub(crate) struct Inside {
    /// The names of files and folders below the top; a folder's name ends in a slash.
    pub(crate) names: Vec<String>,
    /// The folders that are to be listed.
    pub(crate) folders: Vec<Folder>,
    /// The folders that are listed by another name.
    pub(crate) links: Vec<FolderLink>,
    pub(crate) notes: Vec<Note>,
}

impl Inside {
    /// No contents.
    fn new(alloc: Global) -> Inside {
        Inside {
            names: Vec::new(alloc),
            folders: Vec::new(alloc),
            links: Vec::new(alloc),
            notes: Vec::new(alloc),
        }
    }

    /// Adds a note that the file or folder with this name is left out for this reason.
    fn note(&mut self, left: Left, place: String) -> Result<(), AllocError> {
        self.notes.push(Note { left, place })?;
        Ok(())
    }

    /// Adds a note about an error of the system, unless it is out of memory.
    fn note_error(&mut self, error: &io::Error, left: Left, place: String) -> Result<(), AllocError>
        ensures { error_kind error.now ≡ ErrorKind.OutOfMemory → result ≡ Err alloc_error }
    {
        match error.kind() {
            ErrorKind::OutOfMemory => Err(AllocError),
            _ => self.note(left, place),
        }
    }

    /// Adds the name of a file or a folder.
    fn push(&mut self, name: String) -> Result<(), AllocError> {
        self.names.push(name)?;
        Ok(())
    }

    /// Sorts the folders by their names, symbolic links last.
    fn sort(&mut self) -> Result<(), AllocError> {
        self.folders
            .sort_by(|a: &Folder, b: &Folder| order_of(a, b))
    }
}

/// Compares two folders by their names, after those that are no symbolic links come before those that are.
fn order_of(a: &Folder, b: &Folder) -> Ordering {
    match a.is_link.cmp(&b.is_link) {
        Ordering::Equal => a.name.as_str().cmp(b.name.as_str()),
        order => order,
    }
}

/// The folders below one on disk. Symbolic links are followed, but out of the top only if `follow` says so.
#[derive(Drop)]
pub(crate) struct DiskFolders<'a, R> {
    pub(crate) rt: &'a R,
    pub(crate) alloc: Global,
    pub(crate) top: &'a str,
    /// The path of the top without symbolic links.
    pub(crate) real: String,
    /// Whether symbolic links out of the top are followed.
    pub(crate) follow: bool,
}

impl<R: Files> DiskFolders<'_, R> {
    /// The contents of a folder. `room` is for the names that one call of the system returns. The only error is out of memory.
    pub(crate) fn inside(&self, folder: &Folder, room: &mut [u8]) -> Result<Inside, AllocError> {
        match self.names_in(folder.name.as_str(), room) {
            Ok(listed) => self.listed(folder, listed.as_slice()),
            Err(error) => {
                let mut inside = Inside::new(self.alloc);
                inside.note_error(&error, Left::FolderUnread, folder.name.clone()?)?;
                Ok(inside)
            }
        }
    }

    /// The names in a folder, each ended by a NUL.
    pub(crate) fn names_in(&self, folder: &str, room: &mut [u8]) -> io::Result<Vec<u8>> {
        let path = format!(in self.alloc; "{}/{folder}", self.top)?;
        let mut folder = self.rt.open_dir(path.as_str())?;
        let mut names = Vec::new(self.alloc);
        for _ in 0..u64::MAX {
            let count = folder.read(room)?;
            if count == 0 {
                break;
            }
            names.extend_from_slice(room.get(..count).unwrap_or(&[]))?;
        }
        Ok(names)
    }

    /// The contents of a folder that lists these names.
    pub(crate) fn listed(&self, folder: &Folder, names: &[u8]) -> Result<Inside, AllocError> {
        let mut inside = Inside::new(self.alloc);
        for own in names.split(|byte| *byte == 0) {
            self.add_listed(folder, own, &mut inside)?;
        }
        inside.sort()?;
        Ok(inside)
    }

    /// Adds what a folder lists, except itself and the one above.
    fn add_listed(
        &self,
        folder: &Folder,
        own: &[u8],
        inside: &mut Inside,
    ) -> Result<(), AllocError> {
        if matches!(own, [] | [b'.'] | [b'.', b'.']) {
            return Ok(());
        }
        match str::from_utf8(own) {
            Ok(own) => self.add(folder, own, inside),
            Err(_) => {
                let text = String::from_utf8_lossy(self.alloc, own)?;
                let name = format!(in self.alloc; "{}{text}", folder.name.as_str())?;
                inside.note(Left::NotUtf8, name)
            }
        }
    }

    /// Adds a file or a folder. FIFOs, sockets and devices are left out.
    fn add(&self, folder: &Folder, own: &str, inside: &mut Inside) -> Result<(), AllocError> {
        let name = format!(in self.alloc; "{}{own}", folder.name.as_str())?;
        let path = format!(in self.alloc; "{}/{name}", self.top)?;
        match fs::symlink_metadata(self.rt, path.as_str()) {
            Ok(found) if found.is_dir() => {
                let real = path_in(self.alloc, folder.real.as_str(), own)?;
                self.add_folder(with_slash(name)?, real, false, inside)
            }
            Ok(found) if found.is_file() => inside.push(name),
            Ok(found) if found.is_symlink() => self.add_linked(path.as_str(), name, inside),
            Ok(_) => inside.note(Left::NoFile, name),
            Err(error) => inside.note_error(&error, left_by(&error), name),
        }
    }

    /// Adds the file or folder to which a symbolic link leads.
    fn add_linked(&self, path: &str, name: String, inside: &mut Inside) -> Result<(), AllocError> {
        match fs::metadata(self.rt, path) {
            Ok(found) if found.is_dir() => self.add_linked_folder(path, name, inside),
            Ok(found) if found.is_file() => self.add_linked_file(path, name, inside),
            Ok(_) => inside.note(Left::NoFile, name),
            Err(error) => inside.note_error(&error, left_by_link(&error), name),
        }
    }

    /// Adds a file to which a symbolic link leads, unless it is outside.
    fn add_linked_file(
        &self,
        path: &str,
        name: String,
        inside: &mut Inside,
    ) -> Result<(), AllocError> {
        match self.rt.canonicalize(self.alloc, path) {
            Ok(real) => {
                if self.is_followed(real.as_path().as_str()) {
                    inside.push(name)
                } else {
                    inside.note(Left::LeadsOut, name)
                }
            }
            Err(error) => inside.note_error(&error, Left::Unread, name),
        }
    }

    /// Adds a folder to which a symbolic link leads, unless it is outside.
    fn add_linked_folder(
        &self,
        path: &str,
        name: String,
        inside: &mut Inside,
    ) -> Result<(), AllocError> {
        let name = with_slash(name)?;
        match self.rt.canonicalize(self.alloc, path) {
            Ok(real) => {
                let real = real.into_string();
                if self.is_followed(real.as_str()) {
                    self.add_folder(name, real, true, inside)
                } else {
                    inside.note(Left::LeadsOut, name)
                }
            }
            Err(error) => {
                inside.push(name.clone()?)?;
                inside.note_error(&error, Left::FolderUnread, name)
            }
        }
    }

    /// Adds the folder with this path without symbolic links. If that is below the top, the folder is listed by that path only.
    fn add_folder(
        &self,
        name: String,
        real: String,
        is_link: bool,
        inside: &mut Inside,
    ) -> Result<(), AllocError> {
        inside.push(name.clone()?)?;
        match self.own_name(real.as_str())? {
            Some(own) if own.as_str() != name.as_str() => {
                inside.links.push(FolderLink { name, own })?;
            }
            own => inside.folders.push(Folder {
                name,
                real,
                is_link,
                is_outside: own.is_none(),
            })?,
        }
        Ok(())
    }

    /// Whether a symbolic link to this path is followed: the path is that of the top or below it, or all links are followed.
    fn is_followed(&self, real: &str) -> bool {
        self.follow || self.below_top(real).is_some()
    }

    /// The name below the top of the folder with this path without symbolic links, if it is the top or below it.
    fn own_name(&self, real: &str) -> Result<Option<String>, AllocError> {
        match self.below_top(real) {
            Some("") => Ok(Some(String::new(self.alloc))),
            Some(own) => Ok(Some(format!(in self.alloc; "{own}/")?)),
            None => Ok(None),
        }
    }

    /// What is left of a path without symbolic links after that of the top and a slash, if it is the top or below it.
    fn below_top<'b>(&self, real: &'b str) -> Option<&'b str> {
        // Only the path of the root ends in a slash
        let top = self
            .real
            .as_str()
            .strip_suffix("/")
            .unwrap_or(self.real.as_str());
        match real.strip_prefix(top)? {
            "" => Some(""),
            rest => rest.strip_prefix("/"),
        }
    }
}

/// The path of this name in the folder with this path. Only the path of the root ends in a slash.
fn path_in(alloc: Global, folder: &str, own: &str) -> Result<String, AllocError> {
    let front = folder.strip_suffix("/").unwrap_or(folder);
    format!(in alloc; "{front}/{own}")
}

/// Why a name is left out if the system does not say what it is.
fn left_by(error: &io::Error) -> Left {
    match error.kind() {
        ErrorKind::PermissionDenied => Left::Unread,
        _ => Left::NoFile,
    }
}

/// Why a symbolic link is left out if the system does not say what it leads to. It leads to nothing if its target is not there, if a file
/// is in the place of a folder, or if it leads back to itself.
fn left_by_link(error: &io::Error) -> Left {
    match error.kind() {
        ErrorKind::NotFound | ErrorKind::NotADirectory | ErrorKind::FilesystemLoop => {
            Left::LeadsNowhere
        }
        _ => left_by(error),
    }
}

/// Appends a slash, which ends the name of a folder.
fn with_slash(name: String) -> Result<String, AllocError> {
    let mut name = name;
    name.push('/')?;
    Ok(name)
}
