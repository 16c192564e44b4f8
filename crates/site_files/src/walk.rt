//! The files and folders below a folder.
use crate::alias::FolderLink;
use crate::error::SiteError;
use crate::folder::{DiskFolders, Folder, Inside};
use crate::notes::{Left, Note};
use crate::rules::Rules;
use crate::skipped::SkippedLink;
use std::alloc::{AllocError, Global};
use std::collections::BTreeMap;
use std::io::ErrorKind;
use std::rt::Files;
use std::sync::atomic::{AtomicUsize, Ordering};
use std::thread::Threads;
use std::{fs, io, thread};

/// The number of threads that list folders.
const THREADS: usize = 4;

/// The number of bytes of room for the names in a folder. A call of the system fails if a name does not fit.
const NAMES_ROOM: usize = 1 << 16;

/// The names in a folder.
#[derive(Drop)]
pub struct FolderNames {
    /// The paths of files and folders, in byte order. The name of a folder ends with a slash.
    pub names: Vec<String>,
    /// The folders among them that are listed by another name.
    pub links: Vec<FolderLink>,
    /// The symbolic links that are not followed, because they lead out of the folder or to nothing.
    pub skipped: Vec<SkippedLink>,
    /// Notes about what was skipped, in the order of the names.
    pub notes: Vec<Note>,
}

/// Lists the files and folders in a folder and its subfolders. Symbolic links are followed, but out of the folder only if the rules say
/// so. Each folder is listed once: a subfolder by its path without symbolic links, and a folder outside by the shortest path, of which
/// one that does not end in a symbolic link comes before others. FIFOs, sockets and devices are left out.
///
/// # Errors
/// `Io` if the folder cannot be read; `NoMemory`.
pub fn folder_names<R: Files<File: Send, Dir: Send> + Threads + Sync>(
    rt: &R,
    alloc: Global,
    folder: &str,
    rules: &Rules,
) -> Result<FolderNames, SiteError> {
    let real = rt.canonicalize(alloc, folder)?.into_string();
    if !fs::metadata(rt, folder)?.is_dir() {
        return Err(SiteError::Io(io::Error::from(ErrorKind::InvalidInput)));
    }
    let folders = DiskFolders {
        rt,
        alloc,
        top: folder,
        real,
        follow: rules.follow,
    };
    let begun = begun(alloc, &folders)?;
    let walk = walked(rt, alloc, &folders, begun)?;
    let names = walk.into_names()?;
    Ok(names)
}

/// The walk after the top was listed.
fn begun<R: Files>(alloc: Global, folders: &DiskFolders<'_, R>) -> Result<Walk, SiteError> {
    let mut room = vec![in alloc; 0u8; NAMES_ROOM]?;
    let listed = folders.names_in("", room.as_mut_slice())?;
    let top = Folder {
        name: String::new(alloc),
        real: folders.real.clone()?,
        is_link: false,
        is_outside: false,
    };
    let inside = folders.listed(&top, listed.as_slice())?;
    let mut walk = Walk::from(alloc, top)?;
    walk.push(inside)?;
    Ok(walk)
}

/// The walk after all folders were listed, level by level.
fn walked<R: Files<File: Send, Dir: Send> + Threads + Sync>(
    rt: &R,
    alloc: Global,
    folders: &DiskFolders<'_, R>,
    walk: Walk,
) -> Result<Walk, AllocError> {
    let mut walk = walk;
    for _ in 0..u64::MAX {
        if walk.listed >= walk.entered.len() {
            break;
        }
        let level = level_of(rt, alloc, folders, walk.entered.as_slice(), walk.listed)?;
        walk.push_all(level)?;
    }
    Ok(walk)
}

/// Lists the folders from this one on in threads. Each comes with its index.
fn level_of<R: Files<File: Send, Dir: Send> + Threads + Sync>(
    rt: &R,
    alloc: Global,
    folders: &DiskFolders<'_, R>,
    entered: &[Folder],
    first: usize,
) -> Result<Vec<(usize, Inside)>, AllocError> {
    let next = AtomicUsize::new(first);
    let next = &next;
    let threads = THREADS.min(entered.len().saturating_sub(first));
    let listed = thread::map_indices(
        rt,
        alloc,
        threads,
        &|_: usize| { folders_of_one(alloc, folders, entered, next) },
    )?;
    joined(alloc, listed)
}

/// The contents of the folders that several threads have listed, in the order of their indices.
fn joined(
    alloc: Global,
    listed: Vec<Result<Vec<(usize, Inside)>, AllocError>>,
) -> Result<Vec<(usize, Inside)>, AllocError> {
    let mut level: Vec<(usize, Inside)> = Vec::new(alloc);
    for of_one in listed {
        let mut of_one = of_one?;
        level.append(&mut of_one)?;
    }
    level.sort_by(|a: &(usize, Inside), b: &(usize, Inside)| a.0.cmp(&b.0))?;
    Ok(level)
}

/// Lists the folders that one of several threads takes. Each takes the next.
fn folders_of_one<R: Files>(
    alloc: Global,
    folders: &DiskFolders<'_, R>,
    entered: &[Folder],
    next: &AtomicUsize,
) -> Result<Vec<(usize, Inside)>, AllocError> {
    let mut room = vec![in alloc; 0u8; NAMES_ROOM]?;
    let mut listed = Vec::new(alloc);
    for _ in 0..entered.len() {
        let index = next.fetch_add(1, Ordering::SeqCst);
        let Some(folder) = entered.get(index) else {
            break;
        };
        listed.push((index, folders.inside(folder, room.as_mut_slice())?))?;
    }
    Ok(listed)
}

/// The state of a walk.
#[derive(Drop)]
struct Walk {
    /// The folders that are to be listed.
    entered: Vec<Folder>,
    /// The number of those that were listed: the first ones.
    listed: usize,
    /// The names of the folders outside the top among them, by their paths without symbolic links.
    outside: BTreeMap<String, String>,
    names: Vec<String>,
    links: Vec<FolderLink>,
    notes: Vec<Note>,
}

impl Walk {
    /// A walk from the top.
    fn from(alloc: Global, top: Folder) -> Result<Walk, AllocError> {
        let mut entered = Vec::new(alloc);
        entered.push(top)?;
        Ok(Walk {
            entered,
            listed: 0,
            outside: BTreeMap::new(alloc),
            names: Vec::new(alloc),
            links: Vec::new(alloc),
            notes: Vec::new(alloc),
        })
    }

    /// Adds the contents of the next folders.
    fn push_all(&mut self, level: Vec<(usize, Inside)>) -> Result<(), AllocError> {
        for (_, inside) in level {
            self.push(inside)?;
        }
        Ok(())
    }

    /// Adds the contents of the next folder: its names, links and notes, and its subfolders to those that are to be listed.
    fn push(&mut self, inside: Inside) -> Result<(), AllocError> {
        let Inside {
            mut names,
            folders,
            mut links,
            mut notes,
        } = inside;
        self.listed = self.listed.saturating_add(1);
        self.names.append(&mut names)?;
        self.links.append(&mut links)?;
        self.notes.append(&mut notes)?;
        for folder in folders {
            self.enter(folder)?;
        }
        Ok(())
    }

    /// Adds a folder to those that are to be listed, unless it is outside the top and was added by another name.
    fn enter(&mut self, folder: Folder) -> Result<(), AllocError> {
        if folder.is_outside {
            if let Some(own) = self.outside.get(folder.real.as_str()) {
                let own = own.clone()?;
                let Folder { name, .. } = folder;
                self.links.push(FolderLink { name, own })?;
                return Ok(());
            }
            self.outside
                .insert(folder.real.clone()?, folder.name.clone()?)?;
        }
        self.entered.push(folder)?;
        Ok(())
    }

    /// The names and notes in order, and the symbolic links that the notes are about.
    fn into_names(self) -> Result<FolderNames, AllocError> {
        let Walk {
            mut names,
            links,
            mut notes,
            ..
        } = self;
        names.sort()?;
        notes.sort_by(|a: &Note, b: &Note| a.place.as_str().cmp(b.place.as_str()))?;
        let skipped = skipped_links(*notes.allocator(), notes.as_slice())?;
        Ok(FolderNames {
            names,
            links,
            skipped,
            notes,
        })
    }
}

/// The symbolic links that these notes are about.
fn skipped_links(alloc: Global, notes: &[Note]) -> Result<Vec<SkippedLink>, AllocError> {
    let mut skipped = Vec::new(alloc);
    for note in notes {
        let is_outside = matches!(note.left, Left::LeadsOut);
        if is_outside || matches!(note.left, Left::LeadsNowhere) {
            let place = note.place.as_str();
            let name = String::from_str(alloc, place.strip_suffix("/").unwrap_or(place))?;
            skipped.push(SkippedLink { name, is_outside })?;
        }
    }
    Ok(skipped)
}
