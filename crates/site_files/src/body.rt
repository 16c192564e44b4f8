//! The contents of files.
ghost use Rattle.std.specs.Prelude.{◌≡◌, ◌++◌, [], IfOk, OnOk};
ghost use Rattle.site_files.specs.Bodies.{contents};

use crate::files::SiteFile;
use crate::notes::Left;
use std::alloc::{AllocError, Global};
use std::io;
use std::io::Read;
use std::marker::Model;

/// The number of bytes of room that are kept for the next file, at most.
const ROOM: usize = 1 << 23;

/// The number of bytes by which the room grows, so that little more memory is touched than is used.
const ROOM_STEP: usize = 1 << 20;

/// The contents of a file.
#[derive(Drop)]
pub struct Body {
    /// The room for them, which is reused.
    room: Vec<u8>,
    /// The number of bytes in use.
    used: usize,
}

// Contracts see the contents.
impl Model for Body {
    ghost use Rattle.std.specs.Prelude.{ℕ, List};
    ghost use Rattle.site_files.specs.Bodies.{in_use};

    ghost Value = { List ℕ };

    ghost view = { λ body. in_use body.used body.room.items };
}

impl Body {
    /// An empty body.
    pub fn new(alloc: Global) -> Body
        ensures { result ≡ [] }
    {
        Body {
            room: Vec::new(alloc),
            used: 0,
        }
    }

    /// Removes the contents. The room is kept for the next file, unless it is large.
    pub fn clear(&mut self)
        ensures { self.new ≡ [] }
    {
        self.used = 0;
        if self.room.len() > ROOM {
            let alloc = *self.room.allocator();
            self.room = Vec::new(alloc);
        }
    }

    /// Returns the contents, without the room that is not in use.
    pub fn as_slice(&self) -> &[u8]
        ensures { result.now ≡ self.now }
    {
        self.room.as_slice().get(..self.used).unwrap_or(&[])
    }

    /// Appends bytes.
    ///
    /// # Errors
    /// Out of memory.
    pub fn push(&mut self, bytes: &[u8]) -> Result<(), AllocError>
        ensures { OnOk result (self.new ≡ self.old ++ bytes.now) }
    {
        let used = self.as_slice().len();
        self.room.truncate(used);
        self.room.extend_from_slice(bytes)?;
        self.used = self.room.len();
        Ok(())
    }

    /// Reads to the end, or until there are more than `most` bytes, which it returns. Unlike `read_to_end`, it does not clear the room
    /// first.
    ///
    /// # Errors
    /// Those of the input; out of memory.
    pub fn read<I: Read>(&mut self, input: &mut I, most: usize) -> io::Result<bool> {
        let limit = most.saturating_add(1);
        for _ in 0..u64::MAX {
            if self.used >= limit || !self.read_some(input, limit)? {
                break;
            }
        }
        Ok(self.used > most)
    }

    /// Reads the first `length` bytes of a file, or all if there are fewer, into an empty body.
    pub fn read_start<I: Read>(&mut self, input: &mut I, length: usize) -> io::Result<()> {
        for _ in 0..length {
            if self.used >= length || !self.read_some(input, length)? {
                break;
            }
        }
        Ok(())
    }

    /// Reads at least one byte, up to `limit` bytes in all, and returns whether there was one.
    fn read_some<I: Read>(&mut self, input: &mut I, limit: usize) -> io::Result<bool> {
        if self.room.len() <= self.used {
            self.grow()?;
        }
        let end = self.room.len().min(limit);
        let room = self
            .room
            .as_mut_slice()
            .get_mut(self.used..end)
            .unwrap_or(&mut []);
        let count = input.read(room)?;
        self.used = self.used.saturating_add(count);
        Ok(count != 0)
    }

    /// Adds 1 MiB of room, which is filled with zeros. The contents stay.
    fn grow(&mut self) -> Result<(), AllocError> {
        let length = self.room.len().max(self.used);
        self.room.resize(length.saturating_add(ROOM_STEP), 0)
    }
}

/// Reads the files of a site, for several threads at the same time.
pub trait FileBytes {
    ghost use Rattle.std.specs.Prelude.{ℕ, List, Option};

    /// What a file can contain when it is read, by its index among the names of the site; nothing if it is skipped.
    ghost reads: { Self → ℕ → Option (List ℕ) → Type 0 };

    /// Reads a file into an empty body. Returns why it is skipped, if it is.
    ///
    /// # Errors
    /// Out of memory.
    fn read(&self, file: SiteFile<'_>, body: &mut Body) -> Result<Option<Left>, AllocError>
        ensures { body.old ≡ [] → IfOk result (λ left. reads self.now file.entry.index (contents left body.new)) };
}

/// Files in memory, in the order of the site's names.
#[derive(Drop)]
pub struct InMemory<'a> {
    pub bodies: &'a [Vec<u8>],
}

impl FileBytes for InMemory<'_> {
    ghost use Rattle.std.specs.Prelude.{◌≡◌};
    ghost use Rattle.site_files.specs.Bodies.{contents_at};

    ghost reads = { λ files index found. found ≡ contents_at files.bodies.now index };

    fn read(&self, file: SiteFile<'_>, body: &mut Body) -> Result<Option<Left>, AllocError> {
        if let Some(bytes) = self.bodies.get(file.index) {
            body.push(bytes.as_slice())?;
        }
        Ok(None)
    }
}
