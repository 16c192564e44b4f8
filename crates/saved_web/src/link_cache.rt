//! The links of a saved web that a worker has resolved, stored by folder.
ghost use Rattle.std.specs.Prelude.{◌≡◌, ◌≤◌, ◌<◌};

use crate::folder::Folder;
use crate::known_links::KnownLinks;
use crate::worth::Worth;
use crawl_keys::{Base, CanonUrl};
use hash_order::hash_of;
use std::alloc::{AllocError, Global};
use std::mem;

/// The number of slots with which a cache begins.
const FEWEST_SLOTS: usize = 16;

/// The greatest number of slots of a cache.
const MOST_SLOTS: usize = 1_024;

/// The number of hashes of folders without known links, each stored at an index that it determines.
const MET: usize = 1_024;

/// The greatest number of slots that the caches of a crawl have together, in addition to those with which each begins.
const ALL_SLOTS: usize = 8_192;

/// The greatest number of texts that a cache stores.
const MOST_TEXTS: usize = 131_072;

/// The greatest number of texts that the caches of a crawl store together.
const ALL_TEXTS: usize = 1_048_576;

/// A folder with more known texts than this is removed.
const FOLDER_LIMIT: usize = 512;

/// Folders with their known links, each in the slot that its hash determines. The invariant of a folder says that its links are
/// right, so any folder may be in any slot. If a folder has no known links, only its hash is stored: many folders have only one
/// page, or pages whose links all differ.
#[derive(Drop)]
pub struct LinkCache<'a> {
    /// A buffer for the links of a page, until all of them are resolved.
    pub links: Vec<CanonUrl>,
    /// The known links of the current page that may lead elsewhere from other pages of its folder.
    pub known: KnownLinks<'a>,
    slots: Vec<Option<Folder<'a>>>,
    // The hashes of folders that had pages but no known links.
    met: Vec<u64>,
    worth: Worth,
    // Whether a folder was removed since the cache has its number of slots.
    crowded: bool,
    // The number of texts that the folders here know.
    texts: usize,
    most_slots: usize,
    most_texts: usize,
}

impl<'a> LinkCache<'a> {
    /// Makes an empty cache, one of `among` caches of a crawl, which share the limits.
    pub fn new(alloc: Global, among: u32) -> LinkCache<'a> {
        let among = among.max(1) as usize;
        LinkCache {
            links: Vec::new(alloc),
            known: KnownLinks::new(alloc),
            slots: Vec::new(alloc),
            met: Vec::new(alloc),
            worth: Worth::unknown(),
            crowded: false,
            texts: 0,
            most_slots: (ALL_SLOTS / among).max(FEWEST_SLOTS).min(MOST_SLOTS),
            most_texts: (ALL_TEXTS / among).min(MOST_TEXTS),
        }
    }

    /// Makes a cache that stores nothing.
    pub fn without_slots(alloc: Global) -> LinkCache<'a> {
        LinkCache {
            links: Vec::new(alloc),
            known: KnownLinks::new(alloc),
            slots: Vec::new(alloc),
            met: Vec::new(alloc),
            worth: Worth::unknown(),
            crowded: false,
            texts: 0,
            most_slots: 0,
            most_texts: 0,
        }
    }

    /// Returns the folder of this page: the one in its slot if that is the same folder, and otherwise one without known links.
    pub fn take(&mut self, alloc: Global, hash: u64, page: Base) -> Folder<'a>
        ensures { result ≡ page }
    {
        if !self.worth.is_some() {
            return Folder::new(alloc, page, false);
        }
        match self.take_of_folder(hash, &page) {
            Some(folder) => folder.turn_to(alloc, page),
            None => Folder::new(alloc, page, self.has_met(hash)),
        }
    }

    // Takes the folder out of the slot of this hash, if the page is in it.
    fn take_of_folder(&mut self, hash: u64, page: &Base) -> Option<Folder<'a>> {
        if self.slots.is_empty() {
            return None;
        }
        let slot = slot_of(hash, self.slots.len());
        match &self.slots[slot] {
            Some(folder) if folder.page().shares_folder(page) => {
                self.texts = self.texts.saturating_sub(folder.len());
                self.slots[slot].take()
            }
            Some(_) | None => None,
        }
    }

    // Whether the last folder without known links at this index of the list has this hash.
    fn has_met(&self, hash: u64) -> bool {
        self.met.get(slot_of(hash, MET)) == Some(&hash)
    }

    /// Counts the links of a page of this folder, which knew `knew` texts before.
    pub fn weigh(&mut self, folder: &Folder<'a>, knew: usize, links: u64) {
        if folder.comes_again() {
            let of_folder = folder.len().saturating_sub(knew);
            let learned = of_folder.saturating_add(self.known.len());
            self.worth.count(links, learned as u64);
        }
    }

    /// Puts the folder back into its slot, unless it has no known links, or too many.
    pub fn put(&mut self, alloc: Global, hash: u64, folder: Folder<'a>) {
        let texts = folder.len();
        if texts == 0 {
            self.meet(alloc, hash);
            return;
        }
        if texts > FOLDER_LIMIT {
            return;
        }
        if self.texts.saturating_add(texts) > self.most_texts {
            self.slots = Vec::new(alloc);
            self.texts = 0;
        }
        let slots = self.slots.len();
        if (slots == 0 || self.crowded) && slots < self.most_slots {
            self.grow(alloc, FEWEST_SLOTS.max(2 * slots).min(self.most_slots));
        }
        self.insert(hash, folder);
    }

    // Stores the hash of a folder without known links, if there is room.
    fn meet(&mut self, alloc: Global, hash: u64) {
        if self.met.is_empty() && self.most_slots > 0 {
            self.met = vec![in alloc; 0u64; MET].unwrap_or(Vec::new(alloc));
        }
        if let Some(met) = self.met.get_mut(slot_of(hash, MET)) {
            *met = hash;
        }
    }

    // Puts the folder into its slot, if there are slots.
    fn insert(&mut self, hash: u64, folder: Folder<'a>) {
        if self.slots.is_empty() {
            return;
        }
        let slot = slot_of(hash, self.slots.len());
        self.texts = self.texts.saturating_add(folder.len());
        if let Some(out) = mem::replace(&mut self.slots[slot], Some(folder)) {
            self.texts = self.texts.saturating_sub(out.len());
            self.crowded = true;
        }
    }

    // Moves the folders to `count` slots, if the limits allow that number and there is memory.
    fn grow(&mut self, alloc: Global, count: usize) {
        let Ok(slots) = free_slots(alloc, count) else {
            return;
        };
        let old = mem::replace(&mut self.slots, slots);
        self.crowded = false;
        self.texts = 0;
        for slot in old {
            if let Some(folder) = slot {
                self.insert(folder_hash(folder.page()), folder);
            }
        }
    }
}

/// Returns the slot of a folder with this hash, of `slots` slots.
fn slot_of(hash: u64, slots: usize) -> usize
    requires { 1 ≤ slots }
    ensures { result < slots }
{
    (hash % slots as u64) as usize
}

/// Makes `count` free slots.
fn free_slots<'a>(alloc: Global, count: usize) -> Result<Vec<Option<Folder<'a>>>, AllocError> {
    let mut slots = Vec::with_capacity(alloc, count)?;
    for _ in 0..count {
        slots.push(None)?;
    }
    Ok(slots)
}

/// Returns the hash of the folder of a page.
pub fn folder_hash(page: &Base) -> u64 {
    hash_of(page.folder())
}
