//! The URLs that a worker offered recently: each has a line in the worker's log, and is not offered again.
ghost use Rattle.std.specs.Prelude.{◌≡◌, ◌<◌, ◌≤◌, ◌+◌, true, ℕ, List, length, IfOk, IfSome, Some};
ghost use Rattle.crawl_queues.specs.declared.book.Logged.{Logged};
ghost use Rattle.link_offers.specs.Logs.{HasLine};
ghost use Rattle.link_offers.specs.Recent.{AllKnown, Knows, url_in};

use crawl_keys::CanonUrl;
use std::alloc::{AllocError, Global};
use std::mem;
use std::mem::size_of;

// The number of slots of the first table, and of the largest.
const FEWEST_SLOTS: usize = 1_024;

const MOST_SLOTS: usize = 1 << 22;

/// The number of URLs whose slots are read together.
pub(crate) const READ_TOGETHER: usize = 64;

// A slot. Next to the URL is half of its hash, the mark, which selects the slot and differs for most other URLs, so that few
// texts are compared.
#[derive(Drop)]
enum Slot {
    Vacant,
    Taken { mark: u32, url: CanonUrl },
}

const _: () = prove!(size_of::<Slot>() == 16);

impl Slot {
    /// Returns the mark of the URL in the slot, or `None` if the slot is vacant.
    fn mark(&self) -> Option<u32> {
        match self {
            Slot::Taken { mark, .. } => Some(*mark),
            Slot::Vacant => None,
        }
    }

    // Whether it has this URL's mark.
    fn has_mark(&self, of: &CanonUrl) -> bool {
        match self {
            Slot::Taken { mark, .. } => *mark == mark_of(of),
            Slot::Vacant => false,
        }
    }

    // Whether it has this URL's mark, and its URL has this one's hash and last byte. The test reads both ends of its text.
    fn has_ends(&self, of: &CanonUrl) -> bool {
        match self {
            Slot::Taken { mark, url } => {
                *mark == mark_of(of)
                    && url.text_hash() == of.text_hash()
                    && last_byte(url) == last_byte(of)
            }
            Slot::Vacant => false,
        }
    }
}

/// A table with two slots for each remainder of a text's hash, for the last two URLs with that remainder. Earlier ones are
/// forgotten, and are then offered once more. So an attacker who chooses URLs with the same hash can make a worker forget them, but
/// nothing worse.
#[derive(Drop)]
pub struct RecentUrls {
    slots: Vec<Slot>,
    /// The number of URLs that were forgotten since the table got its size.
    put_out: usize,
    /// The number of offered URLs since then that had been accepted before, so that a larger table might have remembered them.
    missed: usize,
}

impl RecentUrls {
    /// Creates one without URLs. The call allocates nothing.
    pub fn new(alloc: Global) -> RecentUrls
        ensures { (workers : ℕ) (log : List Logged) → Knows workers log result }
    {
        RecentUrls {
            slots: Vec::new(alloc),
            put_out: 0,
            missed: 0,
        }
    }

    /// Whether the URL is remembered. If it is, it shares the text in the table from then on.
    pub fn has(&self, url: &mut CanonUrl) -> bool
        ensures url { url.new ≡ url.old }
        ensures line { (workers : ℕ) (log : List Logged) → Knows workers log self.now → result ≡ true → HasLine workers log url.old }
    {
        if self.slots.len() < 2 {
            return false;
        }
        let slot = pair_of(mark_of(url), self.slots.len());
        share(&self.slots[slot], url) || share(&self.slots[slot + 1], url)
    }

    /// A bit for each of the 64 URLs from this index on, the lowest for the first: whether one of its slots has a URL with its
    /// hash. A look-up waits for memory twice, for the slot and for its URL. Here the look-ups of many URLs wait at the same time,
    /// so that `has` then finds both in the cache.
    pub(crate) fn marks(&self, urls: &[CanonUrl], from: usize) -> u64
        requires { from ≤ length urls.now }
    {
        if self.slots.len() < 2 {
            return 0;
        }
        let urls = &urls[from..];
        let urls = &urls[..urls.len().min(READ_TOGETHER)];
        let marked = self.marked(urls);
        self.hashed(urls, marked)
    }

    /// Like [`RecentUrls::has`], but a URL that was not marked is not looked up. `marked` is its bit of the marks. A URL that was
    /// first remembered after the marks were read may be offered once more.
    pub(crate) fn has_marked(&self, marked: bool, url: &mut CanonUrl) -> bool
        ensures url { url.new ≡ url.old }
        ensures line { (workers : ℕ) (log : List Logged) → Knows workers log self.now → result ≡ true → HasLine workers log url.old }
    {
        marked && self.has(url)
    }

    // A bit for each URL: whether one of its slots has its mark.
    fn marked(&self, urls: &[CanonUrl]) -> u64
        requires slots { 2 ≤ length self.now.slots.items }
        requires urls { length urls.now ≤ 64 }
    {
        let mut marked = 0;
        for (bit, url) in urls.iter().enumerate() {
            let slot = pair_of(mark_of(url), self.slots.len());
            // Both are read, because a branch on the first could not be predicted.
            let first = self.slots[slot].has_mark(url);
            let second = self.slots[slot + 1].has_mark(url);
            marked |= u64::from(first | second) << bit;
        }
        marked
    }

    // The bits of those URLs for which a slot has the whole hash.
    fn hashed(&self, urls: &[CanonUrl], marked: u64) -> u64
        requires slots { 2 ≤ length self.now.slots.items }
        requires urls { length urls.now ≤ 64 }
    {
        let mut hashed = 0;
        for (bit, url) in urls.iter().enumerate() {
            if marked >> bit & 1 == 1 {
                let slot = pair_of(mark_of(url), self.slots.len());
                let has = self.slots[slot].has_ends(url) || self.slots[slot + 1].has_ends(url);
                hashed |= u64::from(has) << bit;
            }
        }
        hashed
    }

    /// Remembers the URL, if there is memory for it. The table grows if URLs that it has forgotten are offered again. So it stays
    /// small for a source whose URLs are each linked once.
    pub fn remember(&mut self, alloc: Global, url: &CanonUrl, again: bool)
        ensures { (workers : ℕ) (log : List Logged) → Knows workers log self.old → HasLine workers log url.now → Knows workers log self.new }
    {
        self.missed = self.missed.saturating_add(usize::from(again));
        self.grow_if_missed(alloc);
        if let Ok(copy) = url.copy() {
            let mark = mark_of(url);
            self.put(Slot::Taken { mark, url: copy });
        }
    }

    // Grows if enough URLs were forgotten, and enough URLs were offered since then that had been accepted before.
    fn grow_if_missed(&mut self, alloc: Global)
        ensures { (workers : ℕ) (log : List Logged) → Knows workers log self.old → Knows workers log self.new }
    {
        let slots = self.slots.len();
        if self.put_out < slots / 64 || self.missed < slots / 256 || slots >= MOST_SLOTS {
            return;
        }
        self.grow(alloc, FEWEST_SLOTS.max(2 * slots));
    }

    // Writes a URL into the first of its slots, and moves the URL that was there to the second.
    fn put(&mut self, slot: Slot)
        ensures { (workers : ℕ) (log : List Logged) → Knows workers log self.old → IfSome (url_in slot) (HasLine workers log) → Knows workers log self.new }
    {
        let Some(mark) = slot.mark() else {
            return;
        };
        if self.slots.len() < 2 {
            return;
        }
        let first = pair_of(mark, self.slots.len());
        let before = mem::replace(&mut self.slots[first], slot);
        let out = mem::replace(&mut self.slots[first + 1], before);
        if out.mark().is_some() {
            self.put_out = self.put_out.saturating_add(1);
        }
    }

    // Moves to a table of `count` slots, if there is memory for it. No URL is read or copied.
    fn grow(&mut self, alloc: Global, count: usize)
        ensures { (workers : ℕ) (log : List Logged) → Knows workers log self.old → Knows workers log self.new }
    {
        let Ok(slots) = empty_slots(alloc, count) else {
            return;
        };
        let mut old = mem::replace(&mut self.slots, slots);
        self.put_out = 0;
        self.missed = 0;
        while let Some(slot) = old.pop() {
            self.put(slot);
        }
    }
}

// The first of the two slots for URLs of this mark. The number of slots is a power of two, so `&` computes the remainder.
#[tactic(auto, using(std::proofs::lemmas::Nat::and_le_r))]
fn pair_of(mark: u32, slots: usize) -> usize
    requires { 2 ≤ slots }
    ensures { result + 1 < slots }
{
    let pairs = slots / 2;
    2 * (mark as usize & (pairs - 1))
}

/// Returns the last byte of the URL's text. Reading it brings the end of the text into the cache.
fn last_byte(url: &CanonUrl) -> Option<&u8> {
    url.as_str().as_bytes().last()
}

// Half of a URL's hash.
fn mark_of(url: &CanonUrl) -> u32 {
    (url.text_hash() & 0xffff_ffff) as u32
}

// Whether the slot has the URL. If it does, the URL shares its text from then on.
fn share(slot: &Slot, url: &mut CanonUrl) -> bool
    ensures url { url.new ≡ url.old }
    ensures same { result ≡ true → url_in slot.now ≡ Some url.old }
{
    match slot {
        Slot::Taken { mark, url: kept } if *mark == mark_of(url) && *kept == *url => {
            if let Ok(shared) = kept.copy() {
                *url = shared;
            }
            true
        }
        _ => false,
    }
}

// `count` empty slots.
fn empty_slots(alloc: Global, count: usize) -> Result<Vec<Slot>, AllocError>
    ensures { IfOk result (λ slots. (workers : ℕ) (log : List Logged) → AllKnown workers log slots.items) }
{
    let mut slots = Vec::with_capacity(alloc, count)?;
    for _ in 0..count {
        slots.push(Slot::Vacant)?;
    }
    Ok(slots)
}
