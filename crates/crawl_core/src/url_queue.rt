//! What the machine stores of one subqueue.
ghost use Rattle.std.specs.Prelude.{◌≡◌, ◌∷◌, [], true, false, drop, IfOk, IfSome, IfNone, OnErr, OnSome, option_map};
ghost use Rattle.crawl_core.specs.Fetching.{kept_fetch};
ghost use Rattle.crawl_core.specs.Handing.{kept_progress};
ghost use Rattle.crawl_core.specs.Kept.{empty_queue, has_seen, number_at};
ghost use Rattle.crawl_core.specs.Moves.{accepting};

use crate::error::NoMemory;
use crate::progress::Progress;
use crate::text::Text;
use hash_index::HashIndex;
use std::alloc::Global;
use std::collections::{BTreeMap, VecDeque};
use std::marker::Model;

/// A queue of URLs that wait, and what is remembered of all URLs that it accepted.
#[derive(Drop)]
pub struct UrlQueue {
    /// Oldest first.
    waiting: VecDeque<Text>,
    /// All URLs that were ever accepted, oldest first.
    seen: Vec<Text>,
    /// The index of each of these in the list.
    index: HashIndex,
    /// The number of accepted URLs of each sender.
    numbers: BTreeMap<u64, u64>,
    /// The URL that was taken last is not done.
    busy: bool,
}

impl Model for UrlQueue {
    ghost use Rattle.crawl_core.specs.Kept.{KeptQueue, AreFew};
    ghost use Rattle.std.specs.Prelude.{map};
    ghost use Rattle.hash_order.specs.HashOrder.{hash_of};
    ghost use Rattle.hash_index.specs.Index.{IsIndexOf};

    ghost Value = { KeptQueue };

    ghost view = { λ q. record { waiting = q.waiting.items; seen = q.seen.items; numbers = q.numbers.entries; busy = q.busy } };

    ghost invariant = { λ q. AreFew (record { waiting = q.waiting.items; seen = q.seen.items; numbers = q.numbers.entries; busy = q.busy }) × IsIndexOf hash_of (map (λ text. text) q.seen.items) q.index };
}

impl UrlQueue {
    /// Makes an empty queue. It takes no memory.
    pub fn new(alloc: Global) -> UrlQueue
        ensures { result ≡ empty_queue }
    {
        UrlQueue {
            waiting: VecDeque::new(alloc),
            seen: Vec::new(alloc),
            index: HashIndex::new(alloc),
            numbers: BTreeMap::new(alloc),
            busy: false,
        }
    }

    /// Whether the URL that was taken last is not done.
    pub fn is_busy(&self) -> bool
        ensures { result ≡ self.now.busy }
    {
        self.busy
    }

    /// The URL that was taken last, if it is not done yet.
    pub fn in_fetch(&self) -> Option<&Text>
        ensures { option_map (λ url. url.now) result ≡ kept_fetch self.now }
    {
        if !self.busy {
            return None;
        }
        let taken = self.seen.len().saturating_sub(self.waiting.len());
        self.seen.get(taken.saturating_sub(1))
    }

    /// Returns the queue's progress.
    pub fn progress(&self) -> Progress
        ensures { result ≡ kept_progress self.now }
    {
        let accepted = self.seen.len();
        Progress {
            accepted,
            taken: accepted.saturating_sub(self.waiting.len()),
            busy: self.busy,
        }
    }

    /// Appends a URL, and returns the number of earlier URLs of the sender, or `None` if the URL was ever accepted here.
    pub fn accept(&mut self, url: &Text, sender: u64) -> Result<Option<u64>, NoMemory>
        ensures seen { IfOk result (λ number. IfNone number (has_seen self.old url.now ≡ true)) }
        ensures unchanged { IfOk result (λ number. IfNone number (self.new ≡ self.old)) }
        ensures fresh { IfOk result (λ number. IfSome number (λ _. has_seen self.old url.now ≡ false)) }
        ensures number { IfOk result (λ number. IfSome number (λ number. number ≡ number_at self.old.numbers sender)) }
        ensures accepted { IfOk result (λ number. OnSome number (self.new ≡ accepting self.old url.now sender)) }
        ensures err { OnErr result (self.new ≡ self.old) }
    {
        self.waiting.reserve(1)?;
        self.seen.reserve(1)?;
        let found = self.index.find_or_insert(&self.seen, url)?;
        if found.is_some() {
            return Ok(None);
        }
        let waits = url.clone()?;
        let known = url.clone()?;
        let number = self.numbers.get(&sender).copied().unwrap_or(0);
        self.numbers.insert(sender, number + 1)?;
        self.seen.push_reserved(known);
        self.waiting.push_back_reserved(waits);
        Ok(Some(number))
    }

    /// Takes the URL that has waited longest, which makes the subqueue busy.
    pub fn take(&mut self) -> Option<Text>
        ensures empty { IfNone result (self.old.waiting ≡ []) }
        ensures unchanged { IfNone result (self.new ≡ self.old) }
        ensures oldest { IfSome result (λ url. self.old.waiting ≡ url ∷ drop 1 self.old.waiting) }
        ensures taken { OnSome result (self.new ≡ record self.old { waiting = drop 1 self.old.waiting; busy = true }) }
    {
        let url = self.waiting.pop_front()?;
        self.busy = true;
        Some(url)
    }

    /// Marks the URL that was taken last as done.
    pub fn finish(&mut self)
        ensures { self.new ≡ record self.old { busy = false } }
    {
        self.busy = false;
    }
}
