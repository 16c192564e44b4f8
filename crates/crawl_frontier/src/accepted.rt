//! The list that one queue accepted, after its shard is taken out of its lock.
ghost use Rattle.std.specs.Prelude.{◌≡◌, ℕ, map};
ghost use Rattle.hash_order.specs.HashOrder.{hash_of};
ghost use Rattle.hash_index.specs.Lists.{index_of};
ghost use Rattle.hash_index.specs.Index.{IsIndexOf};
ghost use Rattle.crawl_queues.specs.Entries.{count_of};
ghost use Rattle.crawl_frontier.specs.Tables.{count_in};

use crate::tables::{Counts, count};
use crawl_keys::CanonUrl;
use crawl_queues::Entry;
use hash_index::HashIndex;
use std::marker::Model;

/// The list of the accepted URLs, with their index and each sender's count. In contracts it is the list.
#[derive(Drop)]
pub struct AcceptedList {
    sent: Vec<Entry>,
    index: HashIndex,
    counts: Counts,
}

impl Model for AcceptedList {
    ghost use Rattle.std.specs.Prelude.{◌≡◌, ℕ, List, map};
    ghost use Rattle.hash_order.specs.HashOrder.{hash_of};
    ghost use Rattle.hash_index.specs.Index.{IsIndexOf};
    ghost use Rattle.crawl_queues.specs.declared.entry.Entry.{Entry};
    ghost use Rattle.crawl_queues.specs.Entries.{count_of};
    ghost use Rattle.crawl_frontier.specs.Tables.{count_in};

    ghost Value = { List Entry };

    ghost view = { λ s. s.sent.items };

    ghost invariant = { λ s.
        IsIndexOf hash_of (map (λ e. e.url) s.sent.items) s.index
        × ((id : ℕ) → count_in s.counts id ≡ count_of id s.sent.items) };
}

impl AcceptedList {
    /// Creates the list from its entries, with the index of their URLs and the number of entries of each sender.
    pub(crate) fn new(sent: Vec<Entry>, index: HashIndex, counts: Counts) -> AcceptedList
        requires index { IsIndexOf hash_of (map (λ e. e.url) sent.items) index }
        requires counts { (id : ℕ) → count_in counts id ≡ count_of id sent.items }
        ensures { result ≡ sent.items }
    {
        AcceptedList {
            sent,
            index,
            counts,
        }
    }

    /// The entries, oldest first.
    pub fn entries(&self) -> &[Entry]
        ensures { result.now ≡ self.now }
    {
        self.sent.as_slice()
    }

    /// The index of the URL's entry, if it is there.
    pub fn index_of(&self, url: &CanonUrl) -> Option<usize>
        ensures { result ≡ index_of (map (λ e. e.url) self.now) url.now }
    {
        self.index.find(&self.sent, url)
    }

    /// The number of entries of this sender.
    pub fn count(&self, sender: u64) -> u64
        ensures { result ≡ count_of sender self.now }
    {
        count(&self.counts, sender)
    }
}
