//! The entries and messages of a queue.
ghost use Rattle.std.specs.Prelude.{◌≡◌, IfOk};
ghost use Rattle.crawl_queues.specs.Entries.{entry};
ghost use Rattle.hash_order.specs.HashOrder.{hash_of};

use crawl_gate::Unit;
use crawl_keys::{CanonUrl, KeyError};
use hash_index::Keyed;

/// An accepted URL.
#[derive(Debug, Drop)]
pub struct Entry {
    /// The URL.
    pub url: CanonUrl,
    /// The id of the sender. A worker's id is the number of its queue, and the seeder's is the number of workers.
    pub sender: u64,
    /// The number of URLs of this sender that the queue accepted before.
    pub number: u64,
    /// The number of links from a URL that the seeder or a sender offered. It is 0 for these URLs themselves.
    pub hops: u32,
}

/// An entry, with the unit of the gate that it holds until its URL is done.
#[derive(Drop)]
pub struct Message {
    /// The accepted URL.
    pub entry: Entry,
    /// Its unit.
    pub unit: Unit,
}

impl Entry {
    /// Makes an entry with a copy of this URL, which shares its text.
    pub fn of_copy(url: &CanonUrl, sender: u64, number: u64, hops: u32) -> Result<Entry, KeyError>
        ensures { IfOk result (λ e. e ≡ entry url.now sender number hops) }
    {
        let url = url.copy()?;
        Ok(Entry {
            url,
            sender,
            number,
            hops,
        })
    }
}

// A list of entries is searched by URL.
impl Keyed for Entry {
    ghost use Rattle.hash_order.specs.HashOrder.{hash_of};

    ghost text = { λ e. e.url };

    ghost hash = { hash_of };

    fn text(&self) -> &str {
        self.url.as_str()
    }

    fn text_hash(&self) -> u64 {
        self.url.text_hash()
    }
}
