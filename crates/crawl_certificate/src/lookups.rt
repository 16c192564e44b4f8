//! Look-ups by URL: the entries of an account, by the account's own indices; and sets of borrowed URLs, in the order of their
//! hashes.
ghost use Rattle.std.specs.Prelude.{◌≡◌, ◌<◌, ℕ, List, Some, take, length, slice_get, is_some, IfOk, IfSome};
ghost use Rattle.crawl_keys.specs.Assignment.{subqueue_of};
ghost use Rattle.crawl_certificate.specs.Queues.{AreQueues};
ghost use Rattle.crawl_certificate.specs.AccountEntries.{entries_of, DifferByUrl};
ghost use Rattle.crawl_certificate.specs.Lookups.{pointed, has_url_at, Finds, is_in};
ghost use Rattle.crawl_certificate.specs.CertErrors.{is_accepted, contains_url};

use crawl_frontier::{Account, Entry};
use crawl_keys::{CanonUrl, hash};
use hash_order::HashedText;
use std::alloc::{AllocError, Global};
use std::collections::BTreeSet;
use std::marker::Model;

/// All entries that a run accepted, subqueue by subqueue. Contracts see the list of these.
#[derive(Drop)]
pub struct Accepted<'a> {
    account: &'a Account,
    entries: Vec<&'a Entry>,
    /// For each subqueue, the number of entries that come before its own.
    firsts: Vec<usize>,
}

impl<'a> Model for Accepted<'a> {
    ghost use Rattle.std.specs.Prelude.{List};
    ghost use Rattle.crawl_queues.specs.declared.entry.Entry.{Entry};
    ghost use Rattle.crawl_certificate.specs.Lookups.{pointed};
    ghost use Rattle.crawl_certificate.specs.Queues.{AreLaidOut};

    ghost Value = { List Entry };

    ghost view = { λ all. pointed all.entries.items };

    ghost invariant = { λ all. AreLaidOut all.account.now (pointed all.entries.items) all.firsts.items };
}

impl<'a> Accepted<'a> {
    /// Lists all entries of the account.
    pub fn of(alloc: Global, account: &'a Account) -> Result<Accepted<'a>, AllocError>
        ensures all { IfOk result (λ all. all ≡ entries_of account.now) }
        ensures apart { IfOk result (λ all. DifferByUrl all) }
        ensures queues { IfOk result (λ _. AreQueues (λ url. subqueue_of url account.now.workers) (take account.now.workers account.now.queues)) }
    {
        let mut entries = Vec::new(alloc);
        let mut firsts = Vec::new(alloc);
        for queue in 0..account.workers() {
            firsts.push(entries.len())?;
            for entry in account.queue(queue) {
                entries.push(entry)?;
            }
        }
        Ok(Accepted {
            account,
            entries,
            firsts,
        })
    }

    /// Returns the account.
    pub fn account(&self) -> &'a Account {
        self.account
    }

    /// Returns all entries.
    pub fn entries(&self) -> &[&'a Entry]
        ensures entries { pointed result.now ≡ self.now }
        ensures len { length result.now ≡ length self.now }
    {
        self.entries.as_slice()
    }

    /// Returns the index at which a subqueue's entries begin that is nearest to this index.
    pub fn nearest_first(&self, index: usize) -> usize {
        let mut nearest: usize = 0;
        for first in &self.firsts {
            if first.abs_diff(index) < nearest.abs_diff(index) {
                nearest = *first;
            }
        }
        nearest
    }

    /// Returns the entry with this index among those of all queues.
    pub fn entry(&self, index: usize) -> &Entry
        requires { index < length self.now }
        ensures { slice_get self.now index ≡ Some result.now }
    {
        self.entries[index]
    }

    /// Returns the index of the entry with the URL among all entries, or `None` if the URL was not accepted.
    pub fn find(&self, url: &CanonUrl) -> Option<usize>
        ensures found { Finds self.now url.now result }
        ensures accepted { is_some result ≡ is_accepted self.now url.now }
        ensures within { IfSome result (λ index. index < length self.now) }
    {
        let account = self.account;
        // The same as `CanonUrl::subqueue`, which requires from 1 to 512 workers: the type of an account does not state that.
        let workers = account.workers();
        if workers == 0 {
            return None;
        }
        let queue = hash(url.host_key()) % workers;
        let index = account.index_of(queue, url)?;
        Some(self.firsts[queue as usize] + index)
    }

    /// As [`Accepted::find`], but tries the entry at the guess first, which may be any index.
    pub fn find_by(&self, guess: usize, url: &CanonUrl) -> Option<usize>
        ensures found { Finds self.now url.now result }
        ensures accepted { is_some result ≡ is_accepted self.now url.now }
        ensures within { IfSome result (λ index. index < length self.now) }
    {
        // For the proof: by the account no other entry has the URL.
        let _ = &self.account;
        if self.is_at(guess, url) {
            return Some(guess);
        }
        self.find(url)
    }

    /// Returns the entry at the index, if it has the URL.
    #[tactic(auto, using(crate::proofs::Walks::has_url_there, std::proofs::lemmas::Option::slice_get_within, crawl_frontier::proofs::Gets::same_at))]
    pub fn with_url(&self, index: usize, url: &CanonUrl) -> Option<&Entry>
        ensures { IfSome result (λ entry. (slice_get self.now index ≡ Some entry.now) × (entry.now.url ≡ url.now)) }
    {
        if self.is_at(index, url) {
            Some(self.entry(index))
        } else {
            None
        }
    }

    /// Whether the entry at the index has the URL.
    fn is_at(&self, index: usize, url: &CanonUrl) -> bool
        ensures { result ≡ has_url_at self.now index url.now }
    {
        match self.entries.get(index) {
            Some(entry) => entry.url == *url,
            None => false,
        }
    }
}

/// A set of URLs.
pub type Urls<'a> = BTreeSet<HashedText<'a>>;

/// Makes a set of the URLs.
pub fn url_set(alloc: Global, urls: &[CanonUrl]) -> Result<Urls<'_>, AllocError>
    ensures { IfOk result (λ set. (url : List ℕ) → is_in set url ≡ contains_url urls.now url) }
{
    let mut set = BTreeSet::new(alloc);
    for url in urls {
        set.insert(url.hashed())?;
    }
    Ok(set)
}
