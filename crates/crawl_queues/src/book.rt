//! The books of a sender: what it records of its own offers.
ghost use Rattle.std.specs.Prelude.{◌≡◌, ◌<◌, ◌^◌, ℕ, List, IfOk, OnOk, Some, slice_get, length, vec_len};
ghost use Rattle.crawl_queues.specs.declared.entry.Entry.{Entry};
ghost use Rattle.crawl_queues.specs.QueueId.{QueueId};
ghost use Rattle.crawl_queues.specs.Logs.{Has, ListsAre, lists_of};
ghost use Rattle.crawl_queues.specs.Books.{IsBook, HasRoom, Knows, book_of, book_accepting, book_seeing, fresh_book};

use crate::entry::Entry;
use crate::growing::Beginning;
use crate::log::LogLine;
use crate::name::Name;
use crate::subqueue::Subqueue;
use crawl_keys::CanonUrl;
use std::alloc::{AllocError, Global};

/// The meaning of a log line: an entry that was accepted, or a URL that was seen, with its queue. It is only for clauses: no
/// value of it is made.
#[derive(Drop)]
pub enum Logged {
    Accepted(Entry, u32),
    Seen(CanonUrl, u32),
}

/// The sender's id, the number of its URLs that each queue accepted, its log, oldest line first, and a beginning of each queue's
/// list.
/// It is a plain struct, so that a contract can say that the log has room. The beginnings have no bytes.
#[derive(Drop)]
pub struct Book {
    pub id: u64,
    pub counts: Vec<u64>,
    pub lines: Vec<LogLine>,
    pub learned: Vec<Beginning>,
}

// Copies the beginning of each list.
fn all_again(
    alloc: Global,
    queues: &Vec<Subqueue>,
    learned: &mut Vec<Beginning>,
) -> Result<Vec<Beginning>, AllocError>
    requires len { length learned.old.items ≡ vec_len queues.now }
    requires lists { ListsAre queues.now.items learned.old.items }
    ensures same { learned.new.items ≡ learned.old.items }
    ensures again { IfOk result (λ all. all.items ≡ learned.old.items) }
{
    let mut all = Vec::with_capacity(alloc, queues.len())?;
    for queue in 0..queues.len() {
        let known = queues[queue].again(&mut learned[queue]);
        all.push_reserved(known);
    }
    Ok(all)
}

impl Book {
    /// Makes the books of a sender that has sent nothing, and knows these beginnings of the lists.
    pub fn new<K: Name>(alloc: Global, id: u64, learned: Vec<Beginning>) -> Result<Book, AllocError>
        requires len { vec_len learned ≡ K.workers }
        requires lists { ListsAre K.queues learned.items }
        ensures book { IfOk result (λ b. IsBook K.workers (book_of b) × (book_of b ≡ fresh_book id K.workers)) }
        ensures known { IfOk result (λ b. Knows K.queues K.workers b) }
    {
        let counts = Vec::from_elem(alloc, 0, learned.len())?;
        Ok(Book {
            id,
            counts,
            lines: Vec::new(alloc),
            learned,
        })
    }

    /// Makes the books of another sender that has sent nothing, and knows the same beginnings of the lists.
    pub fn another<K: Name>(
        &mut self,
        alloc: Global,
        id: u64,
        queues: &Vec<Subqueue>,
    ) -> Result<Book, AllocError>
        requires queues { (queues.now.items ≡ K.queues) × (vec_len queues.now ≡ K.workers) }
        requires known { Knows K.queues K.workers self.old }
        ensures same { book_of self.new ≡ book_of self.old }
        ensures known { Knows K.queues K.workers self.new }
        ensures book { IfOk result (λ b. IsBook K.workers (book_of b) × (book_of b ≡ fresh_book id K.workers)) }
        ensures knows { IfOk result (λ b. Knows K.queues K.workers b) }
    {
        let Ok(learned) = all_again(alloc, queues, &mut self.learned) else {
            return Err(AllocError);
        };
        Book::new::<K>(alloc, id, learned)
    }

    /// Makes room for one more line.
    pub fn ready<K: Name>(&mut self) -> Result<(), AllocError>
        requires { Knows K.queues K.workers self.old }
        ensures same { book_of self.new ≡ book_of self.old }
        ensures known { Knows K.queues K.workers self.new }
        ensures room { OnOk result (HasRoom self.new) }
    {
        self.lines.reserve(1)
    }

    /// Records a URL that `queue` accepted after `number` URLs of this sender, and that is at this index of its list. Nothing is
    /// allocated.
    pub fn accept(&mut self, queue: u32, index: u32, number: u64)
        requires within { queue < vec_len self.old.counts }
        requires narrow { queue < 2 ^ 16 }
        requires small { number < 2 ^ 63 }
        requires room { HasRoom self.old }
        ensures log { (e : Entry) → Has (lists_of self.old.learned.items) queue index e → book_of self.new ≡ book_accepting (book_of self.old) queue number e }
        ensures known { (queues : List QueueId) (workers : ℕ) (e : Entry) → Has (lists_of self.old.learned.items) queue index e → Knows queues workers self.old → Knows queues workers self.new }
    {
        self.counts[queue as usize] = number + 1;
        self.lines.push_reserved(LogLine {
            index,
            queue: queue as u16,
            accepted: true,
        });
    }

    /// Records a URL that was found at this index of the list of `queue`. Nothing is allocated.
    pub fn see(&mut self, queue: u32, index: u32)
        requires narrow { queue < 2 ^ 16 }
        requires room { HasRoom self.old }
        ensures log { (e : Entry) → Has (lists_of self.old.learned.items) queue index e → book_of self.new ≡ book_seeing (book_of self.old) e.url queue }
        ensures known { (queues : List QueueId) (workers : ℕ) (e : Entry) → Has (lists_of self.old.learned.items) queue index e → Knows queues workers self.old → Knows queues workers self.new }
    {
        self.lines.push_reserved(LogLine {
            index,
            queue: queue as u16,
            accepted: false,
        });
    }
}
