//! The books of all senders, compared with the lists of all queues.
ghost use Rattle.std.specs.Prelude.{◌≡◌, ◌<◌, ◌≤◌, ℕ, List, true, false, IfOk, length, map};
ghost use Rattle.std.specs.BTreeSet as sets;
ghost use Rattle.crawl_queues.specs.declared.entry.Entry.{Entry};
ghost use Rattle.crawl_queues.specs.Books.{IsBook, book_of};
ghost use Rattle.crawl_frontier.specs.Accounts.{At};
ghost use Rattle.crawl_frontier.specs.Finishing.{LogsHold, CountsHold, CountFails, AgreeTo, KeepRuleBelow, AllAre, IdsOf, SendersIn, HasOtherSender};

use crate::accepted::AcceptedList;
use crawl_queues::{Book, Entry};
use std::alloc::{AllocError, Global};
use std::collections::BTreeSet;

// The ids of all workers and senders.
#[tactic(auto, using(crate::proofs::Settling::ids_more, crate::proofs::Settling::at_book))]
fn ids_of(alloc: Global, books: &[Book]) -> Result<BTreeSet<u64>, AllocError>
    ensures { IfOk result (λ ids. IdsOf (map book_of books.now) ids) }
{
    let mut ids = BTreeSet::new(alloc);
    for book in books {
        ids.insert(book.id)?;
    }
    Ok(ids)
}

// Whether each entry's sender is in the set.
fn senders_in(entries: &[Entry], ids: &BTreeSet<u64>) -> bool
    ensures all { result ≡ true → SendersIn ids.now entries.now }
    ensures unknown_sender { result ≡ false → HasOtherSender ids.now entries.now }
{
    for entry in entries {
        if !ids.contains(&entry.sender) {
            return false;
        }
    }
    true
}

// Whether each entry of each list has its sender in the set.
fn all_senders_in(lists: &[AcceptedList], ids: &BTreeSet<u64>) -> bool
    ensures all { result ≡ true → AllAre (SendersIn ids.now) lists.now }
    ensures unknown_sender { result ≡ false → (q : ℕ) × (es : List Entry) × At lists.now q es × HasOtherSender ids.now es }
{
    for list in lists {
        if !senders_in(list.entries(), ids) {
            return false;
        }
    }
    true
}

/// Whether each entry of each list has a sender among those with these books.
pub fn all_have_parts(
    alloc: Global,
    lists: &[AcceptedList],
    books: &[Book],
) -> Result<bool, AllocError>
    ensures { IfOk result (λ all. (ids : sets.BTreeSet ℕ) × IdsOf (map book_of books.now) ids
        × (all ≡ true → AllAre (SendersIn ids) lists.now)
        × (all ≡ false → (q : ℕ) × (es : List Entry) × At lists.now q es × HasOtherSender ids es)) }
{
    let ids = ids_of(alloc, books)?;
    Ok(all_senders_in(lists, &ids))
}

// The first queue for which a count differs from the list, or `least` if that is less.
fn counts_hold(lists: &[AcceptedList], book: &Book, least: u32) -> u32
    requires lists { least ≤ length lists.now }
    requires counts { least ≤ length book.now.counts.items }
    ensures below { result ≤ least }
    ensures holds { CountsHold result lists.now (book_of book.now) }
    ensures fails { result < least → CountFails result lists.now (book_of book.now) }
{
    for queue in 0..least {
        if book.counts[queue as usize] != lists[queue as usize].count(book.id) {
            return queue;
        }
    }
    least
}

/// The first queue for which some sender's books disagree with the list, or `least` if that is less. Each line of a log is true
/// already, so it is enough to compare the counts, and no line is read.
pub fn books_agree(lists: &[AcceptedList], mut books: Vec<Book>, mut least: u32) -> u32
    requires least { least ≤ length lists.now }
    requires books { AllAre (IsBook (length lists.now)) (map book_of books.items) }
    requires logs { LogsHold least lists.now (map book_of books.items) }
    requires rule { KeepRuleBelow (length lists.now) least lists.now }
    ensures { AgreeTo result least lists.now (map book_of books.items) }
{
    while let Some(book) = books.pop() {
        least = counts_hold(lists, &book, least);
    }
    least
}
