//! The rights and the books of a run's senders.
ghost use Rattle.std.specs.Prelude.{◌≡◌, ◌<◌, ◌≤◌, ℕ, List, [], true, None, Some, IfOk, is_some, map, if◌then◌else◌};
ghost use Rattle.std.specs.BTreeMap.{get, is_at};
ghost use Rattle.std.specs.Ordering.{nat_cmp};
ghost use Rattle.crawl_queues.specs.Books.{Knows, book_of};
ghost use Rattle.crawl_frontier.specs.Parts.{WorkerId};
ghost use Rattle.crawl_frontier.specs.Finishing.{AllAre, Gathered, Slots, Placed, IsShared};

use super::settle::least_of;
use crate::closed_worker::ClosedWorker;
use crate::sender::Sender;
use crawl_queues::{Book, Name, PopRight};
use std::alloc::{AllocError, Global};
use std::collections::BTreeMap;

// Stores a right to pop at its queue. Returns the first queue that two workers have; without this right it was `unshared`.
fn place(
    rights: &mut BTreeMap<u32, PopRight>,
    queue: u32,
    right: PopRight,
    unshared: u32,
) -> Result<u32, AllocError>
    ensures updates { IfOk result (λ _. (q : ℕ) → get nat_cmp rights.new q ≡ (if is_at (nat_cmp queue) q then Some right else get nat_cmp rights.old q)) }
    ensures below { IfOk result (λ least. least ≤ unshared) }
    ensures good { IfOk result (λ least. queue < least → get nat_cmp rights.old queue ≡ None) }
    ensures named { IfOk result (λ least. least < unshared → (least ≡ queue) × (is_some (get nat_cmp rights.old queue) ≡ true)) }
{
    let old = rights.insert(queue, right)?;
    Ok(least_of(old.is_none(), queue, unshared))
}

// Adds the books of the senders to those of the workers.
fn add_senders<K: Name>(
    books: &mut Vec<Book>,
    mut senders: Vec<Sender<K>>,
) -> Result<(), AllocError>
    requires { AllAre (Knows K.queues K.workers) books.old.items }
    ensures gathered { IfOk result (λ _. (closed : List WorkerId)
        → Gathered K.workers closed senders.items [] senders.items (map book_of books.old.items)
        → Gathered K.workers closed senders.items [] [] (map book_of books.new.items)) }
    ensures known { IfOk result (λ _. AllAre (Knows K.queues K.workers) books.new.items) }
{
    while let Some(sender) = senders.pop() {
        books.push(sender.into_book())?;
    }
    Ok(())
}

// The rights to pop by queue, the books of all senders, and the first queue that two workers have, or `workers`.
pub fn gather<K: Name>(
    alloc: Global,
    mut closed: Vec<ClosedWorker<K>>,
    senders: Vec<Sender<K>>,
    workers: u32,
) -> Result<(BTreeMap<u32, PopRight>, Vec<Book>, u32), AllocError>
    ensures { IfOk result (λ r.
        Slots K.gate K.workers K.queues closed.items r.0
        × Placed K.gate K.workers closed.items 0 r.0 r.2
        × Gathered K.workers closed.items senders.items [] [] (map book_of r.1.items)
        × (r.2 ≤ workers) × (r.2 < workers → IsShared closed.items r.2)
        × AllAre (Knows K.queues K.workers) r.1.items) }
{
    let mut rights = BTreeMap::new(alloc);
    let mut books = Vec::new(alloc);
    let mut unshared = workers;
    while let Some(worker) = closed.pop() {
        let queue = worker.queue();
        let (right, book) = worker.into_parts();
        unshared = place(&mut rights, queue, right, unshared)?;
        books.push(book)?;
    }
    add_senders(&mut books, senders)?;
    Ok((rights, books, unshared))
}
