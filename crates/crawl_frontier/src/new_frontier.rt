//! A new frontier, with its workers and its seeder.
ghost use Rattle.std.specs.Prelude.{◌≡◌, ◌^◌, ◌<◌, IfOk, MatchResult, vec_len, length};
ghost use Rattle.crawl_gate.specs.Seat.{IsSeatOf};
ghost use Rattle.crawl_queues.specs.Books.{Knows, book_of, fresh_book};
ghost use Rattle.crawl_frontier.specs.FreshParts.{AllPush, AllPop, AllFresh};

use crate::error::FrontierError;
use crate::frontier::Frontier;
use crate::seeder::Seeder;
use crate::setup::Setup;
use crate::shard::Shard;
use crate::worker::Worker;
use crawl_gate::{Gate, Unit};
use crawl_keys::Filter;
use crawl_queues::{Book, Name, PopRight, PushRight, Subqueue};
use std::alloc::{AllocError, Global};
use std::collections::VecDeque;
use std::sync::Mutex;

impl<K: Name> Frontier<K> {
    /// The frontier of a setup, the worker of each queue in order, and the seeder.
    ///
    /// The filter is copied. The only error is `NoMemory`. The caller must be a function over `K` whose `K` has the gate,
    /// the workers, the queues and the filter that are passed here: see [`Name`].
    pub fn new(
        alloc: Global,
        setup: Setup,
        filter: &Filter,
    ) -> Result<(Frontier<K>, Vec<Worker<K>>, Seeder<K>), FrontierError>
        requires gate { setup.gate ≡ K.gate }
        requires workers { setup.workers ≡ K.workers }
        requires queues { setup.queues ≡ K.queues }
        requires filter { filter.now ≡ K.filter }
        ensures { MatchResult result
            (λ r. (vec_len r.1 ≡ K.workers) × AllFresh K.gate K.workers 0 r.1.items × (r.2.book ≡ fresh_book K.workers K.workers))
            (λ e. e ≡ FrontierError.NoMemory) }
    {
        let Ok(filter) = filter.copy() else {
            return Err(FrontierError::NoMemory);
        };
        let Setup {
            gate,
            mut opening,
            workers: count,
            queues,
            push_rights,
            pop_rights,
            learned,
        } = setup;
        let shards = shards::<K>(alloc, push_rights)?;
        let mut book = Book::new::<K>(alloc, u64::from(count), learned)?;
        let made = workers::<K>(alloc, &gate, &queues, &mut book, &mut opening, pop_rights)?;
        let pass = gate.split_unit(&mut opening);
        let seeder = Seeder::new(opening, pass, book);
        let frontier = Frontier {
            gate,
            workers: count,
            queues,
            shards,
            filter,
        };
        Ok((frontier, made, seeder))
    }
}

// An empty shard with its lock for each queue, in order.
fn shards<K: Name>(
    alloc: Global,
    mut rights: VecDeque<PushRight>,
) -> Result<Vec<Mutex<Shard<K>>>, AllocError>
    requires push { AllPush K.gate K.workers K.queues 0 rights.items }
    requires small { length rights.items < 2 ^ 32 }
    ensures { IfOk result (λ v. vec_len v ≡ length rights.items) }
{
    let mut made = Vec::new(alloc);
    let mut queue = 0u32;
    while let Some(right) = rights.pop_front() {
        made.push(Mutex::new(Shard::new(alloc, queue, right)))?;
        queue += 1;
    }
    Ok(made)
}

// A worker for each queue, in order. Each has its own pass, and books that know the same beginnings of the lists as `book`.
fn workers<K: Name>(
    alloc: Global,
    gate: &Gate,
    queues: &Vec<Subqueue>,
    book: &mut Book,
    opening: &mut Unit,
    mut rights: VecDeque<PopRight>,
) -> Result<Vec<Worker<K>>, AllocError>
    requires gate { gate.now ≡ K.gate }
    requires queues { (queues.now.items ≡ K.queues) × (vec_len queues.now ≡ K.workers) }
    requires known { Knows K.queues K.workers book.old }
    requires unit { IsSeatOf K.gate opening.old }
    requires pop { AllPop K.gate K.workers K.queues 0 rights.items }
    requires all { length rights.items ≡ K.workers }
    requires small { length rights.items < 2 ^ 32 }
    ensures same { book_of book.new ≡ book_of book.old }
    ensures known { Knows K.queues K.workers book.new }
    ensures unit { opening.new ≡ opening.old }
    ensures workers { IfOk result (λ v. (vec_len v ≡ K.workers) × AllFresh K.gate K.workers 0 v.items) }
{
    let mut made = Vec::with_capacity(alloc, queues.len())?;
    let mut queue = 0u32;
    while let Some(right) = rights.pop_front() {
        let own = book.another::<K>(alloc, u64::from(queue), queues)?;
        let worker = Worker::new(queue, right, gate.split_unit(opening), own);
        made.push_reserved(worker);
        queue += 1;
    }
    Ok(made)
}
