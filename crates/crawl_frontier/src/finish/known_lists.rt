//! Extends what each sender knows of the lists to what the lists are at the end. So each line of a log is true of the final
//! list, and no line has to be read.
ghost use Rattle.std.specs.Prelude.{◌≡◌, ◌<◌, ◌+◌, Some, length, map, slice_get, vec_len};
ghost use Rattle.crawl_queues.specs.Growing.{Stays};
ghost use Rattle.crawl_queues.specs.Logs.{ListsAre};
ghost use Rattle.crawl_queues.specs.Books.{Knows, book_of};
ghost use Rattle.crawl_frontier.specs.Finishing.{AllAre, AreRaised, AreTrueOf, LogIsOf, LogsAreOf};

use crate::shard::Shard;
use crawl_queues::{Beginning, Book, Name, Subqueue};

// Extends what is known of the queue's list to what the shard has, if the shard is the queue's.
fn extend_one<K: Name>(
    subqueue: &Subqueue,
    shard: &mut Shard<K>,
    queue: usize,
    learned: &mut Beginning,
)
    requires subqueue { slice_get K.queues queue ≡ Some subqueue.now }
    requires learned { learned.old.list ≡ subqueue.now.list }
    ensures same { shard.new ≡ shard.old }
    ensures list { learned.new.list ≡ learned.old.list }
    ensures stays { Stays learned.old.items learned.new.items }
    ensures learned { shard.old.queue ≡ queue → Stays learned.new.items shard.old.sent }
{
    if shard.queue() as usize == queue {
        shard.extend_known(subqueue, learned);
    }
}

// Extends what is known of each list to what its shard has, if the shard is in its own lock. The shards are passed last first.
fn extend_all<K: Name>(
    queues: &Vec<Subqueue>,
    shards: &mut Vec<Shard<K>>,
    learned: &mut Vec<Beginning>,
)
    requires queues { (queues.now.items ≡ K.queues) × (vec_len queues.now ≡ K.workers) }
    requires shards { vec_len shards.old ≡ K.workers }
    requires len { length learned.old.items ≡ K.workers }
    requires lists { ListsAre K.queues learned.old.items }
    ensures same { shards.new.items ≡ shards.old.items }
    ensures raised { AreRaised learned.old.items learned.new.items }
    ensures learned { AreTrueOf shards.old.items learned.new.items }
{
    let count = queues.len();
    for queue in 0..count {
        let place = count - 1 - queue;
        extend_one(
            &queues[queue],
            &mut shards[place],
            queue,
            &mut learned[queue],
        );
    }
}

// Likewise for the books of a sender. The meaning of its lines stays the same.
fn extend_book<K: Name>(queues: &Vec<Subqueue>, shards: &mut Vec<Shard<K>>, book: &mut Book)
    requires queues { (queues.now.items ≡ K.queues) × (vec_len queues.now ≡ K.workers) }
    requires shards { vec_len shards.old ≡ K.workers }
    requires known { Knows K.queues K.workers book.old }
    ensures same { shards.new.items ≡ shards.old.items }
    ensures book { book_of book.new ≡ book_of book.old }
    ensures log { LogIsOf shards.old.items (book_of book.old).log }
{
    extend_all(queues, shards, &mut book.learned);
}

/// Makes each line of each log true of its queue's shard, if the shard is in its own lock. The shards are passed last first.
pub fn extend_books<K: Name>(
    queues: &Vec<Subqueue>,
    shards: &mut Vec<Shard<K>>,
    books: &mut Vec<Book>,
)
    requires queues { (queues.now.items ≡ K.queues) × (vec_len queues.now ≡ K.workers) }
    requires shards { vec_len shards.old ≡ K.workers }
    requires known { AllAre (Knows K.queues K.workers) books.old.items }
    ensures same { shards.new.items ≡ shards.old.items }
    ensures books { map book_of books.new.items ≡ map book_of books.old.items }
    ensures logs { LogsAreOf shards.old.items (map book_of books.old.items) }
{
    for index in 0..books.len() {
        extend_book(queues, shards, &mut books[index]);
    }
}
