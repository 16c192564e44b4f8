//! Work to measure with a frontier.
ghost use Rattle.std.specs.Prelude.{◌≡◌};

use crate::threads::{Tally, offer, take};
use crate::urls::urls_of;
use crawl_frontier::{Frontier, Name, Setup};
use crawl_keys::{CanonUrl, Filter};
use std::alloc::Global;
use std::marker::Brand;
use std::sync::Wait;
use std::thread::Threads;

// More than are ever pending.
const MAX_PENDING: u64 = 1 << 40;

/// Offers the URLs of the lines, by a thread for each worker, and takes them if the tally says so.
pub fn done<R: Threads + Wait + Sync>(
    rt: &R,
    alloc: Global,
    text: &str,
    threads: u32,
    tally: &Tally,
) -> Option<()> {
    let urls = urls_of(alloc, text)?;
    let filter = Filter::new(alloc, &[]).ok()?;
    let setup = Setup::new(alloc, threads, MAX_PENDING).ok()?;
    run::<Brand, R>(rt, alloc, setup, &filter, &urls, tally)
}

fn run<K: Name + Send + Sync, R: Threads + Wait + Sync>(
    rt: &R,
    alloc: Global,
    setup: Setup,
    filter: &Filter,
    urls: &[CanonUrl],
    tally: &Tally,
) -> Option<()>
    requires gate { setup.gate ≡ K.gate }
    requires workers { setup.workers ≡ K.workers }
    requires queues { setup.queues ≡ K.queues }
    requires filter { filter.now ≡ K.filter }
{
    let (frontier, workers, mut seeder) = Frontier::<K>::new(alloc, setup, filter).ok()?;
    offer(rt, alloc, &frontier, &mut seeder, urls, tally);
    drop(seeder.end(&frontier));
    if tally.takes && !take(rt, &frontier, workers, tally) {
        return None;
    }
    Some(())
}
