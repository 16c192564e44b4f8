//! A crawler: a thread for each worker, which fetches the pages of its hosts.
ghost use Rattle.std.specs.Prelude.{◌≡◌};

use crawl_frontier::{Account, BusyWorker, ClosedWorker, Frontier, Name, Setup, Turn, Worker};
use crawl_keys::{CanonUrl, Filter, canonical, resolve};
use std::alloc::Global;
use std::marker::Brand;
use std::sync::Wait;
use std::thread;
use std::thread::Threads;

// The texts of the links of a page. A page of a host that isn't known has none.
fn links_of(url: &CanonUrl) -> &'static [&'static str] {
    match url.host_key() {
        "a.test" => &["/x", "//b.test/", "//c.test/"],
        "b.test" => &["//a.test/", "//a.test/y"],
        "c.test" => &["//b.test/z#top"],
        _ => &[],
    }
}

// Offers the links of the page in progress. A link that is refused is lost: a crawler would count it.
fn offer_links<K: Name, R: Wait>(
    rt: &R,
    alloc: Global,
    frontier: &Frontier<K>,
    busy: &mut BusyWorker<K>,
) {
    for text in links_of(busy.url()) {
        if let Ok(link) = resolve(alloc, busy.url(), text) {
            let _ = busy.offer(rt, frontier, &link);
        }
    }
}

// Fetches the pages of its hosts, and offers their links, until nothing is left anywhere.
fn crawl<K: Name, R: Wait>(
    rt: &R,
    alloc: Global,
    frontier: &Frontier<K>,
    mut worker: Worker<K>,
) -> ClosedWorker<K> {
    for _ in rt.forever() {
        match worker.next(rt, frontier) {
            Turn::Busy(mut busy) => {
                offer_links(rt, alloc, frontier, &mut busy);
                worker = busy.done(frontier);
            }
            Turn::Idle(idle, _) => {
                idle.rest(rt, frontier);
                worker = idle;
            }
            Turn::Closed(closed) => return closed,
        }
    }
    unreachable!()
}

// Crawls from a seed, with a thread for each worker. A sender that is lost because an allocation failed is missing at the end.
fn crawl_from<K: Name + Send + Sync, R: Threads + Wait + Sync>(
    rt: &R,
    alloc: Global,
    setup: Setup,
    filter: &Filter,
    seed: &CanonUrl,
) -> Option<Account>
    requires gate { setup.gate ≡ K.gate }
    requires workers { setup.workers ≡ K.workers }
    requires queues { setup.queues ≡ K.queues }
    requires filter { filter.now ≡ K.filter }
{
    let (frontier, workers, mut seeder) = Frontier::<K>::new(alloc, setup, filter).ok()?;
    let _ = seeder.offer(rt, &frontier, seed);
    let mut senders = Vec::new(alloc);
    let _ = senders.push(seeder.end(&frontier));
    let shared = &frontier;
    let closed = thread::map_vec(rt, workers, &|worker| crawl(rt, alloc, shared, worker)).ok()?;
    frontier.finish(closed, senders).ok()
}

/// How many URLs each of the two queues accepted: b.test is of queue 0; a.test and c.test are of queue 1.
pub fn accepted<R: Threads + Wait + Sync>(rt: &R, alloc: Global) -> Option<(usize, usize)> {
    let seed = canonical(alloc, "http://a.test").ok()?;
    let filter = Filter::new(alloc, &[]).ok()?;
    let setup = Setup::new(alloc, 2, 100).ok()?;
    let account = crawl_from::<Brand, R>(rt, alloc, setup, &filter, &seed)?;
    if account.workers() == 2 {
        Some((account.queue(0).len(), account.queue(1).len()))
    } else {
        None
    }
}
