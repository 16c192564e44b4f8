//! Test vectors: what workers lose, and what they find, in order.
use crate::tests::results::have_urls;
use crate::tests::runs::{How, Left, Run};
use crate::tests::sources::{Counting, Fails};
use crate::tests::webs::TWO_LINKS;
use std::alloc::Global;
use std::sync::Wait;
use std::thread::Threads;

const A: &str = "http://a.test/";

const B: &str = "http://b.test/";

const PATH_1: &str = "http://a.test/1";

const PATH_2: &str = "http://a.test/2";

const NO_PAGES: &str = "savedweb 1";

const SAME_LINK: &str = "savedweb 1\npage http://a.test/\nlink 1\nlink 1\n";

const THREE_LINKS: &str = "savedweb 1\npage http://a.test/\nlink 1\nlink 2\nlink 3\n";

const OTHER_HOST: &str = "savedweb 1\npage http://a.test/\nlink http://b.test/\nlink 1\n";

// Runs of a saved web, by each of some calls, what they lose, and the URLs of their results by the places of the workers.
struct Row {
    name: &'static str,
    web: &'static str,
    fails: Fails,
    workers: u32,
    max_pending: u64,
    within: &'static [&'static str],
    hows: &'static [How],
    lost: u64,
    urls: &'static [&'static str],
}

const ONE_WORKER: &[How] = &[How::Turns, How::Each, How::Threads];

// One worker begins at a.test. Of two, who begin at both hosts, the first has b.test, and the second a.test.
static ROWS: [Row; 8] = [
    Row {
        name: "full_gate_loses_link, with room for two",
        web: TWO_LINKS,
        fails: Fails::None,
        workers: 1,
        max_pending: 2,
        within: &[],
        hows: ONE_WORKER,
        lost: 1,
        urls: &[A, PATH_1],
    },
    Row {
        name: "full_gate_loses_link, with room for three",
        web: TWO_LINKS,
        fails: Fails::None,
        workers: 1,
        max_pending: 3,
        within: &[],
        hows: ONE_WORKER,
        lost: 0,
        urls: &[A, PATH_1, PATH_2],
    },
    // It continues after a link that was refused, and counts each.
    Row {
        name: "two_links_lost",
        web: THREE_LINKS,
        fails: Fails::None,
        workers: 1,
        max_pending: 2,
        within: &[],
        hows: ONE_WORKER,
        lost: 2,
        urls: &[A, PATH_1],
    },
    // A link that was offered before on the same page is remembered: it is not offered at the full gate, which would lose it.
    Row {
        name: "a_link_twice_is_not_lost",
        web: SAME_LINK,
        fails: Fails::None,
        workers: 1,
        max_pending: 2,
        within: &[],
        hows: ONE_WORKER,
        lost: 0,
        urls: &[A, PATH_1],
    },
    Row {
        name: "filtered_links_are_not_lost",
        web: OTHER_HOST,
        fails: Fails::None,
        workers: 1,
        max_pending: 9,
        within: &["a.test"],
        hows: ONE_WORKER,
        lost: 0,
        urls: &[A, PATH_1],
    },
    // A worker that lost every URL would meet all clauses: it is the other rows that it fails.
    Row {
        name: "failing_fetcher",
        web: NO_PAGES,
        fails: Fails::All,
        workers: 1,
        max_pending: 9,
        within: &[],
        hows: ONE_WORKER,
        lost: 1,
        urls: &[],
    },
    // The fetch that waits for another one ends well only if two workers fetch at the same time, here by `run_threads` and by
    // `run_worker` in two threads. Workers that run in turn on one thread meet every clause of `run_threads` too.
    Row {
        name: "workers_run_together, two_workers_wait_for_each_other",
        web: NO_PAGES,
        fails: Fails::Lonely,
        workers: 2,
        max_pending: 9,
        within: &[],
        hows: &[How::Threads, How::Each],
        lost: 0,
        urls: &[B, A],
    },
    Row {
        name: "workers_run_together, in turn",
        web: NO_PAGES,
        fails: Fails::Lonely,
        workers: 2,
        max_pending: 9,
        within: &[],
        hows: &[How::Turns],
        lost: 1,
        urls: &[A],
    },
];

impl Row {
    fn left<R: Threads + Wait + Sync>(&self, rt: &R, alloc: Global, how: How) -> Option<Left> {
        let source = Counting::new(alloc, self.web, self.fails)?;
        let run = Run {
            workers: self.workers,
            max_pending: self.max_pending,
            within: self.within,
            seeds: if self.workers == 1 { &[A] } else { &[A, B] },
            how,
        };
        run.left(rt, alloc, &source)
    }

    fn holds<R: Threads + Wait + Sync>(&self, rt: &R, alloc: Global) -> bool {
        for how in self.hows {
            if !is_left(&self.left(rt, alloc, *how), self.lost, self.urls) {
                return false;
            }
        }
        true
    }
}

// Whether the run lost this number of URLs, and its results have these URLs, in order.
fn is_left(left: &Option<Left>, lost: u64, urls: &[&str]) -> bool {
    match left {
        Some(left) => left.lost == lost && have_urls(&left.results, urls),
        None => false,
    }
}

#[test]
fn rows_of_workers(rt: HostRuntime) {
    for row in ROWS.iter() {
        assert!(rt; row.holds(&rt, rt.alloc()), "{}", row.name);
    }
}
