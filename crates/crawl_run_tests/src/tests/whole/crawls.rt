//! Crawls of saved webs, with workers in turn and in threads, and with settings that no command line can give.
use crate::tests::results::{is_report, urls_of};
use crate::tests::webs::{NOTHING, RING, RING_REPORT, TWO_LINKS, TWO_LINKS_REPORT};
use crawl_certificate::CertError;
use crawl_frontier::FrontierError;
use crawl_keys::Filter;
use crawl_pages::SessionFetch;
use crawl_run::{CrawlError, Crawled, Mode, crawl};
use saved_web::SavedWeb;
use std::alloc::Global;
use std::sync::Wait;
use std::thread::Threads;

pub const A: &str = "http://a.test/";

pub const B: &str = "http://b.test/";

/// A crawl that allows every host.
#[derive(Clone, Copy)]
pub struct Plan {
    pub seeds: &'static [&'static str],
    pub workers: u32,
    pub max_pending: u64,
    pub mode: Mode,
}

impl Plan {
    /// The result of the crawl.
    pub fn result<F: SessionFetch + Sync, R: Threads + Wait + Sync>(
        self,
        rt: &R,
        alloc: Global,
        source: &F,
    ) -> Option<Result<Crawled, CrawlError>> {
        let every = Filter::new(alloc, &[]).ok()?;
        let seeds = urls_of(alloc, self.seeds);
        Some(crawl(
            rt,
            alloc,
            source,
            &every,
            &seeds,
            self.workers,
            self.max_pending,
            self.mode,
        ))
    }
}

/// A crawl of a saved web from these seeds.
struct Row {
    /// The name of the row.
    name: &'static str,
    web: &'static str,
    seeds: &'static [&'static str],
    workers: u32,
    max_pending: u64,
    expected: Expected,
}

/// The expected result.
enum Expected {
    /// The report, and the queues that have URLs, with how many.
    Report(&'static str, &'static [(usize, u64)]),
    Fails(CrawlError),
}

const ROWS: &[Row] = &[
    Row {
        name: "small_web",
        web: RING,
        seeds: &[A],
        workers: 1,
        max_pending: 1_000_000,
        expected: Expected::Report(RING_REPORT, &[(0, 4)]),
    },
    Row {
        name: "small_web",
        web: RING,
        seeds: &[A],
        workers: 2,
        max_pending: 1_000_000,
        expected: Expected::Report(RING_REPORT, &[(0, 1), (1, 3)]),
    },
    Row {
        name: "small_web",
        web: RING,
        seeds: &[A],
        workers: 3,
        max_pending: 1_000_000,
        expected: Expected::Report(RING_REPORT, &[(0, 1), (1, 1), (2, 2)]),
    },
    Row {
        name: "crawl_with_512_workers",
        web: RING,
        seeds: &[A],
        workers: 512,
        max_pending: 1_000_000,
        expected: Expected::Report(RING_REPORT, &[(158, 1), (317, 2), (511, 1)]),
    },
    Row {
        name: "no_seeds",
        web: RING,
        seeds: &[],
        workers: 2,
        max_pending: 1,
        expected: Expected::Report(NOTHING, &[]),
    },
    Row {
        name: "full_gate_loses_link",
        web: TWO_LINKS,
        seeds: &[A],
        workers: 1,
        max_pending: 2,
        expected: Expected::Fails(CrawlError::Cert(CertError::LinkMissing)),
    },
    Row {
        name: "full_gate_loses_link",
        web: TWO_LINKS,
        seeds: &[A],
        workers: 1,
        max_pending: 3,
        expected: Expected::Report(TWO_LINKS_REPORT, &[(0, 3)]),
    },
    Row {
        name: "numbers_past_their_limits",
        web: RING,
        seeds: &[A],
        workers: 0,
        max_pending: 1,
        expected: Expected::Fails(CrawlError::Frontier(FrontierError::BadWorkers)),
    },
    Row {
        name: "numbers_past_their_limits",
        web: RING,
        seeds: &[A],
        workers: 513,
        max_pending: 0,
        expected: Expected::Fails(CrawlError::Frontier(FrontierError::BadWorkers)),
    },
    Row {
        name: "numbers_past_their_limits",
        web: RING,
        seeds: &[A],
        workers: 1,
        max_pending: 0,
        expected: Expected::Fails(CrawlError::Frontier(FrontierError::BadLimit)),
    },
    Row {
        name: "numbers_past_their_limits",
        web: RING,
        seeds: &[A],
        workers: 512,
        max_pending: (1 << 40) + 1,
        expected: Expected::Fails(CrawlError::Frontier(FrontierError::BadLimit)),
    },
];

/// Whether these are the counts of all queues. Those that are not in the row are 0.
fn are_counts(found: &[u64], counts: &[(usize, u64)]) -> bool {
    for (queue, count) in found.iter().enumerate() {
        let mut expected = 0;
        for (at, own) in counts {
            if *at == queue {
                expected = *own;
            }
        }
        if *count != expected {
            return false;
        }
    }
    true
}

/// The result of the row's crawl.
fn result_of<R: Threads + Wait + Sync>(
    rt: &R,
    alloc: Global,
    row: &Row,
    mode: Mode,
) -> Option<Result<Crawled, CrawlError>> {
    let web = SavedWeb::read(alloc, row.web.as_bytes()).ok()?;
    let plan = Plan {
        seeds: row.seeds,
        workers: row.workers,
        max_pending: row.max_pending,
        mode,
    };
    plan.result(rt, alloc, &web)
}

/// Whether the result is the expected one.
fn holds<R: Threads + Wait + Sync>(rt: &R, alloc: Global, row: &Row, mode: Mode) -> bool {
    match (result_of(rt, alloc, row, mode), &row.expected) {
        (Some(Ok(found)), Expected::Report(report, counts)) => {
            is_report(alloc, found.result.pages(), report)
                && found.counts.len() == row.workers as usize
                && are_counts(&found.counts, counts)
        }
        (Some(Err(error)), Expected::Fails(expected)) => error == *expected,
        _ => false,
    }
}

/// The first row with another result.
fn first_wrong<R: Threads + Wait + Sync>(
    rt: &R,
    alloc: Global,
    rows: &'static [Row],
    mode: Mode,
) -> Option<&'static str> {
    for row in rows {
        if !holds(rt, alloc, row, mode) {
            return Some(row.name);
        }
    }
    None
}

// A mutant that always fails (`always_refuses`), as if out of memory, would satisfy every contract. It would fail in the rows
// `small_web` and `no_seeds`.
#[test]
fn saved_webs_in_turn_and_in_threads(rt: HostRuntime) {
    assert_eq!(rt; first_wrong(&rt, rt.alloc(), ROWS, Mode::Turns), None);
    assert_eq!(rt; first_wrong(&rt, rt.alloc(), ROWS, Mode::Threads), None);
}
