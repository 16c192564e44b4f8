//! Calls of `crawl` with sources that fail, wait, or are defined here.
use crate::tests::results::is_report;
use crate::tests::sources::{Counting, Fails, OneMoved};
use crate::tests::webs::{RING, RING_REPORT};
use crate::tests::whole::crawls::{A, B, Plan};
use crawl_certificate::CertError;
use crawl_keys::canonical;
use crawl_pages::Fetch;
use crawl_run::{CrawlError, Mode};
use std::alloc::Global;
use std::sync::Wait;
use std::thread::Threads;

/// The result of a crawl.
#[derive(Clone, Copy, PartialEq, Eq)]
enum Outcome {
    /// The expected report and counts.
    Expected,
    /// Another report or other counts.
    Other,
    /// A page is missing.
    Lacks,
    /// Another error.
    Error,
}

/// A report, and counts of queues, if these matter.
#[derive(Clone, Copy)]
struct Expected {
    report: &'static str,
    counts: &'static [u64],
}

/// The outcome of a crawl with room for all URLs.
fn outcome_by<F: Fetch + Sync, R: Threads + Wait + Sync>(
    rt: &R,
    alloc: Global,
    source: &F,
    plan: Plan,
    expected: Expected,
) -> Outcome {
    match plan.result(rt, alloc, source) {
        Some(Ok(found)) => {
            let are_counts = expected.counts.is_empty()
                || found.counts.as_slice() == expected.counts;
            if are_counts && is_report(alloc, found.result.pages(), expected.report) {
                Outcome::Expected
            } else {
                Outcome::Other
            }
        }
        Some(Err(CrawlError::Cert(CertError::NotFetched))) => Outcome::Lacks,
        _ => Outcome::Error,
    }
}

/// A crawl from the first of these seeds, or from both.
fn plan(seeds: &'static [&'static str], workers: u32, mode: Mode) -> Plan {
    Plan {
        seeds,
        workers,
        max_pending: 1_000_000,
        mode,
    }
}

/// The outcome of a crawl of a page that has moved.
fn one_moved<R: Threads + Wait + Sync>(rt: &R, alloc: Global, mode: Mode) -> Option<Outcome> {
    let expected = Expected {
        report: "moved http://a.test/\nmissing http://b.test/\ntotal 2 ok 0 missing 1 moved 1\n",
        counts: &[1, 1, 0],
    };
    let source = OneMoved {
        from: canonical(alloc, A).ok()?,
        to: canonical(alloc, B).ok()?,
    };
    Some(outcome_by(rt, alloc, &source, plan(&[A], 3, mode), expected))
}

// Both URLs are found, and counted.
#[test]
fn follows_a_page_that_moved(rt: HostRuntime) {
    for mode in [Mode::Turns, Mode::Threads] {
        assert!(rt; one_moved(&rt, rt.alloc(), mode) == Some(Outcome::Expected));
    }
}

/// The outcome of a crawl of the ring, of which some fetches fail.
fn of_ring<R: Threads + Wait + Sync>(
    rt: &R,
    alloc: Global,
    fails: Fails,
    workers: u32,
    mode: Mode,
) -> Option<Outcome> {
    let expected = Expected {
        report: RING_REPORT,
        counts: &[],
    };
    let source = Counting::new(alloc, RING, fails)?;
    Some(outcome_by(rt, alloc, &source, plan(&[A], workers, mode), expected))
}

// The seed is of the second host, so no page is found at all.
#[test]
fn failing_host(rt: HostRuntime) {
    for host in ["c.test", "a.test"] {
        for mode in [Mode::Turns, Mode::Threads] {
            let outcome = of_ring(&rt, rt.alloc(), Fails::OfHost(host), 1, mode);
            assert!(rt; outcome == Some(Outcome::Lacks), "{host}");
        }
    }
}

/// The outcome of a crawl of two pages in which the first fetch waits for another one. It succeeds only if two workers fetch at the
/// same time.
fn first_waits<R: Threads + Wait + Sync>(rt: &R, alloc: Global, mode: Mode) -> Option<Outcome> {
    let expected = Expected {
        report: "missing http://a.test/\nmissing http://b.test/\ntotal 2 ok 0 missing 2\n",
        counts: &[],
    };
    let source = Counting::new(alloc, "savedweb 1", Fails::Lonely)?;
    Some(outcome_by(rt, alloc, &source, plan(&[A, B], 2, mode), expected))
}

// Two mutants that satisfy every contract would fail here: `threads_in_turn`, whose threads run one after the other, would lose a
// URL in threads; `crawls_without_workers`, which walks the saved web itself, would lose none in turn.
#[test]
fn workers_run_together(rt: HostRuntime) {
    assert!(rt; first_waits(&rt, rt.alloc(), Mode::Threads) == Some(Outcome::Expected));
    assert!(rt; first_waits(&rt, rt.alloc(), Mode::Turns) == Some(Outcome::Lacks));
}

// The ring has four URLs, so one fetch fails. Whatever is lost, all workers end, and the crawl is incomplete or has the right report.
#[test]
fn incomplete_or_the_one_report(rt: HostRuntime) {
    for workers in [1, 4, 64] {
        for _ in 0..100 {
            let outcome = of_ring(&rt, rt.alloc(), Fails::EachThird, workers, Mode::Threads);
            assert!(rt;
                matches!(outcome, Some(Outcome::Expected | Outcome::Lacks)),
                "{workers}"
            );
        }
    }
}
