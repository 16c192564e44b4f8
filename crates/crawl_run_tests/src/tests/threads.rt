//! Runs with few and many workers: that each URL is fetched once, and that all workers end whatever is lost.
use crate::tests::runs::{How, Run};
use crate::tests::sources::{Counting, Fails};
use crate::tests::webs::RING;
use std::alloc::Global;
use std::sync::Wait;
use std::test::Fail;
use std::thread::Threads;

/// How many URLs a run lost, how many results it has, and the number of its fetches.
type Counts = (u64, usize, u64);

// The counts of a run with room for all URLs.
fn counts<R: Threads + Wait + Sync>(
    rt: &R,
    alloc: Global,
    web: &str,
    fails: Fails,
    workers: u32,
    how: How,
) -> Option<Counts> {
    let source = Counting::new(alloc, web, fails)?;
    let run = Run {
        workers,
        max_pending: 1_000_000,
        within: &[],
        seeds: &["http://a.test/"],
        how,
    };
    let left = run.left(rt, alloc, &source)?;
    Some((left.lost, left.results.len(), source.begun()))
}

// The URLs of results differ, and each has the page of its URL, so four fetches for four results are one for each. An offer that
// returned `Accepted` and dropped the URL (`drops_accepted_url`) would fail here, since nothing would be fetched.
#[test]
fn each_url_of_the_ring_is_fetched_once(rt: HostRuntime) {
    for workers in [1, 2, 3, 64, 512] {
        for how in [How::Turns, How::Threads] {
            let counts = counts(&rt, rt.alloc(), RING, Fails::None, workers, how);
            assert!(rt; counts == Some((0, 4, 4)), "{workers} workers");
        }
    }
}

const PAGES: usize = 300;

// A page on each of many hosts: the first links to page 0, page n to the pages 3n + 1 to 3n + 3.
fn tree(alloc: Global) -> Result<String, Fail> {
    let mut text = String::from_str(
        alloc,
        "savedweb 1\npage http://a.test/\nlink http://h0.test\n",
    )?;
    for page in 0..PAGES {
        let (one, two, three) = (3 * page + 1, 3 * page + 2, 3 * page + 3);
        let lines = format!(in alloc;
            "page http://h{page}.test\nlink http://h{one}.test\nlink http://h{two}.test\nlink http://h{three}.test\n"
        )?;
        text.push_str(&lines)?;
    }
    Ok(text)
}

// Whether a run on the tree in which every third fetch fails loses these fetches, and nothing else.
fn loses_each_third<R: Threads + Wait + Sync>(
    rt: &R,
    alloc: Global,
    text: &str,
    workers: u32,
) -> bool {
    match counts(rt, alloc, text, Fails::EachThird, workers, How::Threads) {
        Some((lost, results, fetched)) => {
            lost == fetched / 3 && results as u64 == fetched - fetched / 3
        }
        None => false,
    }
}

// A URL that is lost is done too, so all workers end. Each URL that is not found is lost once.
#[test]
fn workers_end_whatever_is_lost(rt: HostRuntime) -> Result<(), Fail> {
    let text = tree(rt.alloc())?;
    for workers in [1, 4, 64] {
        for _ in 0..10 {
            assert!(rt;
                loses_each_third(&rt, rt.alloc(), &text, workers),
                "{workers} workers"
            );
        }
    }
    Ok(())
}
