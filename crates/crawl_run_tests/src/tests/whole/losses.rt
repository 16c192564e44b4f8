//! The losses of incomplete crawls, by cause.
use crate::tests::sources::{Counting, Fails};
use crate::tests::webs::RING;
use crawl_keys::{Filter, canonical};
use crawl_run::{CrawlSettings, Mode, crawl_with};
use link_offers::Losses;
use std::alloc::Global;
use std::sync::Wait;
use std::thread::Threads;

const NO_LOSSES: Losses = Losses {
    failed: 0,
    unkept: 0,
    full: 0,
    too_far: 0,
    crossed: 0,
    no_memory: 0,
};

/// The losses of a crawl of the ring whose source fails for one host, if it is incomplete.
fn lost<R: Threads + Wait + Sync>(
    rt: &R,
    alloc: Global,
    max_pending: u64,
    mode: Mode,
) -> Option<Losses> {
    let source = Counting::new(alloc, RING, Fails::OfHost("c.test"))?;
    let every = Filter::new(alloc, &[]).ok()?;
    let seed = canonical(alloc, "http://a.test/").ok()?;
    let settings = CrawlSettings {
        workers: 3,
        max_pending,
        mode,
        filter: &every,
    };
    match crawl_with(rt, alloc, &source, &settings, &[seed]) {
        Ok(_) => None,
        Err(failure) => Some(failure.losses),
    }
}

// A fetch fails; or the unit of the seeding phase is the only one, so that the seed finds the gate full.
#[test]
fn losses_by_why(rt: HostRuntime) {
    let failed = Some(Losses {
        failed: 1,
        ..NO_LOSSES
    });
    let full = Some(Losses {
        full: 1,
        ..NO_LOSSES
    });
    for mode in [Mode::Turns, Mode::Threads] {
        assert!(rt; lost(&rt, rt.alloc(), 1_000, mode) == failed);
        assert!(rt; lost(&rt, rt.alloc(), 1, mode) == full);
    }
}
