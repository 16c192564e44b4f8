//! Crawls with an observer: what is reported to it, and that nothing else changes.
use crate::tests::sources::{Counting, Fails};
use crawl_keys::{Filter, canonical};
use crawl_pages::SessionFetch;
use crawl_report::report_text;
use crawl_run::{CrawlSettings, Mode, Observe, Watched, crawl_with};
use std::alloc::{AllocError, Global};
use std::sync::Wait;
use std::sync::atomic::{AtomicU64, Ordering};
use std::thread::Threads;

/// The number of calls of the observer, and the last value.
#[derive(Drop)]
struct Heard {
    calls: AtomicU64,
    last: AtomicU64,
}

impl Observe for Heard {
    fn fetched(&self, pages: u64) {
        self.calls.fetch_add(1, Ordering::SeqCst);
        self.last.store(pages, Ordering::SeqCst);
    }
}

impl Heard {
    fn nothing() -> Heard {
        Heard {
            calls: AtomicU64::new(0),
            last: AtomicU64::new(0),
        }
    }

    fn has(&self, calls: u64, last: u64) -> bool {
        self.calls.load(Ordering::SeqCst) == calls && self.last.load(Ordering::SeqCst) == last
    }
}

/// A page that links to this number of missing pages of its host.
fn star(alloc: Global, links: u64) -> Result<String, AllocError> {
    let mut web = String::from_str(alloc, "savedweb 1\npage http://a.test/\n")?;
    for link in 0..links {
        writeln!(web, "link {link}")?;
    }
    Ok(web)
}

/// The report of a crawl of this source from its first page.
fn report_of<F: SessionFetch + Sync, R: Threads + Wait + Sync>(
    rt: &R,
    alloc: Global,
    source: &F,
    mode: Mode,
) -> Option<Vec<u8>> {
    let every = Filter::new(alloc, &[]).ok()?;
    let seed = canonical(alloc, "http://a.test/").ok()?;
    let settings = CrawlSettings {
        workers: 3,
        max_pending: 1_000,
        mode,
        filter: &every,
    };
    let found = crawl_with(rt, alloc, source, &settings, &[seed]).ok()?;
    report_text(alloc, found.result.pages()).ok()
}

/// Whether a crawl of this web fetches each of 301 pages once, has its report, and calls its observer every 64 pages.
fn is_reported<R: Threads + Wait + Sync>(
    rt: &R,
    alloc: Global,
    web: &str,
    mode: Mode,
) -> Option<bool> {
    let source = Counting::new(alloc, web, Fails::None)?;
    let heard = Heard::nothing();
    let watched = report_of(rt, alloc, &Watched::new(&source, &heard), mode)?;
    let plain = report_of(rt, alloc, &source, mode)?;
    Some(watched == plain && source.begun() == 602 && heard.has(4, 256))
}

// All pages are of one host, so that one worker fetches them all.
#[test]
fn an_observer_sees_each_64_pages(rt: HostRuntime) -> Result<(), AllocError> {
    let web = star(rt.alloc(), 300)?;
    for mode in [Mode::Turns, Mode::Threads] {
        assert!(rt; is_reported(&rt, rt.alloc(), &web, mode) == Some(true));
    }
    Ok(())
}
