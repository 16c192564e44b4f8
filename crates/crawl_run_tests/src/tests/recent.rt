//! A worker remembers the URLs that it offered.
use crawl_keys::{CanonUrl, canonical};
use link_offers::testing::RecentUrls;
use std::alloc::Global;

const URLS: u32 = 5_000;

// The URL with this number.
fn numbered(alloc: Global, number: u32) -> Option<CanonUrl> {
    let text = format!(in alloc; "http://a.test/{number}").ok()?;
    canonical(alloc, text.as_str()).ok()
}

// Remembers the URL if it is not known, and returns whether it was not. In later rounds it comes again.
fn remember(alloc: Global, recent: &mut RecentUrls, number: u32, again: bool) -> Option<bool> {
    let mut url = numbered(alloc, number)?;
    if recent.has(&mut url) {
        return Some(false);
    }
    recent.remember(alloc, &url, again);
    Some(true)
}

// Remembers each of the URLs that is not known, and returns their number.
fn remember_unknown(alloc: Global, recent: &mut RecentUrls, again: bool) -> Option<u32> {
    let mut unknown = 0u32;
    for number in 0..URLS {
        if remember(alloc, recent, number, again)? {
            unknown = unknown.saturating_add(1);
        }
    }
    Some(unknown)
}

// No URL is known before it was remembered. After the first round, in which no URL comes again, fewer than half are known: the
// table is small. After the second round at most a quarter is unknown, and then a sixth: the table grows until few URLs share a
// slot. A body of `remember` that forgets everything also meets its clause.
fn remembers(alloc: Global) -> Option<bool> {
    let mut recent = RecentUrls::new(alloc);
    let first = remember_unknown(alloc, &mut recent, false)?;
    let second = remember_unknown(alloc, &mut recent, true)?;
    let third = remember_unknown(alloc, &mut recent, true)?;
    let fourth = remember_unknown(alloc, &mut recent, true)?;
    let few = second > URLS / 2 && third <= URLS / 4 && fourth <= URLS / 6;
    Some(first == URLS && second <= URLS && few)
}

#[test]
fn remembers_urls_that_were_offered(rt: HostRuntime) {
    assert!(rt; remembers(rt.alloc()) == Some(true));
}
