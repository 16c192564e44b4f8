//! Pages as values: the order of their links, and their redirects.
use crate::tests::results::{are_urls, result_at};
use crate::tests::webs::MOVED;
use crawl_pages::{Page, links_of};
use std::alloc::Global;

/// The page of a saved web at a URL: its kind, the number of skipped links, and the URLs that it leads to.
struct Row {
    web: &'static str,
    url: &'static str,
    kind: &'static str,
    skipped: u64,
    leads_to: &'static [&'static str],
}

const ODD: &str =
    "savedweb 1\n\npage HTTP://A.test:80/d/e?q#f\nlink \nlink #x\n\nlink mailto:x@a.test\nlink ../g\nlink g h\nlink http://[\nlink ?z\nlink ../g";

const ODD_LINKS: &[&str] = &[
    "http://a.test/d/e?q",
    "http://a.test/d/e?q",
    "http://a.test/g",
    "http://a.test/d/g%20h",
    "http://a.test/d/e?z",
    "http://a.test/g",
];

// Against the page, not against the root of its host; the text may be empty.
const MOVED_DEEPER: &str =
    "savedweb 2\npage HTTP://A.test:80/d/e?q#f\n\nmoved g\npage http://a.test/d/g\nmoved ";

const ROWS: &[Row] = &[
    Row {
        web: ODD,
        url: "http://a.test/d/e?q",
        kind: "found",
        skipped: 2,
        leads_to: ODD_LINKS,
    },
    Row {
        web: ODD,
        url: "http://A.TEST:80/d/./e?q#other",
        kind: "found",
        skipped: 2,
        leads_to: ODD_LINKS,
    },
    Row {
        web: ODD,
        url: "http://a.test/d/e",
        kind: "missing",
        skipped: 0,
        leads_to: &[],
    },
    Row {
        web: MOVED,
        url: "http://a.test/",
        kind: "moved",
        skipped: 0,
        leads_to: &["http://b.test/"],
    },
    Row {
        web: MOVED,
        url: "http://b.test/",
        kind: "moved",
        skipped: 0,
        leads_to: &[],
    },
    Row {
        web: MOVED,
        url: "http://c.test/",
        kind: "found",
        skipped: 0,
        leads_to: &["http://c.test/gone"],
    },
    Row {
        web: MOVED_DEEPER,
        url: "http://a.test/d/e?q",
        kind: "moved",
        skipped: 0,
        leads_to: &["http://a.test/d/g"],
    },
    Row {
        web: MOVED_DEEPER,
        url: "http://a.test/d/g",
        kind: "moved",
        skipped: 0,
        leads_to: &["http://a.test/d/g"],
    },
];

#[test]
fn pages_of_saved_webs(rt: HostRuntime) {
    for row in ROWS {
        assert!(rt; has_page(rt.alloc(), row), "{}", row.url);
    }
}

fn has_page(alloc: Global, row: &Row) -> bool {
    let Some(result) = result_at(alloc, &(row.web, row.url)) else {
        return false;
    };
    let is_kind = match &result.page {
        Page::Found { skipped, .. } => row.kind == "found" && *skipped == row.skipped,
        Page::Moved { .. } => row.kind == "moved",
        Page::Missing => row.kind == "missing",
    };
    is_kind && are_urls(links_of(&result.page), row.leads_to)
}
