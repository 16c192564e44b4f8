//! Reports and their sources, of results in any order, with duplicates, or that no crawl has.
use crate::tests::results::{Target, is_report, result_at};
use crate::tests::webs::{MOVED, RING, RING_REPORT};
use crawl_pages::{Page, PageResult};
use crawl_report::{Report, Sections, Sources, print_in_chunks, queue_text};
use std::alloc::Global;
use std::thread::Threads;

/// Results in their order of arrival, and their report. If they arrive in the order of their URLs, also the sources of its missing URLs.
struct Row {
    results: &'static [Target],
    report: &'static str,
    sources: Option<&'static str>,
}

/// The queues of each report.
const QUEUES: &[u64] = &[3, 0];

const QUEUE_LINES: &str = "queue 0 3\nqueue 1 0\n";

const RING_A: Target = (RING, "http://a.test/");

const RING_B: Target = (RING, "http://b.test/");

const RING_C: Target = (RING, "http://c.test/");

const RING_GONE: Target = (RING, "http://c.test/gone");

const RING_SOURCES: &str = "from 1 http://c.test/ http://c.test/gone\n";

const NONE: &str = "savedweb 1";

const OTHER: Target = (NONE, "http://a.test/2");

// Three results of one URL.
const FIRST: Target = ("savedweb 1\npage http://a.test/\nlink x", "http://a.test/");

const SECOND: Target = (
    "savedweb 1\npage http://a.test/\nlink x\nlink mailto:x",
    "http://a.test/",
);

const THIRD: Target = (NONE, "http://a.test/");

// `gone` is twice on one page and once on another. `b` links to `c.test/x`, and `b.test` redirects there.
const BROKEN: &str =
    "savedweb 2\npage http://a.test/\nlink gone\nlink /b\nlink gone#there\npage http://a.test/b\nlink gone\nlink http://c.test/x\npage http://b.test/\nmoved http://c.test/x\n";

const BROKEN_REPORT: &str =
    "ok 3 0 http://a.test/\nok 2 0 http://a.test/b\nmissing http://a.test/gone\nmoved http://b.test/\nmissing http://c.test/x\nmissing http://z.test/\ntotal 6 ok 2 missing 3 moved 1\n";

const BROKEN_SOURCES: &str =
    "from 2 http://a.test/ http://a.test/gone\nfrom 2 http://a.test/b http://c.test/x\nfrom 0 - http://z.test/\n";

const LETTERS: &str =
    "savedweb 1\npage http://a.test/9\nlink x\nlink X\npage http://a.test/10\nlink x\n";

const ROWS: &[Row] = &[
    Row {
        results: &[],
        report: "total 0 ok 0 missing 0\n",
        sources: Some(""),
    },
    Row {
        results: &[RING_A, RING_B, RING_C, RING_GONE],
        report: RING_REPORT,
        sources: Some(RING_SOURCES),
    },
    Row {
        results: &[RING_GONE, RING_C, RING_B, RING_A],
        report: RING_REPORT,
        sources: None,
    },
    Row {
        results: &[RING_C, RING_A, RING_GONE, RING_B],
        report: RING_REPORT,
        sources: None,
    },
    // Results with one URL keep their order.
    Row {
        results: &[OTHER, FIRST, SECOND, THIRD],
        report: "ok 1 0 http://a.test/\nok 2 1 http://a.test/\nmissing http://a.test/\nmissing http://a.test/2\ntotal 4 ok 2 missing 2\n",
        sources: None,
    },
    Row {
        results: &[FIRST, SECOND, THIRD, OTHER],
        report: "ok 1 0 http://a.test/\nok 2 1 http://a.test/\nmissing http://a.test/\nmissing http://a.test/2\ntotal 4 ok 2 missing 2\n",
        sources: Some("from 0 - http://a.test/\nfrom 0 - http://a.test/2\n"),
    },
    Row {
        results: &[THIRD, SECOND, OTHER, FIRST],
        report: "missing http://a.test/\nok 2 1 http://a.test/\nok 1 0 http://a.test/\nmissing http://a.test/2\ntotal 4 ok 2 missing 2\n",
        sources: None,
    },
    Row {
        results: &[THIRD, SECOND, FIRST, OTHER],
        report: "missing http://a.test/\nok 2 1 http://a.test/\nok 1 0 http://a.test/\nmissing http://a.test/2\ntotal 4 ok 2 missing 2\n",
        sources: Some("from 0 - http://a.test/\nfrom 0 - http://a.test/2\n"),
    },
    Row {
        results: &[
            (MOVED, "http://c.test/"),
            (MOVED, "http://a.test/"),
            (MOVED, "http://b.test/"),
        ],
        report: "moved http://a.test/\nmoved http://b.test/\nok 1 0 http://c.test/\ntotal 3 ok 1 missing 0 moved 2\n",
        sources: None,
    },
    Row {
        results: &[
            (MOVED, "http://a.test/"),
            (MOVED, "http://b.test/"),
            (MOVED, "http://c.test/"),
        ],
        report: "moved http://a.test/\nmoved http://b.test/\nok 1 0 http://c.test/\ntotal 3 ok 1 missing 0 moved 2\n",
        sources: Some(""),
    },
    Row {
        results: &[
            (BROKEN, "http://a.test/"),
            (BROKEN, "http://a.test/b"),
            (BROKEN, "http://a.test/gone"),
            (BROKEN, "http://b.test/"),
            (BROKEN, "http://c.test/x"),
            (BROKEN, "http://z.test/"),
        ],
        report: BROKEN_REPORT,
        sources: Some(BROKEN_SOURCES),
    },
    Row {
        results: &[
            (BROKEN, "http://z.test/"),
            (BROKEN, "http://c.test/x"),
            (BROKEN, "http://b.test/"),
            (BROKEN, "http://a.test/gone"),
            (BROKEN, "http://a.test/b"),
            (BROKEN, "http://a.test/"),
        ],
        report: BROKEN_REPORT,
        sources: None,
    },
    // `gone` is linked from both, and is not a result.
    Row {
        results: &[(BROKEN, "http://a.test/"), (BROKEN, "http://a.test/b")],
        report: "ok 3 0 http://a.test/\nok 2 0 http://a.test/b\ntotal 2 ok 2 missing 0\n",
        sources: Some(""),
    },
    Row {
        results: &[(BROKEN, "http://a.test/gone")],
        report: "missing http://a.test/gone\ntotal 1 ok 0 missing 1\n",
        sources: Some("from 0 - http://a.test/gone\n"),
    },
    // The order is by bytes, not by number or letter. A duplicate result counts twice, and has two lines.
    Row {
        results: &[
            (LETTERS, "http://a.test/x"),
            (LETTERS, "http://a.test/9"),
            (LETTERS, "http://a.test/x"),
            (LETTERS, "http://a.test/X"),
            (LETTERS, "http://a.test/10"),
            (LETTERS, "http://a.test/9"),
        ],
        report: "ok 1 0 http://a.test/10\nok 2 0 http://a.test/9\nok 2 0 http://a.test/9\nmissing http://a.test/X\nmissing http://a.test/x\nmissing http://a.test/x\ntotal 6 ok 3 missing 3\n",
        sources: None,
    },
    Row {
        results: &[
            (LETTERS, "http://a.test/10"),
            (LETTERS, "http://a.test/9"),
            (LETTERS, "http://a.test/9"),
            (LETTERS, "http://a.test/X"),
            (LETTERS, "http://a.test/x"),
            (LETTERS, "http://a.test/x"),
        ],
        report: "ok 1 0 http://a.test/10\nok 2 0 http://a.test/9\nok 2 0 http://a.test/9\nmissing http://a.test/X\nmissing http://a.test/x\nmissing http://a.test/x\ntotal 6 ok 3 missing 3\n",
        sources: Some(
            "from 2 http://a.test/9 http://a.test/X\nfrom 3 http://a.test/10 http://a.test/x\nfrom 3 http://a.test/10 http://a.test/x\n",
        ),
    },
];

#[test]
fn reports_and_sources(rt: HostRuntime) {
    let wrong = first_wrong(&rt, rt.alloc(), ROWS);
    assert!(rt; wrong.is_none(), "{}", wrong.unwrap_or(""));
    let queues = queue_text(rt.alloc(), QUEUES);
    assert!(rt; queues.is_ok_and(|text| text.as_slice() == QUEUE_LINES.as_bytes()));
}

// The first report of another text.
fn first_wrong<R: Threads + Sync>(rt: &R, alloc: Global, rows: &[Row]) -> Option<&'static str> {
    for row in rows {
        if !is_row(rt, alloc, row) {
            return Some(row.report);
        }
    }
    None
}

fn is_row<R: Threads + Sync>(rt: &R, alloc: Global, row: &Row) -> bool {
    let Some(results) = results_of(alloc, row.results) else {
        return false;
    };
    let is_printed = match row.sources {
        Some(sources) => is_printed(rt, alloc, &results, row.report, sources),
        None => true,
    };
    is_printed && is_report(alloc, &results, row.report)
}

fn results_of(alloc: Global, targets: &[Target]) -> Option<Vec<PageResult>> {
    let mut results = Vec::new(alloc);
    for target in targets {
        results.push(result_at(alloc, target)?).ok()?;
    }
    Some(results)
}

// Whether the results are printed as their report, then the queues, and then the sources.
fn is_printed<R: Threads + Sync>(
    rt: &R,
    alloc: Global,
    results: &[PageResult],
    report: &str,
    sources: &str,
) -> bool {
    match printed(rt, alloc, results) {
        Some(text) => is_text(text.as_slice(), report, sources),
        None => false,
    }
}

fn is_text(text: &[u8], report: &str, sources: &str) -> bool {
    let Some(rest) = text.strip_prefix(report.as_bytes()) else {
        return false;
    };
    rest.strip_prefix(QUEUE_LINES.as_bytes()) == Some(sources.as_bytes())
}

// The report of results in the order of their URLs.
fn printed<R: Threads + Sync>(rt: &R, alloc: Global, results: &[PageResult]) -> Option<Vec<u8>> {
    let report = Report {
        pages: results,
        queues: QUEUES,
        unreached: &[],
        sections: Sections {
            sources: Sources::First,
            ..Sections::none()
        },
    };
    let chunks = print_in_chunks(rt, alloc, &report, false, true).ok()?;
    let mut text = Vec::new(alloc);
    for chunk in &chunks {
        text.extend_from_slice(chunk).ok()?;
    }
    Some(text)
}

/// A saved web, and the report of its page as if it had more links by the most that a `u64` can count.
const PAST_64_BITS: &[Target] = &[
    (
        "savedweb 1\npage http://a.test/",
        "ok 18446744073709551615 18446744073709551615 http://a.test/\ntotal 1 ok 1 missing 0\n",
    ),
    (
        "savedweb 1\npage http://a.test/\nlink x",
        "ok 18446744073709551616 18446744073709551615 http://a.test/\ntotal 1 ok 1 missing 0\n",
    ),
    (
        "savedweb 1\npage http://a.test/\nlink x\nlink x\nlink y",
        "ok 18446744073709551618 18446744073709551615 http://a.test/\ntotal 1 ok 1 missing 0\n",
    ),
];

#[test]
fn links_past_64_bits(rt: HostRuntime) {
    for row in PAST_64_BITS {
        assert!(rt; is_counted(rt.alloc(), row), "{}", row.1);
    }
}

fn is_counted(alloc: Global, row: &Target) -> bool {
    let Some(mut result) = result_at(alloc, &(row.0, "http://a.test/")) else {
        return false;
    };
    if let Page::Found { skipped, .. } = &mut result.page {
        *skipped = u64::MAX;
    }
    is_report(alloc, &[result], row.1)
}
