//! The messages of errors that no command can cause.
use crawl_certificate::CertError;
use crawl_frontier::{FinishError, FrontierError};
use crawl_run::{CrawlError, CrawlFailure};
use crawl_workers::RunError;
use mercator::CommandError;
use mercator::testing::error_line;
use std::alloc::Global;

const ROWS: &[(CrawlError, u8, &str)] = &[
    (
        CrawlError::Cert(CertError::SeedMissing),
        2,
        "mercator: incomplete: seed missing\n",
    ),
    (
        CrawlError::Cert(CertError::NotFetched),
        2,
        "mercator: incomplete: page not fetched\n",
    ),
    (
        CrawlError::Cert(CertError::LinkMissing),
        2,
        "mercator: incomplete: link missing\n",
    ),
    (
        CrawlError::Cert(CertError::Unfounded),
        2,
        "mercator: incomplete: unfounded URL\n",
    ),
    (
        CrawlError::Cert(CertError::Twice),
        2,
        "mercator: incomplete: fetched twice\n",
    ),
    (
        CrawlError::Finish(FinishError::MissingPart),
        2,
        "mercator: incomplete: part missing\n",
    ),
    (
        CrawlError::Finish(FinishError::Unsettled { word: 1 }),
        2,
        "mercator: incomplete: gate not closed\n",
    ),
    (
        CrawlError::Finish(FinishError::Disagree { queue: 12 }),
        2,
        "mercator: incomplete: subqueue 12 disagrees\n",
    ),
    (
        CrawlError::Run(RunError::NoThread),
        2,
        "mercator: incomplete: no thread\n",
    ),
    (
        CrawlError::Frontier(FrontierError::BadWorkers),
        1,
        "mercator: workers not from 1 to 512\n",
    ),
    (
        CrawlError::Frontier(FrontierError::BadLimit),
        1,
        "mercator: maximum not from 1 to 2^40\n",
    ),
    (CrawlError::NoMemory, 1, "mercator: out of memory\n"),
];

/// Whether a crawl that failed with this error has this exit status and this message.
fn holds(alloc: Global, error: CrawlError, status: u8, line: &str) -> bool {
    let failed = CommandError::from(CrawlFailure::from(error));
    match error_line(alloc, "-", &failed) {
        Ok(text) => failed.status() == status && text.as_str() == line,
        Err(_) => false,
    }
}

#[test]
fn line_of_each_incomplete_crawl(rt: HostRuntime) {
    for (error, status, line) in ROWS {
        assert!(rt; holds(rt.alloc(), *error, *status, line), "{line}");
    }
}
