//! A whole crawl of any source of pages: workers fetch every page that can be reached from the seeds, and what they leave is
//! certified.
//!
//! - [`crawl`] and [`crawl_with`] crawl a source of pages: a `Fetch` of `crawl_pages`, or a `SessionFetch`.
//! - [`Watched`] is a source that reports to an observer how many pages were fetched.
#![tactic(auto)]

mod certificate;
mod crawled;
mod error;
mod failure;
/// Theorems that connect the definitions of this crate and of the crates below it.
pub mod laws;
mod run;
mod run_output;
mod settings;
mod watched;
mod whole_crawl;

pub use crawled::Crawled;
pub use error::CrawlError;
pub use failure::CrawlFailure;
pub use settings::{CrawlSettings, Mode};
pub use watched::{Observe, Watched};
pub use whole_crawl::{crawl, crawl_with};
