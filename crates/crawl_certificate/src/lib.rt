//! The certificate of a crawl: that its results are the pages of exactly the URLs that can be reached.
//!
//! [`certify`] searches a run's account and results for five errors. If it finds none, no URL was missed and none was made up,
//! whatever the threads did.
#![tactic(auto)]

mod certificate;
mod chains;
mod chunk;
mod culprit;
mod error;
mod founded;
/// Laws about certificates.
pub mod laws;
mod least;
mod lookups;
mod marks;
mod missing;
pub mod testing;
mod threads;
mod walk;

pub use certificate::{CertifySettings, CrawlResult, certify, certify_with};
pub use culprit::Culprit;
pub use error::CertError;
