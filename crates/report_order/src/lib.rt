//! The order of the results in a report: ascending by URL.
#![tactic(auto)]

mod references;

pub use references::results_by_url;
