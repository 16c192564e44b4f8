//! The results of a crawl in ascending order of their URLs, sorted in one thread or in several.
#![tactic(auto)]

mod beginning;
mod numbered;
mod numbering;
mod sorting;

pub use sorting::in_order;
