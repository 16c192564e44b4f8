//! Saved webs: text files that list pages and their links. This crate reads them, and returns the page at each URL.
#![tactic(auto)]

mod ahead;
mod folder;
mod known_links;
/// Theorems about saved webs.
pub mod laws;
mod link_cache;
mod links;
mod long;
mod reader;
mod threads;
mod web;
mod web_in_threads;
mod web_pages;
mod worth;

pub use saved_pages::WebError;
pub use web::SavedWeb;
pub use web_in_threads::WebInThreads;
