//! The pages of a crawl, the sources that they come from, and the order of results.
#![tactic(auto)]

mod fetch;
/// Theorems about the order of results.
pub mod laws;
mod page;
mod session;

pub use fetch::{Fetch, FetchError};
pub use page::{Links, NoMemory, Page, PageResult, links_of};
pub use session::SessionFetch;
