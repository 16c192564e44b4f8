//! The seeds of a crawl from a file, and the pages that link to missing URLs.
#![tactic(auto)]

mod counting;
/// Laws about sources and seeds.
pub mod laws;
mod seeds;
mod tally;

pub use counting::{Tallies, tally_links, tally_of};
pub use seeds::{SeedsError, read_seeds};
pub use tally::Tally;
