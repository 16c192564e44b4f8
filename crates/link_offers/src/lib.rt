//! Offers the links of a page: each one that the worker does not remember. Counts those that are lost.
#![tactic(auto)]

mod losses;
mod offers;
mod recent;

/// Parts of the offers that only tests use.
pub mod testing {
    pub use crate::recent::RecentUrls;
}

pub use losses::{Loss, Losses};
pub use offers::LinkOffers;
