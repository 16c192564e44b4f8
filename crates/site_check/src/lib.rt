//! Finds the broken links of a site in the results of a crawl of its saved web, and their locations.
#![tactic(auto)]

mod anchors;
mod base;
mod check;
mod check_error;
mod complete;
mod file_entries;
mod hints;
mod ignored;
mod indexed;
mod input;
mod invalid;
pub mod laws;
mod leads;
mod leaving;
mod link_base;
mod linked;
mod located;
mod maps;
mod missing_anchors;
mod names;
mod outside;
mod own_fronts;
mod own_links;
mod page_links;
mod pattern;
mod rows;
mod shown;
mod site_pages;
mod threads;
mod totals;
mod unlisted;
mod unreached;
mod url_sets;
mod worst;

pub use check::{Checked, check_site};
pub use check_error::CheckError;
pub use ignored::read_ignores;
pub use input::{CheckInput, MapName, Scope};
pub use maps::is_under;
pub use unlisted::ignore_unlisted;
