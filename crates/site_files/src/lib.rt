//! Which file of a folder each URL of a site is, from the names of the files: what a plain static server returns.
#![tactic(auto)]

mod alias;
mod below;
mod body;
mod error;
mod escapes;
mod files;
mod folder;
mod hint;
mod homes;
mod kinds;
pub mod laws;
mod listed;
mod notes;
mod own_pages;
mod page_table;
mod pages;
mod rules;
mod site;
mod site_list;
mod sitemaps;
mod skipped;
mod spellings;
mod starts;
mod walk;

pub use alias::{Alias, FolderLink};
pub use below::is_below;
pub use body::{Body, FileBytes, InMemory};
pub use error::SiteError;
pub use files::{SiteFile, SiteFiles, SiteNames};
pub use hint::Hint;
pub use kinds::FileKind;
pub use notes::{Left, Note};
pub use rules::{Rules, split_name};
pub use site_list::{ListError, SiteList, read_site_list};
pub use skipped::SkippedLink;
pub use spellings::before_query;
pub use walk::{FolderNames, folder_names};
