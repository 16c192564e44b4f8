//! Makes the saved web of a folder of files: the pages that a plain static server returns, with the links that a browser reads in
//! them.
#![tactic(auto)]

mod aliases;
mod all_pages;
mod below;
mod file_document;
pub mod laws;
mod linked;
mod new_page;
mod on_disk;
mod page;
mod page_maker;
mod page_sink;
mod rounds;
mod site_data;
mod site_name;
mod site_reader;
mod sitemaps;
mod spellings;
mod task;
mod tasks;
mod web;
mod web_text;

pub use all_pages::has_all_pages;
pub use file_document::root_of;
pub use linked::LinkedPages;
pub use on_disk::OnDisk;
pub use page::{LineText, SiteAnchors, SitePage, Under};
pub use web::{LinkedSite, Web, site_pages, site_web};
pub use web_text::WebText;
