//! The pages of a saved web: the content of a line, and a list of pages with different URLs.
#![tactic(auto)]

mod error;
mod known_page;
mod line;
mod link_text;
mod pages;
mod url_list;

pub use error::WebError;
pub use known_page::KnownPage;
pub use line::{Line, line_of};
pub use link_text::LinkText;
pub use pages::Pages;
pub use url_list::UrlList;
