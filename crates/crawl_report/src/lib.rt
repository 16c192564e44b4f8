//! The report of a crawl as a value, its rows, and every way to print them.
#![tactic(auto)]

mod as_json;
/// What holds of reports.
pub mod laws;
mod out;
mod printing;
mod queues;
mod report;
mod results;
mod row;
mod sections;
mod text_form;
mod threads;
mod unseen;

pub use crawl_pages::NoMemory;
pub use printing::print_in_chunks;
pub use queues::queue_text;
pub use report::Report;
pub use row::Row;
pub use sections::{Sections, Sources};
pub use text_form::report_text;
pub use unseen::unreached;
