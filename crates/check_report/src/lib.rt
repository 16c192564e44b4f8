//! The results of a check of a site's links, and the forms in which they are printed.
#![tactic(auto)]

mod as_annotations;
mod as_json;
mod as_junit;
mod as_page;
mod as_sarif;
mod as_text;
mod escape;
mod form;
mod hints;
/// Laws about escaped texts and about the natural order.
pub mod laws;
mod mark;
mod member;
mod messages;
mod names;
mod natural;
mod ordered;
mod paths;
mod piece;
mod printing;
mod put;
mod row;
mod schemes;
mod value;
mod view;
mod xml;

pub use as_junit::print_junit;
pub use as_sarif::print_sarif;
pub use printing::{print_annotations, print_json, print_page, print_text};
pub use put::NoMemory;
pub use value::{
    BaseHint, Broken, Contents, External, FileCount, Findings, Kind, Lists, Place, Redirect,
    Totals, is_broken,
};
